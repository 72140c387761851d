//! Reads the response of a status port, for its client.
ghost use Rattle.std.specs.Prelude.{◌≡◌};
ghost use Rattle.itch_status.specs.Readings.{says_ready};

use httparse::Status;
use httparse::spans::{EMPTY_HEADER_SPAN, parse_response};

/// The maximum number of fields in the head of a response.
const MOST_FIELDS: usize = 64;

/// Returns the body of a complete response, if its status is 200.
pub fn body_of(bytes: &[u8]) -> Option<&[u8]> {
    let mut fields = [EMPTY_HEADER_SPAN; MOST_FIELDS];
    match parse_response(bytes, &mut fields) {
        Ok(Status::Complete(head)) if head.code == 200 => Some(&bytes[head.len..]),
        _ => None,
    }
}

/// Returns whether the body of a status, as lines or as JSON, states that the server is ready.
pub fn is_ready(body: &[u8]) -> bool
    ensures { result ≡ says_ready body.now }
{
    body.starts_with(b"ready yes\n") || body.starts_with(b"{\"ready\":true,")
}
