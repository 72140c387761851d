//! The answer to a request, of which only a part may have arrived.
ghost use Rattle.std.specs.Prelude.{◌≡◌};
ghost use Rattle.itch_status.specs.Pages.{method_answer, page_answer, refused};
ghost use Rattle.itch_status.specs.Requests.{Answers};

use crate::page::{StatusPage, page_of};
use crate::refusal::RequestRefusal;
use httparse::spans::{EMPTY_HEADER_SPAN, parse_request};
use httparse::{Error, Status};

/// The maximum number of bytes that are read of a request.
pub const LONGEST: usize = 8_192;

/// The maximum number of fields in its head.
const MOST_FIELDS: usize = 64;

/// The answer to a request.
#[derive(Clone, Copy, Debug, PartialEq, Eq)]
pub enum StatusAnswer {
    /// No answer yet: the head is not complete.
    More,
    /// This page, with its body, or without a body for HEAD.
    Page {
        page: StatusPage,
        has_body: bool,
    },
    /// No page: a body with the reason, or no body for HEAD.
    Refused {
        refusal: RequestRefusal,
        has_body: bool,
    },
}

/// Returns this refusal, with a body.
pub fn refused(refusal: RequestRefusal) -> StatusAnswer
    ensures { result ≡ refused refusal }
{
    StatusAnswer::Refused {
        refusal,
        has_body: true,
    }
}

/// Returns the answer to the request at the front of the bytes. Bytes after its head are ignored.
pub fn answer_to(bytes: &[u8]) -> StatusAnswer
    ensures { Answers bytes.now result }
{
    let mut fields = [EMPTY_HEADER_SPAN; MOST_FIELDS];
    match parse_request(bytes, &mut fields) {
        Ok(Status::Complete(head)) => answer_of(head.method.of(bytes), head.path.of(bytes)),
        Ok(Status::Partial) if bytes.len() >= LONGEST => refused(RequestRefusal::TooLarge),
        Ok(Status::Partial) => StatusAnswer::More,
        Err(Error::TooManyHeaders) => refused(RequestRefusal::TooLarge),
        Err(_) => refused(RequestRefusal::BadRequest),
    }
}

// Returns the answer to a request with this method and this target.
fn answer_of(method: &[u8], target: &[u8]) -> StatusAnswer
    ensures { result ≡ method_answer method.now target.now }
{
    if method == b"GET".as_slice() {
        page_answer(true, page_of(target))
    } else if method == b"HEAD".as_slice() {
        page_answer(false, page_of(target))
    } else {
        refused(RequestRefusal::MethodNotAllowed)
    }
}

fn page_answer(has_body: bool, page: Option<StatusPage>) -> StatusAnswer
    ensures { result ≡ page_answer has_body page }
{
    match page {
        Some(page) => StatusAnswer::Page { page, has_body },
        None => StatusAnswer::Refused {
            refusal: RequestRefusal::NotFound,
            has_body,
        },
    }
}
