//! Requests that are not answered with a page.
ghost use Rattle.std.specs.Prelude.{◌≡◌};
ghost use Rattle.itch_status.specs.Responses.{refusal_code};

use http::StatusCode;

/// The reason why a request is not answered with a page.
#[derive(Clone, Copy, Debug, PartialEq, Eq)]
pub enum RequestRefusal {
    /// It is not an HTTP/1.1 or HTTP/1.0 request.
    BadRequest,
    /// There is no page at its path.
    NotFound,
    /// It is neither a GET nor a HEAD.
    MethodNotAllowed,
    /// It was not complete in time.
    TimedOut,
    /// It is longer than 8 KiB, or has more than 64 fields.
    TooLarge,
}

impl RequestRefusal {
    /// Returns the status code of the response.
    pub fn code(self) -> StatusCode
        ensures { result ≡ refusal_code self }
    {
        match self {
            RequestRefusal::BadRequest => StatusCode::BAD_REQUEST,
            RequestRefusal::NotFound => StatusCode::NOT_FOUND,
            RequestRefusal::MethodNotAllowed => StatusCode::METHOD_NOT_ALLOWED,
            RequestRefusal::TimedOut => StatusCode::REQUEST_TIMEOUT,
            RequestRefusal::TooLarge => StatusCode::REQUEST_HEADER_FIELDS_TOO_LARGE,
        }
    }
}
