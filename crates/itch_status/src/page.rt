//! The pages of the status port.
ghost use Rattle.std.specs.Prelude.{◌≡◌, ◌≤◌, IsTrue, length};
ghost use Rattle.itch_status.specs.Pages.{after_host, before_query, is_absolute, or_root, page_of, path_of};

/// A page of the status port.
#[derive(Clone, Copy, Debug, PartialEq, Eq)]
pub enum StatusPage {
    /// `/`, for people.
    People,
    /// `/metrics`, for Prometheus.
    Metrics,
    /// `/healthz`: confirms that the server runs.
    Health,
    /// `/readyz`: states whether a client that logs in now receives the feed's market.
    Ready,
    /// `/status`, as JSON.
    Status,
    /// `/status.txt`, as lines.
    Lines,
}

/// Returns the page for a request's target, in origin form or in absolute form, for any query after its path.
#[tactic(auto, unfolding(crate::specs::Pages::page_of))]
pub fn page_of(target: &[u8]) -> Option<StatusPage>
    ensures { result ≡ page_of target.now }
{
    let path = path_of(target);
    if path == b"/".as_slice() {
        Some(StatusPage::People)
    } else if path == b"/metrics".as_slice() {
        Some(StatusPage::Metrics)
    } else if path == b"/healthz".as_slice() {
        Some(StatusPage::Health)
    } else if path == b"/readyz".as_slice() {
        Some(StatusPage::Ready)
    } else if path == b"/status".as_slice() {
        Some(StatusPage::Status)
    } else if path == b"/status.txt".as_slice() {
        Some(StatusPage::Lines)
    } else {
        None
    }
}

// Returns the path of a target.
fn path_of(target: &[u8]) -> &[u8]
    ensures { result.now ≡ path_of target.now }
{
    if is_absolute(target) {
        or_root(before_query(after_host(&target[SCHEME.len()..])))
    } else {
        before_query(target)
    }
}

const SCHEME: &[u8; 7] = b"http://";

// Returns whether a target begins with the scheme and a host.
fn is_absolute(target: &[u8]) -> bool
    ensures absolute { result ≡ is_absolute target.now }
    ensures long { IsTrue result → 7 ≤ length target.now }
{
    target.len() >= SCHEME.len() && target[..SCHEME.len()].eq_ignore_ascii_case(SCHEME)
}

// Returns the part of a target after its host.
fn after_host(target: &[u8]) -> &[u8]
    ensures { result.now ≡ after_host target.now }
{
    for (at, &byte) in target.iter().enumerate() {
        if byte == b'/' || byte == b'?' {
            return &target[at..];
        }
    }
    b""
}

// Returns a path, or the path of the page for people if it is empty.
fn or_root(path: &[u8]) -> &[u8]
    ensures { result.now ≡ or_root path.now }
{
    if path.is_empty() { b"/" } else { path }
}

// Returns the part of a target before its query.
fn before_query(target: &[u8]) -> &[u8]
    ensures { result.now ≡ before_query target.now }
{
    for (at, &byte) in target.iter().enumerate() {
        if byte == b'?' {
            return &target[..at];
        }
    }
    target
}
