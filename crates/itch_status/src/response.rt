//! HTTP responses.
ghost use Rattle.std.specs.Prelude.{◌≡◌, ◌+◌, ◌≤◌, ◌++◌, length, decimal, codes, IfOk};
ghost use Rattle.arrayvec.specs.ArrayVec.{array_vec_len};
ghost use Rattle.itch_status.specs.Responses.{allow, content_type, date_field, head_text, page_body, page_code, page_response, phrase, ready_code, ready_words, refusal_response, status_text, with_body};

use crate::figures::Figures;
use crate::html::html;
use crate::json::json;
use crate::line::{push, push_number};
use crate::lines::lines;
use crate::metrics::metrics;
use crate::page::StatusPage;
use crate::refusal::RequestRefusal;
use arrayvec::ArrayVec;
use http::StatusCode;
use httpdate::HttpDate;
use std::alloc::{AllocError, Global};

/// Room for the head of a response.
const HEAD: usize = 512;

/// Returns the response with a page, or only its head.
pub fn respond(
    alloc: Global,
    page: StatusPage,
    has_body: bool,
    figures: &Figures,
    version: &str,
    date: Option<HttpDate>,
) -> Result<Vec<u8>, AllocError>
    ensures { IfOk result (λ response. response.items ≡ page_response page has_body figures.now version.now date) }
{
    let body = body_of(alloc, page, figures, version)?;
    let code = code_of(page, figures);
    whole(
        alloc,
        code,
        content_type(page),
        body.as_slice(),
        has_body,
        date,
    )
}

/// Returns the response to a request that is not answered with a page, or only its head.
pub fn refuse(
    alloc: Global,
    refusal: RequestRefusal,
    has_body: bool,
    date: Option<HttpDate>,
) -> Result<Vec<u8>, AllocError>
    ensures { IfOk result (λ response. response.items ≡ refusal_response refusal has_body date) }
{
    let code = refusal.code();
    let words = words_of(code);
    whole(alloc, code, TEXT, words.as_slice(), has_body, date)
}

// Returns a response with a body of this type, or only its head.
fn whole(
    alloc: Global,
    code: StatusCode,
    kind: &[u8],
    body: &[u8],
    has_body: bool,
    date: Option<HttpDate>,
) -> Result<Vec<u8>, AllocError>
    requires { length kind.now ≤ 45 }
    ensures { IfOk result (λ response. response.items ≡ with_body has_body (head_text code kind.now (length body.now) date) body.now) }
{
    let mut response = Vec::new(alloc);
    response.extend_from_slice(head(code, kind, body.len(), date).as_slice())?;
    if has_body {
        response.extend_from_slice(body)?;
    }
    Ok(response)
}

const TEXT: &[u8] = b"text/plain; charset=utf-8";

// Returns the content type of a page.
fn content_type(page: StatusPage) -> &'static [u8]
    ensures text { result.now ≡ content_type page }
    ensures short { length result.now ≤ 45 }
{
    match page {
        StatusPage::People => b"text/html; charset=utf-8",
        StatusPage::Metrics => b"text/plain; version=0.0.4; charset=utf-8",
        StatusPage::Status => b"application/json",
        StatusPage::Health | StatusPage::Ready | StatusPage::Lines => TEXT,
    }
}

// Returns the status code of a page.
fn code_of(page: StatusPage, figures: &Figures) -> StatusCode
    ensures { result ≡ page_code page figures.now }
{
    match page {
        StatusPage::Ready => ready_code(figures.is_ready()),
        _ => StatusCode::OK,
    }
}

fn ready_code(is_ready: bool) -> StatusCode
    ensures { result ≡ ready_code is_ready }
{
    if is_ready {
        StatusCode::OK
    } else {
        StatusCode::SERVICE_UNAVAILABLE
    }
}

fn body_of(
    alloc: Global,
    page: StatusPage,
    figures: &Figures,
    version: &str,
) -> Result<Vec<u8>, AllocError>
    ensures { IfOk result (λ body. body.items ≡ page_body page figures.now version.now) }
{
    match page {
        StatusPage::People => html(alloc, figures, version),
        StatusPage::Metrics => metrics(alloc, figures, version),
        StatusPage::Status => json(alloc, figures, version),
        StatusPage::Lines => lines(alloc, figures, version),
        StatusPage::Health => Vec::from_slice(alloc, b"ok\n"),
        StatusPage::Ready => Vec::from_slice(alloc, ready_words(figures.is_ready())),
    }
}

fn ready_words(is_ready: bool) -> &'static [u8]
    ensures { result.now ≡ ready_words is_ready }
{
    if is_ready { b"ready\n" } else { b"not ready\n" }
}

// Returns the body for a status: a line with its code and its phrase.
fn words_of(code: StatusCode) -> ArrayVec<u8, 64>
    ensures { result.items ≡ status_text code ++ codes "\n" }
{
    let mut line = ArrayVec::new();
    push_status(&mut line, code);
    push(&mut line, b"\n");
    line
}

// Returns the head of a response whose body has this type and this length.
#[tactic(auto, using(crate::proofs::Joining::joining))]
fn head(code: StatusCode, kind: &[u8], count: usize, date: Option<HttpDate>) -> ArrayVec<u8, HEAD>
    requires { length kind.now ≤ 45 }
    ensures { result.items ≡ head_text code kind.now count date }
{
    let mut head = ArrayVec::new();
    push(&mut head, b"HTTP/1.1 ");
    push_status(&mut head, code);
    push(&mut head, b"\r\nContent-Type: ");
    push(&mut head, kind);
    push(&mut head, b"\r\nContent-Length: ");
    push_number(&mut head, count as u64);
    push_date(&mut head, date);
    push(&mut head, allow(code.as_u16()));
    push(
        &mut head,
        b"\r\nCache-Control: no-store\r\nX-Content-Type-Options: nosniff\r\nContent-Security-Policy: default-src 'none'; style-src 'unsafe-inline'\r\nConnection: close\r\n\r\n",
    );
    head
}

// Returns the field with the allowed methods, for a method that is not allowed.
fn allow(code: u16) -> &'static [u8]
    ensures text { result.now ≡ allow code }
    ensures short { length result.now ≤ 18 }
{
    if code == 405 {
        b"\r\nAllow: GET, HEAD"
    } else {
        b""
    }
}

// Appends a status code and its phrase.
#[tactic(auto, using(crate::proofs::Joining::joining))]
fn push_status<const N: usize>(line: &mut ArrayVec<u8, N>, code: StatusCode)
    requires { array_vec_len line.old + 61 ≤ N }
    ensures items { line.new.items ≡ line.old.items ++ status_text code }
    ensures short { array_vec_len line.new ≤ array_vec_len line.old + 61 }
{
    push_number(line, u64::from(code.as_u16()));
    push(line, b" ");
    push(line, phrase(code).as_bytes());
}

// Returns the phrase of a code.
fn phrase(code: StatusCode) -> &'static str
    ensures text { result.now ≡ phrase code }
    ensures short { length result.now ≤ 40 }
{
    match code.canonical_reason() {
        Some(phrase) if phrase.len() <= 40 => phrase,
        _ => "",
    }
}

#[tactic(auto, using(crate::proofs::Joining::joining))]
fn push_date(head: &mut ArrayVec<u8, HEAD>, date: Option<HttpDate>)
    requires { array_vec_len head.old + 37 ≤ 512 }
    ensures items { head.new.items ≡ head.old.items ++ date_field date }
    ensures short { array_vec_len head.new ≤ array_vec_len head.old + 37 }
{
    if let Some(date) = date {
        push(head, b"\r\nDate: ");
        push(head, &date.to_bytes());
    }
}
