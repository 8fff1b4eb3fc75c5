//! Answers, byte for byte.
ghost use Rattle.std.specs.Prelude.{◌≡◌, ◌++◌, length, IfOk, OnOk};
ghost use Rattle.status_pages.specs.Responses.{status_text, type_text, allow_text, connection_text, start_text, length_text, end_text, head_text, response_text, note_of};

use crate::request::Refusal;
use crate::starved::Starved;
use crate::text::{put_number, put_parts};
use std::alloc::Global;

/// What an answer says of its request (RFC 9110, section 15).
#[derive(Clone, Copy, Debug, PartialEq, Eq)]
pub enum Status {
    Ok,
    BadRequest,
    NotFound,
    MethodNotAllowed,
    TooLong,
    /// There was no memory for the page.
    Starved,
}

/// What a page is.
#[derive(Clone, Copy, Debug, PartialEq, Eq)]
pub enum ContentType {
    Html,
    Json,
    Metrics,
    /// A line of text, as what is wrong with a request.
    Text,
}

/// How a page is sent.
#[derive(Clone, Copy, Debug, PartialEq, Eq)]
pub struct Delivery {
    pub status: Status,
    pub content_type: ContentType,
    /// Whether its head alone is sent.
    pub is_head: bool,
    /// Whether the connection stays.
    pub stays: bool,
}

/// The fields that each answer has: it is not kept, it is of the type that it says, and nothing that stands in it is fetched or run.
const FIXED: &[u8] =
    b"Cache-Control: no-store\r\nX-Content-Type-Options: nosniff\r\nContent-Security-Policy: default-src 'none'; style-src 'unsafe-inline'\r\n";

impl From<Refusal> for Status {
    ghost use Rattle.std.specs.Prelude.{◌≡◌};
    ghost use Rattle.status_pages.specs.Responses.{status_of};

    ghost from_gives = { λ refusal s. s ≡ status_of refusal };

    fn from(refusal: Refusal) -> Status {
        match refusal {
            Refusal::BadRequest => Status::BadRequest,
            Refusal::MethodNotAllowed => Status::MethodNotAllowed,
            Refusal::TooLong => Status::TooLong,
        }
    }
}

impl Status {
    fn text(self) -> &'static [u8]
        ensures { result.now ≡ status_text self }
    {
        match self {
            Status::Ok => b"200 OK",
            Status::BadRequest => b"400 Bad Request",
            Status::NotFound => b"404 Not Found",
            Status::MethodNotAllowed => b"405 Method Not Allowed",
            Status::TooLong => b"431 Request Header Fields Too Large",
            Status::Starved => b"503 Service Unavailable",
        }
    }

    /// A line that says what is wrong, as the body of an answer.
    pub fn note(self) -> &'static str
        ensures { result.now ≡ note_of self }
    {
        match self {
            Status::Ok => "done\n",
            Status::BadRequest => "this is no request for a page\n",
            Status::NotFound =>
                "there is no such page; there are / /metrics /locks.json /waiters.json /hosts.json /status.json\n",
            Status::MethodNotAllowed => "pages are read by GET and HEAD alone\n",
            Status::TooLong => "a request has at most 8192 bytes and 64 fields\n",
            Status::Starved => "there is no memory for this page\n",
        }
    }

    // The methods that are taken, where another one came (RFC 9110, section 15.5.6).
    fn allow_text(self) -> &'static [u8]
        ensures { result.now ≡ allow_text self }
    {
        match self {
            Status::MethodNotAllowed => b"Allow: GET, HEAD\r\n",
            _ => b"",
        }
    }
}

impl ContentType {
    fn text(self) -> &'static [u8]
        ensures { result.now ≡ type_text self }
    {
        match self {
            ContentType::Html => b"text/html; charset=utf-8",
            ContentType::Json => b"application/json",
            ContentType::Metrics => b"text/plain; version=0.0.4; charset=utf-8",
            ContentType::Text => b"text/plain; charset=utf-8",
        }
    }
}

fn connection_text(stays: bool) -> &'static [u8]
    ensures { result.now ≡ connection_text stays }
{
    if stays {
        b"Connection: keep-alive\r\n"
    } else {
        b"Connection: close\r\n"
    }
}

fn put_start(out: &mut Vec<u8>, how: Delivery) -> Result<(), Starved>
    ensures { OnOk result (out.new.items ≡ out.old.items ++ start_text how) }
{
    put_parts(
        out,
        &[b"HTTP/1.1 ", how.status.text(), b"\r\nContent-Type: "],
    )?;
    put_parts(out, &[how.content_type.text()])
}

fn put_length(out: &mut Vec<u8>, len: usize) -> Result<(), Starved>
    ensures { OnOk result (out.new.items ≡ out.old.items ++ length_text len) }
{
    put_parts(out, &[b"\r\nContent-Length: "])?;
    put_number(out, len as u64)?;
    put_parts(out, &[b"\r\n"])?;
    Ok(())
}

fn put_end(out: &mut Vec<u8>, how: Delivery) -> Result<(), Starved>
    ensures { OnOk result (out.new.items ≡ out.old.items ++ end_text how) }
{
    put_parts(out, &[how.status.allow_text(), FIXED])?;
    put_parts(out, &[connection_text(how.stays), b"\r\n"])?;
    Ok(())
}

// The head of an answer whose body has so many bytes.
fn put_head(out: &mut Vec<u8>, how: Delivery, len: usize) -> Result<(), Starved>
    ensures { OnOk result (out.new.items ≡ out.old.items ++ head_text how len) }
{
    put_start(out, how)?;
    put_length(out, len)?;
    put_end(out, how)
}

/// An answer (RFC 9112, section 6): its head, whose Content-Length is the length of the body, and the body, unless the head alone
/// is sent.
pub fn response(alloc: Global, how: Delivery, body: &[u8]) -> Result<Vec<u8>, Starved>
    ensures { IfOk result (λ r. r.items ≡ response_text how body.now) }
{
    let mut out = Vec::new(alloc);
    put_head(&mut out, how, body.len())?;
    if !how.is_head {
        put_parts(&mut out, &[body])?;
    }
    Ok(out)
}
