//! Requests.
ghost use Rattle.std.specs.Prelude.{◌≡◌, map};
ghost use Rattle.std.specs.List.{list_any};
ghost use Rattle.httparse.specs.Borrowed.{header_parts};
ghost use Rattle.httparse.specs.Borrowed.{HoldsSomeRequest};
ghost use Rattle.status_pages.specs.Heads.{view_of_head};
ghost use Rattle.status_pages.specs.Requests.{same_word, announces_body, is_host, ends_connection, is_bad, stays, verdict, Comes, Reads};

use crate::page::Page;
use httparse::{EMPTY_HEADER, Error, Header, Request, Status};

/// The most bytes of a request's head.
pub const MOST_HEAD_BYTES: usize = 8_192;

/// The most fields of a head.
const MOST_FIELDS: usize = 64;

/// A request for a page.
#[derive(Clone, Copy, Debug, PartialEq, Eq)]
pub struct Asked {
    /// `None`: there is no such page.
    pub page: Option<Page>,
    /// Whether the head of the answer alone is asked for (RFC 9110, section 9.3.2).
    pub is_head: bool,
    /// Whether the connection stays (RFC 9112, section 9.3).
    pub stays: bool,
    /// The bytes of the request.
    pub len: usize,
}

/// Why a request is not answered by a page. The connection ends behind it.
#[derive(Clone, Copy, Debug, PartialEq, Eq)]
pub enum Refusal {
    /// It is no request, or one with a body, or names no host.
    BadRequest,
    /// It is neither GET nor HEAD.
    MethodNotAllowed,
    /// It has more bytes or fields than are taken.
    TooLong,
}

/// What bytes are read as.
#[derive(Clone, Copy, Debug, PartialEq, Eq)]
pub enum Reading {
    /// The front of a request, of fewer than `MOST_HEAD_BYTES`: more has to come.
    Partial,
    /// A request stands in front.
    Wanted(Asked),
    /// It is refused, whatever comes behind.
    Refused(Refusal),
}

// The parts of a whole head.
#[derive(Clone, Copy)]
struct Head<'h, 'b> {
    method: &'b str,
    target: &'b str,
    minor: u8,
    fields: &'h [Header<'b>],
    len: usize,
}

fn is_named(field: &Header<'_>, name: &str) -> bool
    ensures { result ≡ same_word (header_parts field.now).0 name.now }
{
    field.name.eq_ignore_ascii_case(name)
}

fn announces_body(field: &Header<'_>) -> bool
    ensures { result ≡ announces_body (header_parts field.now) }
{
    is_named(field, "transfer-encoding")
        || (is_named(field, "content-length") && field.value != b"0".as_slice())
}

fn ends_connection(field: &Header<'_>) -> bool
    ensures { result ≡ ends_connection (header_parts field.now) }
{
    is_named(field, "connection") && !field.value.eq_ignore_ascii_case(b"keep-alive")
}

fn is_host(field: &Header<'_>) -> bool
    ensures { result ≡ is_host (header_parts field.now) }
{
    is_named(field, "host")
}

fn any_body(fields: &[Header<'_>]) -> bool
    ensures { result ≡ list_any announces_body (map header_parts fields.now) }
{
    for field in fields {
        if announces_body(field) {
            return true;
        }
    }
    false
}

fn any_host(fields: &[Header<'_>]) -> bool
    ensures { result ≡ list_any is_host (map header_parts fields.now) }
{
    for field in fields {
        if is_host(field) {
            return true;
        }
    }
    false
}

fn any_end(fields: &[Header<'_>]) -> bool
    ensures { result ≡ list_any ends_connection (map header_parts fields.now) }
{
    for field in fields {
        if ends_connection(field) {
            return true;
        }
    }
    false
}

impl Head<'_, '_> {
    fn is_bad(&self) -> bool
        ensures { result ≡ is_bad (view_of_head self.now) }
    {
        any_body(self.fields) || (self.minor == 1 && !any_host(self.fields))
    }

    fn stays(&self) -> bool
        ensures { result ≡ stays (view_of_head self.now) }
    {
        self.minor == 1 && !any_end(self.fields)
    }

    fn verdict(&self) -> Reading
        ensures { result ≡ verdict (view_of_head self.now) }
    {
        if self.len > MOST_HEAD_BYTES {
            return Reading::Refused(Refusal::TooLong);
        }
        let is_head = self.method == "HEAD";
        if self.method != "GET" && !is_head {
            return Reading::Refused(Refusal::MethodNotAllowed);
        }
        if self.is_bad() {
            return Reading::Refused(Refusal::BadRequest);
        }
        Reading::Wanted(Asked {
            page: Page::of(self.target),
            is_head,
            stays: self.stays(),
            len: self.len,
        })
    }
}

// What the head comes to that was parsed of these bytes.
fn read_head(bytes: &[u8], request: &Request<'_, '_>, len: usize) -> Reading
    requires { HoldsSomeRequest bytes.now request.now len }
    ensures { Comes bytes.now result }
{
    let _ = bytes;
    let head = Head {
        method: request.method.unwrap(),
        target: request.path.unwrap(),
        minor: request.version.unwrap(),
        fields: &*request.headers,
        len,
    };
    head.verdict()
}

/// Reads the front of what came on a connection. `Refused` comes as soon as it is known.
pub fn read_request(bytes: &[u8]) -> Reading
    ensures { Reads bytes.now result }
{
    let mut room = [EMPTY_HEADER; MOST_FIELDS];
    let mut request = Request::new(&mut room);
    match request.parse(bytes) {
        Ok(Status::Complete(len)) => read_head(bytes, &request, len),
        Ok(Status::Partial) if bytes.len() < MOST_HEAD_BYTES => Reading::Partial,
        Ok(Status::Partial) | Err(Error::TooManyHeaders) => Reading::Refused(Refusal::TooLong),
        Err(_) => Reading::Refused(Refusal::BadRequest),
    }
}
