//! Operators ask for pages (RFC 9112): each page, HEAD, requests one behind the other, and what is no request for a page.
use super::calls::NULL;
use super::client::{ask as send_call, dial, is_closed, read, stop, write};
use super::local::hold_and_wait;
use super::servers::{Ports, served_to};
use super::talks::{REPLY, Response, Talk};
use std::alloc::Global;
use std::io::{self, ErrorKind};
use std::net::{Net, TcpStream};
use std::test::*;
use std::time::Clock;

/// The most bytes of an answer.
const MOST_BYTES: usize = 65_536;

/// How many operators there may be at once.
const PLACES: usize = 16;

/// What operators do.
#[derive(Clone, Copy)]
pub(crate) enum PageTalk {
    // Each page is asked for, by GET and by HEAD.
    Each,
    // What is refused.
    Refused,
    // Several requests come in one write, and one in pieces.
    Together,
    // As many are silent as may be there, and one more comes; one asks half a request while another is answered.
    Silent,
}

// A page, which type it is of, and what stands in it while process 1 holds byte 0 of the file 0102 and process 2 waits for it, after
// two calls of NULL.
struct Case {
    target: &'static str,
    content_type: &'static str,
    holds: &'static [&'static str],
}

const CASES: &[Case] = &[
    Case {
        target: "/",
        content_type: "text/html; charset=utf-8",
        holds: &["<!DOCTYPE html>", "process 1", "process 2"],
    },
    Case {
        target: "/metrics",
        content_type: "text/plain; version=0.0.4; charset=utf-8",
        holds: &[
            "# TYPE lockd_runs gauge\nlockd_runs 1\n",
            "\nlockd_waiters 1\n",
            "\nlockd_connections{kind=\"local\"} 1\n",
            "\nlockd_connections{kind=\"status\"} 1\n",
            "\nlockd_received_bytes_total 88\n",
            "\nlockd_calls_total{program=\"nlm\",version=\"4\",procedure=\"NULL\",outcome=\"success\"} 2\n",
            "\nlockd_events_total{event=\"call\",memory=\"enough\",store=\"not_asked\"} 2\n",
            "\nlockd_events_total{event=\"line\",memory=\"enough\",store=\"not_asked\"} ",
            "\nlockd_events_total{event=\"restart\",memory=\"enough\",store=\"agreed\"} 1\n",
            "\nlockd_build_info{version=\"1.0.0\"} 1\n",
        ],
    },
    Case {
        target: "/locks.json",
        content_type: "application/json",
        holds: &[
            "[{\"file\":\"0102\",\"first\":0,\"host\":null,\"host_hex\":null,\"kind\":\"process\",\"last\":0,\"mode\":\"write\",\"number\":1,\"oh\":null,\"oh_hex\":null,\"svid\":null}]",
        ],
    },
    Case {
        target: "/waiters.json",
        content_type: "application/json",
        holds: &[
            "[{\"file\":\"0102\",\"first\":0,\"host\":null,\"host_hex\":null,\"in_way\":{\"file\":\"0102\",",
            "\"mode\":\"read\",\"number\":2,",
        ],
    },
    Case {
        target: "/hosts.json",
        content_type: "application/json",
        holds: &["[]"],
    },
    Case {
        target: "/status.json",
        content_type: "application/json",
        holds: &["\"runs\":1,", "\"waiters\":1,", "\"version\":\"1.0.0\""],
    },
];

// What is refused, and by which status. The connection ends behind it.
const REFUSED: &[(&str, &str)] = &[
    (
        "POST / HTTP/1.1\r\nHost: a\r\n\r\n",
        "405 Method Not Allowed\r\n",
    ),
    ("GET / HTTP/1.1\r\n\r\n", "400 Bad Request\r\n"),
    (
        "GET / HTTP/1.1\r\nHost: a\r\nContent-Length: 3\r\n\r\nabc",
        "400 Bad Request\r\n",
    ),
    ("GET  / HTTP/1.1\r\nHost: a\r\n\r\n", "400 Bad Request\r\n"),
    ("no request\r\n\r\n", "400 Bad Request\r\n"),
];

// An answer: its head, with the empty line behind it, and its body.
#[derive(Drop)]
struct Heard {
    head: String,
    body: String,
}

fn wrong() -> io::Error {
    io::Error::from(ErrorKind::InvalidData)
}

fn has(text: &str, part: &str) -> bool {
    text.split_once(part).is_some()
}

// So many bytes, as text.
fn text_of(alloc: Global, from: &TcpStream, count: usize) -> io::Result<String> {
    let mut bytes = Vec::new(alloc);
    for _ in 0..count.min(MOST_BYTES) {
        bytes.push(read::<1>(from)?[0])?;
    }
    String::from_utf8(bytes).map_err(|_| wrong())
}

// The head of an answer.
fn head_of(alloc: Global, from: &TcpStream) -> io::Result<String> {
    let mut bytes = Vec::new(alloc);
    for _ in 0..MOST_BYTES {
        if bytes.ends_with(b"\r\n\r\n") {
            break;
        }
        bytes.push(read::<1>(from)?[0])?;
    }
    String::from_utf8(bytes).map_err(|_| wrong())
}

// How many bytes the head says that its body has.
fn length_in(head: &str) -> Option<usize> {
    let (_, behind) = head.split_once("\r\nContent-Length: ")?;
    let (digits, _) = behind.split_once("\r\n")?;
    digits.parse::<usize>().ok()
}

// The next answer. That to a HEAD has no body (RFC 9110, section 9.3.2).
fn hear(alloc: Global, from: &TcpStream, is_head: bool) -> io::Result<Heard> {
    let head = head_of(alloc, from)?;
    let length = length_in(&head).ok_or(wrong())?;
    let length = if is_head { 0 } else { length };
    let body = text_of(alloc, from, length)?;
    Ok(Heard { head, body })
}

// Asks for it on this connection, which stays.
fn ask(alloc: Global, on: &TcpStream, method: &str, target: &str) -> io::Result<Heard> {
    let request = format!(in alloc; "{method} {target} HTTP/1.1\r\nHost: 127.0.0.1\r\n\r\n")?;
    write(on, request.as_bytes())?;
    hear(alloc, on, method == "HEAD")
}

// Whether the page is as it should be, and whether HEAD gives the same head but for how long the body is.
fn is_right(alloc: Global, on: &TcpStream, case: &Case) -> io::Result<bool> {
    let got = ask(alloc, on, "GET", case.target)?;
    let alone = ask(alloc, on, "HEAD", case.target)?;
    let type_line = format!(in alloc; "\r\nContent-Type: {}\r\n", case.content_type)?;
    let are_heads = got.head.starts_with("HTTP/1.1 200 OK\r\n")
        && alone.head.starts_with("HTTP/1.1 200 OK\r\n")
        && has(&got.head, &type_line)
        && has(&alone.head, &type_line)
        && has(&got.head, "\r\nConnection: keep-alive\r\n");
    let mut is_right = are_heads;
    for part in case.holds {
        is_right = is_right && has(&got.body, part);
    }
    Ok(is_right)
}

// How many pages are as they should be, all on one connection, and then one that isn't there.
fn ask_each<R>(rt: &R, alloc: Global, ports: Ports) -> io::Result<u32>
where
    R: Net<Stream = TcpStream> + Clock,
{
    let local = dial(rt, ports.local)?;
    hold_and_wait(&local)?;
    let caller = dial(rt, ports.rpc)?;
    for xid in 1..3 {
        send_call(&caller, alloc, xid, &NULL)?;
        let _ = read::<REPLY>(&caller)?;
    }
    let on = dial(rt, ports.status)?;
    let mut count = 0u32;
    for case in CASES {
        if is_right(alloc, &on, case)? {
            count = count.wrapping_add(1);
        }
    }
    let none = ask(alloc, &on, "GET", "/metrics/")?;
    if none.head.starts_with("HTTP/1.1 404 Not Found\r\n") {
        count = count.wrapping_add(1);
    }
    Ok(count)
}

// Whether it is refused so, and the connection ends.
fn is_refused<R>(rt: &R, alloc: Global, port: u16, said: &[u8], status: &str) -> io::Result<bool>
where
    R: Net<Stream = TcpStream> + Clock,
{
    let on = dial(rt, port)?;
    write(&on, said)?;
    let heard = hear(alloc, &on, false)?;
    let line = format!(in alloc; "HTTP/1.1 {status}")?;
    let is_told = heard.head.starts_with(line.as_str())
        && has(&heard.head, "\r\nConnection: close\r\n")
        && has(&heard.head, "\r\nAllow: GET, HEAD\r\n") == status.starts_with("405");
    Ok(is_closed(&on)? && is_told)
}

// How many are refused as they should be, of which the last has a head without end.
fn ask_refused<R>(rt: &R, alloc: Global, ports: Ports) -> io::Result<u32>
where
    R: Net<Stream = TcpStream> + Clock,
{
    let mut count = 0u32;
    for (said, status) in REFUSED {
        if is_refused(rt, alloc, ports.status, said.as_bytes(), status)? {
            count = count.wrapping_add(1);
        }
    }
    let mut long = Vec::new(alloc);
    long.extend_from_slice(b"GET /")?;
    for _ in 0..8_192 {
        long.push(b'a')?;
    }
    let status = "431 Request Header Fields Too Large\r\n";
    if is_refused(rt, alloc, ports.status, &long, status)? {
        count = count.wrapping_add(1);
    }
    Ok(count)
}

// Two requests in one write, and one in two writes whose answer is the last: how many answers come.
fn ask_together<R>(rt: &R, alloc: Global, ports: Ports) -> io::Result<u32>
where
    R: Net<Stream = TcpStream> + Clock,
{
    let on = dial(rt, ports.status)?;
    write(
        &on,
        b"GET /locks.json HTTP/1.1\r\nHost: a\r\n\r\nGET /hosts.json HTTP/1.1\r\nHost: a\r\n\r\nHEAD /none HT",
    )?;
    let first = hear(alloc, &on, false)?;
    let second = hear(alloc, &on, false)?;
    write(&on, b"TP/1.1\r\nHost: a\r\nConnection: close\r\n\r\n")?;
    let third = hear(alloc, &on, true)?;
    let are_answered = first.body.as_str() == "[]"
        && second.body.as_str() == "[]"
        && third.head.starts_with("HTTP/1.1 404 ")
        && has(&third.head, "\r\nConnection: close\r\n");
    let goes = is_closed(&on)? && are_answered;
    Ok(if goes { 3 } else { 0 })
}

// Whether the server ended the connection, with bytes of the request unread or not.
fn has_ended(on: &TcpStream) -> bool {
    !matches!(is_closed(on), Ok(false))
}

// Whether one that asks is answered while as many others as there is place for say nothing, and one more is closed at once. They
// are there until the server stops.
fn stay_silent<R>(rt: &R, alloc: Global, ports: Ports) -> io::Result<u32>
where
    R: Net<Stream = TcpStream> + Clock,
{
    let on = dial(rt, ports.status)?;
    let mut silent = Vec::new(alloc);
    for _ in 1..PLACES {
        let other = dial(rt, ports.status)?;
        write(&other, b"GET / HT")?;
        silent.push(other)?;
    }
    let further = dial(rt, ports.status)?;
    let is_turned_away = is_closed(&further)?;
    let answer = ask(alloc, &on, "GET", "/locks.json")?;
    let is_stopped = stop(rt, ports.local)?;
    let mut count = 0u32;
    for other in &silent {
        if has_ended(other) {
            count = count.wrapping_add(1);
        }
    }
    let goes = is_turned_away && is_stopped && answer.body.as_str() == "[]";
    Ok(if goes { count } else { 0 })
}

/// How many answers are as they should be.
pub(crate) fn ask_pages<R>(
    rt: &R,
    alloc: Global,
    ports: Ports,
    talk: PageTalk,
) -> io::Result<Response>
where
    R: Net<Stream = TcpStream> + Clock,
{
    let count = match talk {
        PageTalk::Each => ask_each(rt, alloc, ports)?,
        PageTalk::Refused => ask_refused(rt, alloc, ports)?,
        PageTalk::Together => ask_together(rt, alloc, ports)?,
        PageTalk::Silent => return Ok(Response::of(stay_silent(rt, alloc, ports)?)),
    };
    let is_stopped = stop(rt, ports.local)?;
    Ok(Response::of(if is_stopped { count } else { 0 }))
}

// Each page, and one that isn't there.
#[test]
fn pages_are_shown(rt: HostRuntime) {
    let served = served_to(&rt, rt.alloc(), 2, 0, Talk::Pages(PageTalk::Each));
    assert!(rt; served == Some((2, Response::of(7), true)));
}

#[test]
fn bad_requests_are_refused(rt: HostRuntime) {
    let served = served_to(&rt, rt.alloc(), 2, 0, Talk::Pages(PageTalk::Refused));
    assert!(rt; served == Some((0, Response::of(6), true)));
}

#[test]
fn requests_come_together(rt: HostRuntime) {
    let served = served_to(&rt, rt.alloc(), 2, 0, Talk::Pages(PageTalk::Together));
    assert!(rt; served == Some((0, Response::of(3), true)));
}

// The seventeenth operator is closed, and those who say nothing hold up neither the others nor the end.
#[test]
fn silent_operators_hold_nobody_up(rt: HostRuntime) {
    let served = served_to(&rt, rt.alloc(), 2, 0, Talk::Pages(PageTalk::Silent));
    assert!(rt; served == Some((0, Response::of(15), true)));
}
