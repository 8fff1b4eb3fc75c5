//! Requests for pages (RFC 9112), answers, numbers in the text format 0.0.4 of Prometheus, and rows as JSON (RFC 8259).
use event_counts::{CallOutcome, Counts, Happening, StoreReply, procedure_place, record_place};
use status_pages::{
    Asked, ContentType, Delivery, HostRow, LockRow, Numbers, OwnerRow, Page, Reading, Refusal,
    Shown, StateNumbers, Status, Waiting, hosts_page, index_page, locks_page, metrics_page,
    read_request, response, status_page, waiters_page,
};
use std::alloc::{AllocError, Global};
use std::test::*;

// The request in front asks for this page, and has so many bytes.
fn asks(page: Option<Page>, is_head: bool, stays: bool, len: usize) -> Reading {
    Reading::Wanted(Asked {
        page,
        is_head,
        stays,
        len,
    })
}

fn are_asked(requests: &[(&[u8], Reading)]) -> bool {
    requests
        .iter()
        .all(|(bytes, reading)| read_request(bytes) == *reading)
}

#[test]
fn requests_for_pages(rt: HostRuntime) {
    assert!(rt;
        are_asked(&[
            (
                b"GET / HTTP/1.1\r\nHost: a\r\n\r\n",
                asks(Some(Page::Index), false, true, 27)
            ),
            (
                b"HEAD /metrics HTTP/1.1\r\nhost:\r\n\r\nGET",
                asks(Some(Page::Metrics), true, true, 33)
            ),
            (
                b"GET /locks.json HTTP/1.0\r\n\r\n",
                asks(Some(Page::Locks), false, false, 28)
            ),
            (
                b"GET /waiters.json HTTP/1.1\r\nHost: a\r\nConnection: close\r\n\r\n",
                asks(Some(Page::Waiters), false, false, 58)
            ),
            (
                b"GET /hosts.json HTTP/1.1\nHost: a\n\n",
                asks(Some(Page::Hosts), false, true, 34)
            ),
            (
                b"GET /status.json HTTP/1.1\r\nHost: a\r\nConnection: Keep-Alive\r\n\r\n",
                asks(Some(Page::Status), false, true, 62)
            ),
            (
                b"GET /Metrics HTTP/1.1\r\nHost: a\r\n\r\n",
                asks(None, false, true, 34)
            ),
            (
                b"GET /?a=1 HTTP/1.1\r\nHost: a\r\nContent-Length: 0\r\n\r\n",
                asks(None, false, true, 50)
            ),
        ])
    );
}

#[test]
fn parts_of_requests(rt: HostRuntime) {
    assert!(rt;
        are_asked(&[
            (b"", Reading::Partial),
            (b"GET", Reading::Partial),
            (b"GET / HTTP/1.1\r\nHost: a\r\n", Reading::Partial),
        ])
    );
}

#[test]
fn refused_requests(rt: HostRuntime) {
    let bad = Reading::Refused(Refusal::BadRequest);
    let other = Reading::Refused(Refusal::MethodNotAllowed);
    assert!(rt;
        are_asked(&[
            (b"GET / HTTP/1.1\r\n\r\n", bad),
            (
                b"GET / HTTP/1.1\r\nHost: a\r\nContent-Length: 1\r\n\r\n",
                bad
            ),
            (
                b"GET / HTTP/1.1\r\nHost: a\r\nTransfer-Encoding: chunked\r\n\r\n",
                bad
            ),
            (b"GET / HTTP/2.0\r\n", bad),
            (b"GET / HTTP/1.1\r\nHost : a\r\n\r\n", bad),
            (b"\x16\x03\x01", bad),
            (b"POST / HTTP/1.1\r\nHost: a\r\n\r\n", other),
            (b"get / HTTP/1.1\r\nHost: a\r\n\r\n", other),
            (b"OPTIONS * HTTP/1.1\r\nHost: a\r\n\r\n", other),
        ])
    );
}

// A head of so many bytes that is not whole, and one with so many fields.
fn long_head(alloc: Global, bytes: usize) -> Result<Vec<u8>, AllocError> {
    let mut head = Vec::new(alloc);
    head.extend_from_slice(b"GET /")?;
    for _ in 5..bytes {
        head.push(b'a')?;
    }
    Ok(head)
}

fn many_fields(alloc: Global, fields: usize) -> Result<Vec<u8>, AllocError> {
    let mut head = Vec::new(alloc);
    head.extend_from_slice(b"GET / HTTP/1.1\r\n")?;
    for _ in 0..fields {
        head.extend_from_slice(b"Host: a\r\n")?;
    }
    head.extend_from_slice(b"\r\n")?;
    Ok(head)
}

#[test]
fn long_requests(rt: HostRuntime) -> Result<(), AllocError> {
    let too_long = Reading::Refused(Refusal::TooLong);
    assert!(rt; read_request(&long_head(rt.alloc(), 8_191)?) == Reading::Partial);
    assert!(rt; read_request(&long_head(rt.alloc(), 8_192)?) == too_long);
    let most = many_fields(rt.alloc(), 64)?;
    assert!(rt; read_request(&most) == asks(Some(Page::Index), false, true, 594));
    assert!(rt; read_request(&many_fields(rt.alloc(), 65)?) == too_long);
    Ok(())
}

// Whether bytes are this text.
fn is<E: Drop>(page: Result<Vec<u8>, E>, want: &str) -> bool {
    match page {
        Ok(bytes) => bytes.as_slice() == want.as_bytes(),
        Err(_) => false,
    }
}

// Whether this part stands in the text.
fn has<E: Drop>(page: &Result<Vec<u8>, E>, part: &str) -> bool {
    match page {
        Ok(bytes) => match str::from_utf8(bytes) {
            Ok(text) => text.contains(part),
            Err(_) => false,
        },
        Err(_) => false,
    }
}

const ANSWER: &str = "HTTP/1.1 200 OK\r\nContent-Type: application/json\r\nContent-Length: 2\r\n\
Cache-Control: no-store\r\nX-Content-Type-Options: nosniff\r\n\
Content-Security-Policy: default-src 'none'; style-src 'unsafe-inline'\r\nConnection: keep-alive\r\n\r\n[]";

const REFUSAL: &str =
    "HTTP/1.1 405 Method Not Allowed\r\nContent-Type: text/plain; charset=utf-8\r\nContent-Length: 37\r\n\
Allow: GET, HEAD\r\nCache-Control: no-store\r\nX-Content-Type-Options: nosniff\r\n\
Content-Security-Policy: default-src 'none'; style-src 'unsafe-inline'\r\nConnection: close\r\n\r\n";

#[test]
fn answers(rt: HostRuntime) {
    let page = Delivery {
        status: Status::Ok,
        content_type: ContentType::Json,
        is_head: false,
        stays: true,
    };
    assert!(rt; is(response(rt.alloc(), page, b"[]"), ANSWER));
    let refused = Delivery {
        status: Status::from(Refusal::MethodNotAllowed),
        content_type: ContentType::Text,
        is_head: true,
        stays: false,
    };
    let note = refused.status.note();
    assert!(rt; is(response(rt.alloc(), refused, note.as_bytes()), REFUSAL));
}

fn process(alloc: Global, number: u32, first: u64, last: u64) -> Result<LockRow, AllocError> {
    Ok(LockRow {
        file: Vec::from_slice(alloc, b"\x01\xff")?,
        owner: OwnerRow::Process(number),
        first,
        last,
        is_exclusive: true,
    })
}

// A lock for reading of all bytes of a file, of a host whose name would be markup, under an owner handle that is no text.
fn host_lock(alloc: Global) -> Result<LockRow, AllocError> {
    Ok(LockRow {
        file: Vec::from_slice(alloc, b"\x01\xff")?,
        owner: OwnerRow::Host {
            name: Vec::from_slice(alloc, b"a<b>\"")?,
            svid: -1,
            oh: Vec::from_slice(alloc, b"\xff\x00")?,
        },
        first: 0,
        last: 0x7fff_ffff_ffff_ffff,
        is_exclusive: false,
    })
}

const LOCKS: &str =
    "[{\"file\":\"01ff\",\"first\":5,\"host\":null,\"host_hex\":null,\"kind\":\"process\",\"last\":7,\
\"mode\":\"write\",\"number\":42,\"oh\":null,\"oh_hex\":null,\"svid\":null},\
{\"file\":\"01ff\",\"first\":0,\"host\":\"a<b>\\\"\",\"host_hex\":\"613c623e22\",\"kind\":\"host\",\"last\":null,\
\"mode\":\"read\",\"number\":null,\"oh\":null,\"oh_hex\":\"ff00\",\"svid\":-1}]";

#[test]
fn locks_as_json(rt: HostRuntime) -> Result<(), AllocError> {
    let locks = [process(rt.alloc(), 42, 5, 7)?, host_lock(rt.alloc())?];
    assert!(rt; is(locks_page(rt.alloc(), &locks), LOCKS));
    assert!(rt; is(locks_page(rt.alloc(), &[]), "[]"));
    Ok(())
}

const WAITS: &str = "[{\"file\":\"01ff\",\"first\":7,\"host\":null,\"host_hex\":null,\
\"in_way\":{\"file\":\"01ff\",\"first\":5,\"host\":null,\"host_hex\":null,\"kind\":\"process\",\"last\":7,\
\"mode\":\"write\",\"number\":42,\"oh\":null,\"oh_hex\":null,\"svid\":null},\
\"kind\":\"process\",\"last\":9,\"mode\":\"write\",\"number\":43,\"oh\":null,\"oh_hex\":null,\"svid\":null,\"waits_seconds\":61},\
{\"file\":\"01ff\",\"first\":8,\"host\":null,\"host_hex\":null,\"in_way\":null,\
\"kind\":\"process\",\"last\":9,\"mode\":\"write\",\"number\":44,\"oh\":null,\"oh_hex\":null,\"svid\":null,\"waits_seconds\":0}]";

#[test]
fn waiters_as_json(rt: HostRuntime) -> Result<(), AllocError> {
    let locks = [process(rt.alloc(), 42, 5, 7)?];
    let waiters = [
        Waiting {
            lock: process(rt.alloc(), 43, 7, 9)?,
            since: 39,
        },
        Waiting {
            lock: process(rt.alloc(), 44, 8, 9)?,
            since: 100,
        },
    ];
    assert!(rt; is(waiters_page(rt.alloc(), &locks, &waiters, 100), WAITS));
    Ok(())
}

fn host(alloc: Global, name: &[u8], epoch: u32) -> Result<HostRow, AllocError> {
    Ok(HostRow {
        name: Vec::from_slice(alloc, name)?,
        epoch,
        seen: -3,
        quota: 100,
        runs: 2,
    })
}

const HOSTS: &str =
    "[{\"epoch\":5,\"heard\":true,\"host\":\"b\",\"host_hex\":\"62\",\"locks\":2,\"quota\":100,\"seen\":-3},\
{\"epoch\":3,\"heard\":false,\"host\":null,\"host_hex\":\"fe\",\"locks\":2,\"quota\":100,\"seen\":-3}]";

#[test]
fn hosts_as_json(rt: HostRuntime) -> Result<(), AllocError> {
    let hosts = [host(rt.alloc(), b"b", 5)?, host(rt.alloc(), b"\xfe", 3)?];
    assert!(rt; is(hosts_page(rt.alloc(), 5, &hosts), HOSTS));
    Ok(())
}

const NUMBERS: Numbers = Numbers {
    state: StateNumbers {
        runs: 1,
        waiters: 2,
        calls_due: 3,
        calls_unanswered: 4,
        slots_free: 8_183,
        shares: 6,
        hosts: 7,
        watches: 8,
        kept_replies: 9,
        grace: 0,
        own_state: 11,
        entries: 18_446_744_073_709_551_615,
    },
    grace_left: 0,
    call_connections: 13,
    local_connections: 14,
    status_connections: 15,
    received_bytes: 16,
    sent_bytes: 17,
    started: 1_700_000_000,
    sections: 3,
    inside_nanos: 12_000_000_345,
    waited_nanos: 999_999_999,
};

// Lines of the page, each of which comes once.
const METRIC_LINES: &[&str] = &[
    "# HELP lockd_runs Runs of bytes that owners hold.\n# TYPE lockd_runs gauge\nlockd_runs 1\n",
    "\nlockd_callbacks{state=\"due\"} 3\nlockd_callbacks{state=\"unanswered\"} 4\n",
    "\n# TYPE lockd_journal_entries_total counter\nlockd_journal_entries_total 18446744073709551615\n",
    "\nlockd_connections{kind=\"calls\"} 13\nlockd_connections{kind=\"local\"} 14\nlockd_connections{kind=\"status\"} 15\n",
    "\n# TYPE lockd_received_bytes_total counter\nlockd_received_bytes_total 16\n",
    "\nlockd_sent_bytes_total 17\n",
    "\nlockd_start_time_seconds 1700000000\n",
    "\n# TYPE lockd_book_held_seconds summary\nlockd_book_held_seconds_sum 12.000000345\nlockd_book_held_seconds_count 3\n",
    "\nlockd_book_wait_seconds_sum 0.999999999\nlockd_book_wait_seconds_count 3\n",
    "\nlockd_build_info{version=\"1.2\"} 1\n",
];

#[test]
fn numbers_as_metrics(rt: HostRuntime) {
    let page = metrics_page(rt.alloc(), &NUMBERS, &Counts::new(), "1.2");
    assert!(rt; METRIC_LINES.iter().all(|lines| has(&page, lines)));
    let status = status_page(rt.alloc(), &NUMBERS, &Counts::new(), "1.2");
    assert!(rt; has(&status, "\"callbacks_unanswered\":4,") && has(&status, "\"version\":\"1.2\""));
    assert!(rt; has(&status, "\"book_held_nanoseconds\":12000000345,"));
}

// The header of a LOCK in version 4 of the lock manager, and that of a reply (RFC 5531, section 9).
const LOCK: &[u8] = b"\0\0\0\x07\0\0\0\0\0\0\0\x02\0\x01\x86\xb5\0\0\0\x04\0\0\0\x02";

const REPLY: &[u8] = b"\0\0\0\x07\0\0\0\x01\0\0\0\x02\0\x01\x86\xb5\0\0\0\x04\0\0\0\x02";

// One LOCK that was granted, and one line that met want of memory once the store had refused.
fn counted() -> Counts {
    let mut counts = Counts::new();
    counts.add_call(record_place(LOCK), CallOutcome::Granted);
    counts.add_event(Happening::Line, true, StoreReply::Refused);
    counts
}

// The lines of what has counted, with those around them.
const COUNTED_LINES: &[&str] = &[
    "\n# TYPE lockd_calls_total counter\nlockd_calls_total{program=\"nlm\",version=\"4\",procedure=\"LOCK\",outcome=\"granted\"} 1\n# HELP ",
    "\n# TYPE lockd_events_total counter\nlockd_events_total{event=\"line\",memory=\"wanting\",store=\"refused\"} 1\n# HELP ",
];

#[test]
fn counts_as_metrics(rt: HostRuntime) {
    let counts = counted();
    let page = metrics_page(rt.alloc(), &NUMBERS, &counts, "1.2");
    assert!(rt; COUNTED_LINES.iter().all(|lines| has(&page, lines)));
    let status = status_page(rt.alloc(), &NUMBERS, &counts, "1.2");
    assert!(rt; has(&status, "\"events_lines\":1,") && has(&status, "\"events_calls\":0,"));
}

#[test]
fn procedures_of_records(rt: HostRuntime) {
    assert!(rt; record_place(LOCK) == procedure_place(100_021, 4, 2));
    assert!(rt; record_place(REPLY) == procedure_place(0, 0, 0));
    assert!(rt; record_place(b"") == procedure_place(100_021, 2, 2));
    assert!(rt; procedure_place(100_021, 4, 24) == procedure_place(100_024, 1, 7));
}

// Text of anybody's opens no tag (HTML Living Standard, "Character references").
#[test]
fn names_in_the_page(rt: HostRuntime) -> Result<(), AllocError> {
    let locks = [host_lock(rt.alloc())?];
    let shown = Shown {
        numbers: &NUMBERS,
        locks: &locks,
        waiters: &[],
        hosts: &[],
        now: 0,
    };
    let page = index_page(rt.alloc(), &shown);
    assert!(rt; has(&page, "<bdi>a&lt;b&gt;&quot;</bdi>") && !has(&page, "a<b>"));
    assert!(rt; has(&page, "<small>ff00</small>") && has(&page, "read 0 to end"));
    Ok(())
}
