//! Files of peers.
use peers::{Peers, PeersFault};
use std::alloc::Global;
use std::fmt::Write;
use std::net::{IpAddr, Ipv4Addr, Ipv6Addr};

/// What becomes of a file: the address of the peer that is asked for, or the line that is bad.
#[derive(Clone, Copy, PartialEq)]
enum Answer {
    Address(IpAddr),
    NoAddress,
    Bad(u32),
    Starved,
}

fn read(alloc: Global, file: &[u8], name: &str) -> Answer {
    match Peers::read(alloc, file) {
        Ok(peers) => match peers.address(name.as_bytes()) {
            Some(address) => Answer::Address(address),
            None => Answer::NoAddress,
        },
        Err(PeersFault::BadLine(line)) => Answer::Bad(line),
        Err(PeersFault::Starved) => Answer::Starved,
    }
}

#[test]
fn addresses_by_name(rt: HostRuntime) -> Result<(), (&'static str, &'static str)> {
    let first = Answer::Address(IpAddr::V4(Ipv4Addr::new(192, 0, 2, 1)));
    let second = Answer::Address(IpAddr::V6(Ipv6Addr::new(0x2001, 0xdb8, 0, 0, 0, 0, 0, 1)));
    for (file, name, want) in [
        ("a 192.0.2.1\nb.c 2001:db8::1\n", "a", first),
        ("a 192.0.2.1\nb.c 2001:db8::1\n", "b.c", second),
        ("a 192.0.2.1\nb.c 2001:db8::1\n", "b", Answer::NoAddress),
        ("a 192.0.2.1\nb.c 2001:db8::1", "a", first),
        ("a 192.0.2.1\nb.c 2001:db8::1", "b.c", second),
        ("a 192.0.2.1\nb.c 2001:db8::1", "b", Answer::NoAddress),
        ("", "a", Answer::NoAddress),
    ] {
        if read(rt.alloc(), file.as_bytes(), name) != want {
            return Err((file, name));
        }
    }
    Ok(())
}

const BAD_LINES: &[(&str, u32)] = &[
    ("a", 1),
    ("\n", 1),
    ("a 192.0.2.1\n\n", 2),
    ("a 192.0.2.1\r\n", 1),
    ("a\r 192.0.2.1", 1),
    (" 192.0.2.1", 1),
    ("a  192.0.2.1", 1),
    ("a 192.0.2.1 ", 1),
    ("a 192.0.2.256", 1),
    ("a 192.0.2.1\nb 192.0.2.2\na 192.0.2.1\n", 3),
];

#[test]
fn bad_lines(rt: HostRuntime) -> Result<(), &'static str> {
    for (file, line) in BAD_LINES {
        if read(rt.alloc(), file.as_bytes(), "a") != Answer::Bad(*line) {
            return Err(*file);
        }
    }
    Ok(())
}

// What becomes of a line of a name of so many bytes.
fn answer_to_name(alloc: Global, length: usize) -> Answer {
    let mut line = String::new(alloc);
    for _ in 0..length {
        let _ = line.push('n');
    }
    let _ = line.push_str(" ::1\n");
    read(alloc, line.as_bytes(), "a")
}

// What becomes of so many lines of hosts, and a line behind them.
fn answer_to_hosts(alloc: Global, count: u32, more: &str) -> Answer {
    let mut file = String::new(alloc);
    for number in 0..count {
        let _ = write!(file, "host{number} ::1\n");
    }
    let _ = file.push_str(more);
    read(alloc, file.as_bytes(), "a")
}

#[test]
fn limits(rt: HostRuntime) {
    assert!(rt; answer_to_name(rt.alloc(), 1_024) == Answer::NoAddress);
    assert!(rt; answer_to_name(rt.alloc(), 1_025) == Answer::Bad(1));
    assert!(rt; answer_to_hosts(rt.alloc(), 4_096, "one.more ::1") == Answer::Bad(4_097));
}
