//! The texts of the notes in front of a fault.
use hosts_sql::AdoptError;
use lockd_serving::StartFailure;
use server::NoListener;
use sqlite::ErrorCode;
use std::alloc::AllocError;
use std::fmt::Write;
use std::io;
use std::net::{Ipv4Addr, SocketAddr, SocketAddrV4};
use std::test::*;

fn no_listener() -> NoListener {
    NoListener {
        at: SocketAddr::V4(SocketAddrV4::new(Ipv4Addr::LOCALHOST, 4045)),
        error: io::Error::from_raw_os_error(98),
    }
}

fn put_files(to: &mut String) -> Result<(), AllocError> {
    let path = "peers";
    let error = io::Error::from_raw_os_error(2);
    let unread = StartFailure::Unread { path, error };
    let bad_line = StartFailure::BadLine { path, number: 3 };
    write!(to, "{unread}\n{bad_line}\n")
}

// What is said of a database, by its path.
fn put_databases(to: &mut String, path: &str, why: &AdoptError) -> Result<(), AllocError> {
    let no_hosts = StartFailure::NoHosts { path, why };
    let refused = StartFailure::NotBegun { path };
    write!(to, "{no_hosts}\n{refused}\n")
}

fn put_others(to: &mut String) -> Result<(), AllocError> {
    let listener = StartFailure::NoListener(no_listener());
    let sender = StartFailure::NoSender(io::Error::from_raw_os_error(24));
    let thread = StartFailure::NoThread;
    write!(to, "{listener}\n{sender}\n{thread}\n")
}

const TEXTS: &str = "peers: No such file or directory (os error 2)
peers: line 3 is no name, a space and an IP address, names a host again, or comes behind 4096 others
hosts.db: it can't be opened: unable to open database file
hosts.db: the new own state can't be stored
127.0.0.1:4045: Address already in use (os error 98)
sockets can't be waited for: Too many open files (os error 24)
a thread can't be started
";

#[test]
fn texts(rt: HostRuntime) {
    let mut to = String::new(rt.alloc());
    let unopened = AdoptError::Unopened(sqlite::Error::SqliteFailure(ErrorCode::CannotOpen));
    let are_put = put_files(&mut to).is_ok()
        && put_databases(&mut to, "hosts.db", &unopened).is_ok()
        && put_others(&mut to).is_ok();
    assert!(rt; are_put && to.as_str() == TEXTS);
}
