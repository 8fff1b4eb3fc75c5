//! What a script's lines say of the server's state.
use crate::page::read_xid;
use daemon_core::{Daemon, StoreAnswer};
use hosts_db::{FULL_QUOTA, HostRow, HostStore};
use range_table::RangeTable;
use std::str::SplitWhitespace;

/// Whether it is as the line says. None where the line says nothing of the state.
pub(crate) fn is_so<T: RangeTable, S: HostStore>(
    daemon: &Daemon<T, S>,
    store: StoreAnswer,
    verb: &str,
    rest: &str,
) -> Option<bool> {
    match verb {
        "rows" => Some(are_rows(daemon.store(), rest)),
        "own" => Some(read_xid(rest) == Some(daemon.store().own())),
        "quota" => Some(is_quota(daemon.store(), rest) == Some(true)),
        "known" => Some(read_xid(rest) == Some(known(daemon))),
        "stored" => Some(rest == name_of(store)),
        _ => None,
    }
}

fn name_of(store: StoreAnswer) -> &'static str {
    match store {
        StoreAnswer::NotAsked => "not-asked",
        StoreAnswer::Yes => "yes",
        StoreAnswer::Refused => "refused",
    }
}

/// Whether the stored hosts are these: name, epoch and state of each, in order of name. Each has the full quota.
pub fn are_rows<S: HostStore>(store: &S, text: &str) -> bool {
    let mut words = text.split_whitespace();
    for host in store.hosts() {
        if is_row(host, &mut words) != Some(true) {
            return false;
        }
    }
    words.next().is_none()
}

fn is_row(host: &HostRow, words: &mut SplitWhitespace<'_>) -> Option<bool> {
    let name = words.next()?;
    let epoch = read_xid(words.next()?)?;
    let seen = read_xid(words.next()?)?;
    Some(
        host.name() == name.as_bytes()
            && host.epoch() == epoch
            && host.seen().cast_unsigned() == seen
            && host.quota() == FULL_QUOTA,
    )
}

fn is_quota<S: HostStore>(store: &S, text: &str) -> Option<bool> {
    let (name, runs) = text.split_once(" ")?;
    let host = store.host(name.as_bytes())?;
    Some(host.quota() == read_xid(runs)?)
}

/// Of the few owners that a script has.
pub(crate) fn known<T: RangeTable, S: HostStore>(daemon: &Daemon<T, S>) -> u32 {
    let (_, owners) = daemon.locks().parts();
    let mut count = 0u32;
    for number in 0..8 {
        if owners.find(number).is_some() {
            count = count.saturating_add(1);
        }
    }
    count
}
