//! Calls of a store as lines of text.
//!
//! `start`, `monitor NAME STATE`, `seen NAME STATE`, `acked NAME EPOCH`, `quota NAME RUNS`, `watch HOST WATCHER BYTE`
//! (each of the private bytes), `unwatch HOST WATCHER` and `unwatch * WATCHER`. Behind ` -> ` stands the answer, where
//! it isn't `ok`.
use hosts_db::{FULL_QUOTA, HostStore, MOST_NAME_BYTES, MyIdRef, StoreError};
use std::str::SplitWhitespace;

/// The words of a line. One that isn't there is empty.
#[derive(Clone, Copy)]
struct Words<'a> {
    call: &'a str,
    first: &'a str,
    second: &'a str,
    third: &'a str,
}

fn next<'a>(words: &mut SplitWhitespace<'a>) -> &'a str {
    words.next().unwrap_or("")
}

fn words_of(line: &str) -> Words<'_> {
    let mut words = line.split_whitespace();
    Words {
        call: next(&mut words),
        first: next(&mut words),
        second: next(&mut words),
        third: next(&mut words),
    }
}

// What is no number is 0.
fn number(word: &str) -> i32 {
    word.parse().unwrap_or(0)
}

fn answer(told: Result<(), StoreError>) -> &'static str {
    match told {
        Ok(()) => "ok",
        Err(StoreError::StoreRefused) => "refused",
        Err(StoreError::Starved) => "starved",
    }
}

// The state that it answers is the own state then.
fn start<S: HostStore>(store: &mut S) -> &'static str {
    match store.start() {
        Ok(own) => {
            if own == store.own() {
                "ok"
            } else {
                "another state"
            }
        }
        Err(error) => answer(Err(error)),
    }
}

fn monitor<S: HostStore>(store: &mut S, name: &[u8], state: i32) -> &'static str {
    if store.host(name).is_some() || name.len() > MOST_NAME_BYTES {
        return "no new name";
    }
    answer(store.monitor(name, state))
}

fn watch<S: HostStore>(store: &mut S, mon: &[u8], my: &[u8], byte: i32) -> &'static str {
    if mon.len() > MOST_NAME_BYTES || my.len() > MOST_NAME_BYTES {
        return "a long name";
    }
    let private = [u8::try_from(byte).unwrap_or(0); 16];
    answer(store.watch(mon, &MyIdRef::new(my, 4, 2, -3), &private))
}

fn unwatch<S: HostStore>(store: &mut S, mon: &str, my: &[u8]) -> &'static str {
    if my.len() > MOST_NAME_BYTES {
        return "a long name";
    }
    let my_id = MyIdRef::new(my, 4, 2, -3);
    match mon {
        "*" => answer(store.unwatch(None, &my_id)),
        _ => answer(store.unwatch(Some(mon.as_bytes()), &my_id)),
    }
}

/// Makes the call of this line. What is answered.
pub fn call<S: HostStore>(store: &mut S, line: &str) -> &'static str {
    let words = words_of(line);
    let name = words.first.as_bytes();
    let second = number(words.second);
    match words.call {
        "start" => start(store),
        "monitor" => monitor(store, name, second),
        "seen" => answer(store.seen(name, second)),
        "acked" => answer(store.acked(name, second.unsigned_abs())),
        "quota" => answer(store.quota(name, second.unsigned_abs().min(FULL_QUOTA))),
        "watch" => watch(store, name, words.second.as_bytes(), number(words.third)),
        "unwatch" => unwatch(store, words.first, words.second.as_bytes()),
        _ => "no call",
    }
}

/// Makes the call of this line: whether the answer is the one behind it.
pub fn answers<S: HostStore>(store: &mut S, line: &str) -> bool {
    match line.split_once(" -> ") {
        Some((made, want)) => call(store, made) == want,
        None => call(store, line) == "ok",
    }
}

/// Makes at most so many calls of the script, up to the first that is answered otherwise. How many weren't.
pub fn run<S: HostStore>(store: &mut S, script: &str, most: usize) -> usize {
    for (at, line) in script.lines().take(most).enumerate() {
        if !answers(store, line) {
            return at;
        }
    }
    script.lines().count().min(most)
}
