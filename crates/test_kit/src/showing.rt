//! What a store shows, in text: its own state, the rows and the watches.
use crate::calls::run;
use hosts_db::{HostRow, HostStore, MemHosts, Watch};
use std::alloc::{AllocError, Global};
use std::fmt::Write;

fn text(name: &[u8]) -> &str {
    str::from_utf8(name).unwrap_or("?")
}

fn write_row(to: &mut String, row: &HostRow) -> Result<(), AllocError> {
    let (epoch, seen, quota) = (row.epoch(), row.seen(), row.quota());
    write!(to, "{} {epoch} {seen} {quota}; ", text(row.name()))
}

fn write_watch(to: &mut String, watch: &Watch) -> Result<(), AllocError> {
    let my_id = watch.my_id();
    let (prog, vers, proc) = (my_id.prog(), my_id.vers(), my_id.proc());
    let private = u128::from_be_bytes(*watch.private_bytes());
    let (mon, my) = (text(watch.mon_name()), text(my_id.my_name()));
    write!(to, "{mon} {my} {prog} {vers} {proc} {private:032x}; ")
}

fn write_rows(to: &mut String, rows: &[HostRow]) -> Result<(), AllocError> {
    for row in rows {
        write_row(to, row)?;
    }
    Ok(())
}

fn write_watches(to: &mut String, watches: &[Watch]) -> Result<(), AllocError> {
    for watch in watches {
        write_watch(to, watch)?;
    }
    Ok(())
}

fn write_all<S: HostStore>(to: &mut String, store: &S) -> Result<(), AllocError> {
    to.clear();
    write!(to, "{}; ", store.own())?;
    write_rows(to, store.hosts())?;
    write_watches(to, store.watches())
}

/// What the store shows. One growth that is refused is asked for again.
pub fn shown<S: HostStore>(alloc: Global, store: &S) -> Option<String> {
    let mut all = String::new(alloc);
    if write_all(&mut all, store).is_ok() || write_all(&mut all, store).is_ok() {
        Some(all)
    } else {
        None
    }
}

/// Whether it shows this, whatever white space stands around it.
pub fn does_show<S: HostStore>(alloc: Global, store: &S, want: &str) -> bool {
    match shown(alloc, store) {
        Some(text) => text.trim() == want.trim(),
        None => false,
    }
}

/// Whether both show the same.
pub fn are_same<A: HostStore, B: HostStore>(alloc: Global, one: &A, other: &B) -> bool {
    match shown(alloc, one) {
        Some(text) => does_show(alloc, other, &text),
        None => false,
    }
}

/// A fresh store in memory.
pub fn model(alloc: Global) -> Option<MemHosts> {
    MemHosts::new(alloc, 0, Vec::new(alloc), Vec::new(alloc)).ok()
}

/// What a store in memory shows after one script, and so many calls of another.
pub fn shown_after(alloc: Global, past: &str, script: &str, most: usize) -> Option<String> {
    let mut model = model(alloc)?;
    run(&mut model, past, usize::MAX);
    run(&mut model, script, most);
    shown(alloc, &model)
}
