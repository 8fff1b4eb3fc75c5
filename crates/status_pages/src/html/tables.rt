//! The tables of the page.
use super::Shown;
use crate::escape::Html;
use crate::rows::{HostRow, LockRow, OwnerRow, Waiting};
use crate::starved::Starved;
use crate::waiting::first_in_way;

/// The most rows of a table.
const MOST_ROWS: usize = 500;

/// The last byte of a lock that goes to the end of its file.
const LAST_BYTE: u64 = 0x7fff_ffff_ffff_ffff;

// Bytes as text, with the hexadecimal behind it where they are not plain ASCII.
fn put_name(html: &mut Html, name: &[u8]) -> Result<(), Starved> {
    if str::from_utf8(name).is_ok() {
        html.markup("<bdi>")?;
        html.text(name)?;
        html.markup("</bdi>")?;
    }
    if name.iter().all(|byte| matches!(byte, 32..=126)) {
        return Ok(());
    }
    html.markup(" <small>")?;
    html.hex(name)?;
    html.markup("</small>")
}

fn put_owner(html: &mut Html, owner: &OwnerRow) -> Result<(), Starved> {
    match owner {
        OwnerRow::Host { name, svid, oh } => {
            put_name(html, name.as_slice())?;
            html.markup(" <small>svid ")?;
            html.signed(*svid)?;
            html.markup("</small> ")?;
            put_name(html, oh.as_slice())
        }
        OwnerRow::Process(number) => {
            html.markup("process ")?;
            html.number(u64::from(*number))
        }
        OwnerRow::Description(number) => {
            html.markup("description ")?;
            html.number(*number)
        }
    }
}

fn put_range(html: &mut Html, lock: &LockRow) -> Result<(), Starved> {
    html.markup(if lock.is_exclusive { "write " } else { "read " })?;
    html.number(lock.first)?;
    html.markup(" to ")?;
    if lock.last < LAST_BYTE {
        html.number(lock.last)
    } else {
        html.markup("end")
    }
}

// What is left out of a list of so many rows.
fn put_rest(html: &mut Html, rows: usize, page: &'static str) -> Result<(), Starved> {
    if rows <= MOST_ROWS {
        return Ok(());
    }
    html.markup("<p>And ")?;
    html.number((rows - MOST_ROWS) as u64)?;
    html.markup(" more: <a href=\"")?;
    html.markup(page)?;
    html.markup("\">all</a>.</p>\n")
}

fn put_holder(html: &mut Html, holder: Option<&LockRow>) -> Result<(), Starved> {
    let Some(holder) = holder else {
        return html.markup("a quota or a limit");
    };
    put_owner(html, &holder.owner)?;
    html.markup(", ")?;
    put_range(html, holder)
}

fn put_waiter(html: &mut Html, shown: &Shown<'_>, waiter: &Waiting) -> Result<(), Starved> {
    html.markup("<tr><td>")?;
    put_owner(html, &waiter.lock.owner)?;
    html.markup("<td>")?;
    put_range(html, &waiter.lock)?;
    html.markup("<br><small>")?;
    html.hex(waiter.lock.file.as_slice())?;
    html.markup("</small><td class=n>")?;
    html.number(shown.now.saturating_sub(waiter.since))?;
    html.markup(" s<td>")?;
    put_holder(html, first_in_way(shown.locks, &waiter.lock))?;
    html.markup("\n")
}

/// Who waits for whom.
pub(super) fn put_waiters(html: &mut Html, shown: &Shown<'_>) -> Result<(), Starved> {
    html.markup("<h2>Who waits for whom</h2>\n")?;
    if shown.waiters.is_empty() {
        return html.markup("<p>Nobody waits.</p>\n");
    }
    html.markup("<div class=all><table>\n<tr><th>who<th>for<th class=n>at least<th>in the way\n")?;
    for waiter in shown.waiters.iter().take(MOST_ROWS) {
        put_waiter(html, shown, waiter)?;
    }
    html.markup("</table></div>\n")?;
    put_rest(html, shown.waiters.len(), "/waiters.json")
}

fn put_lock(html: &mut Html, lock: &LockRow, is_first: bool) -> Result<(), Starved> {
    if is_first {
        html.markup("<tr><th colspan=2>")?;
        html.hex(lock.file.as_slice())?;
        html.markup("\n")?;
    }
    html.markup("<tr><td>")?;
    put_range(html, lock)?;
    html.markup("<td>")?;
    put_owner(html, &lock.owner)?;
    html.markup("\n")
}

/// The locks by file.
pub(super) fn put_files(html: &mut Html, shown: &Shown<'_>) -> Result<(), Starved> {
    html.markup("<h2>Locks by file</h2>\n")?;
    if shown.locks.is_empty() {
        return html.markup("<p>Nothing is locked.</p>\n");
    }
    html.markup("<div class=all><table>\n")?;
    let mut before: Option<&LockRow> = None;
    for lock in shown.locks.iter().take(MOST_ROWS) {
        let is_first = before.is_none_or(|old| old.file != lock.file);
        put_lock(html, lock, is_first)?;
        before = Some(lock);
    }
    html.markup("</table></div>\n")?;
    put_rest(html, shown.locks.len(), "/locks.json")
}

fn put_host(html: &mut Html, own_state: u32, host: &HostRow) -> Result<(), Starved> {
    html.markup("<tr><td>")?;
    put_name(html, host.name.as_slice())?;
    html.markup("<td class=n>")?;
    html.number(u64::from(host.runs))?;
    html.markup("<td class=n>")?;
    html.number(u64::from(host.quota))?;
    html.markup("<td class=n>")?;
    html.signed(host.seen)?;
    html.markup(if host.epoch == own_state {
        "<td>yes\n"
    } else {
        "<td>no\n"
    })
}

/// The stored hosts.
pub(super) fn put_hosts(html: &mut Html, shown: &Shown<'_>) -> Result<(), Starved> {
    html.markup("<h2>Hosts</h2>\n")?;
    if shown.hosts.is_empty() {
        return html.markup("<p>No host has a row.</p>\n");
    }
    html.markup(
        "<div class=all><table>\n<tr><th>host<th class=n>runs<th class=n>quota<th class=n>state<th>knows of this start\n",
    )?;
    for host in shown.hosts.iter().take(MOST_ROWS) {
        put_host(html, shown.numbers.state.own_state, host)?;
    }
    html.markup("</table></div>\n")?;
    put_rest(html, shown.hosts.len(), "/hosts.json")
}
