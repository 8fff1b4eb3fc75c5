//! The page for a browser.
mod tables;

use crate::escape::Html;
use crate::metrics::{Numbers, StateNumbers};
use crate::rows::{HostRow, LockRow, Waiting};
use crate::starved::Starved;
use std::alloc::Global;
use tables::{put_files, put_hosts, put_waiters};

/// What the page for a browser shows.
#[derive(Clone, Copy)]
pub struct Shown<'a> {
    pub numbers: &'a Numbers,
    /// All locks, in order of file, first byte and owner.
    pub locks: &'a [LockRow],
    /// Those who wait, in the order of waiting.
    pub waiters: &'a [Waiting],
    /// All stored hosts, in order of name.
    pub hosts: &'a [HostRow],
    /// The second of the clock by which `waiters` is told.
    pub now: u64,
}

/// From so many callbacks and waiters on the places run short.
const FEW_SLOTS: u64 = 819;

/// From so many runs on they run short.
const MANY_RUNS: u64 = 58_982;

const HEAD: &str = "<!DOCTYPE html>
<html lang=en>
<head>
<meta charset=utf-8>
<meta name=viewport content=\"width=device-width,initial-scale=1\">
<meta http-equiv=refresh content=5>
<title>lockd</title>
<style>
body{font:16px/1.4 sans-serif;margin:1em auto;max-width:60em;padding:0 .6em;color:#222;background:#fff}
h1{font-size:1.5em;margin:0 0 .4em}
h2{font-size:1.15em;margin:1.4em 0 .3em}
.ok,.bad{padding:.5em .7em;border-radius:.3em}
.ok{background:#dff3df}
.bad{background:#ffe3c2}
.all{overflow-x:auto}
table{border-collapse:collapse;width:100%}
td,th{text-align:left;vertical-align:top;padding:.25em .6em .25em 0;border-bottom:1px solid #ddd;overflow-wrap:anywhere}
td.n,th.n{text-align:right;white-space:nowrap}
small{color:#666}
dl{display:grid;grid-template-columns:max-content auto;gap:.15em 1em;margin:.8em 0}
dd{margin:0}
@media(max-width:40em){table{font-size:.85em}td,th{padding-right:.4em}}
@media(prefers-color-scheme:dark){body{color:#ddd;background:#181818}.ok{background:#1d3a1d}.bad{background:#5a3a10}td,th{border-color:#444}small{color:#999}}
</style>
</head>
<body>
<h1>lockd</h1>
";

fn put_fact(
    html: &mut Html,
    name: &'static str,
    number: u64,
    behind: &'static str,
) -> Result<(), Starved> {
    html.markup("<dt>")?;
    html.markup(name)?;
    html.markup("<dd>")?;
    html.number(number)?;
    html.markup(behind)
}

// What an operator should know first.
fn put_health(html: &mut Html, numbers: &Numbers) -> Result<(), Starved> {
    let state = &numbers.state;
    if state.grace > 0 {
        html.markup("<p class=bad>In the grace period for another ")?;
        html.number(numbers.grace_left)?;
        return html.markup(" s: only clients that had locks get them back.</p>\n");
    }
    if state.slots_free < FEW_SLOTS || state.runs > MANY_RUNS {
        return html.markup("<p class=bad>A limit is near: look at runs and free places.</p>\n");
    }
    html.markup("<p class=ok>Serving.</p>\n")
}

fn put_numbers(html: &mut Html, numbers: &StateNumbers) -> Result<(), Starved> {
    html.markup("<dl>\n")?;
    put_fact(html, "runs of bytes locked", numbers.runs, " of 65536\n")?;
    put_fact(html, "waiters", numbers.waiters, "\n")?;
    put_fact(html, "callbacks due", numbers.calls_due, "\n")?;
    put_fact(html, "callbacks unanswered", numbers.calls_unanswered, "\n")?;
    put_fact(html, "free places", numbers.slots_free, " of 8192\n")?;
    put_fact(html, "shares", numbers.shares, " of 16384\n")?;
    put_fact(html, "hosts", numbers.hosts, " of 4096\n")?;
    put_fact(html, "own state", u64::from(numbers.own_state), "\n")?;
    put_fact(html, "events since the start", numbers.entries, "\n")?;
    html.markup("</dl>\n")
}

/// The page `/`: whether all is well, who waits for whom, the locks by file, and the hosts. It has no script, and comes anew every 5
/// seconds. Of each list the front is shown; the pages in JSON have all. Text of anybody's is added escaped.
pub fn index_page(alloc: Global, shown: &Shown<'_>) -> Result<Vec<u8>, Starved> {
    let mut html = Html::new(alloc);
    html.markup(HEAD)?;
    put_health(&mut html, shown.numbers)?;
    put_numbers(&mut html, &shown.numbers.state)?;
    put_waiters(&mut html, shown)?;
    put_files(&mut html, shown)?;
    put_hosts(&mut html, shown)?;
    html.markup("</body>\n</html>\n")?;
    Ok(html.into_bytes())
}
