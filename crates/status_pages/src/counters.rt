//! Counters, in the text format 0.0.4 of Prometheus: a line for each that has counted.
ghost use Rattle.std.specs.Prelude.{◌≡◌, ◌++◌, OnOk, map};
ghost use Rattle.std.specs.List.{flat_map};
ghost use Rattle.event_counts.specs.Numbers.{number_at};
ghost use Rattle.event_counts.specs.Places.{call_place, procedure_place};
ghost use Rattle.status_pages.specs.Counters.{counted_text, call_text, event_text, procedure_text, program_text, happening_text, calls_text, events_text, counters_text, view_of_procedure, view_of_program, view_of_named_outcome, view_of_named_happening, view_of_status};

mod table;

use crate::metrics::{Kind, put_head};
use crate::starved::Starved;
use crate::text::{put_number, put_parts};
use event_counts::{CallOutcome, Counts, Happening, StoreReply, procedure_place};
pub(crate) use table::HAPPENINGS;
use table::{OUTCOMES, PROGRAMS, STATUSES};

const CALLS: &str = "lockd_calls_total";

const EVENTS: &str = "lockd_events_total";

/// A procedure, by its number.
#[derive(Clone, Copy)]
pub(crate) struct Procedure<'a> {
    pub(crate) number: u32,
    pub(crate) label: &'a str,
}

/// A version of a program, by its numbers, with its labels and its procedures.
#[derive(Clone, Copy)]
pub(crate) struct Program<'a> {
    pub(crate) number: u32,
    pub(crate) version: u32,
    pub(crate) labels: &'a str,
    pub(crate) procedures: &'a [Procedure<'a>],
}

/// What a call gets.
#[derive(Clone, Copy)]
pub(crate) struct NamedOutcome<'a> {
    pub(crate) outcome: CallOutcome,
    pub(crate) label: &'a str,
}

/// What happens.
#[derive(Clone, Copy)]
pub(crate) struct NamedHappening<'a> {
    pub(crate) what: Happening,
    pub(crate) label: &'a str,
    /// Its key in `/status.json`.
    pub(crate) key: &'a str,
}

/// Whether an event meets want of memory, and what the store answers, with the labels that say so.
#[derive(Clone, Copy)]
pub(crate) struct NamedStatus<'a> {
    pub(crate) starved: bool,
    pub(crate) answered: StoreReply,
    pub(crate) labels: &'a str,
}

// A line of a counter with labels of these parts, if it has counted.
fn put_counted(out: &mut Vec<u8>, name: &str, labels: &[&[u8]], count: u64) -> Result<(), Starved>
    ensures { OnOk result (out.new.items ≡ out.old.items ++ counted_text name.now (flat_map (λ part. part.now) labels.now) count) }
{
    if count == 0 {
        return Ok(());
    }
    put_parts(out, &[name.as_bytes(), b"{"])?;
    put_parts(out, labels)?;
    put_parts(out, &[b"} "])?;
    put_number(out, count)?;
    put_parts(out, &[b"\n"])
}

// How many calls of a procedure got this.
fn calls_of(
    counts: &Counts,
    program: &Program<'_>,
    procedure: &Procedure<'_>,
    got: &NamedOutcome<'_>,
) -> u64
    ensures { result ≡ number_at counts.now.calls (call_place (procedure_place program.now.number program.now.version procedure.now.number) got.now.outcome) }
{
    let place = procedure_place(program.number, program.version, procedure.number);
    counts.calls(place, got.outcome)
}

fn put_call(
    out: &mut Vec<u8>,
    counts: &Counts,
    program: &Program<'_>,
    procedure: &Procedure<'_>,
    got: &NamedOutcome<'_>,
) -> Result<(), Starved>
    ensures { OnOk result (out.new.items ≡ out.old.items ++ call_text counts.now (view_of_program program.now) (view_of_procedure procedure.now) (view_of_named_outcome got.now)) }
{
    let count = calls_of(counts, program, procedure, got);
    let labels: [&[u8]; 6] = [
        program.labels.as_bytes(),
        b",procedure=\"",
        procedure.label.as_bytes(),
        b"\",outcome=\"",
        got.label.as_bytes(),
        b"\"",
    ];
    put_counted(out, CALLS, &labels, count)?;
    Ok(())
}

fn put_procedure(
    out: &mut Vec<u8>,
    counts: &Counts,
    program: &Program<'_>,
    procedure: &Procedure<'_>,
    outcomes: &[NamedOutcome<'_>],
) -> Result<(), Starved>
    ensures { OnOk result (out.new.items ≡ out.old.items ++ flat_map (call_text counts.now (view_of_program program.now) (view_of_procedure procedure.now)) (map view_of_named_outcome outcomes.now)) }
{
    for got in outcomes {
        put_call(out, counts, program, procedure, got)?;
    }
    Ok(())
}

fn put_program(out: &mut Vec<u8>, counts: &Counts, program: &Program<'_>) -> Result<(), Starved>
    ensures { OnOk result (out.new.items ≡ out.old.items ++ program_text counts.now (view_of_program program.now)) }
{
    for procedure in program.procedures {
        put_procedure(out, counts, program, procedure, OUTCOMES)?;
    }
    Ok(())
}

fn put_programs(out: &mut Vec<u8>, counts: &Counts, programs: &[Program<'_>]) -> Result<(), Starved>
    ensures { OnOk result (out.new.items ≡ out.old.items ++ flat_map (program_text counts.now) (map view_of_program programs.now)) }
{
    for program in programs {
        put_program(out, counts, program)?;
    }
    Ok(())
}

fn put_event(
    out: &mut Vec<u8>,
    counts: &Counts,
    happened: &NamedHappening<'_>,
    status: &NamedStatus<'_>,
) -> Result<(), Starved>
    ensures { OnOk result (out.new.items ≡ out.old.items ++ event_text counts.now (view_of_named_happening happened.now) (view_of_status status.now)) }
{
    let labels: [&[u8]; 4] = [
        b"event=\"",
        happened.label.as_bytes(),
        b"\",",
        status.labels.as_bytes(),
    ];
    let count = counts.events(happened.what, status.starved, status.answered);
    put_counted(out, EVENTS, &labels, count)?;
    Ok(())
}

fn put_happening(
    out: &mut Vec<u8>,
    counts: &Counts,
    happened: &NamedHappening<'_>,
    statuses: &[NamedStatus<'_>],
) -> Result<(), Starved>
    ensures { OnOk result (out.new.items ≡ out.old.items ++ flat_map (event_text counts.now (view_of_named_happening happened.now)) (map view_of_status statuses.now)) }
{
    for status in statuses {
        put_event(out, counts, happened, status)?;
    }
    Ok(())
}

fn put_happenings(
    out: &mut Vec<u8>,
    counts: &Counts,
    happenings: &[NamedHappening<'_>],
) -> Result<(), Starved>
    ensures { OnOk result (out.new.items ≡ out.old.items ++ flat_map (happening_text counts.now) (map view_of_named_happening happenings.now)) }
{
    for happened in happenings {
        put_happening(out, counts, happened, STATUSES)?;
    }
    Ok(())
}

fn put_calls(out: &mut Vec<u8>, counts: &Counts) -> Result<(), Starved>
    ensures { OnOk result (out.new.items ≡ out.old.items ++ calls_text counts.now) }
{
    put_head(
        out,
        CALLS,
        "Calls taken, by procedure and by what they got.",
        Kind::Counter,
    )?;
    put_programs(out, counts, PROGRAMS)?;
    Ok(())
}

fn put_events(out: &mut Vec<u8>, counts: &Counts) -> Result<(), Starved>
    ensures { OnOk result (out.new.items ≡ out.old.items ++ events_text counts.now) }
{
    put_head(
        out,
        EVENTS,
        "Entries of the journal, by what happened.",
        Kind::Counter,
    )?;
    put_happenings(out, counts, HAPPENINGS)?;
    Ok(())
}

/// All counters that have counted, with their help and their type.
pub(crate) fn put_counters(out: &mut Vec<u8>, counts: &Counts) -> Result<(), Starved>
    ensures { OnOk result (out.new.items ≡ out.old.items ++ counters_text counts.now) }
{
    put_calls(out, counts)?;
    put_events(out, counts)
}
