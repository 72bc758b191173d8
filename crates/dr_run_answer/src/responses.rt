//! The statuses of responses that were sent, counted by caller. What the lines amount to is said in
//! `specs/Responses.antt`, and what follows from it in `laws`.
ghost use Rattle.std.specs.Prelude.{◌≡◌, ◌+◌, ◌++◌, ◌∷◌, [], IfOk, MatchBool, None, OnOk, Some};
ghost use Rattle.std.specs.Prelude.{codes, flat_map, min, position};
ghost use Rattle.dr_run_answer.specs.Answers.{twice_labelled};
ghost use Rattle.dr_run_answer.specs.Intakes.{if_so, most};
ghost use Rattle.dr_run_answer.specs.Responses.{CountsStatus, IsCountedUnder, has_own, is_kind_of};
ghost use Rattle.dr_run_answer.specs.Responses.{is_line_of, kinds_of, response_figure};
ghost use Rattle.dr_run_answer.specs.Responses.{response_figures, same_status};

use crate::figures::put_twice_labelled;
use dr_base::Text;
use std::alloc::{AllocError, Global};

/// How many responses of a status a caller was sent; None stands for all statuses that have no line
/// of their own.
#[derive(Drop)]
pub struct ResponseCount {
    pub caller: Text,
    pub status: Option<u16>,
    pub count: u64,
}

/// So many statuses of a caller have a line of their own at most.
const KINDS: u64 = 16;

/// So many lines are kept at most.
const MOST: usize = 4_096;

/// Whether two statuses are the same.
fn is_same(a: Option<u16>, b: Option<u16>) -> bool
    ensures { result ≡ same_status a b }
{
    match (a, b) {
        (None, None) => true,
        (Some(a), Some(b)) => a == b,
        (None, Some(_)) => false,
        (Some(_), None) => false,
    }
}

/// Whether a line is that of a caller and a status.
fn is_line_of(line: &ResponseCount, caller: &Text, status: Option<u16>) -> bool
    ensures { result ≡ is_line_of caller.now status line.now }
{
    line.caller == *caller && is_same(line.status, status)
}

/// Where the line of a caller and a status stands, if there is one.
fn place_of(lines: &[ResponseCount], caller: &Text, status: Option<u16>) -> Option<usize>
    ensures { result ≡ position (is_line_of caller.now status) lines.now }
{
    lines
        .iter()
        .position(|line| is_line_of(line, caller, status))
}

/// Whether a line is that of one status.
fn has_own(status: Option<u16>) -> bool
    ensures { result ≡ has_own status }
{
    match status {
        Some(_) => true,
        None => false,
    }
}

/// One for a line of one status of a caller, and none for another.
fn kind_in(line: &ResponseCount, caller: &Text) -> u64
    ensures { result ≡ if_so (is_kind_of caller.now line.now) 1 }
{
    u64::from(line.caller == *caller && has_own(line.status))
}

/// How many statuses of a caller have a line of their own.
fn kinds_of(lines: &[ResponseCount], caller: &Text) -> u64
    ensures { result ≡ min most (kinds_of caller.now lines.now) }
{
    let mut count = 0u64;
    for line in lines {
        count = count.saturating_add(kind_in(line, caller));
    }
    count
}

/// Under what a response to a caller is counted.
fn counted_under(lines: &[ResponseCount], caller: &Text, status: u16) -> Option<u16>
    ensures { IsCountedUnder caller.now status lines.now result }
{
    match place_of(lines, caller, Some(status)) {
        Some(_) => Some(status),
        None => own_if_few(lines, caller, status),
    }
}

/// A status without a line has one from now on, unless there are enough.
fn own_if_few(lines: &[ResponseCount], caller: &Text, status: u16) -> Option<u16>
    requires { position (is_line_of caller.now (Some status)) lines.now ≡ None }
    ensures { IsCountedUnder caller.now status lines.now result }
{
    if kinds_of(lines, caller) < KINDS {
        return Some(status);
    }
    None
}

/// One more. The figure stays at its greatest value.
fn raise(line: &mut ResponseCount)
    ensures { line.new ≡ record {
      caller = line.old.caller;
      status = line.old.status;
      count = min most (line.old.count + 1);
    } }
{
    line.count = line.count.saturating_add(1);
}

/// Adds a line for one response; says whether there was room and memory for it.
fn add_first(lines: &mut Vec<ResponseCount>, caller: &Text, status: Option<u16>) -> bool
    ensures { MatchBool result
        (lines.new.items
        ≡ lines.old.items
        ++ (record { caller = caller.now; status = status; count = 1 }) ∷ [])
        (lines.new.items ≡ lines.old.items) }
{
    if lines.len() >= MOST {
        return false;
    }
    match caller.clone() {
        Ok(caller) => push_first(lines, caller, status),
        Err(_) => false,
    }
}

/// The same, where the line has its text.
fn push_first(lines: &mut Vec<ResponseCount>, caller: Text, status: Option<u16>) -> bool
    ensures { MatchBool result
        (lines.new.items
        ≡ lines.old.items ++ (record { caller = caller; status = status; count = 1 }) ∷ [])
        (lines.new.items ≡ lines.old.items) }
{
    let first = ResponseCount {
        caller,
        status,
        count: 1,
    };
    lines.push(first).is_ok()
}

/// Counts a response to a caller by its status. It isn't counted, and nothing has changed, where
/// there is no room or no memory for a line more; it tells which.
pub fn note_status(lines: &mut Vec<ResponseCount>, caller: &Text, status: u16) -> bool
    ensures { MatchBool result
        (CountsStatus caller.now status lines.old.items lines.new.items)
        (lines.new.items ≡ lines.old.items) }
{
    let under = counted_under(lines.as_slice(), caller, status);
    match place_of(lines.as_slice(), caller, under) {
        Some(place) => {
            raise(&mut lines[place]);
            true
        }
        None => add_first(lines, caller, under),
    }
}

/// A copy of a line.
///
/// Errors: want of memory.
fn response_copy(line: &ResponseCount) -> Result<ResponseCount, AllocError>
    ensures { IfOk result (λ copy. copy ≡ line.now) }
{
    let caller = line.caller.clone()?;
    Ok(ResponseCount {
        caller,
        status: line.status,
        count: line.count,
    })
}

/// Copies of lines.
///
/// Errors: want of memory.
pub fn response_copies(
    alloc: Global,
    lines: &[ResponseCount],
) -> Result<Vec<ResponseCount>, AllocError>
    ensures { IfOk result (λ copies. copies.items ≡ lines.now) }
{
    let mut copies = Vec::with_capacity(alloc, lines.len())?;
    for line in lines {
        copies.push(response_copy(line)?)?;
    }
    Ok(copies)
}

/// Adds how many responses of a status a caller was sent, by the status in words.
fn put_said(out: &mut Vec<u8>, line: &ResponseCount, status: &str) -> Result<(), AllocError>
    ensures { OnOk result (out.new.items
        ≡ out.old.items
        ++ twice_labelled (codes "dr_router_answers_total") (codes "caller") line.now.caller
        (codes "status") status.now line.now.count) }
{
    put_twice_labelled(
        out,
        "dr_router_answers_total",
        "caller",
        &line.caller,
        "status",
        status,
        line.count,
    )
}

/// Adds how many responses of a status a caller was sent.
fn put_response(out: &mut Vec<u8>, line: &ResponseCount) -> Result<(), AllocError>
    ensures { OnOk result (out.new.items ≡ out.old.items ++ response_figure line.now) }
{
    match line.status {
        Some(status) => {
            let bytes = status.to_be_bytes();
            let alloc = *out.allocator();
            let digits = hex::encode_upper(alloc, bytes.as_slice())?;
            put_said(out, line, digits.as_str())
        }
        None => put_said(out, line, "other"),
    }
}

/// The same of each caller and status.
fn put_each_response(out: &mut Vec<u8>, lines: &[ResponseCount]) -> Result<(), AllocError>
    ensures { OnOk result (out.new.items ≡ out.old.items ++ flat_map response_figure lines.now) }
{
    for line in lines {
        put_response(out, line)?;
    }
    Ok(())
}

/// Adds how many responses of each status each caller was sent.
pub fn put_responses(out: &mut Vec<u8>, lines: &[ResponseCount]) -> Result<(), AllocError>
    ensures { OnOk result (out.new.items ≡ out.old.items ++ response_figures lines.now) }
{
    out.extend_from_slice(b"# TYPE dr_router_answers_total counter\n")?;
    put_each_response(out, lines)?;
    Ok(())
}
