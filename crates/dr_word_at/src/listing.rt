//! What a node that runs has, as it is printed.
ghost use Rattle.dr_run_ask.specs.Conversations.{OnlyReads};

use crate::shown::{number_in, put_queue, put_row, text_in};
use dr_base::Text;
use dr_base::fields::add_number;
use dr_ledger_report::put_name;
use dr_run_ask::{
    AskFault, Asks, HttpAnswer, HttpCall, first_value, refusal, rows_form, text_at, value_of,
};
use dr_run_open::NextHop;
use std::alloc::{AllocError, Global};
use std::str;

const LF: u8 = 10;

/// So many pages of rows are asked for at most.
const PAGES: u32 = 10_000;

/// What is printed has so many bytes at most.
const MOST: usize = 256 * 1024 * 1024;

/// Adds the line of a row that a line of an answer tells.
///
/// Errors: NoNodesAnswer, Memory.
fn put_line(alloc: Global, out: &mut Vec<u8>, line: &[u8]) -> Result<(), AskFault> {
    let value = value_of(alloc, line)?;
    put_row(out, &value)
}

/// The UID of the row that a line tells.
///
/// Errors: NoNodesAnswer, Memory.
fn uid_in(alloc: Global, line: &[u8]) -> Result<String, AskFault> {
    let value = value_of(alloc, line)?;
    let uid = text_in(&value, "uid")?;
    let uid = String::from_str(alloc, uid)?;
    Ok(uid)
}

/// Adds the lines of a page of rows, and tells the UID of the last one, if there is one.
///
/// Errors: NoNodesAnswer, Memory.
fn put_page(alloc: Global, out: &mut Vec<u8>, text: &str) -> Result<Option<String>, AskFault> {
    let mut last = b"".as_slice();
    for line in text.lines() {
        let line = line.as_bytes();
        put_line(alloc, out, line)?;
        last = line;
    }
    if last.is_empty() {
        return Ok(None);
    }
    let uid = uid_in(alloc, last)?;
    Ok(Some(uid))
}

/// Asks for the rows to a node behind a UID.
///
/// Errors: those of `Asks::ask`; Memory.
fn ask_rows<A: Asks>(
    alloc: Global,
    node: &mut A,
    dest: &str,
    after: &str,
) -> Result<HttpAnswer, AskFault>
    ensures { OnlyReads A.answers node.old node.new }
{
    let form = match rows_form(alloc, dest, after) {
        Ok(form) => form,
        Err(AllocError) => return Err(AskFault::Memory),
    };
    node.ask(HttpCall::Rows(form.as_str()))
}

/// Adds the lines of the rows that an answer tells, and tells the UID of the last one.
///
/// Errors: those of the answer.
fn put_answer(
    alloc: Global,
    out: &mut Vec<u8>,
    answer: &HttpAnswer,
) -> Result<Option<String>, AskFault> {
    if answer.status != 200 {
        return Err(refusal(alloc, answer));
    }
    match str::from_utf8(answer.body.as_slice()) {
        Ok(text) => put_page(alloc, out, text),
        Err(_) => Err(AskFault::NoNodesAnswer),
    }
}

/// Asks for the rows to a node behind a UID, adds their lines, and tells the UID of the last one.
///
/// Errors: those of `Asks::ask`; those of the answer.
fn put_next_page<A: Asks>(
    alloc: Global,
    node: &mut A,
    out: &mut Vec<u8>,
    dest: &str,
    after: &str,
) -> Result<Option<String>, AskFault>
    ensures { OnlyReads A.answers node.old node.new }
{
    match ask_rows(alloc, node, dest, after) {
        Ok(answer) => put_answer(alloc, out, &answer),
        Err(fault) => Err(fault),
    }
}

/// Asks for all rows to a node, and adds their lines.
///
/// Errors: those of `Asks::ask`; those of the answers; NoNodesAnswer where there is no end of them.
fn put_rows_to<A: Asks>(
    alloc: Global,
    node: &mut A,
    out: &mut Vec<u8>,
    dest: &str,
) -> Result<(), AskFault>
    ensures { OnlyReads A.answers node.old node.new }
{
    let mut after = String::new(alloc);
    for _page in 0..PAGES {
        let came = match put_next_page(alloc, node, out, dest, after.as_str()) {
            Ok(came) => came,
            Err(fault) => return Err(fault),
        };
        let Some(uid) = came else {
            return Ok(());
        };
        if out.len() > MOST || uid.as_str() <= after.as_str() {
            return Err(AskFault::NoNodesAnswer);
        }
        after = uid;
    }
    Err(AskFault::NoNodesAnswer)
}

/// Asks for all rows to the node of that name, and adds their lines.
///
/// Errors: NoRequest where the name is no text; those of `put_rows_to`.
fn put_rows_named<A: Asks>(
    alloc: Global,
    node: &mut A,
    out: &mut Vec<u8>,
    dest: &Text,
) -> Result<(), AskFault>
    ensures { OnlyReads A.answers node.old node.new }
{
    match str::from_utf8(dest.as_bytes()) {
        Ok(dest) => put_rows_to(alloc, node, out, dest),
        Err(_) => Err(AskFault::NoRequest),
    }
}

/// Asks for all rows to each of these nodes, and adds their lines.
///
/// Errors: those of `put_rows_named`.
fn put_all_rows<A: Asks>(
    alloc: Global,
    node: &mut A,
    out: &mut Vec<u8>,
    hops: &[NextHop],
) -> Result<(), AskFault>
    ensures { OnlyReads A.answers node.old node.new }
{
    for hop in hops {
        match put_rows_named(alloc, node, out, &hop.dest) {
            Ok(()) => {}
            Err(fault) => return Err(fault),
        }
    }
    Ok(())
}

/// The line that names a node.
///
/// Errors: want of memory.
fn named(alloc: Global, name: &Text) -> Result<Vec<u8>, AllocError> {
    let mut out = Vec::new(alloc);
    put_name(&mut out, name)?;
    Ok(out)
}

/// What a node has that was seen, as far as its control connection shows it: its name, and the rows
/// to each node to which it sends.
///
/// Errors: those of `Asks::ask`; those of the answers.
pub(crate) fn list_of<A: Asks>(
    alloc: Global,
    node: &mut A,
    name: &Text,
    hops: &[NextHop],
) -> Result<Text, AskFault>
    ensures { OnlyReads A.answers node.old node.new }
{
    let mut out = match named(alloc, name) {
        Ok(out) => out,
        Err(AllocError) => return Err(AskFault::Memory),
    };
    match put_all_rows(alloc, node, &mut out, hops) {
        Ok(()) => Ok(Text::from_vec(out)),
        Err(fault) => Err(fault),
    }
}

/// Adds the line of a kind, with how many there are.
fn put_count(out: &mut Vec<u8>, word: &str, count: u64) -> Result<(), AllocError> {
    out.extend_from_slice(word.as_bytes())?;
    add_number(out, count)?;
    out.push(LF)?;
    Ok(())
}

/// How much a node has, as it is printed, and whether a row is held.
#[derive(Drop)]
pub(crate) struct Summed {
    pub text: Text,
    pub is_held: bool,
}

/// Adds the line of the rows to a node that a line of an answer tells, and tells whether one is
/// held. A line that is of no next node, as that of an association, tells none.
///
/// Errors: NoNodesAnswer, Memory.
fn put_queue_of(alloc: Global, out: &mut Vec<u8>, line: &str) -> Result<bool, AskFault> {
    let value = value_of(alloc, line.as_bytes())?;
    if text_at(&value, "dest").is_none() {
        return Ok(false);
    }
    put_queue(out, &value)?;
    let held = number_in(&value, "held")?;
    Ok(held > 0)
}

/// Adds the lines of the rows to each node, which stand behind the first line, and tells whether
/// one is held.
///
/// Errors: NoNodesAnswer, Memory.
fn put_queues(alloc: Global, out: &mut Vec<u8>, text: &str) -> Result<bool, AskFault> {
    let (mut is_first, mut is_held) = (true, false);
    for line in text.lines() {
        if is_first {
            is_first = false;
        } else if put_queue_of(alloc, out, line)? {
            is_held = true;
        }
    }
    Ok(is_held)
}

/// How many arrivals, kept instances and lines of its journal a node has.
#[derive(Clone, Copy)]
struct TotalsTold {
    arrivals: u64,
    kept: u64,
    lines: u64,
}

/// What the first line of an answer tells of them.
///
/// Errors: NoNodesAnswer, Memory.
fn totals_in(alloc: Global, answer: &HttpAnswer) -> Result<TotalsTold, AskFault> {
    let value = first_value(alloc, answer.body.as_slice())?;
    let arrivals = number_in(&value, "arrivals")?;
    let kept = number_in(&value, "kept")?;
    let lines = number_in(&value, "lines")?;
    Ok(TotalsTold {
        arrivals,
        kept,
        lines,
    })
}

/// How much a node has, by what it says of itself.
///
/// Errors: NoNodesAnswer, Memory.
pub(crate) fn summary_of(
    alloc: Global,
    name: &Text,
    answer: &HttpAnswer,
) -> Result<Summed, AskFault> {
    let Ok(text) = str::from_utf8(answer.body.as_slice()) else {
        return Err(AskFault::NoNodesAnswer);
    };
    let totals = totals_in(alloc, answer)?;
    let mut out = named(alloc, name)?;
    put_count(&mut out, "arrivals", totals.arrivals)?;
    put_count(&mut out, "kept", totals.kept)?;
    let is_held = put_queues(alloc, &mut out, text)?;
    put_count(&mut out, "lines", totals.lines)?;
    Ok(Summed {
        text: Text::from_vec(out),
        is_held,
    })
}
