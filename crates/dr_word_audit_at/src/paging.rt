//! Reads journals of nodes that run, page by page.
ghost use Rattle.std.specs.Prelude.{◌≡◌, ◌≤◌, IfOk, length};
ghost use Rattle.dr_run_ask.specs.Conversations.{OnlyReads};
ghost use Rattle.dr_word_audit_at.specs.Pages.{Adds, AddsIf, Asks as AsksIn, Counts};
ghost use Rattle.dr_word_audit_at.specs.Pages.{CountsLines, GrowsBy, HasLineOf, IsNodes};
ghost use Rattle.dr_word_audit_at.specs.Pages.{ReadsLines, ReadsPage, TellsLine};

use crate::told::line_in;
use dr_base::Seq;
use dr_ledger_history::JournalLine;
use dr_run_ask::{
    AskFault, Asks, HttpAnswer, HttpCall, Meant, first_value, journal_form, judge, refusal, see,
    value_of,
};
use dr_word_at::number_in;
use std::alloc::{AllocError, Global};
use std::str;

/// So many pages are asked for at most: a journal has no more than a thousand times as many lines.
const PAGES: u32 = 1_000_000;

/// How many lines the journal of the node has.
///
/// Errors: those of `see`; those of the answer.
pub(crate) fn count_of<A: Asks>(
    alloc: Global,
    node: &mut A,
    meant: Meant<'_>,
) -> Result<u64, AskFault>
    ensures reads { OnlyReads A.answers node.old node.new }
    ensures counts { IfOk result (λ count. Counts A.answers
        meant.entry.name.now meant.entry.digest.now node.old count node.new) }
{
    let answer = match see(alloc, node, meant) {
        Ok(answer) => answer,
        Err(fault) => return Err(fault),
    };
    lines_told(alloc, &answer)
}

/// How many lines an answer says that a journal has.
///
/// Errors: NoNodesAnswer, Memory.
fn lines_told(alloc: Global, answer: &HttpAnswer) -> Result<u64, AskFault>
    ensures { IfOk result (CountsLines answer.now.body.items) }
{
    let value = first_value(alloc, answer.body.as_slice())?;
    let count = number_in(&value, "lines")?;
    Ok(count)
}

/// The line of that number that a text is.
///
/// Errors: NoNodesAnswer, Memory.
fn line_of(alloc: Global, text: &str, number: u64) -> Result<JournalLine, AskFault>
    ensures { IfOk result (TellsLine text.now number) }
{
    let value = value_of(alloc, text.as_bytes())?;
    let line = line_in(alloc, &value, number)?;
    Ok(line)
}

/// Adds the line that stands behind those.
///
/// Errors: NoNodesAnswer, Memory.
fn add_line(alloc: Global, lines: &mut Seq<JournalLine>, text: &str) -> Result<(), AskFault>
    ensures { IfOk result (λ _. Adds text.now lines.old lines.new) }
{
    let Some(number) = (lines.len() as u64).checked_add(1) else {
        return Err(AskFault::NoNodesAnswer);
    };
    let line = line_of(alloc, text, number)?;
    lines.push(line)?;
    Ok(())
}

/// Adds the line that stands behind those, where there aren't so many yet and it isn't the page's
/// head.
///
/// Errors: NoNodesAnswer, Memory.
fn add_if(
    alloc: Global,
    lines: &mut Seq<JournalLine>,
    text: &str,
    count: u64,
    is_head: bool,
) -> Result<(), AskFault>
    requires { length lines.old ≤ count }
    ensures adds { IfOk result (λ _. AddsIf text.now lines.old lines.new) }
    ensures most { IfOk result (λ _. length lines.new ≤ count) }
{
    if is_head || lines.len() as u64 >= count {
        return Ok(());
    }
    add_line(alloc, lines, text)?;
    Ok(())
}

/// Adds the lines of a page, whose first line tells whose it is, until there are so many.
///
/// Errors: NoNodesAnswer, Memory.
fn add_lines(
    alloc: Global,
    lines: &mut Seq<JournalLine>,
    text: &str,
    count: u64,
) -> Result<(), AskFault>
    requires { length lines.old ≤ count }
    ensures grows { IfOk result (λ _. GrowsBy (HasLineOf text.now) lines.old lines.new) }
    ensures most { IfOk result (λ _. length lines.new ≤ count) }
{
    let mut is_head = true;
    for line in text.lines() {
        add_if(alloc, lines, line, count, is_head)?;
        is_head = false;
    }
    Ok(())
}

/// Adds the lines that an answer tells, until there are so many.
///
/// Errors: those of the answer; OtherNode, OtherPlan; Shrunk where it tells none.
fn add_page(
    alloc: Global,
    meant: Meant<'_>,
    answer: &HttpAnswer,
    lines: &mut Seq<JournalLine>,
    count: u64,
) -> Result<(), AskFault>
    requires { length lines.old ≤ count }
    ensures grows { IfOk result (λ _.
        IsNodes meant.entry.name.now meant.entry.digest.now answer.now
        × GrowsBy (HasLineOf answer.now.body.items) lines.old lines.new) }
    ensures most { IfOk result (λ _. length lines.new ≤ count) }
{
    if answer.status != 200 {
        return Err(refusal(alloc, answer));
    }
    judge(alloc, answer, meant)?;
    let Ok(text) = str::from_utf8(answer.body.as_slice()) else {
        return Err(AskFault::NoNodesAnswer);
    };
    let had = lines.len();
    add_lines(alloc, lines, text, count)?;
    if lines.len() == had {
        return Err(AskFault::Shrunk);
    }
    Ok(())
}

/// Asks for the lines behind so many.
///
/// Errors: those of `Asks::ask`; Memory.
fn ask_lines<A: Asks>(alloc: Global, node: &mut A, after: u64) -> Result<HttpAnswer, AskFault>
    ensures reads { OnlyReads A.answers node.old node.new }
    ensures asks { IfOk result (λ answer. AsksIn A.answers after node.old answer node.new) }
{
    let form = match journal_form(alloc, after) {
        Ok(form) => form,
        Err(AllocError) => return Err(AskFault::Memory),
    };
    node.ask(HttpCall::Journal(form.as_str()))
}

/// Adds the page that stands behind these lines, until there are so many.
///
/// Errors: those of `ask_lines` and `add_page`.
fn read_page<A: Asks>(
    alloc: Global,
    node: &mut A,
    meant: Meant<'_>,
    lines: &mut Seq<JournalLine>,
    count: u64,
) -> Result<(), AskFault>
    requires { length lines.old ≤ count }
    ensures reads { OnlyReads A.answers node.old node.new }
    ensures page { IfOk result (λ _. ReadsPage A.answers
        meant.entry.name.now meant.entry.digest.now node.old lines.old node.new lines.new) }
    ensures most { IfOk result (λ _. length lines.new ≤ count) }
{
    match ask_lines(alloc, node, lines.len() as u64) {
        Ok(answer) => add_page(alloc, meant, &answer, lines, count),
        Err(fault) => Err(fault),
    }
}

/// The first lines of the node's journal, so many.
///
/// Errors: those of `read_page`; NoNodesAnswer where no end is in sight.
pub(crate) fn read_lines<A: Asks>(
    alloc: Global,
    node: &mut A,
    meant: Meant<'_>,
    count: u64,
) -> Result<Seq<JournalLine>, AskFault>
    ensures reads { OnlyReads A.answers node.old node.new }
    ensures count { IfOk result (λ lines. length lines ≡ count) }
    ensures told { IfOk result (λ lines. ReadsLines A.answers
        meant.entry.name.now meant.entry.digest.now node.old lines node.new) }
{
    let mut lines = Seq::new(alloc);
    for _page in 0..PAGES {
        if lines.len() as u64 >= count {
            return Ok(lines);
        }
        match read_page(alloc, node, meant, &mut lines, count) {
            Ok(()) => {}
            Err(fault) => return Err(fault),
        }
    }
    Err(AskFault::NoNodesAnswer)
}
