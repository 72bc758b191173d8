//! Where journals of nodes that run are cut, and what stands behind the cut.
ghost use Rattle.std.specs.Prelude.{◌≡◌, ◌<◌, ◌+◌, ◌++◌, ℕ, IfOk, MatchOption, OnOk, drop};
ghost use Rattle.std.specs.Prelude.{get_or, length, reverse, set, take};
ghost use Rattle.dr_word_audit_at.specs.Cuts.{IsUpToNext, MendsNowhere, Moves, cut_at as is_cut};
ghost use Rattle.dr_word_audit_at.specs.Cuts.{cuts, joined, joined_at, mends, put_on, rest_named};
ghost use Rattle.dr_word_audit_at.specs.Cuts.{rests_of};

use dr_base::{Seq, Text};
use dr_ledger_history::JournalLine;
use dr_word_audit::placing::{came_from, goes_on};
use dr_world_audit::audit::NodeJournal;
use std::alloc::{AllocError, Global};

/// What another node's line has to say so that nothing is missing: that the instance of the UID
/// arrived from there, or that it arrived, and goes on to there.
#[derive(Drop)]
pub enum MissingLine {
    CameFrom { uid: Text, from: Text },
    GoesOn { uid: Text, to: Text },
}

/// Whether the line says it.
fn mends(missing: &MissingLine, line: &JournalLine) -> bool
    ensures { result ≡ mends missing.now line.now }
{
    match missing {
        MissingLine::CameFrom { uid, from } => came_from(uid, from, line),
        MissingLine::GoesOn { uid, to } => goes_on(uid, to, line),
    }
}

/// How many of the lines there are up to the first that says it.
fn count_to(missing: &MissingLine, lines: &[JournalLine]) -> Option<usize>
    ensures { MatchOption result (MendsNowhere missing.now lines.now)
        (IsUpToNext missing.now lines.now) }
{
    for (i, line) in lines.iter().enumerate() {
        if mends(missing, line) {
            return Some(i + 1);
        }
    }
    None
}

/// The lines behind so many.
pub(crate) fn behind(lines: &[JournalLine], count: usize) -> &[JournalLine]
    ensures { result.now ≡ drop count lines.now }
{
    if lines.len() < count {
        return &[];
    }
    let (_cut, rest) = lines.split_at(count);
    rest
}

/// The cut at that place; 0 where there is none.
pub(crate) fn count_at(counts: &[usize], place: usize) -> usize
    ensures { result ≡ get_or counts.now place 0 }
{
    match counts.get(place) {
        Some(count) => *count,
        None => 0,
    }
}

/// How many lines of the journal there are up to the first behind the cut that says it.
fn next_count(missing: &MissingLine, lines: &[JournalLine], count: usize) -> Option<usize>
    ensures { MatchOption result (MendsNowhere missing.now (drop count lines.now))
        (λ n. (more : ℕ) × IsUpToNext missing.now (drop count lines.now) more
        × (n ≡ count + more)) }
{
    let rest = behind(lines, count);
    match count_to(missing, rest) {
        Some(more) => Some(lines.len().saturating_sub(rest.len().saturating_sub(more))),
        None => None,
    }
}

/// The place, with how many lines of the journal there are up to the first behind the cut that says
/// it.
fn cut_behind(
    missing: &MissingLine,
    lines: &[JournalLine],
    count: usize,
    place: usize,
) -> Option<(usize, usize)>
    ensures { MatchOption result (MendsNowhere missing.now (drop count lines.now))
        (λ next. (next.0 ≡ place)
        × ((more : ℕ) × IsUpToNext missing.now (drop count lines.now) more
        × (next.1 ≡ count + more))) }
{
    match next_count(missing, lines, count) {
        Some(next) => Some((place, next)),
        None => None,
    }
}

/// The place of the node of that name whose journal says it behind its cut, and where its next cut
/// is.
fn next_cut(
    missing: &MissingLine,
    name: &Text,
    counts: &[usize],
    read: &[NodeJournal],
) -> Option<(usize, usize)>
    requires { length counts.now ≡ length read.now }
    ensures { MatchOption result
        (MendsNowhere missing.now (rest_named name.now counts.now read.now))
        (λ next. (next.0 < length counts.now)
        × ((more : ℕ) × IsUpToNext missing.now (rest_named name.now counts.now read.now) more
        × (set counts.now next.0 next.1 ≡ put_on name.now more counts.now read.now))) }
{
    for place in 0..read.len() {
        let node = &read[place];
        if node.name == *name {
            return cut_behind(missing, node.lines.as_slice(), counts[place], place);
        }
    }
    None
}

/// Moves the cut of the node of that name behind the next line that says it; whether there is one.
pub(crate) fn move_cut(
    missing: &MissingLine,
    name: &Text,
    counts: &mut Vec<usize>,
    read: &[NodeJournal],
) -> bool
    requires { length counts.old.items ≡ length read.now }
    ensures { Moves missing.now name.now read.now counts.old.items counts.new.items result }
{
    match next_cut(missing, name, counts.as_slice(), read) {
        Some((place, next)) => {
            counts[place] = next;
            true
        }
        None => false,
    }
}

/// Journals that are cut, with the lines behind each cut, of which the last one comes first.
#[derive(Drop)]
pub(crate) struct CutJournals {
    pub journals: Vec<NodeJournal>,
    pub rests: Vec<Vec<JournalLine>>,
}

/// Takes the lines behind so many off, and answers them, the last one first.
fn cut_off(
    alloc: Global,
    lines: &mut Vec<JournalLine>,
    count: usize,
) -> Result<Vec<JournalLine>, AllocError>
    ensures cut { OnOk result (lines.new.items ≡ take count lines.old.items) }
    ensures rest { IfOk result (λ rest.
        lines.new.items ++ reverse rest.items ≡ lines.old.items) }
{
    let mut rest = Vec::new(alloc);
    while lines.len() > count {
        let Some(line) = lines.pop() else {
            return Ok(rest);
        };
        rest.push(line)?;
    }
    Ok(rest)
}

/// A journal cut behind so many lines, and those behind the cut.
fn cut_at(
    alloc: Global,
    node: NodeJournal,
    count: usize,
) -> Result<(NodeJournal, Vec<JournalLine>), AllocError>
    ensures cut { IfOk result (λ both. both.0 ≡ is_cut count node) }
    ensures whole { IfOk result (λ both. joined_at both.0 both.1.items ≡ node) }
{
    let NodeJournal { name, lines } = node;
    let mut lines = lines.into_vec();
    let rest = cut_off(alloc, &mut lines, count)?;
    let lines = Seq::from_vec(lines);
    Ok((NodeJournal { name, lines }, rest))
}

/// Cuts each journal at its number. No line is copied.
pub(crate) fn cut_all(
    alloc: Global,
    counts: &[usize],
    read: Vec<NodeJournal>,
) -> Result<CutJournals, AllocError>
    requires { length counts.now ≡ length read.items }
    ensures cut { IfOk result (λ cut. cut.journals.items ≡ cuts counts.now read.items) }
    ensures whole { IfOk result (λ cut.
        joined cut.journals.items (rests_of cut.rests.items) ≡ read.items) }
{
    let (mut journals, mut rests) = (Vec::new(alloc), Vec::new(alloc));
    for node in read {
        let count = count_at(counts, journals.len());
        let (journal, rest) = cut_at(alloc, node, count)?;
        journals.push(journal)?;
        rests.push(rest)?;
    }
    Ok(CutJournals { journals, rests })
}

/// Puts lines back behind those that were cut.
fn put_back(lines: &mut Vec<JournalLine>, rest: Vec<JournalLine>) -> Result<(), AllocError>
    ensures { OnOk result (lines.new.items ≡ lines.old.items ++ reverse rest.items) }
{
    let mut rest = rest;
    while let Some(line) = rest.pop() {
        lines.push(line)?;
    }
    Ok(())
}

/// A journal with the lines that stood behind its cut.
fn join(node: NodeJournal, rest: Vec<JournalLine>) -> Result<NodeJournal, AllocError>
    ensures { IfOk result (λ whole. whole ≡ joined_at node rest.items) }
{
    let NodeJournal { name, lines } = node;
    let mut lines = lines.into_vec();
    put_back(&mut lines, rest)?;
    let lines = Seq::from_vec(lines);
    Ok(NodeJournal { name, lines })
}

/// The journals as they were before they were cut. No line is copied.
pub(crate) fn join_all(alloc: Global, cut: CutJournals) -> Result<Vec<NodeJournal>, AllocError>
    ensures { IfOk result (λ nodes.
        nodes.items ≡ joined cut.journals.items (rests_of cut.rests.items)) }
{
    let CutJournals { journals, rests } = cut;
    let (mut nodes, mut rests) = (Vec::new(alloc), rests.into_iter());
    for node in journals {
        let Some(rest) = rests.next() else {
            return Ok(nodes);
        };
        nodes.push(join(node, rest)?)?;
    }
    Ok(nodes)
}
