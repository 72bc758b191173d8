//! Where the cuts of journals are put before they are audited: behind what other cuts rest on.
ghost use Rattle.std.specs.Prelude.{◌≡◌, ◌-◌, Contains, IfOk, IfSome, IsTrue, List, MatchOption};
ghost use Rattle.std.specs.Prelude.{OnOk, drop, get_or, length, take};
ghost use Rattle.std.specs.BTreeMap as tree;
ghost use Rattle.std.specs.BTreeMap.{is_at};
ghost use Rattle.dr_ledger.specs.Pairs.{Pair, pair_cmp};
ghost use Rattle.dr_base.specs.Texts.{Text as Words};
ghost use Rattle.dr_plan_model.specs.Networks.{Network};
ghost use Rattle.dr_ledger_history.specs.declared.line.JournalLine.{JournalLine as Told};
ghost use Rattle.dr_word_audit_at.specs.Cuts.{AreNoEarlier, AreReached, HasLine, MendsNowhere};
ghost use Rattle.dr_word_audit_at.specs.Cuts.{RestsOn, cuts, lines_named};
ghost use Rattle.dr_word_audit_at.specs.Firsts.{AreAllFirst, AreFirst, is_goal, or_first};
ghost use Rattle.dr_word_audit_at.specs.Firsts.{says_came, says_goes};
ghost use Rattle.dr_word_audit_at.specs.declared.cutting.MissingLine.TheVariants as wants;

use crate::cutting::{MissingLine, behind, count_at, move_cut};
use dr_base::Text;
use dr_ledger::Instance;
use dr_ledger_history::JournalLine;
use dr_word_audit::counting::is_taken;
use dr_world_audit::audit::NodeJournal;
use std::alloc::{AllocError, Global};
use std::collections::BTreeMap;

/// Where the first line of a node stands by which an instance came from a node, and by which one
/// came that goes on to a node: how many lines there are up to it, by the UID and the node's name.
#[derive(Drop)]
struct FirstLines {
    pub came: BTreeMap<(Text, Text), usize>,
    pub goes: BTreeMap<(Text, Text), usize>,
}

/// Notes a place, where none is noted yet.
fn note_place(
    places: &mut BTreeMap<(Text, Text), usize>,
    uid: &Text,
    name: &Text,
    place: usize,
) -> Result<(), AllocError>
    ensures { OnOk result
        ((q : Pair)
        → tree.get pair_cmp places.new q
        ≡ or_first (tree.get pair_cmp places.old q) (is_at (pair_cmp (uid.now, name.now)) q)
        place) }
{
    let key = (uid.clone()?, name.clone()?);
    if places.contains_key(&key) {
        return Ok(());
    }
    places.insert(key, place)?;
    Ok(())
}

/// Notes where an arrival goes on to.
fn note_goals(
    goes: &mut BTreeMap<(Text, Text), usize>,
    uid: &Text,
    to: &[Text],
    place: usize,
) -> Result<(), AllocError>
    ensures { OnOk result ((q : Pair) → tree.get pair_cmp goes.new q
        ≡ or_first (tree.get pair_cmp goes.old q) (is_goal uid.now to.now q) place) }
{
    for dest in to {
        note_place(goes, uid, dest, place)?;
    }
    Ok(())
}

/// Notes what a line says.
fn note_line(first: &mut FirstLines, line: &JournalLine, place: usize) -> Result<(), AllocError>
    ensures came { OnOk result ((q : Pair) → tree.get pair_cmp first.new.came q
        ≡ or_first (tree.get pair_cmp first.old.came q) (says_came q line.now) place) }
    ensures goes { OnOk result ((q : Pair) → tree.get pair_cmp first.new.goes q
        ≡ or_first (tree.get pair_cmp first.old.goes q) (says_goes q line.now) place) }
{
    match line {
        JournalLine::Arrival {
            caller,
            instance,
            to,
            keep: _,
        } => {
            note_place(&mut first.came, &instance.uid, caller, place)?;
            note_goals(&mut first.goes, &instance.uid, to.as_slice(), place)
        }
        JournalLine::Repeat { caller, instance } => {
            note_place(&mut first.came, &instance.uid, caller, place)
        }
        JournalLine::Settling { .. } => Ok(()),
        JournalLine::Requeuing { .. } => Ok(()),
        JournalLine::Dropping { .. } => Ok(()),
        JournalLine::Forgetting { .. } => Ok(()),
        JournalLine::Adoption => Ok(()),
    }
}

/// Where the first lines of a journal stand.
fn first_lines(alloc: Global, lines: &[JournalLine]) -> Result<FirstLines, AllocError>
    ensures { IfOk result (AreFirst lines.now (length lines.now)) }
{
    let mut first = FirstLines {
        came: BTreeMap::new(alloc),
        goes: BTreeMap::new(alloc),
    };
    for (i, line) in lines.iter().enumerate() {
        note_line(&mut first, line, i + 1)?;
    }
    Ok(first)
}

/// The same of all journals.
fn all_first_lines(alloc: Global, read: &[NodeJournal]) -> Result<Vec<FirstLines>, AllocError>
    ensures { IfOk result (λ all. AreAllFirst all.items read.now) }
{
    let mut all = Vec::new(alloc);
    for node in read {
        all.push(first_lines(alloc, node.lines.as_slice())?)?;
    }
    Ok(all)
}

/// Where the first line stands that says it.
fn first_said(first: &FirstLines, missing: &MissingLine) -> Result<Option<usize>, AllocError>
    ensures { (lines : List Told) → AreFirst lines (length lines) first.now
        → IfOk result (λ found. MatchOption found (MendsNowhere missing.now lines)
        (λ n. MendsNowhere missing.now (take (n - 1) lines))) }
{
    match missing {
        MissingLine::CameFrom { uid, from } => place_at(&first.came, uid, from),
        MissingLine::GoesOn { uid, to } => place_at(&first.goes, uid, to),
    }
}

/// The place of that UID and name.
fn place_at(
    places: &BTreeMap<(Text, Text), usize>,
    uid: &Text,
    name: &Text,
) -> Result<Option<usize>, AllocError>
    ensures { IfOk result (λ found.
        found ≡ tree.get pair_cmp places.now (uid.now, name.now)) }
{
    let key = (uid.clone()?, name.clone()?);
    Ok(places.get(&key).copied())
}

/// Whether the first line of a journal that says it stands behind the cut.
fn said_behind(first: &FirstLines, missing: &MissingLine, cut: usize) -> Result<bool, AllocError>
    ensures { (lines : List Told) → AreFirst lines (length lines) first.now
        → IfOk result (λ yes. IsTrue yes → MendsNowhere missing.now (take cut lines)) }
{
    match first_said(first, missing)? {
        Some(said) => Ok(cut < said),
        None => Ok(false),
    }
}

/// Whether no line before the cut of the node of that name says it, and one behind it does.
fn is_behind(
    read: &[NodeJournal],
    all: &[FirstLines],
    missing: &MissingLine,
    name: &Text,
    counts: &[usize],
) -> Result<bool, AllocError>
    requires same { length counts.now ≡ length read.now }
    requires first { AreAllFirst all.now read.now }
    ensures { IfOk result (λ yes. IsTrue yes
        → MendsNowhere missing.now (lines_named name.now (cuts counts.now read.now))) }
{
    for place in 0..read.len() {
        let node = &read[place];
        if node.name == *name {
            return said_behind(&all[place], missing, counts[place]);
        }
    }
    Ok(false)
}

/// That there is a reason at the caller for what came to the node of that name.
fn reason_of(
    name: &Text,
    caller: &Text,
    instance: &Instance,
) -> Result<(MissingLine, Text), AllocError>
    ensures { IfOk result (λ both.
        (both.0 ≡ wants.GoesOn instance.now.uid name.now) × (both.1 ≡ caller.now)) }
{
    let (uid, to, at) = (instance.uid.clone()?, name.clone()?, caller.clone()?);
    Ok((MissingLine::GoesOn { uid, to }, at))
}

/// That what the node of that name notes as taken came there.
fn arrival_of(name: &Text, uid: &Text, dest: &Text) -> Result<(MissingLine, Text), AllocError>
    ensures { IfOk result (λ both.
        (both.0 ≡ wants.CameFrom uid.now name.now) × (both.1 ≡ dest.now)) }
{
    let (uid, from, at) = (uid.clone()?, name.clone()?, dest.clone()?);
    Ok((MissingLine::CameFrom { uid, from }, at))
}

/// What a line of the node of that name rests on, and at which node it would stand; None where it
/// rests on no line of another node.
fn rest_of(name: &Text, line: &JournalLine) -> Result<Option<(MissingLine, Text)>, AllocError>
    ensures { IfOk result (λ found.
        IfSome found (λ both. RestsOn name.now line.now both.0 both.1)) }
{
    match line {
        JournalLine::Settling {
            uid,
            dest,
            outcome,
            now: _,
        } => {
            if !is_taken(*outcome) {
                return Ok(None);
            }
            Ok(Some(arrival_of(name, uid, dest)?))
        }
        JournalLine::Arrival {
            caller,
            instance,
            to: _,
            keep: _,
        } => Ok(Some(reason_of(name, caller, instance)?)),
        JournalLine::Repeat { caller, instance } => Ok(Some(reason_of(name, caller, instance)?)),
        JournalLine::Requeuing { .. } => Ok(None),
        JournalLine::Dropping { .. } => Ok(None),
        JournalLine::Forgetting { .. } => Ok(None),
        JournalLine::Adoption => Ok(None),
    }
}

/// Moves the cut of the node of that name behind the next line that says it, if no line before the
/// cut does.
fn move_if(
    read: &[NodeJournal],
    all: &[FirstLines],
    missing: &MissingLine,
    at: &Text,
    counts: &mut Vec<usize>,
) -> Result<(), AllocError>
    requires same { length counts.old.items ≡ length read.now }
    requires first { AreAllFirst all.now read.now }
    ensures { OnOk result ((plan : Network) (name : Words) (line : Told)
        → HasLine (cuts counts.old.items read.now) name line
        → RestsOn name line missing.now at.now
        → AreReached plan read.now counts.old.items counts.new.items) }
{
    let is_lacking = is_behind(read, all, missing, at, counts.as_slice())?;
    if !is_lacking {
        return Ok(());
    }
    move_cut(missing, at, counts, read);
    Ok(())
}

/// Puts a cut behind what the line of the node of that name rests on, if that stands behind it.
fn move_for(
    read: &[NodeJournal],
    all: &[FirstLines],
    name: &Text,
    line: &JournalLine,
    counts: &mut Vec<usize>,
) -> Result<(), AllocError>
    requires same { length counts.old.items ≡ length read.now }
    requires first { AreAllFirst all.now read.now }
    requires before { HasLine (cuts counts.old.items read.now) name.now line.now }
    ensures { OnOk result ((plan : Network)
        → AreReached plan read.now counts.old.items counts.new.items) }
{
    let Some((missing, at)) = rest_of(name, line)? else {
        return Ok(());
    };
    move_if(read, all, &missing, &at, counts)?;
    Ok(())
}

/// Puts cuts behind what these lines of the node of that name rest on.
fn move_for_all(
    read: &[NodeJournal],
    all: &[FirstLines],
    name: &Text,
    lines: &[JournalLine],
    counts: &mut Vec<usize>,
) -> Result<(), AllocError>
    requires same { length counts.old.items ≡ length read.now }
    requires first { AreAllFirst all.now read.now }
    requires before { (line : Told) → Contains lines.now line
        → HasLine (cuts counts.old.items read.now) name.now line }
    ensures { OnOk result ((plan : Network)
        → AreReached plan read.now counts.old.items counts.new.items) }
{
    for line in lines {
        move_for(read, all, name, line, counts)?;
    }
    Ok(())
}

/// The lines from one cut up to another.
fn between(lines: &[JournalLine], from: usize, to: usize) -> &[JournalLine]
    ensures { result.now ≡ drop from (take to lines.now) }
{
    behind(first(lines, to), from)
}

/// The first lines, so many.
fn first(lines: &[JournalLine], count: usize) -> &[JournalLine]
    ensures { result.now ≡ take count lines.now }
{
    if lines.len() <= count {
        return lines;
    }
    let (some, _rest) = lines.split_at(count);
    some
}

/// Puts cuts behind what the lines rest on that stand between these cuts and those.
fn move_by(
    read: &[NodeJournal],
    all: &[FirstLines],
    from: &[usize],
    to: &[usize],
    counts: &mut Vec<usize>,
) -> Result<(), AllocError>
    requires same { length counts.old.items ≡ length read.now }
    requires first { AreAllFirst all.now read.now }
    requires on { AreNoEarlier to.now counts.old.items }
    ensures { OnOk result ((plan : Network)
        → AreReached plan read.now counts.old.items counts.new.items) }
{
    for place in 0..read.len() {
        let node = &read[place];
        let (begin, end) = (count_at(from, place), count_at(to, place));
        let lines = between(node.lines.as_slice(), begin, end);
        move_for_all(read, all, &node.name, lines, counts)?;
    }
    Ok(())
}

/// So many rounds are made at most.
const ROUNDS: u32 = 1_000;

/// Cuts that begin an audit: these, or further on, behind what the lines before them rest on in the
/// other journals. So an audit finds few that have to be moved.
///
/// Errors: want of memory.
pub(crate) fn first_cuts(
    alloc: Global,
    read: &[NodeJournal],
    first: &[usize],
) -> Result<Vec<usize>, AllocError>
    requires { length first.now ≡ length read.now }
    ensures { IfOk result (λ counts. (plan : Network)
        → AreReached plan read.now first.now counts.items) }
{
    let all = all_first_lines(alloc, read)?;
    let mut from = Vec::new(alloc);
    let mut counts = Vec::from_slice(alloc, first)?;
    for _round in 0..ROUNDS {
        let to = Vec::from_slice(alloc, counts.as_slice())?;
        let lines = all.as_slice();
        move_by(read, lines, from.as_slice(), to.as_slice(), &mut counts)?;
        if counts.as_slice() == to.as_slice() {
            return Ok(counts);
        }
        from = to;
    }
    Ok(counts)
}
