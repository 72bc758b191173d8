//! What the lines of journals say of instances between nodes.
ghost use Rattle.std.specs.Prelude.{◌≡◌, ◌∷◌, ◌↔◌, [], IfOk, IfSome, IsTrue, OnOk, option_copied};
ghost use Rattle.dr_ledger.specs.SiteRoutes.{site_routing};
ghost use Rattle.dr_ledger_history.specs.Contents.{book_of, content};
ghost use Rattle.dr_ledger_history.specs.Lines.{line_of};
ghost use Rattle.dr_world_audit.specs.Hops.{Notes, grows_by};
ghost use Rattle.dr_world_journals.specs.Hops.{came_by, done_by, hop_of as hops_at, if_success};
ghost use Rattle.dr_world_journals.specs.Hops.{to_each, went_by};

use crate::place::HopPlace;
use dr_base::{Seq, Text};
use dr_ledger::{Instance, Outcome, is_success};
use dr_ledger_history::{History, JournalLine};
use dr_route::Key;
use dr_site::Site;
use std::alloc::{AllocError, Global};
use std::collections::BTreeMap;

/// What came to nodes, what is to go on from nodes, and what was answered with success.
#[derive(Drop)]
pub struct Trail<'a> {
    pub came: Vec<HopPlace<'a>>,
    pub sent: Vec<HopPlace<'a>>,
    pub done: Vec<HopPlace<'a>>,
}

/// Whether they are one instance.
fn is_same(instance: &Instance, other: &Instance) -> bool
    ensures { IsTrue result ↔ (instance.now ≡ other.now) }
{
    instance.uid == other.uid
        && instance.key == other.key
        && instance.size == other.size
        && instance.digest == other.digest
}

/// Notes an instance of a line on its way between two nodes that lines name; it copies nothing.
fn push_line<'a>(
    hops: &mut Vec<HopPlace<'a>>,
    from: &'a Text,
    to: &'a Text,
    instance: &'a Instance,
) -> Result<(), AllocError>
    ensures { OnOk result
        (grows_by hops.old.items ((from.now, to.now, instance.now) ∷ []) hops.new.items) }
{
    hops.push(HopPlace::of_line(from, to, instance))?;
    Ok(())
}

/// Notes an instance on its way between two nodes, with a copy of each text.
fn push_copy<'a>(
    alloc: Global,
    hops: &mut Vec<HopPlace<'a>>,
    from: &Text,
    to: &Text,
    instance: &Instance,
) -> Result<(), AllocError>
    ensures { OnOk result
        (grows_by hops.old.items ((from.now, to.now, instance.now) ∷ []) hops.new.items) }
{
    hops.push(HopPlace::of_copy(alloc, from, to, instance)?)?;
    Ok(())
}

/// Notes an instance on its way between two nodes that lines name. It copies nothing where the
/// instance is the same as that of a line.
pub fn push_found<'a>(
    alloc: Global,
    hops: &mut Vec<HopPlace<'a>>,
    from: &'a Text,
    to: &'a Text,
    found: &Instance,
    line: Option<&'a Instance>,
) -> Result<(), AllocError>
    ensures { OnOk result
        (grows_by hops.old.items ((from.now, to.now, found.now) ∷ []) hops.new.items) }
{
    if let Some(instance) = line {
        if is_same(instance, found) {
            return push_line(hops, from, to, instance);
        }
    }
    push_copy(alloc, hops, from, to, found)
}

/// The line of the last first arrival of each UID, where it goes on to a node: no other is settled.
/// Nothing has to be known of it: what is found in it is compared with what is looked for.
pub fn arrivals_of<'a>(
    alloc: Global,
    lines: &'a [JournalLine],
) -> Result<BTreeMap<&'a Text, &'a JournalLine>, AllocError> {
    let mut known = BTreeMap::new(alloc);
    for line in lines {
        if let JournalLine::Arrival { instance, to, .. } = line {
            if !to.as_slice().is_empty() {
                known.insert(&instance.uid, line)?;
            }
        }
    }
    Ok(known)
}

/// The instance of that first arrival.
fn known_instance<'a>(
    known: &BTreeMap<&'a Text, &'a JournalLine>,
    uid: &'a Text,
) -> Option<&'a Instance> {
    let line: &'a JournalLine = known.get(&uid)?;
    match line {
        JournalLine::Arrival { instance, .. } => Some(instance),
        _ => None,
    }
}

/// The nodes to which that first arrival went on.
fn known_targets<'a>(
    known: &BTreeMap<&'a Text, &'a JournalLine>,
    uid: &'a Text,
) -> Option<&'a [Text]> {
    let line: &'a JournalLine = known.get(&uid)?;
    match line {
        JournalLine::Arrival { to, .. } => Some(to.as_slice()),
        _ => None,
    }
}

/// The name among these, if it is there.
fn name_among<'a>(names: Option<&'a [Text]>, name: &Text) -> Option<&'a Text>
    ensures { IfSome result (λ found. found.now ≡ name.now) }
{
    for other in names? {
        if *other == *name {
            return Some(other);
        }
    }
    None
}

/// Notes an instance of a line on its way to each of these nodes that the line names.
fn push_each<'a>(
    hops: &mut Vec<HopPlace<'a>>,
    from: &'a Text,
    instance: &'a Instance,
    to: &'a [Text],
) -> Result<(), AllocError>
    ensures { OnOk result
        (grows_by hops.old.items (to_each from.now instance.now to.now) hops.new.items) }
{
    for next in to {
        push_line(hops, from, next, instance)?;
    }
    Ok(())
}

/// Notes an instance of a line on its way to a node. It copies nothing where the name is among
/// those that lines have.
fn push_named<'a>(
    alloc: Global,
    hops: &mut Vec<HopPlace<'a>>,
    from: &'a Text,
    instance: &'a Instance,
    next: &Text,
    names: Option<&'a [Text]>,
) -> Result<(), AllocError>
    ensures { OnOk result
        (grows_by hops.old.items ((from.now, next.now, instance.now) ∷ []) hops.new.items) }
{
    match name_among(names, next) {
        Some(name) => push_line(hops, from, name, instance),
        None => push_copy(alloc, hops, from, next, instance),
    }
}

/// Notes an instance of a line on its way to each of these nodes, whose names may be among those
/// that lines have.
fn push_each_named<'a>(
    alloc: Global,
    hops: &mut Vec<HopPlace<'a>>,
    from: &'a Text,
    instance: &'a Instance,
    to: &[Text],
    names: Option<&'a [Text]>,
) -> Result<(), AllocError>
    ensures { OnOk result
        (grows_by hops.old.items (to_each from.now instance.now to.now) hops.new.items) }
{
    for next in to {
        push_named(alloc, hops, from, instance, next, names)?;
    }
    Ok(())
}

/// Notes a success, of the instance that the history has now.
fn push_done<'a>(
    alloc: Global,
    hops: &mut Vec<HopPlace<'a>>,
    name: &'a Text,
    dest: &'a Text,
    found: Option<&Instance>,
    line: Option<&'a Instance>,
) -> Result<(), AllocError>
    ensures { OnOk result
        (grows_by hops.old.items (hops_at name.now dest.now (option_copied found.entry))
        hops.new.items) }
{
    if let Some(instance) = found {
        push_found(alloc, hops, name, dest, instance, line)?;
    }
    Ok(())
}

/// Notes an outcome, where it is a success, of the instance that the history has now.
fn push_outcome<'a>(
    alloc: Global,
    hops: &mut Vec<HopPlace<'a>>,
    ends: (&'a Text, &'a Text),
    outcome: Outcome,
    found: Option<&Instance>,
    line: Option<&'a Instance>,
) -> Result<(), AllocError>
    ensures { OnOk result
        (grows_by hops.old.items
        (if_success outcome (hops_at ends.entry.0.now ends.entry.1.now (option_copied found.entry)))
        hops.new.items) }
{
    match outcome {
        Outcome::Status(status) => {
            if is_success(status) {
                push_done(alloc, hops, ends.0, ends.1, found, line)?;
            }
            Ok(())
        }
        Outcome::Broken => Ok(()),
        Outcome::NoContext => Ok(()),
        Outcome::Unreadable => Ok(()),
    }
}

/// Notes an arrival that goes on to these nodes, which its line names.
fn note_arrival<'a>(
    ends: (&'a Text, &'a Text),
    instance: &'a Instance,
    to: &'a [Text],
    trail: &mut Trail<'a>,
) -> Result<(), AllocError>
    ensures { OnOk result
        (Notes trail.old ((ends.entry.0.now, ends.entry.1.now, instance.now) ∷ [])
        (to_each ends.entry.1.now instance.now to.now) [] trail.new) }
{
    push_line(&mut trail.came, ends.0, ends.1, instance)?;
    push_each(&mut trail.sent, ends.1, instance, to)?;
    Ok(())
}

/// Notes an arrival that goes on to these nodes, which its line doesn't name.
fn note_repeat<'a>(
    alloc: Global,
    ends: (&'a Text, &'a Text),
    instance: &'a Instance,
    to: &[Text],
    names: Option<&'a [Text]>,
    trail: &mut Trail<'a>,
) -> Result<(), AllocError>
    ensures { OnOk result
        (Notes trail.old ((ends.entry.0.now, ends.entry.1.now, instance.now) ∷ [])
        (to_each ends.entry.1.now instance.now to.now) [] trail.new) }
{
    push_line(&mut trail.came, ends.0, ends.1, instance)?;
    push_each_named(alloc, &mut trail.sent, ends.1, instance, to, names)?;
    Ok(())
}

/// The nodes to which the site's node sends the key on.
fn targets_of(alloc: Global, site: &Site, caller: &Text, key: &Key) -> Result<Seq<Text>, AllocError>
    ensures { IfOk result (λ to. to ≡ (site_routing site.now).targets caller.now key.now) }
{
    let targets = site.targets(alloc, caller, key)?;
    Ok(targets.to)
}

/// Notes what a line of the node of that name says, by its site and what the history has before
/// the line.
pub fn note<'a>(
    alloc: Global,
    site: &Site,
    name: &'a Text,
    history: &History,
    known: &BTreeMap<&'a Text, &'a JournalLine>,
    line: &'a JournalLine,
    trail: &mut Trail<'a>,
) -> Result<(), AllocError>
    ensures { OnOk result
        (Notes trail.old (came_by name.now (line_of line.now))
        (went_by (site_routing site.now) name.now (line_of line.now))
        (done_by name.now (book_of (content history.now.parts)) (line_of line.now))
        trail.new) }
{
    match line {
        JournalLine::Arrival {
            caller,
            instance,
            to,
            keep: _,
        } => note_arrival((caller, name), instance, to.as_slice(), trail),
        JournalLine::Repeat { caller, instance } => {
            let to = targets_of(alloc, site, caller, &instance.key)?;
            let names = known_targets(known, &instance.uid);
            note_repeat(alloc, (caller, name), instance, to.as_slice(), names, trail)
        }
        JournalLine::Settling {
            uid,
            dest,
            outcome,
            now: _,
        } => {
            let found = history.item(uid);
            let line = known_instance(known, uid);
            push_outcome(alloc, &mut trail.done, (name, dest), *outcome, found, line)
        }
        JournalLine::Requeuing { .. } => Ok(()),
        JournalLine::Dropping { .. } => Ok(()),
        JournalLine::Forgetting { .. } => Ok(()),
        JournalLine::Adoption => Ok(()),
    }
}
