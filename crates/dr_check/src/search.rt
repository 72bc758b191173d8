//! The depth-first search over the walks of a plan's cells, with a mark for each stop that was
//! entered.
ghost use Rattle.std.specs.Prelude.{◌≡◌, ◌≢◌, ◌↔◌, ◌⊎◌, ◌++◌, ◌∷◌, [], IsTrue, IfOk, OnOk};
ghost use Rattle.std.specs.Prelude.{Contains, false};
ghost use Rattle.dr_base.specs.Texts.{Text as Words};
ghost use Rattle.dr_route.specs.Routes.{local};
ghost use Rattle.dr_route.specs.Laws.{key_of};
ghost use Rattle.dr_plan_model.specs.Plans.{IsWellFormed, LiesIn};
ghost use Rattle.dr_plan_model.specs.Walks.{Accepts};
ghost use Rattle.dr_plan_model.specs.Laws.{IsCellOf};
ghost use Rattle.dr_check.specs.Searching.{IsSearching, IsTrail, FindsStop, AfterReach, stop_at};
ghost use Rattle.dr_check.specs.Searching.{mark_at};
ghost use Rattle.dr_check.specs.Stacks.{IsTop, Enters, LeavesStop, FindsNextTarget, Steps};
ghost use Rattle.dr_check.specs.declared.search.Frame.{Frame as FrameValue};

use dr_base::{Seq, Text};
use dr_plan_model::{Plan, sending};
use dr_plan_sound::{Line, Stop};
use dr_route::{Key, OwnedCell, Targets, is_local};
use std::alloc::{AllocError, Global};
use std::collections::BTreeMap;
use std::mem;

/// How many lines a certificate may have.
pub const MOST_LINES: usize = 65536;

/// What is known of a stop that was entered.
#[derive(Clone, Copy, Debug, Drop)]
pub enum Mark {
    /// It stands on the walk that is searched.
    Open,
    /// All walks from it have been searched, and this is its rank.
    Finished(u32),
}

/// The state of the search: the nodes of the walk that it is on, the marks, and the lines of the
/// stops that it has finished.
#[derive(Drop)]
pub struct Search {
    pub alloc: Global,
    pub path: Vec<Text>,
    pub marks: BTreeMap<Stop, Mark>,
    pub lines: Vec<Line>,
}

/// Why the search ends at the end of the walk that it is on.
#[derive(Clone, Copy, Debug, Drop)]
pub enum WalkEnd {
    NoContext,
    Cycle,
    DeadEnd,
    TooLarge,
}

/// What is found on looking at the next stop of a walk.
#[derive(Drop)]
enum SeenStop {
    /// It was finished before, with this rank.
    Finished(u32),
    /// The search ends there.
    End(WalkEnd),
    /// It is to be entered for the first time, and sends on to these nodes.
    New { stop: Stop, targets: Seq<Text> },
}

/// What is found on looking at the next targets of a stop, one after another.
#[derive(Drop)]
enum NextTarget {
    /// All of them have been searched.
    Nothing,
    /// The search ends at this one.
    End {
        node: Text,
        end: WalkEnd,
    },
    /// This one is to be entered for the first time, and sends on to these nodes.
    New {
        node: Text,
        stop: Stop,
        targets: Seq<Text>,
    },
}

/// What a search comes to: the rank of the stop that it began at, or its end at some stop.
#[derive(Clone, Copy, Drop)]
pub enum WalkFound {
    Rank(u32),
    End(WalkEnd),
}

/// A stop that the search stands on: the nodes that it sends to, how many of them have been
/// searched, and the rank that these call for.
#[derive(Drop)]
pub struct Frame {
    caller: Text,
    node: Text,
    targets: Seq<Text>,
    searched: usize,
    rank: u32,
}

/// Whether the caller's association would have a presentation context for the cell at the node;
/// nobody asks where instances enter at the node itself.
fn is_accepted(plan: &Plan, caller: &Text, node: &Text, cell: &OwnedCell) -> bool
    ensures { IsTrue result
        ↔ ((caller.now ≡ local)
        ⊎ Accepts plan.now node.now caller.now cell.now.class cell.now.syntax) }
{
    is_local(caller) || sending::accepts(plan, node, caller, &cell.class, cell.syntax)
}

/// The stop, with texts of its own.
fn stop_of(caller: &Text, node: &Text, cell: &OwnedCell) -> Result<Stop, AllocError>
    ensures { IfOk result (λ s. s ≡ stop_at caller.now node.now cell.now) }
{
    Ok(Stop {
        caller: caller.clone()?,
        node: node.clone()?,
        cell: cell.clone()?,
    })
}

/// What is known of the stop.
fn mark_of(search: &Search, stop: &Stop) -> Option<Mark>
    ensures { result ≡ mark_at search.now.marks stop.now }
{
    search.marks.get(stop).copied()
}

/// Whether the node does nothing: it sends to nobody and doesn't keep.
fn is_dead_end(targets: &Targets) -> bool
    ensures dead { IsTrue result → (targets.now.to ≡ []) × (targets.now.keep ≡ false) }
    ensures alive { result ≡ false
        → IsTrue targets.now.keep ⊎ ((name : Words) × Contains targets.now.to name) }
{
    targets.to.is_empty() && !targets.keep
}

/// Looks at the node as the next of the walk, and tests there, in this order: the hop is accepted,
/// the stop doesn't stand on the walk already, and the node keeps the instance or sends it on. A
/// stop that was finished isn't entered again.
fn look(
    search: &Search,
    plan: &Plan,
    cell: &OwnedCell,
    key: &Key,
    caller: &Text,
    node: &Text,
) -> Result<SeenStop, AllocError>
    requires formed { IsWellFormed plan.now }
    requires cell { IsCellOf plan.now cell.now }
    requires key { key.now ≡ key_of cell.now }
    requires searching { IsSearching plan.now cell.now search.now }
    requires trail { IsTrail plan.now key.now (search.now.path.items ++ node.now ∷ []) caller.now
        node.now }
    ensures { IfOk result (FindsStop plan.now cell.now caller.now node.now search.now) }
{
    if !is_accepted(plan, caller, node, cell) {
        return Ok(SeenStop::End(WalkEnd::NoContext));
    }
    let stop = stop_of(caller, node, cell)?;
    match mark_of(search, &stop) {
        Some(Mark::Open) => return Ok(SeenStop::End(WalkEnd::Cycle)),
        Some(Mark::Finished(rank)) => return Ok(SeenStop::Finished(rank)),
        None => {}
    }
    let targets = sending::sends(search.alloc, plan, node, caller, key)?;
    if is_dead_end(&targets) {
        return Ok(SeenStop::End(WalkEnd::DeadEnd));
    }
    if search.marks.len() == MOST_LINES {
        return Ok(SeenStop::End(WalkEnd::TooLarge));
    }
    Ok(SeenStop::New {
        stop,
        targets: targets.to,
    })
}

/// Has the search stand on the stop at the node from here on.
fn stand_on(search: &mut Search, node: &Text, stop: Stop) -> Result<(), AllocError>
    ensures { OnOk result (Enters search.old search.new node.now stop) }
{
    search.marks.insert(stop, Mark::Open)?;
    search.path.push(node.clone()?)?;
    Ok(())
}

/// Enters the stop: the search stands on it from here on.
fn enter(
    search: &mut Search,
    caller: Text,
    node: Text,
    stop: Stop,
    targets: Seq<Text>,
) -> Result<Frame, AllocError>
    ensures frame { IfOk result (λ frame. frame
        ≡ record { caller = caller; node = node; targets = targets; searched = 0; rank = 0 }) }
    ensures search { OnOk result (Enters search.old search.new node stop) }
{
    let frame = Frame {
        caller,
        node,
        targets,
        searched: 0,
        rank: 0,
    };
    match stand_on(search, &frame.node, stop) {
        Ok(()) => Ok(frame),
        Err(AllocError) => {
            drop(frame);
            Err(AllocError)
        }
    }
}

/// Texts of their own.
fn names_of(caller: &Text, node: &Text) -> Result<(Text, Text), AllocError>
    ensures { IfOk result (λ names. (names.0 ≡ caller.now) × (names.1 ≡ node.now)) }
{
    let caller = caller.clone()?;
    Ok((caller, node.clone()?))
}

/// Enters the stop at which a search begins.
fn begin(
    search: &mut Search,
    caller: &Text,
    node: &Text,
    stop: Stop,
    targets: Seq<Text>,
) -> Result<Frame, AllocError>
    ensures frame { IfOk result (λ frame. frame
        ≡ record {
          caller = caller.now;
          node = node.now;
          targets = targets;
          searched = 0;
          rank = 0;
        }) }
    ensures search { OnOk result (Enters search.old search.new node.now stop) }
{
    match names_of(caller, node) {
        Ok((caller, node)) => enter(search, caller, node, stop, targets),
        Err(AllocError) => {
            drop(targets);
            drop(stop);
            Err(AllocError)
        }
    }
}

/// Finishes the stop that the search stands on, whose targets have all been searched: it has its
/// line from here on.
fn leave(search: &mut Search, cell: &OwnedCell, frame: &Frame) -> Result<(), AllocError>
    ensures { OnOk result
        (LeavesStop search.old search.new (stop_at frame.now.caller frame.now.node cell.now)
        frame.now.rank) }
{
    search.marks.insert(
        stop_of(&frame.caller, &frame.node, cell)?,
        Mark::Finished(frame.rank),
    )?;
    search.lines.push(Line {
        stop: stop_of(&frame.caller, &frame.node, cell)?,
        rank: frame.rank,
    })?;
    search.path.pop();
    Ok(())
}

/// Looks at the targets of the stop that the search stands on, from the first that hasn't been
/// searched on: those that were finished before count for its rank.
fn go_on(
    search: &Search,
    plan: &Plan,
    cell: &OwnedCell,
    key: &Key,
    frame: &mut Frame,
) -> Result<NextTarget, AllocError>
    requires formed { IsWellFormed plan.now }
    requires cell { IsCellOf plan.now cell.now }
    requires key { key.now ≡ key_of cell.now }
    requires top { IsTop plan.now cell.now frame.old search.now }
    ensures { IfOk result (FindsNextTarget plan.now cell.now search.now frame.old frame.new) }
{
    while frame.searched < frame.targets.len() {
        let node = &frame.targets.as_slice()[frame.searched];
        match look(search, plan, cell, key, &frame.node, node)? {
            SeenStop::Finished(rank) => {
                frame.rank = frame.rank.max(rank + 1);
                frame.searched += 1;
            }
            SeenStop::End(end) => {
                let node = node.clone()?;
                return Ok(NextTarget::End { node, end });
            }
            SeenStop::New { stop, targets } => {
                let node = node.clone()?;
                return Ok(NextTarget::New {
                    node,
                    stop,
                    targets,
                });
            }
        }
    }
    Ok(NextTarget::Nothing)
}

/// One step of the search: it enters a stop behind the one that it stands on, or finishes that one.
/// It is over where it finishes the stop that it began at, or ends on the way.
fn step(
    search: &mut Search,
    plan: &Plan,
    cell: &OwnedCell,
    key: &Key,
    top: &mut Frame,
    below: &mut Vec<Frame>,
) -> Result<Option<WalkFound>, AllocError>
    requires formed { IsWellFormed plan.now }
    requires cell { IsCellOf plan.now cell.now }
    requires key { key.now ≡ key_of cell.now }
    requires top { IsTop plan.now cell.now top.old search.old }
    ensures { IfOk result
        (Steps plan.now cell.now search.old top.old below.old.items search.new top.new
        below.new.items) }
{
    match go_on(search, plan, cell, key, top)? {
        NextTarget::End { node, end } => {
            search.path.push(node)?;
            Ok(Some(WalkFound::End(end)))
        }
        NextTarget::New {
            node,
            stop,
            targets,
        } => {
            let caller = top.node.clone()?;
            let next = enter(search, caller, node, stop, targets)?;
            below.push(mem::replace(top, next))?;
            Ok(None)
        }
        NextTarget::Nothing => {
            leave(search, cell, top)?;
            let rank = top.rank;
            match below.pop() {
                Some(frame) => {
                    *top = frame;
                    Ok(None)
                }
                None => Ok(Some(WalkFound::Rank(rank))),
            }
        }
    }
}

/// Searches all walks that begin at the node, for the keys of the cell, each stop once, in byte
/// order of their nodes' names. It takes no stack: what it stands on is in a list of its own.
pub fn reach(
    search: &mut Search,
    plan: &Plan,
    cell: &OwnedCell,
    key: &Key,
    caller: &Text,
    node: &Text,
) -> Result<WalkFound, AllocError>
    requires formed { IsWellFormed plan.now }
    requires cell { IsCellOf plan.now cell.now }
    requires key { key.now ≡ key_of cell.now }
    requires searching { IsSearching plan.now cell.now search.old }
    requires alone { search.old.path.items ≡ [] }
    requires trail { IsTrail plan.now key.now (search.old.path.items ++ node.now ∷ []) caller.now
        node.now }
    ensures { IfOk result (AfterReach plan.now cell.now caller.now node.now search.old search.new) }
{
    let mut top = match look(search, plan, cell, key, caller, node)? {
        SeenStop::Finished(rank) => return Ok(WalkFound::Rank(rank)),
        SeenStop::End(end) => {
            search.path.push(node.clone()?)?;
            return Ok(WalkFound::End(end));
        }
        SeenStop::New { stop, targets } => begin(search, caller, node, stop, targets)?,
    };
    let mut below = Vec::new(search.alloc);
    'search: loop {
        if let Some(found) = step(search, plan, cell, key, &mut top, &mut below)? {
            return Ok(found);
        }
    }
}
