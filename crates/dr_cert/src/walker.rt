//! The walk over the lines of a certificate, from the entries of its plan on.
ghost use Rattle.std.specs.Prelude.{◌≡◌, ◌<◌, ◌↔◌, ℕ, IsTrue, false, All, IfOk, Contains, Some};
ghost use Rattle.std.specs.Prelude.{slice_get, length};
ghost use Rattle.dr_base.specs.Texts.{Text as Words};
ghost use Rattle.dr_plan_sound.specs.declared.certificate.Line.{Line as LineValue};
ghost use Rattle.dr_route.specs.Routes.{local};
ghost use Rattle.dr_plan_model.specs.Plans.{IsWellFormed};
ghost use Rattle.dr_cert.specs.Indexing.{AreSorted};

use crate::index::find;
use crate::place::StopPlace;
use crate::survey::{Survey, does_something, is_let_in};
use dr_base::Text;
use dr_plan_entries::EntryVisitor;
use dr_plan_model::{Plan, sending};
use dr_plan_sound::{Line, Stop};
use dr_route::OwnedCell;
use dr_route::cell::key_in;
use std::alloc::{AllocError, Global};

/// A stop to which a walk comes has no line: the lines among which it was looked for, and how many
/// they are.
#[derive(Clone, Copy, Debug, Drop)]
pub struct Missing<'a> {
    pub lines: &'a [Line],
    pub count: usize,
}

/// The places of the lines that were reached, in the order in which they were, and a mark for each.
#[derive(Drop)]
pub struct Walker<'a> {
    pub alloc: Global,
    pub plan: &'a Plan,
    pub lines: &'a [Line],
    pub local: &'a Text,
    pub marks: Vec<bool>,
    pub reached: Vec<usize>,
}

/// The line at the place.
fn line_at(lines: &[Line], place: usize) -> &Line
    requires { place < length lines.now }
    ensures { slice_get lines.now place ≡ Some result.now }
{
    &lines[place]
}

/// So many places without a mark.
fn unmarked(alloc: Global, count: usize) -> Result<Vec<bool>, AllocError>
    ensures long { IfOk result (λ v. length v.items ≡ count) }
    ensures none { IfOk result (λ v. All (λ mark. mark ≡ false) v.items) }
{
    let mut marks = Vec::with_capacity(alloc, count)?;
    for _ in 0..count {
        marks.push(false)?;
    }
    Ok(marks)
}

impl<'a> Walker<'a> {
    ghost use Rattle.dr_cert.specs.Walking.{IsWalking, IsComeTo, AfterMark, AfterTargets};
    ghost use Rattle.dr_cert.specs.Walking.{AfterLook, AfterWalk, next_stop};

    /// A walker that has gone nowhere yet; the local caller is `-`.
    pub fn new(
        alloc: Global,
        plan: &'a Plan,
        lines: &'a [Line],
        local_caller: &'a Text,
    ) -> Result<Walker<'a>, AllocError>
        requires sorted { AreSorted lines.now }
        requires local { local_caller.now ≡ local }
        ensures plan { IfOk result (λ w. w.plan.now ≡ plan.now) }
        ensures lines { IfOk result (λ w. w.lines.now ≡ lines.now) }
        ensures walking { IfOk result (λ w. IsWalking w) }
    {
        let reached = Vec::with_capacity(alloc, plan.nodes().len())?;
        let marks = unmarked(alloc, lines.len())?;
        Ok(Walker {
            alloc,
            plan,
            lines,
            local: local_caller,
            marks,
            reached,
        })
    }

    /// Whether all lines have been reached.
    pub fn has_all(&self) -> bool
        requires { IsWalking self.now }
        ensures { IsTrue result
            ↔ ((place : ℕ)
            → place < length self.now.lines.now
            → Contains self.now.reached.items place) }
    {
        for mark in self.marks.as_slice() {
            if !*mark {
                return false;
            }
        }
        true
    }

    /// Goes to the stop, which is reached from now on, and gives the place of its line.
    pub fn mark(&mut self, stop: &StopPlace<'_>) -> Result<Option<usize>, AllocError>
        requires walking { IsWalking self.old }
        requires come_to { IsComeTo self.old.plan.now stop.now }
        ensures { IfOk result (AfterMark self.old self.new stop.now) }
    {
        let Some(place) = find(self.lines, stop) else {
            return Ok(None);
        };
        if !self.marks[place] {
            self.reached.push(place)?;
            self.marks[place] = true;
        }
        Ok(Some(place))
    }

    /// Goes to the stops at which the instances come to the targets, and gives the rank that they
    /// call for; None where one of them has no line.
    fn mark_targets(&mut self, stop: &Stop, targets: &[Text]) -> Result<Option<u64>, AllocError>
        requires walking { IsWalking self.old }
        requires come_to { (to : Words) → Contains targets.now to
            → IsComeTo self.old.plan.now (next_stop stop.now to) }
        ensures { IfOk result (AfterTargets self.old self.new stop.now targets.now) }
    {
        let lines = self.lines;
        let mut rank: u64 = 0;
        for to in targets {
            let Some(place) = self.mark(&StopPlace::of_cell(&stop.node, to, &stop.cell))? else {
                return Ok(None);
            };
            rank = rank.max(lines[place].rank as u64 + 1);
        }
        Ok(Some(rank))
    }

    /// Goes on from the line, and says what is right about it; None where a stop that comes next
    /// has no line.
    fn look(&mut self, line: &Line) -> Result<Option<Survey>, AllocError>
        requires walking { IsWalking self.old }
        requires come_to { IsComeTo self.old.plan.now line.now.stop }
        ensures { IfOk result (AfterLook self.old self.new line.now) }
    {
        let stop = &line.stop;
        let key = key_in(self.alloc, &stop.cell)?;
        let targets = sending::sends(self.alloc, self.plan, &stop.node, &stop.caller, &key)?;
        let Some(rank) = self.mark_targets(stop, targets.to.as_slice())? else {
            return Ok(None);
        };
        Ok(Some(Survey {
            accepted: is_let_in(self.plan, line),
            goes_on: does_something(&targets),
            ranked: rank == line.rank as u64,
        }))
    }

    /// Goes on from all that was reached, and says what is right about it; None where a stop to
    /// which a walk comes has no line.
    pub fn walk(&mut self) -> Result<Option<Survey>, AllocError>
        requires { IsWalking self.old }
        ensures { IfOk result (AfterWalk self.old self.new) }
    {
        let mut survey = Survey::new();
        let mut next = 0;
        while next < self.reached.len() {
            let line = line_at(self.lines, self.reached[next]);
            let Some(seen) = self.look(line)? else {
                return Ok(None);
            };
            survey = survey.and(seen);
            next += 1;
        }
        Ok(Some(survey))
    }
}

impl<'a> EntryVisitor for Walker<'a> {
    type Finding = Missing<'a>;

    ghost use Rattle.dr_cert.specs.Walking.{IsWalking, HasVisited, ShowsMissing};

    ghost plan = { λ w. w.plan.now };

    ghost is_ready = { IsWalking };

    ghost has_visited = { HasVisited };

    ghost shows = { ShowsMissing };

    fn visit(&mut self, site: &Text, cell: &OwnedCell) -> Result<Option<Missing<'a>>, AllocError> {
        let lines = self.lines;
        let stop = StopPlace::of_cell(self.local, site, cell);
        match self.mark(&stop)? {
            Some(_) => Ok(None),
            None => Ok(Some(Missing {
                lines,
                count: lines.len(),
            })),
        }
    }
}
