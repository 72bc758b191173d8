//! The checker at each entry of a plan: it searches all walks from there.
ghost use Rattle.std.specs.Prelude.{◌≡◌, ◌∷◌, List, IfOk};
ghost use Rattle.dr_base.specs.Texts.{Text as Words};
ghost use Rattle.dr_route.specs.Routes.{local};
ghost use Rattle.dr_plan_model.specs.Networks.{Network};
ghost use Rattle.dr_check.specs.Checking.{CheckerIsReady};
ghost use Rattle.dr_check.specs.Searching.{IsFirstEnd};
ghost use Rattle.dr_check.specs.Stopping.{IsStoppedAt};

use crate::fault::Fault;
use crate::search::{Search, WalkEnd, WalkFound, reach};
use dr_base::{Seq, Text};
use dr_plan_entries::EntryVisitor;
use dr_plan_model::Plan;
use dr_plan_sound::Line;
use dr_route::OwnedCell;
use dr_route::cell::key_in;
use dr_route::copies::copy_cell;
use std::alloc::{AllocError, Global};
use std::collections::BTreeMap;
use std::mem;

/// Why the checker stopped.
#[derive(Debug, Drop)]
pub enum Stopped {
    Fault(Fault),
    TooLarge,
}

/// A checker of a plan, between two entries.
#[derive(Drop)]
pub struct Checker<'a> {
    plan: &'a Plan,
    local: Text,
    search: Search,
}

impl<'a> Checker<'a> {
    /// A checker that has visited nothing.
    pub fn new(alloc: Global, plan: &'a Plan) -> Result<Checker<'a>, AllocError>
        ensures plan { IfOk result (λ c. c.plan.now ≡ plan.now) }
        ensures ready { IfOk result (λ c. CheckerIsReady c) }
    {
        let path = Vec::with_capacity(alloc, plan.nodes().len())?;
        let local = Text::copy_of(alloc, b"-")?;
        let search = Search {
            alloc,
            path,
            marks: BTreeMap::new(alloc),
            lines: Vec::new(alloc),
        };
        Ok(Checker {
            plan,
            local,
            search,
        })
    }

    /// The lines of the stops that it has searched.
    pub fn into_lines(self) -> Vec<Line>
        ensures { result ≡ self.entry.search.lines }
    {
        let Checker { search, .. } = self;
        let Search { lines, .. } = search;
        lines
    }
}

/// Why the checker stops where the search ended, at the end of this walk of the cell's keys.
fn stopped_by(end: WalkEnd, walk: Vec<Text>, cell: OwnedCell) -> Stopped
    ensures { (plan : Network) (site : Words) (over : List Words)
        → walk.items ≡ site ∷ over
        → IsFirstEnd plan cell walk.items end
        → IsStoppedAt plan result site cell }
{
    let walk = Seq::from_vec(walk);
    match end {
        WalkEnd::NoContext => Stopped::Fault(Fault::NoContext { walk, cell }),
        WalkEnd::Cycle => Stopped::Fault(Fault::Cycle { walk, cell }),
        WalkEnd::DeadEnd => Stopped::Fault(Fault::DeadEnd { walk, cell }),
        WalkEnd::TooLarge => Stopped::TooLarge,
    }
}

impl<'a> EntryVisitor for Checker<'a> {
    type Finding = Stopped;

    ghost use Rattle.dr_check.specs.Checking.{CheckerIsReady, HasVisited, ShowsStopped};

    ghost plan = { λ c. c.plan.now };

    ghost is_ready = { CheckerIsReady };

    ghost has_visited = { HasVisited };

    ghost shows = { ShowsStopped };

    fn visit(&mut self, site: &Text, cell: &OwnedCell) -> Result<Option<Stopped>, AllocError> {
        let alloc = self.search.alloc;
        let key = key_in(alloc, cell)?;
        let plan = self.plan;
        match reach(&mut self.search, plan, cell, &key, &self.local, site)? {
            WalkFound::Rank(_) => Ok(None),
            WalkFound::End(end) => {
                let walk = mem::replace(&mut self.search.path, Vec::new(alloc));
                Ok(Some(stopped_by(end, walk, copy_cell(cell)?)))
            }
        }
    }
}
