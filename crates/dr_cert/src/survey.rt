//! What is right about lines.
ghost use Rattle.std.specs.Prelude.{◌≡◌, ◌↔◌, ◌⊎◌, ◌&&◌, IsTrue, Contains, true};
ghost use Rattle.dr_base.specs.Texts.{Text as Words};
ghost use Rattle.dr_cert.specs.Surveying.{IsLetIn};

use dr_plan_model::{Plan, sending};
use dr_plan_sound::Line;
use dr_route::{Targets, is_local};

/// What was found of lines of a certificate: whether each of their stops is let in, whether each
/// goes on, and whether each rank is right among the others.
#[derive(Clone, Copy, Debug, Drop)]
pub struct Survey {
    pub accepted: bool,
    pub goes_on: bool,
    pub ranked: bool,
}

impl Survey {
    /// The survey of no lines.
    pub fn new() -> Survey
        ensures { result ≡ record { accepted = true; goes_on = true; ranked = true } }
    {
        Survey {
            accepted: true,
            goes_on: true,
            ranked: true,
        }
    }

    /// The survey of both.
    pub fn and(self, other: Survey) -> Survey
        ensures { result
            ≡ record {
              accepted = self.accepted && other.accepted;
              goes_on = self.goes_on && other.goes_on;
              ranked = self.ranked && other.ranked;
            } }
    {
        Survey {
            accepted: self.accepted && other.accepted,
            goes_on: self.goes_on && other.goes_on,
            ranked: self.ranked && other.ranked,
        }
    }
}

/// Whether the line's caller would have a presentation context for the cell at the node; nobody
/// asks where instances enter at the node itself.
pub fn is_let_in(plan: &Plan, line: &Line) -> bool
    ensures { IsTrue result ↔ IsLetIn plan.now line.now }
{
    is_local(&line.stop.caller)
        || sending::accepts(
            plan,
            &line.stop.node,
            &line.stop.caller,
            &line.stop.cell.class,
            line.stop.cell.syntax,
        )
}

/// Whether the node does something: it keeps, or sends to somebody.
pub fn does_something(targets: &Targets) -> bool
    ensures { IsTrue result
        ↔ (IsTrue targets.now.keep ⊎ ((name : Words) × Contains targets.now.to name)) }
{
    targets.keep || !targets.to.is_empty()
}
