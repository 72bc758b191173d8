//! Stops by reference, which take no memory.
ghost use Rattle.std.specs.Prelude.{◌≡◌};
ghost use Rattle.dr_plan_sound.specs.Stops.{stop_cmp};

use dr_base::Text;
use dr_plan_sound::Stop;
use dr_route::{Cell, OwnedCell};
use std::cmp::Ordering;
use std::marker::Model;

/// A stop whose texts stand elsewhere; contracts see the stop itself.
#[derive(Drop)]
pub struct StopPlace<'a> {
    caller: &'a Text,
    node: &'a Text,
    cell: Cell<'a>,
}

impl<'a> Model for StopPlace<'a> {
    ghost use Rattle.dr_plan_sound.specs.declared.certificate.Stop.{Stop};

    ghost Value = { Stop };

    ghost view = { λ p. record { caller = p.caller.now; node = p.node.now; cell = p.cell } };
}

impl<'a> StopPlace<'a> {
    /// The stop at the node, for the keys of the cell from the caller.
    pub fn new(caller: &'a Text, node: &'a Text, cell: Cell<'a>) -> StopPlace<'a>
        ensures { result ≡ record { caller = caller.now; node = node.now; cell = cell.entry } }
    {
        StopPlace { caller, node, cell }
    }

    /// The same of a cell that has texts of its own.
    pub(crate) fn of_cell(caller: &'a Text, node: &'a Text, cell: &'a OwnedCell) -> StopPlace<'a>
        ensures { result ≡ record { caller = caller.now; node = node.now; cell = cell.now } }
    {
        StopPlace::new(caller, node, cell.borrowed())
    }

    /// How the stop compares to this one.
    pub(crate) fn compared(&self, stop: &Stop) -> Ordering
        ensures { result ≡ stop_cmp stop.now self.now }
    {
        stop.caller.cmp(self.caller).then(
            stop.node
                .cmp(self.node)
                .then(stop.cell.compared(&self.cell)),
        )
    }
}
