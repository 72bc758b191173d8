//! Laws of orders that are given.
ghost use Rattle.dr_run_control.specs.Laws.{DoneWasDone, ElseNothing};

use dr_desk::Sharing;
use dr_ledger::Ledger;

/// Where the answer says that an order was done, it was, and else none was, but where the form
/// means all rows to a node.
pub fn acts_are_told<L: Ledger, B: Sharing>()
    ensures done { DoneWasDone L.site L.book L.stands L.failed B.site B.first }
    ensures nothing { ElseNothing L.site L.book L.stands L.failed B.site B.first }
{}
