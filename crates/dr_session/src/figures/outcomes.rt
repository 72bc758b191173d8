//! How an association ended, and what a delivery wants at its last rows.
ghost use Rattle.dr_pdu.specs.declared.pdu.AssociateRj.{AssociateRj};
ghost use Rattle.dr_session.specs.declared.ends.Core.{Core};
ghost use Rattle.dr_session.specs.declared.ends.Pending.{Pending};
ghost use Rattle.std.specs.Prelude.{Result};
ghost use Rattle.dr_session.specs.declared.ends.Ended.{Ended};
ghost use Rattle.dr_session.specs.declared.sessions.SessionFault.{SessionFault};
ghost use Rattle.dr_session.specs.Outcomes.{EndsInOrder, Deliveries, Finishings, Askings};

/// Of several marks the first counts: a store that failed, a rejection, an abort, a release.
pub fn ends_in_order()
    ensures { (c : Core) (rj : AssociateRj) → EndsInOrder c rj }
{}

/// A delivery pushes 65,535 rows at most, and asks for the release behind the last one.
pub fn deliveries()
    ensures { (c : Core) (p : Pending) → Deliveries c p }
{}

/// A session answers how its end is over, and one without memory is over for want of it.
pub fn finishings()
    ensures { (ended : Ended) (result : Result Ended SessionFault) → Finishings ended result }
{}

/// An echo asks once, and then for the release; an acceptor asks for nothing.
pub fn askings()
    ensures { (c : Core) (p : Pending) → Askings c p }
{}
