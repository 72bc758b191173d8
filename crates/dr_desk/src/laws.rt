//! Laws of receipts, of what a shared desk refuses, and of adoptions.
ghost use Rattle.std.specs.Prelude.{ℕ};
ghost use Rattle.dr_base.specs.Texts.{Text};
ghost use Rattle.dr_ledger.specs.declared.item.Instance.{Instance};
ghost use Rattle.dr_ledger.specs.declared.item.Outcome.{Outcome};
ghost use Rattle.dr_ledger.specs.Replies.{Arrives, Drops, Forgets, Requeues, Settles};
ghost use Rattle.dr_ledger.specs.SiteRoutes.{site_routing};
ghost use Rattle.dr_desk.specs.AdoptionLaws.{AdoptionsAreNoted, AdoptionsCarryOver};
ghost use Rattle.dr_desk.specs.AdoptionLaws.{AdoptionsHaveNoReceipt, NoNodeComesFirst};
ghost use Rattle.dr_desk.specs.AdoptionLaws.{ReceiptsStay, RefusalsLeaveTheHoldings};
ghost use Rattle.dr_desk.specs.AdoptionLaws.{TakenPlansAreFit, TwoAreCarriedOver, UnfitRowsAreOne};
ghost use Rattle.dr_desk.specs.Answering.{RefusalLeaves};
ghost use Rattle.dr_desk.specs.Laws.{ArrivalsAreRecorded, FewAreHeld, ReceiptFiguresAreRight};
ghost use Rattle.dr_desk.specs.Laws.{DroppingsAreRecorded, ForgettingsAreRecorded};
ghost use Rattle.dr_desk.specs.Laws.{LinesAreOfOneCall, NoMoreAreHeld};
ghost use Rattle.dr_desk.specs.Laws.{ReceiptsAreOne, RequeuingsAreRecorded, SettlingsAreRecorded};

use crate::sharing::Sharing;
use dr_ledger::Ledger;
use dr_ledger::laws::Routed;

/// What is refused leaves the ledger's book.
pub fn refusals_leave_the_book<L: Ledger, B: Sharing>()
    ensures arrive { (caller : Text) (item : Instance)
        → RefusalLeaves L.site L.book L.stands L.failed B.site B.first
        (Arrives (site_routing B.site) caller item) }
    ensures settle { (uid dest : Text) (outcome : Outcome) (now : ℕ)
        → RefusalLeaves L.site L.book L.stands L.failed B.site B.first
        (Settles uid dest outcome now) }
    ensures requeue { (uid dest : Text)
        → RefusalLeaves L.site L.book L.stands L.failed B.site B.first (Requeues uid dest) }
    ensures drop { (uid dest : Text) (now : ℕ)
        → RefusalLeaves L.site L.book L.stands L.failed B.site B.first (Drops uid dest now) }
    ensures forget { (uid : Text)
        → RefusalLeaves L.site L.book L.stands L.failed B.site B.first (Forgets uid) }
{}

/// An accepted call adds just the line that its receipt is of.
pub fn accepted_calls_are_recorded<R: Routed>()
    ensures arrive { ArrivalsAreRecorded R.routing }
    ensures settle { SettlingsAreRecorded }
    ensures requeue { RequeuingsAreRecorded }
    ensures drop { DroppingsAreRecorded }
    ensures forget { ForgettingsAreRecorded }
{}

/// A line is of one call and one reply, and a number has one receipt.
pub fn receipts_are_one()
    ensures lines { LinesAreOfOneCall }
    ensures numbers { ReceiptsAreOne }
{}

/// The last 1,024 receipts are held, and no more.
pub fn the_newest_are_held()
    ensures few { FewAreHeld }
    ensures most { NoMoreAreHeld }
{}

/// Receipts that agree with a journal of two lines, and such that don't.
pub fn figures_are_right()
    ensures { ReceiptFiguresAreRight }
{}

/// An adoption that is refused leaves all that is listed. One that is accepted is noted by one
/// line; it keeps what is kept, and carries over what waits or is held, and nothing else.
pub fn adoptions_carry_over<L: Ledger>()
    ensures refused { RefusalsLeaveTheHoldings L.site L.book L.bodies L.stands L.failed }
    ensures accepted { AdoptionsCarryOver L.site L.book L.bodies L.stands L.failed }
    ensures noted { AdoptionsAreNoted L.site L.book L.bodies L.stands L.failed }
    ensures two { TwoAreCarriedOver }
{}

/// A plan without the ledger's node is refused for that alone. One with an unfit row is never
/// taken, and the row that is named is one.
pub fn plans_are_answered_in_order<L: Ledger>()
    ensures no_node { NoNodeComesFirst L.site L.book L.bodies L.stands L.failed }
    ensures fit { TakenPlansAreFit L.site L.book L.bodies L.stands L.failed }
    ensures unfit { UnfitRowsAreOne L.site L.book L.bodies L.stands L.failed }
{}

/// What receipts say stays true of the journal after an adoption, of whose line there is none.
pub fn receipts_outlast_adoptions()
    ensures stay { ReceiptsStay }
    ensures none { AdoptionsHaveNoReceipt }
{}
