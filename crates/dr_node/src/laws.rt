//! Laws of a node's calls.
ghost use Rattle.dr_node.specs.Laws.{ChangesOneLink, CountsOthersAlone, IsAcceptedWhereFree};
ghost use Rattle.dr_node.specs.Laws.{IsDoneAtBooks, KnownIsRefused, NewLinksAreNotCounted};
ghost use Rattle.dr_node.specs.Laws.{OverDoesNothing, PushIsDoneAtBooks, PushesChangeOneLink};
ghost use Rattle.dr_node.specs.Laws.{StaysOfItsSite, UnknownIsRefused};

use dr_ledger::Ledger;
use dr_session::DeskPort;

/// What happens at a link changes that link alone.
pub fn changes_one_link<P: DeskPort>()
    ensures input { ChangesOneLink P.step }
    ensures push { PushesChangeOneLink P.step }
{}

/// A link can be accepted where its number is free, and nowhere else.
pub fn accepts_where_free()
    ensures free { IsAcceptedWhereFree }
    ensures known { KnownIsRefused }
{}

/// A link that is unknown is refused; at one that is over nothing is done.
pub fn rests<P: DeskPort>()
    ensures unknown { UnknownIsRefused P.step }
    ensures over { OverDoesNothing P.step }
{}

/// The others of a link are counted without its own side; a link that was opened to the node isn't
/// counted yet.
pub fn counts_others()
    ensures alone { CountsOthersAlone }
    ensures new { NewLinksAreNotCounted }
{}

/// A node's ledger stays of its site, and where its premise stands as a call ends it stood before.
pub fn stays_of_its_site<L: Ledger>()
    ensures { StaysOfItsSite L.site L.book L.bodies L.armed L.trusts L.stands L.failed }
{}

/// What a node does at its ledger is done at the ledger's book, by the routes of its site.
pub fn does_at_books<L: Ledger>()
    ensures input { IsDoneAtBooks L.site L.book L.bodies L.armed L.trusts L.stands L.failed }
    ensures push { PushIsDoneAtBooks L.site L.book L.bodies L.armed L.trusts L.stands L.failed }
{}
