//! Laws: what is done to a world's contents is a step of the world of bytes beside it.
ghost use Rattle.dr_world.specs.Among.{NamesAreLookedAt, ScriptsFit};
ghost use Rattle.dr_world.specs.Answered.{EnteringIsAnswered};
ghost use Rattle.dr_world.specs.Ended.{MoveEndsPdu};
ghost use Rattle.dr_world.specs.Laws.{AwayIsShown, DropIsShown, EndStaysOfItsSite, ForgetIsShown};
ghost use Rattle.dr_world.specs.Laws.{MoveIsShown};
ghost use Rattle.dr_world.specs.Laws.{NewIsBeginning, OtherLinksAreCounted, RefuseIsShown};
ghost use Rattle.dr_world.specs.Laws.{RequeueIsShown, StrangerIsSkipped, SubmitIsShown};
ghost use Rattle.dr_world.specs.Laws.{TickIsShown, UnderWayStays};
ghost use Rattle.dr_world.specs.Orders.{DeedsAloneAreDone};
ghost use Rattle.dr_world.specs.Played.{ChangesGoOn, ClaimsOfCodeCanFail, DeedsKeepTheHeadline};
ghost use Rattle.dr_world.specs.Played.{DeedsEndEarly, EventsAloneLead};
ghost use Rattle.dr_world.specs.Played.{FitScriptsAreOwnRuns, FitScriptsKeepTheClaims};
ghost use Rattle.dr_world.specs.Played.{StepsAloneRun, StepsGoOn, WhatEntersIsThere, WritesGoOn};

use crate::world::World;
use dr_ledger::Ledger;
use dr_session::DeskPort;

/// Whatever happens at an end, it stays of its site.
pub fn stays_of_its_site<P: DeskPort>()
    ensures { EndStaysOfItsSite P.step }
{}

/// The associations that a node counts are those that the world of bytes counts.
pub fn counts_others()
    ensures { OtherLinksAreCounted }
{}

/// Time passes for all.
pub fn ticks()
    ensures { TickIsShown }
{}

/// What is done at a node alone is that step.
pub fn acts_at_nodes()
    ensures stranger { StrangerIsSkipped }
    ensures submit { SubmitIsShown }
    ensures away { AwayIsShown }
    ensures requeue { RequeueIsShown }
    ensures drop { DropIsShown }
    ensures forget { ForgetIsShown }
    ensures under_way { UnderWayStays }
    ensures refuse { RefuseIsShown }
{}

/// What an instance is answered that enters follows from the node's book, where its store wasn't
/// told to refuse. So it is there, if the node has a line for it.
pub fn what_enters_is_there()
    ensures answers { EnteringIsAnswered }
    ensures there { WhatEntersIsThere }
{}

/// A world in which nothing was done yet stands beside the beginning.
pub fn begins()
    ensures { NewIsBeginning }
{}

/// Bytes that come to an end are a Move, where so many came as belong to the PDU at the front.
pub fn moves()
    ensures { MoveIsShown }
{}

/// A Move of all that is left of a PDU ends it: just that comes off the wire, and the end has heard
/// the PDU.
pub fn ends_pdus()
    ensures { MoveEndsPdu }
{}

/// From wherever steps, changes of plan and what other products write have led to, each of them
/// goes on: what `World::step`, `World::adopt` and `World::write` promise can be put together in
/// any order.
pub fn steps_and_changes_go_on<L: Ledger>(_old: &World<L>, _new: &World<L>)
    ensures steps { StepsGoOn _old.now _new.now }
    ensures changes { ChangesGoOn _old.now _new.now }
    ensures writes { WritesGoOn _old.now _new.now }
{}

/// Wherever they have led to, the four claims hold by the plan in force, if no other product wrote.
pub fn changes_keep_the_headline<L: Ledger>(_world: &World<L>)
    ensures { DeedsKeepTheHeadline _world.now }
{}

/// Without a change of plan deeds are steps of the world of bytes, and events lead to the world of
/// messages.
pub fn steps_alone_are_events()
    ensures steps { StepsAloneRun }
    ensures events { EventsAloneLead }
{}

/// The four claims don't hold of each world of code: not of one in which a node's journal says that
/// a row was settled for want of a presentation context.
pub fn claims_of_code_can_fail<L: Ledger>(_world: &World<L>)
    ensures { ClaimsOfCodeCanFail _world.now }
{}

/// Where no other maker's product is named, just what is ordered is done, and nothing is refused.
pub fn deeds_alone_are_done()
    ensures { DeedsAloneAreDone }
{}

/// Memory may always lack, and a store may fail in a change of plan; nothing else ends a run early.
pub fn deeds_end_early()
    ensures { DeedsEndEarly }
{}

/// A script in which other products write is a run of a world of ours, of the ends whose peers are
/// other products and of the links between two of ours, where nobody else writes on these and no
/// request of another product names one of ours. So the four claims among others hold of our nodes'
/// books. Which requests these are is told by the name of their caller. A scanner of another make
/// may send what it wants.
pub fn others_are_played<L: Ledger>(_world: &World<L>)
    ensures runs { FitScriptsAreOwnRuns }
    ensures claims { FitScriptsKeepTheClaims _world.now }
    ensures names { NamesAreLookedAt }
    ensures scripts { ScriptsFit }
{}
