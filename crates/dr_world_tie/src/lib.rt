//! What ends do with bytes is what the message world's events do.
//!
//! A link as bytes is its two ends, what they keep of what they heard, and what is on the two wires
//! (`specs/Channels.antt`); which link of the message world it is, is said there by `ShowsLink`.
//! What happens at an end is an event of the message world, and leaves the channel that link
//! (`specs/Ties.antt`, `Moves.antt`, `Closing.antt`). A whole world of bytes and its steps stand in
//! `specs/ByteWorlds.antt`, and beside which message world it stands in `specs/Shown.antt`; how all
//! its nodes take another plan in `specs/Changes.antt`. What one end of ours does whose peer is
//! another maker's product, whatever bytes that writes, is said in `specs/Foreign.antt`,
//! `ForeignCalls.antt` and `ForeignLinks.antt`. Nothing here runs: the crate has definitions, and
//! functions without a body whose contracts are theorems about them.
#![tactic(auto)]

ghost use Rattle.dr_world_tie.specs.Changes.{ChangesKeepTheHeadline, NewWorldsMayTake};
ghost use Rattle.dr_world_tie.specs.Changes.{PlansAreAdopted, PlansCanBeTaken};
ghost use Rattle.dr_world_tie.specs.Changes.{WhatIsKeptStaysThrough};
ghost use Rattle.dr_world_tie.specs.Changes.{WhatIsTakenIsOne};
ghost use Rattle.dr_world_tie.specs.Closing.{ClosingIsClose};
ghost use Rattle.dr_world_tie.specs.Desks.{SiteStepsArePlanSteps};
ghost use Rattle.dr_world_tie.specs.Foreign.{AcceptorsBegin, AnyBytesCome, ClaimsHoldAfterBytes};
ghost use Rattle.dr_world_tie.specs.Foreign.{NothingUnheardIsStored, OneInputComes};
ghost use Rattle.dr_world_tie.specs.Foreign.{OursAreNotForeign, RequestsAreAnswered};
ghost use Rattle.dr_world_tie.specs.Foreign.{StoresAreBrought};
ghost use Rattle.dr_world_tie.specs.ForeignCalls.{AnyAnswersCome, CallsToOursAreNotForeign};
ghost use Rattle.dr_world_tie.specs.ForeignCalls.{ClaimsHoldAfterAnswers, NothingUnheardIsAnswered};
ghost use Rattle.dr_world_tie.specs.ForeignCalls.{LettingGoIsNothing, OneAnswerComes};
ghost use Rattle.dr_world_tie.specs.ForeignCalls.{OnePushComes, RequestorsBegin};
ghost use Rattle.dr_world_tie.specs.ForeignCalls.{ResponsesAreReplies};
ghost use Rattle.dr_world_tie.specs.ForeignLinks.{WhatAcceptorsHear, WhatRequestorsHear};
ghost use Rattle.dr_world_tie.specs.ForeignWorlds.{EndsAreAskedSo, OthersAreNotHere};
ghost use Rattle.dr_world_tie.specs.ForeignWorlds.{OursCanListen, OwnWorldsKeepTheClaims};
ghost use Rattle.dr_world_tie.specs.Laws.{EndsMayBeAsked, EndsMayMeet, MovesAreOfTheirEnds};
ghost use Rattle.dr_world_tie.specs.Laws.{MovesAreWhole, NoRequestIsWritten, OpenFromSixToTwelve};
ghost use Rattle.dr_world_tie.specs.Laws.{StepsAreOfTheirKind, TakesOverNothingOn};
ghost use Rattle.dr_world_tie.specs.Laws.{WhatComesComesNow, WhatIsNoBytesMayCome};
ghost use Rattle.dr_world_tie.specs.Laws.{WhatIsToldIsSeen, WhatMayBeIsDone};
ghost use Rattle.dr_world_tie.specs.Laws.{WhatNodesAreToldIsDone};
ghost use Rattle.dr_world_tie.specs.MixedChanges.{MixedCanTake, MixedChangesKeepTheClaims};
ghost use Rattle.dr_world_tie.specs.MixedWorlds.{BothKindsStandThere, MixedWorldsKeepTheClaims};
ghost use Rattle.dr_world_tie.specs.MixedWorlds.{OwnRunsAreMixed, PairsAreOurs};
ghost use Rattle.dr_world_tie.specs.MixedWorlds.{WiresCarryWhatIsWritten};
ghost use Rattle.dr_world_tie.specs.Moves.{CallerMoves, ReceiverMoves};
ghost use Rattle.dr_world_tie.specs.OwnChanges.{OursCanTake, OursMayTakeAtFirst};
ghost use Rattle.dr_world_tie.specs.OwnChanges.{OwnChangesKeepTheClaims};
ghost use Rattle.dr_world_tie.specs.Nodes.{ForgettingIsForget, GivingUpIsDrop, RefusingIsRefuse};
ghost use Rattle.dr_world_tie.specs.Nodes.{RequeueingIsRequeue, StayingAwayIsStayAway};
ghost use Rattle.dr_world_tie.specs.Nodes.{SubmittingTakes, TimePasses};
ghost use Rattle.dr_world_tie.specs.Shown.{RunsKeepTheHeadline, WhatIsKeptStaysKept};
ghost use Rattle.dr_world_tie.specs.Shown.{WorldStepsAreEvents};
ghost use Rattle.dr_world_tie.specs.Ties.{AgreesAtReceiver, CallerHearsControl, CallerHearsNothing};
ghost use Rattle.dr_world_tie.specs.Ties.{CallerLeaves, GivesStore, HearsAcceptance};
ghost use Rattle.dr_world_tie.specs.Ties.{HearsRejection, HearsReply, HearsStore, LateAtCaller};
ghost use Rattle.dr_world_tie.specs.Ties.{LateAtReceiver, OffCallerIsNoEvent, OffReceiverIsNoEvent};
ghost use Rattle.dr_world_tie.specs.Ties.{OffStaysOff, OpensAreAsks, PiecesMakeCommands};
ghost use Rattle.dr_world_tie.specs.Ties.{PiecesMakeStores, PushGives, ReceiverHearsControl};
ghost use Rattle.dr_world_tie.specs.Ties.{ReceiverHearsNothing, ReceiverLeaves, ReleaseLeaves};
ghost use Rattle.dr_world_tie.specs.Ties.{RestartLeaves};

use dr_session::DeskPort;

/// A step of a whole world of bytes is an event of the message world beside it, or none where it is
/// skipped, where the end is off, where nothing was due, where the bytes end no message, or where
/// what is to be forgotten is under way.
pub fn world_steps_are_events()
    ensures { WorldStepsAreEvents }
{}

/// After any steps from the beginning the headline's four claims hold of the books, and what was
/// kept stays kept.
pub fn runs_keep_the_headline()
    ensures headline { RunsKeepTheHeadline }
    ensures kept { WhatIsKeptStaysKept }
{}

/// A plan that all nodes of a world of bytes take at once is adopted in the message world beside
/// it.
pub fn plans_are_adopted()
    ensures { PlansAreAdopted }
{}

/// Through any steps and changes of plan from the beginning the headline's four claims hold of the
/// books by the plan in force, and what was kept stays kept.
pub fn changes_keep_the_headline()
    ensures headline { ChangesKeepTheHeadline }
    ensures kept { WhatIsKeptStaysThrough }
{}

/// A plan that may be taken can be, in one way, and at the beginning each may that all nodes know.
pub fn plans_are_taken()
    ensures can { PlansCanBeTaken }
    ensures may { NewWorldsMayTake }
    ensures one { WhatIsTakenIsOne }
{}

/// Bytes that are moved from a wire to an end that is on are an event where they end one, or else
/// nothing.
pub fn moves_are_events()
    ensures receiver { ReceiverMoves }
    ensures caller { CallerMoves }
{}

/// Bytes that end no PDU are no event.
pub fn hears_nothing<P: DeskPort>()
    ensures receiver { ReceiverHearsNothing P.step }
    ensures caller { CallerHearsNothing P.step }
{}

/// A link that was opened shows the link that was asked for.
pub fn opens_are_asks()
    ensures { OpensAreAsks }
{}

/// The request's last byte is the receiver's agreement.
pub fn agrees_at_receiver()
    ensures { AgreesAtReceiver }
{}

/// The acceptance's last byte opens the link at its caller.
pub fn hears_acceptances()
    ensures { HearsAcceptance }
{}

/// A rejection is heard: the first row that is due is settled as broken.
pub fn hears_rejections()
    ensures { HearsRejection }
{}

/// A push sends the first row that is due.
pub fn pushes_give()
    ensures { PushGives }
{}

/// A job that a ledger hands out is under way as a store.
pub fn gives_stores()
    ensures { GivesStore }
{}

/// A store is heard: each of its PDUs but the last is no event, and the last is the arrival.
pub fn hears_stores()
    ensures { HearsStore }
{}

/// A response is heard: its last byte settles the row by its status.
pub fn hears_responses()
    ensures { HearsReply }
{}

/// What makes an end leave is its break in the message world.
pub fn ends_leave()
    ensures caller { CallerLeaves }
    ensures receiver { ReceiverLeaves }
    ensures late { LateAtCaller }
    ensures late_receiver { LateAtReceiver }
    ensures release { ReleaseLeaves }
{}

/// What a writer wrote as it left makes its reader leave.
pub fn hears_controls()
    ensures receiver { ReceiverHearsControl }
    ensures caller { CallerHearsControl }
{}

/// An end that is off calls nothing and stays off, whatever it hears and is asked, and its channel
/// is the same link.
pub fn stays_off<P: DeskPort>()
    ensures off { OffStaysOff P.step }
    ensures caller { OffCallerIsNoEvent P.step }
    ensures receiver { OffReceiverIsNoEvent P.step }
{}

/// Closing a link at both ends is its close.
pub fn closes()
    ensures { ClosingIsClose }
{}

/// A restart makes each far caller leave, in the order of their links, also where several of them
/// are one node's.
pub fn restarts()
    ensures { RestartLeaves }
{}

/// What is done at a node alone is the event of that node, and time passes for all.
pub fn nodes_act()
    ensures submitting { SubmittingTakes }
    ensures staying_away { StayingAwayIsStayAway }
    ensures requeueing { RequeueingIsRequeue }
    ensures giving_up { GivingUpIsDrop }
    ensures forgetting { ForgettingIsForget }
    ensures refusing { RefusingIsRefuse }
    ensures time { TimePasses }
{}

/// What a ledger does by its site's routes is what its node does by the plan.
pub fn site_steps_are_plan_steps()
    ensures { SiteStepsArePlanSteps }
{}

/// The fragments of a command make its message.
pub fn pieces_make_commands()
    ensures alone { PiecesMakeCommands }
    ensures with_data { PiecesMakeStores }
{}

/// Whatever another maker's product writes to an acceptor of ours, in whatever pieces, is what
/// happens in the message world among other makers' products, and the four claims hold of ours.
pub fn others_are_heard()
    ensures input { OneInputComes }
    ensures bytes { AnyBytesCome }
    ensures claims { ClaimsHoldAfterBytes }
{}

/// A request of another product's that our acceptor accepts is a call, and a store that it heard to
/// its end is a store of the message world. One that it hasn't heard is none, and a link of ours is
/// none of another product's.
pub fn others_calls_and_stores()
    ensures fresh { AcceptorsBegin }
    ensures answered { RequestsAreAnswered }
    ensures brought { StoresAreBrought }
    ensures unheard { NothingUnheardIsStored }
    ensures own { OursAreNotForeign }
{}

/// Whatever another maker's product writes to a requestor of ours, in whatever pieces, is what
/// happens in the message world among other makers' products, and the four claims hold of ours.
pub fn others_answers_are_heard()
    ensures input { OneAnswerComes }
    ensures bytes { AnyAnswersCome }
    ensures claims { ClaimsHoldAfterAnswers }
{}

/// A response that our requestor awaits is another product's reply. An answer that it hasn't heard
/// is none, and a link to one of ours is none to another product.
pub fn others_reply()
    ensures replied { ResponsesAreReplies }
    ensures unheard { NothingUnheardIsAnswered }
    ensures own { CallsToOursAreNotForeign }
{}

/// A requestor that called another maker's product begins as the link that its node asked for, what
/// it is asked to send is what its node gives, and a data set that is let go is nothing.
pub fn others_are_called()
    ensures fresh { RequestorsBegin }
    ensures pushed { OnePushComes }
    ensures let_go { LettingGoIsNothing }
{}

/// Whatever comes over a link to another maker's product, its end, silence or a fault too, is what
/// happens in the message world, as long as memory lasts.
pub fn links_to_others()
    ensures acceptors { WhatAcceptorsHear }
    ensures requestors { WhatRequestorsHear }
{}

/// After whatever happens at nodes of ours that have links to other makers' products alone, the
/// four claims hold of their books.
pub fn claims_hold_among_others()
    ensures claims { OwnWorldsKeepTheClaims }
    ensures listens { OursCanListen }
    ensures others { OthersAreNotHere }
    ensures asked { EndsAreAskedSo }
{}

/// After whatever happens at nodes of ours that have links to each other beside those to other
/// makers' products, the four claims hold of their books. A link between two of ours is no other's,
/// and nobody else writes on it.
pub fn claims_hold_with_both_kinds()
    ensures claims { MixedWorldsKeepTheClaims }
    ensures own { OwnRunsAreMixed }
    ensures both { BothKindsStandThere }
    ensures pairs { PairsAreOurs }
    ensures wires { WiresCarryWhatIsWritten }
{}

/// The same through changes of plan, which all of ours take at once. What may be taken can be.
pub fn changes_among_others()
    ensures claims { OwnChangesKeepTheClaims }
    ensures takes { OursCanTake }
    ensures first { OursMayTakeAtFirst }
{}

/// And the same where nodes of ours have both kinds of links. Between two of ours nothing is under
/// way when they take a plan.
pub fn changes_with_both_kinds()
    ensures claims { MixedChangesKeepTheClaims }
    ensures takes { MixedCanTake }
{}

/// A step is an event of its own kind alone, at the nodes or the link that it names. It may be none
/// only where the end is off, where nothing was due, where the bytes end no message, or where what
/// is to be forgotten is under way.
pub fn steps_are_of_their_kind()
    ensures moves { MovesAreOfTheirEnds }
    ensures kinds { StepsAreOfTheirKind }
    ensures seen { WhatIsToldIsSeen }
{}

/// What may be done is done: as many bytes are moved as were asked for, or all that is left of the
/// PDU. A link over a hop is opened, and a node of the plan does what it is told. A plan is taken
/// over no end of a link between two of ours that is on.
pub fn what_may_be_is_done()
    ensures moved { MovesAreWhole }
    ensures done { WhatMayBeIsDone }
    ensures told { WhatNodesAreToldIsDone }
    ensures states { OpenFromSixToTwelve }
    ensures taken { TakesOverNothingOn }
{}

/// What may come to an end of ours, and what may be asked of it. What comes comes at the world's
/// moment. A request, and a response to a store with status 0, is none of what says no success.
pub fn ends_may_meet()
    ensures comes { WhatIsNoBytesMayCome }
    ensures meets { EndsMayMeet }
    ensures asked { EndsMayBeAsked }
    ensures now { WhatComesComesNow }
    ensures written { NoRequestIsWritten }
{}
