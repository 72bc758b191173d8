//! Laws of negotiation.
ghost use Rattle.dr_nego.specs.Laws.{HopsAreAgreed, BothSidesAgree, AgreementsAreWhole};
ghost use Rattle.dr_nego.specs.Laws.{OneConclusion, ContextsAreLeast, OneProposal, ProposalsFit};
ghost use Rattle.dr_nego.specs.Laws.{EchoesFit, AcceptancesFit, PiecesAreWhole, OneCut};
ghost use Rattle.dr_nego.specs.Laws.{LastIsMarked, FragmentsFit, FragmentsAreWhole};
ghost use Rattle.dr_nego.specs.Laws.{CommandsAreMessages, DataSetsAreMessages};

/// Over a hop of a sound plan, whose caller proposes its pairs, the receiver accepts just these,
/// unless 256 others are open.
pub fn hops_are_agreed()
    ensures { HopsAreAgreed }
{}

/// What a site's node accepts of a request is what the caller concludes, with the same contexts at
/// both ends.
pub fn both_sides_agree()
    ensures { BothSidesAgree }
{}

/// What is agreed on are just the contexts that were proposed and accepted, by rising ids as they
/// were proposed, and nothing else can be concluded.
pub fn agreements_are_whole()
    ensures whole { AgreementsAreWhole }
    ensures one { OneConclusion }
{}

/// Where ids rise, the context that is found for a class and a transfer syntax is that of the least
/// id.
pub fn contexts_are_least()
    ensures { ContextsAreLeast }
{}

/// A site proposes one thing to a node.
pub fn there_is_one_proposal()
    ensures { OneProposal }
{}

/// What is proposed for a hop, or for an echo, can be written; and so can the answer to a request
/// that was read.
pub fn proposals_and_answers_fit()
    ensures proposals { ProposalsFit }
    ensures echoes { EchoesFit }
    ensures acceptances { AcceptancesFit }
{}

/// The pieces of a text, joined, are the text: all but the last are as long as the limit lets them
/// be, and none is empty but that of no text. No other list is.
pub fn pieces_are_whole()
    ensures whole { PiecesAreWhole }
    ensures one { OneCut }
{}

/// Of the PDUs of fragments the last alone is marked as the last; each can be written, and meets
/// the limit.
pub fn fragments_fit()
    ensures last { LastIsMarked }
    ensures fit { FragmentsFit }
{}

/// The values of a text's fragments are the whole of it. So the fragments of a command, with those
/// of its data set behind them where it announces one, are heard as just its message (PS3.7 6.3,
/// PS3.8 annex E), however they are cut.
pub fn fragments_make_their_message()
    ensures whole { FragmentsAreWhole }
    ensures commands { CommandsAreMessages }
    ensures data_sets { DataSetsAreMessages }
{}
