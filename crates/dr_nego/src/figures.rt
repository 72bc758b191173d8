//! Worked figures of negotiation, by computation: a gateway that sends CT images to an archive.
ghost use Rattle.dr_nego.specs.Figures.{ProposalIsLong, AcceptanceIsLong, EchoIsLong};
ghost use Rattle.dr_nego.specs.Figures.{EchoAnswerIsLong, RejectionsInOrder, LimitsAreTested};
ghost use Rattle.dr_nego.specs.Figures.{ContextsAreAnswered, ConclusionsAreDrawn, TextsAreCut};

/// The length fields of the proposal (228) and of its acceptance (199), and of an echo's (218 and
/// 197).
pub fn lengths()
    ensures proposal { ProposalIsLong }
    ensures acceptance { AcceptanceIsLong }
    ensures echo { EchoIsLong }
    ensures echo_answer { EchoAnswerIsLong }
{}

/// Each rejection before the next, also where two reasons stand at once, and the limits 7 and 8.
pub fn answers()
    ensures rejections { RejectionsInOrder }
    ensures limits { LimitsAreTested }
    ensures contexts { ContextsAreAnswered }
{}

/// What is concluded from an acceptance of a context or a syntax that wasn't proposed, or of a
/// small limit.
pub fn conclusions()
    ensures { ConclusionsAreDrawn }
{}

/// Pieces within the limits 9 and 1,024, and of nothing.
pub fn fragments()
    ensures { TextsAreCut }
{}
