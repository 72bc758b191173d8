//! What an end writes, byte by byte.
ghost use Rattle.dr_session.specs.declared.ends.Core.{Core};
ghost use Rattle.dr_session.specs.declared.ends.Moment.{Moment};
ghost use Rattle.dr_session.specs.Spellings.{DataSets, EchoAnswers, MessageIds, ReservedBytes};
ghost use Rattle.dr_session.specs.Spellings.{StoreAnswers};

/// The responses to a C-ECHO-RQ and to a C-STORE-RQ: the message that they answer, their context
/// and their status, and how a short limit cuts them.
pub fn responses()
    ensures echoes { (c : Core) (at : Moment) → EchoAnswers c at }
    ensures stores { (c : Core) (at : Moment) → StoreAnswers c at }
{}

/// How a data set is cut.
pub fn data_sets()
    ensures { DataSets }
{}

/// Message ids go round behind 65,535.
pub fn message_ids()
    ensures { (c : Core) (at : Moment) → MessageIds c at }
{}

/// The reserved bytes of a request for an association, and of its acceptance.
pub fn reserved_bytes()
    ensures { ReservedBytes }
{}
