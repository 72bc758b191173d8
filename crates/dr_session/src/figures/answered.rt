//! What follows an answer of the desk, the echo that goes out, and the inputs that faults make.
ghost use Rattle.std.specs.Prelude.{ℕ};
ghost use Rattle.dr_base.specs.Texts.{Text};
ghost use Rattle.dr_nego.specs.declared.agreed.Agreed.{Agreed};
ghost use Rattle.dr_pdu.specs.declared.pdu.AssociateRj.{AssociateRj};
ghost use Rattle.dr_session.specs.declared.ends.Core.{Core};
ghost use Rattle.dr_session.specs.declared.ends.Moment.{Moment};
ghost use Rattle.dr_session.specs.Answered.{Agreements, Settlings, Findings, Handings};
ghost use Rattle.dr_session.specs.Answered.{WithoutContexts, RejectedRows, EchoRequests};
ghost use Rattle.dr_session.specs.Answered.{FaultInputs};

/// A requestor hears its acceptance, its rejection or a response.
pub fn hears()
    ensures agreements { (c : Core) (at : Moment) (agreed : Agreed) → Agreements c at agreed }
    ensures settlings { (c : Core) (at : Moment) (class : Text) → Settlings c at class }
    ensures rejected { (c : Core) (at : Moment) (rj : AssociateRj) (first : Text)
        → RejectedRows c at rj first }
{}

/// A requestor asks for the next row, or for an echo.
pub fn sends()
    ensures findings { (c : Core) (at : Moment) → Findings c at }
    ensures handings { (c : Core) (at : Moment) → Handings c at }
    ensures contexts { (c : Core) (at : Moment) → WithoutContexts c at }
    ensures echoes { (c : Core) (now : ℕ) → EchoRequests c now }
{}

/// What is no PDU is heard as one of an unknown type, or as an invalid one.
pub fn faults()
    ensures { FaultInputs }
{}
