//! Each row of the state table (PS3.8 section 9.2.3) that a session can meet: the state that
//! follows, what is written, and the first call on the desk.
ghost use Rattle.std.specs.Prelude.{ℕ};
ghost use Rattle.dr_base.specs.Texts.{Text};
ghost use Rattle.dr_nego.specs.Agreeing.{AssociateRq, AssociateAc};
ghost use Rattle.dr_nego.specs.declared.agreed.Agreed.{Agreed};
ghost use Rattle.dr_pdu.specs.declared.pdu.Abort.{Abort};
ghost use Rattle.dr_pdu.specs.declared.pdu.AssociateRj.{AssociateRj};
ghost use Rattle.dr_pdu.specs.declared.pdu.Pdv.{Pdv};
ghost use Rattle.dr_session.specs.declared.ends.Core.{Core};
ghost use Rattle.dr_session.specs.declared.ends.Moment.{Moment};
ghost use Rattle.dr_session.specs.declared.ends.Pending.{Pending};
ghost use Rattle.dr_session.specs.Figures.{Acceptances, Rejections, Requests, Values, Pushes};
ghost use Rattle.dr_session.specs.Figures.{Responses, Releases, ReleaseAnswers, Aborts, Endings};
ghost use Rattle.dr_session.specs.Figures.{LateMarks, NoPdus, Passings, Silences};

/// An A-ASSOCIATE-AC and an A-ASSOCIATE-RJ (events 3 and 4).
pub fn answers()
    ensures acceptances { (c : Core) (at : Moment) (ac : AssociateAc) (agreed : Agreed)
        → Acceptances c at ac agreed }
    ensures rejections { (c : Core) (at : Moment) (rj : AssociateRj) → Rejections c at rj }
{}

/// An A-ASSOCIATE-RQ, and its answer at once (events 6 to 8).
pub fn requests()
    ensures { (c : Core) (now : ℕ) (rq : AssociateRq) → Requests c now rq }
{}

/// Data, sent and heard (events 9 and 10).
pub fn data()
    ensures values { (c : Core) (at : Moment) (p : Pdv) → Values c at p }
    ensures pushes { (c : Core) (at : Moment) → Pushes c at }
    ensures passings { (c : Core) (at : Moment) (uid : Text) → Passings c at uid }
{}

/// Responses that a requestor hears (event 10).
pub fn responses()
    ensures { (c : Core) (at : Moment) (class uid : Text) → Responses c at class uid }
{}

/// The release (events 11 to 14).
pub fn releases()
    ensures requests { (c : Core) (at : Moment) → Releases c at }
    ensures answers { (c : Core) (at : Moment) → ReleaseAnswers c at }
{}

/// Aborts, the end of the connection, time that passes, and what is no PDU (events 15 to 19).
pub fn breaks()
    ensures aborts { (c : Core) (at : Moment) (a : Abort) (p : Pending) → Aborts c at a p }
    ensures endings { (c : Core) (at : Moment) (p : Pending) → Endings c at p }
    ensures late { (c : Core) → LateMarks c }
    ensures silences { (c : Core) → Silences c }
    ensures no_pdus { (c : Core) (at : Moment) → NoPdus c at }
{}
