//! What changes of a core but for its phase.
ghost use Rattle.std.specs.Prelude.{◌≡◌, Some, None};
ghost use Rattle.dr_session.specs.Plays.{without_data};
ghost use Rattle.dr_session.specs.Reactions.{aborted, awaiting, desk_failed, dried, left};
ghost use Rattle.dr_session.specs.Reactions.{rejected as rejected_with, released, settled_with};

use super::BoxedCore;
use crate::ends::{Core, Marks, Pending};
use crate::negotiated::Negotiated;
use dr_base::Text;
use dr_dimse::Awaited;
use dr_pdu::AssociateRj;

impl BoxedCore {
    /// Nothing is pending any more.
    pub(crate) fn leave_pending(self) -> BoxedCore
        ensures { result ≡ left self }
    {
        let mut core = self.core;
        clear_pending(core.as_mut());
        BoxedCore { core }
    }

    /// A response has come: nothing is pending, and nothing is awaited.
    pub(crate) fn settle(self) -> BoxedCore
        ensures { result ≡ settled_with self }
    {
        let mut core = self.core;
        clear_pending(core.as_mut());
        await_other(core.as_mut(), Awaited::Nothing);
        BoxedCore { core }
    }

    /// A request is under way, and its response is awaited.
    pub(crate) fn await_response(self, asked: Pending, now: u64) -> BoxedCore
        ensures { result ≡ awaiting asked now self }
    {
        let mut core = self.core;
        let id = asked.id;
        set_pending(core.as_mut(), asked, now);
        await_other(core.as_mut(), Awaited::AnswerTo(id));
        BoxedCore { core }
    }

    /// An answer is awaited since that moment, in milliseconds.
    pub(crate) fn await_since(self, now: u64) -> BoxedCore
        ensures { result ≡ record self { awaits = Some now } }
    {
        let mut core = self.core;
        set_awaits(core.as_mut(), now);
        BoxedCore { core }
    }

    /// No row is due.
    pub(crate) fn run_dry(self) -> BoxedCore
        ensures { result ≡ dried self }
    {
        let mut core = self.core;
        set_dry(core.as_mut());
        BoxedCore { core }
    }

    /// The bytes of the data set that is under way are let go.
    pub(crate) fn let_data_go(self) -> BoxedCore
        ensures { result ≡ without_data self }
    {
        let mut core = self.core;
        let_data_go(core.as_mut());
        BoxedCore { core }
    }

    /// What a requestor agreed on.
    pub(crate) fn agree(self, agreed: Negotiated) -> BoxedCore
        ensures { result ≡ record self { agreed = Some agreed; awaits = None } }
    {
        let mut core = self.core;
        set_agreed(core.as_mut(), agreed);
        BoxedCore { core }
    }

    /// What an acceptor agreed on, and with whom.
    pub(crate) fn agree_with(self, peer: Text, agreed: Negotiated) -> BoxedCore
        ensures { result ≡ record self { peer = peer; agreed = Some agreed } }
    {
        let mut core = self.core;
        set_peer(core.as_mut(), peer, agreed);
        BoxedCore { core }
    }

    /// The mark of a failed desk.
    pub(crate) fn fail_desk(self) -> BoxedCore
        ensures { result ≡ desk_failed self }
    {
        let marks = Marks {
            desk_failed: true,
            ..self.as_core().marks
        };
        self.mark(marks)
    }

    /// The mark of an A-ABORT.
    pub(crate) fn mark_aborted(self) -> BoxedCore
        ensures { result ≡ aborted self }
    {
        let marks = Marks {
            aborted: true,
            ..self.as_core().marks
        };
        self.mark(marks)
    }

    /// The mark of an A-RELEASE-RP.
    pub(crate) fn mark_released(self) -> BoxedCore
        ensures { result ≡ released self }
    {
        let marks = Marks {
            released: true,
            ..self.as_core().marks
        };
        self.mark(marks)
    }

    /// The mark of an A-ASSOCIATE-RJ.
    pub(crate) fn mark_rejected(self, rejection: AssociateRj) -> BoxedCore
        ensures { result ≡ rejected_with rejection self }
    {
        let marks = Marks {
            rejection: Some(rejection),
            ..self.as_core().marks
        };
        self.mark(marks)
    }

    /// Other marks.
    fn mark(self, marks: Marks) -> BoxedCore
        ensures { result ≡ record self { marks = marks } }
    {
        let mut core = self.core;
        set_marks(core.as_mut(), marks);
        BoxedCore { core }
    }
}

fn clear_pending(core: &mut Core)
    ensures { core.new ≡ left core.old }
{
    core.pending = None;
    core.awaits = None;
}

fn set_pending(core: &mut Core, asked: Pending, now: u64)
    ensures { core.new
        ≡ record core.old { pending = Some asked; last = asked.id; awaits = Some now } }
{
    core.last = asked.id;
    core.pending = Some(asked);
    core.awaits = Some(now);
}

fn await_other(core: &mut Core, awaited: Awaited)
    ensures { core.new
        ≡ record core.old {
          assembly = record { awaited = awaited; stage = core.old.assembly.stage };
        } }
{
    core.assembly.await_other(awaited);
}

fn let_data_go(core: &mut Core)
    ensures { core.new ≡ without_data core.old }
{
    core.assembly.let_data_go();
}

fn set_awaits(core: &mut Core, now: u64)
    ensures { core.new ≡ record core.old { awaits = Some now } }
{
    core.awaits = Some(now);
}

fn set_dry(core: &mut Core)
    ensures { core.new ≡ dried core.old }
{
    core.dry = true;
}

fn set_agreed(core: &mut Core, agreed: Negotiated)
    ensures { core.new ≡ record core.old { agreed = Some agreed; awaits = None } }
{
    core.agreed = Some(agreed);
    core.awaits = None;
}

fn set_peer(core: &mut Core, peer: Text, agreed: Negotiated)
    ensures { core.new ≡ record core.old { peer = peer; agreed = Some agreed } }
{
    core.peer = peer;
    core.agreed = Some(agreed);
}

fn set_marks(core: &mut Core, marks: Marks)
    ensures { core.new ≡ record core.old { marks = marks } }
{
    core.marks = marks;
}
