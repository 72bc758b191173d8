//! The phase of a core: the steps of the state table, and the services of the local user.
ghost use Rattle.std.specs.Prelude.{◌≡◌, true};
ghost use Rattle.dr_session.specs.Changes.{after_step, phased};
ghost use Rattle.dr_session.specs.Reactions.{is_requestor, phase_after, stepped_by};
ghost use Rattle.dr_session.specs.Telling.{state_at};
ghost use Rattle.dr_ulstate.specs.Phases.{event_of, is_acceptable, next_late, next_sent};
ghost use Rattle.dr_ulstate.specs.Phases.{next_stepped};
ghost use Rattle.dr_ulstate.specs.declared.phase.Next.TheVariants.{Idle};
ghost use Rattle.dr_ulstate.specs.declared.table.Event.TheVariants.{AbortRequest, AcceptResponse};
ghost use Rattle.dr_ulstate.specs.declared.table.Event.TheVariants.{RejectResponse, ReleaseRequest};
ghost use Rattle.dr_ulstate.specs.declared.table.Event.TheVariants.{ReleaseResponse};

use super::BoxedCore;
use crate::ends::Core;
use dr_ulstate::{Action, Incoming, Next, State};
use std::mem;

impl BoxedCore {
    /// The state (PS3.8 9.2.1).
    pub(crate) fn state(&self) -> State
        ensures { result ≡ state_at self.now }
    {
        self.core.as_ref().phase.state()
    }

    /// Whether it is the end that asked for the association.
    pub(crate) fn is_requestor(&self) -> bool
        ensures { result ≡ is_requestor self.now }
    {
        self.core.as_ref().phase.is_requestor()
    }

    /// What comes from outside is an event of the table: its action and the end in the phase that
    /// follows; where it has no cell the end as it was.
    pub(crate) fn step(self, incoming: Incoming, now: u64) -> Result<(Action, BoxedCore), BoxedCore>
        ensures { result
            ≡ after_step self
            (next_stepped (event_of incoming) (is_acceptable incoming) self.phase now) }
    {
        let (phase, core) = self.take_phase();
        core.put_step(phase.step(incoming, now))
    }

    /// The table's timer, where it has expired.
    pub(crate) fn step_late(self, now: u64) -> Result<(Action, BoxedCore), BoxedCore>
        ensures { result ≡ after_step self (next_late self.phase now) }
    {
        let (phase, core) = self.take_phase();
        core.put_step(phase.late(now))
    }

    /// The local user's abort.
    pub(crate) fn step_abort(self, now: u64) -> Result<(Action, BoxedCore), BoxedCore>
        ensures { result ≡ after_step self (next_stepped AbortRequest true self.phase now) }
    {
        let (phase, core) = self.take_phase();
        core.put_step(phase.abort(now))
    }

    /// The local user's request for a release.
    pub(crate) fn step_release(self, now: u64) -> Result<(Action, BoxedCore), BoxedCore>
        ensures { result ≡ after_step self (next_stepped ReleaseRequest true self.phase now) }
    {
        let (phase, core) = self.take_phase();
        core.put_step(phase.release(now))
    }

    /// The local user's data.
    pub(crate) fn step_data(self, now: u64) -> Result<(Action, BoxedCore), BoxedCore>
        ensures { result ≡ after_step self (next_sent self.phase now) }
    {
        let (phase, core) = self.take_phase();
        core.put_step(phase.send(now))
    }

    /// The phase after the local user's abort (PS3.8 9.2.2, AA-1).
    pub(crate) fn abort(self, now: u64) -> BoxedCore
        ensures { result ≡ stepped_by AbortRequest now self }
    {
        let (phase, core) = self.take_phase();
        core.put_phase(after(phase.abort(now)))
    }

    /// The phase after the answer to a release (PS3.8 9.2.2, AR-4 and AR-9).
    pub(crate) fn respond(self, now: u64) -> BoxedCore
        ensures { result ≡ stepped_by ReleaseResponse now self }
    {
        let (phase, core) = self.take_phase();
        core.put_phase(after(phase.respond(now)))
    }

    /// The phase after a request was accepted (PS3.8 9.2.2, AE-7).
    pub(crate) fn accept(self, now: u64) -> BoxedCore
        ensures { result ≡ stepped_by AcceptResponse now self }
    {
        let (phase, core) = self.take_phase();
        core.put_phase(after(phase.accept(now)))
    }

    /// The phase after a request was rejected (PS3.8 9.2.2, AE-8).
    pub(crate) fn reject(self, now: u64) -> BoxedCore
        ensures { result ≡ stepped_by RejectResponse now self }
    {
        let (phase, core) = self.take_phase();
        core.put_phase(after(phase.reject(now)))
    }

    /// The phase, and the core without one.
    fn take_phase(self) -> (Next, BoxedCore)
        ensures phase { result.0 ≡ self.phase }
        ensures rest { result.1 ≡ phased Idle self }
    {
        let mut core = self.core;
        let phase = replace_phase(core.as_mut(), Next::Idle);
        (phase, BoxedCore { core })
    }

    /// The core in that phase.
    fn put_phase(self, phase: Next) -> BoxedCore
        ensures { result ≡ phased phase self }
    {
        let mut core = self.core;
        forget(replace_phase(core.as_mut(), phase));
        BoxedCore { core }
    }

    /// What a step came to, with the core in the phase that it gives.
    fn put_step(self, step: Result<(Action, Next), Next>) -> Result<(Action, BoxedCore), BoxedCore>
        ensures { result ≡ after_step self step }
    {
        match step {
            Ok((action, next)) => Ok((action, self.put_phase(next))),
            Err(same) => Err(self.put_phase(same)),
        }
    }
}

/// Another phase, and the one that was there.
fn replace_phase(core: &mut Core, phase: Next) -> Next
    ensures before { result ≡ core.old.phase }
    ensures after { core.new ≡ phased phase core.old }
{
    mem::replace(&mut core.phase, phase)
}

/// The phase after a service of the local user.
fn after(step: Result<(Action, Next), Next>) -> Next
    ensures { result ≡ phase_after step }
{
    match step {
        Ok((_, next)) => next,
        Err(same) => same,
    }
}

/// It goes.
fn forget(_phase: Next) {}
