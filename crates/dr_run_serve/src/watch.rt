//! How a node's sessions are seen: they wake those who send, are shown while they are open, and are
//! logged. Where the store is shut, they end.
use crate::asked::tell_asked;
use crate::events::{tell_arrival, tell_association, tell_crowded, tell_threads};
use crate::signal::Signal;
use dr_base::Text;
use dr_desk_workers::{Gate, Point, Tally};
use dr_ledger::{Arrived, Instance, LedgerFault};
use dr_pdu::{AssociateAc, AssociateRq};
use dr_session::{Clock, Ended, SessionFault};
use log::{Log, debug};
use std::alloc::Global;
use std::sync::Wait;

/// Rings for the hops for which an arrival may have made rows, notes what is open, and logs what
/// happens; doubts the store where it failed. No session is held.
#[derive(Drop)]
pub struct Watch<'a, R: Wait, C: Clock, G: Log> {
    pub rt: &'a R,
    pub alloc: Global,
    pub signal: &'a Signal,
    pub clock: &'a C,
    pub log: &'a G,
    /// The node's name.
    pub node: &'a Text,
    /// How many milliseconds a caller has for its request.
    pub request: u64,
}

impl<'a, R: Wait, C: Clock, G: Log> Gate for Watch<'a, R, C, G> {
    fn lacks(&self, begun: usize) {
        tell_threads(self.log, "serve", begun.saturating_add(1), begun);
    }

    fn at(&self, session: u64, point: Point) {
        match point {
            Point::Taken => {
                debug!(self.log; target: "association", "taken session={session}");
            }
            Point::Stored | Point::Answered => {}
        }
    }

    fn queued(&self, dests: Option<&[Text]>) {
        self.signal.ring(self.rt, dests);
    }

    fn brought(&self, uid: &Text, dests: &[Text]) {
        let now = self.clock.now();
        for dest in dests {
            let _noted = self.signal.note_waiting(self.rt, dest, uid, now);
        }
    }

    fn arrived(
        &self,
        session: u64,
        caller: &Text,
        instance: &Instance,
        answer: Result<Arrived, LedgerFault>,
    ) {
        match answer {
            Ok(_) => self.signal.recover(),
            Err(LedgerFault::Store) => self.signal.doubt(self.rt),
            Err(_) => {}
        }
        self.signal.open.note(self.rt, session, answer);
        let now = self.clock.now();
        self.signal
            .intake
            .note(self.rt, caller, instance, answer, now);
        tell_arrival(self.log, session, self.node, caller, instance, answer);
    }

    fn asked(&self, session: u64, request: &AssociateRq, answer: Option<&AssociateAc>) {
        if answer.is_some() {
            let caller = request.front.calling.as_bytes();
            let now = self.clock.now();
            self.signal.open.begin(self.rt, session, caller, now);
            self.signal
                .intake
                .begin(self.rt, self.alloc, session, caller);
        }
        tell_asked(self.log, session, request, answer);
    }

    fn responded(&self, session: u64, status: u16) {
        self.signal.intake.respond(self.rt, session, status);
    }

    fn crowded(&self, session: u64) {
        tell_crowded(self.log, session);
    }

    fn awaits(&self) -> u64 {
        self.request
    }

    fn is_over(&self) -> bool {
        self.signal.is_shut()
    }

    fn is_closing(&self) -> bool {
        self.signal.is_ending()
    }

    fn ended(&self, session: u64, ended: Result<Ended, SessionFault>, tally: Tally) {
        self.signal.open.end(self.rt, session);
        let responses = self.signal.intake.end(self.rt, self.alloc, session);
        tell_association(self.log, session, ended, tally, responses.as_slice());
    }
}
