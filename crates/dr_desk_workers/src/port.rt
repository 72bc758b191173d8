//! A shared desk as a session sees it.
ghost use Rattle.dr_desk_workers.specs.Passes.{PassStep};

use crate::counts::SessionCounts;
use crate::gate::{Gate, Point};
use dr_base::Text;
use dr_desk::{Pass, SharedDesk, Sharing};
use dr_ledger::{Arrived, Instance, Item, Ledger, LedgerFault, NextRow, Outcome};
use dr_route::Targets;
use dr_session::DeskPort;
use std::alloc::{AllocError, Global};
use std::sync::Wait;

/// The shared desk with the pass of the worker that serves the session. After an arrival that the
/// desk answered, and without its lock, the gate is passed.
#[derive(Drop)]
pub struct SessionPort<'a, R: Wait, L: Ledger, B: Sharing, G: Gate> {
    pub rt: &'a R,
    pub alloc: Global,
    pub desk: &'a SharedDesk<L, B>,
    pub pass: &'a mut Pass<B>,
    pub gate: &'a G,
    pub session: u64,
    pub counts: &'a SessionCounts,
}

impl<'a, R: Wait, L: Ledger, B: Sharing, G: Gate> SessionPort<'a, R, L, B, G> {
    /// Tells what the desk answered. Where there was no memory to tell of which instance, nothing
    /// is told.
    fn tell(
        &self,
        caller: &Text,
        instance: Result<Instance, AllocError>,
        answer: Result<Arrived, LedgerFault>,
    ) {
        if let Ok(instance) = instance {
            self.gate.arrived(self.session, caller, &instance, answer);
        }
    }

    /// Tells for which nodes there may be new rows of an instance that came for the first time.
    /// Where there was no memory to tell of which, or for which, nothing is told.
    fn tell_brought(
        &self,
        instance: &Result<Instance, AllocError>,
        targets: &Result<Targets, AllocError>,
        answer: Result<Arrived, LedgerFault>,
    ) {
        let Ok(Arrived::New) = answer else {
            return;
        };
        if let (Ok(instance), Ok(targets)) = (instance, targets) {
            self.gate.brought(&instance.uid, targets.to.as_slice());
        }
    }

    /// Tells for which nodes there may be rows now; for all, where there was no memory to tell
    /// which.
    fn tell_rows(&self, targets: Result<Targets, AllocError>) {
        match targets {
            Ok(targets) => self.gate.queued(Some(targets.to.as_slice())),
            Err(AllocError) => self.gate.queued(None),
        }
    }
}

impl<'a, R: Wait, L: Ledger, B: Sharing, G: Gate> DeskPort for SessionPort<'a, R, L, B, G> {
    ghost use Rattle.dr_desk_workers.specs.Passes.{PassStep};

    ghost step = { λ s call answer t. PassStep call answer s.pass.now.made.count
        s.pass.now.receipts.items t.pass.now.made.count t.pass.now.receipts.items };

    fn arrive(&mut self, caller: &Text, item: Item) -> Result<Arrived, LedgerFault> {
        let instance = item.instance();
        let targets = self.desk.site().targets(self.alloc, caller, item.key());
        let answer = self.desk.arrive(self.rt, self.pass, caller, item);
        self.counts.note(answer.is_ok());
        self.gate.at(self.session, Point::Stored);
        self.tell_brought(&instance, &targets, answer);
        self.tell_rows(targets);
        self.tell(caller, instance, answer);
        answer
    }

    fn next(&mut self, dest: &Text, now: u64) -> Result<Option<NextRow>, LedgerFault> {
        self.desk.next(self.rt, dest, now)
    }

    fn due(&mut self, dest: &Text, now: u64) -> Result<Option<Text>, LedgerFault> {
        self.desk.due(self.rt, dest, now)
    }

    fn settle(
        &mut self,
        uid: &Text,
        dest: &Text,
        outcome: Outcome,
        now: u64,
    ) -> Result<(), LedgerFault> {
        self.desk
            .settle(self.rt, self.pass, uid, dest, outcome, now)
    }
}
