//! The end of a node: in order, or since its store is shut.
ghost use Rattle.std.specs.Prelude.{◌≡◌, ◌↔◌, Err, IsTrue};
ghost use Rattle.dr_ledger.specs.declared.fault.LedgerFault.TheVariants.{Store};
ghost use Rattle.dr_run_serve.specs.Sendings.{TellsShut};
ghost use Rattle.dr_run_serve.specs.Stages.{BeginsToEnd, IsCutThen, IsNextStage, serves};

use crate::events::{tell_cut, tell_shut, tell_stopping};
use crate::signal::Signal;
use crate::stop::StopSign;
use dr_desk::{SharedDesk, Sharing};
use dr_ledger::{Ledger, LedgerFault};
use dr_run_net::{Listening, Network};
use log::Log;
use std::sync::Wait;

/// What is under way when a node ends in order has so many milliseconds.
const LEFT: u64 = 10_000;

/// How far the orderly end of a node is.
#[derive(Clone, Copy)]
pub enum EndStage {
    Serving,
    /// Nothing is begun since that moment.
    Ending(u64),
    /// What was under way then was cut.
    Cut,
}

impl EndStage {
    /// Whether the node serves.
    pub fn serves(self) -> bool
        ensures { result ≡ serves self }
    {
        match self {
            EndStage::Serving => true,
            EndStage::Ending(_) | EndStage::Cut => false,
        }
    }
}

fn is_store(fault: LedgerFault) -> bool
    ensures { IsTrue result ↔ (fault ≡ Store) }
{
    match fault {
        LedgerFault::Store => true,
        LedgerFault::NoLine
        | LedgerFault::Conflict
        | LedgerFault::NotWaiting
        | LedgerFault::NotHeld
        | LedgerFault::NotOver
        | LedgerFault::Memory => false,
    }
}

/// Whether a call was answered that the store failed.
fn is_store_fault(answer: Result<bool, LedgerFault>) -> bool
    ensures { IsTrue result ↔ (answer ≡ Err Store) }
{
    match answer {
        Ok(_) => false,
        Err(fault) => is_store(fault),
    }
}

/// Whether the store of the desk's ledger is shut, as it is after a sync that failed: then it
/// answers Store to a call that only reads, too. A disk that
/// is full refuses what would be written alone.
pub fn is_shut<R: Wait, L: Ledger, B: Sharing>(rt: &R, desk: &SharedDesk<L, B>) -> bool
    ensures { TellsShut L.site L.book L.bodies L.stands L.failed B.site B.first result }
{
    is_store_fault(desk.has(rt, desk.site().name()))
}

/// What a node is woken by, and what is ended where it ends.
#[derive(Drop)]
pub struct Wake<'a, D: Listening, N: Network> {
    pub signal: &'a Signal,
    pub listener: &'a D,
    pub network: &'a N,
    pub stop: &'a StopSign,
}

impl<'a, D: Listening, N: Network> Wake<'a, D, N> {
    /// Ends the node, if its store is shut: that is told, nothing is accepted any more, and the
    /// sessions that are served end at what they hear next. Says whether
    /// it is.
    pub fn ends<R: Wait, L: Ledger, B: Sharing, G: Log>(
        &self,
        rt: &R,
        desk: &SharedDesk<L, B>,
        log: &G,
    ) -> bool
        ensures { TellsShut L.site L.book L.bodies L.stands L.failed B.site B.first result }
    {
        if !is_shut(rt, desk) {
            return false;
        }
        tell_shut(log);
        self.signal.shut(rt);
        self.listener.close();
        true
    }

    /// Ends the node in order, where that was asked for: nothing is begun any more.
    fn begins_to_end<R: Wait, G: Log>(&self, rt: &R, now: u64, log: &G) -> EndStage
        ensures { BeginsToEnd now result }
    {
        if !self.stop.is_asked() {
            return EndStage::Serving;
        }
        tell_stopping(log);
        self.signal.stop(rt);
        self.listener.close();
        EndStage::Ending(now)
    }

    /// Cuts what is still under way so many milliseconds after the node began to end.
    fn cuts<G: Log>(&self, since: u64, now: u64, log: &G) -> EndStage
        ensures { IsCutThen since now result }
    {
        if now.saturating_sub(since) < LEFT {
            return EndStage::Ending(since);
        }
        tell_cut(log);
        self.network.cut();
        EndStage::Cut
    }

    /// Ends the node in order, where that was asked for, and from then on. Given is how far that
    /// is; so is the answer.
    pub fn stops<R: Wait, G: Log>(&self, rt: &R, ending: EndStage, now: u64, log: &G) -> EndStage
        ensures { IsNextStage ending now result }
    {
        match ending {
            EndStage::Serving => self.begins_to_end(rt, now, log),
            EndStage::Ending(since) => self.cuts(since, now, log),
            EndStage::Cut => EndStage::Cut,
        }
    }
}
