//! The program over anything that it can run on.
use crate::files::{Databases, StoredLedgers};
use dr_ledger_journal::TellsJournal;
use dr_run_backup::Backups;
use dr_run_files::Files;
use dr_run_net::Network;
use dr_run_open::Status;
use dr_run_serve::Ending;
use dr_run_token::Tokens;
use dr_session::Clock;
use dr_word_all::run_words;
use dr_word_rehearse::Finds;
use dr_word_serve::System;
use log::Log;
use std::alloc::Global;
use std::io::{Read, Write};
use std::sync::Wait;
use std::thread::Threads;
use std::time;

/// A clock that others go by, too.
#[derive(Drop)]
pub struct ClockAt<'a, C: Clock>(pub &'a C);

impl<'a, C: Clock> Clock for ClockAt<'a, C> {
    ghost tells = { λ clock now. C.tells clock.0.now now };

    fn now(&self) -> u64 {
        self.0.now()
    }
}

/// What the program runs on: files, databases in which its ledgers are, a network, a clock, a log,
/// and what may end a node from without.
#[derive(Drop)]
pub struct Machine<F: Drop, D: Databases + Drop, N: Drop, C: Drop, G: Drop, U: Drop> {
    pub files: F,
    pub ledgers: StoredLedgers<D>,
    pub network: N,
    pub clock: C,
    pub log: G,
    pub ending: U,
}

/// `run_words`, without what it promises: said of the system's own files, ledgers and sockets, on
/// which nothing is known, that is long, and no more than what it says of any.
fn run_over<
    T: Threads + Wait + Sync + time::Clock,
    R: Read,
    W: Write,
    E: Write,
    F: Files + Backups + Tokens + Sync,
    O: Finds,
    N: Network + Sync,
    C: Clock + Sync,
    G: Log + Sync,
    U: Ending,
>(
    rt: &T,
    alloc: Global,
    words: &[&str],
    input: &mut R,
    output: &mut W,
    faults: &mut E,
    system: System<'_, F, O, N, C, G, U>,
) -> Status
where
    O::Ledger: Send + TellsJournal,
    N::Socket: Send,
    N::Listener: Sync,
{
    run_words(rt, alloc, words, input, output, faults, system)
}

/// The same on a machine, whose ledgers are in databases.
pub fn run_on<
    T: Threads + Wait + Sync + time::Clock,
    R: Read,
    W: Write,
    E: Write,
    F: Files + Backups + Tokens + Sync + Drop,
    D: Databases + Drop,
    N: Network + Sync + Drop,
    C: Clock + Sync + Drop,
    G: Log + Sync + Drop,
    U: Ending + Drop,
>(
    rt: &T,
    alloc: Global,
    words: &[&str],
    input: &mut R,
    output: &mut W,
    faults: &mut E,
    machine: &Machine<F, D, N, C, G, U>,
) -> Status
where
    D::Store: Send,
    N::Socket: Send,
    N::Listener: Sync,
{
    let system = System {
        files: &machine.files,
        ledgers: &machine.ledgers,
        network: &machine.network,
        clock: &machine.clock,
        log: &machine.log,
        ending: &machine.ending,
    };
    run_over(rt, alloc, words, input, output, faults, system)
}
