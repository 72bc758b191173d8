//! A node that runs, as its threads have it, and by what means.
use crate::signal::Signal;
use dr_desk::{SharedDesk, Sharing};
use dr_ledger::Ledger;
use dr_ledger_timed::Meter;
use dr_run_open::NextHop;
use dr_session::Clock;
use log::Log;
use std::alloc::{AllocError, Global};
use std::sync::Wait;

/// By what a node is reached and reaches others, and by what it tells the time and what happens.
pub struct Means<'a, D, N, C, G> {
    pub listener: &'a D,
    pub network: &'a N,
    pub clock: &'a C,
    pub log: &'a G,
}

impl<'a, D, N, C, G> Clone for Means<'a, D, N, C, G> {
    fn clone(&self) -> Result<Means<'a, D, N, C, G>, AllocError> {
        Ok(*self)
    }
}

impl<'a, D, N, C, G> Copy for Means<'a, D, N, C, G> {}

/// A node that runs, as all of its threads share it: its desk, the hops to which it sends, what
/// wakes them, what times the calls of its ledger, and by what they tell the time and what happens.
#[derive(Drop)]
pub struct LiveNode<'a, R: Wait, L: Ledger, B: Sharing, C: Clock, G: Log> {
    pub rt: &'a R,
    pub alloc: Global,
    pub desk: &'a SharedDesk<L, B>,
    pub hops: &'a [NextHop],
    pub signal: &'a Signal,
    pub meter: &'a Meter,
    pub clock: &'a C,
    pub log: &'a G,
}
