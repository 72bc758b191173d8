//! One visit to a hop.
ghost use Rattle.dr_run_serve.specs.Visits.{Finds, GivesUp, IsToldAs, SendsDue, Visits};

use crate::tallied::Tallied;
use dr_base::Text;
use dr_ledger::{LedgerFault, Outcome};
use dr_run_net::Network;
use dr_run_open::NextHop;
use dr_session::{Clock, Ended, SessionFault, deliver};
use dr_site::Site;
use std::alloc::Global;
use std::io;

/// What came of a visit.
#[derive(Drop)]
pub enum Visit {
    /// No row was due.
    Idle,
    /// There was no connection; the first due row is due later.
    Unreached(io::Error),
    /// How the association ended.
    Ended(Ended),
    /// Why it didn't end as an association does.
    Failed(SessionFault),
}

/// The first due row. No data set is read.
fn first_due<P: Tallied, C: Clock>(
    dest: &Text,
    port: &mut P,
    clock: &C,
) -> Result<Option<Text>, LedgerFault>
    ensures { Finds P.finds (C.tells clock.now) dest.now port.old result port.new }
{
    port.due_row(dest, clock.now())
}

/// The row is due later. That it isn't waiting any more is no fault.
fn give_up<P: Tallied, C: Clock>(
    uid: &Text,
    dest: &Text,
    port: &mut P,
    clock: &C,
) -> Result<(), LedgerFault>
    ensures { GivesUp P.step (C.tells clock.now) uid.now dest.now port.old result port.new }
{
    match port.settle(uid, dest, Outcome::Broken, clock.now()) {
        Ok(()) | Err(LedgerFault::NotWaiting) => Ok(()),
        Err(fault) => Err(fault),
    }
}

/// What a session comes to, as a visit tells it.
fn told(came: Result<Ended, SessionFault>) -> Result<Visit, LedgerFault>
    ensures { IsToldAs came result }
{
    match came {
        Ok(ended) => Ok(Visit::Ended(ended)),
        Err(SessionFault::Desk) => Err(LedgerFault::Store),
        Err(SessionFault::Memory) => Err(LedgerFault::Memory),
        Err(fault) => Ok(Visit::Failed(fault)),
    }
}

/// A visit to a hop of the site, which has a row that is due: all due rows go over one association
/// (at most 65,535). Where there is no connection, or no row was settled, the first due row is
/// settled as broken.
///
/// Errors: those of the desk; Store and Memory also where a session ended so.
fn send_due<N: Network, P: Tallied, C: Clock>(
    alloc: Global,
    site: &Site,
    hop: &NextHop,
    uid: &Text,
    network: &N,
    port: &mut P,
    clock: &C,
) -> Result<Visit, LedgerFault>
    ensures { SendsDue (N.connects network.now) N.Socket.hears N.Socket.sends N.Socket.closes P.step
        P.finds P.taken (C.tells clock.now) site.now hop.now.dest hop.now.address uid.now
        port.old result port.new }
{
    let mut link = match network.connect(alloc, &hop.address) {
        Ok(link) => link,
        Err(error) => {
            give_up(uid, &hop.dest, port, clock)?;
            return Ok(Visit::Unreached(error));
        }
    };
    let before = port.tally();
    let ended = deliver(alloc, &mut link, site, port, clock, &hop.dest);
    if port.tally() == before {
        give_up(uid, &hop.dest, port, clock)?;
    }
    told(ended)
}

/// A visit to a hop of the site.
///
/// Errors: those of `send_due`.
pub fn visit_hop<N: Network, P: Tallied, C: Clock>(
    alloc: Global,
    site: &Site,
    hop: &NextHop,
    network: &N,
    port: &mut P,
    clock: &C,
) -> Result<Visit, LedgerFault>
    ensures { Visits (N.connects network.now) N.Socket.hears N.Socket.sends N.Socket.closes P.step
        P.finds P.taken (C.tells clock.now) site.now hop.now.dest hop.now.address
        port.old result port.new }
{
    let Some(uid) = first_due(&hop.dest, port, clock)? else {
        return Ok(Visit::Idle);
    };
    send_due(alloc, site, hop, &uid, network, port, clock)
}
