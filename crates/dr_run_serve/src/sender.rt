//! The one who sends to a hop.
ghost use Rattle.std.specs.Prelude.{◌≡◌, ◌↔◌, ◌≤◌, ℕ, Bool, IfOk, IsTrue, List, Option, Result};
ghost use Rattle.std.specs.Prelude.{false, length, max, true};
ghost use Rattle.dr_ledger.specs.declared.fault.LedgerFault.{LedgerFault as Fault};
ghost use Rattle.dr_run_serve.specs.Dues.{due_of};
ghost use Rattle.dr_run_serve.specs.Rests.{IsNoRest, IsVisited, rest_end};
ghost use Rattle.dr_run_serve.specs.Sendings.{ComesBack, EndsLooking, IsHeeded, IsTold, Looks};
ghost use Rattle.dr_run_serve.specs.Sendings.{LooksOnce, Sends, SendsOrRests, TellsDue, VisitsAt};
ghost use Rattle.dr_run_serve.specs.Sendings.{VisitsBy};
ghost use Rattle.dr_run_serve.specs.Sweeps.{Chain};
ghost use Rattle.dr_run_serve.specs.declared.signal.WakeUp.{WakeUp as CallValue};

use crate::calling::Calling;
use crate::ends::VisitEnd;
use crate::events::{tell_visit, tell_visit_fault};
use crate::live::LiveNode;
use crate::rest::Rest;
use crate::resting::{Noted, rest_after};
use crate::shutting::is_shut;
use crate::signal::{BEGIN, Bell, WakeUp};
use crate::tallied::{SharedPort, Tallied};
use crate::visit::{Visit, visit_hop};
use dr_base::Text;
use dr_desk::{Pass, SharedDesk, Sharing};
use dr_ledger::{Ledger, LedgerFault};
use dr_ledger_views::Views;
use dr_run_net::Network;
use dr_run_open::NextHop;
use dr_session::{Clock, DeskPort};
use log::Log;
use std::alloc::AllocError;
use std::sync::Wait;
use std::time;

/// No row waits.
const NEVER: u64 = u64::MAX;

/// No sleep is longer, in milliseconds.
const LONGEST: u64 = 60_000;

/// One who sends to a hop, with a pass of its own, and how long it leaves the hop alone. Its hop
/// has the moment from which on a row is due, as far as it knows.
#[derive(Drop)]
pub struct HopSender<B: Sharing> {
    pub pass: Pass<B>,
    pub hop: NextHop,
    pub rest: Rest,
}

impl<B: Sharing> HopSender<B> {
    /// One who has not looked yet.
    ///
    /// Errors: want of memory.
    pub fn new(pass: Pass<B>, hop: &NextHop) -> Result<HopSender<B>, AllocError>
        ensures { IfOk result (λ sender. (sender.pass ≡ pass)
            × (sender.hop.dest ≡ hop.now.dest)
            × (sender.hop.address ≡ hop.now.address)
            × (sender.hop.due ≡ 0)
            × IsNoRest sender.rest) }
    {
        let dest = hop.dest.clone()?;
        let address = hop.address.clone()?;
        Ok(HopSender {
            pass,
            hop: NextHop {
                dest,
                address,
                due: 0,
            },
            rest: Rest::none(),
        })
    }
}

/// From which moment on the first of the rows that wait for the destination is due; the last moment
/// of all where none waits.
///
/// Errors: Store, Memory.
fn next_due<R: Wait, L: Views, B: Sharing>(
    rt: &R,
    desk: &SharedDesk<L, B>,
    dest: &Text,
) -> Result<u64, LedgerFault>
    ensures { (found : Result (Option ℕ) Fault)
        × TellsDue L.site L.book L.bodies L.stands L.failed B.site B.first dest.now found
        × (result ≡ due_of found) }
{
    match desk.first_due(rt, dest) {
        Ok(Some(due)) => Ok(due),
        Ok(None) => Ok(NEVER),
        Err(fault) => Err(fault),
    }
}

/// A visit to the hop on the shared desk: what came of it, and what was noted of its calls.
fn visit_on<'a, R: Wait, L: Ledger, B: Sharing, N: Network, C: Clock, G: Log>(
    node: &LiveNode<'a, R, L, B, C, G>,
    network: &N,
    pass: &mut Pass<B>,
    hop: &NextHop,
) -> (Result<Visit, LedgerFault>, Noted)
    ensures { VisitsAt (N.connects network.now) N.Socket.hears N.Socket.sends N.Socket.closes
        ⟦<SharedPort<'a, R, L, B, G> as DeskPort>⟧.step
        ⟦<SharedPort<'a, R, L, B, G> as Tallied>⟧.finds
        (C.tells node.now.clock.now) node.now.desk.now.site
        (λ port. port.pass.now.made.count) (λ port. port.pass.now.receipts.items)
        (λ port. port.passed) hop.now.dest hop.now.address result.0 result.1 }
{
    let (rt, desk, log) = (node.rt, node.desk, node.log);
    let before = pass.count();
    let mut port = SharedPort {
        rt,
        desk,
        pass,
        signal: node.signal,
        log,
        passed: false,
    };
    let visited = visit_hop(node.alloc, desk.site(), hop, network, &mut port, node.clock);
    let settled = port.tally().saturating_sub(before);
    let passed = port.passed;
    (visited, Noted { settled, passed })
}

/// A visit came to that fault: it is told, or, where the store is shut, answered as one that
/// failed. Who ends the node tells that the store is shut.
fn fault_of<R: Wait, L: Ledger, B: Sharing, C: Clock, G: Log>(
    node: &LiveNode<'_, R, L, B, C, G>,
    dest: &Text,
    fault: LedgerFault,
    settled: u64,
) -> LedgerFault
    ensures { IsTold L.site L.book L.bodies L.stands L.failed B.site B.first fault result }
{
    if is_shut(node.rt, node.desk) {
        return LedgerFault::Store;
    }
    tell_visit_fault(node.log, dest, fault, settled);
    fault
}

/// A visit of the one who sends: what came of it, and what was noted of its calls.
///
/// Errors: those of a visit; Store where the store is shut.
fn visit<R: Wait, L: Ledger, B: Sharing, N: Network, C: Clock, G: Log>(
    node: &LiveNode<'_, R, L, B, C, G>,
    network: &N,
    pass: &mut Pass<B>,
    hop: &NextHop,
) -> Result<(Visit, Noted), LedgerFault>
    ensures { ComesBack
        (VisitsBy L.site L.book L.bodies L.stands L.failed B.site B.first
        (N.connects network.now) N.Socket.hears N.Socket.sends N.Socket.closes
        (C.tells node.now.clock.now) node.now.desk.now.site hop.now.dest hop.now.address)
        (IsTold L.site L.book L.bodies L.stands L.failed B.site B.first) result }
{
    let (visited, noted) = visit_on(node, network, pass, hop);
    match visited {
        Ok(visit) => {
            tell_visit(node.log, &hop.dest, &visit, noted.settled);
            Ok((visit, noted))
        }
        Err(fault) => Err(fault_of(node, &hop.dest, fault, noted.settled)),
    }
}

/// Visits the hop, and notes when it is to be visited again. How the visit ended.
///
/// Errors: those of a visit.
fn send<R: Wait, L: Views, B: Sharing, N: Network, C: Clock, G: Log>(
    node: &LiveNode<'_, R, L, B, C, G>,
    network: &N,
    sender: &mut HopSender<B>,
) -> Result<Option<VisitEnd>, LedgerFault>
    ensures sends { Sends
        (VisitsBy L.site L.book L.bodies L.stands L.failed B.site B.first
        (N.connects network.now) N.Socket.hears N.Socket.sends N.Socket.closes
        (C.tells node.now.clock.now) node.now.desk.now.site
        sender.old.hop.dest sender.old.hop.address)
        (IsTold L.site L.book L.bodies L.stands L.failed B.site B.first)
        (TellsDue L.site L.book L.bodies L.stands L.failed B.site B.first sender.old.hop.dest)
        (C.tells node.now.clock.now) sender.old.rest result sender.new.rest sender.new.hop.due }
    ensures hop { (sender.new.hop.dest ≡ sender.old.hop.dest)
        × (sender.new.hop.address ≡ sender.old.hop.address) }
{
    let HopSender { pass, hop, rest } = sender;
    let (visit, noted) = match visit(node, network, pass, hop) {
        Ok(came) => came,
        Err(fault) => return Err(fault),
    };
    *rest = rest_after(*rest, &visit, noted, node.clock.now());
    let due = match next_due(node.rt, node.desk, &hop.dest) {
        Ok(due) => due,
        Err(why) => return Err(why),
    };
    hop.due = due;
    Ok(VisitEnd::of(&visit))
}

/// The same, and where that failed the hop is looked at again 1 s later, since it isn't known what
/// is due.
fn send_or_rest<R: Wait, L: Views, B: Sharing, N: Network, C: Clock, G: Log>(
    node: &LiveNode<'_, R, L, B, C, G>,
    network: &N,
    sender: &mut HopSender<B>,
) -> Option<VisitEnd>
    ensures sends { SendsOrRests
        (VisitsBy L.site L.book L.bodies L.stands L.failed B.site B.first
        (N.connects network.now) N.Socket.hears N.Socket.sends N.Socket.closes
        (C.tells node.now.clock.now) node.now.desk.now.site
        sender.old.hop.dest sender.old.hop.address)
        (IsTold L.site L.book L.bodies L.stands L.failed B.site B.first)
        (TellsDue L.site L.book L.bodies L.stands L.failed B.site B.first sender.old.hop.dest)
        (C.tells node.now.clock.now) sender.old.rest result sender.new.rest sender.new.hop.due }
    ensures hop { (sender.new.hop.dest ≡ sender.old.hop.dest)
        × (sender.new.hop.address ≡ sender.old.hop.address) }
{
    match send(node, network, sender) {
        Ok(came) => {
            if came.is_some() {
                node.signal.recover();
            }
            came
        }
        Err(_fault) => {
            sender.hop.due = 0;
            sender.rest = Rest::none().lengthened(node.clock.now());
            node.signal.doubt(node.rt);
            Some(VisitEnd::Ledger)
        }
    }
}

/// When the hop is to be visited again: as soon as a row is due and its rest is over.
fn next_visit<B: Sharing>(sender: &HopSender<B>) -> u64
    ensures { result ≡ max sender.now.hop.due (rest_end sender.now.rest) }
{
    sender.hop.due.max(sender.rest.until())
}

/// Whether the hop is visited at that moment, or it is the last visit of all.
fn is_visited<B: Sharing>(sender: &HopSender<B>, last: bool, now: u64) -> bool
    ensures { IsTrue result ↔ IsVisited sender.now.hop.due sender.now.rest last now }
{
    last || next_visit(sender) <= now
}

/// A row may have been made for the hop: that is looked up, and its rest is short.
fn wake<B: Sharing>(sender: &mut HopSender<B>)
    ensures { (sender.new.hop.due ≡ 0)
        × (sender.new.hop.dest ≡ sender.old.hop.dest)
        × (sender.new.hop.address ≡ sender.old.hop.address)
        × (sender.new.rest.since ≡ sender.old.rest.since)
        × (sender.new.rest.wait ≡ sender.old.rest.wait)
        × (sender.new.rest.short ≡ true) }
{
    sender.hop.due = 0;
    sender.rest = sender.rest.shortened();
}

/// Somebody wants a visit now: what is due is looked up, and its rest is over.
fn hurry<B: Sharing>(sender: &mut HopSender<B>)
    ensures { (sender.new.hop.due ≡ 0)
        × (sender.new.hop.dest ≡ sender.old.hop.dest)
        × (sender.new.hop.address ≡ sender.old.hop.address)
        × (sender.new.rest.since ≡ 0)
        × (sender.new.rest.wait ≡ sender.old.rest.wait)
        × (sender.new.rest.short ≡ sender.old.rest.short) }
{
    sender.hop.due = 0;
    sender.rest = sender.rest.ended();
}

/// What it was called for is heeded.
fn heed<B: Sharing>(sender: &mut HopSender<B>, call: WakeUp)
    ensures heeds { IsHeeded call.rows call.visit (sender.old.rest, sender.old.hop.due)
        (sender.new.rest, sender.new.hop.due) }
    ensures hop { (sender.new.hop.dest ≡ sender.old.hop.dest)
        × (sender.new.hop.address ≡ sender.old.hop.address) }
{
    if call.rows {
        wake(sender);
    }
    if call.visit {
        hurry(sender);
    }
}

/// What it was called for is heeded, and the hop is visited then, where a row is due and its rest
/// is over, or for the last time. Whether it was.
fn look<R: Wait, L: Views, B: Sharing, N: Network, C: Clock, G: Log>(
    node: &LiveNode<'_, R, L, B, C, G>,
    network: &N,
    sender: &mut HopSender<B>,
    bell: &Bell,
    call: WakeUp,
) -> bool
    ensures looks { Looks
        (VisitsBy L.site L.book L.bodies L.stands L.failed B.site B.first
        (N.connects network.now) N.Socket.hears N.Socket.sends N.Socket.closes
        (C.tells node.now.clock.now) node.now.desk.now.site
        sender.old.hop.dest sender.old.hop.address)
        (IsTold L.site L.book L.bodies L.stands L.failed B.site B.first)
        (TellsDue L.site L.book L.bodies L.stands L.failed B.site B.first sender.old.hop.dest)
        (C.tells node.now.clock.now) call.rows call.visit call.over
        (sender.old.rest, sender.old.hop.due) result (sender.new.rest, sender.new.hop.due) }
    ensures hop { (sender.new.hop.dest ≡ sender.old.hop.dest)
        × (sender.new.hop.address ≡ sender.old.hop.address) }
{
    heed(sender, call);
    if !is_visited(sender, call.over, node.clock.now()) {
        return false;
    }
    bell.begin_visit(node.rt);
    let came = send_or_rest(node, network, sender);
    bell.end_visit(node.rt, came, node.clock.now());
    true
}

/// Visits the hop as often as there is something to send, until no worker is left; then there is
/// one last visit. Where no worker ever begins, nothing is sent; where the node ends in order, or
/// its store is shut, nothing more.
pub fn send_rows<
    R: Wait + time::Clock,
    L: Views,
    B: Sharing,
    N: Network,
    C: Clock,
    G: Log,
    W: Calling,
>(
    node: &LiveNode<'_, R, L, B, C, G>,
    network: &N,
    sender: &mut HopSender<B>,
    number: usize,
    calling: &W,
)
    ensures { (each : List (CallValue × Bool))
        × Chain (LooksOnce
        (VisitsBy L.site L.book L.bodies L.stands L.failed B.site B.first
        (N.connects network.now) N.Socket.hears N.Socket.sends N.Socket.closes
        (C.tells node.now.clock.now) node.now.desk.now.site
        sender.old.hop.dest sender.old.hop.address)
        (IsTold L.site L.book L.bodies L.stands L.failed B.site B.first)
        (TellsDue L.site L.book L.bodies L.stands L.failed B.site B.first sender.old.hop.dest)
        (C.tells node.now.clock.now) (W.calls calling.now number)) each
        (sender.old.rest, sender.old.hop.due) (sender.new.rest, sender.new.hop.due)
        × EndsLooking (length node.now.signal.now.bells.items ≤ number)
        (W.begins calling.now false) (W.ends calling.now true) each }
{
    let (rt, signal, clock) = (node.rt, node.signal, node.clock);
    signal.count_sender(rt);
    let Some(bell) = signal.bell(number) else {
        return;
    };
    if !calling.begun(BEGIN) {
        return;
    }
    let mut sleep = 0;
    for _look in rt.forever() {
        let call = calling.call(number, sleep);
        if calling.ending() {
            return;
        }
        bell.look(rt, clock.now());
        let _visited = look(node, network, sender, bell, call);
        if call.over {
            return;
        }
        sleep = next_visit(sender).saturating_sub(clock.now()).min(LONGEST);
    }
}
