//! A node that serves associations and sends what is due.
ghost use denote.Param.Send.{IsSend, IsSync};
ghost use Rattle.std.specs.Prelude.{◌≡◌, IfOk, IsErr, IsTrue};
ghost use Rattle.dr_desk.specs.Growing.{BeginWith};
ghost use Rattle.dr_ledger.specs.Histories.{IsJournalled};
ghost use Rattle.dr_ledger.specs.SiteRoutes.{site_routing};

use crate::calling::SignalCalling;
use crate::control::{AGAIN, answer_all, passes_of};
use crate::events::{tell_came, tell_threads, tell_unaccepted};
use crate::keeper::keep;
use crate::live::{LiveNode, Means};
use crate::monitor::Monitor;
use crate::sender::{HopSender, send_rows};
use crate::shutting::Wake;
use crate::signal::{BEGIN, Signal};
use crate::stop::Terms;
use crate::watch::Watch;
use crossbeam_channel::{Receiver, Sender, bounded};
use dr_desk::{CloseFault, Desk, Pass, SharedDesk, Sharing};
use dr_desk_workers::{Connection, WorkersFault, workers};
use dr_ledger::{Ledger, LedgerFault};
use dr_ledger_timed::{Meter, Timed};
use dr_ledger_views::Views;
use dr_run_net::{Listening, Network};
use dr_run_open::NextHop;
use dr_session::{Clock, Link};
use dr_site::Site;
use log::Log;
use std::alloc::{AllocError, AllocFailed, Global};
use std::marker::Brand;
use std::sync::Wait;
use std::sync::ledger::Blank;
use std::thread::Threads;
use std::time::Duration;
use std::{thread, time};
use thiserror::Error;

/// How many connections wait for one of them; others wait to be accepted.
const QUEUE: usize = 256;

/// Why serving ended otherwise than well.
#[derive(Clone, Copy, Debug, Error)]
pub enum ServeFault {
    /// A receipt doesn't agree with the journal.
    #[error("J1 Receipt")]
    Receipt,
    #[error("G3 Store")]
    Store,
    #[error("Memory")]
    Memory,
}

impl From<AllocError> for ServeFault {
    fn from(_: AllocError) -> ServeFault {
        ServeFault::Memory
    }
}

impl<T: Drop> From<AllocFailed<T>> for ServeFault {
    fn from(_: AllocFailed<T>) -> ServeFault {
        ServeFault::Memory
    }
}

/// The clock of all connections.
#[derive(Drop)]
pub struct ClockOf<'a, C: Clock>(pub &'a C);

impl<'a, C: Clock> Clock for ClockOf<'a, C> {
    ghost tells = { λ s now. C.tells s.0.now now };

    fn now(&self) -> u64 {
        self.0.now()
    }
}

/// Accepts so many connections, or, for 0, each that comes, and hands them to the workers, until
/// the node comes to its end. Of accepts that fail one after the
/// other the first is told. Says whether there were workers: where the system gave no thread for
/// them it accepts nothing.
fn accept_links<
    'a,
    R: Wait + time::Clock,
    K: Link + Drop,
    D: Listening<Socket = K>,
    C: Clock,
    G: Log,
>(
    rt: &R,
    listener: &D,
    to: Sender<Connection<K, ClockOf<'a, C>>>,
    links: u64,
    signal: &Signal,
    clock: &'a C,
    log: &G,
) -> bool {
    if !signal.has_begun(rt, BEGIN) {
        tell_threads(log, "serve", 1, 0);
        return false;
    }
    let (mut count, mut is_failing) = (0u64, false);
    for _ in rt.forever() {
        if links != 0 && count >= links {
            return true;
        }
        let came = listener.accept();
        if signal.is_ending() {
            return true;
        }
        let link = match came {
            Ok(link) => link,
            Err(error) => {
                if !is_failing {
                    tell_unaccepted(log, &error);
                }
                is_failing = true;
                thread::sleep(rt, Duration::from_millis(AGAIN));
                continue;
            }
        };
        is_failing = false;
        count = count.saturating_add(1);
        let peer = listener.peer(&link);
        signal.open.came(rt, count, peer);
        tell_came(log, count, peer);
        let connection = Connection {
            session: count,
            link,
            clock: ClockOf(clock),
        };
        if to.send(rt, connection).is_err() {
            return true;
        }
    }
    true
}

/// What those who serve come back with, and those who send; and the pass of the one who sweeps.
type Came<B> = (
    Result<Vec<Pass<B>>, WorkersFault>,
    (Vec<HopSender<B>>, Pass<B>),
);

/// All that came back of those who served: their passes, those who sent, the pass of the one who
/// swept, and those of the ones who were asked.
#[derive(Drop)]
struct Served<B: Sharing> {
    served: Result<Vec<Pass<B>>, WorkersFault>,
    senders: Vec<HopSender<B>>,
    swept: Pass<B>,
    asked: Vec<Pass<B>>,
}

/// A node that serves: as all of its threads share it, what it is woken by and what is ended where
/// it ends, and on what terms it serves.
#[derive(Drop)]
struct ServingNode<'a, R: Wait, L: Ledger, B: Sharing, D: Listening, N: Network, C: Clock, G: Log> {
    live: LiveNode<'a, R, L, B, C, G>,
    wake: Wake<'a, D, N>,
    terms: Terms<'a>,
}

impl<
    'a,
    R: Threads + Wait + Sync + time::Clock,
    L: Views + Drop + Send,
    B: Sharing + Send + Sync,
    D: Listening + Sync,
    N: Network + Sync,
    C: Clock + Sync,
    G: Monitor + Sync,
> ServingNode<'a, R, L, B, D, N, C, G>
where
    D::Socket: Send,
    N::Socket: Send,
    N::Listener: Sync,
{
    /// Works until the channel is closed and empty. Where the workers can't begin, nobody receives
    /// any more.
    fn work(
        &self,
        from: Receiver<Connection<D::Socket, ClockOf<'a, C>>>,
        watch: &Watch<'_, R, C, G>,
    ) -> Result<Vec<Pass<B>>, WorkersFault> {
        let (rt, alloc, desk, terms) = (self.live.rt, self.live.alloc, self.live.desk, self.terms);
        watch.signal.begin(rt);
        let passes = workers(rt, alloc, terms.workers(), terms.memory, &from, desk, watch);
        drop(from);
        watch.signal.end(rt);
        passes
    }

    /// Accepts and serves connections, and tells the signal when there is nothing left to serve.
    fn serve_links(&self) -> Result<Vec<Pass<B>>, WorkersFault> {
        let (rt, alloc, signal) = (self.live.rt, self.live.alloc, self.live.signal);
        let (clock, log) = (self.live.clock, self.live.log);
        let (listener, links) = (self.wake.listener, self.terms.links);
        let Ok((to, from)) = bounded(alloc, QUEUE) else {
            signal.end(rt);
            return Err(WorkersFault::Memory);
        };
        let watch = Watch {
            rt,
            alloc,
            signal,
            clock,
            log,
            node: self.live.desk.site().name(),
            request: self.terms.request(),
        };
        let (passes, has_served) = thread::join(
            rt,
            ||
                requires { IsSync R.row × IsSend L.row × IsSend B.row × IsSync B.row
                    × IsSend D.Socket.row × IsSync D.row × IsSync N.row × IsSend N.Socket.row
                    × IsSync N.Listener.row × IsSync C.row × IsSync G.row }
            { self.work(from, &watch) },
            || accept_links(rt, listener, to, links, signal, clock, log),
        );
        if has_served {
            passes
        } else {
            Err(WorkersFault::Memory)
        }
    }

    /// Sends to each hop, in a thread of its own, as long as somebody serves.
    fn send_all(&self, senders: Vec<HopSender<B>>) -> Vec<HopSender<B>> {
        let (node, network) = (&self.live, self.wake.network);
        let mut senders = senders;
        let count = senders.len();
        if count > 0 {
            thread::for_each_mut(
                node.rt,
                senders.as_mut_slice(),
                count,
                &|number, sender| {
                    let (rt, signal) = (node.rt, node.signal);
                    let calling = SignalCalling { rt, signal };
                    send_rows(node, network, sender, number, &calling)
                },
            );
        }
        node.signal.end_sending(node.rt);
        senders
    }

    /// Sends, and tells of the node, side by side.
    fn send_and_keep(
        &self,
        senders: Vec<HopSender<B>>,
        swept: Pass<B>,
    ) -> (Vec<HopSender<B>>, Pass<B>) {
        let (node, wake, count) = (&self.live, &self.wake, senders.len());
        let after = self.terms.forget_after;
        thread::join(
            node.rt,
            ||
                requires { IsSync R.row × IsSend L.row × IsSend B.row × IsSync B.row
                    × IsSend D.Socket.row × IsSync D.row × IsSync N.row × IsSend N.Socket.row
                    × IsSync N.Listener.row × IsSync C.row × IsSync G.row }
            { self.send_all(senders) },
            || {
                let (rt, signal) = (node.rt, node.signal);
                let calling = SignalCalling { rt, signal };
                keep(node, count, swept, after, wake, &calling)
            },
        )
    }

    /// Serves, sends and tells of the node, side by side; the passes of those who serve, those who
    /// send, and the pass of the one who sweeps. When that is over, nobody may ask any more.
    fn serve_and_send(&self, senders: Vec<HopSender<B>>, swept: Pass<B>) -> Came<B> {
        let came = thread::join(
            self.live.rt,
            ||
                requires { IsSync R.row × IsSend L.row × IsSend B.row × IsSync B.row
                    × IsSend D.Socket.row × IsSync D.row × IsSync N.row × IsSend N.Socket.row
                    × IsSync N.Listener.row × IsSync C.row × IsSync G.row }
            { self.serve_links() },
            ||
                requires { IsSync R.row × IsSend L.row × IsSend B.row × IsSync B.row
                    × IsSend D.Socket.row × IsSync D.row × IsSync N.row × IsSend N.Socket.row
                    × IsSync N.Listener.row × IsSync C.row × IsSync G.row }
            { self.send_and_keep(senders, swept) },
        );
        if let Some(port) = self.terms.control {
            port.close();
        }
        came
    }

    /// Serves and sends, and answers who asks, side by side.
    fn serve_all(
        &self,
        senders: Vec<HopSender<B>>,
        swept: Pass<B>,
        asked: Vec<Pass<B>>,
    ) -> Served<B> {
        let (node, terms, since) = (&self.live, self.terms, self.live.clock.now());
        let ((served, (senders, swept)), asked) = thread::join(
            node.rt,
            ||
                requires { IsSync R.row × IsSend L.row × IsSend B.row × IsSync B.row
                    × IsSend D.Socket.row × IsSync D.row × IsSync N.row × IsSend N.Socket.row
                    × IsSync N.Listener.row × IsSync C.row × IsSync G.row }
            { self.serve_and_send(senders, swept) },
            ||
                requires { IsSync R.row × IsSend L.row × IsSend B.row × IsSync B.row × IsSync C.row
                    × IsSync G.row }
            { answer_all(node, asked, since, terms) },
        );
        Served {
            served,
            senders,
            swept,
            asked,
        }
    }
}

/// One who sends for each hop, each with a pass of its own.
///
/// Errors: TooManyPasses, Memory.
fn senders_of<R: Wait, L: Views, B: Sharing>(
    rt: &R,
    alloc: Global,
    desk: &SharedDesk<L, B>,
    hops: &[NextHop],
) -> Result<Vec<HopSender<B>>, WorkersFault> {
    let mut senders = Vec::with_capacity(alloc, hops.len())?;
    for hop in hops {
        let pass = desk.pass(rt, alloc)?;
        let sender = HopSender::new(pass, hop)?;
        if senders.push(sender).is_err() {
            return Err(WorkersFault::Memory);
        }
    }
    Ok(senders)
}

/// The passes of those who served, of those who sent, and that of the one who swept.
///
/// Errors: Memory.
fn with_senders<B: Sharing>(
    passes: Result<Vec<Pass<B>>, WorkersFault>,
    senders: Vec<HopSender<B>>,
    swept: Pass<B>,
) -> Result<Vec<Pass<B>>, ServeFault> {
    let Ok(passes) = passes else {
        drop(senders);
        drop(swept);
        return Err(ServeFault::Memory);
    };
    let mut passes = passes;
    passes.push(swept)?;
    for sender in senders {
        let HopSender { pass, .. } = sender;
        passes.push(pass)?;
    }
    Ok(passes)
}

/// These passes, and those of the ones who were asked.
///
/// Errors: Memory.
fn with_asked<B: Sharing>(
    passes: Result<Vec<Pass<B>>, ServeFault>,
    asked: Vec<Pass<B>>,
) -> Result<Vec<Pass<B>>, ServeFault> {
    let mut passes = match passes {
        Ok(passes) => passes,
        Err(fault) => {
            drop(asked);
            return Err(fault);
        }
    };
    for pass in asked {
        passes.push(pass)?;
    }
    Ok(passes)
}

/// All passes, where those of the ones who serve came back, and the store isn't shut.
fn all_passes<B: Sharing>(came: Served<B>, is_shut: bool) -> Result<Vec<Pass<B>>, ServeFault>
    ensures { IsTrue is_shut → IsErr result }
{
    if is_shut {
        drop(came);
        return Err(ServeFault::Store);
    }
    let Served {
        served,
        senders,
        swept,
        asked,
    } = came;
    with_asked(with_senders(served, senders, swept), asked)
}

/// The desk is no longer shared.
fn closed<L: Views + Drop, B: Sharing>(
    alloc: Global,
    desk: SharedDesk<L, B>,
    passes: Vec<Pass<B>>,
) -> Result<L, ServeFault>
    requires { B.all ≡ B.parts }
    ensures begins { IfOk result (λ l. L.stands l → BeginWith B.first (L.book l).lines) }
    ensures history { IfOk result (λ l.
        L.stands l → ∥ IsJournalled (site_routing B.site) (L.book l) ∥₁) }
    ensures of { IfOk result (λ l. L.site l ≡ B.site) }
{
    match desk.close(alloc, passes) {
        Ok(closed) => Ok(closed.desk.into_ledger()),
        Err(open) => Err(fault_of(open.fault)),
    }
}

/// Why a sharing didn't end.
fn fault_of(fault: CloseFault) -> ServeFault {
    match fault {
        CloseFault::Receipt(_) => ServeFault::Receipt,
        CloseFault::Store => ServeFault::Store,
        CloseFault::Memory => ServeFault::Memory,
    }
}

/// How a node is to serve: by what it waits, to which hops it sends, on what terms it serves, by
/// what means, and what times the calls of its ledger. All that it borrows is of one lifetime: the
/// ledger that is shared names it.
#[derive(Drop)]
struct Deployment<'a, R, D, N, C, G> {
    rt: &'a R,
    alloc: Global,
    hops: Vec<NextHop>,
    terms: Terms<'a>,
    means: Means<'a, D, N, C, G>,
    meter: &'a Meter,
}

impl<
    'a,
    R: Threads + Wait + Sync + time::Clock,
    D: Listening + Sync,
    N: Network + Sync,
    C: Clock + Sync,
    G: Monitor + Sync,
> Deployment<'a, R, D, N, C, G>
where
    D::Socket: Send,
    N::Socket: Send,
    N::Listener: Sync,
{
    /// Serves and sends on a shared desk; all passes that were made of it.
    ///
    /// Errors: Store, Memory.
    fn serve_by<L: Views + Drop + Send, B: Sharing + Send + Sync>(
        &self,
        desk: &SharedDesk<L, B>,
    ) -> Result<Vec<Pass<B>>, ServeFault> {
        let (rt, alloc, hops) = (self.rt, self.alloc, self.hops.as_slice());
        let (terms, means) = (self.terms, self.means);
        let signal = Signal::new(alloc, hops, terms.forget_after.is_some())?;
        let Ok(senders) = senders_of(rt, alloc, desk, hops) else {
            return Err(ServeFault::Memory);
        };
        let Ok(swept) = desk.pass(rt, alloc) else {
            drop(senders);
            return Err(ServeFault::Memory);
        };
        let Ok(asked) = passes_of(rt, alloc, desk, terms.control) else {
            drop(senders);
            drop(swept);
            return Err(ServeFault::Memory);
        };
        let live = LiveNode {
            rt,
            alloc,
            desk,
            hops,
            signal: &signal,
            meter: self.meter,
            clock: means.clock,
            log: means.log,
        };
        let wake = Wake {
            signal: &signal,
            listener: means.listener,
            network: means.network,
            stop: terms.stop,
        };
        let node = ServingNode { live, wake, terms };
        let came = node.serve_all(senders, swept, asked);
        all_passes(came, signal.is_shut())
    }

    /// Serves and sends on a shared desk, and ends the sharing.
    fn serve_shared<L: Views + Drop + Send, B: Sharing + Send + Sync>(
        self,
        desk: SharedDesk<L, B>,
    ) -> Result<L, ServeFault>
        requires { B.all ≡ B.parts }
        ensures begins { IfOk result (λ l. L.stands l → BeginWith B.first (L.book l).lines) }
        ensures history { IfOk result (λ l.
            L.stands l → ∥ IsJournalled (site_routing B.site) (L.book l) ∥₁) }
        ensures of { IfOk result (λ l. L.site l ≡ B.site) }
    {
        let (alloc, came) = (self.alloc, self.serve_by(&desk));
        drop(self);
        match came {
            Ok(passes) => closed(alloc, desk, passes),
            Err(fault) => {
                drop(desk);
                Err(fault)
            }
        }
    }

    /// Shares a ledger's desk, and serves and sends on it.
    fn share<L: Views + Drop + Send, B: Sharing + Send + Sync>(
        self,
        ledger: L,
        site: Site,
        blank: Blank,
    ) -> Result<L, ServeFault>
        requires blank { (blank.name ≡ B.name) × (blank.parts ≡ B.parts) × (B.all ≡ B.parts)
            × (B.all ≡ 65536) }
        requires first { B.first ≡ (L.book ledger).lines }
        requires site { (L.site ledger ≡ site) × (B.site ≡ site) }
        ensures begins { IfOk result (λ l. L.stands l → BeginWith B.first (L.book l).lines) }
        ensures history { IfOk result (λ l.
            L.stands l → ∥ IsJournalled (site_routing B.site) (L.book l) ∥₁) }
        ensures of { IfOk result (λ l. L.site l ≡ B.site) }
    {
        let desk: SharedDesk<L, B> = match SharedDesk::new(Desk::new(ledger), site, blank) {
            Ok(desk) => desk,
            Err((LedgerFault::Memory, _)) => return Err(ServeFault::Memory),
            Err(_) => return Err(ServeFault::Store),
        };
        self.serve_shared(desk)
    }

    /// Serves and sends on a ledger whose calls are timed.
    fn serve_timed<L: Views + Drop + Send>(self, ledger: L, site: Site) -> Result<L, ServeFault>
        requires { L.site ledger ≡ site }
        ensures begins { IfOk result (λ l.
            L.stands l → BeginWith (L.book ledger).lines (L.book l).lines) }
        ensures history { IfOk result (λ l.
            L.stands l → ∥ IsJournalled (site_routing site) (L.book l) ∥₁) }
        ensures of { IfOk result (λ l. L.site l ≡ site) }
    {
        let now = self.means.clock.now();
        let timed = Timed::new(ledger, self.rt, self.meter, now);
        let blank = Blank::new(65_536);
        match self.share::<Timed<'a, L, R>, Brand>(timed, site, blank) {
            Ok(timed) => Ok(timed.into_ledger()),
            Err(fault) => Err(fault),
        }
    }
}

/// Serves the associations that are asked for at a listener, each in a thread of its own, 256 at a
/// time if the terms give 264 threads, and sends what is due, in a thread for each hop: a hop that
/// fails or hangs delays no other. A hop at which a visit failed is left alone, 1 s at first and
/// 300 s at most; where a row was made for it meanwhile, 5 s at most. It ends after so many
/// connections (for 0 never), when these are served and each hop was visited a last time, and gives
/// the ledger back: its journal begins with the lines that it had, and is a history of the node's
/// site. Events are logged as they happen; where reports are wanted, one is written at the start,
/// every ten seconds if something has changed, and at the end. Where the store of the ledger is
/// shut, that is logged once, and serving ends as soon as the sessions do. What has been over for
/// as long as the terms say is forgotten. Where its end is asked
/// for, no association is begun any more; what is under way has 10 s, then its connections are cut.
///
/// Errors: Receipt, Store, Memory.
pub fn serve<
    R: Threads + Wait + Sync + time::Clock,
    L: Views + Drop + Send,
    K: Link + Drop + Send,
    D: Listening<Socket = K> + Sync,
    N: Network + Sync,
    C: Clock + Sync,
    G: Monitor + Sync,
>(
    rt: &R,
    alloc: Global,
    ledger: L,
    site: Site,
    hops: Vec<NextHop>,
    terms: Terms<'_>,
    means: Means<'_, D, N, C, G>,
) -> Result<L, ServeFault>
where
    N::Socket: Send,
    N::Listener: Sync,
    requires { L.site ledger ≡ site }
    ensures begins { IfOk result (λ l.
        L.stands l → BeginWith (L.book ledger).lines (L.book l).lines) }
    ensures history { IfOk result (λ l.
        L.stands l → ∥ IsJournalled (site_routing site) (L.book l) ∥₁) }
    ensures of { IfOk result (λ l. L.site l ≡ site) }
{
    let meter = Meter::new();
    let deployment = Deployment {
        rt,
        alloc,
        hops,
        terms,
        means,
        meter: &meter,
    };
    deployment.serve_timed(ledger, site)
}
