//! The control connection of a node that runs: who asks over it what the node has, and tells it to
//! act.
ghost use Rattle.std.specs.Prelude.{◌≡◌};

use crate::caller::{ASKED, CallerInput, Outgoing, drain};
use crate::copying::{Copied, Copier};
use crate::events::{tell_act, tell_copied, tell_refused, tell_told_to_stop, tell_uncopied};
use crate::live::LiveNode;
use crate::monitor::Monitor;
use crate::signal::Signal;
use crate::stop::{StopSign, Terms};
use dr_base::Text;
use dr_desk::{Pass, SharedDesk, Sharing};
use dr_desk_workers::WorkersFault;
use dr_ledger::{Ledger, LedgerFault};
use dr_ledger_timed::Meter;
use dr_ledger_views::Views;
use dr_run_answer::{Visited, Visits};
use dr_run_backup::BackupFault;
use dr_run_control::{Around, Console, House, RowSearch, talk};
use dr_run_request::{Access, Browser, Order, Refused};
use dr_session::Clock;
use std::alloc::{AllocError, Global};
use std::hash::{BuildHasher, RandomState};
use std::net::{Shutdown, TcpListener, TcpStream};
use std::os::fd::OwnedFd;
use std::sync::Wait;
use std::sync::atomic::{AtomicBool, Ordering};
use std::thread::Threads;
use std::time::Duration;
use std::{slice, thread, time};

/// So many may ask at the same time; others wait to be accepted.
pub const CALLERS: usize = 16;

/// After an accept that failed (no descriptor is free, say) it is tried again so many milliseconds
/// later.
pub const AGAIN: u64 = 100;

/// After a caller that was refused, or sent no request, the next one waits for so many
/// milliseconds, so that who sends such requests without end takes little of the node's time.
const REST: u64 = 100;

/// What listens for those who ask, what they may, and the version that they are told.
#[derive(Drop)]
pub struct ControlPort {
    listener: TcpListener,
    keys: RandomState,
    access: Access,
    version: String,
    closed: AtomicBool,
}

impl ControlPort {
    /// It listens, and is open.
    pub fn new(
        listener: TcpListener,
        keys: RandomState,
        access: Access,
        version: String,
    ) -> ControlPort
        ensures { (result.access ≡ access) × (result.version ≡ version) }
    {
        ControlPort {
            listener,
            keys,
            access,
            version,
            closed: AtomicBool::new(false),
        }
    }

    /// Nobody is accepted any more: the listening socket is shut down by a second handle of it,
    /// which wakes those who wait at the first.
    pub fn close(&self) {
        self.closed.store(true, Ordering::SeqCst);
        if let Ok(listener) = self.listener.try_clone() {
            let _ended = TcpStream::from(OwnedFd::from(listener)).shutdown(Shutdown::Both);
        }
    }

    fn is_closed(&self) -> bool {
        self.closed.load(Ordering::SeqCst)
    }
}

/// The node around the desk: it wakes who sends, knows of their visits, copies the ledger, one copy
/// at a time, and is told to end.
#[derive(Drop)]
struct Home<'a, R: Wait, L: Ledger, B: Sharing, C: Clock, G: Monitor> {
    rt: &'a R,
    alloc: Global,
    desk: &'a SharedDesk<L, B>,
    signal: &'a Signal,
    meter: &'a Meter,
    stop: &'a StopSign,
    clock: &'a C,
    log: &'a G,
    since: u64,
    is_copying: AtomicBool,
}

impl<'a, R: Wait, L: Ledger, B: Sharing, C: Clock, G: Monitor> Home<'a, R, L, B, C, G> {
    /// Copies the ledger to that path, if no copy is being made.
    ///
    /// Errors: those of `BackupFault`.
    fn copy_alone(&self, path: &Text) -> Result<Copied, BackupFault> {
        if self.is_copying.swap(true, Ordering::SeqCst) {
            return Err(BackupFault::Busy);
        }
        let copier = Copier {
            rt: self.rt,
            alloc: self.alloc,
            desk: self.desk,
            signal: self.signal,
            clock: self.clock,
            log: self.log,
        };
        let came = copier.copy_to(path);
        self.is_copying.store(false, Ordering::SeqCst);
        came
    }

    /// Wakes who sends to that node, to which rows were queued again.
    fn wake_for(&self, dest: &Text) {
        self.signal.doubt_waiting(self.rt, dest);
        self.signal.ring(self.rt, Some(slice::from_ref(dest)));
    }

    /// Wakes who sends, where something was ordered that is theirs, and notes what may be over
    /// since a row was given up.
    fn wake(&self, order: &Order) {
        match order {
            Order::Requeue(row) => self.wake_for(&row.dest),
            Order::RequeueAll(dest) => self.wake_for(dest),
            Order::Visit(dest) => self.signal.hurry(self.rt, dest),
            Order::GiveUp(row) => self.signal.note_over(self.rt, &row.uid, self.clock.now()),
            Order::Forget(_) => {}
        }
    }
}

impl<'a, R: Wait, L: Ledger, B: Sharing, C: Clock, G: Monitor> House for Home<'a, R, L, B, C, G> {
    // What a file system does isn't known to contracts.
    ghost copies = { λ home path came. Unit {0} };

    fn back_up(&self, path: &Text) -> Result<(), BackupFault> {
        let began = self.clock.now();
        match self.copy_alone(path) {
            Ok(copied) => {
                let spent = self.clock.now().saturating_sub(began);
                tell_copied(self.log, path, copied, spent);
                Ok(())
            }
            Err(fault) => {
                tell_uncopied(self.log, path, fault);
                Err(fault)
            }
        }
    }

    fn acted(&self, order: &Order, reason: Option<&Text>, fault: Option<LedgerFault>) {
        match fault {
            None => self.wake(order),
            Some(LedgerFault::Store) => self.signal.doubt(self.rt),
            Some(_) => {}
        }
        tell_act(self.log, order, reason, fault);
    }

    fn stop(&self) {
        tell_told_to_stop(self.log);
        self.stop.ask();
    }

    fn refused(&self, why: Refused) {
        tell_refused(self.log, why);
    }

    fn visited(&self, dest: &Text) -> Option<Visited> {
        self.signal.visited(self.rt, dest)
    }

    fn visits(&self, dest: &Text) -> Visits {
        self.signal.visits(self.rt, dest)
    }

    fn search_rows(&self, dest: &Text) -> Result<Option<RowSearch>, AllocError> {
        self.signal.search_rows(self.rt, dest)
    }

    fn note_search(&self, dest: &Text, round: u64, last: Option<Text>) {
        self.signal.note_search(self.rt, dest, round, last);
    }

    fn note_waiting(&self, dest: &Text, uid: &Text, moment: Option<u64>) -> Result<(), AllocError> {
        let moment = moment.unwrap_or(self.since);
        self.signal.note_waiting(self.rt, dest, uid, moment)
    }

    fn note_gone(&self, dest: &Text, uid: &Text) {
        self.signal.note_gone(self.rt, dest, uid);
    }

    fn longest(&self, dest: &Text) -> Result<Option<(Text, u64)>, AllocError> {
        self.signal.longest(self.rt, dest)
    }

    fn around(&self, now: u64) -> Result<Around, AllocError> {
        let (rt, alloc) = (self.rt, self.alloc);
        Ok(Around {
            associations: self.signal.open.shown(rt, alloc)?,
            brought: self.signal.intake.brought(rt, alloc)?,
            recents: self.signal.intake.recents(rt, alloc, now)?,
            responses: self.signal.intake.responses(rt, alloc)?,
            lock: self.meter.read(),
        })
    }

    fn is_quiet(&self, dest: &Text, now: u64) -> bool {
        self.signal.is_quiet(self.rt, dest, self.since, now)
    }

    fn is_failing(&self) -> bool {
        self.signal.is_failing()
    }
}

/// A key that nobody else knows, new for each run: 32 digits.
///
/// Errors: want of memory.
fn page_key(alloc: Global, keys: RandomState) -> Result<Text, AllocError> {
    let (first, second) = (keys.hash_one(&0u8), keys.hash_one(&1u8));
    let digits = format!(in alloc; "{first:016x}{second:016x}")?;
    Ok(Text::from_vec(digits.into_bytes()))
}

/// What a browser gives that may act; None where there is no token, or no memory: then none may.
fn browser_of(alloc: Global, port: &ControlPort) -> Option<Browser> {
    let Some(token) = &port.access.token else {
        return None;
    };
    let Ok(key) = page_key(alloc, port.keys) else {
        return None;
    };
    match Browser::of(alloc, token, key) {
        Ok(browser) => Some(browser),
        Err(_) => None,
    }
}

/// Answers one who asks, and lets go of the connection. Whether it was answered well.
fn answer_caller<R: Wait, L: Views, B: Sharing, C: Clock, G: Monitor>(
    node: &LiveNode<'_, R, L, B, C, G>,
    pass: &mut Pass<B>,
    port: &ControlPort,
    browser: &Option<Browser>,
    house: &Home<'_, R, L, B, C, G>,
    stream: &TcpStream,
) -> bool {
    let (alloc, clock) = (node.alloc, node.clock);
    let mut incoming = CallerInput {
        stream,
        clock,
        until: clock.now() + ASKED,
    };
    let mut outgoing = Outgoing::new(stream, clock);
    let mut console = Console {
        rt: node.rt,
        alloc,
        desk: node.desk,
        pass,
        access: &port.access,
        browser,
        hops: node.hops,
        version: port.version.as_str(),
        since: house.since,
        clock,
        house,
    };
    let _came = talk(alloc, port.keys, &mut console, &mut incoming, &mut outgoing);
    drop(console);
    let _ended = stream.shutdown(Shutdown::Write);
    drain(&mut incoming);
    outgoing.well
}

/// Answers those who ask, one after the other, until nobody is accepted any more.
fn answer_callers<R: Wait + time::Clock, L: Views, B: Sharing, C: Clock, G: Monitor>(
    node: &LiveNode<'_, R, L, B, C, G>,
    pass: &mut Pass<B>,
    port: &ControlPort,
    browser: &Option<Browser>,
    house: &Home<'_, R, L, B, C, G>,
) {
    let rt = node.rt;
    for _ in rt.forever() {
        let came = port.listener.accept();
        if port.is_closed() {
            return;
        }
        match came {
            Ok((stream, _)) => {
                let well = answer_caller(node, pass, port, browser, house, &stream);
                drop(stream);
                if !well {
                    thread::sleep(rt, Duration::from_millis(REST));
                }
            }
            Err(_) => thread::sleep(rt, Duration::from_millis(AGAIN)),
        }
    }
}

/// Answers all who ask, each in one of so many threads as there are passes, until nobody is
/// accepted any more. They are told since when the node serves, in milliseconds.
pub fn answer_all<
    R: Threads + Wait + Sync + time::Clock,
    L: Views + Drop + Send,
    B: Sharing + Send + Sync,
    C: Clock + Sync,
    G: Monitor + Sync,
>(
    node: &LiveNode<'_, R, L, B, C, G>,
    passes: Vec<Pass<B>>,
    since: u64,
    terms: Terms<'_>,
) -> Vec<Pass<B>> {
    let Some(port) = terms.control else {
        return passes;
    };
    let mut passes = passes;
    let count = passes.len();
    if count == 0 {
        return passes;
    }
    let house = Home {
        rt: node.rt,
        alloc: node.alloc,
        desk: node.desk,
        signal: node.signal,
        meter: node.meter,
        stop: terms.stop,
        clock: node.clock,
        log: node.log,
        since,
        is_copying: AtomicBool::new(false),
    };
    let browser = browser_of(node.alloc, port);
    thread::for_each_mut(
        node.rt,
        passes.as_mut_slice(),
        count,
        &|_, pass| { answer_callers(node, pass, port, &browser, &house) },
    );
    passes
}

/// A pass for each of those who may ask at the same time, where somebody may.
///
/// Errors: TooManyPasses, Memory.
pub fn passes_of<R: Wait, L: Views, B: Sharing>(
    rt: &R,
    alloc: Global,
    desk: &SharedDesk<L, B>,
    port: Option<&ControlPort>,
) -> Result<Vec<Pass<B>>, WorkersFault> {
    let mut passes = Vec::new(alloc);
    if port.is_none() {
        return Ok(passes);
    }
    for _ in 0..CALLERS {
        let pass = desk.pass(rt, alloc)?;
        if passes.push(pass).is_err() {
            return Err(WorkersFault::Memory);
        }
    }
    Ok(passes)
}
