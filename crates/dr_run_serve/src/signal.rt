//! What wakes those who send, and who tells of the node.
ghost use Rattle.std.specs.Prelude.{◌≤◌, IfNone, length};
ghost use Rattle.dr_run_serve.specs.Ends.{IsKnownAfter};

use crate::ages::WaitingRows;
use crate::ends::VisitEnd;
use crate::intake::Intake;
use crate::open::Open;
use crate::sweep::OverInstance;
use dr_base::Text;
use dr_run_answer::{Visited, Visits};
use dr_run_control::RowSearch;
use dr_run_open::NextHop;
use std::alloc::{AllocError, Global};
use std::collections::VecDeque;
use std::sync::atomic::{AtomicBool, Ordering};
use std::sync::{Condvar, Mutex, MutexGuard, Wait};
use std::time::{Clock, Duration};

/// For how many milliseconds a thread is awaited that others wait for.
pub const BEGIN: u64 = 60_000;

/// How far the node is.
#[derive(Clone, Copy)]
pub struct News {
    /// How many of the threads that send have begun.
    pub senders: usize,
    /// The threads' own thread runs: connections may be accepted.
    pub begun: bool,
    /// No worker is left.
    pub over: bool,
    /// No sender is left.
    pub sent: bool,
    /// The ledger answered somebody that its store failed.
    pub doubts: bool,
}

/// For so many milliseconds nobody looks after a hop that is said to be left alone: longer than any
/// rest.
const QUIET: u64 = 600_000;

/// What the one who sends to a hop is woken by.
#[derive(Clone, Copy)]
pub struct WakeUp {
    /// A row may have been made.
    pub rows: bool,
    /// Somebody wants a visit now.
    pub visit: bool,
    /// No worker is left: what is due now is sent, and that is all.
    pub over: bool,
}

/// What is known of the visits to a hop.
#[derive(Clone, Copy)]
struct KnownVisits {
    /// When its sender looked last whether it is to be visited (milliseconds); 0 for never.
    looked: u64,
    /// Whether a visit is under way.
    is_under_way: bool,
    /// The last one at which something was due, and that has ended.
    last: Option<Visited>,
    /// How all of these ended.
    visits: Visits,
}

/// None has ended.
const NONE: Visits = Visits {
    released: 0,
    rejected: 0,
    aborted: 0,
    closed: 0,
    unreached: 0,
    failed: 0,
};

/// What is known of the visits to a hop, behind one that has ended, and come to that, at that
/// moment; to nothing where nothing was due.
fn known_after(known: KnownVisits, came: Option<VisitEnd>, at: u64) -> KnownVisits
    ensures { IsKnownAfter known came at result }
{
    match came {
        None => KnownVisits {
            is_under_way: false,
            ..known
        },
        Some(ended) => KnownVisits {
            looked: known.looked,
            is_under_way: false,
            last: Some(Visited {
                at,
                came: ended.word(),
            }),
            visits: ended.counted(known.visits),
        },
    }
}

/// Wakes the one who sends to a hop, and is told of its visits.
#[derive(Drop)]
pub struct Bell {
    dest: Text,
    call: Mutex<WakeUp>,
    changed: Condvar,
    visits: Mutex<KnownVisits>,
    waiting: Mutex<WaitingRows>,
}

impl Bell {
    /// Rows may be there from before.
    fn new(alloc: Global, hop: &NextHop) -> Result<Bell, AllocError> {
        Ok(Bell {
            dest: hop.dest.clone()?,
            call: Mutex::new(WakeUp {
                rows: true,
                visit: false,
                over: false,
            }),
            changed: Condvar::new(),
            visits: Mutex::new(KnownVisits {
                looked: 0,
                is_under_way: false,
                last: None,
                visits: NONE,
            }),
            waiting: Mutex::new(WaitingRows::new(alloc)),
        })
    }

    /// A row may have been made for its hop.
    fn ring<R: Wait>(&self, rt: &R) {
        self.call.lock(rt).rows = true;
        self.changed.notify_all();
    }

    /// Somebody wants a visit now.
    fn hurry<R: Wait>(&self, rt: &R) {
        self.call.lock(rt).visit = true;
        self.changed.notify_all();
    }

    /// No worker is left.
    fn end<R: Wait>(&self, rt: &R) {
        self.call.lock(rt).over = true;
        self.changed.notify_all();
    }

    /// Its sender looks, at that moment, whether it is to be visited.
    pub fn look<R: Wait>(&self, rt: &R, now: u64) {
        self.visits.lock(rt).looked = now;
    }

    /// A visit begins.
    pub fn begin_visit<R: Wait>(&self, rt: &R) {
        self.visits.lock(rt).is_under_way = true;
    }

    /// It has ended, and come to that; to nothing where nothing was due.
    pub fn end_visit<R: Wait>(&self, rt: &R, came: Option<VisitEnd>, at: u64) {
        let mut held = self.visits.lock(rt);
        *held = known_after(*held, came, at);
    }

    /// Whether nobody has looked after the hop for long, in a node that serves since then.
    fn is_quiet<R: Wait>(&self, rt: &R, since: u64, now: u64) -> bool {
        let visits = *self.visits.lock(rt);
        let looked = visits.looked.max(since);
        !visits.is_under_way && now.saturating_sub(looked) > QUIET
    }

    /// What has happened since it was asked last; where nothing has, it waits for so many
    /// milliseconds.
    pub fn wait<R: Wait + Clock>(&self, rt: &R, milliseconds: u64) -> WakeUp {
        let held = self.call.lock(rt);
        let (mut held, _) = self.changed.wait_timeout_while(
            rt,
            held,
            Duration::from_millis(milliseconds),
            |call| !call.rows && !call.visit && !call.over,
        );
        let call = *held;
        held.rows = false;
        held.visit = false;
        call
    }
}

/// Whether rows for this node may be among those for these nodes; None stands for all.
fn is_meant(dest: &Text, dests: Option<&[Text]>) -> bool {
    match dests {
        Some(dests) => dests.iter().any(|named| *named == *dest),
        None => true,
    }
}

/// How far a node is, a bell for each hop, the associations that are open, and what came over all.
#[derive(Drop)]
pub struct Signal {
    news: Mutex<News>,
    changed: Condvar,
    shut: AtomicBool,
    failing: AtomicBool,
    stopping: AtomicBool,
    bells: Vec<Bell>,
    pub open: Open,
    pub intake: Intake,
    sweeps: bool,
    over: Mutex<VecDeque<OverInstance>>,
}

impl Signal {
    /// Nothing has happened. Whether somebody sweeps: who wants to know what came to be over.
    pub fn new(alloc: Global, hops: &[NextHop], sweeps: bool) -> Result<Signal, AllocError> {
        let mut bells = Vec::with_capacity(alloc, hops.len())?;
        for hop in hops {
            bells.push(Bell::new(alloc, hop)?)?;
        }
        Ok(Signal {
            news: Mutex::new(News {
                senders: 0,
                begun: false,
                over: false,
                sent: false,
                doubts: false,
            }),
            changed: Condvar::new(),
            shut: AtomicBool::new(false),
            failing: AtomicBool::new(false),
            stopping: AtomicBool::new(false),
            bells,
            open: Open::new(alloc),
            intake: Intake::new(alloc),
            sweeps,
            over: Mutex::new(VecDeque::new(alloc)),
        })
    }

    /// The last row of an instance may be over, at that moment. Where there is no memory to note
    /// it, that is found at the next start.
    pub fn note_over<R: Wait>(&self, rt: &R, uid: &Text, at: u64) {
        if !self.sweeps {
            return;
        }
        let Ok(uid) = uid.clone() else {
            return;
        };
        let _noted = self.over.lock(rt).push_back(OverInstance { uid, at });
    }

    /// The first instance that was noted, which is noted no more.
    pub fn next_over<R: Wait>(&self, rt: &R) -> Option<OverInstance> {
        self.over.lock(rt).pop_front()
    }

    /// The bell of the hop of that number.
    pub fn bell(&self, number: usize) -> Option<&Bell>
        ensures { IfNone result (length self.now.bells.items ≤ number) }
    {
        self.bells.as_slice().get(number)
    }

    /// The workers' thread runs.
    pub fn begin<R: Wait>(&self, rt: &R) {
        self.news.lock(rt).begun = true;
        self.changed.notify_all();
    }

    /// One who sends has begun.
    pub fn count_sender<R: Wait>(&self, rt: &R) {
        let mut held = self.news.lock(rt);
        held.senders = held.senders.saturating_add(1);
    }

    /// Whether the workers' thread runs; where it doesn't, it waits for so many milliseconds. Where
    /// the system gives no thread, it never runs.
    pub fn has_begun<R: Wait + Clock>(&self, rt: &R, milliseconds: u64) -> bool {
        let held = self.news.lock(rt);
        let (held, _) = self.changed.wait_timeout_while(
            rt,
            held,
            Duration::from_millis(milliseconds),
            |news| !news.begun && !news.over,
        );
        held.begun
    }

    /// Rows may have been made for these nodes; None stands for all.
    pub fn ring<R: Wait>(&self, rt: &R, dests: Option<&[Text]>) {
        for bell in self.bells.as_slice() {
            if is_meant(&bell.dest, dests) {
                bell.ring(rt);
            }
        }
    }

    /// The bell of the hop to that node.
    fn bell_of(&self, dest: &Text) -> Option<&Bell> {
        for bell in self.bells.as_slice() {
            if bell.dest == *dest {
                return Some(bell);
            }
        }
        None
    }

    /// A row to that node waits, of an instance that is here since that moment.
    ///
    /// Errors: want of memory; then it will be looked up.
    pub fn note_waiting<R: Wait>(
        &self,
        rt: &R,
        dest: &Text,
        uid: &Text,
        moment: u64,
    ) -> Result<(), AllocError> {
        match self.bell_of(dest) {
            Some(bell) => bell.waiting.lock(rt).note(uid, moment),
            None => Ok(()),
        }
    }

    /// A row to that node doesn't wait any more.
    pub fn note_gone<R: Wait>(&self, rt: &R, dest: &Text, uid: &Text) {
        if let Some(bell) = self.bell_of(dest) {
            bell.waiting.lock(rt).note_gone(uid);
        }
    }

    /// Rows to that node may wait that aren't noted.
    pub fn doubt_waiting<R: Wait>(&self, rt: &R, dest: &Text) {
        if let Some(bell) = self.bell_of(dest) {
            bell.waiting.lock(rt).doubt();
        }
    }

    /// From where rows to that node are to be looked up that may wait and aren't noted; None where
    /// all are.
    ///
    /// Errors: want of memory.
    pub fn search_rows<R: Wait>(
        &self,
        rt: &R,
        dest: &Text,
    ) -> Result<Option<RowSearch>, AllocError> {
        match self.bell_of(dest) {
            Some(bell) => bell.waiting.lock(rt).search(),
            None => Ok(None),
        }
    }

    /// In that round of a search, rows to that node were noted up to a UID, or all of them.
    pub fn note_search<R: Wait>(&self, rt: &R, dest: &Text, round: u64, last: Option<Text>) {
        if let Some(bell) = self.bell_of(dest) {
            bell.waiting.lock(rt).note_search(round, last);
        }
    }

    /// Of the rows to that node that are noted, the UID of the one that waits longest, and since
    /// when.
    ///
    /// Errors: want of memory.
    pub fn longest<R: Wait>(&self, rt: &R, dest: &Text) -> Result<Option<(Text, u64)>, AllocError> {
        match self.bell_of(dest) {
            Some(bell) => bell.waiting.lock(rt).longest(),
            None => Ok(None),
        }
    }

    /// Somebody wants that node to be visited now.
    pub fn hurry<R: Wait>(&self, rt: &R, dest: &Text) {
        if let Some(bell) = self.bell_of(dest) {
            bell.hurry(rt);
        }
    }

    /// The last visit to that node at which something was due, and that has ended.
    pub fn visited<R: Wait>(&self, rt: &R, dest: &Text) -> Option<Visited> {
        match self.bell_of(dest) {
            Some(bell) => bell.visits.lock(rt).last,
            None => None,
        }
    }

    /// In which ways the visits to that node ended at which something was due.
    pub fn visits<R: Wait>(&self, rt: &R, dest: &Text) -> Visits {
        match self.bell_of(dest) {
            Some(bell) => bell.visits.lock(rt).visits,
            None => NONE,
        }
    }

    /// Whether nobody has looked after that node for ten minutes, in a node that serves since then.
    pub fn is_quiet<R: Wait>(&self, rt: &R, dest: &Text, since: u64, now: u64) -> bool {
        match self.bell_of(dest) {
            Some(bell) => bell.is_quiet(rt, since, now),
            None => false,
        }
    }

    /// Whether the store failed when something was written to it last.
    pub fn is_failing(&self) -> bool {
        self.failing.load(Ordering::SeqCst)
    }

    /// Something was written to the store.
    pub fn recover(&self) {
        self.failing.store(false, Ordering::SeqCst);
    }

    /// The ledger answered that its store failed.
    pub fn doubt<R: Wait>(&self, rt: &R) {
        self.failing.store(true, Ordering::SeqCst);
        self.news.lock(rt).doubts = true;
        self.changed.notify_all();
    }

    /// The store is shut.
    pub fn shut<R: Wait>(&self, rt: &R) {
        self.shut.store(true, Ordering::SeqCst);
        self.end_all(rt);
    }

    /// Whether the store is shut.
    pub fn is_shut(&self) -> bool {
        self.shut.load(Ordering::SeqCst)
    }

    /// The node ends in order.
    pub fn stop<R: Wait>(&self, rt: &R) {
        self.stopping.store(true, Ordering::SeqCst);
        self.end_all(rt);
    }

    /// Whether the node ends, in order or since its store is shut: nothing is begun any more.
    pub fn is_ending(&self) -> bool {
        self.stopping.load(Ordering::SeqCst) || self.is_shut()
    }

    /// Those who send come to their end.
    fn end_all<R: Wait>(&self, rt: &R) {
        for bell in self.bells.as_slice() {
            bell.end(rt);
        }
    }

    /// No worker is left.
    pub fn end<R: Wait>(&self, rt: &R) {
        self.news.lock(rt).over = true;
        self.changed.notify_all();
        self.end_all(rt);
    }

    /// No sender is left.
    pub fn end_sending<R: Wait>(&self, rt: &R) {
        self.news.lock(rt).sent = true;
        self.changed.notify_all();
    }

    /// How far the node is; where nobody doubts the store and somebody is left, it waits for so
    /// many milliseconds.
    pub fn wait<R: Wait + Clock>(&self, rt: &R, milliseconds: u64) -> News {
        let held = self.news.lock(rt);
        let (mut held, _) = self.changed.wait_timeout_while(
            rt,
            held,
            Duration::from_millis(milliseconds),
            |news| !news.doubts && !(news.over && news.sent),
        );
        let news = *held;
        held.doubts = false;
        news
    }
}
