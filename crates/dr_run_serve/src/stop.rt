//! The orderly end of a node, and on what terms it serves.
ghost use Rattle.std.specs.Prelude.{◌≡◌, ◌≤◌, None, max, min};

use crate::control::ControlPort;
use std::alloc::Global;
use std::io;
use std::sync::Arc;
use std::sync::atomic::{AtomicBool, Ordering};

/// The most threads that serve: one for each of 256 associations, and eight that reject others.
const MOST_WORKERS: usize = 264;

/// The least memory for data sets, in bytes: one of 64 MiB, and what each thread holds unasked.
const LEAST_MEMORY: u64 = 128_000_000;

/// How many milliseconds a caller has for its request where nothing else is asked for (PS3.8
/// 9.1.5), and the most.
const REQUEST: u64 = 30_000;

const LONGEST_REQUEST: u64 = 600_000;

/// Whether a node is asked to end in order.
#[derive(Drop)]
pub struct StopSign {
    asked: AtomicBool,
}

impl StopSign {
    /// It isn't.
    pub fn new() -> StopSign {
        StopSign {
            asked: AtomicBool::new(false),
        }
    }

    /// From now on it is.
    pub fn ask(&self) {
        self.asked.store(true, Ordering::SeqCst);
    }

    /// Whether it is.
    pub(crate) fn is_asked(&self) -> bool {
        self.asked.load(Ordering::SeqCst)
    }
}

/// Where a node may be asked what it has, and told to act.
#[derive(Clone, Copy, Drop)]
pub struct ControlPlace<'a> {
    /// The address, as `host:port`.
    pub at: &'a str,
    /// The path of the file with the token, without which nothing can be acted.
    pub token: Option<&'a str>,
    /// One name more by which a request may call the node.
    pub host: Option<&'a str>,
    /// Whether the address may be another than loopback.
    pub is_for_anyone: bool,
}

/// What may end a node from without: its input, and those who ask over its control connection.
pub trait Ending {
    /// Asks for the end as soon as the input has ended, in a thread of its own.
    ///
    /// Errors: the system gives no thread.
    fn watch(&self, stop: Arc<StopSign, Global>) -> io::Result<()>;

    /// Listens where a node may be asked.
    ///
    /// Errors: the address isn't loopback, and need be; the token can't be read, is too short, or
    /// may be read by others; those of the system.
    fn open_control(&self, alloc: Global, place: ControlPlace<'_>) -> io::Result<ControlPort>;
}

/// On what terms a node serves: after how many connections it ends (for 0 never), by how many
/// threads, with how much memory, how long a caller has for its request, when it forgets, what may
/// ask for its end before, and where it may be asked.
#[derive(Clone, Copy)]
pub struct Terms<'a> {
    pub links: u64,
    workers: usize,
    /// What all associations together may hold in memory of data sets, in bytes.
    pub memory: u64,
    /// How many milliseconds a caller has, from when a thread takes its connection, to its whole
    /// request.
    request: u64,
    /// After how many milliseconds it forgets what is over; None for never.
    pub forget_after: Option<u64>,
    pub stop: &'a StopSign,
    pub control: Option<&'a ControlPort>,
    ghost some: { (1 ≤ workers) × (workers ≤ 264) },
}

impl<'a> Terms<'a> {
    /// So many threads, from 1 to 264; for another number the nearest. So many bytes, at least 128
    /// MB, so that there is always room for one data set. It forgets nothing, and a caller has 30 s
    /// for its request.
    pub fn new(
        links: u64,
        workers: usize,
        memory: u64,
        stop: &'a StopSign,
        control: Option<&'a ControlPort>,
    ) -> Terms<'a>
        ensures links { result.links ≡ links }
        ensures workers { result.workers ≡ min (max 1 workers) 264 }
        ensures memory { result.memory ≡ max 128000000 memory }
        ensures request { result.request ≡ 30000 }
        ensures forget_after { result.forget_after ≡ None }
        ensures ends { (result.stop ≡ stop.entry) × (result.control ≡ control.entry) }
    {
        Terms {
            links,
            workers: workers.max(1).min(MOST_WORKERS),
            memory: memory.max(LEAST_MEMORY),
            request: REQUEST,
            forget_after: None,
            stop,
            control,
        }
    }

    /// The same, but that it forgets what has been over for so many milliseconds, or, for None,
    /// nothing.
    pub fn forgetting(self, after: Option<u64>) -> Terms<'a>
        ensures links { result.links ≡ self.entry.links }
        ensures workers { result.workers ≡ self.entry.workers }
        ensures memory { result.memory ≡ self.entry.memory }
        ensures forget_after { result.forget_after ≡ after }
        ensures request { result.request ≡ self.entry.request }
        ensures ends { (result.stop ≡ self.entry.stop) × (result.control ≡ self.entry.control) }
    {
        Terms {
            links: self.links,
            workers: self.workers,
            memory: self.memory,
            request: self.request,
            forget_after: after,
            stop: self.stop,
            control: self.control,
        }
    }

    /// The same, but that a caller has so many milliseconds for its request, at most 600 s.
    pub fn awaiting(self, request: u64) -> Terms<'a>
        ensures links { result.links ≡ self.entry.links }
        ensures workers { result.workers ≡ self.entry.workers }
        ensures memory { result.memory ≡ self.entry.memory }
        ensures forget_after { result.forget_after ≡ self.entry.forget_after }
        ensures ends { (result.stop ≡ self.entry.stop) × (result.control ≡ self.entry.control) }
        ensures request { result.request ≡ min request 600000 }
    {
        Terms {
            links: self.links,
            workers: self.workers,
            memory: self.memory,
            request: request.min(LONGEST_REQUEST),
            forget_after: self.forget_after,
            stop: self.stop,
            control: self.control,
        }
    }

    /// How many milliseconds a caller has for its request.
    pub fn request(self) -> u64
        ensures { result ≡ self.entry.request }
    {
        self.request
    }

    /// By how many threads.
    pub fn workers(self) -> usize
        ensures terms { result ≡ self.entry.workers }
        ensures some { (1 ≤ result) × (result ≤ 264) }
    {
        self.workers
    }
}
