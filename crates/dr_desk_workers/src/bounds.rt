//! What all workers of a node share beside its desk.
ghost use Rattle.std.specs.Prelude.{◌≡◌, ◌≤◌, IfOk, vec_len};

use crate::door::{Door, Outside};
use crate::room::Room;
use crate::share::{FREE, MOST};
use crate::staff::Staff;
use std::alloc::{AllocError, Global};
use std::sync::Mutex;
use std::sync::ledger::{Blank, Ledger};

/// Who serves holds so many bytes at most before it asks for room.
const UNASKED: u64 = 264 * FREE;

/// What the ledger makes of a data set on its way into its tables, one at a time: four copies of
/// the largest (the value of its cell, the row, the pages, and these as they are written).
const COPIES: u64 = 4 * MOST;

/// How many associations are open, what all of them may hold in memory of data sets, and who waits
/// for a connection.
#[derive(Drop)]
pub struct Bounds<D: Ledger> {
    pub door: Mutex<Door<D>>,
    pub room: Room,
    pub staff: Staff,
}

impl<D: Ledger> Bounds<D> {
    /// No association is open, and no worker has begun; so many of them have a guest. All
    /// associations, with what the ledger makes of one of their data sets, may hold so many bytes;
    /// some 35 MB of these need no asking. One data set alone always has room.
    pub fn new(
        alloc: Global,
        blank: Blank,
        workers: usize,
        memory: u64,
    ) -> Result<(Bounds<D>, Vec<Outside<D>>), AllocError>
        requires blank { (blank.name ≡ D.name) × (blank.parts ≡ D.parts) × (D.parts ≡ 265) }
        requires workers { workers ≤ 264 }
        ensures { IfOk result (λ made. vec_len made.1 ≡ workers) }
    {
        let (door, guests) = Door::new(alloc, blank, workers)?;
        let bounds = Bounds {
            door: Mutex::new(door),
            room: Room::new(memory.saturating_sub(UNASKED + COPIES).max(MOST)),
            staff: Staff::new(),
        };
        Ok((bounds, guests))
    }
}
