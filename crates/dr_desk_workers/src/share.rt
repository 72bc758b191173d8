//! What one association holds in memory.
use crate::room::Room;
use std::sync::Wait;
use std::time::Clock;

/// The most bytes that one read brings.
const PIECE: u64 = 65_536;

/// So many bytes each association may hold without asking for room: two reads.
pub const FREE: u64 = 2 * PIECE;

/// No association needs more: the bytes of a data set that is larger than 64 MiB are let go, and a
/// vector that grows holds less than twice what it has.
pub const MOST: u64 = (64 << 20) + FREE;

/// So long an association waits for room, in milliseconds.
const PATIENCE: u64 = 1_000;

/// How many bytes it has heard since it answered last, how many it has taken for them, and whether
/// it found no room for more.
#[derive(Clone, Copy, PartialEq, Eq, Debug)]
pub struct Share {
    heard: u64,
    taken: u64,
    crowded: bool,
}

/// What a vector holds that has grown to so many bytes.
fn grown(bytes: u64) -> u64 {
    bytes.checked_next_power_of_two().unwrap_or(MOST).min(MOST)
}

impl Share {
    /// It holds nothing.
    pub fn new() -> Share {
        Share {
            heard: 0,
            taken: 0,
            crowded: false,
        }
    }

    /// Whether it found no room since it answered last.
    pub fn is_crowded(self) -> bool {
        self.crowded
    }

    /// So many bytes were heard.
    pub fn note(&mut self, bytes: usize) {
        self.heard = self.heard.saturating_add(bytes as u64);
    }

    /// Whether there is room for one more read. Where there is none, what it had taken is given
    /// back, and until it answers it asks for no more.
    pub fn has_room<R: Wait + Clock>(&mut self, rt: &R, room: &Room) -> bool {
        if self.crowded {
            return false;
        }
        let wanted = self.heard.saturating_add(PIECE);
        if wanted <= FREE {
            return true;
        }
        let more = grown(wanted).saturating_sub(self.taken);
        if more == 0 {
            return true;
        }
        if room.take(rt, more, PATIENCE) {
            self.taken = self.taken.saturating_add(more);
            return true;
        }
        self.crowded = true;
        room.give_back(rt, self.taken);
        self.taken = 0;
        false
    }

    /// It has answered, or is over: all that it had taken is free again.
    pub fn clear<R: Wait>(&mut self, rt: &R, room: &Room) {
        room.give_back(rt, self.taken);
        *self = Share::new();
    }
}
