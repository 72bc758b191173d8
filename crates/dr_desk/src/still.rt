//! A shared desk at which nobody calls for a while.
ghost use Rattle.dr_desk.specs.Reading.{HasLines};

use crate::held::HeldDesk;
use crate::shared::SharedDesk;
use crate::sharing::Sharing;
use dr_ledger::Ledger;
use std::sync::{MutexGuard, Wait};

/// The lock of a shared desk: until it is let go, no call of the ledger is under way and none
/// begins. Whoever has it and calls the desk waits for ever.
#[derive(Drop)]
pub struct StillDesk<'a, L: Ledger, B: Sharing> {
    held: MutexGuard<'a, HeldDesk<L, B>>,
}

impl<L: Ledger, B: Sharing> SharedDesk<L, B> {
    /// Keeps all calls waiting, until what is answered is let go.
    pub fn still<R: Wait>(&self, rt: &R) -> StillDesk<'_, L, B> {
        StillDesk {
            held: self.held.lock(rt),
        }
    }
}

impl<'a, L: Ledger, B: Sharing> StillDesk<'a, L, B> {
    /// How many lines the journal has, as long as nobody calls.
    pub fn line_count(&self) -> u64
        ensures { HasLines L.site L.book L.bodies L.stands L.failed B.site B.first result }
    {
        self.held.number
    }
}
