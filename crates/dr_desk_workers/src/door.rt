//! The door of a node: how many associations are open, and who is let in.
ghost use Rattle.std.specs.Prelude.{◌≡◌, ◌≤◌, ◌<◌, ◌+◌, MatchBool, IfOk, cond, false, vec_len};

use std::alloc::{AllocError, Global};
use std::sync::ledger::{Blank, Book, Ledger, Share};

/// So many associations are open at most; one more that asks is rejected for it (2, 3, 2).
const MOST_OPEN: usize = 256;

/// Into so many parts what a door counts is cut: one for each worker, and one that stays.
pub const PARTS: u64 = 265;

/// How many associations are open: the sum of what all guests count. It lies under a lock of its
/// own: who asks for an association is counted, answered and let in while the lock is held, and no
/// other in between.
#[derive(Drop)]
pub struct Door<D: Ledger> {
    count: usize,
    tally: Book<D>,
    ghost few: { count ≤ 256 },
    ghost counted: { tally.total ≡ count },
}

/// A worker's guest: it counts one while the association that the worker serves is open.
#[derive(Drop)]
pub struct Guest<D: Ledger> {
    inside: bool,
    share: Share<D>,
    ghost one: { share.parts ≡ 1 },
    ghost counted: { share.amount ≡ cond inside 1 0 },
}

/// The guest of a worker that serves no open association.
#[derive(Drop)]
pub struct Outside<D: Ledger> {
    guest: Guest<D>,
    ghost outside: { guest.inside ≡ false },
}

impl<D: Ledger> Outside<D> {
    /// The guest, for an association that may be asked for.
    pub fn into_guest(self) -> Guest<D>
        ensures { result.inside ≡ false }
    {
        self.guest
    }
}

impl<D: Ledger> Door<D> {
    /// None is open, and so many workers have a guest outside.
    pub fn new(
        alloc: Global,
        blank: Blank,
        workers: usize,
    ) -> Result<(Door<D>, Vec<Outside<D>>), AllocError>
        requires blank { (blank.name ≡ D.name) × (blank.parts ≡ D.parts) × (D.parts ≡ 265) }
        requires workers { workers ≤ 264 }
        ensures { IfOk result (λ made. (made.0.tally.total ≡ 0) × (vec_len made.1 ≡ workers)) }
    {
        let mut guests = Vec::with_capacity(alloc, workers)?;
        let (tally, mut rest) = blank.open::<D>();
        for _i in 0..workers {
            let share = rest.split_off(1, 0);
            let guest = Guest {
                inside: false,
                share,
            };
            guests.push_reserved(Outside { guest });
        }
        Ok((Door { count: 0, tally }, guests))
    }

    /// How many are open.
    pub fn count(&self) -> usize
        ensures { result ≡ self.now.tally.total }
    {
        self.count
    }

    /// Lets one in, where fewer than 256 are; says whether it did.
    pub(crate) fn enter(&mut self, guest: &mut Guest<D>) -> bool
        requires { guest.old.inside ≡ false }
        ensures sum { MatchBool result
            ((self.old.tally.total < 256) × (self.new.tally.total ≡ self.old.tally.total + 1))
            ((self.old.tally.total ≡ 256) × (self.new.tally.total ≡ self.old.tally.total)) }
        ensures guest { guest.new.inside ≡ result }
    {
        if self.count >= MOST_OPEN {
            return false;
        }
        let Door { count, tally } = self;
        let Guest { inside, share } = guest;
        tally.add(share, 1);
        *count += 1;
        *inside = true;
        true
    }

    /// The association of this guest is over: one fewer is open, if it was let in.
    pub(crate) fn leave(&mut self, guest: Guest<D>) -> Outside<D>
        ensures { self.new.tally.total + cond guest.inside 1 0 ≡ self.old.tally.total }
    {
        let mut guest = guest;
        if guest.inside {
            let Door { count, tally } = self;
            let Guest { inside, share } = &mut guest;
            tally.audit(share);
            tally.sub(share, 1);
            *count -= 1;
            *inside = false;
        }
        Outside { guest }
    }
}
