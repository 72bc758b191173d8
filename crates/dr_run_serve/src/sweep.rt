//! What is over, and since when: what a node forgets one day.
ghost use Rattle.std.specs.Prelude.{◌≡◌, ◌≤◌, ◌++◌, ◌∷◌, List, [], if◌then◌else◌, is_ok, IfSome};
ghost use Rattle.std.specs.Prelude.{IfNone};
ghost use Rattle.dr_run_serve.specs.Sweeps.{IsFirstOver, IsNotDue};

use dr_base::Text;
use std::alloc::{AllocError, Global};
use std::collections::VecDeque;

/// An instance that came to be over at that moment (milliseconds since 1970).
#[derive(Drop)]
pub struct OverInstance {
    pub uid: Text,
    pub at: u64,
}

/// Instances that came to be over, in the order in which they are forgotten.
#[derive(Drop)]
pub struct Sweep {
    pub queue: VecDeque<OverInstance>,
}

impl Sweep {
    /// Nothing is over.
    pub fn new(alloc: Global) -> Sweep
        ensures { result.queue.items ≡ [] }
    {
        Sweep {
            queue: VecDeque::new(alloc),
        }
    }

    /// One more that is over.
    ///
    /// Errors: want of memory; then nothing has changed.
    pub fn add(&mut self, over: OverInstance) -> Result<(), AllocError>
        ensures { self.new.queue.items
            ≡ (if is_ok result then self.old.queue.items ++ over ∷ [] else self.old.queue.items) }
    {
        match self.queue.push_back(over) {
            Ok(()) => Ok(()),
            Err(_) => Err(AllocError),
        }
    }

    /// The first one, where it has been over since that moment or longer.
    pub fn first_due(&self, since: u64) -> Option<&Text>
        ensures due { IfSome result (λ uid. IsFirstOver self.now.queue.items since uid.now) }
        ensures none { IfNone result (IsNotDue self.now.queue.items since) }
    {
        let Some(first) = self.queue.front() else {
            return None;
        };
        if first.at > since {
            return None;
        }
        Some(&first.uid)
    }

    /// The first one goes, where there is one.
    pub fn let_first_go(&mut self)
        ensures { (one : OverInstance)
            → (rest : List OverInstance)
            → self.old.queue.items ≡ one ∷ rest
            → self.old.queue.items ≡ one ∷ self.new.queue.items }
    {
        let _gone = self.queue.pop_front();
    }
}
