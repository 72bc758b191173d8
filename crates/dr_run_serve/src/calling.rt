//! What those who send, and who keeps a node, are told while they wait.
use crate::signal::{News, Signal, WakeUp};
use std::sync::Wait;
use std::time::Clock;

/// What a thread of a node waits for. What it is told is another thread's doing, so that its
/// contract can say no more than what it was told.
pub trait Calling {
    ghost use Rattle.std.specs.Prelude.{ℕ, Bool};
    ghost use Rattle.dr_run_serve.specs.declared.signal.News.{News as NewsValue};
    ghost use Rattle.dr_run_serve.specs.declared.signal.WakeUp.{WakeUp as CallValue};

    // Whether the workers' thread runs.
    ghost begins: { Self → Bool → Type 0 };

    // What the one who sends to the hop of that number was called for.
    ghost calls: { Self → ℕ → CallValue → Type 0 };

    // Whether the node ends, so that nothing is begun any more.
    ghost ends: { Self → Bool → Type 0 };

    // How far the node is.
    ghost brings: { Self → NewsValue → Type 0 };

    /// Whether the workers' thread runs; where it doesn't, it waits for so many milliseconds.
    fn begun(&self, milliseconds: u64) -> bool
        ensures { begins self.now result };

    /// What the one who sends to the hop of that number is called for; where it isn't called, it
    /// waits for so many milliseconds.
    fn call(&self, number: usize, milliseconds: u64) -> WakeUp
        ensures { calls self.now number result };

    /// Whether the node ends.
    fn ending(&self) -> bool
        ensures { ends self.now result };

    /// How far the node is; where nothing has happened, it waits for so many milliseconds.
    fn news(&self, milliseconds: u64) -> News
        ensures { brings self.now result };
}

/// The signal of a node that runs, and by what its threads wait for it.
#[derive(Drop)]
pub struct SignalCalling<'a, R: Wait + Clock> {
    pub rt: &'a R,
    pub signal: &'a Signal,
}

impl<'a, R: Wait + Clock> Calling for SignalCalling<'a, R> {
    ghost begins = { λ calling begun. Unit {0} };

    ghost calls = { λ calling number call. Unit {0} };

    ghost ends = { λ calling ending. Unit {0} };

    ghost brings = { λ calling news. Unit {0} };

    fn begun(&self, milliseconds: u64) -> bool {
        self.signal.has_begun(self.rt, milliseconds)
    }

    /// Where there is no such hop, it is called for the last time.
    fn call(&self, number: usize, milliseconds: u64) -> WakeUp {
        match self.signal.bell(number) {
            Some(bell) => bell.wait(self.rt, milliseconds),
            None => WakeUp {
                rows: false,
                visit: false,
                over: true,
            },
        }
    }

    fn ending(&self) -> bool {
        self.signal.is_ending()
    }

    fn news(&self, milliseconds: u64) -> News {
        self.signal.wait(self.rt, milliseconds)
    }
}
