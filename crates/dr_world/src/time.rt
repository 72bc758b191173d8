//! The simulated time.
ghost use Rattle.std.specs.Prelude.{◌≡◌, ◌≤◌, ◌+◌, ◌^◌, min};
ghost use Rattle.std.proofs.Props.{props};

use dr_session::LAST_MOMENT;

/// How long a world has stood, in milliseconds: at most 2^62, where it stays.
#[derive(Drop)]
pub struct Time {
    passed: u64,
    ghost bounded: { passed ≤ 2 ^ 62 } by { Prim.hlevel props },
}

impl Time {
    /// The start.
    pub fn new() -> Time
        ensures { result.passed ≡ 0 }
    {
        Time { passed: 0 }
    }

    /// The moment now, in milliseconds.
    pub fn moment(&self) -> u64
        ensures same { result ≡ self.now.passed }
        ensures bounded { result ≤ 2 ^ 62 }
    {
        self.passed
    }

    /// So many milliseconds pass.
    pub fn pass(&mut self, ms: u64)
        ensures { self.new.passed ≡ min (self.old.passed + ms) (2 ^ 62) }
    {
        if ms < LAST_MOMENT - self.passed {
            self.passed += ms;
            return;
        }
        self.passed = LAST_MOMENT;
    }
}
