//! How long a hop is left alone.
ghost use Rattle.std.specs.Prelude.{◌≡◌, ◌≤◌, ◌+◌, ◌*◌, ◌^◌, MatchBool, false, max, min, true};

/// The first rest, in milliseconds.
const FIRST: u64 = 1_000;

/// No rest is longer.
const LONGEST: u64 = 300_000;

/// A row that was just made shortens a rest to so many milliseconds.
const SHORT: u64 = 5_000;

/// The rest of a hop: since when, how long, and whether a row was made meanwhile. One of 0 is none.
#[derive(Clone, Copy)]
pub struct Rest {
    pub since: u64,
    pub wait: u64,
    pub short: bool,
    pub ghost early: { since ≤ 2 ^ 62 },
    pub ghost bounded: { wait ≤ 300000 },
}

impl Rest {
    /// No visit failed.
    pub fn none() -> Rest
        ensures { (result.since ≡ 0) × (result.wait ≡ 0) × (result.short ≡ false) }
    {
        Rest {
            since: 0,
            wait: 0,
            short: false,
        }
    }

    /// One visit more has failed, at that moment: twice as long a rest as the last one, from 1 s to
    /// 300 s.
    pub fn lengthened(self, now: u64) -> Rest
        requires { now ≤ 2 ^ 62 }
        ensures { (result.since ≡ now)
            × (result.wait ≡ max 1000 (min 300000 (2 * self.wait)))
            × (result.short ≡ false) }
    {
        Rest {
            since: now,
            wait: (2 * self.wait).min(LONGEST).max(FIRST),
            short: false,
        }
    }

    /// A row was made: the rest is 5 s at most, and the next one is as long as it would have been.
    pub fn shortened(self) -> Rest
        ensures { (result.since ≡ self.since) × (result.wait ≡ self.wait) × (result.short ≡ true) }
    {
        Rest {
            since: self.since,
            wait: self.wait,
            short: true,
        }
    }

    /// Somebody wants a visit now: the rest is over, and the next one is as long as it would have
    /// been.
    pub fn ended(self) -> Rest
        ensures { (result.since ≡ 0) × (result.wait ≡ self.wait) × (result.short ≡ self.short) }
    {
        Rest {
            since: 0,
            wait: self.wait,
            short: self.short,
        }
    }

    /// The moment at which it ends.
    pub fn until(self) -> u64
        ensures { MatchBool self.short
            (result ≡ self.since + min 5000 self.wait)
            (result ≡ self.since + self.wait) }
    {
        if self.short {
            self.since + self.wait.min(SHORT)
        } else {
            self.since + self.wait
        }
    }
}
