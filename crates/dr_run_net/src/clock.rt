//! The system's clock.
ghost use Rattle.std.specs.Prelude.{◌≤◌, ◌^◌};

use dr_session::{Clock, LAST_MOMENT};
use std::time::Duration;
use std::{io, time};

/// Moments in milliseconds since 1970. The system is asked once what time it is; from then on the
/// clock goes by the time that has passed, so that a moment is never told before an earlier one,
/// whatever the system's time is set to.
#[derive(Drop)]
pub struct SystemClock<'a, R: time::Clock> {
    rt: &'a R,
    /// What the system's steady clock told when this one began.
    began: Duration,
    /// The moment at which it began.
    at: u64,
    ghost early: { at ≤ 2 ^ 62 },
}

/// The milliseconds, or the last moment where they are more.
fn milliseconds(time: Duration) -> u64
    ensures { result ≤ 2 ^ 62 }
{
    match u64::try_from(time.as_millis()) {
        Ok(passed) if passed <= LAST_MOMENT => passed,
        _ => LAST_MOMENT,
    }
}

impl<'a, R: time::Clock> SystemClock<'a, R> {
    /// A clock that begins at the system's present time, or at 0 where the system doesn't tell it.
    pub fn start(rt: &'a R) -> SystemClock<'a, R> {
        let at = match rt.since_1970() {
            Ok(time) => milliseconds(time),
            Err(_) => 0,
        };
        let began = match rt.monotonic() {
            Ok(time) => time,
            Err(_) => Duration::ZERO,
        };
        SystemClock { rt, began, at }
    }

    /// How many milliseconds have passed since it began; none where the system doesn't tell.
    fn passed(&self) -> u64
        ensures { result ≤ 2 ^ 62 }
    {
        match self.rt.monotonic() {
            Ok(now) => milliseconds(now.saturating_sub(self.began)),
            Err(_) => 0,
        }
    }
}

impl<'a, R: time::Clock> Clock for SystemClock<'a, R> {
    ghost use Rattle.std.specs.Prelude.{◌≤◌};

    ghost tells = { λ clock now. clock.at ≤ now };

    fn now(&self) -> u64 {
        let now = self.at + self.passed();
        if now <= LAST_MOMENT { now } else { LAST_MOMENT }
    }
}
