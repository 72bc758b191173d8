//! How long a hop is left alone after a visit.
ghost use Rattle.std.specs.Prelude.{◌≤◌, ◌^◌};
ghost use Rattle.dr_run_serve.specs.Rests.{IsRestAfter, IsRestAfterEnd, IsRestOfFailure};

use crate::rest::Rest;
use crate::visit::Visit;
use dr_session::Ended;

/// What was noted at a visit: how many outcomes, and whether a row was passed over, since its data
/// set can't be read.
#[derive(Clone, Copy)]
pub struct Noted {
    pub settled: u64,
    pub passed: bool,
}

/// The rest after a visit that ended at that moment, at which that was noted: none after one that
/// ended well; the first one where some rows went over before it failed, or where it ended since a
/// row was passed over; else a longer one. A visit at which nothing was due says nothing.
pub fn rest_after(rest: Rest, visit: &Visit, noted: Noted, now: u64) -> Rest
    requires { now ≤ 2 ^ 62 }
    ensures { IsRestAfter rest visit.now noted now result }
{
    match visit {
        Visit::Idle => rest,
        Visit::Ended(ended) => rest_after_end(rest, *ended, noted, now),
        Visit::Unreached(_) | Visit::Failed(_) => rest_of_failure(rest, noted, now),
    }
}

/// The same, after an association that ended so.
fn rest_after_end(rest: Rest, ended: Ended, noted: Noted, now: u64) -> Rest
    requires { now ≤ 2 ^ 62 }
    ensures { IsRestAfterEnd rest ended noted now result }
{
    match ended {
        Ended::Released => Rest::none(),
        Ended::Rejected(_) | Ended::Aborted | Ended::Closed => rest_of_failure(rest, noted, now),
    }
}

/// The rest after a visit that failed: the first one where some rows went over before, or one was
/// passed over, which isn't the next node's doing; else a longer one.
fn rest_of_failure(rest: Rest, noted: Noted, now: u64) -> Rest
    requires { now ≤ 2 ^ 62 }
    ensures { IsRestOfFailure rest noted now result }
{
    if noted.settled > 1 || noted.passed {
        return Rest::none().lengthened(now);
    }
    rest.lengthened(now)
}
