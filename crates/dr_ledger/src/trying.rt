//! When a row is tried again, done or held.
ghost use Rattle.std.specs.Prelude.{◌≡◌, ◌≤◌, ◌^◌, ◌-◌, min};
ghost use Rattle.dr_ledger.specs.Books.{is_refused_for_now, is_success, row_after, tried};

use crate::item::{Cause, Outcome, Progress};

/// A million tries are counted.
const MOST_TRIES: u32 = 1_000_000;

/// A waiting row after an outcome, at the moment `now` (milliseconds).
#[tactic(auto, unfolding(crate::specs::Books::row_after))]
pub fn moved(tries: u32, outcome: Outcome, now: u64) -> Progress
    requires { now ≤ 2 ^ 62 }
    ensures { result ≡ row_after tries outcome now }
{
    match outcome {
        Outcome::Status(status) => answered(tries, status, now),
        Outcome::Broken => tried_again(tries, now),
        Outcome::NoContext => Progress::Held(Cause::NoContext),
        Outcome::Unreadable => Progress::Held(Cause::Unreadable),
    }
}

/// The row after a response with that status (PS3.4 B.2.3).
#[tactic(auto, unfolding(crate::specs::Books::row_after))]
fn answered(tries: u32, status: u16, now: u64) -> Progress
    requires { now ≤ 2 ^ 62 }
    ensures { result ≡ row_after tries (Outcome.Status status) now }
{
    if is_success(status) {
        return Progress::Done;
    }
    if is_for_now(status) {
        return tried_again(tries, now);
    }
    Progress::Held(Cause::Status(status))
}

/// Whether the status of a C-STORE-RSP says that the receiver has the instance: success, or a
/// warning (PS3.4 B.2.3, PS3.7 C.4).
pub fn is_success(status: u16) -> bool
    ensures { result ≡ is_success status }
{
    status == 0 || (status >= 0xB000 && status <= 0xBFFF)
}

/// Out of resources: the same instance may be taken later (PS3.4 B.2.3).
fn is_for_now(status: u16) -> bool
    ensures { result ≡ is_refused_for_now status }
{
    status >= 0xA700 && status <= 0xA7FF
}

/// After one more try in vain.
fn tried_again(tries: u32, now: u64) -> Progress
    requires { now ≤ 2 ^ 62 }
    ensures { result ≡ tried tries now }
{
    let tries = tries.saturating_add(1).min(MOST_TRIES);
    Progress::Waiting {
        tries,
        due: now + 1000 * seconds(tries),
    }
}

/// How long a row waits after so many tries in vain, one at least: in seconds, twice as long after
/// each, and never over 300.
pub fn seconds(tries: u32) -> u64
    requires { 1 ≤ tries }
    ensures wait { result ≡ min 300 (2 ^ (tries - 1)) }
    ensures bound { result ≤ 300 }
{
    match tries {
        1 => 1,
        2 => 2,
        3 => 4,
        4 => 8,
        5 => 16,
        6 => 32,
        7 => 64,
        8 => 128,
        9 => 256,
        _ => 300,
    }
}
