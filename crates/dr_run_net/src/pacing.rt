//! How fast a message has to come that is under way.
ghost use Rattle.std.specs.Prelude.{◌≤◌, ◌<◌, ◌+◌, MatchBool};
ghost use Rattle.dr_run_net.specs.Hearing.{IsSwift, IsTooSlow, IsWidened};

use crate::window::Window;

/// So much has to come in each time that the limit gives, in bytes.
const QUOTA: u64 = 65_536;

/// The window after so many bytes more.
pub fn widen(window: Option<Window>, count: usize, now: u64) -> Window
    ensures { IsWidened now count window result }
{
    let (since, brought) = match window {
        Some(window) => (window.since, window.brought),
        None => (now, 0),
    };
    let count = count as u64;
    if count >= QUOTA - brought {
        return Window {
            since: now,
            brought: 0,
        };
    }
    Window {
        since,
        brought: brought + count,
    }
}

/// Whether a message that is under way has brought too little for so many milliseconds.
pub fn is_slow(window: Option<Window>, limit: u64, now: u64) -> bool
    ensures { MatchBool result (IsTooSlow limit now window) (IsSwift limit now window) }
{
    match window {
        Some(window) => is_past(window.since, limit, now),
        None => false,
    }
}

/// Whether so many milliseconds have passed since a moment.
pub fn is_past(since: u64, limit: u64, now: u64) -> bool
    ensures { MatchBool result (since + limit ≤ now) (now < since + limit) }
{
    if now < since || now - since < limit {
        return false;
    }
    true
}
