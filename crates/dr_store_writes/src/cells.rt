//! Values as the cells of a row.
ghost use Rattle.std.specs.Prelude.{◌≡◌, ◌≤◌, ◌+◌, ◌^◌, pos};
ghost use Rattle.sqlite_value.specs.Value.{owned};
ghost use Rattle.sqlite.specs.declared.types.Value.TheVariants.{Int, Text as TextCell};
ghost use Rattle.dr_store_schema.specs.Cells.{due_of, mark_of, moment_value, outcome_value};
ghost use Rattle.dr_store_schema.specs.Cells.{state_of, tries_of, why_of};

use dr_base::Syntax;
use dr_ledger::{Cause, Outcome, Progress};
use sqlite::types::ValueRef;

/// A number of at most 2^62.
pub fn number_cell(n: u64) -> ValueRef<'static>
    requires { n ≤ 2 ^ 62 }
    ensures { owned result ≡ Int (pos n) }
{
    ValueRef::Int(n as i64)
}

/// The last moment that is told from those behind it.
const LAST_MOMENT: u64 = 1 << 62;

/// A moment (milliseconds), if one is known.
pub fn moment_cell(moment: Option<u64>) -> ValueRef<'static>
    ensures { owned result ≡ moment_value moment }
{
    match moment {
        Some(now) => number_cell(now.min(LAST_MOMENT)),
        None => ValueRef::Null,
    }
}

/// A transfer syntax as its mark.
pub fn syntax_cell(syntax: Syntax) -> ValueRef<'static>
    ensures { owned result ≡ TextCell (mark_of syntax) }
{
    match syntax {
        Syntax::Implicit => ValueRef::Text(b"I"),
        Syntax::Explicit => ValueRef::Text(b"E"),
    }
}

pub fn state_cell(progress: Progress) -> ValueRef<'static>
    ensures { owned result ≡ Int (pos (state_of progress)) }
{
    match progress {
        Progress::Waiting { .. } => ValueRef::Int(0),
        Progress::Held(_) => ValueRef::Int(1),
        Progress::Done => ValueRef::Int(2),
        Progress::Dropped => ValueRef::Int(3),
    }
}

pub fn tries_cell(progress: Progress) -> ValueRef<'static>
    ensures { owned result ≡ Int (pos (tries_of progress)) }
{
    match progress {
        Progress::Waiting { tries, .. } => ValueRef::Int(i64::from(tries)),
        Progress::Held(_) | Progress::Done | Progress::Dropped => ValueRef::Int(0),
    }
}

/// The moment when a row is due (milliseconds).
pub fn due_cell(progress: Progress) -> ValueRef<'static>
    requires { due_of progress ≤ 2 ^ 62 + 300000 }
    ensures { owned result ≡ Int (pos (due_of progress)) }
{
    match progress {
        Progress::Waiting { due, .. } => ValueRef::Int(due as i64),
        Progress::Held(_) | Progress::Done | Progress::Dropped => ValueRef::Int(0),
    }
}

pub fn why_cell(progress: Progress) -> ValueRef<'static>
    ensures { owned result ≡ why_of progress }
{
    match progress {
        Progress::Held(Cause::Status(status)) => ValueRef::Int(i64::from(status)),
        Progress::Held(Cause::Unreadable) => ValueRef::Int(-2),
        Progress::Held(Cause::NoContext)
        | Progress::Waiting { .. }
        | Progress::Done
        | Progress::Dropped => ValueRef::Null,
    }
}

pub fn outcome_cell(outcome: Outcome) -> ValueRef<'static>
    ensures { owned result ≡ outcome_value outcome }
{
    match outcome {
        Outcome::Status(status) => ValueRef::Int(i64::from(status)),
        Outcome::Broken => ValueRef::Null,
        Outcome::NoContext => ValueRef::Int(-1),
        Outcome::Unreadable => ValueRef::Int(-2),
    }
}
