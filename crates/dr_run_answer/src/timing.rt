//! How long the ledger was locked, as figures.
ghost use Rattle.std.specs.Prelude.{◌≡◌, ◌++◌, OnOk};
ghost use Rattle.dr_run_answer.specs.Answers.{in_seconds, lock_figures, seconds_figure};
ghost use Rattle.dr_run_answer.specs.Answers.{three_digits};

use crate::figures::{put_figure, put_head};
use dr_base::fields::add_decimal;
use dr_ledger_timed::Timing;
use std::alloc::AllocError;

/// Adds the last three digits of a number.
fn put_digits(out: &mut Vec<u8>, value: u64) -> Result<(), AllocError>
    ensures { OnOk result (out.new.items ≡ out.old.items ++ three_digits value) }
{
    add_decimal(out, value / 100 % 10)?;
    add_decimal(out, value / 10 % 10)?;
    add_decimal(out, value % 10)
}

/// Adds a time in seconds, with six decimals.
fn put_seconds(out: &mut Vec<u8>, microseconds: u64) -> Result<(), AllocError>
    ensures { OnOk result (out.new.items ≡ out.old.items ++ in_seconds microseconds) }
{
    add_decimal(out, microseconds / 1_000_000)?;
    out.extend_from_slice(b".")?;
    put_digits(out, microseconds / 1_000 % 1_000)?;
    put_digits(out, microseconds % 1_000)
}

/// Adds a time as a figure of the whole node.
fn put_time(out: &mut Vec<u8>, name: &str, kind: &str, microseconds: u64) -> Result<(), AllocError>
    ensures { OnOk result
        (out.new.items ≡ out.old.items ++ seconds_figure name.now kind.now microseconds) }
{
    put_head(out, name, kind)?;
    put_seconds(out, microseconds)?;
    out.extend_from_slice(b"\n")
}

/// Adds how many calls locked the ledger, for how long in all, and for how long the longest did.
pub fn put_lock(out: &mut Vec<u8>, timing: Timing) -> Result<(), AllocError>
    ensures { OnOk result (out.new.items ≡ out.old.items ++ lock_figures timing) }
{
    put_figure(out, "dr_router_lock_calls_total", "counter", timing.calls)?;
    put_time(out, "dr_router_lock_seconds_total", "counter", timing.total)?;
    put_time(
        out,
        "dr_router_lock_longest_seconds",
        "gauge",
        timing.longest,
    )
}
