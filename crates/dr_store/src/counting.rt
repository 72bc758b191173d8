//! The counts of a ledger: of its lines, and of the failures of its store.
ghost use Rattle.std.specs.Prelude.{◌≡◌, ◌≤◌, ◌-◌, ◌^◌, OnOk};
ghost use Rattle.dr_ledger.specs.Replies.{Counts};
ghost use Rattle.dr_store_calls.specs.Calling.{advanced};
ghost use Rattle.dr_store.specs.Counting.{failures_after, failures_with};

use dr_ledger::LedgerFault;

/// How often the store has failed, after a call with this answer.
pub fn counted<T>(answer: &Result<T, LedgerFault>, failures: u64) -> u64
    ensures after { result ≡ failures_after answer.now failures }
    ensures counts { Counts answer.now failures result }
{
    count_of(answer, failures)
}

fn count_of<T>(answer: &Result<T, LedgerFault>, failures: u64) -> u64
    ensures { result ≡ failures_after answer.now failures }
{
    match answer {
        Ok(_) => failures,
        Err(fault) => with_fault(*fault, failures),
    }
}

fn with_fault(fault: LedgerFault, failures: u64) -> u64
    ensures { result ≡ failures_with fault failures }
{
    match fault {
        LedgerFault::Store => failures.saturating_add(1),
        LedgerFault::NoLine => failures,
        LedgerFault::Conflict => failures,
        LedgerFault::NotWaiting => failures,
        LedgerFault::NotHeld => failures,
        LedgerFault::NotOver => failures,
        LedgerFault::Memory => failures,
    }
}

/// The number of the next line, after a call with this answer: each call that is accepted adds one.
pub fn next_after<T>(answer: &Result<T, LedgerFault>, next: u64) -> u64
    requires { OnOk answer.now (next ≤ 2 ^ 62) }
    ensures { result ≡ advanced answer.now next }
{
    match answer {
        Ok(_) => next + 1,
        Err(_) => next,
    }
}

/// How many lines come before the one of that number: the first has number 1.
pub fn lines_before(next: u64) -> u64
    ensures { result ≡ next - 1 }
{
    next.saturating_sub(1)
}
