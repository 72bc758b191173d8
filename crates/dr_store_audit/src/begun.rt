//! What a ledger had before the lines of its tables.
ghost use Rattle.std.specs.Prelude.{[]};
ghost use Rattle.dr_store_audit.specs.Begun.{HasBegun};

use dr_ledger_history::History;
use std::alloc::Global;

/// What the lines of a ledger's past made, which don't stand in its tables any more.
#[derive(Drop)]
pub struct Begun {
    /// What they made.
    pub history: History,
    /// The number of the first line behind them.
    pub first: u64,
}

impl Begun {
    /// Of no past, whose ledger has all its lines in its tables; it takes no memory.
    pub fn new(alloc: Global) -> Begun
        ensures { HasBegun [] result }
    {
        Begun {
            history: History::new(alloc),
            first: 1,
        }
    }
}
