//! The past of a ledger that seals nothing.
ghost use Rattle.std.specs.Prelude.{◌≡◌, []};
ghost use Rattle.dr_store_sealed.specs.Seals.{first_seal};

use crate::fault::PastFault;
use crate::lines::PastLine;
use crate::past::LedgerPast;
use dr_base::Seq;
use dr_ledger_history::JournalLine;
use dr_store_sealed::Seal;
use std::alloc::Global;

/// No lines have left the tables, and none will.
#[derive(Drop)]
pub struct NoPast {
    alloc: Global,
}

impl NoPast {
    /// It takes no memory.
    pub fn new(alloc: Global) -> NoPast {
        NoPast { alloc }
    }
}

impl LedgerPast for NoPast {
    ghost use Rattle.std.specs.Prelude.{◌≡◌, []};
    ghost use Rattle.dr_store_sealed.specs.Seals.{first_seal};
    ghost use Rattle.dr_store_past.specs.Counted.{none_reached};

    ghost all_lines = { [] };

    ghost reach = { λ _. first_seal };

    ghost holds = { λ _ before. before ≡ [] };

    // Nothing is ever written.
    ghost has_written = { λ _ _ _. ⊥ };

    ghost is_honest = { λ _. Unit {0} };

    ghost is_clean = { λ _. Unit {0} };

    ghost takes_lines = { ⊥ };

    ghost is_usable = { λ _. Unit {0} };

    ghost faults = { λ _. 0 };

    ghost reached = { λ _ _. none_reached };

    fn seal(&self) -> Seal {
        Seal::first()
    }

    fn write(&mut self, _lines: &[PastLine]) -> Result<Seal, PastFault> {
        Err(PastFault::Nowhere)
    }

    fn turn_to(&mut self, _last: &Seal) {}

    fn lines_behind(&mut self, _after: u64, _limit: u32) -> Result<Seq<JournalLine>, PastFault> {
        Ok(Seq::new(self.alloc))
    }
}
