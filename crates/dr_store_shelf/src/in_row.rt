//! Data sets in the rows of the table.
use crate::fault::ShelfFault;
use crate::shelf::{BodyCell, Shelf};

/// Each data set stands in the row itself: the cell is the data set.
#[derive(Clone, Copy, Debug, Drop)]
pub struct InRow;

impl Shelf for InRow {
    ghost use Rattle.std.specs.Prelude.{◌≡◌, Some, false};
    ghost use Rattle.dr_store_shelf.specs.Tested.{row_held, row_reads};

    ghost stands = { λ _ cell bytes. cell ≡ bytes };

    ghost uses = { λ _ _. Unit {0} };

    ghost body_of = { λ _ cell. cell };

    ghost named = { λ _. false };

    ghost apart = { λ _ _ _. Unit {0} };

    ghost swaps = { λ _ _ _ apart. apart };

    ghost passes = { λ _ cell bytes. cell ≡ bytes };

    ghost read_of = { λ _ cell. Some cell };

    ghost is_new = { λ _. Unit {0} };

    ghost ends = { λ _. Unit {0} };

    ghost is_clean = { λ _. Unit {0} };

    ghost is_usable = { λ _. Unit {0} };

    ghost faults = { λ _. 0 };

    ghost only = { λ _ _ _ is. is };

    ghost passed = { λ _ _ _ is. is };

    ghost reads = { λ _ cell. row_reads cell };

    ghost held = { λ _ cell bytes _ _ is. row_held cell bytes is };

    fn names_places(&self) -> bool {
        false
    }

    fn may_be_used(&self) -> bool {
        true
    }

    fn put(&mut self, _body: &[u8]) -> Result<BodyCell, ShelfFault> {
        Ok(BodyCell::Itself)
    }

    fn get(&mut self, cell: Vec<u8>) -> Result<Vec<u8>, ShelfFault> {
        Ok(cell)
    }

    fn look(&mut self, cell: Vec<u8>) -> Result<Option<Vec<u8>>, ShelfFault> {
        Ok(Some(cell))
    }

    fn let_go(&mut self, _cell: &[u8]) {}
}
