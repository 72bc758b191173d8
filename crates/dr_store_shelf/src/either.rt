//! The shelf of a ledger that says itself where its data sets are.
use crate::fault::ShelfFault;
use crate::in_file::InFile;
use crate::in_row::InRow;
use crate::shelf::{BodyCell, Shelf};
use sqlite_disk::Disk;

/// All data sets of a ledger are in its rows, or all are in a file beside the database.
#[derive(Drop)]
pub enum LedgerShelf<D: Disk> {
    InRow(InRow),
    InFile(InFile<D>),
}

impl<D: Disk> Shelf for LedgerShelf<D> {
    ghost use Rattle.dr_store_shelf.specs.Either.{AreApartIf, EndsOn, IsCleanOn, IsNewOn};
    ghost use Rattle.dr_store_shelf.specs.Either.{IsUsableOn, PassesOn};
    ghost use Rattle.dr_store_shelf.specs.Either.{StandsOn, UsesOn, apart_swaps, body_on};
    ghost use Rattle.dr_store_shelf.specs.Either.{faults_on, held_on, named_on, only_on, passed_on};
    ghost use Rattle.dr_store_shelf.specs.Either.{read_on, reads_on};

    ghost stands = { λ it. StandsOn it };

    ghost uses = { λ it. UsesOn it };

    ghost body_of = { λ it. body_on it };

    ghost named = { λ it. named_on it };

    ghost apart = { AreApartIf };

    ghost swaps = { apart_swaps };

    ghost passes = { λ it. PassesOn it };

    ghost read_of = { λ it. read_on it };

    ghost is_new = { λ it. IsNewOn it };

    ghost ends = { λ it. EndsOn it };

    ghost is_clean = { λ it. IsCleanOn it };

    ghost is_usable = { λ it. IsUsableOn it };

    ghost faults = { λ it. faults_on it };

    ghost only = { λ it. only_on it };

    ghost passed = { λ it. passed_on it };

    ghost reads = { λ it. reads_on it };

    ghost held = { λ it. held_on it };

    fn names_places(&self) -> bool {
        match self {
            LedgerShelf::InRow(rows) => rows.names_places(),
            LedgerShelf::InFile(file) => file.names_places(),
        }
    }

    fn may_be_used(&self) -> bool {
        match self {
            LedgerShelf::InRow(rows) => rows.may_be_used(),
            LedgerShelf::InFile(file) => file.may_be_used(),
        }
    }

    fn put(&mut self, body: &[u8]) -> Result<BodyCell, ShelfFault> {
        match self {
            LedgerShelf::InRow(rows) => rows.put(body),
            LedgerShelf::InFile(file) => file.put(body),
        }
    }

    fn get(&mut self, cell: Vec<u8>) -> Result<Vec<u8>, ShelfFault> {
        match self {
            LedgerShelf::InRow(rows) => rows.get(cell),
            LedgerShelf::InFile(file) => file.get(cell),
        }
    }

    fn look(&mut self, cell: Vec<u8>) -> Result<Option<Vec<u8>>, ShelfFault> {
        match self {
            LedgerShelf::InRow(rows) => rows.look(cell),
            LedgerShelf::InFile(file) => file.look(cell),
        }
    }

    fn let_go(&mut self, cell: &[u8]) {
        match self {
            LedgerShelf::InRow(rows) => rows.let_go(cell),
            LedgerShelf::InFile(file) => file.let_go(cell),
        }
    }
}
