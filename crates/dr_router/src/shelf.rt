//! The shelf of a ledger in the system's files.
use dr_store_data::LedgerShelf;
use dr_store_shelf::{BodyCell, Shelf, ShelfFault};
use sqlite::File;

/// A ledger's shelf, whose file is a file of the kit, if it has one. What is proved of ledgers over
/// it names no disk: the types of a shelf over any disk are too many for the prover to compare,
/// where the program is put together.
#[derive(Drop)]
pub struct FileShelf(pub LedgerShelf<File>);

impl Shelf for FileShelf {
    ghost use Rattle.dr_store_shelf.specs.Either.{AreApartIf, EndsOn, IsCleanOn, IsNewOn};
    ghost use Rattle.dr_store_shelf.specs.Either.{IsUsableOn, PassesOn};
    ghost use Rattle.dr_store_shelf.specs.Either.{StandsOn, UsesOn, apart_swaps, body_on};
    ghost use Rattle.dr_store_shelf.specs.Either.{faults_on, held_on, named_on, only_on, passed_on};
    ghost use Rattle.dr_store_shelf.specs.Either.{read_on, reads_on};

    ghost stands = { λ it. StandsOn it.0 };

    ghost uses = { λ it. UsesOn it.0 };

    ghost body_of = { λ it. body_on it.0 };

    ghost named = { λ it. named_on it.0 };

    ghost apart = { AreApartIf };

    ghost swaps = { apart_swaps };

    ghost passes = { λ it. PassesOn it.0 };

    ghost read_of = { λ it. read_on it.0 };

    ghost is_new = { λ it. IsNewOn it.0 };

    ghost ends = { λ it. EndsOn it.0 };

    ghost is_clean = { λ it. IsCleanOn it.0 };

    ghost is_usable = { λ it. IsUsableOn it.0 };

    ghost faults = { λ it. faults_on it.0 };

    ghost only = { λ it. only_on it.0 };

    ghost passed = { λ it. passed_on it.0 };

    ghost reads = { λ it. reads_on it.0 };

    ghost held = { λ it. held_on it.0 };

    fn names_places(&self) -> bool {
        self.0.names_places()
    }

    fn may_be_used(&self) -> bool {
        self.0.may_be_used()
    }

    fn put(&mut self, body: &[u8]) -> Result<BodyCell, ShelfFault> {
        self.0.put(body)
    }

    fn get(&mut self, cell: Vec<u8>) -> Result<Vec<u8>, ShelfFault> {
        self.0.get(cell)
    }

    fn look(&mut self, cell: Vec<u8>) -> Result<Option<Vec<u8>>, ShelfFault> {
        self.0.look(cell)
    }

    fn let_go(&mut self, cell: &[u8]) {
        self.0.let_go(cell)
    }
}
