//! What an adoption makes of the book.
ghost use Rattle.dr_store_calls.specs.AdoptionLaws.{AdoptedLedgersAreOfTheNext, AdoptionsAdopt};
ghost use Rattle.dr_store_calls.specs.AdoptionLaws.{AdoptionsKeepMarkAndSeal, AdoptionsKeepTheSeal};
ghost use Rattle.dr_store_calls.specs.AdoptionLaws.{EmptyTablesAreOwnedByNone, OwnersAreOne};

/// Where arrivals and done rows leave, and the line of an adoption stands in the journal, the book
/// is that after an adoption.
pub fn adoptions_adopt()
    ensures { AdoptionsAdopt }
{}

/// The tables are then those of a ledger of the next site.
pub fn adopted_ledgers_are_of_the_next()
    ensures { AdoptedLedgersAreOfTheNext }
{}

/// Tables have one owner, with one mark and one seal.
pub fn owners_are_one()
    ensures { OwnersAreOne }
{}

/// Where site has no row, they have none.
pub fn empty_tables_are_owned_by_none()
    ensures { EmptyTablesAreOwnedByNone }
{}

/// No adoption loses the mark of the file that has a ledger's data sets, nor how far lines go that
/// have left its tables.
pub fn adoptions_keep_mark_and_seal()
    ensures { AdoptionsKeepMarkAndSeal }
{}

/// The lines that have left the tables go as far after an adoption as before it.
pub fn adoptions_keep_the_seal()
    ensures { AdoptionsKeepTheSeal }
{}
