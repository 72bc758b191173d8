//! What site says behind a plan.
ghost use Rattle.dr_store_calls.specs.SealLaws.{CellsAreOfOneSeal, SealsAreRead};

/// A cell is of one plan, one mark and one seal.
pub fn cells_are_of_one_seal()
    ensures { CellsAreOfOneSeal }
{}

/// The seal with which a site owns the tables is the one that they say.
pub fn seals_are_read()
    ensures { SealsAreRead }
{}
