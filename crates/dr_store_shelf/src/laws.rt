//! What follows from the definitions alone.
ghost use Rattle.dr_store_shelf.specs.Laws.{BodyCellsSayWhatWasWritten, NothingStandsBehind};
ghost use Rattle.dr_store_shelf.specs.Laws.{NothingWasCut, NumbersAreRead};

/// Each number that was written is read at its place.
pub fn numbers_are_read()
    ensures { NumbersAreRead }
{}

/// A cell names the place, the length and the digests that were written into it.
pub fn cells_say_what_was_written()
    ensures { BodyCellsSayWhatWasWritten }
{}

/// A cell that ends with its digests has no byte behind them, and none of it was cut.
pub fn cells_end_with_digests()
    ensures behind { NothingStandsBehind }
    ensures cut { NothingWasCut }
{}
