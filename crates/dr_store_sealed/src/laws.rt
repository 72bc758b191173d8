//! What follows from the definitions alone.
ghost use Rattle.dr_store_sealed.specs.Laws.{EndsInItsSeal, GoOn, HaveOnePast, NextFileTakes};
ghost use Rattle.dr_store_sealed.specs.Laws.{LinesAreReadBack, SealsAreOne, SealsAreReadBack};
ghost use Rattle.dr_store_sealed.specs.Laws.{SpansGoOn};

/// Lines have one seal.
pub fn seals_are_one()
    ensures { SealsAreOne }
{}

/// The seal of more lines, and their bytes, go on from those of the first ones. What a file has
/// from one seal to the next, and from there to a third, it has from the first to the third.
pub fn lines_go_on()
    ensures seals { GoOn }
    ensures spans { SpansGoOn }
{}

/// A line behind a full file is the first of the next file.
pub fn the_next_file_takes_what_a_full_one_refuses()
    ensures { NextFileTakes }
{}

/// Bytes are those of one list of lines at most.
pub fn what_is_written_is_read()
    ensures { LinesAreReadBack }
{}

/// A file of lines ends as its seal says, so none is refused for its last line.
pub fn a_file_ends_in_its_seal()
    ensures { EndsInItsSeal }
{}

/// Where no two texts have one SHA-256, a seal is that of one list of lines.
pub fn seals_have_one_past()
    ensures { HaveOnePast }
{}

/// What the tables have for a seal says just that seal.
pub fn seals_are_read_back()
    ensures { SealsAreReadBack }
{}
