//! What a past is good for: lines may leave the tables.
ghost use Rattle.dr_store_calls.specs.PastLaws.{LinesMayLeave, NumbersCountAllLines};
ghost use Rattle.dr_store_calls.specs.PastLaws.{NumbersGoOnFromTheSeal, SealingsKeepTheBook};
ghost use Rattle.dr_store_calls.specs.PastLaws.{SealsCountThePast};

/// Where all lines leave the tables, and stand behind the past then, which their seal counts,
/// nothing else changes.
pub fn lines_may_leave()
    ensures { LinesMayLeave }
{}

/// The next line's number counts all lines, wherever they stand.
pub fn numbers_count_all_lines()
    ensures { NumbersCountAllLines }
{}

/// A sealing leaves the book with its past as it was.
pub fn sealings_keep_the_book()
    ensures { SealingsKeepTheBook }
{}

/// It counts those that the seal of the tables counts, and theirs.
pub fn numbers_go_on_from_the_seal()
    ensures { NumbersGoOnFromTheSeal }
{}

/// After a sealing the past has as many lines as the new seal counts.
pub fn seals_count_the_past()
    ensures { SealsCountThePast }
{}
