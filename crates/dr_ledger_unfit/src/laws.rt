//! Laws of unfit rows. Nothing here runs: each function's contract is a law.
ghost use Rattle.dr_ledger_unfit.specs.Laws.{NoneIsFit, UnfitAreOne};

/// The unfit rows of a book are one list; where it is empty, a ledger of that book may adopt the
/// next plan.
pub fn unfit_rows_are_those_in_the_way()
    ensures one { UnfitAreOne }
    ensures none { NoneIsFit }
{}
