//! Figures of an example.
ghost use Rattle.dr_ledger_past.specs.Figures.{PastFiguresAreRight};

/// A past, what goes on from it, and what doesn't.
pub fn figures_are_right()
    ensures { PastFiguresAreRight }
{}
