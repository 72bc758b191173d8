//! Laws of texts between quotes. Nothing here runs: each function's contract is a law.
ghost use Rattle.dr_base_quoted.specs.Laws.{EscapesAreRight, QuotedFiguresAreRight};

/// Figures of texts between quotes.
pub fn figures_are_right()
    ensures { QuotedFiguresAreRight }
{}

/// Figures of texts of which a quote and a backslash alone are told apart.
pub fn escapes_are_right()
    ensures { EscapesAreRight }
{}
