//! Laws of what is asked of a book. Nothing here runs: each function's contract is a law.
ghost use Rattle.dr_ledger_views.specs.Laws.{CallersAreOne, CallersAreRight, CountsAddUp};
ghost use Rattle.dr_ledger_views.specs.Laws.{EmptyPagesAreTheEnd, ViewFiguresAreRight};
ghost use Rattle.dr_ledger_views.specs.Laws.{FirstsAreDue};
ghost use Rattle.dr_ledger_views.specs.Laws.{LeastIsOne, NobodyBringsNothing, NoneIsNeverDue};
ghost use Rattle.dr_ledger_views.specs.Laws.{PagesAreTheWhole};
ghost use Rattle.dr_ledger_views.specs.LineLaws.{EmptyLinePagesAreTheEnd, LineFiguresAreRight};
ghost use Rattle.dr_ledger_views.specs.LineLaws.{LinePagesAreTheWhole, LinesRise};

/// The counts of a destination add up to all of its rows.
pub fn counts_add_up()
    ensures { CountsAddUp }
{}

/// Pages in a row are the whole list, and end with an empty one.
pub fn pages_are_the_whole()
    ensures whole { PagesAreTheWhole }
    ensures end { EmptyPagesAreTheEnd }
{}

/// Pages of lines in a row are the whole journal, and end with an empty one.
pub fn line_pages_are_the_whole()
    ensures rise { LinesRise }
    ensures whole { LinePagesAreTheWhole }
    ensures end { EmptyLinePagesAreTheEnd }
{}

/// A row is due just from the first moment on.
pub fn firsts_are_due()
    ensures one { LeastIsOne }
    ensures some { FirstsAreDue }
    ensures none { NoneIsNeverDue }
{}

/// The callers of an instance are one list, and of what isn't noted an empty one.
pub fn callers_are_one()
    ensures one { CallersAreOne }
    ensures none { NobodyBringsNothing }
{}

/// Figures of callers.
pub fn callers_are_right()
    ensures { CallersAreRight }
{}

/// Figures of an example.
pub fn figures_are_right()
    ensures { ViewFiguresAreRight }
{}

/// Figures of lines with their numbers.
pub fn line_figures_are_right()
    ensures { LineFiguresAreRight }
{}
