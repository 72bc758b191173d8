//! Laws of books whose first lines stand elsewhere. Nothing here runs: each function's contract is
//! a law.
ghost use Rattle.dr_ledger_past.specs.Laws.{AdoptionsGoOn, AnswersAreAlike, AskingsAreAlike};
ghost use Rattle.dr_ledger_past.specs.Laws.{BooksStayApart, CallsAreAlike, CallsGoOn, FoldsGoOn};
ghost use Rattle.dr_ledger_past.specs.Laws.{HistoriesAreAlike, JournalsGoOn};
ghost use Rattle.dr_ledger_past.specs.Laws.{JournalsWithPastsAreSolid, LeavingLinesChangeNothing};
ghost use Rattle.dr_ledger_past.specs.Laws.{LinesAreBoth, MoreLines, NoPastChangesNothing};
ghost use Rattle.dr_ledger_past.specs.Laws.{OneLineMore, PastsAreOne, PastsStayApart};
ghost use Rattle.dr_ledger_past.specs.Laws.{WhatWasMadeCounts};

use dr_ledger::laws::Routed;

/// No past changes nothing, and two are one. Books stay apart with a past, and pasts before a book.
/// Nothing changes where lines go from a book to the end of its past.
pub fn pasts_stand_before_lines()
    ensures none { NoPastChangesNothing }
    ensures two { PastsAreOne }
    ensures books { BooksStayApart }
    ensures pasts { PastsStayApart }
    ensures leaving { LeavingLinesChangeNothing }
{}

/// Lines make with a past what they make without it, and of what the past made what they make of
/// all.
pub fn lines_make_the_same()
    ensures one { OneLineMore }
    ensures more { MoreLines }
    ensures folds { FoldsGoOn }
{}

/// Each call answers the same with a past as without it, and asks for the same; only the lines
/// differ.
pub fn answers_are_the_same<R: Routed>()
    ensures calls { CallsAreAlike R.routing }
    ensures answers { AnswersAreAlike R.routing }
    ensures askings { AskingsAreAlike R.routing }
    ensures lines { LinesAreBoth }
{}

/// With a past, a book is what its journal makes just where it goes on from what the past made, and
/// no more of the past counts.
pub fn journals_go_on<R: Routed>()
    ensures histories { HistoriesAreAlike R.routing }
    ensures journals { JournalsGoOn R.routing }
    ensures made { WhatWasMadeCounts R.routing }
{}

/// Such a book stays one by each call, and by an adoption under the next plan. It is solid.
pub fn calls_go_on<R: Routed, N: Routed>()
    ensures calls { CallsGoOn R.routing }
    ensures adoptions { AdoptionsGoOn R.routing N.routing }
    ensures solid { JournalsWithPastsAreSolid R.routing }
{}
