//! Laws of what an opening begins with. Nothing here runs: each function's contract is a law.
ghost use Rattle.dr_store_begun.specs.Laws.{BalancesBeyondAreWrong, BalancesStayRight};
ghost use Rattle.dr_store_begun.specs.Laws.{BeginningsAreWorked, NoLinesKeepNothing};
ghost use Rattle.dr_store_begun.specs.Laws.{NoLinesMakeNothing, OthersGoOnAsJournals};
ghost use Rattle.dr_store_begun.specs.Laws.{PastsHaveOneBeginning, PastsThatAreOverGoOn};

use dr_ledger::laws::Routed;

/// Two openings behind the same lines begin with the same.
pub fn pasts_have_one_beginning()
    ensures { PastsHaveOneBeginning }
{}

/// What `agree` of `dr_store_audit` asks of a past besides: that the lines of the tables go on from
/// it under the plan in force. It is so by itself of a past that ends with an adoption, or has no
/// lines. If none of the tables' lines adopts a plan, it is so just of a past that is a journal
/// under that plan.
pub fn lines_go_on_from_a_past<R: Routed>()
    ensures over { PastsThatAreOverGoOn R.routing }
    ensures others { OthersGoOnAsJournals R.routing }
{}

/// A balance that lags is right still. One that counts more lines than the past has is right of no
/// past, so nothing is lost where it is refused. Of no lines it says nothing, and nothing else.
pub fn balances_lag()
    ensures lag { BalancesStayRight }
    ensures beyond { BalancesBeyondAreWrong }
    ensures none { NoLinesMakeNothing }
    ensures nothing { NoLinesKeepNothing }
{}

/// Examples of pasts and of faults.
pub fn beginnings_are_worked()
    ensures { BeginningsAreWorked }
{}
