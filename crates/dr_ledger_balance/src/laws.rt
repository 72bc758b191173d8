//! Laws of balances as text. Nothing here runs: each function's contract is a law.
ghost use Rattle.dr_ledger_balance.specs.Laws.{LinesHaveOneBalance, RefusalsCanCome};
ghost use Rattle.dr_ledger_balance.specs.Laws.{BalanceFiguresAreRight, TextsAreOfOneBalance};
ghost use Rattle.dr_ledger_balance.specs.Laws.{TreesAreSaid, BalancesAreReadAgain};

/// A text is of one balance: so a balance is read out of its text, and no two have the same one.
pub fn texts_are_of_one_balance()
    ensures { TextsAreOfOneBalance }
{}

/// What is written of a balance is read again, unless memory is wanted.
pub fn balances_are_read_again()
    ensures { BalancesAreReadAgain }
{}

/// Lines of a journal have one balance: two files of the same first lines are the same.
pub fn lines_have_one_balance()
    ensures { LinesHaveOneBalance }
{}

/// What `put_balance` writes of trees is a balance in order, of what they hold.
pub fn trees_are_said()
    ensures { TreesAreSaid }
{}

/// Figures in bytes.
pub fn balance_figures_are_right()
    ensures { BalanceFiguresAreRight }
{}

/// Each refusal but Memory can come.
pub fn refusals_can_come()
    ensures { RefusalsCanCome }
{}
