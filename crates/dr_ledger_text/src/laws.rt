//! Laws of lines as text. Nothing here runs: each function's contract is a law.
ghost use Rattle.dr_ledger_text.specs.Laws.{TextFiguresAreRight, TextsAreOfOneLine};
ghost use Rattle.dr_ledger_text.specs.Laws.{TextsAreOneLine};

/// The text of a sealed line is of one line, with one number and one moment: so a journal is read
/// out of the texts of its lines, and no two journals have the same ones.
pub fn texts_are_of_one_line()
    ensures { TextsAreOfOneLine }
{}

/// No byte of it ends a line, whatever a peer sent.
pub fn texts_are_one_line()
    ensures { TextsAreOneLine }
{}

/// Figures in bytes.
pub fn text_figures_are_right()
    ensures { TextFiguresAreRight }
{}
