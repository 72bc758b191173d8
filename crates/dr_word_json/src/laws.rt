//! Laws of documents. Nothing here runs: each function's contract is a law.
ghost use Rattle.dr_word_json.specs.Laws.{DocumentFiguresAreRight};

/// Figures of documents.
pub fn figures_are_right()
    ensures { DocumentFiguresAreRight }
{}
