//! What holds of all pages. Nothing here runs: each function's contract is a law.
ghost use Rattle.dr_run_page.specs.Laws.{AreWrittenSo, IsNoMarkup};

/// What stands for bytes that a peer sent is no markup.
pub fn bytes_are_no_markup()
    ensures { IsNoMarkup }
{}

/// Rows and lights are written so.
pub fn rows_are_written_so()
    ensures { AreWrittenSo }
{}
