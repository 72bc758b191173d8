//! Laws of what is read of a journal. Nothing here runs: each function's contract is a law.
ghost use Rattle.dr_run_serve.specs.Laws.{BeginningsAreRead, TheWholeIsRead};

/// Where a desk tells the pages of one journal, what is read are first lines of it, and where it
/// says that it is all, it is.
pub fn what_is_read()
    ensures begins { BeginningsAreRead }
    ensures whole { TheWholeIsRead }
{}
