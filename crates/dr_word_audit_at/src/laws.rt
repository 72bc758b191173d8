//! Laws of journals that are cut. Nothing here runs: each function's contract is a law.
ghost use Rattle.dr_word_audit_at.specs.Laws.{CutsBegin, MendingIsRight, TheWholeIsACut};

/// A journal begins with each of its cuts, and is one of them.
pub fn cuts_are_beginnings()
    ensures begins { CutsBegin }
    ensures whole { TheWholeIsACut }
{}

/// Which lines say that an instance arrived, or that it goes on.
pub fn what_mends()
    ensures { MendingIsRight }
{}
