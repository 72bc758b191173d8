//! Laws of verdicts.
ghost use Rattle.dr_check.specs.Laws.{OneIsNamedAtAnEntry, OneIsNamedFirst, ShownFaultsAreUnsound};
ghost use Rattle.dr_check.specs.Laws.{TooLargeHasManyLines};

/// What a no shows, no sound plan has: so yes and no exclude each other.
pub fn shown_faults_are_unsound()
    ensures { ShownFaultsAreUnsound }
{}

/// A plan that is too large has no certificate that can be read back: so yes and too large exclude
/// each other.
pub fn too_large_has_many_lines()
    ensures { TooLargeHasManyLines }
{}

/// Which fault is named at an entry follows from the plan: of those that show themselves from
/// there, just one is named first.
pub fn one_is_named_at_an_entry()
    ensures { OneIsNamedAtAnEntry }
{}

/// Which fault is named follows from the plan: of all that show themselves, just one is.
pub fn one_is_named_first()
    ensures { OneIsNamedFirst }
{}
