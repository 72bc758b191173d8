//! Laws of reading plans as they stand.
ghost use Rattle.dr_plan_core.specs.Laws.{CoresAreWellFormed, EachCoreHasOneAnswer};

/// Want of memory aside, a text is read as it stands in one way.
pub fn a_core_has_one_answer()
    ensures { EachCoreHasOneAnswer }
{}

/// The plan of a text that is read as it stands is well-formed: its names, literals, classes and
/// addresses have their forms, its names are names of its nodes, nothing goes to its own node, a
/// node that listens nowhere accepts nothing, it keeps the limits, and its format has what it names
/// and how its nodes listen.
pub fn cores_are_well_formed()
    ensures { CoresAreWellFormed }
{}
