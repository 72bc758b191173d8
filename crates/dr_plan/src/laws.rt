//! Laws of reading plans: what a caller may take from the contract of `read_plan`.
ghost use Rattle.dr_plan.specs.Laws.{CoresAreRead, EachTextHasOneAnswer, PlansAreWellFormed};

/// Want of memory aside, a text is answered in one way: it is one plan, or it has one first fault.
pub fn a_text_has_one_answer()
    ensures { EachTextHasOneAnswer }
{}

/// The plan of a text is well-formed: its names, literals, classes and addresses have their forms,
/// its names are names of its nodes, nothing goes to its own node, it keeps the limits, and in
/// format 1 it names no prefix.
pub fn the_plan_of_a_text_is_well_formed()
    ensures { PlansAreWellFormed }
{}

/// The plan that is read of a text as it stands is the text's plan, but for format 3.
pub fn cores_are_read()
    ensures { CoresAreRead }
{}
