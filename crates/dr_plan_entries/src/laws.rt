//! Laws of the order of entries.
ghost use Rattle.dr_plan_entries.specs.Laws.{BeforeGoesOn, ImplicitIsFirst, NoneIsBeforeItself};
ghost use Rattle.dr_plan_entries.specs.Laws.{OneIsBefore, PrefixIsAmongLiterals};
ghost use Rattle.dr_plan_entries.specs.Laws.{RestIsAmongLiterals};

/// The entries of a plan stand in one order.
pub fn entries_are_ordered()
    ensures apart { NoneIsBeforeItself }
    ensures onward { BeforeGoesOn }
    ensures whole { OneIsBefore }
{}

/// What is before what, by example.
pub fn entries_by_example()
    ensures syntax { ImplicitIsFirst }
    ensures modality { RestIsAmongLiterals }
    ensures station { PrefixIsAmongLiterals }
{}
