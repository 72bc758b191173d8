//! Laws of changes: what a reader may take from the definitions.
ghost use Rattle.dr_cert_diff.specs.Laws.{SamePlanHasNoChange, WhatIsLostIsGainedBack};

/// From a plan to itself nothing changes, and no change is told.
pub fn the_same_plan_changes_nothing()
    ensures { SamePlanHasNoChange }
{}

/// What is lost from one plan to another is gained on the way back, for each key.
pub fn what_is_lost_is_gained_back()
    ensures { WhatIsLostIsGainedBack }
{}
