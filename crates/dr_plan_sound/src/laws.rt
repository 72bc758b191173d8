//! Laws of sound plans.
ghost use Rattle.dr_plan_sound.specs.HopLists.{HopsHaveLists};
ghost use Rattle.dr_plan_sound.specs.Laws.{RankedLinesAreTheLines, ShownPairsAreTheHops};
ghost use Rattle.dr_plan_sound.specs.Laws.{RankedLinesAreSound, SoundPlansHaveRanks};
ghost use Rattle.dr_plan_sound.specs.Laws.{HopsLeadToAddresses};
ghost use Rattle.dr_plan_sound.specs.Samples.{TwoNodesAreSound, WithoutKeepTheyAreNot};

/// Lines that are right one by one are exactly the plan's lines, and their ranks are the greatest.
pub fn ranked_lines_are_the_lines()
    ensures { RankedLinesAreTheLines }
{}

/// The pairs that such lines show for a hop are those that go over it, and with at most 128 of them
/// over each hop the plan is sound.
pub fn ranked_lines_make_a_sound_plan()
    ensures pairs { ShownPairsAreTheHops }
    ensures sound { RankedLinesAreSound }
{}

/// The pairs that go over each hop of a sound plan with its certificate make a list in byte order.
pub fn hops_have_lists()
    ensures { HopsHaveLists }
{}

/// In a sound plan each place that a key comes to has a rank, so its walks end.
pub fn sound_plans_have_ranks()
    ensures { SoundPlansHaveRanks }
{}

/// The sample plan of two nodes is sound: instances enter at a scanner, and the archive keeps them.
pub fn two_nodes_are_sound()
    ensures { TwoNodesAreSound }
{}

/// Where the archive doesn't keep, the plan isn't sound.
pub fn without_keep_they_are_not()
    ensures { WithoutKeepTheyAreNot }
{}

/// In a sound plan each hop over which something goes leads to a node that listens.
pub fn hops_lead_to_addresses()
    ensures { HopsLeadToAddresses }
{}
