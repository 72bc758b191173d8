//! Laws of journals that match: what a reader may take from the definitions.
ghost use Rattle.dr_world_journals.specs.Hops.{HopsDecide};
ghost use Rattle.dr_world_journals.specs.Laws.{AStoreMatches};
ghost use Rattle.dr_world_journals.specs.Mismatching.{EachClauseCanFail};

/// For each clause there are journals that fail it alone.
pub fn journals_can_mismatch()
    ensures { EachClauseCanFail }
{}

/// After one store the journals of the two nodes match: the one notes a success, and the other has
/// the arrival.
pub fn a_store_matches()
    ensures { AStoreMatches }
{}

/// Who compares three lists of hops, each read off the journals line by line, knows whether they
/// match.
pub fn hops_decide()
    ensures { HopsDecide }
{}
