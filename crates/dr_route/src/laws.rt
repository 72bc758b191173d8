//! Laws of rules and cells: what a reader may take from the definitions.
ghost use Rattle.dr_route.specs.Laws.{LocalIsNobody, AgreeInSends, AgreeInKeeps, CellsCover};
ghost use Rattle.dr_route.specs.Laws.{AgreeInHolding, ExceptionsAreNotHeld, OthersAreHeld};
ghost use Rattle.dr_route.specs.Laws.{NoExceptionsAsBefore, HoldsForAllButOne};
ghost use Rattle.dr_route.specs.Laws.{CellsAreApart, LongestIsOne, EachCellHasAKey};
ghost use Rattle.dr_route.specs.Laws.{SameValuesMakeSameCells};

/// No rule speaks of what enters at a node itself: `*` doesn't match the local caller, and nothing
/// is kept or sent by a rule for it.
pub fn no_rule_holds_for_the_local_caller()
    ensures { LocalIsNobody }
{}

/// A rule doesn't hold for its exceptions. For all other stations it is what it would be without
/// them; so without exceptions it is what it was before there were any.
pub fn exceptions_are_not_held()
    ensures excepted { ExceptionsAreNotHeld }
    ensures others { OthersAreHeld }
    ensures none { NoExceptionsAsBefore }
    ensures figure { HoldsForAllButOne }
{}

/// Keys of one cell are told apart by no rules whose literals are the plan's, exceptions among
/// them: a rule holds for both or for neither, they are sent to the same nodes, and kept alike.
pub fn keys_of_one_cell_agree()
    ensures holds { AgreeInHolding }
    ensures sends { AgreeInSends }
    ensures keeps { AgreeInKeeps }
{}

/// Each key lies in one cell, and in no other.
pub fn each_key_lies_in_one_cell()
    ensures some { CellsCover }
    ensures one { CellsAreApart }
{}

/// In whatever order a plan's values stand, its cells are the same.
pub fn the_same_values_make_the_same_cells()
    ensures { SameValuesMakeSameCells }
{}

/// A value begins with one longest prefix at most.
pub fn the_longest_prefix_is_one()
    ensures { LongestIsOne }
{}

/// Each cell of a plan whose literals are printable has a key of bytes.
pub fn each_cell_has_a_key()
    ensures { EachCellHasAKey }
{}
