//! Laws of walks: what a reader may take from the definitions.
ghost use Rattle.dr_plan_model.specs.Laws.{LocalNeverKeeps, LocalIsNoNode, SendAlike, KeepAlike};
ghost use Rattle.dr_plan_model.specs.Laws.{EnterAlike, WalkAlike, ReachAlike};
ghost use Rattle.dr_plan_model.specs.Laws.{EachCellOfAPlanHasAKey};
ghost use Rattle.dr_plan_model.specs.Laws.{FormatOneHasNoPrefix, FormatOneKeepsItsCells};
ghost use Rattle.dr_plan_model.specs.Laws.{FormatTwoHasNoPrefix, FormatTwoKeepsItsModalities};
ghost use Rattle.dr_plan_model.specs.Laws.{NowhereAcceptsNothing, EarlierBindToTheirAddress};
ghost use Rattle.dr_plan_model.specs.Laws.{ExceptionsAreNamed, EarlierHaveNoExceptions};

/// Nothing is kept for the local caller, and nothing is sent to it.
pub fn the_local_caller_is_no_node()
    ensures keeps { LocalNeverKeeps }
    ensures sends { LocalIsNoNode }
{}

/// Keys of one cell of a plan are sent and kept alike, enter at the same nodes, and walk alike.
pub fn keys_of_one_cell_walk_alike()
    ensures send { SendAlike }
    ensures keep { KeepAlike }
    ensures enter { EnterAlike }
    ensures walk { WalkAlike }
    ensures reach { ReachAlike }
{}

/// Each cell of a plan has a key of bytes.
pub fn each_cell_has_a_key()
    ensures { EachCellOfAPlanHasAKey }
{}

/// The exceptions of a rule are among the stations that the plan names, so that they are parts of
/// their own; and before format 3 no rule has any.
pub fn exceptions_are_named()
    ensures named { ExceptionsAreNamed }
    ensures earlier { EarlierHaveNoExceptions }
{}

/// A plan of format 1 names no prefix, and its cells are those that there were before
/// there were prefixes.
pub fn format_1_has_no_prefix()
    ensures none { FormatOneHasNoPrefix }
    ensures cells { FormatOneKeepsItsCells }
{}

/// A plan of format 2 names no prefix of modalities, and the parts of its modalities are those that
/// there were before there were such prefixes.
pub fn format_2_has_no_prefix_of_a_modality()
    ensures none { FormatTwoHasNoPrefix }
    ensures parts { FormatTwoKeepsItsModalities }
{}

/// A node of a plan that listens nowhere accepts nothing, and before format 3 each node listens
/// where others reach it.
pub fn what_accepts_listens()
    ensures nowhere { NowhereAcceptsNothing }
    ensures earlier { EarlierBindToTheirAddress }
{}
