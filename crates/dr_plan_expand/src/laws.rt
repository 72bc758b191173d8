//! Laws of expansions: what a reader may take from the definitions.
ghost use Rattle.dr_plan_expand.specs.Laws.{EachTextExpandsToOne, ExpansionsAreTheirOwn};
ghost use Rattle.dr_plan_expand.specs.Laws.{NoneExpandsAndFails, OneExpandFaultIsTold};
ghost use Rattle.dr_plan_expand.specs.Laws.{NodeStandsForItself, StrangeGroupStandsForNone};
ghost use Rattle.dr_plan_expand.specs.Laws.{MeaningsAreBounded, EachTextHasAnAnswer};
ghost use Rattle.dr_plan_expand.specs.Laws.{GroupCountsItsNodes, StrangerCountsForOne};
ghost use Rattle.dr_plan_expand.specs.Laws.{EmptyWordCountsForOne};
ghost use Rattle.dr_plan_expand.specs.Laws.{LongWordIsTooMuch, LongListIsTooMuch};
ghost use Rattle.dr_plan_expand.specs.Laws.{ListOfManyWordsIsTooMuch, AllStorageIsEveryClass};
ghost use Rattle.dr_plan_expand.specs.Small.{SmallPlanIsCounted, SmallPlanMeans};
ghost use Rattle.dr_plan_expand.specs.Small.{SmallPartIsSpelled, OneNodeIsItsOwn};
ghost use Rattle.dr_plan_expand.specs.SmallTables.{KeywordNamesItsClass, NameNamesItsClass};
ghost use Rattle.dr_plan_expand.specs.SmallTables.{ClassIsCalledByItsName, UidStandsForItself};
ghost use Rattle.dr_plan_expand.specs.SmallTables.{ProductsSetStands, OwnSetIsFirst};
ghost use Rattle.dr_plan_expand.specs.SmallTables.{EmptySetIsNone, FirstDefinitionCounts};
ghost use Rattle.dr_plan_expand.specs.SmallTables.{StrangeSyntaxStandsForItself};
ghost use Rattle.dr_plan_expand.specs.SmallTables.{NoWordIsNone, NodeIsSaid, MarkedNameIsNone};
ghost use Rattle.dr_plan_expand.specs.SmallTables.{EmptyRuleIsSaid, RuleIsSaid};
ghost use Rattle.dr_plan_expand.specs.SmallTables.{RowWithoutClassIsNone, FlowIsSaid};
ghost use Rattle.dr_plan_expand.specs.SmallTables.{DefinitionsAreSaid, SecondFormatIsNone};

/// A text expands to one text at most, and that is its own expansion.
pub fn an_expansion_is_one_and_its_own()
    ensures one { EachTextExpandsToOne }
    ensures own { ExpansionsAreTheirOwn }
{}

/// Want of memory aside, a text that fails to expand has one fault, and expands to nothing; and
/// each text expands or fails.
pub fn a_text_expands_or_has_one_fault()
    ensures either { NoneExpandsAndFails }
    ensures one { OneExpandFaultIsTold }
    ensures some { EachTextHasAnAnswer }
{}

/// The name of a node stands for that node, and a group that nobody defines for none.
pub fn small_words_stand_for_nodes()
    ensures node { NodeStandsForItself }
    ensures stranger { StrangeGroupStandsForNone }
{}

/// What is counted is what stands in the end: a plan that stands for no more than one may means one
/// with no more words than that, be they in rows, rules or flows.
pub fn a_bounded_plan_means_a_bounded_one()
    ensures { MeaningsAreBounded }
{}

/// How much small lists are: a group as many as it has, and a word or a list that is too long more
/// than a plan may stand for.
pub fn small_lists_are_counted()
    ensures group { GroupCountsItsNodes }
    ensures stranger { StrangerCountsForOne }
    ensures empty { EmptyWordCountsForOne }
    ensures word { LongWordIsTooMuch }
    ensures list { LongListIsTooMuch }
    ensures words { ListOfManyWordsIsTooMuch }
{}

/// A small plan counts for just as much as it has.
pub fn a_small_plan_is_counted()
    ensures { SmallPlanIsCounted }
{}

/// A small plan means one row for each class, one rule for each caller and class, and one flow for
/// each node where it enters.
pub fn a_small_plan_means_one()
    ensures { SmallPlanMeans }
{}

/// How small plans are spelled; and the spelling of a node is its own expansion.
pub fn small_plans_are_spelled()
    ensures spelled { SmallPartIsSpelled }
    ensures own { OneNodeIsItsOwn }
{}

/// Classes go by their keywords, their names and their UIDs; a set is the plan's, else the
/// product's; of two definitions the first counts; and a strange transfer syntax is itself.
pub fn small_words_stand_for_classes()
    ensures keyword { KeywordNamesItsClass }
    ensures name { NameNamesItsClass }
    ensures called { ClassIsCalledByItsName }
    ensures uid { UidStandsForItself }
    ensures product { ProductsSetStands }
    ensures own { OwnSetIsFirst }
    ensures empty { EmptySetIsNone }
    ensures first { FirstDefinitionCounts }
    ensures syntax { StrangeSyntaxStandsForItself }
{}

/// What small tables say, and what isn't given there; and tables that say nothing.
pub fn small_tables_say_plans()
    ensures words { NoWordIsNone }
    ensures node { NodeIsSaid }
    ensures marked { MarkedNameIsNone }
    ensures empty { EmptyRuleIsSaid }
    ensures rule { RuleIsSaid }
    ensures row { RowWithoutClassIsNone }
    ensures flow { FlowIsSaid }
    ensures definitions { DefinitionsAreSaid }
    ensures format { SecondFormatIsNone }
{}

/// The product's set of all storage classes is every class of the tables.
pub fn the_set_of_all_has_every_class()
    ensures { AllStorageIsEveryClass }
{}
