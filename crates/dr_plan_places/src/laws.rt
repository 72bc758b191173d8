//! Laws of flaws: what a reader may take from the definitions.
ghost use Rattle.dr_plan_places.specs.Laws.{ColourIsUnknown, FormatIsNotMissing, PlacesRefute};
ghost use Rattle.dr_plan_places.specs.Laws.{PrefixIsIllFormedInFormatOne, PrefixIsOfFormatTwo};
ghost use Rattle.dr_plan_places.specs.Laws.{FourthFormatIsIllFormed, ShortPlacesRefute};
ghost use Rattle.dr_plan_places.specs.Laws.{ExceptionIsIllFormedInFormatTwo};
ghost use Rattle.dr_plan_places.specs.Laws.{ExceptionIsFineInFormatThree};
ghost use Rattle.dr_plan_places.specs.Laws.{PlansWithPlacesFail, StrangersRefute, ExcessRefutes};
ghost use Rattle.dr_plan_places.specs.Laws.{NameFlawsRefute, LongNameIsLongFirst};
ghost use Rattle.dr_plan_places.specs.Laws.{SecondTabIsNotTold, LaterTextIsNotFirst};
ghost use Rattle.dr_plan_places.specs.Laws.{SecondIsOver, ThirdIsNotFirstOver};
ghost use Rattle.dr_plan_places.specs.Laws.{FourthFormatIsNotMissing, FourthFormatIsAFlaw};
ghost use Rattle.dr_plan_places.specs.Laws.{AtIsMissing, AtIsNotIllFormed, NoColourIsUnknown};
ghost use Rattle.dr_plan_places.specs.Laws.{AddressOfACallerIsIllFormed, SecondNodeHasNoName};
ghost use Rattle.dr_plan_places.specs.Shown.{FiguresAreShown};

/// Tables with a flaw at any place write no plan, and in format 3 say none.
pub fn places_refute()
    ensures written { PlacesRefute }
    ensures short { ShortPlacesRefute }
{}

/// A key that nobody knows is unknown, and a format of 4 ill-formed; a format that isn't given
/// isn't missing. A rule's prefix is ill-formed in format 1, and not in format 2; what a rule
/// excepts is ill-formed in format 2, and not in format 3.
pub fn small_tables_have_flaws()
    ensures colour { ColourIsUnknown }
    ensures format { FourthFormatIsIllFormed }
    ensures none { FormatIsNotMissing }
    ensures prefix { PrefixIsIllFormedInFormatOne }
    ensures prefix_of_2 { PrefixIsOfFormatTwo }
    ensures except { ExceptionIsIllFormedInFormatTwo }
    ensures except_of_3 { ExceptionIsFineInFormatThree }
{}

/// A plan with a place of a fault doesn't pass.
pub fn plans_with_places_fail()
    ensures { PlansWithPlacesFail }
{}

/// A plan of format 3 with a word that stands for nothing means nothing, and one with a table that
/// is too much is beyond the bound.
pub fn strangers_and_excess_refute()
    ensures stranger { StrangersRefute }
    ensures excess { ExcessRefutes }
{}

/// A text with a flaw is no name; and the flaw that is told is the first.
pub fn flaws_of_names_refute()
    ensures flaws { NameFlawsRefute }
    ensures long { LongNameIsLongFirst }
    ensures tabs { SecondTabIsNotTold }
{}

/// What is told of a list is the first that is bad, or for which there is no room.
pub fn the_first_is_told()
    ensures bad { LaterTextIsNotFirst }
    ensures over { SecondIsOver }
    ensures later { ThirdIsNotFirstOver }
{}

/// What is there isn't missing, and what isn't there is neither unknown nor ill-formed. A format of
/// 4 is a flaw of its text, an address of a node that only calls one of the node; and a table in a
/// list is told by its index.
pub fn flaws_are_told_apart()
    ensures given { FourthFormatIsNotMissing }
    ensures format { FourthFormatIsAFlaw }
    ensures missing { AtIsMissing }
    ensures empty { AtIsNotIllFormed }
    ensures none { NoColourIsUnknown }
    ensures calls { AddressOfACallerIsIllFormed }
    ensures second { SecondNodeHasNoName }
{}

/// How small texts are shown between quotes.
pub fn figures_are_shown()
    ensures { FiguresAreShown }
{}
