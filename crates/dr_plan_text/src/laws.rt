//! Laws of plans as they are written: what a reader may take from the definitions.
ghost use Rattle.dr_plan_text.specs.Laws.{EachTextWritesOnePlan, EmptyTextWritesNothing};
ghost use Rattle.dr_plan_text.specs.Laws.{NodeIsWritten, KeyIsUnknown, FormatIsOther};
ghost use Rattle.dr_plan_text.specs.Laws.{AddressIsMissing, PortIsTooHigh, RulePrefixIsWritten};
ghost use Rattle.dr_plan_text.specs.Laws.{RulePrefixIsOfFormatTwo, FlowPrefixIsWritten};
ghost use Rattle.dr_plan_text.specs.Laws.{FlowPrefixIsOfFormatTwo, StarNamesNone};
ghost use Rattle.dr_plan_text.specs.Laws.{StarsInsideNameNone, SpacesNameNone};
ghost use Rattle.dr_plan_text.specs.Laws.{RuleModalityIsWritten, RuleModalityIsOfFormatThree};
ghost use Rattle.dr_plan_text.specs.Laws.{FlowModalityIsWritten, FlowModalityIsOfFormatThree};
ghost use Rattle.dr_plan_text.specs.Laws.{NowhereIsWritten, NowhereIsOfFormatThree, BindIsWritten};
ghost use Rattle.dr_plan_text.specs.Laws.{BindIsOfFormatThree, BindNeedsAddress};
ghost use Rattle.dr_plan_text.specs.Laws.{NowhereHasNoAddress, NowhereHasNoRow};
ghost use Rattle.dr_plan_text.specs.Laws.{ExceptionIsWritten, ExceptionIsOfFormatThree};
ghost use Rattle.dr_plan_text.specs.Laws.{ExceptionIsNoPrefix, NoExceptionIsWritten};

/// A text writes one plan at most.
pub fn a_text_writes_one_plan()
    ensures { EachTextWritesOnePlan }
{}

/// The empty text writes the plan without nodes; a text with a node writes that node, with the
/// defaults of what it leaves out.
pub fn small_texts_write_plans()
    ensures nothing { EmptyTextWritesNothing }
    ensures node { NodeIsWritten }
{}

/// A text writes no plan where a key is unknown, where the format is none of 1, 2 and 3, where a
/// node has no address, and where the port of an address is above 65,535.
pub fn ill_formed_texts_write_none()
    ensures key { KeyIsUnknown }
    ensures format { FormatIsOther }
    ensures address { AddressIsMissing }
    ensures port { PortIsTooHigh }
{}

/// In format 2 a rule and a flow may name stations by what they begin with, and the same texts of
/// format 1 write no plan.
pub fn prefixes_are_of_format_2()
    ensures rule { RulePrefixIsWritten }
    ensures rule_of_1 { RulePrefixIsOfFormatTwo }
    ensures flow { FlowPrefixIsWritten }
    ensures flow_of_1 { FlowPrefixIsOfFormatTwo }
{}

/// In format 3 a rule and a flow may name modalities by what they begin with, and the same texts of
/// format 2 write no plan.
pub fn prefixes_of_modalities_are_of_format_3()
    ensures rule { RuleModalityIsWritten }
    ensures rule_of_2 { RuleModalityIsOfFormatThree }
    ensures flow { FlowModalityIsWritten }
    ensures flow_of_2 { FlowModalityIsOfFormatThree }
{}

/// What names no modality and no station in any format: `*` alone, an asterisk elsewhere than at
/// the end, and a prefix with a space at one of its ends.
pub fn ill_formed_prefixes_name_none()
    ensures star { StarNamesNone }
    ensures inside { StarsInsideNameNone }
    ensures spaces { SpacesNameNone }
{}

/// In format 3 a node may listen nowhere, or bind elsewhere than others reach it, and the same
/// texts of format 2 write no plan. Nor does a text of format 3 where a node binds and has no
/// address, or where one listens nowhere and has an address or an accept row.
pub fn nodes_listen_elsewhere_in_format_3()
    ensures nowhere { NowhereIsWritten }
    ensures nowhere_of_2 { NowhereIsOfFormatThree }
    ensures bind { BindIsWritten }
    ensures bind_of_2 { BindIsOfFormatThree }
    ensures no_address { BindNeedsAddress }
    ensures addressed { NowhereHasNoAddress }
    ensures accepts { NowhereHasNoRow }
{}

/// In format 3 a rule may except stations, and the same text of format 2 writes no plan. Nor does a
/// text of format 3 where a rule excepts a prefix, or where the list of what it excepts is empty.
pub fn rules_have_exceptions_in_format_3()
    ensures some { ExceptionIsWritten }
    ensures some_of_2 { ExceptionIsOfFormatThree }
    ensures prefix { ExceptionIsNoPrefix }
    ensures none { NoExceptionIsWritten }
{}
