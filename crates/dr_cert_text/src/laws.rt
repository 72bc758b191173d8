//! Laws of certificates' texts.
ghost use Rattle.dr_cert_text.specs.Laws.{OneCertificateForAText, OneLineForAText, OneHopForAText};
ghost use Rattle.dr_cert_text.specs.Laws.{StopsAreToldApart, OneStopForATextUpToTheRank};
ghost use Rattle.dr_cert_text.specs.Laws.{WhatIsWrittenIsRead, TextOfTheEmptyPlan};
ghost use Rattle.dr_cert_text.specs.Laws.{TabsAreNotToldApart, AnAsteriskIsNotTold};
ghost use Rattle.dr_cert_text.specs.Laws.{APrefixIsNotALiteral, FormatTwoIsVersionTwo, empty_plan};
ghost use Rattle.dr_cert_text.specs.Printable.{IsPrintable};

/// Two certificates that can be read back have one text only where they are equal.
pub fn a_text_has_one_certificate()
    ensures { OneCertificateForAText }
{}

/// Lines and hops that can be read back are printed alike only where they are equal; lines of
/// different stops are printed differently.
pub fn printed_rows_tell_what_they_are_of()
    ensures line { OneLineForAText }
    ensures hop { OneHopForAText }
    ensures stop { StopsAreToldApart }
    ensures up_to_rank { OneStopForATextUpToTheRank }
{}

/// Reading what was written gives what was written, or Memory.
pub fn what_is_written_is_read()
    ensures { WhatIsWrittenIsRead }
{}

/// The text of the empty plan's certificate, which can be read back.
pub fn the_empty_plan_has_its_text()
    ensures text { TextOfTheEmptyPlan }
    ensures printable { IsPrintable empty_plan }
{}

/// Why a field has no tab, and no literal is an asterisk: else two rows would be printed alike.
pub fn tabs_and_asterisks_are_not_told()
    ensures tab { TabsAreNotToldApart }
    ensures asterisk { AnAsteriskIsNotTold }
    ensures prefix { APrefixIsNotALiteral }
{}

/// The version of a certificate is the format of its plan.
pub fn the_version_is_the_format()
    ensures { FormatTwoIsVersionTwo }
{}
