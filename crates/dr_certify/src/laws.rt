//! Laws of certified plans.
ghost use Rattle.dr_certify.specs.Laws.{NoPlanHasBoth, NoTextHasBoth};
ghost use Rattle.dr_certify.specs.Laws.{OneCertificateIsPrintedOfPlans};

use dr_check::laws::too_large_has_many_lines;

/// No plan has a certificate and is refused.
pub fn no_plan_has_both()
    ensures { NoPlanHasBoth }
{
    too_large_has_many_lines();
}

/// No text has a certificate and none: so what `print_certificate` answers follows from the text,
/// want of memory and faults of input and output aside.
pub fn no_text_has_both()
    ensures { NoTextHasBoth }
{
    no_plan_has_both();
}

/// What is printed for a plan tells which certificate it has, digest and all.
pub fn one_certificate_is_printed()
    ensures { OneCertificateIsPrintedOfPlans }
{}
