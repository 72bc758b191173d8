//! Laws of the commands.
ghost use Rattle.dr_word_check.specs.Laws.{CertifiedTextsAreSound, FirstCertificatesAreIts};
ghost use Rattle.dr_word_check.specs.Laws.{OneCertificateIsPrinted, OneFaultIsTold};
ghost use Rattle.dr_word_check.specs.Laws.{WhatCheckPrintsIsVerified};

use dr_certify::laws::{no_plan_has_both, one_certificate_is_printed};
use dr_check::laws::one_is_named_first;
use dr_plan::laws::{cores_are_read, the_plan_of_a_text_is_well_formed};

/// What `check` prints for a sound plan is the certificate to which `verify` says yes for that
/// plan.
pub fn what_check_prints_is_verified()
    ensures { WhatCheckPrintsIsVerified }
{}

/// No text has a certificate and another answer, want of memory aside.
pub fn certified_texts_are_sound()
    ensures { CertifiedTextsAreSound }
{
    no_plan_has_both();
}

/// Which fault is told of a text follows from the text.
pub fn one_fault_is_told()
    ensures { OneFaultIsTold }
{
    the_plan_of_a_text_is_well_formed();
    one_is_named_first();
}

/// What is printed for a text tells which certificate its plan has, digest and all.
pub fn one_certificate_of_a_text()
    ensures { OneCertificateIsPrinted }
{
    one_certificate_is_printed();
}

/// The program of the first certificate prints what `check` does.
pub fn first_certificates_are_its()
    ensures { FirstCertificatesAreIts }
{
    cores_are_read();
}
