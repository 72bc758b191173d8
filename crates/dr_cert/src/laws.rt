//! Laws of sealing.
ghost use Rattle.dr_cert.specs.Laws.{OwnCertificateIsTaken, OneFaultAtMost, OneCertificateAtMost};

/// A sound plan with its certificate meets no fault but want of memory.
pub fn a_sound_plan_is_sealed_with_its_certificate()
    ensures { OwnCertificateIsTaken }
{}

/// Of the faults but Memory, a plan and a certificate meet one at most.
pub fn one_fault_at_most()
    ensures { OneFaultAtMost }
{}

/// A plan has one certificate at most.
pub fn a_plan_has_one_certificate()
    ensures { OneCertificateAtMost }
{}
