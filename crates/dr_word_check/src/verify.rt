//! What the program answers to a plan and the text of a certificate.
ghost use Rattle.std.specs.Prelude.{◌≡◌, ◌≢◌};
ghost use Rattle.dr_word_check.specs.Verdicts.{IsVerdictOn, verdict_line, verdict_status};
ghost use Rattle.dr_run_open.specs.declared.status.Status.TheVariants.{Usage};

use dr_cert::CertFault;
use dr_plan::Plan;
use dr_run_open::{Status, seal_text};
use std::alloc::Global;

/// What the program answers to a plan and the text of a certificate.
#[derive(Clone, Copy, PartialEq, Eq, Debug, Drop)]
pub enum Verification {
    /// The plan is sound, and the text is that of its certificate.
    Yes,
    /// The first fault of the certificate.
    No(CertFault),
    /// There was no memory.
    Memory,
}

impl Verification {
    /// The status with which the program ends, where the verdict is told.
    pub fn status(self) -> Status
        ensures told { result ≡ verdict_status self }
        ensures known { result ≢ Usage }
    {
        match self {
            Verification::Yes => Status::Success,
            Verification::No(_) => Status::Refused,
            Verification::Memory => Status::Memory,
        }
    }

    /// The line that is printed for it; nothing for want of memory.
    pub fn line(self) -> &'static [u8]
        ensures { result.now ≡ verdict_line self }
    {
        match self {
            Verification::Yes => b"yes\n",
            Verification::No(CertFault::Text) => b"no\tC1 Text\n",
            Verification::No(CertFault::OtherPlan) => b"no\tC2 OtherPlan\n",
            Verification::No(CertFault::MissingLine) => b"no\tC3 MissingLine\n",
            Verification::No(CertFault::WrongRank) => b"no\tC4 WrongRank\n",
            Verification::No(CertFault::NoContext) => b"no\tC5 NoContext\n",
            Verification::No(CertFault::DeadEnd) => b"no\tC6 DeadEnd\n",
            Verification::No(CertFault::HopList) => b"no\tC7 HopList\n",
            Verification::No(CertFault::Order) => b"no\tC8 Order\n",
            Verification::No(CertFault::Memory) | Verification::Memory => b"",
        }
    }
}

/// The verdict on a plan and the text of a certificate.
pub fn verdict_on(alloc: Global, plan: Plan, text: &[u8]) -> Verification
    ensures { IsVerdictOn plan text.now result }
{
    match seal_text(alloc, plan, text) {
        Ok(_) => Verification::Yes,
        Err(CertFault::Memory) => Verification::Memory,
        Err(fault) => Verification::No(fault),
    }
}
