//! Why a word of the program comes to nothing.
ghost use Rattle.std.specs.Prelude.{◌≡◌, [], IfOk, OnOk};
ghost use Rattle.std.specs.Io.KnownBytes.{Appends};
ghost use Rattle.dr_run_open.specs.Codes.{code_of};
ghost use Rattle.dr_run_open.specs.Ends.{printed_by, status_by};
ghost use Rattle.dr_run_open.specs.declared.halt.Halt.TheVariants as halts;

use crate::answer::{PlanAnswer, tell_answer};
use crate::instance::InstanceFault;
use crate::ledgers::OpenFault;
use crate::status::Status;
use dr_cert::CertFault;
use dr_ledger::LedgerFault;
use dr_run_files::Failure;
use std::alloc::AllocError;
use std::io;
use std::io::Write;

/// Why a word that works on a node's ledger comes to nothing.
#[derive(Drop)]
pub enum Halt<'a> {
    /// The first text is no plan.
    NoPlan(PlanAnswer),
    /// The second text isn't that of the plan's certificate.
    NoCertificate(CertFault),
    /// The plan has no node of the name.
    NoNode,
    /// The node's ledger isn't opened.
    NotOpened(OpenFault),
    /// A file has no instance.
    NoInstance(InstanceFault),
    /// The ledger refused.
    Refused(LedgerFault),
    /// What threads did at the ledger doesn't agree with its journal.
    Receipt,
    /// A file wasn't read, or a stream failed.
    Failed(Failure<'a>),
    /// There was no memory.
    Memory,
}

impl<'a> From<Failure<'a>> for Halt<'a> {
    ghost use Rattle.std.specs.Prelude.{◌≡◌};
    ghost use Rattle.dr_run_open.specs.declared.halt.Halt.TheVariants.{Failed};

    ghost from_gives = { λ failure e. e ≡ Failed failure };

    fn from(failure: Failure<'a>) -> Halt<'a> {
        Halt::Failed(failure)
    }
}

impl<'a> From<LedgerFault> for Halt<'a> {
    ghost use Rattle.std.specs.Prelude.{◌≡◌};
    ghost use Rattle.dr_run_open.specs.declared.halt.Halt.TheVariants.{Refused};

    ghost from_gives = { λ fault e. e ≡ Refused fault };

    fn from(fault: LedgerFault) -> Halt<'a> {
        Halt::Refused(fault)
    }
}

impl<'a> From<AllocError> for Halt<'a> {
    ghost use Rattle.std.specs.Prelude.{◌≡◌};
    ghost use Rattle.dr_run_open.specs.declared.halt.Halt.TheVariants.{Memory};

    ghost from_gives = { λ _ e. e ≡ Memory };

    fn from(_: AllocError) -> Halt<'a> {
        Halt::Memory
    }
}

/// The code and the name of a ledger's refusal, as it is printed and logged.
pub fn code_of(fault: LedgerFault) -> &'static str
    ensures { result.now ≡ code_of fault }
{
    match fault {
        LedgerFault::NoLine => "G1 NoLine",
        LedgerFault::Conflict => "G2 Conflict",
        LedgerFault::Store => "G3 Store",
        LedgerFault::NotWaiting => "G4 NotWaiting",
        LedgerFault::NotHeld => "G5 NotHeld",
        LedgerFault::NotOver => "G7 NotOver",
        LedgerFault::Memory => "Memory",
    }
}

/// The status with which the program ends where a certificate is refused.
fn status_of_certificate(fault: CertFault) -> Status
    ensures { result ≡ status_by (halts.NoCertificate fault) }
{
    match fault {
        CertFault::Memory => Status::Memory,
        _ => Status::Refused,
    }
}

/// The status with which the program ends where a ledger isn't opened.
fn status_of_opening(fault: OpenFault) -> Status
    ensures { result ≡ status_by (halts.NotOpened fault) }
{
    match fault {
        OpenFault::OtherSite | OpenFault::NoData | OpenFault::IsThere | OpenFault::DataIsThere =>
            Status::Refused,
        OpenFault::InUse | OpenFault::Store | OpenFault::NoLedger => Status::InputOutput,
        OpenFault::Memory => Status::Memory,
    }
}

/// The status with which the program ends where a ledger refused.
fn status_of_refusal(fault: LedgerFault) -> Status
    ensures { result ≡ status_by (halts.Refused fault) }
{
    match fault {
        LedgerFault::Store => Status::InputOutput,
        LedgerFault::Memory => Status::Memory,
        LedgerFault::NoLine
        | LedgerFault::Conflict
        | LedgerFault::NotWaiting
        | LedgerFault::NotHeld
        | LedgerFault::NotOver => Status::Refused,
    }
}

impl<'a> Halt<'a> {
    /// The status with which the program ends, where it is told.
    pub fn status(&self) -> Status
        ensures { result ≡ status_by self.now }
    {
        match self {
            Halt::NoPlan(answer) => answer.status(),
            Halt::NoCertificate(fault) => status_of_certificate(*fault),
            Halt::NoNode => Status::Refused,
            Halt::NotOpened(fault) => status_of_opening(*fault),
            Halt::NoInstance(fault) => fault.status(),
            Halt::Refused(fault) => status_of_refusal(*fault),
            Halt::Receipt => Status::Refused,
            Halt::Failed(_) => Status::InputOutput,
            Halt::Memory => Status::Memory,
        }
    }
}

/// Writes why a word comes to nothing, where it belongs: to the faults.
pub fn tell_halt<W: Write, E: Write>(
    halt: &Halt<'_>,
    output: &mut W,
    faults: &mut E,
) -> io::Result<()>
    ensures { OnOk result
        (Appends (W.contents output.old) (W.contents output.new) (printed_by halt.now)) }
{
    match halt {
        Halt::NoPlan(answer) => tell_answer(answer, output, faults),
        Halt::NoCertificate(fault) => writeln!(faults, "dr_router: {fault}"),
        Halt::NoNode => writeln!(faults, "dr_router: NoNode"),
        Halt::NotOpened(fault) => writeln!(faults, "dr_router: {fault}"),
        Halt::NoInstance(fault) => writeln!(faults, "dr_router: {fault}"),
        Halt::Refused(fault) => writeln!(faults, "dr_router: {}", code_of(*fault)),
        Halt::Receipt => writeln!(faults, "dr_router: J1 Receipt"),
        Halt::Failed(_) => Ok(()),
        Halt::Memory => writeln!(faults, "dr_router: Memory"),
    }
}
