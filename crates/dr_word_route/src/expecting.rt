//! Whether a sealed plan does what a file expects of it.
ghost use Rattle.std.specs.Prelude.{◌≡◌, IfOk, OnOk};
ghost use Rattle.std.specs.Io.KnownBytes.{Appends};
ghost use Rattle.dr_base.specs.Texts.{Text as Words};
ghost use Rattle.dr_cert_expect.specs.Expected.{IsFirstMiss};
ghost use Rattle.dr_cert_expect.specs.Rows.{miss_line};
ghost use Rattle.dr_word_route.specs.Expecting.{Expects, VerdictIsTold, IsVerdict, IsVerdictOn};
ghost use Rattle.dr_word_route.specs.Expecting.{MayMiss};
ghost use Rattle.dr_word_route.specs.Expecting.{printed_verdict, verdict_status};

use crate::asking::Asker;
use dr_base::Text;
use dr_cert::Sealed;
use dr_cert_expect::{Miss, first_miss, miss_text};
use dr_plan_expect::{ExpectFault, Expectation, read_expectations};
use dr_run_files::{Failure, Files, read_file};
use dr_run_open::Status;
use std::alloc::{AllocError, Global};
use std::io;
use std::io::Write;

/// What is answered to a file of expectations.
#[derive(Drop)]
pub enum ExpectVerdict {
    /// All rows hold.
    Yes,
    /// The line of the first row that doesn't.
    Missed(Text),
    /// The file isn't read.
    Faulty(ExpectFault),
}

impl ExpectVerdict {
    /// The status with which the program ends, where the verdict is told.
    fn status(&self) -> Status
        ensures { result ≡ verdict_status self.now }
    {
        match self {
            ExpectVerdict::Yes => Status::Success,
            ExpectVerdict::Missed(_) => Status::Refused,
            ExpectVerdict::Faulty(ExpectFault::Expect(_)) => Status::Refused,
            ExpectVerdict::Faulty(ExpectFault::Memory) => Status::Memory,
        }
    }
}

/// The verdict on a row that doesn't hold.
fn missed(alloc: Global, miss: &Miss) -> ExpectVerdict
    ensures { MayMiss miss.now result }
{
    match miss_text(alloc, miss) {
        Ok(text) => ExpectVerdict::Missed(text),
        Err(AllocError) => ExpectVerdict::Faulty(ExpectFault::Memory),
    }
}

/// The verdict on what is expected.
fn verdict_on(alloc: Global, sealed: &Sealed, rows: &[Expectation]) -> ExpectVerdict
    ensures { IsVerdictOn sealed.now.plan rows.now result }
{
    match first_miss(alloc, sealed, rows) {
        Ok(None) => ExpectVerdict::Yes,
        Ok(Some(miss)) => missed(alloc, &miss),
        Err(AllocError) => ExpectVerdict::Faulty(ExpectFault::Memory),
    }
}

/// The verdict on a file's text.
fn verdict_for(alloc: Global, sealed: &Sealed, text: &[u8]) -> ExpectVerdict
    ensures { IsVerdict sealed.now.plan text.now result }
{
    match read_expectations(alloc, text) {
        Ok(rows) => verdict_on(alloc, sealed, rows.as_slice()),
        Err(fault) => ExpectVerdict::Faulty(fault),
    }
}

/// Writes a verdict: what is answered to the output, and why the file isn't read to the faults.
fn write_verdict<W: Write, E: Write>(
    verdict: &ExpectVerdict,
    output: &mut W,
    faults: &mut E,
) -> io::Result<()>
    ensures { OnOk result
        (Appends (W.contents output.old) (W.contents output.new) (printed_verdict verdict.now)) }
{
    match verdict {
        ExpectVerdict::Yes => output.write_all(b"yes\n"),
        ExpectVerdict::Missed(text) => output.write_all(text.as_bytes()),
        ExpectVerdict::Faulty(fault) => writeln!(faults, "dr_router: {fault}"),
    }
}

/// Tells a verdict, and ends as it says.
fn tell_verdict<W: Write, E: Write>(
    verdict: &ExpectVerdict,
    output: &mut W,
    faults: &mut E,
) -> io::Result<Status>
    ensures { IfOk result
        (VerdictIsTold verdict.now (W.contents output.old) (W.contents output.new)) }
{
    write_verdict(verdict, output, faults)?;
    Ok(verdict.status())
}

impl<F: Files, W: Write, E: Write> Asker<'_, F, W, E> {
    /// Tells whether the sealed plan does what the file expects of it.
    ///
    /// Errors: Stream, File.
    pub(crate) fn ask_expect<'a>(
        self,
        alloc: Global,
        sealed: &Sealed,
        path: &'a str,
    ) -> Result<Status, Failure<'a>>
        ensures { IfOk result (λ status. (text : Words)
            × F.holds self.entry.files.now path.now text
            × Expects sealed.now.plan text (W.contents self.entry.output.now)
            (W.contents self.exit.0.now) status) }
    {
        let Asker {
            output,
            faults,
            files,
        } = self;
        let text = read_file(alloc, files, path)?;
        let verdict = verdict_for(alloc, sealed, text.as_slice());
        let status = tell_verdict(&verdict, output, faults)?;
        Ok(status)
    }
}
