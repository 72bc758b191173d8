//! Runs on questions.
ghost use Rattle.std.specs.Prelude.{◌≡◌, ◌≢◌, ◌⊎◌, ℕ, List, IfOk, OnOk};
ghost use Rattle.std.specs.Io.KnownBytes.{Appends};
ghost use Rattle.dr_base.specs.Texts.{Text};
ghost use Rattle.dr_cert.specs.declared.fault.CertFault.TheVariants.{Memory as NoMemory};
ghost use Rattle.dr_run_open.specs.Answers.{Refuses};
ghost use Rattle.dr_run_open.specs.declared.status.Status.TheVariants.{Refused, Memory};
ghost use Rattle.dr_word_route.specs.Keys.{ReadsFileKey, ReadsWords};
ghost use Rattle.dr_word_route.specs.Replies.{IsRouteReply, IsSiteReply, printed_for};
ghost use Rattle.dr_word_route.specs.Runs.{AnswersQuestion, ReplyIsTold, JudgesAndAnswers, Replies};
ghost use Rattle.dr_word_route.specs.Runs.{AnswersSealed, Responds, strict_status};
ghost use Rattle.dr_word_route.specs.Unsealing.{AnswersUnsealed};

use crate::keys::{key_of_file, key_of_words, site_of};
use crate::reply::Response;
use crate::replying::{graph_reply, lint_reply, reply_for};
use dr_cert::{CertFault, Sealed};
use dr_plan::Plan;
use dr_run_files::{Failure, Files, read_file};
use dr_run_open::{Status, plan_of, seal_text, tell_answer};
use dr_word_line::{KeyWords, Question};
use std::alloc::Global;
use std::io;
use std::io::Write;

/// Who asks about plans: where is printed, where faults are told, and the files that are read.
///
/// A method takes it by value. What it printed is `exit.0` then, the first field at the return.
#[derive(Drop)]
pub(crate) struct Asker<'s, F, W, E> {
    pub output: &'s mut W,
    pub faults: &'s mut E,
    pub files: &'s F,
}

/// Writes a reply: what is answered to the output, and why there is no answer to the faults.
fn write_reply<W: Write, E: Write>(
    reply: &Response,
    output: &mut W,
    faults: &mut E,
) -> io::Result<()>
    ensures { OnOk result
        (Appends (W.contents output.old) (W.contents output.new) (printed_for reply.now)) }
{
    match reply {
        Response::Printed(text) => output.write_all(text.as_bytes()),
        Response::NoLine => output.write_all(b"no\tG1 NoLine\n"),
        Response::Refused(refusal) => writeln!(faults, "dr_router: {refusal}"),
    }
}

/// Writes why a certificate isn't the plan's, as a line to the faults, and says how the word ends:
/// refused, or for want of memory.
pub fn tell_refusal<E: Write>(fault: CertFault, faults: &mut E) -> io::Result<Status>
    ensures refused { fault ≢ NoMemory → IfOk result (λ status. status ≡ Refused) }
    ensures memory { fault ≡ NoMemory → IfOk result (λ status. status ≡ Memory) }
{
    writeln!(faults, "dr_router: {fault}")?;
    match fault {
        CertFault::Memory => Ok(Status::Memory),
        _ => Ok(Status::Refused),
    }
}

impl<F: Files, W: Write, E: Write> Asker<'_, F, W, E> {
    /// Tells a reply, and ends as it says.
    fn tell(self, reply: &Response) -> io::Result<Status>
        ensures { IfOk result
            (ReplyIsTold reply.now (W.contents self.entry.output.now)
            (W.contents self.exit.0.now)) }
    {
        let Asker { output, faults, .. } = self;
        write_reply(reply, output, faults)?;
        Ok(reply.status())
    }

    /// Tells a reply, and ends with a no where it says something.
    fn tell_strictly(self, reply: &Response) -> io::Result<Status>
        ensures { IfOk result (λ status.
            Appends (W.contents self.entry.output.now) (W.contents self.exit.0.now)
            (printed_for reply.now)
            × (status ≡ strict_status reply.now)) }
    {
        let Asker { output, faults, .. } = self;
        write_reply(reply, output, faults)?;
        Ok(reply.strict_status())
    }

    /// Tells where an instance with these values goes that enters at the node of that name.
    fn ask_key(
        self,
        alloc: Global,
        sealed: &Sealed,
        at: &str,
        words: &KeyWords<'_>,
    ) -> io::Result<Status>
        ensures { IfOk result
            (Replies (IsRouteReply sealed.now.plan at.now (ReadsWords words.now))
            (W.contents self.entry.output.now) (W.contents self.exit.0.now)) }
    {
        let site = match site_of(alloc, sealed.plan(), at) {
            Ok(site) => site,
            Err(refusal) => {
                let status = self.tell(&Response::Refused(refusal))?;
                return Ok(status);
            }
        };
        let key = key_of_words(alloc, words);
        let reply = reply_for(alloc, sealed, &site, key);
        drop(site);
        let status = self.tell(&reply)?;
        Ok(status)
    }

    /// Tells where the instance in the file goes that enters at the node of that name; the file is
    /// read where there is such a node.
    fn ask_file<'a>(
        self,
        alloc: Global,
        sealed: &Sealed,
        at: &str,
        path: &'a str,
    ) -> Result<Status, Failure<'a>>
        ensures { IfOk result (λ status. Replies (IsSiteReply sealed.now.plan at.now)
            (W.contents self.entry.output.now) (W.contents self.exit.0.now) status
            ⊎ ((bytes : Text)
            × F.holds self.entry.files.now path.now bytes
            × Replies (IsRouteReply sealed.now.plan at.now (ReadsFileKey bytes))
            (W.contents self.entry.output.now) (W.contents self.exit.0.now) status)) }
    {
        let site = match site_of(alloc, sealed.plan(), at) {
            Ok(site) => site,
            Err(refusal) => {
                let status = self.tell(&Response::Refused(refusal))?;
                return Ok(status);
            }
        };
        let bytes = read_file(alloc, self.files, path)?;
        let key = key_of_file(alloc, bytes.as_slice());
        let reply = reply_for(alloc, sealed, &site, key);
        let status = self.tell(&reply)?;
        Ok(status)
    }

    /// Answers a question about a sealed plan.
    fn respond<'a>(
        self,
        alloc: Global,
        sealed: &Sealed,
        question: Question<'a>,
    ) -> Result<Status, Failure<'a>>
        ensures { IfOk result
            (Responds (F.holds self.entry.files.now) sealed.now.plan sealed.now.certificate
            question.entry (W.contents self.entry.output.now) (W.contents self.exit.0.now)) }
    {
        match question {
            Question::RouteOfKey(at, words) => {
                let status = self.ask_key(alloc, sealed, at, &words)?;
                Ok(status)
            }
            Question::RouteOfFile(at, path) => self.ask_file(alloc, sealed, at, path),
            Question::Graph => {
                let status = self.tell(&graph_reply(alloc, sealed))?;
                Ok(status)
            }
            Question::Lint => {
                let status = self.tell(&lint_reply(alloc, sealed))?;
                Ok(status)
            }
            Question::StrictLint => {
                let status = self.tell_strictly(&lint_reply(alloc, sealed))?;
                Ok(status)
            }
            Question::Diff(paths) => self.ask_diff(alloc, sealed, paths),
            Question::Expect(path) => self.ask_expect(alloc, sealed, path),
        }
    }

    /// Answers a question about a plan and the text of its certificate.
    fn ask_sealed<'a>(
        self,
        alloc: Global,
        plan: Plan,
        text: &[u8],
        question: Question<'a>,
    ) -> Result<Status, Failure<'a>>
        ensures { IfOk result
            (λ status. AnswersUnsealed plan text.now (W.contents self.entry.output.now)
            (W.contents self.exit.0.now) status
            ⊎ AnswersSealed (F.holds self.entry.files.now) question.entry plan text.now
            (W.contents self.entry.output.now) (W.contents self.exit.0.now) status) }
    {
        let sealed = match seal_text(alloc, plan, text) {
            Ok(sealed) => sealed,
            Err(fault) => {
                let status = tell_refusal(fault, self.faults)?;
                return Ok(status);
            }
        };
        let status = self.respond(alloc, &sealed, question);
        drop(sealed);
        status
    }

    /// Answers a question about the plan of a text, whose certificate is in a file, which is read
    /// only where the text has a plan.
    fn ask_text<'a>(
        self,
        alloc: Global,
        text: &[u8],
        certificate: &'a str,
        question: Question<'a>,
    ) -> Result<Status, Failure<'a>>
        ensures { IfOk result
            (λ status.
            Refuses text.now (W.contents self.entry.output.now) (W.contents self.exit.0.now) status
            ⊎ JudgesAndAnswers (F.holds self.entry.files.now) certificate.now question.entry
            text.now (W.contents self.entry.output.now) (W.contents self.exit.0.now) status) }
    {
        let plan = match plan_of(alloc, text) {
            Ok(plan) => plan,
            Err(answer) => {
                let Asker { output, faults, .. } = self;
                tell_answer(&answer, output, faults)?;
                return Ok(answer.status());
            }
        };
        match read_file(alloc, self.files, certificate) {
            Ok(second) => self.ask_sealed(alloc, plan, second.as_slice(), question),
            Err(failure) => {
                drop(plan);
                Err(failure)
            }
        }
    }

    /// Answers a question about the plan in the one file, whose certificate is in the other.
    ///
    /// Errors: Stream, File.
    pub(crate) fn ask_files<'a>(
        self,
        alloc: Global,
        plan: &'a str,
        certificate: &'a str,
        question: Question<'a>,
    ) -> Result<Status, Failure<'a>>
        ensures { IfOk result
            (AnswersQuestion (F.holds self.entry.files.now) plan.entry certificate.entry
            question.entry (W.contents self.entry.output.now) (W.contents self.exit.0.now)) }
    {
        let text = read_file(alloc, self.files, plan)?;
        self.ask_text(alloc, text.as_slice(), certificate, question)
    }
}
