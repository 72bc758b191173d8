//! Lines of a past, as texts.
ghost use Rattle.std.specs.Prelude.{◌≡◌, ◌+◌, ◌^◌, ◌<◌, ◌≤◌, List, ℕ, All, IfErr, IfOk, length};
ghost use Rattle.hex.specs.Hex.{IsBytes};
ghost use Rattle.dr_ledger_text.specs.Laws.{FitsInstance, FitsLine, FitsMoment, FitsOutcome};
ghost use Rattle.dr_ledger_text.specs.Lines.{sealed_text};
ghost use Rattle.dr_store_past.specs.Lines.{FitsPast, texts_behind};
ghost use Rattle.dr_store_past.specs.Refusals.{IsWhyNoText, IsWhyNoTexts};

use dr_base::Text;
use dr_ledger::{Instance, Outcome};
use dr_ledger_history::JournalLine;
use dr_ledger_text::put_sealed;
use dr_store_sealed::SealFault;
use std::alloc::Global;

/// A line of a journal, and the moment (milliseconds) at which it was written, where that is known.
#[derive(Drop)]
pub struct PastLine {
    pub line: JournalLine,
    pub moment: Option<u64>,
}

/// Each byte is one: a clause sees no range of an array's items but of those that were read.
fn are_bytes(bytes: &[u8])
    ensures { IsBytes bytes.now }
{
    for byte in bytes {
        let _byte = *byte;
    }
}

/// The numbers of an instance fit.
fn fits_instance(instance: &Instance)
    ensures { FitsInstance instance.now }
{
    let _size = instance.size;
    are_bytes(instance.digest.as_slice());
}

fn fits_outcome(outcome: Outcome)
    ensures { FitsOutcome outcome }
{
    match outcome {
        Outcome::Status(_status) => {}
        Outcome::Broken => {}
        Outcome::NoContext => {}
        Outcome::Unreadable => {}
    }
}

/// The numbers of a line fit.
fn fits_line(line: &JournalLine)
    ensures { FitsLine line.now }
{
    match line {
        JournalLine::Arrival { instance, .. } => fits_instance(instance),
        JournalLine::Repeat { instance, .. } => fits_instance(instance),
        JournalLine::Settling { outcome, now, .. } => {
            let _now = *now;
            fits_outcome(*outcome);
        }
        JournalLine::Requeuing { .. } => {}
        JournalLine::Dropping { now, .. } => {
            let _now = *now;
        }
        JournalLine::Forgetting { .. } => {}
        JournalLine::Adoption => {}
    }
}

fn fits_moment(moment: Option<u64>)
    ensures { FitsMoment moment }
{
    match moment {
        Some(_moment) => {}
        None => {}
    }
}

/// The text of a line behind the line of that number.
fn text_of(alloc: Global, after: u64, line: &PastLine) -> Result<Text, SealFault>
    ensures text { IfOk result (λ text.
        text ≡ sealed_text (after + 1) line.now.line line.now.moment) }
    ensures fits { IfOk result (λ text. FitsPast line.now) }
    ensures counted { IfOk result (λ text. after + 1 < 2 ^ 64) }
    ensures why { IfErr result (IsWhyNoText after) }
{
    let Some(number) = after.checked_add(1) else {
        return Err(SealFault::Uncounted);
    };
    fits_line(&line.line);
    fits_moment(line.moment);
    let mut text = Vec::new(alloc);
    put_sealed(&mut text, number, &line.line, line.moment)?;
    Ok(Text::from_vec(text))
}

/// The texts of lines behind the line of that number.
pub fn texts_of(alloc: Global, after: u64, lines: &[PastLine]) -> Result<Vec<Text>, SealFault>
    ensures texts { IfOk result (λ texts. texts.items ≡ texts_behind after lines.now) }
    ensures fits { IfOk result (λ texts. All FitsPast lines.now) }
    ensures counted { IfOk result (λ texts. after + length lines.now < 2 ^ 64) }
    ensures why { IfErr result (IsWhyNoTexts after lines.now) }
{
    let mut texts = Vec::new(alloc);
    let mut last = after;
    for line in lines {
        let text = text_of(alloc, last, line)?;
        texts.push(text)?;
        last += 1;
    }
    Ok(texts)
}
