//! What the program answers to the text of a plan, and that to a text which is none.
ghost use Rattle.std.specs.Prelude.{◌≡◌, ◌≢◌, [], Err, MatchResult, OnOk};
ghost use Rattle.std.specs.Io.KnownBytes.{Appends};
ghost use Rattle.dr_plan.specs.Reading.{Reads};
ghost use Rattle.dr_run_open.specs.Answers.{IsNoPlan, printed_for, status_for};
ghost use Rattle.dr_run_open.specs.declared.status.Status.TheVariants.{Usage};

use crate::status::Status;
use dr_base::Text;
use dr_plan::PlanFault;
use dr_plan_places::explain;
use std::alloc::{AllocError, Global};
use std::io;
use std::io::Write;

/// What the program answers to the text of a plan.
#[derive(Debug, Drop)]
pub enum PlanAnswer {
    /// The plan is sound, and this is its certificate's text.
    Sound(Text),
    /// The plan isn't sound: the line that shows it, and why, in sentences.
    Unsound(Text, Text),
    /// The text is no plan: its fault, and where that stands, in words.
    NoPlan(PlanFault, Text),
    /// The plan's certificate would have over 65,536 lines.
    TooLarge,
    /// There was no memory.
    Memory,
}

impl PlanAnswer {
    /// The status with which the program ends, where the answer is told.
    pub fn status(&self) -> Status
        ensures told { result ≡ status_for self.now }
        ensures known { result ≢ Usage }
    {
        match self {
            PlanAnswer::Sound(_) => Status::Success,
            PlanAnswer::Unsound(_, _) | PlanAnswer::NoPlan(_, _) | PlanAnswer::TooLarge =>
                Status::Refused,
            PlanAnswer::Memory => Status::Memory,
        }
    }
}

/// The words about a fault, or none where there is no memory for them: they are no reason not to
/// name the fault.
pub fn words_or_none(alloc: Global, words: Result<Text, AllocError>) -> Text
    ensures { MatchResult words (λ text. result ≡ text) (λ _. result ≡ []) }
{
    match words {
        Ok(words) => words,
        Err(AllocError) => Text::empty(alloc),
    }
}

/// The answer to a text that has this fault.
pub fn answer_to_fault(alloc: Global, text: &[u8], fault: PlanFault) -> PlanAnswer
    requires { Reads text.now (Err fault) }
    ensures { IsNoPlan text.now result }
{
    if fault == PlanFault::Memory {
        return PlanAnswer::Memory;
    }
    let place = explain(alloc, text, fault);
    PlanAnswer::NoPlan(fault, words_or_none(alloc, place))
}

/// Writes the answer: a certificate or the line of a plan that isn't sound to the output; to the
/// faults why there is neither, and what there is to say to people of what is wrong.
pub fn tell_answer<W: Write, E: Write>(
    answer: &PlanAnswer,
    output: &mut W,
    faults: &mut E,
) -> io::Result<()>
    ensures { OnOk result
        (Appends (W.contents output.old) (W.contents output.new) (printed_for answer.now)) }
{
    match answer {
        PlanAnswer::Sound(text) => output.write_all(text.as_bytes()),
        PlanAnswer::Unsound(line, why) => {
            output.write_all(line.as_bytes())?;
            faults.write_all(why.as_bytes())
        }
        PlanAnswer::NoPlan(fault, place) => {
            writeln!(faults, "dr_router: {fault}")?;
            faults.write_all(place.as_bytes())
        }
        PlanAnswer::TooLarge => writeln!(faults, "dr_router: TooLarge"),
        PlanAnswer::Memory => writeln!(faults, "dr_router: Memory"),
    }
}
