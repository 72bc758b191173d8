//! What the words of the command line ask for.
ghost use Rattle.std.specs.Prelude.{◌≡◌, IfOk};
ghost use Rattle.dr_word_line.specs.Words.{Asks, Reads};
ghost use Rattle.dr_word_line.specs.declared.words.Task.{Task as TaskValue};

use crate::ledgers::read_ledger;
use crate::matched::read_others;
use crate::plans::{read_alone, read_named, read_ways};
use crate::running::read_running;
use crate::words::Task;
use std::alloc::{AllocError, Global};

/// What plain words ask for: those of a known form, without options.
fn read_plain<'a>(words: &'a [&'a str]) -> Option<Task<'a>>
    ensures { Reads words.now result }
{
    read_alone(words)
        .or(read_named(words))
        .or(read_ways(words))
        .or(read_ledger(words))
        .or(read_running(words))
}

/// What the words ask for.
pub fn read_words<'a>(alloc: Global, words: &'a [&'a str]) -> Result<Task<'a>, AllocError>
    ensures { IfOk result (λ found. (asked : TaskValue) → Asks words.now asked → found ≡ asked) }
{
    match read_plain(words) {
        Some(asked) => Ok(asked),
        None => read_others(alloc, words),
    }
}
