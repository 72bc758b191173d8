//! The lines of a journal, told to a history.
ghost use Rattle.std.specs.Prelude.{IfOk, map as mapped};
ghost use Rattle.dr_ledger_history.specs.Contents.{content};
ghost use Rattle.dr_ledger_history.specs.Lines.{line_of};
ghost use Rattle.dr_ledger_history.specs.Told.{IsTold};

use dr_ledger_history::{History, HistoryFault, JournalLine};
use std::alloc::Global;

/// What these lines make of a node, whatever the plans were under which they were written.
///
/// Errors: NoCall where they are no history; Memory.
pub fn tell_lines(alloc: Global, lines: Vec<JournalLine>) -> Result<History, HistoryFault>
    ensures { IfOk result (λ history.
        IsTold (mapped line_of lines.items) (content history.parts)) }
{
    let mut history = History::new(alloc);
    for line in lines {
        match history.tell_past(line) {
            Ok(next) => history = next,
            Err(fault) => return Err(fault),
        }
    }
    Ok(history)
}
