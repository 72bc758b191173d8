//! All rows of a ledger that a next plan doesn't go on with.
ghost use Rattle.std.specs.Prelude.{◌≡◌, map as mapped};
ghost use Rattle.dr_ledger.specs.Replies.{Reads};
ghost use Rattle.dr_ledger_history.specs.Contents.{content};
ghost use Rattle.dr_ledger_history.specs.Lines.{line_of};
ghost use Rattle.dr_ledger_history.specs.Told.{IsTold};
ghost use Rattle.dr_ledger_unfit.specs.Unfit.{AreUnfit};

use crate::picking::pick_unfit;
use crate::telling::tell_lines;
use dr_base::Text;
use dr_cert::Sealed;
use dr_ledger::LedgerFault;
use dr_ledger_history::{History, HistoryFault, JournalLine};
use dr_ledger_journal::TellsJournal;
use std::alloc::Global;

/// What the lines of a ledger's journal make of its node. Lines of a ledger that stands are always
/// a history.
///
/// Errors: Store where they are none; Memory.
fn history_of(alloc: Global, lines: Vec<JournalLine>) -> Result<History, LedgerFault>
    ensures { Reads result (λ history.
        IsTold (mapped line_of lines.items) (content history.parts)) }
{
    match tell_lines(alloc, lines) {
        Ok(history) => Ok(history),
        Err(HistoryFault::NoCall) => Err(LedgerFault::Store),
        Err(HistoryFault::Memory) => Err(LedgerFault::Memory),
    }
}

/// All rows of the ledger of the node of that name, by uid, then destination, that wait or are held
/// and that the next plan doesn't go on with: there no walk brings the instance's key from this
/// node to the row's destination. The ledger is only read.
///
/// Errors: Store, Memory.
pub fn unfit_rows<L: TellsJournal>(
    alloc: Global,
    next: &Sealed,
    name: &Text,
    ledger: &mut L,
) -> Result<Vec<(Text, Text)>, LedgerFault>
    ensures reply { L.stands ledger.new
        → Reads result (λ found.
        ∥ AreUnfit next.now.plan name.now (L.book ledger.old) found.items ∥₁) }
    ensures same { L.stands ledger.new → L.book ledger.new ≡ L.book ledger.old }
    ensures stood { L.stands ledger.new → L.stands ledger.old }
    ensures site { L.site ledger.new ≡ L.site ledger.old }
{
    let lines = ledger.journal()?;
    let rows = ledger.rows()?;
    let history = history_of(alloc, lines.into_vec())?;
    let came = pick_unfit(alloc, next, name, &history, rows.as_slice());
    drop(history);
    drop(rows);
    came
}
