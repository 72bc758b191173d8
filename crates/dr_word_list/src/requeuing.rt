//! The word `requeue`.
ghost use Rattle.std.specs.Prelude.{◌≡◌, MatchResult, Ok, Err};
ghost use Rattle.dr_ledger.specs.Replies.{Requeues};
ghost use Rattle.dr_word_list.specs.Works.{requeued_line};

use dr_base::Text;
use dr_ledger::{Ledger, LedgerFault};
use std::alloc::Global;

/// The line that is printed where a row is queued again.
const REQUEUED: &[u8] = b"requeued\n";

/// A held row by its instance's UID and the node to which it goes.
#[derive(Clone, Copy, Drop)]
pub struct HeldRow<'a> {
    pub uid: &'a str,
    pub dest: &'a str,
}

/// Queues a held row again. The line to be printed is made first, so that none is wanting once the
/// row waits.
///
/// Errors: NotHeld, Store, Memory.
pub(crate) fn requeue_row<L: Ledger>(
    alloc: Global,
    ledger: &mut L,
    row: HeldRow<'_>,
) -> Result<Text, LedgerFault>
    ensures { MatchResult result
        (λ line. (line ≡ requeued_line)
        × (L.stands ledger.new
        → Requeues row.entry.uid.now row.entry.dest.now (L.book ledger.old) (Ok tt)
        (L.book ledger.new)))
        (λ why. L.stands ledger.new
        → Requeues row.entry.uid.now row.entry.dest.now (L.book ledger.old) (Err why)
        (L.book ledger.new)) }
{
    let uid = Text::copy_of(alloc, row.uid.as_bytes())?;
    let dest = Text::copy_of(alloc, row.dest.as_bytes())?;
    let line = Text::copy_of(alloc, REQUEUED)?;
    ledger.requeue(&uid, &dest)?;
    Ok(line)
}
