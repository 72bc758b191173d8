//! The word `drop`.
ghost use Rattle.std.specs.Prelude.{◌≡◌, ◌≤◌, ◌^◌, MatchResult, Ok, Err};
ghost use Rattle.dr_ledger.specs.Replies.{Drops};
ghost use Rattle.dr_word_list.specs.Works.{dropped_line};

use dr_base::Text;
use dr_ledger::{LedgerFault, LetsGo};
use std::alloc::Global;

/// The line that is printed where a row was given up.
const DROPPED: &[u8] = b"dropped\n";

/// A row by its instance's UID and the node to which it goes, and the moment at which it is given
/// up (milliseconds since 1970).
#[derive(Clone, Copy, Drop)]
pub struct GivenUp<'a> {
    pub uid: &'a str,
    pub dest: &'a str,
    pub now: u64,
}

/// Gives a held row up. The line to be printed is made first, so that none is wanting once the row
/// is dropped.
///
/// Errors: NotHeld, Store, Memory.
pub(crate) fn give_row_up<L: LetsGo>(
    alloc: Global,
    ledger: &mut L,
    row: GivenUp<'_>,
) -> Result<Text, LedgerFault>
    requires { row.now ≤ 2 ^ 62 }
    ensures { MatchResult result
        (λ line. (line ≡ dropped_line)
        × (L.stands ledger.new
        → Drops row.entry.uid.now row.entry.dest.now row.entry.now (L.book ledger.old) (Ok tt)
        (L.book ledger.new)))
        (λ why. L.stands ledger.new
        → Drops row.entry.uid.now row.entry.dest.now row.entry.now (L.book ledger.old) (Err why)
        (L.book ledger.new)) }
{
    let uid = Text::copy_of(alloc, row.uid.as_bytes())?;
    let dest = Text::copy_of(alloc, row.dest.as_bytes())?;
    let line = Text::copy_of(alloc, DROPPED)?;
    ledger.give_up(&uid, &dest, row.now)?;
    Ok(line)
}
