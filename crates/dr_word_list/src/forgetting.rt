//! The word `forget`.
ghost use Rattle.std.specs.Prelude.{◌≡◌, MatchResult, Ok, Err};
ghost use Rattle.dr_ledger.specs.Replies.{Forgets};
ghost use Rattle.dr_word_list.specs.Works.{forgotten_line};

use dr_base::Text;
use dr_ledger::{LedgerFault, LetsGo};
use std::alloc::Global;

/// The line that is printed where an instance was forgotten.
const FORGOTTEN: &[u8] = b"forgotten\n";

/// Forgets an instance. The line to be printed is made first, so that none is wanting once it is
/// forgotten.
///
/// Errors: NotOver, Store, Memory.
pub(crate) fn forget_instance<L: LetsGo>(
    alloc: Global,
    ledger: &mut L,
    uid: &str,
) -> Result<Text, LedgerFault>
    ensures { MatchResult result
        (λ line. (line ≡ forgotten_line)
        × (L.stands ledger.new
        → Forgets uid.now (L.book ledger.old) (Ok tt) (L.book ledger.new)))
        (λ why. L.stands ledger.new
        → Forgets uid.now (L.book ledger.old) (Err why) (L.book ledger.new)) }
{
    let uid = Text::copy_of(alloc, uid.as_bytes())?;
    let line = Text::copy_of(alloc, FORGOTTEN)?;
    ledger.forget(&uid)?;
    Ok(line)
}
