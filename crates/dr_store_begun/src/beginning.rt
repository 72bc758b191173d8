//! What an opening of tables with a past begins with.
ghost use Rattle.std.specs.Prelude.{◌≡◌, IfErr, IfOk};
ghost use Rattle.dr_store_audit.specs.Begun.{HasBegun};
ghost use Rattle.dr_store_begun.specs.Beginning.{IsOnlyRead, IsWhyNotBegun, lines_in};

use crate::fault::BeginFault;
use crate::pages::tell_behind;
use dr_ledger_history::History;
use dr_store_audit::Begun;
use dr_store_past::LedgerPast;
use std::alloc::Global;

/// What the lines of a past made, all of them up to its seal, told from the first one on. The past
/// is only read.
///
/// Errors: Uncounted, before anything is read; Unread; Miscounted, only where what is shown isn't
/// the past; NoHistory, only where its lines are no history of a ledger; Memory. A past of no lines
/// is never refused.
pub fn begin<P: LedgerPast>(alloc: Global, past: &mut P) -> Result<Begun, BeginFault>
    ensures begun { IfOk result (λ begun. P.is_clean past.new
        → HasBegun (lines_in P.LedgerPast past.old) begun) }
    ensures read { IsOnlyRead P.LedgerPast past.old past.new }
    ensures why { IfErr result
        (IsWhyNotBegun P.LedgerPast past.old past.new (Unit {0})) }
    ensures nothing { (P.reach past.old).count ≡ 0 → IfErr result (λ fault. ⊥) }
{
    let Some(first) = past.seal().count.checked_add(1) else {
        return Err(BeginFault::Uncounted);
    };
    let history = match tell_behind(History::new(alloc), past, 0) {
        Ok(history) => history,
        Err(fault) => return Err(fault),
    };
    Ok(Begun { history, first })
}
