//! What an opening begins with that has a balance of the first lines of a past.
ghost use Rattle.std.specs.Prelude.{◌≡◌, ◌≤◌, IfErr, IfOk, take};
ghost use Rattle.dr_ledger_balance.specs.Contents.{IsBalanceOf, content_in};
ghost use Rattle.dr_ledger_history.specs.Contents.{content};
ghost use Rattle.dr_store_audit.specs.Begun.{HasBegun};
ghost use Rattle.dr_store_begun.specs.Beginning.{IsOnlyRead, IsWhyNotBegunFrom, lines_in};

use crate::fault::BeginFault;
use crate::pages::tell_behind;
use dr_ledger_balance::{Balance, trees_of};
use dr_ledger_history::History;
use dr_store_audit::Begun;
use dr_store_past::LedgerPast;
use std::alloc::{AllocError, Global};

/// What a balance says that its lines made, for more lines to be told.
fn history_of(alloc: Global, balance: Balance) -> Result<History, AllocError>
    ensures { IfOk result (λ h. content h.parts ≡ content_in balance) }
{
    let trees = trees_of(alloc, balance)?;
    Ok(History::of_trees(alloc, trees.items, trees.arrivals, trees.kept, trees.rows))
}

/// What the lines of a past made, all of them up to its seal: its first lines by their balance, and
/// those behind these told one after another. The past is only read. Which lines the balance is of
/// nobody can see: what is answered is right of each past of which the balance says right.
///
/// Errors: Beyond and Uncounted, before anything is read; Unread; Miscounted, only where what is
/// shown isn't the past; NoHistory, only where its lines are no history of a ledger, or the balance
/// doesn't say right of them; Memory.
pub fn begin_from<P: LedgerPast>(
    alloc: Global,
    balance: Balance,
    past: &mut P,
) -> Result<Begun, BeginFault>
    ensures begun { IfOk result (λ begun. P.is_clean past.new
        → IsBalanceOf (take balance.count (lines_in P.LedgerPast past.old)) balance
        → HasBegun (lines_in P.LedgerPast past.old) begun) }
    ensures within { IfOk result (λ begun. balance.count ≤ (P.reach past.old).count) }
    ensures read { IsOnlyRead P.LedgerPast past.old past.new }
    ensures why { IfErr result
        (IsWhyNotBegunFrom P.LedgerPast past.old past.new balance.count
        (IsBalanceOf (take balance.count (lines_in P.LedgerPast past.old)) balance)) }
{
    let count = balance.count;
    let seal = past.seal();
    if count > seal.count {
        return Err(BeginFault::Beyond);
    }
    let Some(first) = seal.count.checked_add(1) else {
        return Err(BeginFault::Uncounted);
    };
    let told = match history_of(alloc, balance) {
        Ok(told) => told,
        Err(AllocError) => return Err(BeginFault::Memory),
    };
    let history = match tell_behind(told, past, count) {
        Ok(history) => history,
        Err(fault) => return Err(fault),
    };
    Ok(Begun { history, first })
}
