//! Changes that are written.
ghost use Rattle.std.specs.Prelude.{◌≡◌, ◌≤◌, ◌^◌, IfErr, OnOk, false};
ghost use Rattle.sqlite.specs.Held.{state};
ghost use Rattle.dr_store_changes.specs.Writing.{Written};
ghost use Rattle.dr_store_calls.specs.Calling.{IsOwnFault};
ghost use Rattle.dr_store_calls.specs.LettingGo.{telling};

use dr_ledger::{LedgerFault, MOST_LINES};
use dr_store_changes::{TableChange, write};
use dr_store_reads::fault_of;
use sqlite::{Alter, Connection};

/// Writes a change as one transaction, whose commit is its last call of the database.
///
/// Errors: Store where the journal is full; Store and Memory of the database.
pub fn written<C: TableChange, S: Alter>(
    conn: &mut Connection<S>,
    n: u64,
    change: &C,
) -> Result<(), LedgerFault>
    requires { conn.old.in_transaction ≡ false }
    ensures idle { conn.new.in_transaction ≡ false }
    ensures number { OnOk result (n ≤ 2 ^ 62) }
    ensures fault { IfErr result IsOwnFault }
    ensures written { Written n (C.asks change.now) (C.makes change.now n) result
        (state S.Store conn.old) (state S.Store conn.new) }
{
    if n > MOST_LINES {
        return Err(LedgerFault::Store);
    }
    match write(conn, n, change) {
        Ok(()) => Ok(()),
        Err(error) => Err(fault_of(&error)),
    }
}

/// The answer, with whether a data set went where the call was accepted.
pub fn tells(answer: Result<(), LedgerFault>, went: bool) -> Result<bool, LedgerFault>
    ensures { result ≡ telling went answer }
{
    match answer {
        Ok(()) => Ok(went),
        Err(fault) => Err(fault),
    }
}
