//! Whether a data set is needed still.
ghost use Rattle.std.specs.Prelude.{◌≡◌, ◌↔◌, ◌⊎◌, ℕ, IsTrue, true, false};
ghost use Rattle.sqlite.specs.Held.{state};
ghost use Rattle.dr_site.specs.Parts.{Part};
ghost use Rattle.dr_ledger.specs.Books.{is_queued};
ghost use Rattle.dr_store_calls.specs.Calling.{Looked};
ghost use Rattle.dr_store_calls.specs.Needs.{IsKeptIn, IsNeededStill};

use dr_base::Text;
use dr_ledger::{LedgerFault, Progress};
use dr_store_reads::{find_kept, is_open_elsewhere};
use sqlite::{Alter, Connection};

/// Whether the instance is needed elsewhere, or is kept.
fn or_kept<'x, S: Alter>(
    conn: &mut Connection<S>,
    uid: &'x Text,
    elsewhere: bool,
) -> Result<bool, LedgerFault>
    ensures looked { (n : ℕ) (part : Part)
        → Looked n part result (state S.Store conn.old) (state S.Store conn.new)
        (λ base needed. IsTrue needed ↔ ((elsewhere ≡ true) ⊎ IsKeptIn base uid.now)) }
    ensures idle { conn.old.in_transaction ≡ false → conn.new.in_transaction ≡ false }
{
    if elsewhere {
        return Ok(true);
    }
    find_kept(conn, uid)
}

/// Whether the data set of an instance is needed where its row for the destination comes to this.
pub fn is_needed<'x, S: Alter>(
    conn: &mut Connection<S>,
    uid: &'x Text,
    dest: &'x Text,
    to: Progress,
) -> Result<bool, LedgerFault>
    ensures looked { (n : ℕ) (part : Part)
        → Looked n part result (state S.Store conn.old) (state S.Store conn.new)
        (λ base needed. IsTrue needed ↔ IsNeededStill base uid.now dest.now to) }
    ensures idle { conn.old.in_transaction ≡ false → conn.new.in_transaction ≡ false }
{
    if to.is_queued() {
        return Ok(true);
    }
    match is_open_elsewhere(conn, uid, dest) {
        Ok(elsewhere) => or_kept(conn, uid, elsewhere),
        Err(fault) => Err(fault),
    }
}
