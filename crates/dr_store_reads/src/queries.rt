//! Queries, which change nothing.
ghost use Rattle.std.specs.Prelude.{◌≡◌, ◌⊎◌, ◌↔◌};
ghost use Rattle.sqlite.specs.State.{Shown};
ghost use Rattle.sqlite.specs.Held.{state};
ghost use Rattle.sqlite.specs.Values.{bound};
ghost use Rattle.sqlite.specs.Listing.{understood};
ghost use Rattle.sqlite.specs.Given.{IsPlain};
ghost use Rattle.dr_ledger.specs.declared.fault.LedgerFault.TheVariants as fault;
ghost use Rattle.dr_store_reads.specs.Queries.{Asked, IsWantOfMemory};

use dr_ledger::LedgerFault;
use sqlite::types::ValueRef;
use sqlite::{Alter, Connection, Error, ErrorCode, Row};

/// What a ledger answers where the database answers this.
pub fn fault_of(error: &Error) -> LedgerFault
    ensures own { (result ≡ fault.Store) ⊎ (result ≡ fault.Memory) }
    ensures memory { (result ≡ fault.Memory) ↔ IsWantOfMemory error.now }
{
    match error {
        Error::SqliteFailure(ErrorCode::OutOfMemory) => LedgerFault::Memory,
        _ => LedgerFault::Store,
    }
}

/// The answer of a query.
pub fn ask<S: Alter>(
    conn: &mut Connection<S>,
    sql: &str,
    params: &[ValueRef<'_>],
) -> Result<Vec<Row>, LedgerFault>
    ensures asked { Asked
        (λ db. IsPlain (understood db.schema sql.now)) result (state S.Store conn.old)
        (state S.Store conn.new)
        (λ rows. Shown sql.now (bound params.now) (state S.Store conn.old) (state S.Store conn.new)
        rows.items) }
{
    match conn.query_all(sql, params) {
        Ok(rows) => Ok(rows),
        Err(error) => Err(fault_of(&error)),
    }
}
