//! What the tables have of an instance that arrives.
ghost use Rattle.std.specs.Prelude.{◌≡◌, ◌↔◌, ℕ, IsTrue, None, Some, false};
ghost use Rattle.dr_ledger.specs.declared.item.Instance.{Instance};
ghost use Rattle.sqlite.specs.Held.{state};
ghost use Rattle.sqlite.specs.Tree.{Trees};
ghost use Rattle.dr_site.specs.Parts.{Part};
ghost use Rattle.dr_ledger.specs.Replies.{Reads};
ghost use Rattle.dr_store_reads.specs.Queries.{IsKeyOf, IsPrintOf};
ghost use Rattle.dr_store_calls.specs.Calling.{Looked};
ghost use Rattle.dr_store_calls.specs.Knowing.{IsWhatIsKnown};

use dr_ledger::{Instance, LedgerFault};
use dr_route::Key;
use dr_store_reads::{Print, find_key, find_print};
use sqlite::{Alter, Connection};
use std::alloc::Global;

/// What is known of the uid of an item.
#[derive(Clone, Copy, PartialEq, Eq, Debug)]
pub enum Known {
    /// Nothing.
    No,
    /// Another instance has it.
    Other,
    /// It is this very instance.
    Same {
        /// Whether its data set is there.
        whole: bool,
    },
}

/// Whether the key and the print are those of the instance.
fn is_same(item: &Instance, key: &Key, print: &Print) -> bool
    ensures { IsTrue result
        ↔ ((key.now ≡ item.now.key)
        × (print.now.size ≡ item.now.size)
        × (print.now.digest ≡ item.now.digest)) }
{
    *key == item.key && print.size == item.size && print.digest == item.digest
}

/// What is known where this key is found with this print; a key without a print no ledger has
/// written.
fn with_key(item: &Instance, key: &Key, print: Option<Print>) -> Result<Known, LedgerFault>
    ensures { Reads result (λ known. (db : Trees)
        → IsKeyOf item.now.uid db (Some key.now)
        → IsPrintOf item.now.uid db print
        → IsWhatIsKnown db item.now known) }
{
    match print {
        Some(print) => {
            if is_same(item, key, &print) {
                return Ok(Known::Same { whole: print.whole });
            }
            Ok(Known::Other)
        }
        None => Err(LedgerFault::Store),
    }
}

/// What is known where no key is found; a print without a key no ledger has written.
fn without_key(print: Option<Print>) -> Result<Known, LedgerFault>
    ensures { Reads result (λ known. (item : Instance) (db : Trees)
        → IsKeyOf item.uid db None
        → IsPrintOf item.uid db print
        → IsWhatIsKnown db item known) }
{
    match print {
        Some(_) => Err(LedgerFault::Store),
        None => Ok(Known::No),
    }
}

/// What is known where this key and this print are found.
fn compare(item: &Instance, key: Option<Key>, print: Option<Print>) -> Result<Known, LedgerFault>
    ensures { Reads result (λ known. (db : Trees)
        → IsKeyOf item.now.uid db key
        → IsPrintOf item.now.uid db print
        → IsWhatIsKnown db item.now known) }
{
    match key {
        Some(key) => with_key(item, &key, print),
        None => without_key(print),
    }
}

/// What is known where this key is found.
fn known_by<S: Alter>(
    conn: &mut Connection<S>,
    item: &Instance,
    key: Option<Key>,
) -> Result<Known, LedgerFault>
    ensures looked { (n : ℕ) (part : Part)
        → Looked n part result (state S.Store conn.old) (state S.Store conn.new)
        (λ base known. IsKeyOf item.now.uid base key → IsWhatIsKnown base item.now known) }
    ensures idle { conn.old.in_transaction ≡ false → conn.new.in_transaction ≡ false }
{
    match find_print(conn, &item.uid) {
        Ok(print) => compare(item, key, print),
        Err(fault) => Err(fault),
    }
}

/// What the tables have of the uid of an instance.
pub fn know<S: Alter>(
    conn: &mut Connection<S>,
    alloc: Global,
    item: &Instance,
) -> Result<Known, LedgerFault>
    ensures looked { (n : ℕ) (part : Part)
        → Looked n part result (state S.Store conn.old) (state S.Store conn.new)
        (λ base known. IsWhatIsKnown base item.now known) }
    ensures idle { conn.old.in_transaction ≡ false → conn.new.in_transaction ≡ false }
{
    match find_key(conn, alloc, &item.uid) {
        Ok(key) => known_by(conn, item, key),
        Err(fault) => Err(fault),
    }
}
