//! Lines that leave the tables.
ghost use Rattle.std.specs.Prelude.{◌≡◌, ◌↔◌, ◌+◌, false, IfErr, IfOk, IsTrue, List, OnOk, ℕ};
ghost use Rattle.sqlite.specs.Held.{state};
ghost use Rattle.dr_store_sealed.specs.InTables.{IsOfCode, bytes_of_seal};
ghost use Rattle.dr_store_writes.specs.Effects.{HasSite, IsSiteOf};
ghost use Rattle.dr_store_changes.specs.Sealing.{SealsLines};
ghost use Rattle.dr_store_changes.specs.Writing.{Transacted};
ghost use Rattle.dr_store_calls.specs.Calling.{IsOwnFault, Nothing};
ghost use Rattle.dr_store_calls.specs.Owners.{IsMark, IsPlanWith};
ghost use Rattle.dr_store_calls.specs.Sealing.{Sealed};

use crate::owning::{mark_for, plan_cell};
use dr_base::same::Same;
use dr_ledger::LedgerFault;
use dr_site::Site;
use dr_store_reads::{Owner, fault_of, find_owner};
use dr_store_sealed::{Seal, seal_bytes};
use sqlite::{Alter, Connection};
use std::alloc::{AllocError, Global};

/// Takes all lines out, and sets what site has for the plan in force, as one transaction.
fn write_seal<S: Alter>(conn: &mut Connection<S>, cell: &[u8]) -> Result<(), LedgerFault>
    requires { conn.old.in_transaction ≡ false }
    ensures idle { conn.new.in_transaction ≡ false }
    ensures fault { IfErr result IsOwnFault }
    ensures written { (n : ℕ) → Transacted n n HasSite (SealsLines cell.now) result
        (state S.Store conn.old) (state S.Store conn.new) }
{
    match dr_store_changes::seal(conn, cell) {
        Ok(()) => Ok(()),
        Err(error) => Err(fault_of(&error)),
    }
}

/// What site has for the plan of this site, with this mark and this seal.
fn sealed_cell(alloc: Global, site: &Site, mark: &[u8], last: &Seal) -> Result<Vec<u8>, AllocError>
    ensures cell { IfOk result (λ cell. IsMark mark.now
        → IsPlanWith mark.now (bytes_of_seal last.now) site.now.digest cell.items) }
    ensures of_code { IfOk result (λ cell. IsOfCode last.now) }
{
    let seal = seal_bytes(alloc, last)?;
    let cell = plan_cell(alloc, site.digest(), mark, &seal)?;
    Ok(cell)
}

/// Seals the lines of a site's ledger up to this seal, with this mark, where the tables have this
/// owner.
fn seal_with<S: Alter>(
    conn: &mut Connection<S>,
    alloc: Global,
    site: &Site,
    mark: &[u8],
    last: &Seal,
) -> Result<(), LedgerFault>
    requires { conn.old.in_transaction ≡ false }
    ensures sealed { (was before : List ℕ)
        → IsPlanWith mark.now before site.now.digest was
        → Sealed (last.now.count + 1) site.now last.now result (state S.Store conn.old)
        (state S.Store conn.new) (IsSiteOf site.now.name was) }
    ensures idle { conn.new.in_transaction ≡ false }
{
    match sealed_cell(alloc, site, mark, last) {
        Ok(cell) => write_seal(conn, &cell),
        Err(_) => Err(LedgerFault::Memory),
    }
}

/// Seals the lines of a site's ledger up to this seal, where the tables have this owner.
fn seal_for<S: Alter>(
    conn: &mut Connection<S>,
    alloc: Global,
    site: &Site,
    owner: &Owner,
    last: &Seal,
) -> Result<(), LedgerFault>
    requires { conn.old.in_transaction ≡ false }
    ensures sealed { Sealed (last.now.count + 1) site.now last.now result (state S.Store conn.old)
        (state S.Store conn.new) (IsSiteOf owner.now.node owner.now.plan) }
    ensures idle { conn.new.in_transaction ≡ false }
{
    if !owner.node.is_same(site.name()) {
        return Err(LedgerFault::Store);
    }
    let Some((mark, _)) = mark_for(owner.plan.as_bytes(), site.digest()) else {
        return Err(LedgerFault::Store);
    };
    seal_with(conn, alloc, site, mark, last)
}

/// Seals the lines of a site's ledger up to this seal.
fn seal_to<S: Alter>(
    conn: &mut Connection<S>,
    alloc: Global,
    site: &Site,
    last: &Seal,
) -> Result<(), LedgerFault>
    requires { conn.old.in_transaction ≡ false }
    ensures sealed { Sealed (last.now.count + 1) site.now last.now result (state S.Store conn.old)
        (state S.Store conn.new) Nothing }
    ensures idle { conn.new.in_transaction ≡ false }
{
    match find_owner(conn, alloc) {
        Ok(Some(owner)) => seal_for(conn, alloc, site, &owner, last),
        Ok(None) => Err(LedgerFault::Store),
        Err(fault) => Err(fault),
    }
}

/// Whether the seal counts the lines before that number, and no others.
fn counts_up_to(last: &Seal, n: u64) -> bool
    ensures { IsTrue result ↔ (last.now.count + 1 ≡ n) }
{
    if n == 0 {
        return false;
    }
    last.count == n - 1
}

/// Lets all lines leave the tables of the site's ledger, whose next line has number `n`. The tables
/// say then that lines have left up to the seal `last`, which has to count all lines before that
/// one: those that had left before, and those that leave now. The tables are from now on those of
/// the same ledger over its past with these lines behind it. All else stays, and so does the number
/// of the next line.
///
/// It asks for nothing about where the lines are then: that is for its caller.
///
/// Errors: Store, also where the seal counts more lines or fewer, or the site doesn't own the
/// tables; Memory.
pub fn seal<S: Alter>(
    conn: &mut Connection<S>,
    alloc: Global,
    site: &Site,
    n: u64,
    last: &Seal,
) -> Result<(), LedgerFault>
    requires { conn.old.in_transaction ≡ false }
    ensures sealed { Sealed n site.now last.now result (state S.Store conn.old)
        (state S.Store conn.new) Nothing }
    ensures counted { OnOk result (last.now.count + 1 ≡ n) }
    ensures idle { conn.new.in_transaction ≡ false }
{
    if !counts_up_to(last, n) {
        return Err(LedgerFault::Store);
    }
    seal_to(conn, alloc, site, last)
}
