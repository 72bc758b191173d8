//! Adoptions.
ghost use Rattle.std.specs.Prelude.{◌≡◌, ◌≤◌, ◌^◌, IfErr, OnOk, false, List, ℕ};
ghost use Rattle.sqlite.specs.Held.{state};
ghost use Rattle.dr_site.specs.Parts.{Part};
ghost use Rattle.dr_store_writes.specs.Effects.{HasSite, IsSiteOf};
ghost use Rattle.dr_store_changes.specs.Writing.{Written};
ghost use Rattle.dr_store_calls.specs.Calling.{IsOwnFault, Nothing};
ghost use Rattle.dr_store_calls.specs.Adoptions.{Adopted, AdoptsPlan};
ghost use Rattle.dr_store_calls.specs.Owners.{IsPlanWith};

use crate::owning::{mark_behind, plan_cell};
use crate::plan::NewPlan;
use dr_base::same::Same;
use dr_ledger::{LedgerFault, MOST_LINES};
use dr_site::Site;
use dr_store_changes::write;
use dr_store_reads::{Owner, fault_of, find_owner};
use sqlite::{Alter, Connection};
use std::alloc::Global;

/// Sets what site has for the plan in force, as one transaction.
fn write_plan<S: Alter>(
    conn: &mut Connection<S>,
    n: u64,
    moment: Option<u64>,
    cell: &[u8],
) -> Result<(), LedgerFault>
    requires { conn.old.in_transaction ≡ false }
    ensures idle { conn.new.in_transaction ≡ false }
    ensures number { OnOk result (n ≤ 2 ^ 62) }
    ensures fault { IfErr result IsOwnFault }
    ensures written { Written n HasSite (AdoptsPlan cell.now n moment) result
        (state S.Store conn.old) (state S.Store conn.new) }
{
    if n > MOST_LINES {
        return Err(LedgerFault::Store);
    }
    let change = NewPlan { cell, moment };
    match write(conn, n, &change) {
        Ok(()) => Ok(()),
        Err(error) => Err(fault_of(&error)),
    }
}

/// Adopts the plan of the next site, with this mark and this seal, where the tables have this
/// owner.
fn adopt_with<S: Alter>(
    conn: &mut Connection<S>,
    alloc: Global,
    n: u64,
    moment: Option<u64>,
    next: &Site,
    mark: &[u8],
    seal: &[u8],
) -> Result<(), LedgerFault>
    requires { conn.old.in_transaction ≡ false }
    ensures adopted { (part : Part) (was : List ℕ) (digest : List ℕ)
        → IsPlanWith mark.now seal.now digest was
        → Adopted n part next.now result (state S.Store conn.old) (state S.Store conn.new)
        (IsSiteOf next.now.name was) }
    ensures number { OnOk result (n ≤ 2 ^ 62) }
    ensures idle { conn.new.in_transaction ≡ false }
{
    match plan_cell(alloc, next.digest(), mark, seal) {
        Ok(cell) => write_plan(conn, n, moment, &cell),
        Err(_) => Err(LedgerFault::Memory),
    }
}

/// Adopts the plan of the next site, where the tables have this owner.
fn adopt_from<S: Alter>(
    conn: &mut Connection<S>,
    alloc: Global,
    n: u64,
    moment: Option<u64>,
    next: &Site,
    owner: &Owner,
) -> Result<(), LedgerFault>
    requires { conn.old.in_transaction ≡ false }
    ensures adopted { (part : Part)
        → Adopted n part next.now result (state S.Store conn.old) (state S.Store conn.new)
        (IsSiteOf owner.now.node owner.now.plan) }
    ensures number { OnOk result (n ≤ 2 ^ 62) }
    ensures idle { conn.new.in_transaction ≡ false }
{
    if !owner.node.is_same(next.name()) {
        return Err(LedgerFault::Store);
    }
    let Some((mark, seal)) = mark_behind(owner.plan.as_bytes()) else {
        return Err(LedgerFault::Store);
    };
    adopt_with(conn, alloc, n, moment, next, mark, seal)
}

/// Adopts the plan of the next site of the tables' node, as line `n` of the journal, at that
/// moment: arrivals and done rows leave, and the tables are from now on those of a ledger of that
/// site. Data sets stay, since just those are needed that were needed before, and so do the mark of
/// the file that has them, and how far lines go that have left the tables.
///
/// Errors: Store, also where the tables aren't those of the next site's node, or nobody owns them,
/// or the journal is full; Memory.
pub fn adopt<S: Alter>(
    conn: &mut Connection<S>,
    alloc: Global,
    n: u64,
    moment: Option<u64>,
    next: &Site,
) -> Result<(), LedgerFault>
    requires { conn.old.in_transaction ≡ false }
    ensures adopted { (part : Part)
        → Adopted n part next.now result (state S.Store conn.old) (state S.Store conn.new) Nothing }
    ensures number { OnOk result (n ≤ 2 ^ 62) }
    ensures idle { conn.new.in_transaction ≡ false }
{
    match find_owner(conn, alloc) {
        Ok(Some(owner)) => adopt_from(conn, alloc, n, moment, next, &owner),
        Ok(None) => Err(LedgerFault::Store),
        Err(fault) => Err(fault),
    }
}
