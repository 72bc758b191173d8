//! Tables that are found.
ghost use Rattle.std.specs.Prelude.{◌≡◌, ◌↔◌, ◌+◌, IsTrue, MatchOption, [], length};
ghost use Rattle.sqlite.specs.Held.{state};
ghost use Rattle.sqlite.specs.Tree.{Trees};
ghost use Rattle.dr_ledger.specs.Replies.{Reads};
ghost use Rattle.dr_store_schema.specs.Ledgers.{IsLedger};
ghost use Rattle.dr_store_reads.specs.Queries.{Asked};
ghost use Rattle.dr_store_audit.specs.Found.{AgreesAs, HoldTogether};
ghost use Rattle.dr_store_writes.specs.Effects.{IsSiteOf};
ghost use Rattle.dr_store_sealed.specs.InTables.{IsSealText, seal_said};
ghost use Rattle.dr_store_calls.specs.Owners.{IsMark, IsOwnedBy};
ghost use Rattle.dr_store_open.specs.Listed.{AreWholeListsOf};
ghost use Rattle.dr_store_open.specs.Opening.{HaveAllLines, IsAgreedIf, IsWholeIf, Seen};
ghost use Rattle.dr_store_open.specs.Places.{IsPlaceIn, IsPlaceOf};

use crate::data::DataPlace;
use crate::listed::{Journal, Stock, WholeLists, list_all};
use dr_base::Text;
use dr_ledger::LedgerFault;
use dr_site::Site;
use dr_store_audit::{Begun, FindingFault, TableLists, agree};
use dr_store_calls::mark_for;
use dr_store_data::mark_in;
use dr_store_reads::{Owner, Print, find_owner};
use dr_store_sealed::{Seal, read_seal};
use sqlite::{Alter, Connection};
use std::alloc::Global;

/// What is found in the tables of a ledger: the number of its next line, where its data sets are,
/// and all prints.
#[derive(Drop)]
pub struct FoundTables {
    pub next: u64,
    pub place: DataPlace,
    pub prints: Vec<(Text, Print)>,
}

/// The place that these bytes say, which are a mark or nothing.
fn place_in(mark: &[u8]) -> Option<DataPlace>
    ensures { MatchOption result (IsMark mark.now → ⊥) (IsPlaceIn mark.now) }
{
    if mark.is_empty() {
        return Some(DataPlace::InRows);
    }
    match mark_in(mark) {
        Some(said) => Some(DataPlace::InFile(said)),
        None => None,
    }
}

/// Whether the node is the site's.
fn is_node(owner: &Owner, site: &Site) -> bool
    ensures { IsTrue result ↔ (owner.now.node ≡ site.now.name) }
{
    owner.node == *site.name()
}

/// Whether it counts no line.
fn is_of_none(seal: &Seal) -> bool
    ensures { IsTrue result ↔ (seal.now.count ≡ 0) }
{
    seal.count == 0
}

/// Whether tables with this for a seal have all their lines: it counts none that have left.
fn counts_none(seal: &[u8]) -> bool
    ensures { IsSealText seal.now → (IsTrue result ↔ ((seal_said seal.now).count ≡ 0)) }
{
    match read_seal(seal) {
        Some(said) => is_of_none(&said),
        None => false,
    }
}

/// The place that a mark says, where the seal behind it counts no line.
fn place_under(mark: &[u8], seal: &[u8]) -> Option<DataPlace>
    ensures { IsSealText seal.now → MatchOption result
        (IsMark mark.now → (seal_said seal.now).count ≡ 0 → ⊥)
        (λ place. IsPlaceIn mark.now place × ((seal_said seal.now).count ≡ 0)) }
{
    if !counts_none(seal) {
        return None;
    }
    place_in(mark)
}

/// Where the data sets are, if the node and the plan are the site's, and no line has left.
fn place_of(owner: &Owner, site: &Site) -> Option<DataPlace>
    ensures { (db : Trees) → IsSiteOf owner.now.node owner.now.plan db
        → MatchOption result (IsOwnedBy site.now db → HaveAllLines db → ⊥)
        (λ place. IsPlaceOf site.now db place × HaveAllLines db) }
{
    if !is_node(owner, site) {
        return None;
    }
    match mark_for(owner.plan.as_bytes(), site.digest()) {
        Some((mark, seal)) => place_under(mark, seal),
        None => None,
    }
}

/// The number of the line after these, where they are numbered from 1.
fn number_after(journal: &Journal) -> u64
    ensures { result ≡ length journal.now.notes.items + 1 }
{
    journal.notes.len() as u64 + 1
}

/// All prints of the lists.
fn prints_of(lists: WholeLists) -> Vec<(Text, Print)>
    ensures { result ≡ lists.stock.prints }
{
    let WholeLists {
        stock,
        moves: _,
        journal: _,
    } = lists;
    let Stock {
        keys: _,
        prints,
        arrivals: _,
    } = stock;
    prints
}

/// Compares all lists with what the journal's lines make.
fn agree_all(alloc: Global, site: &Site, lists: &WholeLists, next: u64) -> Result<(), FindingFault>
    ensures { (db : Trees)
        → AreWholeListsOf db lists.now
        → AgreesAs result (HoldTogether [] next site.now db lists.now.journal.notes.items) }
{
    let tables = TableLists {
        keys: lists.stock.keys.as_slice(),
        prints: lists.stock.prints.as_slice(),
        arrivals: lists.stock.arrivals.as_slice(),
        kept: lists.moves.kept.as_slice(),
        rows: lists.moves.rows.as_slice(),
        notes: lists.journal.notes.as_slice(),
        goals: lists.journal.goals.as_slice(),
    };
    agree(alloc, site, &tables, Begun::new(alloc), next)
}

/// Compares all lists with what the journal's lines make, where the owner's row says that place.
fn compare(
    alloc: Global,
    site: &Site,
    place: DataPlace,
    lists: WholeLists,
) -> Result<Option<FoundTables>, LedgerFault>
    ensures { (db : Trees) → AreWholeListsOf db lists
        → Reads result (IsAgreedIf site.now place db) }
{
    let next = number_after(&lists.journal);
    match agree_all(alloc, site, &lists, next) {
        Ok(()) => Ok(Some(FoundTables {
            next,
            place,
            prints: prints_of(lists),
        })),
        Err(FindingFault::OtherSite) => Ok(None),
        Err(FindingFault::Memory) => Err(LedgerFault::Memory),
    }
}

/// Compares all tables but site with what the journal's lines make.
fn find_lists<'x, S: Alter>(
    conn: &mut Connection<S>,
    alloc: Global,
    site: &'x Site,
    place: DataPlace,
) -> Result<Option<FoundTables>, LedgerFault>
    ensures asked { Asked IsLedger result (state S.Store conn.old) (state S.Store conn.new)
        (IsAgreedIf site.now place (state S.Store conn.old).now.trees) }
{
    match list_all(conn, alloc) {
        Ok(lists) => compare(alloc, site, place, lists),
        Err(fault) => Err(fault),
    }
}

/// Compares all tables, if the site owns them.
pub fn find_owned<'x, S: Alter>(
    conn: &mut Connection<S>,
    alloc: Global,
    site: &'x Site,
) -> Result<Option<FoundTables>, LedgerFault>
    ensures asked { Asked IsLedger result (state S.Store conn.old) (state S.Store conn.new)
        (IsWholeIf site.now (state S.Store conn.old).now.trees) }
{
    match find_owner(conn, alloc) {
        Ok(Some(owner)) => with_owner(conn, alloc, site, &owner),
        Ok(None) => Ok(None),
        Err(fault) => Err(fault),
    }
}

/// The same, where this is the owner.
fn with_owner<'x, S: Alter>(
    conn: &mut Connection<S>,
    alloc: Global,
    site: &'x Site,
    owner: &'x Owner,
) -> Result<Option<FoundTables>, LedgerFault>
    ensures seen { Seen IsLedger result (state S.Store conn.old) (state S.Store conn.new)
        (λ found. IsSiteOf owner.now.node owner.now.plan (state S.Store conn.old).now.trees
        → IsWholeIf site.now (state S.Store conn.old).now.trees found) }
{
    match place_of(owner, site) {
        Some(place) => find_lists(conn, alloc, site, place),
        None => Ok(None),
    }
}
