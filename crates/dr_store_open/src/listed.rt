//! The lists of all tables but site.
ghost use Rattle.sqlite.specs.Held.{state};
ghost use Rattle.dr_store_schema.specs.Ledgers.{IsLedger};
ghost use Rattle.dr_store_reads.specs.Queries.{Asked};
ghost use Rattle.dr_store_open.specs.Listed.{AreWholeListsOf, IsJournalOf, IsMovesOf, IsStockOf};

use dr_base::Text;
use dr_ledger::{LedgerFault, Progress};
use dr_route::Key;
use dr_store_lists::{
    JournalRow, all_arrivals, all_kept, all_keys, all_notes, all_prints, all_rows, all_targets,
    next_number,
};
use dr_store_reads::Print;
use sqlite::{Alter, Connection};
use std::alloc::Global;

/// What is known of the instances, and who brought them.
#[derive(Drop)]
pub struct Stock {
    pub keys: Vec<(Text, Key)>,
    pub prints: Vec<(Text, Print)>,
    pub arrivals: Vec<(Text, Text)>,
}

/// Which instances are kept, and how far the others are on their way.
#[derive(Drop)]
pub struct Moves {
    pub kept: Vec<Text>,
    pub rows: Vec<((Text, Text), Progress)>,
}

/// The journal's lines, and where they go on to.
#[derive(Drop)]
pub struct Journal {
    pub notes: Vec<(u64, JournalRow)>,
    pub goals: Vec<(u64, Text)>,
}

/// The lists of all tables but site.
#[derive(Drop)]
pub struct WholeLists {
    pub stock: Stock,
    pub moves: Moves,
    pub journal: Journal,
}

fn list_stock<S: Alter>(conn: &mut Connection<S>, alloc: Global) -> Result<Stock, LedgerFault>
    ensures asked { Asked IsLedger result (state S.Store conn.old) (state S.Store conn.new)
        (IsStockOf (state S.Store conn.old).now.trees) }
{
    let keys = all_keys(conn, alloc)?;
    let prints = all_prints(conn, alloc)?;
    let arrivals = all_arrivals(conn, alloc)?;
    Ok(Stock {
        keys,
        prints,
        arrivals,
    })
}

fn list_moves<S: Alter>(conn: &mut Connection<S>, alloc: Global) -> Result<Moves, LedgerFault>
    ensures asked { Asked IsLedger result (state S.Store conn.old) (state S.Store conn.new)
        (IsMovesOf (state S.Store conn.old).now.trees) }
{
    let kept = all_kept(conn, alloc)?;
    let rows = all_rows(conn, alloc)?;
    Ok(Moves { kept, rows })
}

fn list_journal<S: Alter>(conn: &mut Connection<S>, alloc: Global) -> Result<Journal, LedgerFault>
    ensures asked { Asked IsLedger result (state S.Store conn.old) (state S.Store conn.new)
        (IsJournalOf (state S.Store conn.old).now.trees) }
{
    let notes = all_notes(conn, alloc)?;
    let goals = all_targets(conn, alloc)?;
    Ok(Journal { notes, goals })
}

/// All lists, where each line of the journal has a number.
pub fn list_all<S: Alter>(
    conn: &mut Connection<S>,
    alloc: Global,
) -> Result<WholeLists, LedgerFault>
    ensures asked { Asked IsLedger result (state S.Store conn.old) (state S.Store conn.new)
        (AreWholeListsOf (state S.Store conn.old).now.trees) }
{
    let stock = list_stock(conn, alloc)?;
    let moves = list_moves(conn, alloc)?;
    let journal = list_journal(conn, alloc)?;
    let _next = next_number(conn)?;
    Ok(WholeLists {
        stock,
        moves,
        journal,
    })
}
