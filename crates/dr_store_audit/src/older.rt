//! Whether the tables of a file are those of a ledger from before.
ghost use Rattle.std.specs.Prelude.{◌≡◌, ◌≤◌, IsTrue, IfSome, codes, ◌∷◌, [], true, false};
ghost use Rattle.dr_store_schema.specs.Tables.{print_table, target};
ghost use Rattle.dr_store_audit.specs.Older.{behind, older_tables};
ghost use Rattle.dr_store_audit.specs.OlderTables.{due_indexes, listed, moves_indexes};
ghost use Rattle.dr_store_audit.specs.OlderTables.{older_indexes, older_list, older_schema};
ghost use Rattle.dr_store_audit.specs.OlderTables.{stock_indexes};
ghost use Rattle.dr_store_audit.specs.Tables.{index_of};

use crate::schema::{
    after_arrival, after_item, after_journal_before, after_kept, after_key, after_print,
    after_queue, after_site, after_target, is_index,
};
use sqlite_schema::schema::{Index, Schema, Table};

/// What a ledger's file from before lacks, besides the instances in its journal and the index of
/// arrivals by their uids, which each lacks: the table of prints, that of targets, or the index of
/// the rows that are due.
#[derive(Clone, Copy, PartialEq, Eq)]
pub struct Lacks {
    pub print: bool,
    pub target: bool,
    pub due: bool,
}

/// The number that a tree has behind those of print.
fn number(lacks_print: bool, tree: u32) -> u32
    requires { 2 ≤ tree }
    ensures { result ≡ behind lacks_print tree }
{
    if lacks_print {
        return tree - 2;
    }
    tree
}

/// The tables after print, if that one is the first, or is lacking.
fn behind_print(tables: &[Table], lacks: bool) -> Option<&[Table]>
    ensures { IfSome result (λ rest. tables.now ≡ listed lacks print_table rest.now) }
{
    if lacks {
        return Some(tables);
    }
    after_print(tables)
}

/// The tables after target, if that one is the first, or is lacking.
fn behind_target(tables: &[Table], lacks: bool, tree: u32) -> Option<&[Table]>
    ensures { IfSome result (λ rest.
        tables.now ≡ listed lacks (record target { tree = tree }) rest.now) }
{
    if lacks {
        return Some(tables);
    }
    after_target(tables, tree)
}

/// Whether these are the tables from before, less those.
fn are_older_tables<'x>(tables: &'x [Table], lacks: Lacks) -> Option<&'x [Table]>
    ensures { IfSome result (λ rest. tables.now ≡ older_list lacks.print lacks.target) }
{
    let rest = after_site(tables)?;
    let rest = after_item(rest)?;
    let rest = behind_print(rest, lacks.print)?;
    let rest = after_arrival(rest, number(lacks.print, 5))?;
    let rest = after_kept(rest, number(lacks.print, 7))?;
    let rest = after_queue(rest, number(lacks.print, 9))?;
    let rest = after_journal_before(rest, number(lacks.print, 11))?;
    let rest = behind_target(rest, lacks.target, number(lacks.print, 12))?;
    let [] = rest else {
        return None;
    };
    Some(rest)
}

/// The indexes after that of a key, if that one is the first, or its table is lacking.
fn behind_key<'x>(
    indexes: &'x [Index],
    lacks: bool,
    name: &[u8],
    tree: u32,
    table: u32,
    columns: &[usize],
) -> Option<&'x [Index]>
    ensures { IfSome result (λ rest.
        indexes.now ≡ listed lacks (index_of name.now tree table columns.now true) rest.now) }
{
    if lacks {
        return Some(indexes);
    }
    after_key(indexes, name, tree, table, columns)
}

/// Whether it is the index of the rows that are due alone, or there is none where it is lacking.
fn is_due(indexes: &[Index], lacks: bool, tree: u32, table: u32) -> bool
    ensures { IsTrue result → indexes.now ≡ due_indexes lacks tree table }
{
    if lacks {
        return indexes.is_empty();
    }
    let [due] = indexes else {
        return false;
    };
    is_index(due, b"queue_due", tree, table, &[2, 3, 5, 1], false)
}

/// The number of the tree of the index of the rows that are due, behind those of print and of
/// target, which have two each.
fn due_number(lacks: Lacks) -> u32
    ensures { result ≡ behind lacks.target (behind lacks.print 14) }
{
    if lacks.print && lacks.target {
        return 10;
    }
    if lacks.print || lacks.target {
        return 12;
    }
    14
}

/// The indexes after those of item, print and arrival, if these are the first.
fn behind_stock<'x>(indexes: &'x [Index], lacks_print: bool) -> Option<&'x [Index]>
    ensures { IfSome result (λ rest. indexes.now ≡ stock_indexes lacks_print rest.now) }
{
    let arrival = number(lacks_print, 5);
    let rest = after_key(indexes, b"sqlite_autoindex_item_1", 2, 1, &[1])?;
    let rest = behind_key(rest, lacks_print, b"sqlite_autoindex_print_1", 4, 3, &[1])?;
    after_key(
        rest,
        b"sqlite_autoindex_arrival_1",
        number(lacks_print, 6),
        arrival,
        &[1, 2],
    )
}

/// The indexes after those of kept, queue and target, if these are the first.
fn behind_moves<'x>(indexes: &'x [Index], lacks: Lacks) -> Option<&'x [Index]>
    ensures { IfSome result (λ rest.
        indexes.now ≡ moves_indexes lacks.print lacks.target rest.now) }
{
    let kept = number(lacks.print, 7);
    let queue = number(lacks.print, 9);
    let target = number(lacks.print, 12);
    let rest = after_key(
        indexes,
        b"sqlite_autoindex_kept_1",
        number(lacks.print, 8),
        kept,
        &[1],
    )?;
    let rest = after_key(
        rest,
        b"sqlite_autoindex_queue_1",
        number(lacks.print, 10),
        queue,
        &[1, 2],
    )?;
    behind_key(
        rest,
        lacks.target,
        b"sqlite_autoindex_target_1",
        number(lacks.print, 13),
        target,
        &[1, 2],
    )
}

/// Whether these are the indexes of the tables from before, less those.
fn are_older_indexes<'x>(indexes: &'x [Index], lacks: Lacks) -> Option<&'x [Index]>
    ensures { IfSome result (λ rest.
        indexes.now ≡ older_indexes lacks.print lacks.target lacks.due) }
{
    let rest = behind_stock(indexes, lacks.print)?;
    let rest = behind_moves(rest, lacks)?;
    if is_due(rest, lacks.due, due_number(lacks), number(lacks.print, 9)) {
        return Some(rest);
    }
    None
}

/// Whether these are the tables and indexes from before, less those, and nothing else.
fn is_less(schema: &Schema, lacks: Lacks) -> Option<()>
    ensures { IfSome result (λ done. schema.now ≡ older_schema lacks) }
{
    are_older_tables(schema.tables.as_slice(), lacks)?;
    are_older_indexes(schema.indexes.as_slice(), lacks)?;
    let [] = schema.views.as_slice() else {
        return None;
    };
    Some(())
}

/// Whether there is a table of that name.
fn has_table(schema: &Schema, name: &[u8]) -> bool {
    schema
        .tables
        .as_slice()
        .iter()
        .any(|table| table.name.as_slice() == name)
}

/// Whether there is an index of that name.
fn has_index(schema: &Schema, name: &[u8]) -> bool {
    schema
        .indexes
        .as_slice()
        .iter()
        .any(|index| index.name.as_slice() == name)
}

/// What a ledger's file from before lacks, if its tables and indexes are those from before but for
/// that, and nothing else.
pub fn lacking(schema: &Schema) -> Option<Lacks>
    ensures { IfSome result (λ lacks. schema.now ≡ older_tables lacks) }
{
    let lacks = Lacks {
        print: !has_table(schema, b"print"),
        target: !has_table(schema, b"target"),
        due: !has_index(schema, b"queue_due"),
    };
    is_less(schema, lacks)?;
    Some(lacks)
}
