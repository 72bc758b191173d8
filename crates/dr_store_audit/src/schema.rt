//! Whether the tables of a file are those of a ledger.
ghost use Rattle.std.specs.Prelude.{◌≡◌, ◌≢◌, ◌↔◌, IsTrue, List, [], ◌∷◌, IfSome, MatchOption};
ghost use Rattle.std.specs.Prelude.{true};
ghost use Rattle.sqlite_schema.specs.declared.schema.Column.{Column};
ghost use Rattle.dr_store_schema.specs.Tables.{arrival, arrival_table, column_named, item_table};
ghost use Rattle.dr_store_schema.specs.Tables.{journal, journal_table, kept, kept_table};
ghost use Rattle.dr_store_schema.specs.Tables.{print_table, queue, queue_table, refers, site_table};
ghost use Rattle.dr_store_schema.specs.Tables.{tables, target, target_table};
ghost use Rattle.dr_store_audit.specs.Older.{journal_before};
ghost use Rattle.dr_store_audit.specs.Tables.{HasNothingMore, index_of, instance_columns, keyed};
ghost use Rattle.dr_store_audit.specs.Tables.{key_indexes, ledger_indexes, ledger_schema};
ghost use Rattle.dr_store_audit.specs.Tables.{ledger_tables, moves_tables, numbered, row_indexes};
ghost use Rattle.dr_store_audit.specs.Tables.{stock_tables, with_call};

use sqlite_items::Items;
use sqlite_schema::schema::{Action, Column, Index, Kind, Reference, Schema, Table};
use sqlite_value::keys::{Collation, Order};
use sqlite_value::value::{Bytes, Value};

/// Whether the name is that one.
fn is_named(name: &Bytes, want: &[u8]) -> bool
    ensures { IsTrue result ↔ (name.now ≡ want.now) }
{
    name.as_slice() == want
}

/// Whether the places are those.
fn are_places(places: &[usize], want: &[usize]) -> bool
    ensures { IsTrue result ↔ (places.now ≡ want.now) }
{
    places == want
}

/// Whether a column has no default.
fn is_null(value: &Value) -> bool
    ensures { IsTrue result ↔ (value.now ≡ Value.Null) }
{
    match value {
        Value::Null => true,
        _ => false,
    }
}

/// Whether the column is one of a strict table, without a default, with this name, of this kind.
fn is_column(column: &Column, name: &[u8], kind: Kind, not_null: bool) -> bool
    ensures { IsTrue result ↔ (column.now ≡ column_named name.now kind not_null) }
{
    is_named(&column.name, name)
        && column.kind == kind
        && column.not_null == not_null
        && column.is_strict
        && column.collation == Collation::Binary
        && is_null(&column.default)
}

/// Whether these are the columns of site.
fn are_site_columns(columns: &[Column]) -> bool
    ensures { IsTrue result ↔ (columns.now ≡ site_table.columns) }
{
    let [id, node, plan] = columns else {
        return false;
    };
    is_column(id, b"id", Kind::Integer, false)
        && is_column(node, b"node", Kind::Text, true)
        && is_column(plan, b"plan", Kind::Blob, true)
}

/// Whether these are the columns of item.
fn are_item_columns(columns: &[Column]) -> bool
    ensures { IsTrue result ↔ (columns.now ≡ item_table.columns) }
{
    let [uid, class, syntax, modality, station, body] = columns else {
        return false;
    };
    is_column(uid, b"uid", Kind::Text, true)
        && is_column(class, b"class", Kind::Text, true)
        && is_column(syntax, b"syntax", Kind::Text, true)
        && is_column(modality, b"modality", Kind::Blob, true)
        && is_column(station, b"station", Kind::Blob, true)
        && is_column(body, b"body", Kind::Blob, true)
}

/// Whether these are the columns of print.
fn are_print_columns(columns: &[Column]) -> bool
    ensures { IsTrue result ↔ (columns.now ≡ print_table.columns) }
{
    let [uid, size, digest, whole] = columns else {
        return false;
    };
    is_column(uid, b"uid", Kind::Text, true)
        && is_column(size, b"length", Kind::Integer, true)
        && is_column(digest, b"sha256", Kind::Blob, true)
        && is_column(whole, b"whole", Kind::Integer, true)
}

/// Whether these are the columns of arrival.
fn are_arrival_columns(columns: &[Column]) -> bool
    ensures { IsTrue result ↔ (columns.now ≡ arrival_table.columns) }
{
    let [caller, uid] = columns else {
        return false;
    };
    is_column(caller, b"caller", Kind::Text, true) && is_column(uid, b"uid", Kind::Text, true)
}

/// Whether these are the columns of kept.
fn are_kept_columns(columns: &[Column]) -> bool
    ensures { IsTrue result ↔ (columns.now ≡ kept_table.columns) }
{
    let [uid] = columns else {
        return false;
    };
    is_column(uid, b"uid", Kind::Text, true)
}

/// Whether these are the columns of queue.
fn are_queue_columns(columns: &[Column]) -> bool
    ensures { IsTrue result ↔ (columns.now ≡ queue_table.columns) }
{
    let [uid, dest, state, tries, due, cause] = columns else {
        return false;
    };
    is_column(uid, b"uid", Kind::Text, true)
        && is_column(dest, b"dest", Kind::Text, true)
        && is_column(state, b"state", Kind::Integer, true)
        && is_column(tries, b"tries", Kind::Integer, true)
        && is_column(due, b"due", Kind::Integer, true)
        && is_column(cause, b"cause", Kind::Integer, false)
}

/// Whether these seven columns say of a line of journal which call it was.
fn are_of_call(
    n: &Column,
    kind: &Column,
    caller: &Column,
    uid: &Column,
    dest: &Column,
    outcome: &Column,
    moment: &Column,
) -> bool
    ensures { IsTrue result
        ↔ (n.now ∷ kind.now ∷ caller.now ∷ uid.now ∷ dest.now ∷ outcome.now ∷ moment.now ∷ []
        ≡ with_call []) }
{
    is_column(n, b"n", Kind::Integer, false)
        && is_column(kind, b"kind", Kind::Integer, true)
        && is_column(caller, b"caller", Kind::Text, false)
        && is_column(uid, b"uid", Kind::Text, false)
        && is_column(dest, b"dest", Kind::Text, false)
        && is_column(outcome, b"outcome", Kind::Integer, false)
        && is_column(moment, b"moment", Kind::Integer, false)
}

/// The columns after those of journal that say which call a line was, if these are the first.
fn after_call(columns: &[Column]) -> Option<&[Column]>
    ensures { MatchOption result
        ((rest : List Column) → columns.now ≢ with_call rest)
        (λ rest. columns.now ≡ with_call rest.now) }
{
    let [n, kind, caller, uid, dest, outcome, moment, rest @ ..] = columns else {
        return None;
    };
    if are_of_call(n, kind, caller, uid, dest, outcome, moment) {
        return Some(rest);
    }
    None
}

/// Whether these six columns have a line's instance.
fn have_instance(
    class: &Column,
    syntax: &Column,
    modality: &Column,
    station: &Column,
    size: &Column,
    digest: &Column,
) -> bool
    ensures { IsTrue result
        ↔ (class.now ∷ syntax.now ∷ modality.now ∷ station.now ∷ size.now ∷ digest.now ∷ []
        ≡ instance_columns) }
{
    is_column(class, b"class", Kind::Text, false)
        && is_column(syntax, b"syntax", Kind::Text, false)
        && is_column(modality, b"modality", Kind::Blob, false)
        && is_column(station, b"station", Kind::Blob, false)
        && is_column(size, b"length", Kind::Integer, false)
        && is_column(digest, b"sha256", Kind::Blob, false)
}

/// Whether these are the columns of journal that have a line's instance.
fn are_of_instance(columns: &[Column]) -> bool
    ensures { IsTrue result ↔ (columns.now ≡ instance_columns) }
{
    let [class, syntax, modality, station, size, digest] = columns else {
        return false;
    };
    have_instance(class, syntax, modality, station, size, digest)
}

/// Whether these are the columns of journal.
fn are_journal_columns(columns: &[Column]) -> bool
    ensures { IsTrue result ↔ (columns.now ≡ journal_table.columns) }
{
    match after_call(columns) {
        Some(rest) => are_of_instance(rest),
        None => false,
    }
}

/// Whether these are the columns of journal as it was.
fn are_columns_before(columns: &[Column]) -> bool
    ensures { IsTrue result ↔ (columns.now ≡ with_call []) }
{
    match after_call(columns) {
        Some(rest) => rest.is_empty(),
        None => false,
    }
}

/// Whether these are the columns of target.
fn are_target_columns(columns: &[Column]) -> bool
    ensures { IsTrue result ↔ (columns.now ≡ target_table.columns) }
{
    let [n, dest] = columns else {
        return false;
    };
    is_column(n, b"n", Kind::Integer, true) && is_column(dest, b"dest", Kind::Text, true)
}

// ---- what tables have besides

/// Whether a table has no test, no default that is computed, and no counter.
fn has_nothing_more(table: &Table) -> bool
    ensures { IsTrue result ↔ HasNothingMore table.now }
{
    table.checks.roots.is_empty()
        && table.computed.is_empty()
        && !table.is_counted
        && table.stamps.places.is_empty()
        && table.stamps.terms.roots.is_empty()
        && table.stamps.formats.is_empty()
}

/// Whether it is one key, in these places.
fn is_one_key(keys: &[Items<usize>], want: &[usize]) -> bool
    ensures { IsTrue result ↔ (keys.now ≡ want.now ∷ []) }
{
    let [key] = keys else {
        return false;
    };
    are_places(key.as_slice(), want)
}

/// Whether it is one order, in which all columns ascend.
fn is_one_order(orders: &[Order]) -> bool
    ensures { IsTrue result ↔ (orders.now ≡ (record { digits = 0 }) ∷ []) }
{
    let [order] = orders else {
        return false;
    };
    order.digits == 0
}

/// Whether the table is of the form of those under a key of their own.
fn is_keyed(table: &Table, name: &[u8], tree: u32, key: &[usize]) -> bool
    ensures { IsTrue result
        ↔ (table.now ≡ keyed name.now tree table.now.columns key.now table.now.references) }
{
    is_named(&table.name, name)
        && table.tree == tree
        && table.key.is_none()
        && are_places(table.primary.as_slice(), key)
        && is_one_key(table.uniques.as_slice(), key)
        && is_one_order(table.orders.as_slice())
        && has_nothing_more(table)
}

/// Whether the table is of the form of those whose rows go by the number in their first column.
fn is_numbered(table: &Table, name: &[u8], tree: u32) -> bool
    ensures { IsTrue result
        ↔ (table.now ≡ numbered name.now tree table.now.columns table.now.references) }
{
    is_named(&table.name, name)
        && table.tree == tree
        && table.key == Some(0)
        && are_places(table.primary.as_slice(), &[0])
        && table.uniques.is_empty()
        && table.orders.is_empty()
        && has_nothing_more(table)
}

/// Whether the column's values stand in that column of another table.
fn is_reference(reference: &Reference, place: usize, parent: &[u8], name: &[u8]) -> bool
    ensures { IsTrue result ↔ (reference.now ≡ refers place parent.now name.now) }
{
    are_places(reference.columns.as_slice(), &[place])
        && is_named(&reference.parent, parent)
        && is_one_name(reference.parent_columns.as_slice(), name)
        && reference.on_delete == Action::NoAction
        && reference.on_update == Action::NoAction
        && !reference.is_deferred
}

/// Whether it is this name alone.
fn is_one_name(names: &[Bytes], want: &[u8]) -> bool
    ensures { IsTrue result ↔ (names.now ≡ want.now ∷ []) }
{
    let [name] = names else {
        return false;
    };
    is_named(name, want)
}

/// Whether it is that reference alone.
fn is_one_reference(references: &[Reference], place: usize, parent: &[u8], name: &[u8]) -> bool
    ensures { IsTrue result ↔ (references.now ≡ refers place parent.now name.now ∷ []) }
{
    let [reference] = references else {
        return false;
    };
    is_reference(reference, place, parent, name)
}

// ---- the tables

fn is_site(table: &Table) -> bool
    ensures { IsTrue result ↔ (table.now ≡ site_table) }
{
    is_numbered(table, b"site", 0)
        && are_site_columns(table.columns.as_slice())
        && table.references.is_empty()
}

fn is_item(table: &Table) -> bool
    ensures { IsTrue result ↔ (table.now ≡ item_table) }
{
    is_keyed(table, b"item", 1, &[1])
        && are_item_columns(table.columns.as_slice())
        && table.references.is_empty()
}

fn is_print(table: &Table) -> bool
    ensures { IsTrue result ↔ (table.now ≡ print_table) }
{
    is_keyed(table, b"print", 3, &[1])
        && are_print_columns(table.columns.as_slice())
        && is_one_reference(table.references.as_slice(), 1, b"item", b"uid")
}

fn is_arrival(table: &Table, tree: u32) -> bool
    ensures { IsTrue result ↔ (table.now ≡ record arrival { tree = tree }) }
{
    is_keyed(table, b"arrival", tree, &[1, 2])
        && are_arrival_columns(table.columns.as_slice())
        && is_one_reference(table.references.as_slice(), 2, b"item", b"uid")
}

fn is_kept(table: &Table, tree: u32) -> bool
    ensures { IsTrue result ↔ (table.now ≡ record kept { tree = tree }) }
{
    is_keyed(table, b"kept", tree, &[1])
        && are_kept_columns(table.columns.as_slice())
        && is_one_reference(table.references.as_slice(), 1, b"item", b"uid")
}

fn is_queue(table: &Table, tree: u32) -> bool
    ensures { IsTrue result ↔ (table.now ≡ record queue { tree = tree }) }
{
    is_keyed(table, b"queue", tree, &[1, 2])
        && are_queue_columns(table.columns.as_slice())
        && is_one_reference(table.references.as_slice(), 1, b"item", b"uid")
}

fn is_journal(table: &Table, tree: u32) -> bool
    ensures { IsTrue result ↔ (table.now ≡ record journal { tree = tree }) }
{
    is_numbered(table, b"journal", tree)
        && are_journal_columns(table.columns.as_slice())
        && table.references.is_empty()
}

fn is_journal_before(table: &Table, tree: u32) -> bool
    ensures { IsTrue result ↔ (table.now ≡ record journal_before { tree = tree }) }
{
    is_numbered(table, b"journal", tree)
        && are_columns_before(table.columns.as_slice())
        && is_one_reference(table.references.as_slice(), 4, b"item", b"uid")
}

fn is_target(table: &Table, tree: u32) -> bool
    ensures { IsTrue result ↔ (table.now ≡ record target { tree = tree }) }
{
    is_keyed(table, b"target", tree, &[1, 2])
        && are_target_columns(table.columns.as_slice())
        && is_one_reference(table.references.as_slice(), 1, b"journal", b"n")
}

// ---- the indexes

/// Whether the index is that one, in which all columns ascend.
pub(crate) fn is_index(
    index: &Index,
    name: &[u8],
    tree: u32,
    table: u32,
    columns: &[usize],
    unique: bool,
) -> bool
    ensures { IsTrue result ↔ (index.now ≡ index_of name.now tree table columns.now unique) }
{
    is_named(&index.name, name)
        && index.tree == tree
        && index.table == table
        && are_places(index.columns.as_slice(), columns)
        && index.order.digits == 0
        && index.is_unique == unique
}

/// The indexes after the first one, if that one is the index of a key.
pub(crate) fn after_key<'x>(
    indexes: &'x [Index],
    name: &[u8],
    tree: u32,
    table: u32,
    columns: &[usize],
) -> Option<&'x [Index]>
    ensures { IfSome result (λ rest.
        indexes.now ≡ index_of name.now tree table columns.now true ∷ rest.now) }
{
    let [first, rest @ ..] = indexes else {
        return None;
    };
    if is_index(first, name, tree, table, columns, true) {
        return Some(rest);
    }
    None
}

/// Whether these are the indexes of the keys of a ledger's tables.
fn are_keys(
    item: &Index,
    print: &Index,
    arrival: &Index,
    kept: &Index,
    queue: &Index,
    target: &Index,
) -> bool
    ensures { IsTrue result
        ↔ (item.now ∷ print.now ∷ arrival.now ∷ kept.now ∷ queue.now ∷ target.now ∷ []
        ≡ key_indexes) }
{
    is_index(item, b"sqlite_autoindex_item_1", 2, 1, &[1], true)
        && is_index(print, b"sqlite_autoindex_print_1", 4, 3, &[1], true)
        && is_index(arrival, b"sqlite_autoindex_arrival_1", 6, 5, &[1, 2], true)
        && is_index(kept, b"sqlite_autoindex_kept_1", 8, 7, &[1], true)
        && is_index(queue, b"sqlite_autoindex_queue_1", 10, 9, &[1, 2], true)
        && is_index(target, b"sqlite_autoindex_target_1", 13, 12, &[1, 2], true)
}

/// Whether these are the indexes of the rows that are due and of an instance's arrivals.
fn are_of_rows(indexes: &[Index]) -> bool
    ensures { IsTrue result ↔ (indexes.now ≡ row_indexes) }
{
    let [due, arrivals] = indexes else {
        return false;
    };
    is_index(due, b"queue_due", 14, 9, &[2, 3, 5, 1], false)
        && is_index(arrivals, b"arrival_uid", 15, 5, &[2], false)
}

/// Whether these are the indexes of a ledger's tables.
fn are_indexes(indexes: &[Index]) -> bool
    ensures { IsTrue result ↔ (indexes.now ≡ ledger_indexes) }
{
    let [item, print, arrival, kept, queue, target, rest @ ..] = indexes else {
        return false;
    };
    are_keys(item, print, arrival, kept, queue, target) && are_of_rows(rest)
}

/// The tables after site, if that one is the first.
pub(crate) fn after_site(tables: &[Table]) -> Option<&[Table]>
    ensures { IfSome result (λ rest. tables.now ≡ site_table ∷ rest.now) }
{
    let [first, rest @ ..] = tables else {
        return None;
    };
    if is_site(first) {
        return Some(rest);
    }
    None
}

/// The tables after item, if that one is the first.
pub(crate) fn after_item(tables: &[Table]) -> Option<&[Table]>
    ensures { IfSome result (λ rest. tables.now ≡ item_table ∷ rest.now) }
{
    let [first, rest @ ..] = tables else {
        return None;
    };
    if is_item(first) {
        return Some(rest);
    }
    None
}

/// The tables after print, if that one is the first.
pub(crate) fn after_print(tables: &[Table]) -> Option<&[Table]>
    ensures { IfSome result (λ rest. tables.now ≡ print_table ∷ rest.now) }
{
    let [first, rest @ ..] = tables else {
        return None;
    };
    if is_print(first) {
        return Some(rest);
    }
    None
}

/// The tables after arrival, if that one is the first.
pub(crate) fn after_arrival(tables: &[Table], tree: u32) -> Option<&[Table]>
    ensures { IfSome result (λ rest. tables.now ≡ record arrival { tree = tree } ∷ rest.now) }
{
    let [first, rest @ ..] = tables else {
        return None;
    };
    if is_arrival(first, tree) {
        return Some(rest);
    }
    None
}

/// The tables after kept, if that one is the first.
pub(crate) fn after_kept(tables: &[Table], tree: u32) -> Option<&[Table]>
    ensures { IfSome result (λ rest. tables.now ≡ record kept { tree = tree } ∷ rest.now) }
{
    let [first, rest @ ..] = tables else {
        return None;
    };
    if is_kept(first, tree) {
        return Some(rest);
    }
    None
}

/// The tables after queue, if that one is the first.
pub(crate) fn after_queue(tables: &[Table], tree: u32) -> Option<&[Table]>
    ensures { IfSome result (λ rest. tables.now ≡ record queue { tree = tree } ∷ rest.now) }
{
    let [first, rest @ ..] = tables else {
        return None;
    };
    if is_queue(first, tree) {
        return Some(rest);
    }
    None
}

/// The tables after the journal as it was, if that one is the first.
pub(crate) fn after_journal_before(tables: &[Table], tree: u32) -> Option<&[Table]>
    ensures { IfSome result (λ rest.
        tables.now ≡ record journal_before { tree = tree } ∷ rest.now) }
{
    let [first, rest @ ..] = tables else {
        return None;
    };
    if is_journal_before(first, tree) {
        return Some(rest);
    }
    None
}

/// The tables after target, if that one is the first.
pub(crate) fn after_target(tables: &[Table], tree: u32) -> Option<&[Table]>
    ensures { IfSome result (λ rest. tables.now ≡ record target { tree = tree } ∷ rest.now) }
{
    let [first, rest @ ..] = tables else {
        return None;
    };
    if is_target(first, tree) {
        return Some(rest);
    }
    None
}

/// Whether these are the tables of the owner, of instances and of who brought them.
fn are_of_stock(site: &Table, item: &Table, print: &Table, arrival: &Table) -> bool
    ensures { IsTrue result
        ↔ (site.now ∷ item.now ∷ print.now ∷ arrival.now ∷ [] ≡ stock_tables) }
{
    is_site(site) && is_item(item) && is_print(print) && is_arrival(arrival, 5)
}

/// Whether these are the tables of what is kept, of the queue and of the journal.
fn are_of_moves(tables: &[Table]) -> bool
    ensures { IsTrue result ↔ (tables.now ≡ moves_tables) }
{
    let [kept, queue, journal, target] = tables else {
        return false;
    };
    is_kept(kept, 7) && is_queue(queue, 9) && is_journal(journal, 11) && is_target(target, 12)
}

/// Whether these are a ledger's tables.
fn are_tables(tables: &[Table]) -> bool
    ensures { IsTrue result ↔ (tables.now ≡ ledger_tables) }
{
    let [site, item, print, arrival, rest @ ..] = tables else {
        return false;
    };
    are_of_stock(site, item, print, arrival) && are_of_moves(rest)
}

/// Whether these are a ledger's tables and indexes, and nothing else.
fn are_all(schema: &Schema) -> bool
    ensures { IsTrue result ↔ (schema.now ≡ ledger_schema) }
{
    are_tables(schema.tables.as_slice())
        && are_indexes(schema.indexes.as_slice())
        && schema.views.is_empty()
}

/// Whether the tables and indexes are just those of a ledger.
pub fn is_ours(schema: &Schema) -> bool
    ensures { IsTrue result ↔ (schema.now ≡ tables) }
{
    are_all(schema)
}
