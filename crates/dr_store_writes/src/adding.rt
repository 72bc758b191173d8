//! Rows that are added.
ghost use Rattle.std.specs.Prelude.{◌≡◌, ◌≤◌, ◌^◌};
ghost use Rattle.sqlite.specs.Held.{state};
ghost use Rattle.dr_store_writes.specs.Effects.{AddsCells, AddsRow, StatementStep, adopted_line};
ghost use Rattle.dr_store_writes.specs.Effects.{arrival_cells, arrived_line, dropped_line};
ghost use Rattle.dr_store_writes.specs.Effects.{forgotten_line};
ghost use Rattle.dr_store_writes.specs.Effects.{item_row, kept_cells, new_cells, print_cells};
ghost use Rattle.dr_store_writes.specs.Effects.{requeued_line};
ghost use Rattle.dr_store_writes.specs.Effects.{settled_line, site_row, target_cells};

use crate::cells::{moment_cell, number_cell, outcome_cell, syntax_cell};
use crate::running::run;
use dr_base::Text;
use dr_ledger::{Instance, Outcome};
use dr_route::Key;
use sqlite::types::ValueRef;
use sqlite::{Alter, Error, Transaction};

/// An instance with its data set, or with none where it isn't needed, under the rowid `n`: the
/// number of the line by which it comes.
///
/// A rowid that is left to the database costs a reading of the table's last row, with its data set.
pub fn add_item<'x, S: Alter>(
    tx: &mut Transaction<'_, S>,
    n: u64,
    uid: &'x Text,
    key: &'x Key,
    body: &'x [u8],
) -> Result<usize, Error>
    requires { n ≤ 2 ^ 62 }
    ensures same_reference { tx.new.conn.ghost_name ≡ tx.old.conn.ghost_name }
    ensures step { StatementStep result (state S.Store tx.old.conn.now)
        (state S.Store tx.new.conn.now)
        (AddsRow 1 (item_row n uid.now key.now body.now) (state S.Store tx.old.conn.now)
        (state S.Store tx.new.conn.now)) }
{
    run(
        tx,
        "INSERT INTO item (rowid, uid, class, syntax, modality, station, body) VALUES (?1, ?2, ?3, ?4, ?5, ?6, ?7)",
        &[
            number_cell(n),
            ValueRef::Text(uid.as_bytes()),
            ValueRef::Text(key.class.as_bytes()),
            syntax_cell(key.syntax),
            ValueRef::Blob(key.modality.as_bytes()),
            ValueRef::Blob(key.station.as_bytes()),
            ValueRef::Blob(body),
        ],
    )
}

/// The length (bytes) and the SHA-256 of an instance's data set; `whole` is 1 where it is there,
/// and else 0.
pub fn add_print<'x, S: Alter>(
    tx: &mut Transaction<'_, S>,
    uid: &'x Text,
    size: u64,
    digest: &'x [u8; 32],
    whole: u64,
) -> Result<usize, Error>
    requires size { size ≤ 2 ^ 62 }
    requires whole { whole ≤ 2 ^ 62 }
    ensures same_reference { tx.new.conn.ghost_name ≡ tx.old.conn.ghost_name }
    ensures step { StatementStep result (state S.Store tx.old.conn.now)
        (state S.Store tx.new.conn.now)
        (AddsCells 3 (print_cells uid.now size digest.now whole) (state S.Store tx.old.conn.now)
        (state S.Store tx.new.conn.now)) }
{
    run(
        tx,
        "INSERT INTO print (uid, length, sha256, whole) VALUES (?1, ?2, ?3, ?4)",
        &[
            ValueRef::Text(uid.as_bytes()),
            number_cell(size),
            ValueRef::Blob(digest),
            number_cell(whole),
        ],
    )
}

/// Who brought an instance.
pub fn add_arrival<'x, S: Alter>(
    tx: &mut Transaction<'_, S>,
    caller: &'x Text,
    uid: &'x Text,
) -> Result<usize, Error>
    ensures same_reference { tx.new.conn.ghost_name ≡ tx.old.conn.ghost_name }
    ensures step { StatementStep result (state S.Store tx.old.conn.now)
        (state S.Store tx.new.conn.now)
        (AddsCells 5 (arrival_cells (caller.now, uid.now)) (state S.Store tx.old.conn.now)
        (state S.Store tx.new.conn.now)) }
{
    run(
        tx,
        "INSERT INTO arrival (caller, uid) VALUES (?1, ?2)",
        &[
            ValueRef::Text(caller.as_bytes()),
            ValueRef::Text(uid.as_bytes()),
        ],
    )
}

/// An instance is kept.
pub fn add_kept<'x, S: Alter>(tx: &mut Transaction<'_, S>, uid: &'x Text) -> Result<usize, Error>
    ensures same_reference { tx.new.conn.ghost_name ≡ tx.old.conn.ghost_name }
    ensures step { StatementStep result (state S.Store tx.old.conn.now)
        (state S.Store tx.new.conn.now)
        (AddsCells 7 (kept_cells uid.now) (state S.Store tx.old.conn.now)
        (state S.Store tx.new.conn.now)) }
{
    run(
        tx,
        "INSERT INTO kept (uid) VALUES (?1)",
        &[ValueRef::Text(uid.as_bytes())],
    )
}

/// An instance waits for a destination, untried.
pub fn add_row<'x, S: Alter>(
    tx: &mut Transaction<'_, S>,
    uid: &'x Text,
    dest: &'x Text,
) -> Result<usize, Error>
    ensures same_reference { tx.new.conn.ghost_name ≡ tx.old.conn.ghost_name }
    ensures step { StatementStep result (state S.Store tx.old.conn.now)
        (state S.Store tx.new.conn.now)
        (AddsCells 9 (new_cells (uid.now, dest.now)) (state S.Store tx.old.conn.now)
        (state S.Store tx.new.conn.now)) }
{
    run(
        tx,
        "INSERT INTO queue (uid, dest, state, tries, due, cause) VALUES (?1, ?2, 0, 0, 0, NULL)",
        &[
            ValueRef::Text(uid.as_bytes()),
            ValueRef::Text(dest.as_bytes()),
        ],
    )
}

/// Where the first arrival of line `n` goes on to, or `-` where it is kept.
pub fn add_target<'x, S: Alter>(
    tx: &mut Transaction<'_, S>,
    n: u64,
    dest: &'x Text,
) -> Result<usize, Error>
    requires { n ≤ 2 ^ 62 }
    ensures same_reference { tx.new.conn.ghost_name ≡ tx.old.conn.ghost_name }
    ensures step { StatementStep result (state S.Store tx.old.conn.now)
        (state S.Store tx.new.conn.now)
        (AddsCells 12 (target_cells n dest.now) (state S.Store tx.old.conn.now)
        (state S.Store tx.new.conn.now)) }
{
    run(
        tx,
        "INSERT INTO target (n, dest) VALUES (?1, ?2)",
        &[number_cell(n), ValueRef::Text(dest.as_bytes())],
    )
}

/// The line of an arrival at a moment (milliseconds), if one is known, with what came: kind 0 is a
/// first one, 1 a repeat.
pub fn add_arrived<'x, S: Alter>(
    tx: &mut Transaction<'_, S>,
    n: u64,
    moment: Option<u64>,
    kind: u64,
    caller: &'x Text,
    item: &'x Instance,
) -> Result<usize, Error>
    requires n { n ≤ 2 ^ 62 }
    requires kind { kind ≤ 2 ^ 62 }
    requires size { item.now.size ≤ 2 ^ 62 }
    ensures same_reference { tx.new.conn.ghost_name ≡ tx.old.conn.ghost_name }
    ensures step { StatementStep result (state S.Store tx.old.conn.now)
        (state S.Store tx.new.conn.now)
        (AddsRow 11 (arrived_line n moment kind caller.now item.now) (state S.Store tx.old.conn.now)
        (state S.Store tx.new.conn.now)) }
{
    run(
        tx,
        "INSERT INTO journal (n, kind, caller, uid, dest, outcome, moment, class, syntax, modality, station, length, sha256) VALUES (?1, ?2, ?3, ?4, NULL, ?2, ?5, ?6, ?7, ?8, ?9, ?10, ?11)",
        &[
            number_cell(n),
            number_cell(kind),
            ValueRef::Text(caller.as_bytes()),
            ValueRef::Text(item.uid.as_bytes()),
            moment_cell(moment),
            ValueRef::Text(item.key.class.as_bytes()),
            syntax_cell(item.key.syntax),
            ValueRef::Blob(item.key.modality.as_bytes()),
            ValueRef::Blob(item.key.station.as_bytes()),
            number_cell(item.size),
            ValueRef::Blob(&item.digest),
        ],
    )
}

/// The line of a settling at the moment `now` (milliseconds).
pub fn add_settled<'x, S: Alter>(
    tx: &mut Transaction<'_, S>,
    n: u64,
    uid: &'x Text,
    dest: &'x Text,
    outcome: Outcome,
    now: u64,
) -> Result<usize, Error>
    requires n { n ≤ 2 ^ 62 }
    requires now { now ≤ 2 ^ 62 }
    ensures same_reference { tx.new.conn.ghost_name ≡ tx.old.conn.ghost_name }
    ensures step { StatementStep result (state S.Store tx.old.conn.now)
        (state S.Store tx.new.conn.now)
        (AddsRow 11 (settled_line n uid.now dest.now outcome now) (state S.Store tx.old.conn.now)
        (state S.Store tx.new.conn.now)) }
{
    run(
        tx,
        "INSERT INTO journal (n, kind, caller, uid, dest, outcome, moment) VALUES (?1, 2, NULL, ?2, ?3, ?4, ?5)",
        &[
            number_cell(n),
            ValueRef::Text(uid.as_bytes()),
            ValueRef::Text(dest.as_bytes()),
            outcome_cell(outcome),
            number_cell(now),
        ],
    )
}

/// The line of a requeuing at a moment (milliseconds), if one is known.
pub fn add_requeued<'x, S: Alter>(
    tx: &mut Transaction<'_, S>,
    n: u64,
    moment: Option<u64>,
    uid: &'x Text,
    dest: &'x Text,
) -> Result<usize, Error>
    requires { n ≤ 2 ^ 62 }
    ensures same_reference { tx.new.conn.ghost_name ≡ tx.old.conn.ghost_name }
    ensures step { StatementStep result (state S.Store tx.old.conn.now)
        (state S.Store tx.new.conn.now)
        (AddsRow 11 (requeued_line n moment uid.now dest.now) (state S.Store tx.old.conn.now)
        (state S.Store tx.new.conn.now)) }
{
    run(
        tx,
        "INSERT INTO journal (n, kind, caller, uid, dest, outcome, moment) VALUES (?1, 3, NULL, ?2, ?3, NULL, ?4)",
        &[
            number_cell(n),
            ValueRef::Text(uid.as_bytes()),
            ValueRef::Text(dest.as_bytes()),
            moment_cell(moment),
        ],
    )
}

/// The line of a dropping at the moment `now` (milliseconds).
pub fn add_dropped<'x, S: Alter>(
    tx: &mut Transaction<'_, S>,
    n: u64,
    uid: &'x Text,
    dest: &'x Text,
    now: u64,
) -> Result<usize, Error>
    requires n { n ≤ 2 ^ 62 }
    requires now { now ≤ 2 ^ 62 }
    ensures same_reference { tx.new.conn.ghost_name ≡ tx.old.conn.ghost_name }
    ensures step { StatementStep result (state S.Store tx.old.conn.now)
        (state S.Store tx.new.conn.now)
        (AddsRow 11 (dropped_line n uid.now dest.now now) (state S.Store tx.old.conn.now)
        (state S.Store tx.new.conn.now)) }
{
    run(
        tx,
        "INSERT INTO journal (n, kind, caller, uid, dest, outcome, moment) VALUES (?1, 6, NULL, ?2, ?3, NULL, ?4)",
        &[
            number_cell(n),
            ValueRef::Text(uid.as_bytes()),
            ValueRef::Text(dest.as_bytes()),
            number_cell(now),
        ],
    )
}

/// The line of an adoption at a moment (milliseconds), if one is known.
pub fn add_adopted<S: Alter>(
    tx: &mut Transaction<'_, S>,
    n: u64,
    moment: Option<u64>,
) -> Result<usize, Error>
    requires { n ≤ 2 ^ 62 }
    ensures same_reference { tx.new.conn.ghost_name ≡ tx.old.conn.ghost_name }
    ensures step { StatementStep result (state S.Store tx.old.conn.now)
        (state S.Store tx.new.conn.now)
        (AddsRow 11 (adopted_line n moment) (state S.Store tx.old.conn.now)
        (state S.Store tx.new.conn.now)) }
{
    run(
        tx,
        "INSERT INTO journal (n, kind, caller, uid, dest, outcome, moment) VALUES (?1, 4, NULL, NULL, NULL, NULL, ?2)",
        &[number_cell(n), moment_cell(moment)],
    )
}

/// The line of a forgetting at a moment (milliseconds), if one is known.
pub fn add_forgotten<'x, S: Alter>(
    tx: &mut Transaction<'_, S>,
    n: u64,
    moment: Option<u64>,
    uid: &'x Text,
) -> Result<usize, Error>
    requires { n ≤ 2 ^ 62 }
    ensures same_reference { tx.new.conn.ghost_name ≡ tx.old.conn.ghost_name }
    ensures step { StatementStep result (state S.Store tx.old.conn.now)
        (state S.Store tx.new.conn.now)
        (AddsRow 11 (forgotten_line n moment uid.now) (state S.Store tx.old.conn.now)
        (state S.Store tx.new.conn.now)) }
{
    run(
        tx,
        "INSERT INTO journal (n, kind, caller, uid, dest, outcome, moment) VALUES (?1, 5, NULL, ?2, NULL, NULL, ?3)",
        &[
            number_cell(n),
            ValueRef::Text(uid.as_bytes()),
            moment_cell(moment),
        ],
    )
}

/// Whose ledger it is: the node, and the SHA-256 of the plan in force.
pub fn add_site<'x, S: Alter>(
    tx: &mut Transaction<'_, S>,
    node: &'x Text,
    plan: &'x [u8],
) -> Result<usize, Error>
    ensures same_reference { tx.new.conn.ghost_name ≡ tx.old.conn.ghost_name }
    ensures step { StatementStep result (state S.Store tx.old.conn.now)
        (state S.Store tx.new.conn.now)
        (AddsRow 0 (site_row node.now plan.now) (state S.Store tx.old.conn.now)
        (state S.Store tx.new.conn.now)) }
{
    run(
        tx,
        "INSERT INTO site (id, node, plan) VALUES (1, ?1, ?2)",
        &[ValueRef::Text(node.as_bytes()), ValueRef::Blob(plan)],
    )
}
