//! Changes of what a uid has.
ghost use Rattle.std.specs.Prelude.{◌≡◌, IfOk, OnOk, IsSome, None, Some, T, unwrap_or};
ghost use Rattle.std.specs.List.{list_any};
ghost use Rattle.std.specs.FinMap.{find, is_sorted};
ghost use Rattle.dr_base.specs.Texts.{text_cmp};
ghost use Rattle.dr_ledger_memory.specs.Entries.{IsMovedOn, IsPruned, IsTakenAgain, let_go};
ghost use Rattle.dr_ledger_memory.specs.Entries.{filled as filled_rows, filled_at};
ghost use Rattle.dr_ledger_memory.specs.Entries.{is_open as is_open_row, needs, row_in};

use crate::held::Held;
use dr_base::{Octets, Text};
use dr_ledger::{Instance, Progress};
use dr_ledger_history::stands;
use dr_ledger_views::table::{get, put, set};
use std::alloc::{AllocError, Global};

impl Held {
    /// How far it is on its way to the destination.
    pub fn row(&self, dest: &Text) -> Option<Progress>
        ensures { result ≡ row_in (Some self.now) dest.now }
    {
        get(self.rows.as_slice(), dest).copied()
    }

    /// Whether its data set is needed.
    pub fn needs_body(&self) -> bool
        ensures { result ≡ needs self.now.is_kept self.now.rows.items }
    {
        if self.is_kept {
            return true;
        }
        some_is_open(self.rows.as_slice())
    }

    /// An arrival of a uid that is known: these are its rows from now on.
    pub fn take(&mut self, rows: Vec<(Text, Progress)>, keep: bool, body: Octets)
        requires { T (is_sorted text_cmp rows.items) }
        ensures { IsTakenAgain (Some self.old) self.old.instance rows.items keep body self.new }
    {
        self.is_kept = self.is_kept || keep;
        self.rows = rows;
        self.put_body(body);
    }

    /// Puts the data set in, where one is needed and none is there.
    fn put_body(&mut self, body: Octets)
        ensures instance { self.new.instance ≡ self.old.instance }
        ensures kept { self.new.is_kept ≡ self.old.is_kept }
        ensures rows { self.new.rows.items ≡ self.old.rows.items }
        ensures body { self.new.body
            ≡ let_go (needs self.old.is_kept self.old.rows.items)
            (Some (unwrap_or self.old.body body)) }
    {
        if !self.needs_body() {
            self.body = None;
            return;
        }
        if self.body.is_none() {
            self.body = Some(body);
        }
    }

    /// Moves the row to that destination on, and lets the data set go where it isn't needed any
    /// more.
    pub fn move_on(&mut self, dest: &Text, progress: Progress)
        requires { IsSome (row_in (Some self.old) dest.now) }
        ensures { IsMovedOn self.old dest.now progress self.new }
    {
        set(&mut self.rows, dest, progress);
        if !self.needs_body() {
            self.body = None;
        }
    }

    /// Lets rows go that are done or dropped.
    pub fn prune(&mut self)
        ensures { IsPruned self.old self.new }
    {
        self.rows.retain(|row| is_open(row));
    }
}

/// A first arrival's.
pub fn first(instance: Instance, rows: Vec<(Text, Progress)>, keep: bool, body: Octets) -> Held
    requires { T (is_sorted text_cmp rows.items) }
    ensures { IsTakenAgain None instance rows.items keep body result }
{
    let mut held = Held {
        instance,
        body: None,
        is_kept: keep,
        rows,
    };
    held.put_body(body);
    held
}

/// Whether the row waits or is held.
pub fn is_open(row: &(Text, Progress)) -> bool
    ensures { result ≡ is_open_row row.now }
{
    row.1.is_queued()
}

/// Whether some row waits or is held.
fn some_is_open(rows: &[(Text, Progress)]) -> bool
    ensures { result ≡ list_any is_open_row rows.now }
{
    rows.iter().any(|row| is_open(row))
}

/// A copy of the rows.
fn copies(alloc: Global, rows: &[(Text, Progress)]) -> Result<Vec<(Text, Progress)>, AllocError>
    ensures { IfOk result (λ copy. copy.items ≡ rows.now) }
{
    let mut copy = Vec::new(alloc);
    for row in rows {
        copy.push((row.0.clone()?, row.1))?;
    }
    Ok(copy)
}

/// A waiting row, where the destination has none, or one that was dropped.
fn fill_one(rows: &mut Vec<(Text, Progress)>, to: &Text) -> Result<(), AllocError>
    requires { T (is_sorted text_cmp rows.old.items) }
    ensures items { OnOk result
        (rows.new.items ≡ filled_at rows.old.items to.now (find text_cmp to.now rows.old.items)) }
    ensures sorted { OnOk result (T (is_sorted text_cmp rows.new.items)) }
{
    if stands(get(rows.as_slice(), to).copied()) {
        return Ok(());
    }
    let key = to.clone()?;
    rows.reserve(1)?;
    put(rows, key, Progress::Waiting { tries: 0, due: 0 });
    Ok(())
}

/// The rows, with a waiting one for each destination that has none, or one that was dropped.
pub fn filled(
    alloc: Global,
    rows: &[(Text, Progress)],
    to: &[Text],
) -> Result<Vec<(Text, Progress)>, AllocError>
    requires { T (is_sorted text_cmp rows.now) }
    ensures items { IfOk result (λ all. all.items ≡ filled_rows rows.now to.now) }
    ensures sorted { IfOk result (λ all. T (is_sorted text_cmp all.items)) }
{
    let mut all = copies(alloc, rows)?;
    for name in to {
        fill_one(&mut all, name)?;
    }
    Ok(all)
}
