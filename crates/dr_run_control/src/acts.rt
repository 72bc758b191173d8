//! Orders, done at the shared desk.
ghost use Rattle.std.specs.Prelude.{◌≡◌, ◌≤◌, ◌^◌};
ghost use Rattle.dr_run_control.specs.Consoles.{Acts, Again, AgainEach, passed};

use crate::reads::DeskClerk;
use dr_base::{Seq, Text};
use dr_desk::{Pass, Sharing};
use dr_ledger::{LedgerFault, Row};
use dr_ledger_views::{Stage, Views};
use dr_run_request::Order;
use std::alloc::{AllocError, Global};
use std::sync::Wait;

/// So many rows are read at a time.
const PAGE: u32 = 1_000;

/// Adds the rows of a page.
///
/// Errors: want of memory.
fn add_rows(rows: &mut Vec<Row>, page: Seq<Row>) -> Result<(), AllocError> {
    for row in page.into_vec() {
        rows.push(row)?;
    }
    Ok(())
}

/// The UID of the last row of a page.
///
/// Errors: want of memory.
fn last_of(page: &[Row]) -> Result<Option<Text>, AllocError> {
    match page.last() {
        Some(row) => Ok(Some(row.0.0.clone()?)),
        None => Ok(None),
    }
}

/// What is told of a row, as one of many: that it isn't held any more is no fault.
fn passed(answer: Result<(), LedgerFault>) -> Result<(), LedgerFault>
    ensures { result ≡ passed answer }
{
    match answer {
        Ok(()) | Err(LedgerFault::NotHeld) => Ok(()),
        Err(fault) => Err(fault),
    }
}

impl<'a, R: Wait, L: Views, B: Sharing> DeskClerk<'a, R, L, B> {
    /// The rows to a destination that are held. The lock is given back between two pages.
    ///
    /// Errors: Store, Memory.
    fn held_rows(&self, dest: &Text) -> Result<Vec<Row>, LedgerFault> {
        let (rt, alloc, desk) = (self.rt, self.alloc, self.desk);
        let mut rows = Vec::new(alloc);
        let mut after = Text::empty(alloc);
        for _ in 0..u64::MAX {
            let page = desk.page(rt, dest, Some(Stage::Held), &after, PAGE)?;
            let Some(last) = last_of(page.as_slice())? else {
                return Ok(rows);
            };
            after = last;
            add_rows(&mut rows, page)?;
        }
        Ok(rows)
    }

    /// Queues a row again, as one of many.
    ///
    /// Errors: as the desk's `requeue`, but NotHeld.
    fn requeue_one(&self, pass: &mut Pass<B>, dest: &Text, row: &Row) -> Result<(), LedgerFault>
        ensures { Again L.site L.book L.stands L.failed B.site B.first dest.now row.now
            (pass.old.made.count, pass.old.receipts.items) result
            (pass.new.made.count, pass.new.receipts.items) }
    {
        passed(self.desk.requeue(self.rt, pass, &row.0.0, dest))
    }

    /// Queues rows again, one after the other.
    ///
    /// Errors: those of `requeue_one`; then the rows behind it stay as they are.
    fn requeue_each(&self, pass: &mut Pass<B>, dest: &Text, rows: &[Row]) -> Result<(), LedgerFault>
        ensures { AgainEach L.site L.book L.stands L.failed B.site B.first dest.now rows.now
            (pass.old.made.count, pass.old.receipts.items) result
            (pass.new.made.count, pass.new.receipts.items) }
    {
        for row in rows {
            let _done = self.requeue_one(pass, dest, row)?;
        }
        Ok(())
    }

    /// Does at the desk what is ordered: each call has its receipt in the pass.
    ///
    /// Errors: as the desk's calls: NotHeld, NotOver, Store, Memory.
    pub(crate) fn act(&self, pass: &mut Pass<B>, order: &Order, now: u64) -> Result<(), LedgerFault>
        requires { now ≤ 2 ^ 62 }
        ensures { Acts L.site L.book L.stands L.failed B.site B.first order.now result
            pass.old.made.count pass.old.receipts.items pass.new.made.count
            pass.new.receipts.items }
    {
        let (rt, desk) = (self.rt, self.desk);
        match order {
            Order::Requeue(row) => desk.requeue(rt, pass, &row.uid, &row.dest),
            Order::RequeueAll(dest) => {
                let rows = self.held_rows(dest)?;
                self.requeue_each(pass, dest, rows.as_slice())
            }
            Order::GiveUp(row) => desk.give_up(rt, pass, &row.uid, &row.dest, now),
            Order::Forget(uid) => desk.forget(rt, pass, uid),
            Order::Visit(_) => Ok(()),
        }
    }
}
