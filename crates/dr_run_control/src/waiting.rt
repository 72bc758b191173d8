//! For how long the row to a next node has waited that is there longest.
//!
//! A node notes each row that an arrival makes, and lets go of what doesn't wait any more. Rows
//! from before, and those that were queued again, are looked up where it is asked, some at each
//! question.
use crate::console::House;
use crate::reads::NodeReader;
use dr_base::{Seq, Text};
use dr_desk::Sharing;
use dr_ledger::{LedgerFault, Progress, Row};
use dr_ledger_views::{Stage, Views};
use std::sync::Wait;

/// So many rows are read at a time.
const PAGE: u32 = 1_000;

/// So many pages are looked up for one question, so that its answer comes soon however many rows
/// wait: each of them costs two queries. The next question goes on from there.
const PAGES: u32 = 2;

/// So many rows that don't wait any more are looked at, at most.
const LOOKS: u32 = 1_000;

impl<'a, R: Wait, L: Views, B: Sharing, H: House> NodeReader<'a, R, L, B, H> {
    /// Notes a row that waits, since the moment when its instance came.
    ///
    /// Errors: Store, Memory.
    fn note_row(&self, dest: &Text, uid: &Text) -> Result<(), LedgerFault> {
        let origin = self.clerk.desk.origin_of(self.clerk.rt, uid)?;
        let moment = match origin {
            Some(origin) => origin.moment,
            None => None,
        };
        self.house.note_waiting(dest, uid, moment)?;
        Ok(())
    }

    /// Notes the rows of a page; the UID of the last one.
    ///
    /// Errors: Store, Memory.
    fn note_page(&self, dest: &Text, page: &Seq<Row>) -> Result<Option<Text>, LedgerFault> {
        let mut last = None;
        for row in page.as_slice() {
            self.note_row(dest, &row.0.0)?;
            last = Some(row.0.0.clone()?);
        }
        Ok(last)
    }

    /// Looks up a page of the rows to a node that may wait and aren't noted. Whether there was one.
    ///
    /// Errors: Store, Memory; the next one who asks looks at the same page.
    fn search_page(&self, dest: &Text) -> Result<bool, LedgerFault> {
        let (rt, desk) = (self.clerk.rt, self.clerk.desk);
        let Some(search) = self.house.search_rows(dest)? else {
            return Ok(false);
        };
        let page = desk.page(rt, dest, Some(Stage::Waiting), &search.after, PAGE)?;
        let last = self.note_page(dest, &page)?;
        self.house.note_search(dest, search.round, last);
        Ok(true)
    }

    /// Looks up the next of the rows to a node that may wait and aren't noted. The lock is given
    /// back between one look and the next.
    ///
    /// Errors: Store, Memory.
    fn search_some(&self, dest: &Text) -> Result<(), LedgerFault> {
        for _ in 0..PAGES {
            if !self.search_page(dest)? {
                return Ok(());
            }
        }
        Ok(())
    }

    /// Whether a row waits.
    ///
    /// Errors: Store, Memory.
    fn is_waiting(&self, dest: &Text, uid: &Text) -> Result<bool, LedgerFault> {
        let row = self.clerk.desk.progress(self.clerk.rt, uid, dest)?;
        Ok(matches!(row, Some(Progress::Waiting { .. })))
    }

    /// Since when the row to a node waits that is there longest, as far as rows are noted. Those
    /// that don't wait any more are noted no more. Where there are too many of these, the next one
    /// is told, of which it isn't known whether it waits; so who asks again comes to one that does.
    ///
    /// Errors: Store, Memory.
    fn first_noted(&self, dest: &Text) -> Result<Option<u64>, LedgerFault> {
        for _ in 0..LOOKS {
            let Some((uid, moment)) = self.house.longest(dest)? else {
                return Ok(None);
            };
            if self.is_waiting(dest, &uid)? {
                return Ok(Some(moment));
            }
            self.house.note_gone(dest, &uid);
        }
        match self.house.longest(dest)? {
            Some((_, moment)) => Ok(Some(moment)),
            None => Ok(None),
        }
    }

    /// For how many seconds the row to a node has waited that is there longest, as far as rows are
    /// noted; None where none waits, or none of those that do is noted.
    ///
    /// Errors: Store, Memory.
    pub(crate) fn waited(&self, dest: &Text, waiting: u64) -> Result<Option<u64>, LedgerFault> {
        if waiting == 0 {
            return Ok(None);
        }
        self.search_some(dest)?;
        match self.first_noted(dest)? {
            Some(moment) => Ok(Some(self.moment.saturating_sub(moment) / 1_000)),
            None => Ok(None),
        }
    }
}
