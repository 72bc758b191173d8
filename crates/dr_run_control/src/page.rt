//! The page on which a running node shows what it has.
ghost use Rattle.std.specs.Prelude.{◌≡◌, IfOk, option_copied};
ghost use Rattle.dr_run_page.specs.Documents.{document};

use crate::console::House;
use crate::reads::{DeskClerk, NodeReader, reply_with};
use crate::reply::{HttpReply, Media, refused_by_ledger};
use dr_base::Text;
use dr_desk::Sharing;
use dr_ledger::{LedgerFault, Row};
use dr_ledger_views::{Stage, Views};
use dr_run_answer::{OpenAssociation, Queue, Recent};
use dr_run_open::NextHop;
use dr_run_page::{NodeShown, SHOWN, put_document};
use dr_run_request::Browser;
use std::alloc::{AllocError, Global};
use std::sync::Wait;

impl<'a, R: Wait, L: Views, B: Sharing> DeskClerk<'a, R, L, B> {
    /// Adds the first rows to a node that are held, in the order of their UIDs, as many as a page
    /// shows. The lock is taken once.
    ///
    /// Errors: Store, Memory.
    fn add_shown(&self, dest: &Text, rows: &mut Vec<Row>) -> Result<(), LedgerFault> {
        let (first, most) = (Text::empty(self.alloc), SHOWN as u32);
        let page = self
            .desk
            .page(self.rt, dest, Some(Stage::Held), &first, most)?;
        for row in page.into_vec() {
            rows.push(row)?;
        }
        Ok(())
    }

    /// The same of each hop.
    ///
    /// Errors: Store, Memory.
    fn shown_rows(&self, hops: &[NextHop]) -> Result<Vec<Row>, LedgerFault> {
        let mut rows = Vec::new(self.alloc);
        for hop in hops {
            self.add_shown(&hop.dest, &mut rows)?;
        }
        Ok(rows)
    }
}

/// The document.
fn page_text(
    alloc: Global,
    shown: &NodeShown<'_>,
    queues: &[Queue<'_>],
    associations: &[OpenAssociation],
    recents: &[Recent],
    rows: &[Row],
) -> Result<Vec<u8>, AllocError>
    ensures { IfOk result (λ text. text.items
        ≡ document shown.now.name.now shown.now.since shown.now.moment shown.now.counts
        (option_copied shown.now.key) queues.now associations.now recents.now rows.now) }
{
    let mut out = Vec::new(alloc);
    put_document(&mut out, shown, queues, associations, recents, rows)?;
    Ok(out)
}

/// The key of the forms of this run's page.
fn key_of(browser: &Option<Browser>) -> Option<&Text> {
    match browser {
        Some(browser) => Some(&browser.key),
        None => None,
    }
}

impl<'a, R: Wait, L: Views, B: Sharing, H: House> NodeReader<'a, R, L, B, H> {
    /// The page of a node that has served since that moment, as it is now: how much it has, each
    /// next node with its queue, associations that are open, what came within the last hour, and
    /// rows that are held. The lock is given back between one look and the next, so each figure is
    /// of a moment of its own.
    pub(crate) fn read_page(&self, since: u64, browser: &Option<Browser>) -> HttpReply {
        let alloc = self.clerk.alloc;
        let (counts, queues, around) = match self.count_all() {
            Ok(all) => all,
            Err(fault) => return refused_by_ledger(alloc, fault),
        };
        let rows = match self.clerk.shown_rows(self.hops) {
            Ok(rows) => rows,
            Err(fault) => return refused_by_ledger(alloc, fault),
        };
        let shown = NodeShown {
            name: self.clerk.desk.site().name(),
            since,
            moment: self.moment,
            counts,
            key: key_of(browser),
        };
        let text = page_text(
            alloc,
            &shown,
            queues.as_slice(),
            around.associations.as_slice(),
            around.recents.as_slice(),
            rows.as_slice(),
        );
        reply_with(alloc, text, Media::Page)
    }
}
