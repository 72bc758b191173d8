//! What a running node shows of its journal.
ghost use Rattle.std.specs.Prelude.{◌≡◌, ◌++◌, IfOk};
ghost use Rattle.hex.specs.Hex.{encode_lower};
ghost use Rattle.dr_run_answer.specs.Journals.{journal_head, lines_text};
ghost use Rattle.dr_run_control.specs.Consoles.{ArePaged, IsPageTold};

use crate::reads::{DeskClerk, digits_of, reply_with};
use crate::reply::{HttpReply, Media, misread, refused_by_ledger};
use dr_base::Seq;
use dr_desk::Sharing;
use dr_ledger::LedgerFault;
use dr_ledger_history::JournalLine;
use dr_ledger_views::Views;
use dr_run_answer::{put_journal_head, put_lines};
use dr_run_request::{LinesWanted, lines_wanted_of};
use dr_site::Site;
use std::alloc::{AllocError, Global};
use std::sync::Wait;

/// A page of the journal of the node of that site, which has so many lines: those behind a number.
fn page_text(
    alloc: Global,
    site: &Site,
    count: u64,
    after: u64,
    lines: &[JournalLine],
) -> Result<Vec<u8>, AllocError>
    ensures { IfOk result (λ text. text.items
        ≡ journal_head site.now.name (encode_lower site.now.digest) count
        ++ lines_text after lines.now) }
{
    let plan = digits_of(alloc, site.digest())?;
    let mut out = Vec::new(alloc);
    put_journal_head(&mut out, site.name(), plan.as_str(), count)?;
    put_lines(&mut out, after, lines)?;
    Ok(out)
}

impl<'a, R: Wait, L: Views, B: Sharing> DeskClerk<'a, R, L, B> {
    /// The lines of the journal that are wanted, and how many there are. They are counted once the
    /// lines were read: what is shown is counted.
    ///
    /// Errors: Store, Memory.
    fn lines_wanted(&self, wanted: LinesWanted) -> Result<(Seq<JournalLine>, u64), LedgerFault>
        ensures { IfOk result (λ page. ArePaged L.site L.book L.bodies L.stands L.failed B.site
            B.first L.numbered wanted page.0 page.1) }
    {
        let (rt, desk) = (self.rt, self.desk);
        let lines = desk.lines_behind(rt, wanted.after, wanted.limit)?;
        let count = desk.line_count(rt);
        Ok((lines, count))
    }

    /// The same as a page, behind a line that tells whose journal it is.
    ///
    /// Errors: Store, Memory.
    fn journal_text(&self, wanted: LinesWanted) -> Result<Vec<u8>, LedgerFault>
        ensures { IfOk result (λ text. IsPageTold L.site L.book L.bodies L.stands L.failed B.site
            B.first L.numbered self.now.desk.now.site wanted text.items) }
    {
        let (lines, count) = self.lines_wanted(wanted)?;
        let site = self.desk.site();
        let text = page_text(self.alloc, site, count, wanted.after, lines.as_slice())?;
        Ok(text)
    }

    /// A page of the journal, as the form asks for it.
    pub(crate) fn read_journal(&self, form: &[u8]) -> HttpReply {
        let alloc = self.alloc;
        let wanted = match lines_wanted_of(alloc, form) {
            Ok(wanted) => wanted,
            Err(fault) => return misread(alloc, fault),
        };
        match self.journal_text(wanted) {
            Ok(text) => reply_with(alloc, Ok(text), Media::Lines),
            Err(fault) => refused_by_ledger(alloc, fault),
        }
    }
}
