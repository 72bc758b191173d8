//! What the words come to at a node: the text that is printed, or why there is none.
ghost use Rattle.std.specs.Prelude.{◌≤◌, ◌^◌};
ghost use Rattle.dr_word_list.specs.Requeuings.{RequeuedAll};
ghost use Rattle.dr_word_list.specs.Summaries.{Summarizes};
ghost use Rattle.dr_word_list.specs.Works.{Forgot, GaveUp, Lists, ListsLong, Made, Requeued};

use crate::dropping::{GivenUp, give_row_up};
use crate::forgetting::forget_instance;
use crate::listing::list_opened;
use crate::long::list_opened_long;
use crate::making::line_of;
use crate::requeuing::{HeldRow, requeue_row};
use crate::requeuing_all::requeue_held;
use crate::summary::summarize_opened;
use dr_base::Text;
use dr_run_files::{Files, NodeFiles};
use dr_run_open::{Halt, Ledgers, Making, open_node};
use std::alloc::Global;

/// How a node and its ledger are come to: the files, and what opens ledgers.
#[derive_where(Clone, Copy)]
pub struct Registry<'s, F, O> {
    pub files: &'s F,
    pub ledgers: &'s O,
}

impl<F: Files, O: Ledgers> Registry<'_, F, O> {
    /// Makes the ledger of a node, as `making` says.
    ///
    /// Errors: those of `open_node`, with NotOpened and IsThere where there is one, and DataIsThere
    /// where there is a file of data sets in the place of its own.
    pub(crate) fn make<'a>(
        self,
        alloc: Global,
        given: NodeFiles<'a>,
        making: Making,
    ) -> Result<Text, Halt<'a>>
        ensures { Made (F.holds self.entry.files.now given.entry.plan.now)
            (F.holds self.entry.files.now given.entry.certificate.now)
            (O.opens self.entry.ledgers.now given.entry.ledger.now)
            O.Ledger.site O.Ledger.book O.Ledger.stands given.entry.node.now result }
    {
        let line = line_of(alloc)?;
        match open_node(alloc, self.files, self.ledgers, given, making) {
            Ok(opened) => {
                drop(opened);
                Ok(line)
            }
            Err(halt) => Err(halt),
        }
    }

    /// The report of a node.
    ///
    /// Errors: those of `open_node`; Refused with Store or Memory.
    pub(crate) fn list<'a>(self, alloc: Global, given: NodeFiles<'a>) -> Result<Text, Halt<'a>>
        ensures { Lists (F.holds self.entry.files.now given.entry.plan.now)
            (F.holds self.entry.files.now given.entry.certificate.now)
            (O.opens self.entry.ledgers.now given.entry.ledger.now)
            O.Ledger.site O.Ledger.book O.Ledger.stands given.entry.node.now result }
    {
        let mut opened = open_node(alloc, self.files, self.ledgers, given, Making::Never)?;
        let came = list_opened(alloc, &mut opened);
        drop(opened);
        match came {
            Ok(report) => Ok(report),
            Err(fault) => Err(Halt::Refused(fault)),
        }
    }

    /// The long report of a node.
    ///
    /// Errors: those of `open_node`; Refused with Store or Memory.
    pub(crate) fn list_long<'a>(self, alloc: Global, given: NodeFiles<'a>) -> Result<Text, Halt<'a>>
        ensures { ListsLong (F.holds self.entry.files.now given.entry.plan.now)
            (F.holds self.entry.files.now given.entry.certificate.now)
            (O.opens self.entry.ledgers.now given.entry.ledger.now)
            O.Ledger.site O.Ledger.book O.Ledger.stands given.entry.node.now result }
    {
        let mut opened = open_node(alloc, self.files, self.ledgers, given, Making::Never)?;
        let came = list_opened_long(alloc, &mut opened);
        drop(opened);
        match came {
            Ok(report) => Ok(report),
            Err(fault) => Err(Halt::Refused(fault)),
        }
    }

    /// How much a node has.
    ///
    /// Errors: those of `open_node`; Refused with Store or Memory.
    pub(crate) fn summarize<'a>(self, alloc: Global, given: NodeFiles<'a>) -> Result<Text, Halt<'a>>
        ensures { Summarizes (F.holds self.entry.files.now given.entry.plan.now)
            (F.holds self.entry.files.now given.entry.certificate.now)
            (O.opens self.entry.ledgers.now given.entry.ledger.now)
            O.Ledger.site O.Ledger.book O.Ledger.stands given.entry.node.now result }
    {
        let mut opened = open_node(alloc, self.files, self.ledgers, given, Making::Never)?;
        let came = summarize_opened(alloc, &mut opened);
        drop(opened);
        match came {
            Ok(summary) => Ok(summary),
            Err(fault) => Err(Halt::Refused(fault)),
        }
    }

    /// Queues a held row of a node again.
    ///
    /// Errors: those of `open_node`; Refused with NotHeld, Store or Memory.
    pub(crate) fn requeue<'a>(
        self,
        alloc: Global,
        given: NodeFiles<'a>,
        row: HeldRow<'_>,
    ) -> Result<Text, Halt<'a>>
        ensures { Requeued (F.holds self.entry.files.now given.entry.plan.now)
            (F.holds self.entry.files.now given.entry.certificate.now)
            (O.opens self.entry.ledgers.now given.entry.ledger.now) O.Ledger.site O.Ledger.book
            O.Ledger.stands given.entry.node.now row.entry.uid.now row.entry.dest.now result }
    {
        let mut opened = open_node(alloc, self.files, self.ledgers, given, Making::Never)?;
        let came = requeue_row(alloc, &mut opened.ledger, row);
        drop(opened);
        match came {
            Ok(line) => Ok(line),
            Err(fault) => Err(Halt::Refused(fault)),
        }
    }

    /// Queues all held rows of a node to that one again.
    ///
    /// Errors: those of `open_node`; Refused with NotHeld, Store or Memory.
    pub(crate) fn requeue_all<'a>(
        self,
        alloc: Global,
        given: NodeFiles<'a>,
        dest: &str,
    ) -> Result<Text, Halt<'a>>
        ensures { RequeuedAll (F.holds self.entry.files.now given.entry.plan.now)
            (F.holds self.entry.files.now given.entry.certificate.now)
            (O.opens self.entry.ledgers.now given.entry.ledger.now)
            O.Ledger.site O.Ledger.book O.Ledger.stands given.entry.node.now dest.now result }
    {
        let mut opened = open_node(alloc, self.files, self.ledgers, given, Making::Never)?;
        let came = requeue_held(alloc, &mut opened.ledger, dest);
        drop(opened);
        match came {
            Ok(text) => Ok(text),
            Err(fault) => Err(Halt::Refused(fault)),
        }
    }

    /// Gives a held row of a node up.
    ///
    /// Errors: those of `open_node`; Refused with NotHeld, Store or Memory.
    pub(crate) fn give_up<'a>(
        self,
        alloc: Global,
        given: NodeFiles<'a>,
        row: GivenUp<'_>,
    ) -> Result<Text, Halt<'a>>
        requires { row.now ≤ 2 ^ 62 }
        ensures { GaveUp (F.holds self.entry.files.now given.entry.plan.now)
            (F.holds self.entry.files.now given.entry.certificate.now)
            (O.opens self.entry.ledgers.now given.entry.ledger.now) O.Ledger.site O.Ledger.book
            O.Ledger.stands given.entry.node.now row.entry.uid.now row.entry.dest.now row.entry.now
            result }
    {
        let mut opened = open_node(alloc, self.files, self.ledgers, given, Making::Never)?;
        let came = give_row_up(alloc, &mut opened.ledger, row);
        drop(opened);
        match came {
            Ok(line) => Ok(line),
            Err(fault) => Err(Halt::Refused(fault)),
        }
    }

    /// Forgets an instance of a node.
    ///
    /// Errors: those of `open_node`; Refused with NotOver, Store or Memory.
    pub(crate) fn forget<'a>(
        self,
        alloc: Global,
        given: NodeFiles<'a>,
        uid: &str,
    ) -> Result<Text, Halt<'a>>
        ensures { Forgot (F.holds self.entry.files.now given.entry.plan.now)
            (F.holds self.entry.files.now given.entry.certificate.now)
            (O.opens self.entry.ledgers.now given.entry.ledger.now)
            O.Ledger.site O.Ledger.book O.Ledger.stands given.entry.node.now uid.now result }
    {
        let mut opened = open_node(alloc, self.files, self.ledgers, given, Making::Never)?;
        let came = forget_instance(alloc, &mut opened.ledger, uid);
        drop(opened);
        match came {
            Ok(line) => Ok(line),
            Err(fault) => Err(Halt::Refused(fault)),
        }
    }
}
