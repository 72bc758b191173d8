//! Who does what the words ask at a node's ledger.
ghost use Rattle.std.specs.Prelude.{◌≤◌, ◌^◌, IfOk, Result};
ghost use Rattle.dr_base.specs.Texts.{Text as Words};
ghost use Rattle.dr_run_open.specs.Ends.{Ends};
ghost use Rattle.dr_run_open.specs.declared.halt.Halt.{Halt as HaltValue};
ghost use Rattle.dr_word_list.specs.Requeuings.{RequeuedAll};
ghost use Rattle.dr_word_list.specs.Summaries.{Summarizes};
ghost use Rattle.dr_word_list.specs.Works.{Forgot, GaveUp, Lists, ListsLong, Made, Requeued};

use crate::dropping::GivenUp;
use crate::requeuing::HeldRow;
use crate::texts::Registry;
use dr_base::Text;
use dr_run_files::{Failure, Files, NodeFiles};
use dr_run_open::{Halt, Ledgers, Making, Status, finish};
use std::alloc::Global;
use std::io::Write;

/// Who does a word's work at a node's ledger: where is printed, where faults are told, and how a
/// ledger is come to.
///
/// A method takes it by value. What it printed is `exit.0` then, the first field at the return.
#[derive(Drop)]
pub struct LedgerClerk<'s, F, O, W, E> {
    pub output: &'s mut W,
    pub faults: &'s mut E,
    pub registry: Registry<'s, F, O>,
}

impl<F: Files, O: Ledgers, W: Write, E: Write> LedgerClerk<'_, F, O, W, E> {
    /// Ends a word as it came.
    ///
    /// Errors: Stream, File.
    fn end<'a>(self, came: Result<Text, Halt<'a>>) -> Result<Status, Failure<'a>>
        ensures { IfOk result (Ends came.entry (W.contents self.entry.output.now)
            (W.contents self.exit.0.now)) }
    {
        let LedgerClerk { output, faults, .. } = self;
        finish(came, output, faults)
    }

    /// Makes the ledger of a node, where there is none, with its data sets in its tables. The
    /// node's plan and certificate are in these files.
    ///
    /// Errors: Stream, File.
    pub fn make<'a>(self, alloc: Global, given: NodeFiles<'a>) -> Result<Status, Failure<'a>>
        ensures { IfOk result (λ status. (came : Result Words HaltValue)
            × Made (F.holds self.entry.registry.files.now given.entry.plan.now)
            (F.holds self.entry.registry.files.now given.entry.certificate.now)
            (O.opens self.entry.registry.ledgers.now given.entry.ledger.now)
            O.Ledger.site O.Ledger.book O.Ledger.stands given.entry.node.now came
            × Ends came (W.contents self.entry.output.now) (W.contents self.exit.0.now) status) }
    {
        let came = self.registry.make(alloc, given, Making::Wanted);
        self.end(came)
    }

    /// The same, with its data sets in a file of their own beside it.
    ///
    /// Errors: Stream, File.
    pub fn make_with_data<'a>(
        self,
        alloc: Global,
        given: NodeFiles<'a>,
    ) -> Result<Status, Failure<'a>>
        ensures { IfOk result (λ status. (came : Result Words HaltValue)
            × Made (F.holds self.entry.registry.files.now given.entry.plan.now)
            (F.holds self.entry.registry.files.now given.entry.certificate.now)
            (O.opens self.entry.registry.ledgers.now given.entry.ledger.now)
            O.Ledger.site O.Ledger.book O.Ledger.stands given.entry.node.now came
            × Ends came (W.contents self.entry.output.now) (W.contents self.exit.0.now) status) }
    {
        let came = self.registry.make(alloc, given, Making::WantedWithData);
        self.end(came)
    }

    /// Prints the report of a node, whose plan, certificate and ledger are in these files.
    ///
    /// Errors: Stream, File.
    pub fn list<'a>(self, alloc: Global, given: NodeFiles<'a>) -> Result<Status, Failure<'a>>
        ensures { IfOk result (λ status. (came : Result Words HaltValue)
            × Lists (F.holds self.entry.registry.files.now given.entry.plan.now)
            (F.holds self.entry.registry.files.now given.entry.certificate.now)
            (O.opens self.entry.registry.ledgers.now given.entry.ledger.now)
            O.Ledger.site O.Ledger.book O.Ledger.stands given.entry.node.now came
            × Ends came (W.contents self.entry.output.now) (W.contents self.exit.0.now) status) }
    {
        let came = self.registry.list(alloc, given);
        self.end(came)
    }

    /// Prints the long report of a node, whose plan, certificate and ledger are in these files.
    ///
    /// Errors: Stream, File.
    pub fn list_long<'a>(self, alloc: Global, given: NodeFiles<'a>) -> Result<Status, Failure<'a>>
        ensures { IfOk result (λ status. (came : Result Words HaltValue)
            × ListsLong (F.holds self.entry.registry.files.now given.entry.plan.now)
            (F.holds self.entry.registry.files.now given.entry.certificate.now)
            (O.opens self.entry.registry.ledgers.now given.entry.ledger.now)
            O.Ledger.site O.Ledger.book O.Ledger.stands given.entry.node.now came
            × Ends came (W.contents self.entry.output.now) (W.contents self.exit.0.now) status) }
    {
        let came = self.registry.list_long(alloc, given);
        self.end(came)
    }

    /// Prints how much a node has, whose plan, certificate and ledger are in these files.
    ///
    /// Errors: Stream, File.
    pub fn summarize<'a>(self, alloc: Global, given: NodeFiles<'a>) -> Result<Status, Failure<'a>>
        ensures { IfOk result (λ status. (came : Result Words HaltValue)
            × Summarizes (F.holds self.entry.registry.files.now given.entry.plan.now)
            (F.holds self.entry.registry.files.now given.entry.certificate.now)
            (O.opens self.entry.registry.ledgers.now given.entry.ledger.now)
            O.Ledger.site O.Ledger.book O.Ledger.stands given.entry.node.now came
            × Ends came (W.contents self.entry.output.now) (W.contents self.exit.0.now) status) }
    {
        let came = self.registry.summarize(alloc, given);
        self.end(came)
    }

    /// Queues a held row again: that of the instance of this UID to that node. The node's plan,
    /// certificate and ledger are in these files.
    ///
    /// Errors: Stream, File.
    pub fn requeue<'a>(
        self,
        alloc: Global,
        given: NodeFiles<'a>,
        row: HeldRow<'_>,
    ) -> Result<Status, Failure<'a>>
        ensures { IfOk result (λ status. (came : Result Words HaltValue)
            × Requeued (F.holds self.entry.registry.files.now given.entry.plan.now)
            (F.holds self.entry.registry.files.now given.entry.certificate.now)
            (O.opens self.entry.registry.ledgers.now given.entry.ledger.now) O.Ledger.site
            O.Ledger.book O.Ledger.stands given.entry.node.now row.entry.uid.now row.entry.dest.now
            came
            × Ends came (W.contents self.entry.output.now) (W.contents self.exit.0.now) status) }
    {
        let came = self.registry.requeue(alloc, given, row);
        self.end(came)
    }

    /// Queues all held rows to that node again, and prints a line for each. The node's plan,
    /// certificate and ledger are in these files.
    ///
    /// Errors: Stream, File.
    pub fn requeue_all<'a>(
        self,
        alloc: Global,
        given: NodeFiles<'a>,
        dest: &str,
    ) -> Result<Status, Failure<'a>>
        ensures { IfOk result (λ status. (came : Result Words HaltValue)
            × RequeuedAll (F.holds self.entry.registry.files.now given.entry.plan.now)
            (F.holds self.entry.registry.files.now given.entry.certificate.now)
            (O.opens self.entry.registry.ledgers.now given.entry.ledger.now)
            O.Ledger.site O.Ledger.book O.Ledger.stands given.entry.node.now dest.now came
            × Ends came (W.contents self.entry.output.now) (W.contents self.exit.0.now) status) }
    {
        let came = self.registry.requeue_all(alloc, given, dest);
        self.end(came)
    }

    /// Gives a held row up: that of the instance of this UID to that node. The node's plan,
    /// certificate and ledger are in these files.
    ///
    /// Errors: Stream, File.
    pub fn give_up<'a>(
        self,
        alloc: Global,
        given: NodeFiles<'a>,
        row: GivenUp<'_>,
    ) -> Result<Status, Failure<'a>>
        requires { row.now ≤ 2 ^ 62 }
        ensures { IfOk result (λ status. (came : Result Words HaltValue)
            × GaveUp (F.holds self.entry.registry.files.now given.entry.plan.now)
            (F.holds self.entry.registry.files.now given.entry.certificate.now)
            (O.opens self.entry.registry.ledgers.now given.entry.ledger.now) O.Ledger.site
            O.Ledger.book O.Ledger.stands given.entry.node.now row.entry.uid.now row.entry.dest.now
            row.entry.now came
            × Ends came (W.contents self.entry.output.now) (W.contents self.exit.0.now) status) }
    {
        let came = self.registry.give_up(alloc, given, row);
        self.end(came)
    }

    /// Forgets the instance of this UID, which is over. The node's plan, certificate and ledger are
    /// in these files.
    ///
    /// Errors: Stream, File.
    pub fn forget<'a>(
        self,
        alloc: Global,
        given: NodeFiles<'a>,
        uid: &str,
    ) -> Result<Status, Failure<'a>>
        ensures { IfOk result (λ status. (came : Result Words HaltValue)
            × Forgot (F.holds self.entry.registry.files.now given.entry.plan.now)
            (F.holds self.entry.registry.files.now given.entry.certificate.now)
            (O.opens self.entry.registry.ledgers.now given.entry.ledger.now)
            O.Ledger.site O.Ledger.book O.Ledger.stands given.entry.node.now uid.now came
            × Ends came (W.contents self.entry.output.now) (W.contents self.exit.0.now) status) }
    {
        let came = self.registry.forget(alloc, given, uid);
        self.end(came)
    }
}
