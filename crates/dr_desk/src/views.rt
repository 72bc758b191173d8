//! What a shared desk shows without a list of all that its ledger has.
ghost use Rattle.std.specs.Prelude.{◌≡◌, IfOk, map as mapped};
ghost use Rattle.std.specs.FinMap as map;
ghost use Rattle.dr_ledger.specs.Replies.{Reads};
ghost use Rattle.dr_ledger_history.specs.Lines.{line_of};
ghost use Rattle.dr_ledger_views.specs.Numbers.{AreBehind};
ghost use Rattle.dr_ledger_views.specs.Views.{AreCallers, IsLeast, IsTally, dues, page_of};
ghost use Rattle.dr_ledger_views.specs.Views.{rows_of};
ghost use Rattle.dr_desk.specs.Reading.{Answered, AreBookTotals, Failing, HasFailed, Reading};

use crate::held::HeldDesk;
use crate::holdings::Totals;
use crate::shared::SharedDesk;
use crate::sharing::Sharing;
use dr_base::{Seq, Text};
use dr_ledger::{LedgerFault, Progress};
use dr_ledger_history::JournalLine;
use dr_ledger_views::{HopTally, Moments, Origin, Stage, Views, tally};
use std::sync::Wait;

impl<L: Views, B: Sharing> HeldDesk<L, B> {
    /// How much there is. The journal's lines are counted as they are added.
    fn totals(&mut self) -> Result<Totals, LedgerFault>
        ensures reply { Answered L.site L.book L.bodies L.stands L.failed B.site B.first
            (λ l answer. Reads answer (AreBookTotals (L.book l)))
            result self.old.desk.ledger self.new.desk.ledger }
        ensures failures { IfOk result (λ t. HasFailed L.site L.book L.bodies L.stands L.failed
            B.site B.first self.new.full t.failures self.new.desk.ledger) }
    {
        let arrivals = self.desk.count_arrivals()?;
        let kept = self.desk.count_kept()?;
        Ok(Totals {
            arrivals,
            kept,
            lines: self.number,
            failures: self.failures(),
        })
    }

    /// How many rows to the destination are at which stage.
    fn tally(&mut self, dest: &Text) -> Result<HopTally, LedgerFault>
        ensures { Answered L.site L.book L.bodies L.stands L.failed B.site B.first
            (λ l answer. Reads answer (IsTally (map.entries (L.book l).rows) dest.now))
            result self.old.desk.ledger self.new.desk.ledger }
    {
        tally(&mut self.desk, dest)
    }

    /// The ledger's `first_due`.
    fn first_due(&mut self, dest: &Text) -> Result<Option<u64>, LedgerFault>
        ensures { Answered L.site L.book L.bodies L.stands L.failed B.site B.first
            (λ l answer. Reads answer (IsLeast (dues (map.entries (L.book l).rows) dest.now)))
            result self.old.desk.ledger self.new.desk.ledger }
    {
        self.desk.first_due(dest)
    }

    /// The ledger's `rows_of`.
    fn rows_of(&mut self, uid: &Text) -> Result<Seq<((Text, Text), Progress)>, LedgerFault>
        ensures { Answered L.site L.book L.bodies L.stands L.failed B.site B.first
            (λ l answer. Reads answer (λ all. all ≡ rows_of (map.entries (L.book l).rows) uid.now))
            result self.old.desk.ledger self.new.desk.ledger }
    {
        self.desk.rows_of(uid)
    }

    /// The ledger's `page`.
    fn page(
        &mut self,
        dest: &Text,
        stage: Option<Stage>,
        after: &Text,
        limit: u32,
    ) -> Result<Seq<((Text, Text), Progress)>, LedgerFault>
        ensures { Answered L.site L.book L.bodies L.stands L.failed B.site B.first
            (λ l answer. Reads answer (λ all.
            all ≡ page_of (map.entries (L.book l).rows) dest.now stage after.now limit)) result
            self.old.desk.ledger self.new.desk.ledger }
    {
        self.desk.page(dest, stage, after, limit)
    }

    /// The ledger's `origin_of`.
    fn origin_of(&mut self, uid: &Text) -> Result<Option<Origin>, LedgerFault>
        ensures { Answered L.site L.book L.bodies L.stands L.failed B.site B.first
            (λ l answer. Reads answer (λ origin. Unit {0}))
            result self.old.desk.ledger self.new.desk.ledger }
    {
        self.desk.origin_of(uid)
    }

    /// The ledger's `callers_of`.
    fn callers_of(&mut self, uid: &Text) -> Result<Seq<Text>, LedgerFault>
        ensures { Answered L.site L.book L.bodies L.stands L.failed B.site B.first
            (λ l answer. Reads answer (AreCallers (L.book l).arrivals uid.now))
            result self.old.desk.ledger self.new.desk.ledger }
    {
        self.desk.callers_of(uid)
    }

    /// The ledger's `lines_behind`.
    fn lines_behind(&mut self, after: u64, limit: u32) -> Result<Seq<JournalLine>, LedgerFault>
        ensures { Answered L.site L.book L.bodies L.stands L.failed B.site B.first
            (λ l answer. Reads answer (λ lines.
            AreBehind after limit (L.numbered l) (mapped line_of lines)))
            result self.old.desk.ledger self.new.desk.ledger }
    {
        self.desk.lines_behind(after, limit)
    }
}

impl<L: Views, B: Sharing> SharedDesk<L, B> {
    /// How much the ledger has at one moment. The lock is held for two calls of it.
    ///
    /// Errors: Store, Memory.
    pub fn totals<R: Wait>(&self, rt: &R) -> Result<Totals, LedgerFault>
        ensures reply { Reading L.site L.book L.bodies L.stands L.failed B.site B.first
            (λ l answer. Reads answer (AreBookTotals (L.book l))) result }
        ensures failures { IfOk result (λ t. Failing L.site L.book L.bodies L.stands L.failed
            B.site B.first t.failures) }
    {
        self.held.lock(rt).totals()
    }

    /// How many rows to the destination are at which stage, at one moment. The lock is held for the
    /// five calls of the ledger.
    ///
    /// Errors: Store, Memory.
    pub fn tally<R: Wait>(&self, rt: &R, dest: &Text) -> Result<HopTally, LedgerFault>
        ensures { Reading L.site L.book L.bodies L.stands L.failed B.site B.first
            (λ l answer. Reads answer (IsTally (map.entries (L.book l).rows) dest.now)) result }
    {
        self.held.lock(rt).tally(dest)
    }

    /// The ledger's `first_due`.
    pub fn first_due<R: Wait>(&self, rt: &R, dest: &Text) -> Result<Option<u64>, LedgerFault>
        ensures { Reading L.site L.book L.bodies L.stands L.failed B.site B.first
            (λ l answer. Reads answer (IsLeast (dues (map.entries (L.book l).rows) dest.now)))
            result }
    {
        self.held.lock(rt).first_due(dest)
    }

    /// The ledger's `rows_of`.
    pub fn rows_of<R: Wait>(
        &self,
        rt: &R,
        uid: &Text,
    ) -> Result<Seq<((Text, Text), Progress)>, LedgerFault>
        ensures { Reading L.site L.book L.bodies L.stands L.failed B.site B.first
            (λ l answer. Reads answer (λ all. all ≡ rows_of (map.entries (L.book l).rows) uid.now))
            result }
    {
        self.held.lock(rt).rows_of(uid)
    }

    /// The ledger's `page`: at most `limit` rows are copied under the lock.
    pub fn page<R: Wait>(
        &self,
        rt: &R,
        dest: &Text,
        stage: Option<Stage>,
        after: &Text,
        limit: u32,
    ) -> Result<Seq<((Text, Text), Progress)>, LedgerFault>
        ensures { Reading L.site L.book L.bodies L.stands L.failed B.site B.first
            (λ l answer. Reads answer (λ all.
            all ≡ page_of (map.entries (L.book l).rows) dest.now stage after.now limit)) result }
    {
        self.held.lock(rt).page(dest, stage, after, limit)
    }

    /// The ledger's `origin_of`.
    pub fn origin_of<R: Wait>(&self, rt: &R, uid: &Text) -> Result<Option<Origin>, LedgerFault>
        ensures { Reading L.site L.book L.bodies L.stands L.failed B.site B.first
            (λ l answer. Reads answer (λ origin. Unit {0})) result }
    {
        self.held.lock(rt).origin_of(uid)
    }

    /// The ledger's `callers_of`.
    pub fn callers_of<R: Wait>(&self, rt: &R, uid: &Text) -> Result<Seq<Text>, LedgerFault>
        ensures { Reading L.site L.book L.bodies L.stands L.failed B.site B.first
            (λ l answer. Reads answer (AreCallers (L.book l).arrivals uid.now)) result }
    {
        self.held.lock(rt).callers_of(uid)
    }

    /// The ledger's `lines_behind`: at most `limit` lines are copied under the lock.
    pub fn lines_behind<R: Wait>(
        &self,
        rt: &R,
        after: u64,
        limit: u32,
    ) -> Result<Seq<JournalLine>, LedgerFault>
        ensures { Reading L.site L.book L.bodies L.stands L.failed B.site B.first
            (λ l answer. Reads answer (λ lines.
            AreBehind after limit (L.numbered l) (mapped line_of lines))) result }
    {
        self.held.lock(rt).lines_behind(after, limit)
    }
}
