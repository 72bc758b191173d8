//! The past of a ledger: lines that have left its tables.
ghost use Rattle.std.specs.Prelude.{◌≡◌, ◌+◌, ◌≤◌, ◌++◌, ℕ, List, drop, length, take};
ghost use Rattle.std.specs.Prelude.{map as mapped};
ghost use Rattle.std.specs.Prelude.{All, IfErr, IfOk};
ghost use Rattle.dr_ledger.specs.Books.{Line};
ghost use Rattle.dr_ledger_history.specs.Lines.{lines_of};
ghost use Rattle.dr_store_sealed.specs.declared.seal.Seal.{Seal as SealValue};
ghost use Rattle.dr_store_past.specs.declared.lines.PastLine.{PastLine as LineValue};
ghost use Rattle.dr_store_past.specs.Lines.{IsHeldPast, past_in};
ghost use Rattle.dr_store_past.specs.Shown.{AreNextIn};
ghost use Rattle.dr_store_past.specs.Refusals.{IsWhyNotTold, IsWhyNotWritten};

use crate::fault::PastFault;
use crate::lines::PastLine;
use dr_base::Seq;
use dr_ledger_history::JournalLine;
use dr_store_sealed::Seal;

/// The lines that have left a ledger's tables: as many of all that are ever sealed as the seal
/// counts that the tables have.
///
/// Lines are sealed in three steps. `write` puts them behind the past, durably. Then the tables
/// take the seal that it answers, and let go of the lines, in one transaction. Then `turn_to` takes
/// them for the past's. Where the transaction came to nothing, they are nothing, and the next
/// `write` puts others into their place. After a crash the tables have the one seal or the other,
/// and the past has the lines of either.
pub trait LedgerPast {
    // All lines that are sealed, before this run and in it. No code can read them.
    ghost all_lines: { List Line };

    // How far the past goes.
    ghost reach: { Self → SealValue };

    // It has just these lines, each with its moment: in what is seen, and in each content that a
    // crash may leave now.
    ghost holds: { Self → List LineValue → Type 0 };

    // Behind the past these lines are written, up to that seal, now and after a crash.
    ghost has_written: { Self → List LineValue → SealValue → Type 0 };

    // No wrong answer of a medium has been taken as true.
    ghost is_honest: { Self → Type 0 };

    // So it is, and what is shown is the past: the first of `all_lines`, as many as the seal
    // counts.
    ghost is_clean: { Self → Type 0 };

    // Lines can be sealed into it.
    ghost takes_lines: { Type 0 };

    // No sync has failed.
    ghost is_usable: { Self → Type 0 };

    // How many calls of a disk have failed.
    ghost faults: { Self → ℕ };

    // Where what is shown is the past, no more lines were sealed than there are.
    ghost reached: { (it : Self) → is_clean it → (reach it).count ≤ length all_lines };

    /// How far the past goes.
    fn seal(&self) -> Seal
        ensures { result ≡ reach self.now };

    /// Writes lines behind the past, durably, and answers the seal behind them, which is for the
    /// tables. They get the next numbers. What was written there before is nothing any more.
    ///
    /// Whatever comes of it, the past is what it was, also after a crash.
    ///
    /// Errors: Sealed; Nowhere where lines can't be sealed into it.
    fn write(&mut self, lines: &[PastLine]) -> Result<Seal, PastFault>
        ensures written { IfOk result (λ last. has_written self.new lines.now last) }
        ensures counts { IfOk result (λ last.
            last.count ≡ (reach self.old).count + length lines.now) }
        ensures reach { reach self.new ≡ reach self.old }
        ensures holds { (before : List LineValue) → holds self.old before → holds self.new before }
        ensures clean { is_clean self.new → is_clean self.old }
        ensures lasts { is_clean self.old → is_honest self.new → is_clean self.new }
        ensures why { IfErr result (IsWhyNotWritten takes_lines (is_clean self.new)
            (is_usable self.old) (faults self.old) (faults self.new) (reach self.old) lines.now) };

    /// Takes what was written for the past's, up to this seal: the tables have it now.
    ///
    /// Where what is shown is the past then, the lines were the next ones of all, and what was
    /// shown before was the past, too. And it is so wherever they were, and no medium lied.
    fn turn_to(&mut self, last: &Seal)
        ensures reach { (lines : List LineValue)
            → has_written self.old lines last.now → reach self.new ≡ last.now }
        ensures holds { (lines : List LineValue)
            → has_written self.old lines last.now
            → (before : List LineValue) → holds self.old before
            → holds self.new (before ++ lines) }
        ensures next { (lines : List LineValue)
            → has_written self.old lines last.now
            → is_clean self.new → AreNextIn Self.all_lines (reach self.old) lines }
        ensures clean { (lines : List LineValue)
            → has_written self.old lines last.now → is_clean self.new → is_clean self.old }
        ensures lasts { (lines : List LineValue)
            → has_written self.old lines last.now
            → is_clean self.old → is_honest self.new
            → All IsHeldPast lines → AreNextIn Self.all_lines (reach self.old) lines
            → is_clean self.new };

    /// The lines of the past whose numbers lie behind that one, in their order: so many at most.
    ///
    /// Errors: Sealed; NoLine. That of a broken file, and NoLine, only where what is shown isn't
    /// the past.
    fn lines_behind(&mut self, after: u64, limit: u32) -> Result<Seq<JournalLine>, PastFault>
        ensures answer { IfOk result (λ found. is_clean self.new
            → lines_of found ≡ take limit (drop after (past_in Self.all_lines (reach self.old)))) }
        ensures reach { reach self.new ≡ reach self.old }
        ensures holds { (before : List LineValue) → holds self.old before → holds self.new before }
        ensures written { (lines : List LineValue) (last : SealValue)
            → has_written self.old lines last → has_written self.new lines last }
        ensures clean { is_clean self.new → is_clean self.old }
        ensures lasts { is_clean self.old → is_honest self.new → is_clean self.new }
        ensures why { IfErr result (IsWhyNotTold (is_clean self.new) (is_usable self.old)
            (faults self.old) (faults self.new)) };
}
