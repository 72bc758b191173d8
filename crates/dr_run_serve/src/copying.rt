//! A copy of the ledger, made while the node serves.
ghost use Rattle.std.specs.Prelude.{◌≡◌, ◌<◌, ℕ, Err, IfOk, IfSome, OnOk};
ghost use Rattle.std.specs.Str.{IsUtf8};
ghost use Rattle.dr_desk.specs.Reading.{HasLines};
ghost use Rattle.dr_run_backup.specs.declared.fault.BackupFault.TheVariants.{NoPath};

use crate::monitor::Monitor;
use crate::signal::Signal;
use dr_base::Text;
use dr_desk::{SharedDesk, Sharing};
use dr_ledger::Ledger;
use dr_run_backup::{BackupFault, LedgerCopy};
use dr_session::Clock;
use std::alloc::Global;
use std::str;
use std::sync::Wait;

/// All calls wait for a copy for so many milliseconds at most: less than what peers wait.
const STILL: u64 = 20_000;

/// So often a copy is tried for which calls wait next to nothing.
const TRIES: u32 = 3;

/// Where these tries together took so many milliseconds, calls would wait in vain for another one.
const TRIED: u64 = 60_000;

/// A copy that was made: how many lines its journal has, and how many bytes it takes.
#[derive(Clone, Copy)]
pub struct Copied {
    pub lines: u64,
    pub bytes: u64,
}

/// Who copies the ledger of a node that serves.
#[derive(Drop)]
pub struct Copier<'a, R: Wait, L: Ledger, B: Sharing, C: Clock, G: Monitor> {
    pub rt: &'a R,
    pub alloc: Global,
    pub desk: &'a SharedDesk<L, B>,
    pub signal: &'a Signal,
    pub clock: &'a C,
    pub log: &'a G,
}

impl<'a, R: Wait, L: Ledger, B: Sharing, C: Clock, G: Monitor> Copier<'a, R, L, B, C, G> {
    /// Tests whether a copy may go on until that moment.
    ///
    /// Errors: GivenUp, also where the node comes to its end.
    fn test_time(&self, until: u64) -> Result<(), BackupFault>
        ensures { OnOk result ((now : ℕ) × C.tells self.now.clock.now now × (now < until)) }
    {
        if self.signal.is_ending() {
            return Err(BackupFault::GivenUp);
        }
        let now = self.clock.now();
        if now >= until {
            return Err(BackupFault::GivenUp);
        }
        Ok(())
    }

    /// Copies the database that was begun, until that moment at the latest.
    ///
    /// Errors: GivenUp, NoCopy, Memory.
    fn copy_database(&self, copy: &mut LedgerCopy<'_>, until: u64) -> Result<(), BackupFault> {
        for _ in 0..u64::MAX {
            if !copy.copy_database()? {
                return Ok(());
            }
            self.test_time(until)?;
        }
        Err(BackupFault::GivenUp)
    }

    /// Reads the log, until that moment at the latest.
    ///
    /// Errors: GivenUp, NoCopy, Memory.
    fn read_log(&self, copy: &mut LedgerCopy<'_>, until: u64) -> Result<(), BackupFault> {
        copy.begin_log()?;
        for _ in 0..u64::MAX {
            if !copy.read_log()? {
                return Ok(());
            }
            self.test_time(until)?;
        }
        Err(BackupFault::GivenUp)
    }

    /// Notes the head of the log. Calls wait.
    ///
    /// Errors: NoCopy, Memory.
    fn note_log(&self, copy: &mut LedgerCopy<'_>) -> Result<(), BackupFault> {
        let still = self.desk.still(self.rt);
        let noted = copy.note_log();
        drop(still);
        noted
    }

    /// Adds the log to the database that was copied since its head was noted, where it has the same
    /// head; how many lines the copy has then. Calls wait while it is read, and not while it is
    /// written.
    ///
    /// Errors: GivenUp, NoCopy, Memory.
    fn add_log(&self, copy: &mut LedgerCopy<'_>) -> Result<Option<u64>, BackupFault>
        ensures { IfOk result (λ added. IfSome added
            (HasLines L.site L.book L.bodies L.stands L.failed B.site B.first)) }
    {
        let still = self.desk.still(self.rt);
        if !copy.has_same_log()? {
            return Ok(None);
        }
        let until = self.clock.now().saturating_add(STILL);
        self.read_log(copy, until)?;
        let lines = still.line_count();
        drop(still);
        copy.write_log()?;
        Ok(Some(lines))
    }

    /// Copies both files; how many lines the copy has. Calls wait while the database is copied, and
    /// the log is read.
    ///
    /// Errors: GivenUp, NoCopy, Memory.
    fn copy_both(&self, copy: &mut LedgerCopy<'_>) -> Result<u64, BackupFault>
        ensures { IfOk result
            (HasLines L.site L.book L.bodies L.stands L.failed B.site B.first) }
    {
        copy.begin_database()?;
        let still = self.desk.still(self.rt);
        let until = self.clock.now().saturating_add(STILL);
        self.copy_database(copy, until)?;
        self.read_log(copy, until)?;
        let lines = still.line_count();
        drop(still);
        copy.write_log()?;
        Ok(lines)
    }

    /// Fills a copy; how many lines it has. Calls wait for the log alone, where that is the same
    /// one before and after the database was copied; else for the database, too.
    ///
    /// Errors: GivenUp, also where calls would wait in vain; NoCopy, Memory.
    fn fill(&self, copy: &mut LedgerCopy<'_>) -> Result<u64, BackupFault>
        ensures { IfOk result
            (HasLines L.site L.book L.bodies L.stands L.failed B.site B.first) }
    {
        let until = self.clock.now().saturating_add(TRIED);
        for _ in 0..TRIES {
            self.note_log(copy)?;
            copy.begin_database()?;
            self.copy_database(copy, u64::MAX)?;
            if let Some(lines) = self.add_log(copy)? {
                return Ok(lines);
            }
        }
        self.test_time(until)?;
        let lines = self.copy_both(copy)?;
        Ok(lines)
    }

    /// Fills a copy, and measures it.
    ///
    /// Errors: GivenUp, NoCopy, Memory.
    fn complete(&self, copy: &mut LedgerCopy<'_>) -> Result<Copied, BackupFault>
        ensures { IfOk result (λ copied.
            HasLines L.site L.book L.bodies L.stands L.failed B.site B.first copied.lines) }
    {
        let lines = self.fill(copy)?;
        let bytes = copy.length()?;
        Ok(Copied { lines, bytes })
    }

    /// Copies the ledger to that path. Where that fails, what was made of it is taken away.
    ///
    /// Errors: NoPath, DataFile, OwnFile, IsThere, GivenUp, NoCopy, Memory.
    pub fn copy_to(&self, path: &Text) -> Result<Copied, BackupFault>
        ensures path { (IsUtf8 path.now → ⊥) → result ≡ Err NoPath }
        ensures lines { IfOk result (λ copied.
            HasLines L.site L.book L.bodies L.stands L.failed B.site B.first copied.lines) }
    {
        let Ok(path) = str::from_utf8(path.as_bytes()) else {
            return Err(BackupFault::NoPath);
        };
        let mut copy = self.log.begin_copy(self.alloc, path)?;
        match self.complete(&mut copy) {
            Ok(copied) => {
                copy.keep()?;
                Ok(copied)
            }
            Err(fault) => {
                copy.discard();
                Err(fault)
            }
        }
    }
}
