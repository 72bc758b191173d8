//! The past of a ledger in files beside its database.
ghost use Rattle.std.specs.Prelude.{◌≡◌, ◌↔◌, ◌<◌, ◌≤◌, ◌++◌, [], ℕ, List, All, IfErr, IfOk};
ghost use Rattle.std.specs.Prelude.{IsTrue, length};
ghost use Rattle.dr_ledger.specs.Books.{Line};
ghost use Rattle.dr_store_line_files.specs.Several.{AreClean, AreSynced, AreUsable};
ghost use Rattle.dr_store_line_files.specs.Several.{all_faults, all_shown};
ghost use Rattle.dr_store_sealed.specs.Seals.{first_seal};
ghost use Rattle.dr_store_past.specs.declared.lines.PastLine.{PastLine as LineValue};
ghost use Rattle.dr_store_past.specs.Shown.{HaveWritten, HaveWrittenLines, IsCleanPast, ShowsPast};

use crate::fault::PastFault;
use crate::files::PastFiles;
use crate::lines::PastLine;
use crate::opening::open_files;
use crate::past::LedgerPast;
use crate::reading::read_behind;
use crate::writing::write_behind;
use dr_base::Seq;
use dr_ledger_history::JournalLine;
use dr_ledger_text::laws::texts_are_of_one_line;
use dr_store_sealed::{Seal, fit};
use std::alloc::Global;

/// Lines that have left the tables, in files beside them. A new file is begun where one is full.
#[derive(Drop)]
pub struct SealedFiles<F: PastFiles + Drop> {
    alloc: Global,
    files: F,
    /// The files of all numbers from 0 on.
    disks: Vec<F::Disk>,
    /// How far the past goes.
    seal: Seal,
    /// Where lines begin: how far it went earlier in this run, and what was noted while lines were
    /// read.
    places: Vec<Seal>,
    ghost there: { seal.number < length disks.items },
    ghost within: { All (λ place. place.count ≤ seal.count) places.items },
}

/// Whether the seal of that much goes on behind this one, within so many files.
fn goes_on(seal: &Seal, last: &Seal, files: usize) -> bool
    ensures { IsTrue result
        ↔ ((seal.now.count ≤ last.now.count) × (last.now.number < files)) }
{
    last.count >= seal.count && last.number < files as u64
}

impl<F: PastFiles + Drop> SealedFiles<F> {
    /// The past in these files, of all numbers up to that of the seal, as far as the seal says.
    /// What lies behind is cut off. Each file but the last one is full.
    ///
    /// Errors: Sealed, as of `fit`.
    pub fn over(
        alloc: Global,
        files: F,
        disks: Vec<F::Disk>,
        seal: Seal,
    ) -> Result<SealedFiles<F>, PastFault>
        requires { seal.number < length disks.items }
        ensures reach { IfOk result (λ it. it.seal ≡ seal) }
        ensures shows { IfOk result (λ it. (all : List Line)
            → ShowsPast all (all_shown F.Disk.Disk disks.items) seal
            → ShowsPast all (all_shown F.Disk.Disk it.disks.items) seal) }
        ensures places { IfOk result (λ it. it.places.items ≡ []) }
        ensures synced { IfOk result (λ it.
            AreSynced F.Disk.Disk disks.items → AreSynced F.Disk.Disk it.disks.items) }
        ensures clean { IfOk result (λ it.
            AreClean F.Disk.Disk it.disks.items → AreClean F.Disk.Disk disks.items) }
        ensures usable { IfOk result (λ it.
            AreUsable F.Disk.Disk disks.items → AreUsable F.Disk.Disk it.disks.items) }
    {
        let mut all = disks;
        let number = seal.number as usize;
        fit(alloc, &mut all[number], &seal)?;
        Ok(SealedFiles {
            alloc,
            files,
            disks: all,
            seal,
            places: Vec::new(alloc),
        })
    }
}

impl<F: PastFiles + Drop> SealedFiles<F> {
    /// The past in the files of all numbers up to that of the seal. The first one is made where the
    /// seal counts no line.
    ///
    /// Errors: File, Sealed.
    pub fn open(alloc: Global, files: F, seal: Seal) -> Result<SealedFiles<F>, PastFault>
        ensures reach { IfOk result (λ it. it.seal ≡ seal) }
        ensures places { IfOk result (λ it. it.places.items ≡ []) }
        ensures synced { IfOk result (λ it. AreSynced F.Disk.Disk it.disks.items) }
        ensures usable { IfOk result (λ it. AreUsable F.Disk.Disk it.disks.items) }
    {
        let disks = open_files(alloc, &files, &seal)?;
        SealedFiles::over(alloc, files, disks, seal)
    }
}

impl<F: PastFiles + Drop> LedgerPast for SealedFiles<F> {
    ghost use Rattle.dr_store_sealed.specs.Seals.{first_seal};
    ghost use Rattle.dr_store_line_files.specs.Several.{AreClean, AreUsable, all_faults, all_shown};
    ghost use Rattle.dr_store_past.specs.Counted.{reaches_no_more};
    ghost use Rattle.dr_store_past.specs.Shown.{HaveWritten, HaveWrittenLines, IsCleanPast};

    ghost all_lines = { F.all_lines };

    ghost reach = { λ it. it.seal };

    ghost holds = { λ it before.
        HaveWritten F.Disk.Disk it.disks.items first_seal before it.seal };

    ghost has_written = { λ it lines last. HaveWrittenLines
        F.Disk.Disk it.disks.items it.places.items it.seal lines last };

    ghost is_honest = { λ it. AreClean F.Disk.Disk it.disks.items };

    ghost is_clean = { λ it. IsCleanPast F.all_lines (AreClean F.Disk.Disk it.disks.items)
        (all_shown F.Disk.Disk it.disks.items) it.seal it.places.items };

    ghost takes_lines = { Unit {0} };

    ghost is_usable = { λ it. AreUsable F.Disk.Disk it.disks.items };

    ghost faults = { λ it. all_faults F.Disk.Disk it.disks.items };

    ghost reached = { λ it clean. reaches_no_more F.all_lines _ it.seal clean.shows };

    fn seal(&self) -> Seal {
        self.seal
    }

    fn write(&mut self, lines: &[PastLine]) -> Result<Seal, PastFault> {
        self.places.push(self.seal)?;
        let last = write_behind(self.alloc, &self.files, &mut self.disks, &self.seal, lines)?;
        Ok(last)
    }

    fn turn_to(&mut self, last: &Seal) {
        texts_are_of_one_line();
        if goes_on(&self.seal, last, self.disks.len()) {
            self.seal = *last;
        }
    }

    fn lines_behind(&mut self, after: u64, limit: u32) -> Result<Seq<JournalLine>, PastFault> {
        read_behind(
            self.alloc,
            &mut self.disks,
            &mut self.places,
            &self.seal,
            after,
            limit as usize,
        )
    }
}
