//! A file of sealed lines.
ghost use Rattle.std.specs.Prelude.{◌≡◌, ◌+◌, ◌<◌, ◌≤◌, ◌++◌, ℕ, List, length, All, IsTrue};
ghost use Rattle.std.specs.Prelude.{IfErr, IfOk, OnErr, OnOk};
ghost use Rattle.sqlite_disk.specs.Disk.{Only};
ghost use Rattle.dr_store_sealed.specs.declared.seal.Seal.{Seal};
ghost use Rattle.dr_store_sealed.specs.Files.{EndsAs, HasLines};
ghost use Rattle.dr_store_sealed.specs.Lines.{IsOneLine};
ghost use Rattle.dr_store_sealed.specs.Seals.{TakesLines, lines_between};
ghost use Rattle.dr_store_sealed.specs.Held.{IsClean, IsHeld, IsUsable, StillHas, disk_of};
ghost use Rattle.dr_store_sealed.specs.Held.{seal_of, shown};
ghost use Rattle.dr_store_sealed.specs.Held.{IsWhyNotAppended};
ghost use Rattle.dr_store_sealed.specs.Refusals.{IsWhyNotFit, IsWhyNotRead, IsWhyNotWhole};

use crate::appending::append_to;
use crate::fault::SealFault;
use crate::fitting::fit;
use crate::scanning::read_lines;
use crate::seal::{Seal, are_one};
use dr_base::Text;
use sqlite_disk::{Crash, Disk};
use std::alloc::Global;

/// A file of lines with their chains, up to its seal.
#[derive(Drop)]
pub struct LineFile<D: Disk> {
    disk: D,
    seal: Seal,
}

impl<D: Disk> LineFile<D> {
    /// How far its lines go.
    pub fn seal(&self) -> &Seal
        ensures { result.now ≡ seal_of self.now }
    {
        &self.seal
    }

    /// Writes those of the lines behind the seal that begin in this file: all, or as many as make
    /// it full. Then it ends the file behind them, syncs it, and answers the seal behind them,
    /// which is its own from then on. A file that is full takes none, and refuses.
    ///
    /// A refusal leaves the seal, and each line before it, what it was, also after a crash.
    pub fn append(&mut self, alloc: Global, lines: &[Text]) -> Result<Seal, SealFault>
        ensures held { IfOk result (λ last. (start : Seal) (before : List (List ℕ))
            → IsHeld D.Disk self.old start before
            → IsHeld D.Disk self.new start
            (before ++ lines_between (seal_of self.old) last lines.now)) }
        ensures takes { IfOk result (λ last. TakesLines (seal_of self.old) lines.now last) }
        ensures some { IfOk result (λ last.
            0 < length lines.now → (seal_of self.old).count < last.count) }
        ensures lines { IfOk result (λ last.
            All IsOneLine (lines_between (seal_of self.old) last lines.now)) }
        ensures sealed { IfOk result (λ last. seal_of self.new ≡ last) }
        ensures ends { OnOk result
            (length (shown D.Disk self.new) ≡ (seal_of self.new).offset) }
        ensures synced { OnOk result
            (Only (shown D.Disk self.new) (D.Disk.may_leave (disk_of self.new))) }
        ensures unsealed { OnErr result (seal_of self.new ≡ seal_of self.old) }
        ensures keeps { (start : Seal) (before : List (List ℕ))
            → IsHeld D.Disk self.old start before → StillHas D.Disk self.new start before }
        ensures clean { IsClean D.Disk self.new → IsClean D.Disk self.old }
        ensures usable { OnOk result (IsUsable D.Disk self.new) }
        ensures why { IfErr result (IsWhyNotAppended D.Disk lines.now self.old self.new) }
    {
        let last = append_to(alloc, &mut self.disk, &self.seal, lines)?;
        self.seal = last;
        Ok(last)
    }

    /// The next lines behind `from`, a place before the seal's where a line begins, and the seal
    /// behind them: as many as a piece of the file has. Each has the chain that follows from the
    /// line before it.
    pub fn read_from(&mut self, alloc: Global, from: &Seal) -> Result<(Vec<Text>, Seal), SealFault>
        requires { from.now.offset < (seal_of self.old).offset }
        ensures reads { IfOk result (λ read. IsClean D.Disk self.new
            → HasLines (shown D.Disk self.new) from.now read.0.items read.1) }
        ensures lines { IfOk result (λ read. All IsOneLine read.0.items) }
        ensures onward { IfOk result (λ read. from.now.offset < read.1.offset) }
        ensures within { IfOk result (λ read. read.1.offset ≤ (seal_of self.old).offset) }
        ensures shows { shown D.Disk self.new ≡ shown D.Disk self.old }
        ensures unsealed { seal_of self.new ≡ seal_of self.old }
        ensures keeps { (start : Seal) (before : List (List ℕ))
            → IsHeld D.Disk self.old start before → IsHeld D.Disk self.new start before }
        ensures clean { IsClean D.Disk self.new → IsClean D.Disk self.old }
        ensures usable { OnOk result (IsUsable D.Disk self.new) }
        ensures faults { OnOk result
            (D.Disk.faults (disk_of self.new) ≡ D.Disk.faults (disk_of self.old)) }
        ensures why { IfErr result (IsWhyNotRead D.Disk from.now (seal_of self.old).offset
            (disk_of self.old) (disk_of self.new)) }
    {
        read_lines(alloc, &mut self.disk, from, self.seal.offset)
    }

    /// Reads all lines of the file, of which `start` is the seal at its beginning, and tests the
    /// chain of each. Nothing is kept but one piece of the file at a time.
    pub fn examine(&mut self, alloc: Global, start: &Seal) -> Result<(), SealFault>
        requires { start.now.offset ≡ 0 }
        ensures whole { OnOk result (IsClean D.Disk self.new
            → (lines : List (List ℕ))
            × (All IsOneLine lines
            × HasLines (shown D.Disk self.new) start.now lines (seal_of self.new))) }
        ensures shows { shown D.Disk self.new ≡ shown D.Disk self.old }
        ensures unsealed { seal_of self.new ≡ seal_of self.old }
        ensures keeps { (first : Seal) (before : List (List ℕ))
            → IsHeld D.Disk self.old first before → IsHeld D.Disk self.new first before }
        ensures clean { IsClean D.Disk self.new → IsClean D.Disk self.old }
        ensures why { IfErr result (IsWhyNotWhole D.Disk start.now (seal_of self.old)
            (disk_of self.old) (disk_of self.new)) }
    {
        if !self.disk.may_be_used() {
            return Err(SealFault::Unusable);
        }
        let mut at = *start;
        while at.offset < self.seal.offset {
            match self.read_from(alloc, &at) {
                Ok((lines, next)) => {
                    drop(lines);
                    at = next;
                }
                Err(fault) => return Err(fault),
            }
        }
        if !are_one(&at, &self.seal) {
            return Err(SealFault::OtherChain);
        }
        Ok(())
    }
}

/// A file that is not its seal's, or could not be tested, and why.
#[derive(Drop)]
pub struct UnfitFile<D: Drop> {
    pub file: D,
    pub fault: SealFault,
}

impl<D: Disk + Drop> LineFile<D> {
    /// The file of a seal, cut behind the seal's place. A refusal is that of `fit`, and gives the
    /// file back.
    pub fn open(alloc: Global, file: D, seal: Seal) -> Result<LineFile<D>, UnfitFile<D>>
        ensures sealed { IfOk result (λ it. seal_of it ≡ seal) }
        ensures held { IfOk result (λ it. (start : Seal) (lines : List (List ℕ))
            → HasLines (D.Disk.seen file) start lines seal → IsHeld D.Disk it start lines) }
        ensures ends { IfOk result (λ it. IsClean D.Disk it → EndsAs (shown D.Disk it) seal) }
        ensures cut { IfOk result (λ it. length (shown D.Disk it) ≡ seal.offset) }
        ensures synced { IfOk result (λ it.
            Only (shown D.Disk it) (D.Disk.may_leave (disk_of it))) }
        ensures clean { IfOk result (λ it. IsClean D.Disk it → IsTrue (D.Disk.is_clean file)) }
        ensures usable { IfOk result (λ it. IsUsable D.Disk it) }
        ensures why { IfErr result (λ unfit. IsWhyNotFit D.Disk seal file unfit.file unfit.fault) }
    {
        let mut medium = file;
        match fit(alloc, &mut medium, &seal) {
            Err(fault) => Err(UnfitFile {
                file: medium,
                fault,
            }),
            Ok(()) => Ok(LineFile { disk: medium, seal }),
        }
    }
}

impl<D: Crash + Drop> LineFile<D> {
    /// What is there after a crash and an opening with the same seal.
    pub fn restart(self, alloc: Global) -> Result<LineFile<D>, UnfitFile<D>>
        ensures sealed { IfOk result (λ it. seal_of it ≡ seal_of self) }
        ensures held { IfOk result (λ it. (start : Seal) (lines : List (List ℕ))
            → IsHeld D.Disk self start lines → IsHeld D.Disk it start lines) }
        ensures why { IfErr result (λ unfit. (left : D)
            × D.Disk.may_leave (disk_of self) (D.Disk.seen left)
            × IsWhyNotFit D.Disk (seal_of self) left unfit.file unfit.fault) }
    {
        let LineFile { disk, seal } = self;
        let mut left = disk;
        left.crash();
        LineFile::open(alloc, left, seal)
    }
}
