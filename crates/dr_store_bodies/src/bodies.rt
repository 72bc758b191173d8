//! The data sets of a ledger in one file.
ghost use Rattle.std.specs.Prelude.{◌≡◌, ◌≢◌, ◌==◌, ◌↔◌, ◌∷◌, [], ℕ, ◌+◌, ◌^◌, ◌%◌, ◌<◌, ◌≤◌};
ghost use Rattle.std.specs.Prelude.{take, drop, List, length, not, filter};
ghost use Rattle.std.specs.Prelude.{All, AllPairs, Contains, IfErr, IfOk, OnOk, OnErr, IsTrue};
ghost use Rattle.dr_store_bodies.specs.declared.extent.Extent.{Extent};
ghost use Rattle.sqlite_disk.specs.Disk.{Only};
ghost use Rattle.sqlite_disk.specs.Digest.{digest};
ghost use Rattle.std.specs.List.Sorted.{IsPermutation};
ghost use Rattle.dr_store_bodies.specs.Extents.{end_of, LiesBefore, IsSafe, Stand};
ghost use Rattle.dr_store_bodies.specs.Place.{IsFirstPlace};

use crate::extent::Extent;
use crate::fault::BodyFault;
use crate::fitting::{end_of_last, fit};
use crate::place::place;
use sqlite_disk::{Crash, Disk};
use std::alloc::Global;

/// A file of data sets, with the extents that are in use.
#[derive(Drop)]
pub struct Bodies<D: Disk> {
    disk: D,
    /// The extents in use, in the order of their places.
    extents: Vec<Extent>,
    ghost filled: { All (λ e. 0 < e.size) extents.items },
    ghost apart: { AllPairs LiesBefore extents.items },
    ghost named: { All (λ e. end_of e < 2 ^ 64) extents.items },
    ghost safe: { IsTrue (D.Disk.is_clean disk)
        → All (IsSafe (D.Disk.seen disk) (D.Disk.may_leave disk)) extents.items },
}

impl<D: Disk> Bodies<D> {
    ghost use Rattle.dr_store_bodies.specs.Bodies.{disk, extents, faults, seen, IsHeld, IsClean};
    ghost use Rattle.dr_store_bodies.specs.Bodies.{IsUsable};
    ghost use Rattle.dr_store_bodies.specs.Refusals.{IsWhyNotCut, IsWhyNotPut, IsWhyNotRead};

    /// A file with no extent in use. What it contains is left as it is, and overwritten.
    pub fn new(alloc: Global, file: D) -> Bodies<D>
        ensures none { extents result ≡ [] }
        ensures file { disk result ≡ file }
    {
        Bodies {
            disk: file,
            extents: Vec::new(alloc),
        }
    }

    /// Whether no sync has failed. After one that has, nothing more is put, read or cut.
    pub fn may_be_used(&self) -> bool
        ensures { IsTrue result ↔ IsUsable self.now }
    {
        self.disk.may_be_used()
    }

    /// The extents in use: each is filled, no two overlap, and where the medium told no lie, each
    /// is within the file and no crash at this moment changes it.
    pub fn extents(&self) -> &[Extent]
        ensures all { result.now ≡ extents self.now }
        ensures filled { All (λ e. 0 < e.size) result.now }
        ensures apart { AllPairs LiesBefore result.now }
        ensures safe { IsClean self.now
            → All (IsSafe (D.Disk.seen (disk self.now)) (D.Disk.may_leave (disk self.now)))
            result.now }
    {
        &self.extents
    }

    /// Writes the bytes into the first gap that holds them, else behind all extents in use, syncs,
    /// and only then takes the extent in use.
    ///
    /// Whatever comes of it, each extent in use holds what it held. A refusal takes none in use:
    /// `Io` where a call of the disk failed, `Memory`, `Full` only where no gap holds the bytes,
    /// and `Unusable` where a sync failed before.
    pub fn put(&mut self, body: &[u8]) -> Result<Extent, BodyFault>
        requires { 0 < length body.now }
        ensures held { IfOk result (λ e. IsHeld self.new e body.now) }
        ensures listed { IfOk result (λ e.
            IsPermutation (e ∷ extents self.old) (extents self.new)) }
        ensures aligned { IfOk result (λ e. e.at % 4096 ≡ 0) }
        ensures first { IfOk result (λ e. IsFirstPlace (extents self.old) (length body.now) e.at) }
        ensures other { IfOk result (λ e. All (λ f. f.at ≢ e.at) (extents self.old)) }
        ensures ends { OnOk result ((size : ℕ) → length (seen self.old) ≤ size
            → All (λ e. end_of e ≤ size) (extents self.new) → length (seen self.new) ≤ size) }
        ensures unlisted { OnErr result (extents self.new ≡ extents self.old) }
        ensures keeps { (e : Extent) (bytes : List ℕ)
            → Contains (extents self.old) e → IsHeld self.old e bytes → IsHeld self.new e bytes }
        ensures clean { IsClean self.new → IsClean self.old }
        ensures usable { OnOk result (IsUsable self.new) }
        ensures why { IfErr result (IsWhyNotPut (length body.now) self.old self.new) }
    {
        if !self.disk.may_be_used() {
            return Err(BodyFault::Unusable);
        }
        let Some((index, at)) = place(&self.extents, body.len()) else {
            return Err(BodyFault::Full);
        };
        self.disk.write_at(at, body)?;
        self.disk.sync()?;
        let extent = Extent {
            at,
            size: body.len(),
        };
        self.extents.insert(index, extent)?;
        Ok(extent)
    }

    /// Reads what the extent holds, untested.
    pub fn get(&mut self, extent: Extent, buf: &mut [u8]) -> Result<(), BodyFault>
        requires { length buf.old ≡ extent.size }
        ensures read { OnOk result
            (IsClean self.new
            → (bytes : List ℕ) → IsHeld self.old extent bytes → buf.new ≡ bytes) }
        ensures listed { extents self.new ≡ extents self.old }
        ensures keeps { (e : Extent) (bytes : List ℕ)
            → IsHeld self.old e bytes → IsHeld self.new e bytes }
        ensures clean { IsClean self.new → IsClean self.old }
        ensures why { IfErr result (IsWhyNotRead extent.at extent.size self.old self.new) }
    {
        if !self.disk.may_be_used() {
            return Err(BodyFault::Unusable);
        }
        self.disk.read_at(extent.at, buf)?;
        Ok(())
    }

    /// Reads a part of what the extent holds, whose digest under `key` the caller kept: other bytes
    /// are an error, unless they have that digest.
    pub fn get_tested(
        &mut self,
        key: u64,
        want: u64,
        extent: Extent,
        from: usize,
        buf: &mut [u8],
    ) -> Result<(), BodyFault>
        requires some { 0 < length buf.old }
        requires within { from + length buf.old ≤ extent.size }
        requires kept { IsClean self.old
            → (bytes : List ℕ)
            × (IsHeld self.old extent bytes
            × (want ≡ digest key (take (length buf.old) (drop from bytes)))) }
        ensures read { OnOk result
            (IsClean self.new
            → (bytes : List ℕ)
            → IsHeld self.old extent bytes
            → buf.new ≡ take (length buf.old) (drop from bytes)) }
        ensures tested { OnOk result (digest key buf.new ≡ want) }
        ensures listed { extents self.new ≡ extents self.old }
        ensures keeps { (e : Extent) (bytes : List ℕ)
            → IsHeld self.old e bytes → IsHeld self.new e bytes }
        ensures clean { IsClean self.new → IsClean self.old }
        ensures fair { D.Disk.is_fair (disk self.new) key ≡ D.Disk.is_fair (disk self.old) key }
        ensures why { IfErr result
            (IsWhyNotRead (extent.at + from) (length buf.old) self.old self.new) }
    {
        if !self.disk.may_be_used() {
            return Err(BodyFault::Unusable);
        }
        let Some(at) = extent.at.checked_add(from) else {
            return Err(BodyFault::Misfit);
        };
        self.disk.read_checked(key, want, at, buf)?;
        Ok(())
    }

    /// Takes the extent out of use, and touches no byte.
    pub fn free(&mut self, extent: Extent)
        ensures listed { extents self.new
            ≡ filter (λ e. not (e.at == extent.at)) (extents self.old) }
        ensures untouched { disk self.new ≡ disk self.old }
    {
        self.extents.retain(|e| e.at != extent.at);
    }

    /// Cuts the file behind the last extent in use. A refusal may have cut it too, and is harmless:
    /// each extent in use holds what it held.
    pub fn cut(&mut self) -> Result<(), BodyFault>
        ensures ends { OnOk result
            ((size : ℕ)
            → All (λ e. end_of e ≤ size) (extents self.old) → length (seen self.new) ≤ size) }
        ensures listed { extents self.new ≡ extents self.old }
        ensures keeps { (e : Extent) (bytes : List ℕ)
            → Contains (extents self.old) e → IsHeld self.old e bytes → IsHeld self.new e bytes }
        ensures clean { IsClean self.new → IsClean self.old }
        ensures usable { OnOk result (IsUsable self.new) }
        ensures faults { OnOk result (faults self.new ≡ faults self.old) }
        ensures why { IfErr result (IsWhyNotCut self.old self.new) }
    {
        if !self.disk.may_be_used() {
            return Err(BodyFault::Unusable);
        }
        let end = end_of_last(&self.extents);
        self.disk.set_len(end)?;
        Ok(())
    }
}

impl<D: Disk + Drop> Bodies<D> {
    ghost use Rattle.dr_store_bodies.specs.Bodies.{disk, extents, IsHeld, IsClean, IsUsable};

    /// A file with these extents in use, which are to be in the order of their places. A refusal is
    /// that of `fit`, and lets the file go.
    pub fn open(file: D, list: Vec<Extent>) -> Result<Bodies<D>, BodyFault>
        ensures listed { IfOk result (λ it. extents it ≡ list.items) }
        ensures keeps { IfOk result
            (λ it. (e : Extent) (bytes : List ℕ)
            → Stand (D.Disk.seen file) (D.Disk.may_leave file) e bytes → IsHeld it e bytes) }
        ensures shows { IfOk result (λ it. D.Disk.seen (disk it) ≡ D.Disk.seen file) }
        ensures synced { IfOk result (λ it.
            Only (D.Disk.seen (disk it)) (D.Disk.may_leave (disk it))) }
        ensures clean { IfOk result (λ it. IsClean it → IsTrue (D.Disk.is_clean file)) }
        ensures usable { IfOk result (λ it. IsUsable it) }
    {
        let mut medium = file;
        fit(&mut medium, &list)?;
        Ok(Bodies {
            disk: medium,
            extents: list,
        })
    }
}

impl<D: Crash + Drop> Bodies<D> {
    ghost use Rattle.dr_store_bodies.specs.Bodies.{extents, IsHeld};

    /// What is there after a crash and an opening with the same extents.
    pub fn restart(self) -> Result<Bodies<D>, BodyFault>
        ensures listed { IfOk result (λ it. extents it ≡ extents self) }
        ensures keeps { IfOk result
            (λ it. (e : Extent) (bytes : List ℕ) → IsHeld self e bytes → IsHeld it e bytes) }
    {
        let Bodies { disk, extents } = self;
        let mut left = disk;
        left.crash();
        Bodies::open(left, extents)
    }
}
