//! Data sets in a file beside the database.
ghost use Rattle.std.specs.Prelude.{◌≡◌, ◌<◌, ◌≤◌, ℕ, List, All, AllPairs, Contains, length};
ghost use Rattle.std.specs.Prelude.{IfErr, IfOk, IsTrue, OnOk, false};
ghost use Rattle.dr_store_bodies.specs.declared.extent.Extent.{Extent};
ghost use Rattle.dr_store_bodies.specs.Bodies.{IsClean, IsHeld, IsUsable, extents, faults, seen};
ghost use Rattle.dr_store_bodies.specs.Extents.{LiesBefore, Stand, end_of};
ghost use Rattle.dr_store_shelf.specs.Cells.{Passes, extent_in};
ghost use Rattle.dr_store_shelf.specs.Shelves.{IsUsed, IsWhyNotPut, IsWhyNotRead, Stands};
ghost use Rattle.dr_store_shelf.specs.Shelves.{ShowsAsBefore, shown_by};

use crate::cell::{blank_cell, extent_of, passes, placed_cell};
use crate::fault::ShelfFault;
use crate::shelf::{BodyCell, Shelf};
use dr_store_bodies::{Bodies, Extent};
use sqlite_disk::{Crash, Disk};
use std::alloc::Global;

/// Each data set stands in an extent of a file, which its cell names.
#[derive(Drop)]
pub struct InFile<D: Disk> {
    alloc: Global,
    /// The key under which the digests are taken: it stays the same as long as the file is kept.
    key: u64,
    bodies: Bodies<D>,
    /// Whether the file was cut behind its last extent, since it was opened.
    is_cut: bool,
}

impl<D: Disk> InFile<D> {
    /// A shelf over this file, with the digests under this key.
    pub fn of(alloc: Global, key: u64, bodies: Bodies<D>) -> InFile<D>
        ensures file { result.bodies ≡ bodies }
        ensures key { result.key ≡ key }
        ensures uncut { result.is_cut ≡ false }
    {
        InFile {
            alloc,
            key,
            bodies,
            is_cut: false,
        }
    }

    /// Cuts the file behind its last extent, once after it was opened. That is done as the first
    /// data set comes, and not by the opening: one that is refused, as beside the tables of another
    /// day, changes nothing of a file.
    fn cut_once(&mut self) -> Result<(), ShelfFault>
        ensures ends { OnOk result (self.old.is_cut ≡ false → (size : ℕ)
            → All (λ e. end_of e ≤ size) (extents self.old.bodies)
            → length (seen self.new.bodies) ≤ size) }
        ensures once { OnOk result (IsTrue self.new.is_cut) }
        ensures key { self.new.key ≡ self.old.key }
        ensures listed { extents self.new.bodies ≡ extents self.old.bodies }
        ensures keeps { (e : Extent) (bytes : List ℕ) → Contains (extents self.old.bodies) e
            → IsHeld self.old.bodies e bytes → IsHeld self.new.bodies e bytes }
        ensures clean { IsClean self.new.bodies → IsClean self.old.bodies }
        ensures usable { OnOk result (IsUsable self.old.bodies → IsUsable self.new.bodies) }
        ensures faults { OnOk result (faults self.new.bodies ≡ faults self.old.bodies) }
        ensures why { IfErr result (IsWhyNotPut (IsUsable self.old.bodies)
            (faults self.old.bodies) (faults self.new.bodies)) }
    {
        if !self.is_cut {
            self.bodies.cut()?;
            self.is_cut = true;
        }
        Ok(())
    }

    /// Reads what the extent of a cell holds, and tests it.
    fn read(&mut self, cell: &[u8], extent: Extent) -> Result<Vec<u8>, ShelfFault>
        requires { extent ≡ extent_in cell.now }
        ensures read { IfOk result (λ got. IsClean self.new.bodies → (bytes : List ℕ)
            → IsHeld self.old.bodies (extent_in cell.now) bytes → got.items ≡ bytes) }
        ensures tested { IfOk result (λ got. Passes self.old.key cell.now got.items) }
        ensures cut { self.new.is_cut ≡ self.old.is_cut }
        ensures key { self.new.key ≡ self.old.key }
        ensures keeps { (other bytes : List ℕ) → IsUsed self.old.bodies other
            → Stands self.old.key self.old.bodies other bytes
            → IsUsed self.new.bodies other × Stands self.new.key self.new.bodies other bytes }
        ensures shows { IsClean self.new.bodies → ShowsAsBefore (IsUsed self.old.bodies)
            (shown_by self.old.bodies) (shown_by self.new.bodies) }
        ensures uses { (other : List ℕ) → IsUsed self.old.bodies other
            → IsUsed self.new.bodies other }
        ensures clean { IsClean self.new.bodies → IsClean self.old.bodies }
        ensures why { IfErr result (λ fault. IsClean self.new.bodies → (bytes : List ℕ)
            → IsWhyNotRead (IsUsable self.old.bodies)
            (Stands self.old.key self.old.bodies cell.now bytes) fault) }
    {
        let _extents = self.bodies.extents();
        let mut bytes = vec![in self.alloc; 0u8; extent.size]?;
        self.bodies.get(extent, &mut bytes)?;
        if !passes(self.key, cell, &bytes) {
            return Err(ShelfFault::Unreadable);
        }
        Ok(bytes)
    }

    /// The same, by the cell alone.
    fn find(&mut self, cell: &[u8]) -> Result<Vec<u8>, ShelfFault>
        ensures read { IfOk result (λ got. IsClean self.new.bodies → (bytes : List ℕ)
            → IsHeld self.old.bodies (extent_in cell.now) bytes → got.items ≡ bytes) }
        ensures tested { IfOk result (λ got. Passes self.old.key cell.now got.items) }
        ensures cut { self.new.is_cut ≡ self.old.is_cut }
        ensures key { self.new.key ≡ self.old.key }
        ensures keeps { (other bytes : List ℕ) → IsUsed self.old.bodies other
            → Stands self.old.key self.old.bodies other bytes
            → IsUsed self.new.bodies other × Stands self.new.key self.new.bodies other bytes }
        ensures shows { IsClean self.new.bodies → ShowsAsBefore (IsUsed self.old.bodies)
            (shown_by self.old.bodies) (shown_by self.new.bodies) }
        ensures uses { (other : List ℕ) → IsUsed self.old.bodies other
            → IsUsed self.new.bodies other }
        ensures clean { IsClean self.new.bodies → IsClean self.old.bodies }
        ensures why { IfErr result (λ fault. IsClean self.new.bodies → (bytes : List ℕ)
            → IsWhyNotRead (IsUsable self.old.bodies)
            (Stands self.old.key self.old.bodies cell.now bytes) fault) }
    {
        match extent_of(cell) {
            Some(extent) => self.read(cell, extent),
            None => Err(ShelfFault::NoCell),
        }
    }
}

impl<D: Disk> Shelf for InFile<D> {
    ghost use Rattle.std.specs.Prelude.{◌≡◌, false, true};
    ghost use Rattle.dr_store_bodies.specs.Bodies.{IsClean, IsUsable, faults, seen};
    ghost use Rattle.dr_store_shelf.specs.Cells.{Passes, extent_in, shown};
    ghost use Rattle.dr_store_shelf.specs.Shelves.{AreApart, EndsWithLast, IsUsed, Stands};
    ghost use Rattle.dr_store_shelf.specs.Shelves.{shown_by};
    ghost use Rattle.dr_store_shelf.specs.Held.{apart_from_each_other, held_is_shown};
    ghost use Rattle.dr_store_shelf.specs.Held.{read_stands};
    ghost use Rattle.dr_store_shelf.specs.Tested.{read_in, read_is};

    ghost stands = { λ it. Stands it.key it.bodies };

    ghost uses = { λ it. IsUsed it.bodies };

    ghost body_of = { λ it. shown_by it.bodies };

    ghost named = { λ _. true };

    ghost apart = { λ _. AreApart };

    ghost swaps = { λ _. apart_from_each_other };

    ghost passes = { λ it. Passes it.key };

    ghost read_of = { λ it cell. read_in it.key cell (shown_by it.bodies cell) };

    ghost is_new = { λ it. it.is_cut ≡ false };

    ghost ends = { λ it. EndsWithLast it.bodies };

    ghost is_clean = { λ it. IsClean it.bodies };

    ghost is_usable = { λ it. IsUsable it.bodies };

    ghost faults = { λ it. faults it.bodies };

    ghost only = { λ it cell bytes is. held_is_shown _ _ (extent_in cell) bytes is.0 };

    ghost passed = { λ it cell bytes is. is.1 };

    ghost reads = { λ it cell. read_is it.key cell (shown_by it.bodies cell) };

    ghost held = { λ it cell bytes clean used is.
        read_stands it.key _ _ _ cell bytes (it.bodies.safe clean) used.1 is };

    fn names_places(&self) -> bool {
        true
    }

    fn may_be_used(&self) -> bool {
        self.bodies.may_be_used()
    }

    fn put(&mut self, body: &[u8]) -> Result<BodyCell, ShelfFault> {
        let _extents = self.bodies.extents();
        let cell = blank_cell(self.alloc, self.key, body)?;
        self.cut_once()?;
        let extent = self.bodies.put(body)?;
        Ok(BodyCell::Name(placed_cell(cell, extent.at)))
    }

    fn get(&mut self, cell: Vec<u8>) -> Result<Vec<u8>, ShelfFault> {
        self.find(&cell)
    }

    fn look(&mut self, cell: Vec<u8>) -> Result<Option<Vec<u8>>, ShelfFault> {
        let _extents = self.bodies.extents();
        match self.find(&cell) {
            Ok(got) => Ok(Some(got)),
            Err(ShelfFault::NoCell) => Ok(None),
            Err(ShelfFault::Unreadable) => Ok(None),
            Err(ShelfFault::Io(error)) => Err(ShelfFault::Io(error)),
            Err(ShelfFault::Memory) => Err(ShelfFault::Memory),
            Err(ShelfFault::Unusable) => Err(ShelfFault::Unusable),
            Err(ShelfFault::Full) => Err(ShelfFault::Full),
        }
    }

    fn let_go(&mut self, cell: &[u8]) {
        if let Some(extent) = extent_of(cell) {
            self.bodies.free(extent);
        }
    }
}

impl<D: Disk + Drop> InFile<D> {
    /// A shelf over a file in which these extents are in use, in the order of their places. Each is
    /// filled, and no two overlap.
    ///
    /// Errors: Io, Unusable; NoCell where the file hasn't these extents.
    pub fn open(
        alloc: Global,
        key: u64,
        file: D,
        list: Vec<Extent>,
    ) -> Result<InFile<D>, ShelfFault>
        ensures key { IfOk result (λ it. it.key ≡ key) }
        ensures listed { IfOk result (λ it. extents it.bodies ≡ list.items) }
        ensures keeps { IfOk result (λ it. (cell bytes : List ℕ)
            → Stand (D.Disk.seen file) (D.Disk.may_leave file) (extent_in cell) bytes
            → Passes key cell bytes
            → Stands it.key it.bodies cell bytes) }
        ensures clean { IfOk result (λ it. IsClean it.bodies → IsTrue (D.Disk.is_clean file)) }
        ensures usable { IfOk result (λ it. IsUsable it.bodies) }
        ensures filled { IfOk result (λ it. All (λ e. 0 < e.size) list.items) }
        ensures apart { IfOk result (λ it. AllPairs LiesBefore list.items) }
        ensures shows { IfOk result (λ it. D.Disk.seen it.bodies.disk ≡ D.Disk.seen file) }
        ensures uncut { IfOk result (λ it. it.is_cut ≡ false) }
    {
        let bodies = Bodies::open(file, list)?;
        let _extents = bodies.extents();
        Ok(InFile {
            alloc,
            key,
            bodies,
            is_cut: false,
        })
    }
}

impl<D: Crash + Drop> InFile<D> {
    /// What is there after a crash and an opening: each cell that was in use is, and stands for
    /// what it stood for.
    pub fn restart(self) -> Result<InFile<D>, ShelfFault>
        ensures keeps { IfOk result (λ it. (cell bytes : List ℕ) → IsUsed self.bodies cell
            → Stands self.key self.bodies cell bytes
            → IsUsed it.bodies cell × Stands it.key it.bodies cell bytes) }
        ensures uncut { IfOk result (λ it. it.is_cut ≡ false) }
    {
        let InFile {
            alloc,
            key,
            bodies,
            is_cut: _,
        } = self;
        let left = bodies.restart()?;
        Ok(InFile {
            alloc,
            key,
            bodies: left,
            is_cut: false,
        })
    }
}
