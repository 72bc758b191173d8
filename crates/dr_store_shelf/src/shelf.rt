//! A place for data sets.
ghost use Rattle.std.specs.Prelude.{◌≡◌, ◌<◌, ℕ, List, length, IfErr, IfOk, OnErr, Bool};
ghost use Rattle.std.specs.Prelude.{◌↔◌, IsTrue, MatchOption, OnOk, Option, Some, false};
ghost use Rattle.dr_store_shelf.specs.Shelves.{IsWhyNotPut, IsWhyNotRead, ReadsAsBefore};
ghost use Rattle.dr_store_shelf.specs.Shelves.{ShowsAsBefore, bytes_of, items_of};

use crate::fault::ShelfFault;

/// What stands in a ledger's table for a data set that was put.
#[derive(Debug, Drop)]
pub enum BodyCell {
    /// The data set itself.
    Itself,
    /// These bytes, which name it.
    Name(Vec<u8>),
}

impl BodyCell {
    /// The bytes of the cell, which was given out for this data set.
    pub fn bytes<'x>(&'x self, body: &'x [u8]) -> &'x [u8]
        ensures { result.now ≡ bytes_of self.now body.now }
    {
        match self {
            BodyCell::Itself => body,
            BodyCell::Name(cell) => cell,
        }
    }
}

/// A place for data sets, which gives out a cell for each.
///
/// A cell that is in use stands for the same bytes until it is let go, whatever else is put, read
/// or let go, and whether or not a call is refused. By one that is in use each call leaves the same
/// bytes, also where it stands for none, as far as the medium answered rightly. So the same can be
/// read by it, or nothing as before.
pub trait Shelf {
    // The cell stands for these bytes: they are what is read by it, now and after a crash at this
    // moment.
    ghost stands: { Self → List ℕ → List ℕ → Type 0 };

    // The cell is in use.
    ghost uses: { Self → List ℕ → Type 0 };

    // The bytes that are shown by the cell, for which it stands, if it stands for any.
    ghost body_of: { Self → List ℕ → List ℕ };

    // Whether its cells name places, which stays as it is.
    ghost named: { Self → Bool };

    // The one cell can be let go without the other, on a shelf whose cells name places, or name
    // none.
    ghost apart: { Bool → List ℕ → List ℕ → Type 0 };

    // Then the other can be let go without the one.
    ghost swaps: { (places : Bool) (cell other : List ℕ) → apart places cell other
        → apart places other cell };

    // These bytes pass the test that the cell has for them.
    ghost passes: { Self → List ℕ → List ℕ → Type 0 };

    // What can be read by the cell: the bytes that are shown by it, if they pass its test.
    ghost read_of: { Self → List ℕ → Option (List ℕ) };

    // No data set was put since the shelf was opened.
    ghost is_new: { Self → Type 0 };

    // Nothing lies behind the places of the cells in use.
    ghost ends: { Self → Type 0 };

    // No wrong answer of a medium has been taken as true.
    ghost is_clean: { Self → Type 0 };

    // No sync has failed.
    ghost is_usable: { Self → Type 0 };

    // How many calls of a disk have failed.
    ghost faults: { Self → ℕ };

    // A cell stands for one data set at most, which passes its test.
    ghost only: { (it : Self) (cell bytes : List ℕ) → stands it cell bytes
        → body_of it cell ≡ bytes };

    ghost passed: { (it : Self) (cell bytes : List ℕ) → stands it cell bytes
        → passes it cell bytes };

    // That is what can be read.
    ghost reads: { (it : Self) (cell : List ℕ)
        → MatchOption (read_of it cell) (passes it cell (body_of it cell) → ⊥)
        (λ bytes. (bytes ≡ body_of it cell) × passes it cell bytes) };

    // A cell in use stands for what can be read by it, where no wrong answer was taken as true.
    ghost held: { (it : Self) (cell bytes : List ℕ) → is_clean it → uses it cell
        → read_of it cell ≡ Some bytes → stands it cell bytes };

    /// Whether a cell names a place. Where none does, each can be let go without any, and nothing
    /// has to be let go.
    fn names_places(&self) -> bool
        ensures named { result ≡ named self.now }
        ensures free { result ≡ false
            → (cell other : List ℕ) → apart (named self.now) cell other };

    /// Whether no sync has failed. After one that has, nothing more is put or read, since what was
    /// written may be lost with no further word.
    fn may_be_used(&self) -> bool
        ensures { IsTrue result ↔ is_usable self.now };

    /// Puts a data set, durably: whoever commits a row with the cell afterwards finds it, whatever
    /// crash comes. As the first one comes after an opening, what an earlier process left behind
    /// all others goes.
    ///
    /// Errors: Io where a call of the disk failed, Memory, Unusable, Full. None leaves a cell in
    /// use that wasn't.
    fn put(&mut self, body: &[u8]) -> Result<BodyCell, ShelfFault>
        requires { 0 < length body.now }
        ensures stands { IfOk result (λ cell. stands self.new (bytes_of cell body.now) body.now) }
        ensures used { IfOk result (λ cell. uses self.new (bytes_of cell body.now)) }
        ensures beside { IfOk result (λ cell. (other : List ℕ)
            → uses self.old other
            → apart (named self.old) (bytes_of cell body.now) other) }
        ensures keeps { (cell bytes : List ℕ) → uses self.old cell → stands self.old cell bytes
            → uses self.new cell × stands self.new cell bytes }
        ensures shows { is_clean self.new
            → ShowsAsBefore (uses self.old) (body_of self.old) (body_of self.new) }
        ensures reads { is_clean self.new
            → ReadsAsBefore (uses self.old) (read_of self.old) (read_of self.new) }
        ensures uses { (other : List ℕ) → uses self.old other → uses self.new other }
        ensures unused { OnErr result
            ((cell : List ℕ) → uses self.new cell → uses self.old cell) }
        ensures ends { OnOk result (is_new self.old → ends self.new) }
        ensures named { named self.new ≡ named self.old }
        ensures clean { is_clean self.new → is_clean self.old }
        ensures why { IfErr result
            (IsWhyNotPut (is_usable self.old) (faults self.old) (faults self.new)) };

    /// Reads the data set of a cell. What is answered has passed the cell's test, also where the
    /// medium answered wrongly.
    ///
    /// Errors: Io, Memory, Unusable; NoCell and Unreadable only where the cell stands for no data
    /// set, or a medium answered wrongly.
    fn get(&mut self, cell: Vec<u8>) -> Result<Vec<u8>, ShelfFault>
        ensures read { IfOk result (λ got. is_clean self.new → (bytes : List ℕ)
            → stands self.old cell.items bytes → got.items ≡ bytes) }
        ensures tested { IfOk result (λ got. passes self.old cell.items got.items) }
        ensures keeps { (other bytes : List ℕ) → uses self.old other → stands self.old other bytes
            → uses self.new other × stands self.new other bytes }
        ensures shows { is_clean self.new
            → ShowsAsBefore (uses self.old) (body_of self.old) (body_of self.new) }
        ensures reads { is_clean self.new
            → ReadsAsBefore (uses self.old) (read_of self.old) (read_of self.new) }
        ensures uses { (other : List ℕ) → uses self.old other → uses self.new other }
        ensures named { named self.new ≡ named self.old }
        ensures since { is_new self.old → is_new self.new }
        ensures clean { is_clean self.new → is_clean self.old }
        ensures why { IfErr result (λ fault. is_clean self.new → (bytes : List ℕ)
            → IsWhyNotRead (is_usable self.old) (stands self.old cell.items bytes) fault) };

    /// Looks what a cell stands for that is in use, where that isn't known yet: None where it
    /// stands for no data set. That is what can be read by it.
    ///
    /// Errors: Io, Memory, Unusable.
    fn look(&mut self, cell: Vec<u8>) -> Result<Option<Vec<u8>>, ShelfFault>
        ensures found { IfOk result (λ found. is_clean self.new → uses self.old cell.items
            → MatchOption found ((bytes : List ℕ) → stands self.old cell.items bytes → ⊥)
            (λ got. stands self.old cell.items got.items)) }
        ensures read { IfOk result (λ found. is_clean self.new → uses self.old cell.items
            → items_of found ≡ read_of self.old cell.items) }
        ensures keeps { (other bytes : List ℕ) → uses self.old other → stands self.old other bytes
            → uses self.new other × stands self.new other bytes }
        ensures shows { is_clean self.new
            → ShowsAsBefore (uses self.old) (body_of self.old) (body_of self.new) }
        ensures reads { is_clean self.new
            → ReadsAsBefore (uses self.old) (read_of self.old) (read_of self.new) }
        ensures uses { (other : List ℕ) → uses self.old other → uses self.new other }
        ensures named { named self.new ≡ named self.old }
        ensures since { is_new self.old → is_new self.new }
        ensures clean { is_clean self.new → is_clean self.old }
        ensures why { IfErr result (λ fault. is_clean self.new
            → IsWhyNotRead (is_usable self.old) (Unit {0}) fault) };

    /// Lets a data set go, whose cell no row has, and that no row gets after a crash either. Where
    /// a cell names a place, this one is in use no more. No byte is touched before another data set
    /// comes.
    fn let_go(&mut self, cell: &[u8])
        ensures gone { (apart (named self.old) cell.now cell.now → ⊥)
            → uses self.new cell.now → ⊥ }
        ensures keeps { (other bytes : List ℕ) → apart (named self.old) cell.now other
            → uses self.old other → stands self.old other bytes
            → uses self.new other × stands self.new other bytes }
        ensures shows { is_clean self.new
            → ShowsAsBefore (uses self.old) (body_of self.old) (body_of self.new) }
        ensures reads { is_clean self.new
            → ReadsAsBefore (uses self.old) (read_of self.old) (read_of self.new) }
        ensures uses { (other : List ℕ) → apart (named self.old) cell.now other
            → uses self.old other → uses self.new other }
        ensures named { named self.new ≡ named self.old }
        ensures since { is_new self.old → is_new self.new }
        ensures clean { is_clean self.new → is_clean self.old };
}
