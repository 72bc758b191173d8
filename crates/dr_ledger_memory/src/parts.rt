//! A book with its data sets, in B-trees.
ghost use Rattle.std.specs.Prelude.{◌≡◌, ◌<◌, ◌++◌, ◌∷◌, ◌&&◌, not, [], T, IsSome, None, Some};
ghost use Rattle.std.specs.Prelude.{cond, OnErr, OnOk, vec_len, vec_capacity};
ghost use Rattle.std.specs.FinMap.{is_sorted};
ghost use Rattle.std.specs.BTreeMap as tree;
ghost use Rattle.std.specs.BTreeSet as sorted;
ghost use Rattle.std.specs.Ordering.{eq_by_cmp};
ghost use Rattle.dr_ledger.specs.Pairs.{Pair, pair_cmp};
ghost use Rattle.dr_base.specs.Texts.{Text as Words, text_cmp};
ghost use Rattle.dr_ledger_memory.specs.Dues.{AreExpected, Covers, Grows, IsExpected};
ghost use Rattle.dr_ledger_memory.specs.Entries.{IsTakenAgain, row_in};
ghost use Rattle.dr_ledger_memory.specs.Changes.{AreAlike, IsSetAt, IsOneMore, IsRest, MovesAt};
ghost use Rattle.dr_ledger_memory.specs.Changes.{PrunesAll, TakesAt};

use crate::held::Held;
use crate::holding::first;
use crate::waiting::{Due, due_of, expect, expect_one, forget};
use dr_base::{Octets, Text};
use dr_ledger::{Instance, Progress};
use dr_ledger_history::JournalLine;
use std::alloc::{AllocError, Global};
use std::collections::{BTreeMap, BTreeSet};

/// What is had of each uid, the callers with what they brought, the keys of the waiting rows, and
/// the journal. There may be keys of rows that don't wait; they cost a look at the row.
#[derive(Drop)]
pub struct Parts {
    pub held: BTreeMap<Text, Held>,
    pub arrivals: BTreeSet<(Text, Text)>,
    pub waiting: BTreeSet<Due>,
    pub notes: Vec<JournalLine>,
}

/// What a first arrival puts in, all made before anything changes.
#[derive(Drop)]
pub struct Bringing {
    pub arrival: (Text, Text),
    pub uid: Text,
    pub instance: Instance,
    pub rows: Vec<(Text, Progress)>,
    pub keep: bool,
    pub body: Octets,
    pub note: JournalLine,
}

/// What a further arrival of a uid brings, but for who brought it.
#[derive(Drop)]
struct FurtherArrival {
    uid: Text,
    rows: Vec<(Text, Progress)>,
    keep: bool,
    body: Octets,
    note: JournalLine,
}

impl Parts {
    ghost use Rattle.dr_ledger_memory.specs.Changes.{HasArrived, IsAdoptedInParts, HasBrought};
    ghost use Rattle.dr_ledger_memory.specs.Changes.{IsDroppedInParts};
    ghost use Rattle.dr_ledger_memory.specs.Changes.{IsForgottenInParts, IsMoved, IsNoted};
    ghost use Rattle.dr_ledger_memory.specs.Changes.{AreSameParts};
    ghost use Rattle.dr_ledger_memory.specs.Changes.{IsTakenOut};

    /// An empty book.
    pub fn new(alloc: Global) -> Parts
        ensures held { result.held.entries ≡ [] }
        ensures arrivals { result.arrivals.keys ≡ [] }
        ensures notes { result.notes.items ≡ [] }
    {
        Parts {
            held: BTreeMap::new(alloc),
            arrivals: BTreeSet::new(alloc),
            waiting: BTreeSet::new(alloc),
            notes: Vec::new(alloc),
        }
    }

    /// Adds a line alone; without memory nothing changes.
    pub fn try_note(&mut self, note: JournalLine) -> Result<(), AllocError>
        ensures ok { OnOk result (IsNoted self.old note self.new) }
        ensures err { OnErr result (AreSameParts self.old self.new) }
        ensures held { self.new.held ≡ self.old.held }
        ensures waiting { self.new.waiting ≡ self.old.waiting }
    {
        add(&mut self.notes, note)?;
        Ok(())
    }

    /// Puts a first arrival in; without memory nothing changes, but for keys that nobody misses.
    pub fn try_bring(&mut self, new: Bringing) -> Result<(), AllocError>
        requires rows { T (is_sorted text_cmp new.rows.items) }
        requires own { new.arrival.1 ≡ new.uid }
        ensures ok { OnOk result (HasBrought self.old new self.new) }
        ensures err { OnErr result (AreSameParts self.old self.new) }
        ensures ordered { tree.IsOrdered text_cmp self.old.held
            → tree.IsOrdered text_cmp self.new.held }
        ensures covers { Covers self.old.waiting self.old.held
            → Covers self.new.waiting self.new.held }
    {
        match self.expect_rows(&new) {
            Ok(()) => self.bring(new),
            Err(fault) => Err(fault),
        }
    }

    /// Adds the keys of the arrival's rows, and room for its line.
    fn expect_rows(&mut self, new: &Bringing) -> Result<(), AllocError>
        ensures held { self.new.held ≡ self.old.held }
        ensures arrivals { self.new.arrivals ≡ self.old.arrivals }
        ensures notes { self.new.notes.items ≡ self.old.notes.items }
        ensures room { OnOk result (vec_len self.new.notes < vec_capacity self.new.notes) }
        ensures grows { Grows self.old.waiting self.new.waiting }
        ensures there { OnOk result (AreExpected new.now.uid new.now.rows.items self.new.waiting) }
    {
        expect(&mut self.waiting, &new.uid, new.rows.as_slice())?;
        self.notes.reserve(1)?;
        Ok(())
    }

    /// The same, where the keys are there and there is room for the line.
    fn bring(&mut self, new: Bringing) -> Result<(), AllocError>
        requires rows { T (is_sorted text_cmp new.rows.items) }
        requires room { vec_len self.old.notes < vec_capacity self.old.notes }
        requires own { new.arrival.1 ≡ new.uid }
        ensures ok { OnOk result (HasBrought self.old new self.new) }
        ensures err { OnErr result (AreSameParts self.old self.new) }
        ensures ordered { tree.IsOrdered text_cmp self.old.held
            → tree.IsOrdered text_cmp self.new.held }
        ensures waiting { self.new.waiting ≡ self.old.waiting }
    {
        if self.held.contains_key(&new.uid) {
            return self.bring_known(new);
        }
        self.bring_new(new)
    }

    /// The arrival of a uid that is known: what it has changes once nothing is left to fail.
    fn bring_known(&mut self, new: Bringing) -> Result<(), AllocError>
        requires rows { T (is_sorted text_cmp new.rows.items) }
        requires room { vec_len self.old.notes < vec_capacity self.old.notes }
        requires known { IsSome (tree.get text_cmp self.old.held new.uid) }
        ensures ok { OnOk result (HasBrought self.old new self.new) }
        ensures err { OnErr result (AreSameParts self.old self.new) }
        ensures ordered { tree.IsOrdered text_cmp self.old.held
            → tree.IsOrdered text_cmp self.new.held }
        ensures waiting { self.new.waiting ≡ self.old.waiting }
    {
        let (arrival, rest) = parted(new);
        match put_arrival(&mut self.arrivals, arrival) {
            Ok(()) => {
                self.take_rest(rest);
                Ok(())
            }
            Err(fault) => Err(fault),
        }
    }

    /// What is left of it. Nothing fails here, so that nothing is let go by halves.
    fn take_rest(&mut self, rest: FurtherArrival)
        requires rows { T (is_sorted text_cmp rest.rows.items) }
        requires room { vec_len self.old.notes < vec_capacity self.old.notes }
        requires known { IsSome (tree.get text_cmp self.old.held rest.uid) }
        ensures taken { TakesAt self.old.held rest.uid rest.rows.items rest.keep rest.body
            self.new.held }
        ensures notes { self.new.notes.items ≡ self.old.notes.items ++ rest.note ∷ [] }
        ensures arrivals { self.new.arrivals ≡ self.old.arrivals }
        ensures waiting { self.new.waiting ≡ self.old.waiting }
        ensures ordered { tree.IsOrdered text_cmp self.new.held }
    {
        let FurtherArrival {
            uid,
            rows,
            keep,
            body,
            note,
        } = rest;
        take_known(&mut self.held, &uid, rows, keep, body);
        write(&mut self.notes, note);
    }

    /// The first arrival of a uid at all. It is taken out again where the arrival has no room.
    fn bring_new(&mut self, new: Bringing) -> Result<(), AllocError>
        requires rows { T (is_sorted text_cmp new.rows.items) }
        requires room { vec_len self.old.notes < vec_capacity self.old.notes }
        requires unknown { tree.get text_cmp self.old.held new.uid ≡ None }
        requires own { new.arrival.1 ≡ new.uid }
        ensures ok { OnOk result (HasBrought self.old new self.new) }
        ensures err { OnErr result (AreSameParts self.old self.new) }
        ensures ordered { tree.IsOrdered text_cmp self.old.held
            → tree.IsOrdered text_cmp self.new.held }
        ensures waiting { self.new.waiting ≡ self.old.waiting }
    {
        let (arrival, uid, entry, note) = first_of(new);
        match put_entry(&mut self.held, uid, entry) {
            Ok(()) => self.arrive(arrival, note),
            Err(fault) => Err(fault),
        }
    }

    /// The arrival of an entry that was just put in, which is taken out again where the arrival has
    /// no room.
    fn arrive(&mut self, arrival: (Text, Text), note: JournalLine) -> Result<(), AllocError>
        requires room { vec_len self.old.notes < vec_capacity self.old.notes }
        ensures ok { OnOk result (HasArrived self.old arrival note self.new) }
        ensures err { OnErr result (IsTakenOut self.old arrival.1 self.new) }
        ensures ordered { tree.IsOrdered text_cmp self.old.held
            → tree.IsOrdered text_cmp self.new.held }
        ensures waiting { self.new.waiting ≡ self.old.waiting }
    {
        match self.arrivals.insert(arrival) {
            Ok(_) => {
                write(&mut self.notes, note);
                Ok(())
            }
            Err(refused) => {
                self.held.remove(&refused.value.1);
                Err(AllocError)
            }
        }
    }

    /// Moves a row on that was due since that moment, with a line; without memory nothing changes,
    /// but for keys that nobody misses.
    pub fn try_move(
        &mut self,
        uid: &Text,
        dest: &Text,
        due: u64,
        progress: Progress,
        note: JournalLine,
    ) -> Result<(), AllocError>
        requires there { IsSome (row_in (tree.get text_cmp self.old.held uid.now) dest.now) }
        ensures ok { OnOk result (IsMoved self.old uid.now dest.now progress note self.new) }
        ensures err { OnErr result (AreSameParts self.old self.new) }
        ensures ordered { tree.IsOrdered text_cmp self.old.held
            → tree.IsOrdered text_cmp self.new.held }
        ensures covers { Covers self.old.waiting self.old.held
            → Covers self.new.waiting self.new.held }
    {
        match self.expect_row(uid, dest, due, progress) {
            Ok(gone) => {
                self.move_on(uid, dest, progress, &gone, note);
                Ok(())
            }
            Err(fault) => Err(fault),
        }
    }

    /// Adds the key of the row as it will be, and room for a line. The answer is the key of the row
    /// as it was.
    fn expect_row(
        &mut self,
        uid: &Text,
        dest: &Text,
        due: u64,
        progress: Progress,
    ) -> Result<Due, AllocError>
        ensures held { self.new.held ≡ self.old.held }
        ensures arrivals { self.new.arrivals ≡ self.old.arrivals }
        ensures notes { self.new.notes.items ≡ self.old.notes.items }
        ensures room { OnOk result (vec_len self.new.notes < vec_capacity self.new.notes) }
        ensures grows { Grows self.old.waiting self.new.waiting }
        ensures there { OnOk result (IsExpected uid.now dest.now progress self.new.waiting) }
    {
        expect_one(&mut self.waiting, uid, dest, progress)?;
        self.notes.reserve(1)?;
        let gone = due_of(dest, due, uid)?;
        Ok(gone)
    }

    /// Moves the row on, where its key is there and there is room for the line.
    fn move_on(
        &mut self,
        uid: &Text,
        dest: &Text,
        progress: Progress,
        gone: &Due,
        note: JournalLine,
    )
        requires there { IsSome (row_in (tree.get text_cmp self.old.held uid.now) dest.now) }
        requires room { vec_len self.old.notes < vec_capacity self.old.notes }
        requires expected { IsExpected uid.now dest.now progress self.old.waiting }
        ensures moved { IsMoved self.old uid.now dest.now progress note self.new }
        ensures ordered { tree.IsOrdered text_cmp self.new.held }
        ensures covers { Covers self.old.waiting self.old.held
            → Covers self.new.waiting self.new.held }
    {
        move_row(&mut self.held, uid, dest, progress);
        forget(&mut self.waiting, &self.held, gone);
        write(&mut self.notes, note);
    }

    /// Drops a row that is there, with a line, and lets those go who brought the uid; without
    /// memory nothing changes, but for keys that nobody misses.
    pub fn try_drop(&mut self, uid: &Text, dest: &Text, note: JournalLine) -> Result<(), AllocError>
        requires there { IsSome (row_in (tree.get text_cmp self.old.held uid.now) dest.now) }
        ensures ok { OnOk result (IsDroppedInParts self.old uid.now dest.now note self.new) }
        ensures err { OnErr result (AreSameParts self.old self.new) }
        ensures ordered { tree.IsOrdered text_cmp self.old.held
            → tree.IsOrdered text_cmp self.new.held }
        ensures covers { Covers self.old.waiting self.old.held
            → Covers self.new.waiting self.new.held }
    {
        match self.try_move(uid, dest, 0, Progress::Dropped, note) {
            Ok(()) => {
                let_callers_go(&mut self.arrivals, uid);
                Ok(())
            }
            Err(fault) => Err(fault),
        }
    }

    /// Lets all that a uid has go, with a line; without memory nothing changes.
    pub fn try_forget(&mut self, uid: &Text, note: JournalLine) -> Result<(), AllocError>
        ensures ok { OnOk result (IsForgottenInParts self.old uid.now note self.new) }
        ensures err { OnErr result (AreSameParts self.old self.new) }
        ensures ordered { tree.IsOrdered text_cmp self.old.held
            → tree.IsOrdered text_cmp self.new.held }
        ensures waiting { self.new.waiting ≡ self.old.waiting }
    {
        self.notes.reserve(1)?;
        take_out(&mut self.held, uid);
        let_callers_go(&mut self.arrivals, uid);
        write(&mut self.notes, note);
        Ok(())
    }

    /// Lets arrivals and rows that are done or dropped go, with a line; without memory nothing
    /// changes.
    pub fn try_adopt(&mut self) -> Result<(), AllocError>
        ensures ok { OnOk result (IsAdoptedInParts self.old self.new) }
        ensures err { OnErr result (AreSameParts self.old self.new) }
        ensures ordered { tree.IsOrdered text_cmp self.old.held
            → tree.IsOrdered text_cmp self.new.held }
        ensures waiting { self.new.waiting ≡ self.old.waiting }
    {
        self.notes.reserve(1)?;
        prune_all(&mut self.held);
        self.arrivals.clear();
        write(&mut self.notes, JournalLine::Adoption);
        Ok(())
    }
}

/// Adds a line; without memory nothing changes.
fn add<T: Drop>(notes: &mut Vec<T>, note: T) -> Result<(), AllocError>
    ensures ok { OnOk result (notes.new.items ≡ notes.old.items ++ note ∷ []) }
    ensures err { OnErr result (notes.new.items ≡ notes.old.items) }
{
    notes.reserve(1)?;
    write(notes, note);
    Ok(())
}

/// Adds a line, for which there is room.
fn write<T: Drop>(notes: &mut Vec<T>, note: T)
    requires { vec_len notes.old < vec_capacity notes.old }
    ensures { notes.new.items ≡ notes.old.items ++ note ∷ [] }
{
    let _ = notes.push(note);
}

/// The arrival apart from the rest.
fn parted(new: Bringing) -> ((Text, Text), FurtherArrival)
    ensures arrival { result.0 ≡ new.arrival }
    ensures rest { IsRest new result.1 }
{
    let rest = FurtherArrival {
        uid: new.uid,
        rows: new.rows,
        keep: new.keep,
        body: new.body,
        note: new.note,
    };
    (new.arrival, rest)
}

/// The arrival, the uid, its entry and the line, where the uid is new.
fn first_of(new: Bringing) -> ((Text, Text), Text, Held, JournalLine)
    requires { T (is_sorted text_cmp new.rows.items) }
    ensures arrival { result.0 ≡ new.arrival }
    ensures uid { result.1 ≡ new.uid }
    ensures entry { IsTakenAgain None new.instance new.rows.items new.keep new.body result.2 }
    ensures note { result.3 ≡ new.note }
{
    let entry = first(new.instance, new.rows, new.keep, new.body);
    (new.arrival, new.uid, entry, new.note)
}

/// Notes who brought what; without memory nothing changes.
fn put_arrival(
    arrivals: &mut BTreeSet<(Text, Text)>,
    arrival: (Text, Text),
) -> Result<(), AllocError>
    ensures ok { OnOk result (IsOneMore arrivals.old arrival arrivals.new) }
    ensures err { OnErr result (AreAlike arrivals.old arrivals.new) }
{
    arrivals.insert(arrival)?;
    Ok(())
}

/// Puts the entry of a new uid in; without memory nothing changes.
fn put_entry<V: Drop>(held: &mut BTreeMap<Text, V>, uid: Text, entry: V) -> Result<(), AllocError>
    ensures ok { OnOk result
        ((other : Words)
        → tree.get text_cmp held.new other
        ≡ cond (tree.is_at (text_cmp uid) other) (Some entry) (tree.get text_cmp held.old other)) }
    ensures err { OnErr result (held.new.entries ≡ held.old.entries) }
    ensures was_ordered { tree.IsOrdered text_cmp held.old }
    ensures ordered { tree.IsOrdered text_cmp held.new }
{
    match held.insert(uid, entry) {
        Ok(_) => Ok(()),
        Err(_) => Err(AllocError),
    }
}

/// An arrival of a uid that is there.
fn take_known(
    held: &mut BTreeMap<Text, Held>,
    uid: &Text,
    rows: Vec<(Text, Progress)>,
    keep: bool,
    body: Octets,
)
    requires rows { T (is_sorted text_cmp rows.items) }
    requires known { IsSome (tree.get text_cmp held.old uid.now) }
    ensures taken { TakesAt held.old uid.now rows.items keep body held.new }
    ensures ordered { tree.IsOrdered text_cmp held.new }
{
    if let Some(entry) = held.get_mut(uid) {
        entry.take(rows, keep, body);
    }
}

/// Moves a row on that is there.
fn move_row(held: &mut BTreeMap<Text, Held>, uid: &Text, dest: &Text, progress: Progress)
    requires { IsSome (row_in (tree.get text_cmp held.old uid.now) dest.now) }
    ensures moved { MovesAt held.old uid.now dest.now progress held.new }
    ensures ordered { tree.IsOrdered text_cmp held.new }
{
    if let Some(entry) = held.get_mut(uid) {
        entry.move_on(dest, progress);
    }
}

/// Lets the rows of all uids go that are done or dropped.
fn prune_all(held: &mut BTreeMap<Text, Held>)
    ensures pruned { PrunesAll held.old held.new }
    ensures ordered { tree.IsOrdered text_cmp held.new }
{
    held.retain(|_, entry| {
        entry.prune();
        true
    });
}

/// What the uid has leaves.
fn take_out(held: &mut BTreeMap<Text, Held>, uid: &Text)
    ensures out { IsSetAt held.old uid.now None held.new }
    ensures ordered { tree.IsOrdered text_cmp held.new }
{
    held.remove(uid);
}

/// Whether it is an arrival of the uid.
fn is_of(arrival: &(Text, Text), uid: &Text) -> bool
    ensures { result ≡ eq_by_cmp text_cmp arrival.now.1 uid.now }
{
    arrival.1.cmp(uid).is_eq()
}

/// Those who brought the uid leave.
fn let_callers_go(arrivals: &mut BTreeSet<(Text, Text)>, uid: &Text)
    ensures { (key : Pair)
        → sorted.contains pair_cmp arrivals.new key
        ≡ (sorted.contains pair_cmp arrivals.old key && not (eq_by_cmp text_cmp key.1 uid.now)) }
{
    arrivals.retain(|arrival| !is_of(arrival, uid));
}
