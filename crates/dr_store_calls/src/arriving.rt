//! Arrivals.
ghost use Rattle.std.specs.Prelude.{◌≡◌, ◌≤◌, ◌^◌, ◌++◌, IfOk, OnOk, false, true};
ghost use Rattle.sqlite.specs.Held.{state};
ghost use Rattle.dr_store_changes.specs.Bringing.{names_for};
ghost use Rattle.dr_store_calls.specs.Knowing.{FitsTables};
ghost use Rattle.dr_store_calls.specs.Receiving.{AreTargetsOf, IsCellTaken, IsDelivered};
ghost use Rattle.dr_store_calls.specs.Receiving.{ComesNone, IsThereFor, ReceivesAs, comes};
ghost use Rattle.dr_store_calls.specs.Shelving.{IsPut};
ghost use Rattle.dr_store_shelf.specs.Shelves.{KeepsCells, ReadsAsBefore};

use crate::bringing::{Delivery, Reception};
use crate::shelving::shelf_fault;
use crate::writing::written;
use dr_base::{Seq, Text};
use dr_ledger::{Arrived, LedgerFault};
use dr_route::Targets;
use dr_store_changes::{Arriving, Repeating, Taking};
use dr_store_shelf::Shelf;
use sqlite::{Alter, Connection};
use std::alloc::{AllocError, Global};

/// These names too.
fn add_names(all: &mut Seq<Text>, names: &[Text]) -> Result<(), AllocError>
    ensures { OnOk result (all.new ≡ all.old ++ names.now) }
{
    for name in names {
        all.push(name.clone()?)?;
    }
    Ok(())
}

/// The targets of a line, and `-` where it is kept.
fn names_of(alloc: Global, targets: &Targets) -> Result<Seq<Text>, AllocError>
    ensures { IfOk result (λ names. names ≡ names_for targets.now.keep targets.now.to) }
{
    let mut names = Seq::new(alloc);
    if targets.keep {
        names.push(Text::copy_of(alloc, b"-")?)?;
        add_names(&mut names, targets.to.as_slice())?;
        return Ok(names);
    }
    add_names(&mut names, targets.to.as_slice())?;
    Ok(names)
}

/// Notes another arrival from a caller that brought the instance before.
pub fn repeat<'x, S: Alter>(
    conn: &mut Connection<S>,
    came: &'x Delivery<'x>,
    whole: bool,
) -> Result<Arrived, LedgerFault>
    requires idle { conn.old.in_transaction ≡ false }
    requires delivered { IsDelivered came.now }
    ensures called { ReceivesAs ComesNone Arrived.Again came.now result (state S.Store conn.old)
        (state S.Store conn.new) (IsThereFor came.now whole true) }
    ensures number { OnOk result (came.now.n ≤ 2 ^ 62) }
    ensures idle { conn.new.in_transaction ≡ false }
{
    let change = Repeating {
        caller: came.caller,
        item: came.instance,
        moment: came.moment,
    };
    match written(conn, came.n, &change) {
        Ok(()) => Ok(Arrived::Again),
        Err(fault) => Err(fault),
    }
}

/// Takes a first arrival, all of which was found, by this cell.
fn bring<'x, S: Alter>(
    conn: &mut Connection<S>,
    came: &'x Delivery<'x>,
    cell: &'x [u8],
    targets: &'x Targets,
    names: &'x [Text],
    reception: &'x Reception<'x>,
) -> Result<Arrived, LedgerFault>
    requires idle { conn.old.in_transaction ≡ false }
    requires delivered { IsDelivered came.now }
    requires targets { AreTargetsOf came.now targets.now }
    requires names { names.now ≡ names_for targets.now.keep targets.now.to }
    ensures called { ReceivesAs (IsCellTaken reception.now.taking cell.now) Arrived.New came.now
        result (state S.Store conn.old) (state S.Store conn.new)
        (FitsTables reception.now.taking came.now.caller.now came.now.instance.now targets.now.to
        targets.now.keep reception.now.again.now reception.now.dests.now reception.now.keeps) }
    ensures number { OnOk result (came.now.n ≤ 2 ^ 62) }
    ensures idle { conn.new.in_transaction ≡ false }
{
    let again = reception.again.as_slice();
    let dests = reception.dests.as_slice();
    let change = Arriving {
        caller: came.caller,
        item: came.instance,
        body: cell,
        taking: reception.taking,
        again,
        dests,
        keeps: reception.keeps,
        names,
        moment: came.moment,
    };
    match written(conn, came.n, &change) {
        Ok(()) => Ok(Arrived::New),
        Err(fault) => Err(fault),
    }
}

/// Whether a data set comes with an instance that is taken so.
fn does_come(taking: Taking) -> bool
    ensures { result ≡ comes taking }
{
    match taking {
        Taking::New => true,
        Taking::Bare => false,
        Taking::Again => true,
        Taking::Nothing => false,
    }
}

/// Takes a first arrival, all of which was found. If its data set comes, it is put on the shelf
/// first, and stands in the tables by the cell that the shelf gives.
fn put_and_bring<'x, S: Alter, B: Shelf>(
    conn: &mut Connection<S>,
    shelf: &mut B,
    came: &'x Delivery<'x>,
    targets: &'x Targets,
    names: &'x [Text],
    reception: &'x Reception<'x>,
) -> Result<Arrived, LedgerFault>
    requires idle { conn.old.in_transaction ≡ false }
    requires delivered { IsDelivered came.now }
    requires targets { AreTargetsOf came.now targets.now }
    requires names { names.now ≡ names_for targets.now.keep targets.now.to }
    ensures called { ReceivesAs
        (IsPut (shelf.new ≡ shelf.old) (B.Shelf.uses shelf.old) (B.Shelf.uses shelf.new)
        (B.Shelf.stands shelf.new) (B.Shelf.apart (B.Shelf.named shelf.old)) came.now.body.now)
        Arrived.New came.now result (state S.Store conn.old) (state S.Store conn.new)
        (FitsTables reception.now.taking came.now.caller.now came.now.instance.now targets.now.to
        targets.now.keep reception.now.again.now reception.now.dests.now reception.now.keeps) }
    ensures keeps { KeepsCells (B.Shelf.uses shelf.old) (B.Shelf.stands shelf.old)
        (B.Shelf.uses shelf.new) (B.Shelf.stands shelf.new) }
    ensures reads { B.Shelf.is_clean shelf.new
        → ReadsAsBefore (B.Shelf.uses shelf.old) (B.Shelf.read_of shelf.old)
        (B.Shelf.read_of shelf.new) }
    ensures named { B.Shelf.named shelf.new ≡ B.Shelf.named shelf.old }
    ensures clean { B.Shelf.is_clean shelf.new → B.Shelf.is_clean shelf.old }
    ensures number { OnOk result (came.now.n ≤ 2 ^ 62) }
    ensures idle { conn.new.in_transaction ≡ false }
{
    if !does_come(reception.taking) {
        return bring(conn, came, &[], targets, names, reception);
    }
    match shelf.put(came.body) {
        Ok(cell) => bring(conn, came, cell.bytes(came.body), targets, names, reception),
        Err(fault) => Err(shelf_fault(fault)),
    }
}

/// The same; its line's names are made first.
pub fn bring_item<'x, S: Alter, B: Shelf>(
    conn: &mut Connection<S>,
    shelf: &mut B,
    alloc: Global,
    came: &'x Delivery<'x>,
    targets: &'x Targets,
    reception: &'x Reception<'x>,
) -> Result<Arrived, LedgerFault>
    requires idle { conn.old.in_transaction ≡ false }
    requires delivered { IsDelivered came.now }
    requires targets { AreTargetsOf came.now targets.now }
    ensures called { ReceivesAs
        (IsPut (shelf.new ≡ shelf.old) (B.Shelf.uses shelf.old) (B.Shelf.uses shelf.new)
        (B.Shelf.stands shelf.new) (B.Shelf.apart (B.Shelf.named shelf.old)) came.now.body.now)
        Arrived.New came.now result (state S.Store conn.old) (state S.Store conn.new)
        (FitsTables reception.now.taking came.now.caller.now came.now.instance.now targets.now.to
        targets.now.keep reception.now.again.now reception.now.dests.now reception.now.keeps) }
    ensures keeps { KeepsCells (B.Shelf.uses shelf.old) (B.Shelf.stands shelf.old)
        (B.Shelf.uses shelf.new) (B.Shelf.stands shelf.new) }
    ensures reads { B.Shelf.is_clean shelf.new
        → ReadsAsBefore (B.Shelf.uses shelf.old) (B.Shelf.read_of shelf.old)
        (B.Shelf.read_of shelf.new) }
    ensures named { B.Shelf.named shelf.new ≡ B.Shelf.named shelf.old }
    ensures clean { B.Shelf.is_clean shelf.new → B.Shelf.is_clean shelf.old }
    ensures number { OnOk result (came.now.n ≤ 2 ^ 62) }
    ensures idle { conn.new.in_transaction ≡ false }
{
    match names_of(alloc, targets) {
        Ok(names) => put_and_bring(conn, shelf, came, targets, names.as_slice(), reception),
        Err(_) => Err(LedgerFault::Memory),
    }
}
