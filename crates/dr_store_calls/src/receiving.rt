//! Arrivals, whatever the tables have of them.
ghost use Rattle.std.specs.Prelude.{◌≡◌, ◌≤◌, ◌==◌, ◌^◌, ◌++◌, ◌∷◌, [], ◌&&◌, cond, length, not};
ghost use Rattle.std.specs.Prelude.{IfOk, OnOk, ℕ, false};
ghost use Rattle.sqlite.specs.Held.{state};
ghost use Rattle.dr_ledger.specs.Replies.{Reads};
ghost use Rattle.dr_site.specs.Parts.{Part};
ghost use Rattle.dr_store_schema.specs.Books.{rows_of};
ghost use Rattle.dr_store_changes.specs.Changes.{HasNeither};
ghost use Rattle.dr_store_calls.specs.Calling.{Looked, Nothing};
ghost use Rattle.dr_store_calls.specs.Knowing.{IsWhatIsKnown, IsThere, chosen, is_chosen};
ghost use Rattle.dr_store_calls.specs.Knowing.{taking_absent, taking_there};
ghost use Rattle.dr_store_calls.specs.Receiving.{AreTargetsOf, IsDelivered};
ghost use Rattle.dr_store_calls.specs.Receiving.{IsFoundFor, IsThereFor, Receives};
ghost use Rattle.dr_store_calls.specs.Shelving.{IsPut};
ghost use Rattle.dr_store_shelf.specs.Shelves.{KeepsCells, ReadsAsBefore};

use crate::arriving::{bring_item, repeat};
use crate::bringing::{Delivery, FirstArrival, Reception};
use crate::knowing::{Known, know};
use dr_base::{Seq, Text};
use dr_ledger::{Arrived, LedgerFault, Progress};
use dr_route::Targets;
use dr_site::Site;
use dr_store_changes::Taking;
use dr_store_reads::{find_arrival, find_kept, find_row};
use dr_store_shelf::Shelf;
use sqlite::{Alter, Connection};
use std::alloc::{AllocError, Global};

/// What the site does with what is brought.
fn targets_of(alloc: Global, came: &Delivery<'_>) -> Result<Targets, AllocError>
    ensures { IfOk result (AreTargetsOf came.now) }
{
    // What a site accepts tells that it is one; so it sends nothing to the local caller.
    let _accepts = came.site.accepts();
    match came.site.targets(alloc, came.caller, &came.instance.key) {
        Ok(targets) => Ok(targets),
        Err(error) => Err(error),
    }
}

/// Whether a destination with this row is one of those that are looked for: those for which the row
/// was dropped, or else those to which there is none.
fn is_such(dropped: bool, row: Option<Progress>) -> bool
    ensures { result ≡ is_chosen dropped row }
{
    match row {
        Some(Progress::Dropped) => dropped,
        Some(Progress::Done) => false,
        Some(Progress::Held(_)) => false,
        Some(Progress::Waiting { .. }) => false,
        None => !dropped,
    }
}

/// These destinations, and this one if it is one of those that are looked for.
fn with_chosen(dests: Seq<Text>, dest: &Text, is_one: bool) -> Result<Seq<Text>, LedgerFault>
    ensures { Reads result (λ all. all ≡ dests ++ cond is_one (dest.now ∷ []) []) }
{
    let mut all = dests;
    if !is_one {
        return Ok(all);
    }
    all.push(dest.clone()?)?;
    Ok(all)
}

/// The same, where the row of the destination is looked up.
fn chosen_one<'x, S: Alter>(
    conn: &mut Connection<S>,
    uid: &'x Text,
    dest: &'x Text,
    dests: Seq<Text>,
    dropped: bool,
) -> Result<Seq<Text>, LedgerFault>
    ensures looked { (n : ℕ) (part : Part)
        → Looked n part result (state S.Store conn.old) (state S.Store conn.new) (λ base all.
        all ≡ dests ++ chosen dropped (rows_of base) uid.now (dest.now ∷ [])) }
    ensures idle { conn.old.in_transaction ≡ false → conn.new.in_transaction ≡ false }
{
    match find_row(conn, uid, dest) {
        Ok(row) => with_chosen(dests, dest, is_such(dropped, row)),
        Err(fault) => Err(fault),
    }
}

/// Of these destinations those for which the instance's row was dropped, or else those to which it
/// has none.
fn chosen_from<'x, S: Alter>(
    conn: &mut Connection<S>,
    alloc: Global,
    uid: &'x Text,
    to: &'x [Text],
    dropped: bool,
) -> Result<Seq<Text>, LedgerFault>
    ensures looked { (n : ℕ) (part : Part)
        → Looked n part result (state S.Store conn.old) (state S.Store conn.new)
        (λ base dests. dests ≡ chosen dropped (rows_of base) uid.now to.now) }
    ensures idle { conn.old.in_transaction ≡ false → conn.new.in_transaction ≡ false }
{
    let mut dests = Seq::new(alloc);
    for dest in to {
        match chosen_one(conn, uid, dest, dests, dropped) {
            Ok(more) => dests = more,
            Err(fault) => return Err(fault),
        }
    }
    Ok(dests)
}

/// Whether what is to be kept is kept from now on: it is, where it wasn't before.
fn keeps_now(keep: bool, kept: bool) -> bool
    ensures { result ≡ (keep && not kept) }
{
    keep && !kept
}

/// Whether there is neither a destination of the one kind nor of the other.
fn are_none(again: &Seq<Text>, dests: &Seq<Text>) -> bool
    ensures { result ≡ ((length again.now == 0) && (length dests.now == 0)) }
{
    again.is_empty() && dests.is_empty()
}

/// How an instance that is there is taken in: where its data set isn't there, it comes again for an
/// instance that is to be kept, has a new row, or one that waits anew.
fn taking_of(whole: bool, keep: bool, none: bool) -> Taking
    ensures { result ≡ taking_there whole keep none }
{
    if whole || (!keep && none) {
        return Taking::Nothing;
    }
    Taking::Again
}

/// What a first arrival of an instance that is there needs: what the site does with it, and what is
/// looked up of its targets.
fn find_first<'x, S: Alter>(
    conn: &mut Connection<S>,
    alloc: Global,
    came: &'x Delivery<'x>,
) -> Result<FirstArrival, LedgerFault>
    ensures targets { IfOk result (λ first. AreTargetsOf came.now first.targets) }
    ensures looked { (n : ℕ) (part : Part)
        → Looked n part result (state S.Store conn.old) (state S.Store conn.new)
        (IsFoundFor came.now.instance.now.uid) }
    ensures idle { conn.old.in_transaction ≡ false → conn.new.in_transaction ≡ false }
{
    let Ok(targets) = targets_of(alloc, came) else {
        return Err(LedgerFault::Memory);
    };
    let uid = &came.instance.uid;
    let dests = chosen_from(conn, alloc, uid, targets.to.as_slice(), false)?;
    let again = chosen_from(conn, alloc, uid, targets.to.as_slice(), true)?;
    let kept = find_kept(conn, uid)?;
    Ok(FirstArrival {
        targets,
        again,
        dests,
        kept,
    })
}

/// Takes the first arrival of an instance that is there, from a caller that has not brought it, all
/// of which was found.
fn bring_there<'x, S: Alter, B: Shelf>(
    conn: &mut Connection<S>,
    shelf: &mut B,
    alloc: Global,
    came: &'x Delivery<'x>,
    whole: bool,
    first: &'x FirstArrival,
) -> Result<Arrived, LedgerFault>
    requires idle { conn.old.in_transaction ≡ false }
    requires delivered { IsDelivered came.now }
    requires targets { AreTargetsOf came.now first.now.targets }
    ensures called { Receives
        (IsPut (shelf.new ≡ shelf.old) (B.Shelf.uses shelf.old) (B.Shelf.uses shelf.new)
        (B.Shelf.stands shelf.new) (B.Shelf.apart (B.Shelf.named shelf.old)) came.now.body.now)
        came.now result (state S.Store conn.old) (state S.Store conn.new)
        (λ base. IsThereFor came.now whole false base
        × IsFoundFor came.now.instance.now.uid base first.now) }
    ensures keeps { KeepsCells (B.Shelf.uses shelf.old) (B.Shelf.stands shelf.old)
        (B.Shelf.uses shelf.new) (B.Shelf.stands shelf.new) }
    ensures reads { B.Shelf.is_clean shelf.new
        → ReadsAsBefore (B.Shelf.uses shelf.old) (B.Shelf.read_of shelf.old)
        (B.Shelf.read_of shelf.new) }
    ensures named { B.Shelf.named shelf.new ≡ B.Shelf.named shelf.old }
    ensures clean { B.Shelf.is_clean shelf.new → B.Shelf.is_clean shelf.old }
    ensures number { OnOk result (came.now.n ≤ 2 ^ 62) }
    ensures idle { conn.new.in_transaction ≡ false }
{
    let targets = &first.targets;
    let keeps = keeps_now(targets.keep, first.kept);
    let none = are_none(&first.again, &first.dests);
    let taking = taking_of(whole, targets.keep, none);
    let reception = Reception {
        taking,
        again: &first.again,
        dests: &first.dests,
        keeps,
    };
    bring_item(conn, shelf, alloc, came, targets, &reception)
}

/// Takes the first arrival of an instance that is there, from a caller that has not brought it.
fn arrive_first<'x, S: Alter, B: Shelf>(
    conn: &mut Connection<S>,
    shelf: &mut B,
    alloc: Global,
    came: &'x Delivery<'x>,
    whole: bool,
) -> Result<Arrived, LedgerFault>
    requires idle { conn.old.in_transaction ≡ false }
    requires delivered { IsDelivered came.now }
    ensures called { Receives
        (IsPut (shelf.new ≡ shelf.old) (B.Shelf.uses shelf.old) (B.Shelf.uses shelf.new)
        (B.Shelf.stands shelf.new) (B.Shelf.apart (B.Shelf.named shelf.old)) came.now.body.now)
        came.now result (state S.Store conn.old) (state S.Store conn.new)
        (IsThereFor came.now whole false) }
    ensures keeps { KeepsCells (B.Shelf.uses shelf.old) (B.Shelf.stands shelf.old)
        (B.Shelf.uses shelf.new) (B.Shelf.stands shelf.new) }
    ensures reads { B.Shelf.is_clean shelf.new
        → ReadsAsBefore (B.Shelf.uses shelf.old) (B.Shelf.read_of shelf.old)
        (B.Shelf.read_of shelf.new) }
    ensures named { B.Shelf.named shelf.new ≡ B.Shelf.named shelf.old }
    ensures clean { B.Shelf.is_clean shelf.new → B.Shelf.is_clean shelf.old }
    ensures number { OnOk result (came.now.n ≤ 2 ^ 62) }
    ensures idle { conn.new.in_transaction ≡ false }
{
    match find_first(conn, alloc, came) {
        Ok(first) => bring_there(conn, shelf, alloc, came, whole, &first),
        Err(fault) => Err(fault),
    }
}

/// Takes the arrival of an instance that is there; whether the caller has brought it is looked up.
fn arrive_there<'x, S: Alter, B: Shelf>(
    conn: &mut Connection<S>,
    shelf: &mut B,
    alloc: Global,
    came: &'x Delivery<'x>,
    whole: bool,
) -> Result<Arrived, LedgerFault>
    requires idle { conn.old.in_transaction ≡ false }
    requires delivered { IsDelivered came.now }
    ensures called { Receives
        (IsPut (shelf.new ≡ shelf.old) (B.Shelf.uses shelf.old) (B.Shelf.uses shelf.new)
        (B.Shelf.stands shelf.new) (B.Shelf.apart (B.Shelf.named shelf.old)) came.now.body.now)
        came.now result (state S.Store conn.old) (state S.Store conn.new) (λ base.
        IsThere base came.now.instance.now whole) }
    ensures keeps { KeepsCells (B.Shelf.uses shelf.old) (B.Shelf.stands shelf.old)
        (B.Shelf.uses shelf.new) (B.Shelf.stands shelf.new) }
    ensures reads { B.Shelf.is_clean shelf.new
        → ReadsAsBefore (B.Shelf.uses shelf.old) (B.Shelf.read_of shelf.old)
        (B.Shelf.read_of shelf.new) }
    ensures named { B.Shelf.named shelf.new ≡ B.Shelf.named shelf.old }
    ensures clean { B.Shelf.is_clean shelf.new → B.Shelf.is_clean shelf.old }
    ensures number { OnOk result (came.now.n ≤ 2 ^ 62) }
    ensures idle { conn.new.in_transaction ≡ false }
{
    match find_arrival(conn, came.caller, &came.instance.uid) {
        Ok(brought) => {
            if brought {
                return repeat(conn, came, whole);
            }
            arrive_first(conn, shelf, alloc, came, whole)
        }
        Err(fault) => Err(fault),
    }
}

/// How an instance that isn't there is taken in: with its data set, where it is to be kept or has a
/// destination.
fn taking_new(keep: bool, none: bool) -> Taking
    ensures { result ≡ taking_absent keep none }
{
    if !keep && none {
        return Taking::Bare;
    }
    Taking::New
}

/// Takes the arrival of an instance that isn't there, by what the site does with it.
fn arrive_new<'x, S: Alter, B: Shelf>(
    conn: &mut Connection<S>,
    shelf: &mut B,
    alloc: Global,
    came: &'x Delivery<'x>,
) -> Result<Arrived, LedgerFault>
    requires idle { conn.old.in_transaction ≡ false }
    requires delivered { IsDelivered came.now }
    ensures called { Receives
        (IsPut (shelf.new ≡ shelf.old) (B.Shelf.uses shelf.old) (B.Shelf.uses shelf.new)
        (B.Shelf.stands shelf.new) (B.Shelf.apart (B.Shelf.named shelf.old)) came.now.body.now)
        came.now result (state S.Store conn.old) (state S.Store conn.new)
        (HasNeither came.now.instance.now.uid) }
    ensures keeps { KeepsCells (B.Shelf.uses shelf.old) (B.Shelf.stands shelf.old)
        (B.Shelf.uses shelf.new) (B.Shelf.stands shelf.new) }
    ensures reads { B.Shelf.is_clean shelf.new
        → ReadsAsBefore (B.Shelf.uses shelf.old) (B.Shelf.read_of shelf.old)
        (B.Shelf.read_of shelf.new) }
    ensures named { B.Shelf.named shelf.new ≡ B.Shelf.named shelf.old }
    ensures clean { B.Shelf.is_clean shelf.new → B.Shelf.is_clean shelf.old }
    ensures number { OnOk result (came.now.n ≤ 2 ^ 62) }
    ensures idle { conn.new.in_transaction ≡ false }
{
    match targets_of(alloc, came) {
        Ok(targets) => {
            let none = Seq::new(alloc);
            let taking = taking_new(targets.keep, targets.to.is_empty());
            let reception = Reception {
                taking,
                again: &none,
                dests: &targets.to,
                keeps: targets.keep,
            };
            bring_item(conn, shelf, alloc, came, &targets, &reception)
        }
        Err(_) => Err(LedgerFault::Memory),
    }
}

/// Takes an arrival by what is known of its uid.
fn arrive_by<S: Alter, B: Shelf>(
    conn: &mut Connection<S>,
    shelf: &mut B,
    alloc: Global,
    came: &Delivery<'_>,
    known: Known,
) -> Result<Arrived, LedgerFault>
    requires idle { conn.old.in_transaction ≡ false }
    requires delivered { IsDelivered came.now }
    ensures called { Receives
        (IsPut (shelf.new ≡ shelf.old) (B.Shelf.uses shelf.old) (B.Shelf.uses shelf.new)
        (B.Shelf.stands shelf.new) (B.Shelf.apart (B.Shelf.named shelf.old)) came.now.body.now)
        came.now result (state S.Store conn.old) (state S.Store conn.new) (λ base.
        IsWhatIsKnown base came.now.instance.now known) }
    ensures keeps { KeepsCells (B.Shelf.uses shelf.old) (B.Shelf.stands shelf.old)
        (B.Shelf.uses shelf.new) (B.Shelf.stands shelf.new) }
    ensures reads { B.Shelf.is_clean shelf.new
        → ReadsAsBefore (B.Shelf.uses shelf.old) (B.Shelf.read_of shelf.old)
        (B.Shelf.read_of shelf.new) }
    ensures named { B.Shelf.named shelf.new ≡ B.Shelf.named shelf.old }
    ensures clean { B.Shelf.is_clean shelf.new → B.Shelf.is_clean shelf.old }
    ensures number { OnOk result (came.now.n ≤ 2 ^ 62) }
    ensures idle { conn.new.in_transaction ≡ false }
{
    match known {
        Known::No => arrive_new(conn, shelf, alloc, came),
        Known::Other => Err(LedgerFault::Conflict),
        Known::Same { whole } => arrive_there(conn, shelf, alloc, came, whole),
    }
}

/// Takes an arrival that the certificate has a line for; what the tables have of its uid is looked
/// up.
///
/// Errors: Conflict, Store and Memory.
pub fn receive<S: Alter, B: Shelf>(
    conn: &mut Connection<S>,
    shelf: &mut B,
    alloc: Global,
    came: &Delivery<'_>,
) -> Result<Arrived, LedgerFault>
    requires idle { conn.old.in_transaction ≡ false }
    requires delivered { IsDelivered came.now }
    ensures called { Receives
        (IsPut (shelf.new ≡ shelf.old) (B.Shelf.uses shelf.old) (B.Shelf.uses shelf.new)
        (B.Shelf.stands shelf.new) (B.Shelf.apart (B.Shelf.named shelf.old)) came.now.body.now)
        came.now result (state S.Store conn.old) (state S.Store conn.new) Nothing }
    ensures keeps { KeepsCells (B.Shelf.uses shelf.old) (B.Shelf.stands shelf.old)
        (B.Shelf.uses shelf.new) (B.Shelf.stands shelf.new) }
    ensures reads { B.Shelf.is_clean shelf.new
        → ReadsAsBefore (B.Shelf.uses shelf.old) (B.Shelf.read_of shelf.old)
        (B.Shelf.read_of shelf.new) }
    ensures named { B.Shelf.named shelf.new ≡ B.Shelf.named shelf.old }
    ensures clean { B.Shelf.is_clean shelf.new → B.Shelf.is_clean shelf.old }
    ensures number { OnOk result (came.now.n ≤ 2 ^ 62) }
    ensures idle { conn.new.in_transaction ≡ false }
{
    match know(conn, alloc, came.instance) {
        Ok(known) => arrive_by(conn, shelf, alloc, came, known),
        Err(fault) => Err(fault),
    }
}
