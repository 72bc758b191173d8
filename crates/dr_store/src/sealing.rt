//! Lines of the tables that leave for the ledger's past.
ghost use Rattle.std.specs.Prelude.{◌≡◌, ◌++◌, ◌+◌, [], ◌∷◌, false, IfErr, IfOk, List, OnErr, OnOk};
ghost use Rattle.std.specs.Prelude.{length, map as mapped, ℕ};
ghost use Rattle.sqlite.specs.Held.{state};
ghost use Rattle.dr_site.specs.Parts.{Part};
ghost use Rattle.dr_ledger.specs.Replies.{Reads};
ghost use Rattle.dr_store_past.specs.declared.lines.PastLine.{PastLine as LineValue};
ghost use Rattle.dr_store_calls.specs.Calling.{IsOwnFault, Looked, Nothing};
ghost use Rattle.dr_store_calls.specs.Sealing.{Sealed};
ghost use Rattle.dr_store.specs.Sealing.{AreOwnLines, LeavesWithLines, SealsInto, TurnsPast};
ghost use Rattle.dr_store.specs.Sealing.{HaveMoments, HaveMomentsOf};

use crate::past::fault_of_past;
use crate::telling::tell_journal;
use dr_ledger::LedgerFault;
use dr_ledger_history::JournalLine;
use dr_site::Site;
use dr_store_calls::seal;
use dr_store_moments::all_moments;
use dr_store_past::{LedgerPast, PastLine};
use dr_store_sealed::Seal;
use sqlite::{Alter, Connection};
use std::alloc::{AllocError, Global};

/// A line more, with its moment.
fn add_line(
    all: &mut Vec<PastLine>,
    line: JournalLine,
    moment: Option<u64>,
) -> Result<(), AllocError>
    ensures { IfOk result (λ done. all.new.items
        ≡ all.old.items ++ record { line = line; moment = moment } ∷ []) }
{
    all.push(PastLine { line, moment })?;
    Ok(())
}

/// These lines, each with the moment in its place.
///
/// Errors: Store where there aren't as many; Memory.
fn with_moments(
    alloc: Global,
    lines: Vec<JournalLine>,
    moments: &[(u64, Option<u64>)],
) -> Result<Vec<PastLine>, LedgerFault>
    ensures { Reads result (λ all. HaveMoments lines.items moments.now all.items) }
{
    let mut all = Vec::new(alloc);
    let mut at = 0;
    for line in lines {
        let Some(entry) = moments.get(at) else {
            return Err(LedgerFault::Store);
        };
        add_line(&mut all, line, entry.1)?;
        at += 1;
    }
    if at < moments.len() {
        return Err(LedgerFault::Store);
    }
    Ok(all)
}

/// The lines of the tables, each with the moment beside it.
///
/// Errors: Store, Memory.
fn tell_with_moments<S: Alter>(
    conn: &mut Connection<S>,
    alloc: Global,
    lines: Vec<JournalLine>,
) -> Result<Vec<PastLine>, LedgerFault>
    ensures looked { (n : ℕ) (part : Part)
        → Looked n part result (state S.Store conn.old) (state S.Store conn.new)
        (λ base all. HaveMomentsOf base lines.items all.items) }
    ensures idle { conn.old.in_transaction ≡ false → conn.new.in_transaction ≡ false }
{
    match all_moments(conn, alloc) {
        Ok(moments) => with_moments(alloc, lines, moments.as_slice()),
        Err(fault) => Err(fault),
    }
}

/// The lines of the tables, each with the moment beside it.
///
/// Errors: Store, Memory.
fn tell_own<S: Alter>(conn: &mut Connection<S>, alloc: Global) -> Result<Vec<PastLine>, LedgerFault>
    ensures looked { (n : ℕ) (part : Part)
        → Looked n part result (state S.Store conn.old) (state S.Store conn.new)
        (λ base all. AreOwnLines base all.items) }
    ensures idle { conn.old.in_transaction ≡ false → conn.new.in_transaction ≡ false }
{
    match tell_journal(conn, alloc) {
        Ok(lines) => tell_with_moments(conn, alloc, lines.into_vec()),
        Err(fault) => Err(fault),
    }
}

/// Writes lines behind the past, durably, and answers the seal behind them. The past is what it
/// was.
///
/// Errors: Store, Memory.
fn write_behind<P: LedgerPast>(past: &mut P, lines: &[PastLine]) -> Result<Seal, LedgerFault>
    ensures written { IfOk result (λ last. P.LedgerPast.has_written past.new lines.now last) }
    ensures counts { IfOk result (λ last.
        last.count ≡ (P.LedgerPast.reach past.old).count + length lines.now) }
    ensures fault { IfErr result IsOwnFault }
    ensures reach { P.LedgerPast.reach past.new ≡ P.LedgerPast.reach past.old }
    ensures holds { (before : List LineValue)
        → P.LedgerPast.holds past.old before → P.LedgerPast.holds past.new before }
    ensures clean { P.LedgerPast.is_clean past.new → P.LedgerPast.is_clean past.old }
{
    match past.write(lines) {
        Ok(last) => Ok(last),
        Err(fault) => Err(fault_of_past(fault)),
    }
}

/// Lets the lines leave the tables, up to that seal, and takes those that were written up to it for
/// the past's.
///
/// Errors: Store, Memory.
fn seal_and_turn<S: Alter, P: LedgerPast>(
    conn: &mut Connection<S>,
    past: &mut P,
    alloc: Global,
    site: &Site,
    n: u64,
    last: &Seal,
) -> Result<(), LedgerFault>
    requires { conn.old.in_transaction ≡ false }
    ensures sealed { Sealed n site.now last.now result (state S.Store conn.old)
        (state S.Store conn.new) Nothing }
    ensures turned { OnOk result ((lines : List LineValue)
        → P.LedgerPast.has_written past.old lines last.now
        → TurnsPast P.LedgerPast.all_lines (P.LedgerPast.holds past.old)
        (P.LedgerPast.holds past.new) (P.LedgerPast.is_clean past.old)
        (P.LedgerPast.is_clean past.new) (P.LedgerPast.reach past.old)
        (P.LedgerPast.reach past.new) last.now lines) }
    ensures still { OnErr result (past.new ≡ past.old) }
    ensures idle { conn.new.in_transaction ≡ false }
{
    match seal(conn, alloc, site, n, last) {
        Ok(()) => {
            past.turn_to(last);
            Ok(())
        }
        Err(fault) => Err(fault),
    }
}

/// Lets the lines of a ledger's tables leave for its past, whose next line has number `n`: they are
/// written behind it, then they leave the tables, and then they are the past's.
///
/// Errors: Store, Memory. The tables keep their lines then, or a crash leaves the one or the other.
pub fn seal_lines<S: Alter, P: LedgerPast>(
    conn: &mut Connection<S>,
    past: &mut P,
    alloc: Global,
    site: &Site,
    n: u64,
) -> Result<(), LedgerFault>
    requires { conn.old.in_transaction ≡ false }
    ensures sealed { P.LedgerPast.is_clean past.new
        → SealsInto P.LedgerPast.all_lines n site.now result (state S.Store conn.old)
        (state S.Store conn.new) (P.LedgerPast.reach past.old) (P.LedgerPast.reach past.new) }
    ensures left { (before : List LineValue)
        → P.LedgerPast.holds past.old before
        → LeavesWithLines (P.LedgerPast.holds past.new) (P.LedgerPast.has_written past.new) before
        n site.now (state S.Store conn.old) (state S.Store conn.new) }
    ensures clean { P.LedgerPast.is_clean past.new → P.LedgerPast.is_clean past.old }
    ensures idle { conn.new.in_transaction ≡ false }
{
    match tell_own(conn, alloc) {
        Ok(lines) => match write_behind(past, lines.as_slice()) {
            Ok(last) => seal_and_turn(conn, past, alloc, site, n, &last),
            Err(fault) => Err(fault),
        },
        Err(fault) => Err(fault),
    }
}
