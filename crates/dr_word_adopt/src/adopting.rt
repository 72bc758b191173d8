//! The word `adopt`.
ghost use Rattle.std.specs.Prelude.{◌≡◌, [], All, IfOk, MatchResult, Ok, Err, map as mapped};
ghost use Rattle.dr_word_adopt.specs.Beginnings.{OpensThere};
ghost use Rattle.dr_word_adopt.specs.Changes.{AreSealed, AreUnsealed, Changes, ChangesBetween};
ghost use Rattle.dr_word_adopt.specs.Changes.{ChangesOf, ComesOf, came_of};
ghost use Rattle.dr_word_adopt.specs.Changings.{IsChanged, LeavesLedger, MayChange};
ghost use Rattle.dr_base.specs.Lists.{Each};
ghost use Rattle.dr_word_adopt.specs.Changings.{OnlyFirstAreChanged};
ghost use Rattle.dr_word_adopt.specs.Endings.{AdoptsFiles, EndsChange, unfit_line};
ghost use Rattle.dr_word_adopt.specs.Names.{text_of};

use crate::beginning::nodes_to_go;
use crate::change::{Changeover, Halted};
use crate::changing::change_all;
use crate::looking::look_at_all;
use crate::names::texts_of;
use crate::shown::ShowsFiles;
use crate::standing::Standing;
use dr_base::Text;
use dr_cert::Sealed;
use dr_ledger::Ledger;
use dr_run_files::{Failure, Files};
use dr_run_open::{Halt, Status, seal_files, tell_halt};
use dr_word_line::PlanChange;
use std::alloc::{AllocError, Global};
use std::io;
use std::io::Write;

const TAB: u8 = 9;

const LF: u8 = 10;

/// The plan in force and the next one, each sealed with its certificate.
///
/// Errors: NoPlan, NoCertificate, Failed.
pub fn seal_both<'a, F: Files>(
    alloc: Global,
    files: &F,
    given: PlanChange<'a>,
) -> Result<(Sealed, Sealed), Halt<'a>>
    ensures { MatchResult result
        (λ both. AreSealed (F.holds files.now) given.entry both.0 both.1)
        (AreUnsealed (F.holds files.now) given.entry) }
{
    let old = match seal_files(alloc, files, given.plan, given.certificate) {
        Ok(sealed) => sealed,
        Err(halt) => return Err(halt),
    };
    match seal_files(alloc, files, given.next_plan, given.next_certificate) {
        Ok(next) => Ok((old, next)),
        Err(halt) => {
            drop(old);
            Err(halt)
        }
    }
}

/// Changes ledgers of which each may be changed, and says so.
///
/// Errors: those of `change_all`.
fn make_change<'a, L: Ledger + Drop>(
    all: &mut Vec<Standing<L>>,
    next: &Sealed,
) -> Result<Changeover, Halted<'a>>
    requires { All (MayChange L.site L.book L.stands next.now) all.old.items }
    ensures { MatchResult result
        (λ change. (change ≡ Changeover.Made)
        × Each (IsChanged L.site L.book L.stands next.now) all.old.items all.new.items)
        (λ stop. LeavesLedger stop.halt
        × OnlyFirstAreChanged L.site L.book L.stands next.now all.old.items all.new.items) }
{
    match change_all(all.as_mut_slice(), next) {
        Ok(()) => Ok(Changeover::Made),
        Err(stop) => Err(stop),
    }
}

/// Looks into the ledgers of the nodes of these names, and changes them where all may be.
///
/// Errors: those of `look_at_all` and `change_all`.
fn change_named<'a, O: ShowsFiles>(
    alloc: Global,
    ledgers: &O,
    folder: &str,
    old: &Sealed,
    next: &Sealed,
    names: &[Text],
    all: &mut Vec<Standing<O::Ledger>>,
) -> Result<Changeover, Halted<'a>>
    requires { all.old.items ≡ [] }
    ensures { ChangesOf (OpensThere (O.opens ledgers.now) (O.shows ledgers.now)) O.Ledger.site
        O.Ledger.book O.Ledger.stands folder.now old.now next.now names.now (came_of result)
        all.new.items }
{
    match look_at_all(alloc, ledgers, folder, old, next, names, all) {
        Ok(None) => make_change(all, next),
        Ok(Some(unfit)) => Ok(Changeover::Unfit(unfit.node, unfit.uid, unfit.dest)),
        Err(stop) => Err(stop),
    }
}

/// Changes the ledgers in the folder, of all nodes of the one sealed plan but the others, to the
/// next, where that goes on with all that they have still to send. All ledgers that were opened are
/// in `all` then.
///
/// Errors: those of `nodes_to_go`, `look_at_all` and `change_all`.
fn change_between<'a, O: ShowsFiles>(
    alloc: Global,
    ledgers: &O,
    folder: &str,
    old: &Sealed,
    next: &Sealed,
    others: &[Text],
    all: &mut Vec<Standing<O::Ledger>>,
) -> Result<Changeover, Halted<'a>>
    requires { all.old.items ≡ [] }
    ensures { ChangesBetween (O.opens ledgers.now) (O.shows ledgers.now) O.Ledger.site
        O.Ledger.book O.Ledger.stands folder.now old.now next.now others.now (came_of result)
        all.new.items }
{
    match nodes_to_go(alloc, ledgers, folder, old, next, others) {
        Ok(ours) => change_named(alloc, ledgers, folder, old, next, ours.as_slice(), all),
        Err(stop) => Err(stop),
    }
}

/// The same, where the others are named by words. All ledgers stay open from the first look to the
/// end.
///
/// Errors: those of `change_between`.
fn change_besides<'a, O: ShowsFiles>(
    alloc: Global,
    ledgers: &O,
    folder: &str,
    old: &Sealed,
    next: &Sealed,
    others: &[&str],
) -> Result<Changeover, Halted<'a>>
    ensures { ComesOf (O.opens ledgers.now) (O.shows ledgers.now) O.Ledger.site O.Ledger.book
        O.Ledger.stands folder.now old.now next.now (mapped text_of others.now) (came_of result) }
{
    let others = texts_of(alloc, others)?;
    let mut all = Vec::new(alloc);
    let came = change_between(
        alloc,
        ledgers,
        folder,
        old,
        next,
        others.as_slice(),
        &mut all,
    );
    drop(all);
    came
}

/// Changes the ledgers in a folder from the plan in the first file to that in the third.
///
/// Errors: those of `seal_both` and `change_besides`.
fn change_files<'a, F: Files, O: ShowsFiles>(
    alloc: Global,
    files: &F,
    ledgers: &O,
    given: PlanChange<'a>,
    others: &[&str],
) -> Result<Changeover, Halted<'a>>
    ensures { Changes (F.holds files.now) (O.opens ledgers.now) (O.shows ledgers.now)
        O.Ledger.site O.Ledger.book O.Ledger.stands given.entry (mapped text_of others.now)
        (came_of result) }
{
    match seal_both(alloc, files, given) {
        Ok((old, next)) => {
            let came = change_besides(alloc, ledgers, given.folder, &old, &next, others);
            drop(next);
            drop(old);
            came
        }
        Err(halt) => Err(Halted { halt, node: None }),
    }
}

/// The line that is printed of a row that isn't fit.
pub fn unfit_text(alloc: Global, node: &Text, uid: &Text, dest: &Text) -> Result<Text, AllocError>
    ensures { IfOk result (λ text. text ≡ unfit_line node.now uid.now dest.now) }
{
    let mut out = Vec::new(alloc);
    out.extend_from_slice(b"no")?;
    out.push(TAB)?;
    out.extend_from_slice(b"U1 Unfit")?;
    out.push(TAB)?;
    out.extend_from_slice(node.as_bytes())?;
    out.push(TAB)?;
    out.extend_from_slice(uid.as_bytes())?;
    out.push(TAB)?;
    out.extend_from_slice(dest.as_bytes())?;
    out.push(LF)?;
    Ok(Text::from_vec(out))
}

/// Writes that all ledgers were changed, or which row isn't fit.
fn tell_change<'a, W: Write>(
    alloc: Global,
    change: &Changeover,
    output: &mut W,
) -> Result<Status, Failure<'a>>
    ensures { IfOk result
        (EndsChange (Ok change.now) (W.contents output.old) (W.contents output.new)) }
{
    match change {
        Changeover::Made => {
            output.write_all(b"adopted\n")?;
            Ok(Status::Success)
        }
        Changeover::Unfit(node, uid, dest) => {
            let line = match unfit_text(alloc, node, uid, dest) {
                Ok(line) => line,
                Err(AllocError) => return Err(Failure::Stream(io::Error::from(AllocError))),
            };
            output.write_all(line.as_bytes())?;
            Ok(Status::Refused)
        }
    }
}

/// Writes why the word comes to nothing, or only to its beginning, and at which node, where it is
/// at one.
///
/// Errors: Stream, and what failed on the way.
pub fn tell_stop<'a, W: Write, E: Write>(
    stop: Halted<'a>,
    output: &mut W,
    faults: &mut E,
) -> Result<Status, Failure<'a>>
    ensures { IfOk result
        (EndsChange (Err stop.entry.halt) (W.contents output.old) (W.contents output.new)) }
{
    let Halted { halt, node } = stop;
    let halt = match halt {
        Halt::Failed(failure) => return Err(failure),
        halt => halt,
    };
    tell_halt(&halt, output, faults)?;
    if let Some(name) = node {
        faults.write_all(b"  node ")?;
        faults.write_all(name.as_bytes())?;
        faults.write_all(b"\n")?;
    }
    Ok(halt.status())
}

/// Brings the ledgers in a folder, of all nodes of the plan in the first file but the others, over
/// to the plan in the third, and prints `adopted`; or which row is in the way, and then nothing has
/// changed. No file is made.
///
/// Errors: Stream, File.
pub fn adopt_files<'a, F: Files, O: ShowsFiles, W: Write, E: Write>(
    alloc: Global,
    files: &F,
    ledgers: &O,
    given: PlanChange<'a>,
    others: &[&str],
    output: &mut W,
    faults: &mut E,
) -> Result<Status, Failure<'a>>
    ensures { IfOk result
        (AdoptsFiles (F.holds files.now) (O.opens ledgers.now) (O.shows ledgers.now) O.Ledger.site
        O.Ledger.book O.Ledger.stands given.entry (mapped text_of others.now)
        (W.contents output.old) (W.contents output.new)) }
{
    match change_files(alloc, files, ledgers, given, others) {
        Ok(change) => tell_change(alloc, &change, output),
        Err(stop) => tell_stop(stop, output, faults),
    }
}
