//! The word `adopt --dry-run`.
ghost use Rattle.std.specs.Prelude.{◌≡◌, [], IfOk, map as mapped};
ghost use Rattle.dr_word_adopt.specs.Names.{text_of};
ghost use Rattle.dr_word_rehearse.specs.Endings.{Rehearses};
ghost use Rattle.dr_word_rehearse.specs.Rehearsals.{RehearsesBetween, RehearsesFiles, halt_of};

use crate::finds::Finds;
use crate::looking::{Looked, look_at_all};
use crate::telling::tell_rehearsal;
use dr_base::Text;
use dr_cert::Sealed;
use dr_ledger_journal::TellsJournal;
use dr_run_files::{Failure, Files};
use dr_run_open::Status;
use dr_word_adopt::{Halted, nodes_to_go, seal_both, texts_of};
use dr_word_line::PlanChange;
use std::alloc::Global;
use std::io::Write;

/// Rehearses the change from the one sealed plan to the next of the ledgers in the folder, of all
/// nodes of the one but the others.
///
/// Errors: those of `nodes_to_go` and `look_at_all`.
fn rehearse_between<'a, O: Finds>(
    alloc: Global,
    ledgers: &O,
    folder: &str,
    old: &Sealed,
    next: &Sealed,
    others: &[Text],
    all: &mut Vec<Looked>,
) -> Result<(), Halted<'a>>
where
    O::Ledger: TellsJournal,
    requires { all.old.items ≡ [] }
    ensures { RehearsesBetween (O.opens ledgers.now) O.Ledger.site O.Ledger.book O.Ledger.stands
        folder.now old.now next.now (O.shows ledgers.now) others.now (halt_of result)
        all.new.items }
{
    match nodes_to_go(alloc, ledgers, folder, old, next, others) {
        Ok(ours) => look_at_all(alloc, ledgers, folder, old, next, ours.as_slice(), all),
        Err(stop) => Err(stop),
    }
}

/// The same, where the others are named by words.
///
/// Errors: those of `rehearse_between`.
fn rehearse_besides<'a, O: Finds>(
    alloc: Global,
    ledgers: &O,
    folder: &str,
    old: &Sealed,
    next: &Sealed,
    others: &[&str],
    all: &mut Vec<Looked>,
) -> Result<(), Halted<'a>>
where
    O::Ledger: TellsJournal,
    requires { all.old.items ≡ [] }
    ensures { RehearsesBetween (O.opens ledgers.now) O.Ledger.site O.Ledger.book O.Ledger.stands
        folder.now old.now next.now (O.shows ledgers.now) (mapped text_of others.now)
        (halt_of result) all.new.items }
{
    let others = texts_of(alloc, others)?;
    rehearse_between(alloc, ledgers, folder, old, next, others.as_slice(), all)
}

/// Rehearses the change from the plan in the first file to that in the third.
///
/// Errors: those of `seal_both` and `rehearse_besides`.
fn rehearse_given<'a, F: Files, O: Finds>(
    alloc: Global,
    files: &F,
    ledgers: &O,
    given: PlanChange<'a>,
    others: &[&str],
    all: &mut Vec<Looked>,
) -> Result<(), Halted<'a>>
where
    O::Ledger: TellsJournal,
    requires { all.old.items ≡ [] }
    ensures { RehearsesFiles (F.holds files.now) (O.opens ledgers.now) (O.shows ledgers.now)
        O.Ledger.site O.Ledger.book O.Ledger.stands given.entry (mapped text_of others.now)
        (halt_of result) all.new.items }
{
    match seal_both(alloc, files, given) {
        Ok((old, next)) => {
            let came = rehearse_besides(alloc, ledgers, given.folder, &old, &next, others, all);
            drop(next);
            drop(old);
            came
        }
        Err(halt) => Err(Halted { halt, node: None }),
    }
}

/// Says of the ledgers in a folder, of all nodes of the plan in the first file but the others,
/// whether an adoption of the plan in the third would go on, and prints each row that is in the
/// way. No ledger is changed, none is made, and none is brought over from a form from before.
///
/// Errors: Stream, File.
pub fn rehearse_files<'a, F: Files, O: Finds, W: Write, E: Write>(
    alloc: Global,
    files: &F,
    ledgers: &O,
    given: PlanChange<'a>,
    others: &[&str],
    output: &mut W,
    faults: &mut E,
) -> Result<Status, Failure<'a>>
where
    O::Ledger: TellsJournal,
    ensures { IfOk result
        (Rehearses (F.holds files.now) (O.opens ledgers.now) (O.shows ledgers.now) O.Ledger.site
        O.Ledger.book O.Ledger.stands given.entry (mapped text_of others.now)
        (W.contents output.old) (W.contents output.new)) }
{
    let mut all = Vec::new(alloc);
    let came = rehearse_given(alloc, files, ledgers, given, others, &mut all);
    let told = tell_rehearsal(alloc, all.as_slice(), came, output, faults);
    drop(all);
    told
}
