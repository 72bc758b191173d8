//! Where ledgers are, and whose are to go over, before any is opened.
ghost use Rattle.std.specs.Prelude.{◌≡◌, ◌≢◌, [], All, MatchResult};
ghost use Rattle.dr_run_open.specs.Openings.{IsUnopened};
ghost use Rattle.dr_run_open.specs.declared.halt.Halt.TheVariants.{NotOpened};
ghost use Rattle.dr_run_open.specs.declared.ledgers.OpenFault.TheVariants.{NoLedger};
ghost use Rattle.dr_word_adopt.specs.Beginnings.{AreToGo, HasNoFile, IsNotBegun, IsRefusedFor};
ghost use Rattle.dr_word_adopt.specs.Beginnings.{path_in};

use crate::change::Halted;
use crate::looking::path_of;
use crate::names::ours_of;
use crate::shown::ShowsFiles;
use dr_base::Text;
use dr_cert::Sealed;
use dr_run_open::{Halt, OpenFault};
use std::alloc::Global;

/// Whether something is there in the place of the ledger of the node of that name.
///
/// Errors: NotOpened with Store, Memory.
fn has_file<'a, O: ShowsFiles>(
    alloc: Global,
    ledgers: &O,
    folder: &str,
    name: &Text,
) -> Result<bool, Halt<'a>>
    ensures { MatchResult result (O.shows ledgers.now (path_in folder.now name.now)) IsUnopened }
{
    match path_of(alloc, folder, name) {
        Ok(path) => Ok(ledgers.is_there(path.as_str())),
        Err(halt) => Err(halt),
    }
}

/// Whether none of these nodes has a file in the folder.
///
/// Errors: NotOpened with IsThere, at the first that has one; NotOpened with Store; Memory.
fn test_none<'a, O: ShowsFiles>(
    alloc: Global,
    ledgers: &O,
    folder: &str,
    names: &[Text],
) -> Result<(), Halted<'a>>
    ensures { MatchResult result
        (λ _. All (HasNoFile (O.shows ledgers.now) folder.now) names.now)
        (λ stop. IsRefusedFor names.now stop.halt) }
{
    for name in names {
        match has_file(alloc, ledgers, folder, name) {
            Ok(false) => {}
            Ok(true) => return Err(Halted::at(name, Halt::NotOpened(OpenFault::IsThere))),
            Err(halt) => return Err(Halted::at(name, halt)),
        }
    }
    Ok(())
}

/// These names, where there is one: where no node has a ledger, there is nothing to bring over.
///
/// Errors: NotOpened with NoLedger.
fn some_of<'a>(ours: Vec<Text>) -> Result<Vec<Text>, Halted<'a>>
    ensures { MatchResult result (λ some. (some ≡ ours) × (ours.items ≢ []))
        (λ stop. (stop.halt ≡ NotOpened NoLedger) × (ours.items ≡ [])) }
{
    if ours.is_empty() {
        drop(ours);
        return Err(Halted::from(Halt::NotOpened(OpenFault::NoLedger)));
    }
    Ok(ours)
}

/// The names of the nodes whose ledgers are to go over from the one plan to the next: those of the
/// one plan but the others, none of which has a file in the folder.
///
/// Errors: NoNode; NotOpened with IsThere, at one of the others that has a file; NotOpened with
/// NoLedger, where all are named; NotOpened with Store; Memory.
pub fn nodes_to_go<'a, O: ShowsFiles>(
    alloc: Global,
    ledgers: &O,
    folder: &str,
    old: &Sealed,
    next: &Sealed,
    others: &[Text],
) -> Result<Vec<Text>, Halted<'a>>
    ensures { MatchResult result
        (λ ours. AreToGo (O.shows ledgers.now) folder.now old.now.plan next.now.plan others.now
        ours.items)
        (λ stop. IsNotBegun old.now.plan next.now.plan others.now stop.halt) }
{
    let ours = match ours_of(alloc, old, next, others) {
        Ok(ours) => ours,
        Err(stop) => return Err(stop),
    };
    match test_none(alloc, ledgers, folder, others) {
        Ok(()) => some_of(ours),
        Err(stop) => {
            drop(ours);
            Err(stop)
        }
    }
}
