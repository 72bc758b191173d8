//! Looks into the nodes' ledgers, each of which is closed again.
ghost use Rattle.std.specs.Prelude.{◌≡◌, ◌++◌, ◌∷◌, [], IfOk, MatchResult, OnErr, OnOk};
ghost use Rattle.dr_word_adopt.specs.Beginnings.{path_in};
ghost use Rattle.dr_word_adopt.specs.Lookings.{IsUnseen};
ghost use Rattle.dr_word_rehearse.specs.Looks.{IsFoundBy, IsLookAt, IsLooked, IsOverAt, IsSeen};
ghost use Rattle.dr_word_rehearse.specs.Looks.{IsUnread, LooksInto, LooksOver};
ghost use Rattle.dr_word_rehearse.specs.Rehearsals.{LooksAt, halt_of, looked};

use crate::finds::{Finds, LedgerFound};
use dr_base::Text;
use dr_cert::Sealed;
use dr_ledger::{Ledger, LedgerFault};
use dr_ledger_journal::TellsJournal;
use dr_ledger_unfit::unfit_rows;
use dr_run_open::{Halt, OpenFault};
use dr_site::Site;
use dr_word_adopt::{Halted, parts_of, path_of};
use std::alloc::{AllocError, Global};

/// What a look at a node's ledger shows.
#[derive(Drop)]
pub enum LedgerLook {
    /// There is no file.
    Nothing,
    /// The file is of a form from before: its rows aren't looked at.
    Older,
    /// The rows with which the next plan doesn't go on, each an instance and its destination; none
    /// where the ledger is of that plan already.
    Rows(Vec<(Text, Text)>),
}

/// What a look shows of the node of that name.
#[derive(Drop)]
pub struct Looked {
    pub node: Text,
    pub look: LedgerLook,
}

/// The rows of a ledger with which the next plan doesn't go on. The ledger is closed then, with its
/// owner and its book as they were.
///
/// Errors: Store, Memory.
fn see<L: TellsJournal + Drop>(
    alloc: Global,
    next: &Sealed,
    name: &Text,
    ledger: L,
) -> Result<Vec<(Text, Text)>, LedgerFault>
    ensures { IsSeen L.site L.book L.stands next.now.plan name.now ledger result }
{
    let mut ledger = ledger;
    let came = unfit_rows(alloc, next, name, &mut ledger);
    drop(ledger);
    came
}

/// The ledger of that site, where it is there.
///
/// Errors: those of `Finds::find`; Memory.
fn find_of<O: Finds>(
    alloc: Global,
    ledgers: &O,
    path: &str,
    site: &Site,
) -> Result<LedgerFound<O::Ledger>, OpenFault>
    ensures { IfOk result (IsFoundBy (O.opens ledgers.now path.now) O.Ledger.site site.now) }
{
    match site.copy() {
        Ok(own) => ledgers.find(alloc, path, own),
        Err(AllocError) => Err(OpenFault::Memory),
    }
}

/// What a look shows at what was found of the plan in force.
///
/// Errors: Refused with Store or Memory.
fn look_into<'a, L: TellsJournal + Drop>(
    alloc: Global,
    next: &Sealed,
    name: &Text,
    found: LedgerFound<L>,
) -> Result<LedgerLook, Halt<'a>>
    ensures { MatchResult result
        (LooksInto L.site L.book L.stands next.now.plan name.now found) IsUnread }
{
    match found {
        LedgerFound::Older => Ok(LedgerLook::Older),
        LedgerFound::Ledger(ledger) => match see(alloc, next, name, ledger) {
            Ok(rows) => Ok(LedgerLook::Rows(rows)),
            Err(fault) => Err(Halt::Refused(fault)),
        },
    }
}

/// What a look shows at what was found of the next plan: its ledger is closed again.
fn look_over<L: Ledger + Drop>(alloc: Global, found: LedgerFound<L>) -> LedgerLook
    ensures { LooksOver found result }
{
    match found {
        LedgerFound::Older => LedgerLook::Older,
        LedgerFound::Ledger(ledger) => {
            drop(ledger);
            LedgerLook::Rows(Vec::new(alloc))
        }
    }
}

/// What a look shows of the ledger by the path, of the node's site by the next plan.
///
/// Errors: NotOpened.
fn look_again<'a, O: Finds>(
    alloc: Global,
    ledgers: &O,
    path: &str,
    own: &Site,
) -> Result<LedgerLook, Halt<'a>>
    ensures { MatchResult result
        (IsOverAt O.Ledger.site (O.opens ledgers.now path.now) own.now) IsUnread }
{
    match find_of(alloc, ledgers, path, own) {
        Ok(found) => Ok(look_over(alloc, found)),
        Err(fault) => Err(Halt::NotOpened(fault)),
    }
}

/// What a look shows of the ledger by the path, of the node's site by the plan in force, or where
/// it is of another, by the next one.
///
/// Errors: NotOpened, Refused with Store or Memory.
fn look_by<'a, O: Finds>(
    alloc: Global,
    ledgers: &O,
    path: &str,
    site: &Site,
    own: &Site,
    next: &Sealed,
    name: &Text,
) -> Result<LedgerLook, Halt<'a>>
where
    O::Ledger: TellsJournal,
    ensures { MatchResult result
        (IsLookAt O.Ledger.site O.Ledger.book O.Ledger.stands next.now.plan name.now
        (O.opens ledgers.now path.now) site.now own.now) IsUnread }
{
    match find_of(alloc, ledgers, path, site) {
        Ok(found) => return look_into(alloc, next, name, found),
        Err(OpenFault::OtherSite) => {}
        Err(OpenFault::NoLedger) => return Ok(LedgerLook::Nothing),
        Err(fault) => return Err(Halt::NotOpened(fault)),
    }
    match look_again(alloc, ledgers, path, own) {
        Ok(look) => Ok(look),
        Err(halt) => Err(halt),
    }
}

/// The same, of the ledger of the node of that name in the folder.
///
/// Errors: NotOpened, Refused with Store or Memory, Memory.
fn look_in<'a, O: Finds>(
    alloc: Global,
    ledgers: &O,
    folder: &str,
    site: &Site,
    own: &Site,
    next: &Sealed,
    name: &Text,
) -> Result<LedgerLook, Halt<'a>>
where
    O::Ledger: TellsJournal,
    ensures { MatchResult result
        (IsLookAt O.Ledger.site O.Ledger.book O.Ledger.stands next.now.plan name.now
        (O.opens ledgers.now (path_in folder.now name.now)) site.now own.now) IsUnread }
{
    match path_of(alloc, folder, name) {
        Ok(path) => look_by(alloc, ledgers, path.as_str(), site, own, next, name),
        Err(halt) => Err(halt),
    }
}

/// What a look shows of the node of that name, whose ledger is in the folder.
///
/// Errors: NoNode, NotOpened, Refused with Store or Memory, Memory.
fn look_at<'a, O: Finds>(
    alloc: Global,
    ledgers: &O,
    folder: &str,
    old: &Sealed,
    next: &Sealed,
    name: &Text,
) -> Result<LedgerLook, Halt<'a>>
where
    O::Ledger: TellsJournal,
    ensures { MatchResult result
        (IsLooked (O.opens ledgers.now) O.Ledger.site O.Ledger.book O.Ledger.stands folder.now
        old.now next.now name.now) (IsUnseen old.now next.now name.now) }
{
    let (site, own) = match parts_of(alloc, old, next, name) {
        Ok(parts) => parts,
        Err(halt) => return Err(halt),
    };
    let came = look_in(alloc, ledgers, folder, &site, &own, next, name);
    drop(site);
    drop(own);
    match came {
        Ok(look) => Ok(look),
        Err(halt) => Err(halt),
    }
}

/// Puts what a look shows behind what others showed.
fn add(all: &mut Vec<Looked>, name: &Text, look: LedgerLook) -> Result<(), AllocError>
    ensures ok { OnOk result (all.new.items ≡ all.old.items ++ looked name.now look ∷ []) }
    ensures err { OnErr result (all.new.items ≡ all.old.items) }
{
    let node = name.clone()?;
    all.push(Looked { node, look })?;
    Ok(())
}

/// Looks at the nodes of these names, whose ledgers are in the folder, up to the first at which
/// that comes to nothing.
///
/// Errors: those of `look_at`, at a node; Memory.
pub fn look_at_all<'a, O: Finds>(
    alloc: Global,
    ledgers: &O,
    folder: &str,
    old: &Sealed,
    next: &Sealed,
    names: &[Text],
    all: &mut Vec<Looked>,
) -> Result<(), Halted<'a>>
where
    O::Ledger: TellsJournal,
    requires { all.old.items ≡ [] }
    ensures { LooksAt (O.opens ledgers.now) O.Ledger.site O.Ledger.book O.Ledger.stands folder.now
        old.now next.now names.now (halt_of result) all.new.items }
{
    for name in names {
        match look_at(alloc, ledgers, folder, old, next, name) {
            Ok(look) => add(all, name, look)?,
            Err(halt) => return Err(Halted::at(name, halt)),
        }
    }
    Ok(())
}
