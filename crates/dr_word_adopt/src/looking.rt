//! Looks into the nodes' ledgers, which change nothing.
ghost use Rattle.std.specs.Prelude.{◌≡◌, ◌⊎◌, ◌++◌, ◌∷◌, [], Err, IfOk, MatchResult, Ok, OnErr};
ghost use Rattle.std.specs.Prelude.{OnOk};
ghost use Rattle.std.specs.String.{string_bytes};
ghost use Rattle.dr_run_open.specs.Openings.{IsUnopened, Sites};
ghost use Rattle.dr_run_open.specs.declared.halt.Halt.TheVariants.{Refused};
ghost use Rattle.dr_word_adopt.specs.Beginnings.{OpensThere, path_in};
ghost use Rattle.dr_word_adopt.specs.Changes.{IsSiteAt, StopsAt};
ghost use Rattle.dr_word_adopt.specs.Changings.{IsKept, LeavesLedger};
ghost use Rattle.dr_word_adopt.specs.Lookings.{AllLookAs, IsFound, IsUnseen, LooksAs, LooksInto};
ghost use Rattle.dr_word_adopt.specs.Lookings.{MayAdd, StandsAt, stood};
ghost use Rattle.dr_word_adopt.specs.declared.standing.Standing.{Standing as StandingValue};

use crate::change::{Halted, UnfitRow};
use crate::shown::ShowsFiles;
use crate::standing::{FoundLedger, Standing};
use dr_base::Text;
use dr_cert::Sealed;
use dr_ledger::{Ledger, LedgerFault};
use dr_run_open::{Halt, Making, OpenFault, ledger_of};
use dr_site::{Site, SiteFault};
use std::alloc::{AllocError, Global};

/// The path of a node's ledger in the folder, as bytes: its name with `.db` behind it.
fn path_bytes(alloc: Global, folder: &str, name: &Text) -> Result<Vec<u8>, AllocError>
    ensures { IfOk result (λ path. path.items ≡ path_in folder.now name.now) }
{
    let mut path = Vec::new(alloc);
    path.extend_from_slice(folder.as_bytes())?;
    path.push(b'/')?;
    path.extend_from_slice(name.as_bytes())?;
    path.extend_from_slice(b".db")?;
    Ok(path)
}

/// The path of a node's ledger in the folder. A name that isn't UTF-8 has none.
///
/// Errors: NotOpened with Store, Memory.
pub fn path_of<'a>(alloc: Global, folder: &str, name: &Text) -> Result<String, Halt<'a>>
    ensures { MatchResult result
        (λ path. string_bytes path ≡ path_in folder.now name.now) IsUnopened }
{
    let path = path_bytes(alloc, folder, name)?;
    match String::from_utf8(path) {
        Ok(path) => Ok(path),
        Err(_) => Err(Halt::NotOpened(OpenFault::Store)),
    }
}

/// The site of the node of that name, by a sealed plan.
pub fn part_of<'a>(alloc: Global, sealed: &Sealed, name: &Text) -> Result<Site, Halt<'a>>
    ensures { Sites sealed.now name.now result }
{
    match Site::of(alloc, sealed, name) {
        Ok(site) => Ok(site),
        Err(SiteFault::NoNode) => Err(Halt::NoNode),
        Err(SiteFault::Memory) => Err(Halt::Memory),
    }
}

/// The ledger by that path, of the first site, or where it is of another, of the second. None is
/// made.
///
/// Errors: NotOpened, with NoLedger where nothing is there; Memory.
fn find<'a, O: ShowsFiles>(
    alloc: Global,
    ledgers: &O,
    path: &str,
    site: &Site,
    own: &Site,
) -> Result<FoundLedger<O::Ledger>, Halt<'a>>
    ensures { MatchResult result
        (IsFound (OpensThere (O.opens ledgers.now) (O.shows ledgers.now)) O.Ledger.site path.now
        site.now own.now) IsUnopened }
{
    if !ledgers.is_there(path) {
        return Err(Halt::NotOpened(OpenFault::NoLedger));
    }
    match ledger_of(alloc, ledgers, path, site, Making::Never) {
        Ok(ledger) => return Ok(FoundLedger::InForce(ledger)),
        Err(Halt::NotOpened(OpenFault::OtherSite)) => {}
        Err(halt) => return Err(halt),
    }
    let ledger = ledger_of(alloc, ledgers, path, own, Making::Never)?;
    Ok(FoundLedger::Next(ledger))
}

/// The ledger that was found, as it may be changed to the node's part of the next plan.
fn stand<L: Ledger + Drop>(found: FoundLedger<L>, own: Site) -> Standing<L>
    ensures { result ≡ stood own found }
{
    match found {
        FoundLedger::InForce(ledger) => Standing::Ready(ledger, own),
        FoundLedger::Next(ledger) => {
            drop(own);
            Standing::Over(ledger)
        }
    }
}

/// Looks whether the next plan goes on with all that a ledger of the plan in force has still to
/// send, and shows the first row with which it doesn't. Whatever comes of it, the ledger's owner
/// and its book stay.
///
/// Errors: Store, Memory.
fn look_into<L: Ledger + Drop>(
    standing: &mut Standing<L>,
    next: &Sealed,
) -> Result<Option<(Text, Text)>, LedgerFault>
    ensures { MatchResult result
        (λ unfit. LooksInto L.site L.book L.stands next.now standing.old unfit standing.new)
        (λ why. IsKept L.site L.book L.stands next.now standing.old standing.new) }
{
    match standing {
        Standing::Over(_) => Ok(None),
        Standing::Ready(ledger, _) => ledger.unfit(next),
    }
}

/// The site of the node of that name by the plan in force, and that by the next one.
///
/// Errors: NoNode, Memory.
pub fn parts_of<'a>(
    alloc: Global,
    old: &Sealed,
    next: &Sealed,
    name: &Text,
) -> Result<(Site, Site), Halt<'a>>
    ensures { MatchResult result
        (λ parts. IsSiteAt old.now name.now parts.0 × IsSiteAt next.now name.now parts.1)
        (IsUnseen old.now next.now name.now) }
{
    let site = match part_of(alloc, old, name) {
        Ok(site) => site,
        Err(halt) => return Err(halt),
    };
    match part_of(alloc, next, name) {
        Ok(own) => Ok((site, own)),
        Err(halt) => {
            drop(site);
            Err(halt)
        }
    }
}

/// Finds the ledger of the node of that name in the folder.
///
/// Errors: NotOpened, Memory.
fn find_in<'a, O: ShowsFiles>(
    alloc: Global,
    ledgers: &O,
    folder: &str,
    name: &Text,
    site: &Site,
    own: &Site,
) -> Result<FoundLedger<O::Ledger>, Halt<'a>>
    ensures { MatchResult result
        (IsFound (OpensThere (O.opens ledgers.now) (O.shows ledgers.now)) O.Ledger.site
        (path_in folder.now name.now) site.now own.now) IsUnopened }
{
    match path_of(alloc, folder, name) {
        Ok(path) => find(alloc, ledgers, path.as_str(), site, own),
        Err(halt) => Err(halt),
    }
}

/// Opens the ledger of the node of that name in the folder.
///
/// Errors: NoNode, NotOpened, Memory.
fn stand_at<'a, O: ShowsFiles>(
    alloc: Global,
    ledgers: &O,
    folder: &str,
    old: &Sealed,
    next: &Sealed,
    name: &Text,
) -> Result<Standing<O::Ledger>, Halt<'a>>
    ensures { MatchResult result
        (StandsAt (OpensThere (O.opens ledgers.now) (O.shows ledgers.now)) O.Ledger.site
        O.Ledger.book O.Ledger.stands folder.now old.now next.now name.now)
        (IsUnseen old.now next.now name.now) }
{
    let (site, own) = match parts_of(alloc, old, next, name) {
        Ok(parts) => parts,
        Err(halt) => return Err(halt),
    };
    let found = find_in(alloc, ledgers, folder, name, &site, &own);
    drop(site);
    match found {
        Ok(found) => Ok(stand(found, own)),
        Err(halt) => {
            drop(own);
            Err(halt)
        }
    }
}

/// Puts one more ledger behind those that were opened.
fn add<L: Ledger + Drop>(
    all: &mut Vec<Standing<L>>,
    standing: Standing<L>,
) -> Result<(), AllocError>
    ensures ok { OnOk result (all.new.items ≡ all.old.items ++ standing ∷ []) }
    ensures err { OnErr result (all.new.items ≡ all.old.items) }
{
    all.push(standing)?;
    Ok(())
}

/// What a look showed; the ledger's refusal ends the word.
fn told<'a>(
    seen: Result<Option<(Text, Text)>, LedgerFault>,
) -> Result<Option<(Text, Text)>, Halt<'a>>
    ensures { MatchResult seen
        (λ unfit. result ≡ Ok unfit) (λ why. result ≡ Err (Refused why)) }
{
    match seen {
        Ok(unfit) => Ok(unfit),
        Err(fault) => Err(Halt::Refused(fault)),
    }
}

/// Looks into a ledger that was opened, and puts it behind the others.
///
/// Errors: Refused with Store or Memory, Memory.
fn look_and_add<'a, L: Ledger + Drop>(
    all: &mut Vec<Standing<L>>,
    standing: Standing<L>,
    next: &Sealed,
) -> Result<Option<(Text, Text)>, Halt<'a>>
    ensures { MatchResult result
        (λ unfit. (last : StandingValue L) × (all.new.items ≡ all.old.items ++ last ∷ [])
        × LooksInto L.site L.book L.stands next.now standing unfit last)
        (λ halt. LeavesLedger halt × ((all.new.items ≡ all.old.items)
        ⊎ ((last : StandingValue L) × (all.new.items ≡ all.old.items ++ last ∷ [])
        × IsKept L.site L.book L.stands next.now standing last))) }
{
    let mut standing = standing;
    let seen = look_into(&mut standing, next);
    match add(all, standing) {
        Ok(()) => told(seen),
        Err(AllocError) => {
            drop(seen);
            Err(Halt::Memory)
        }
    }
}

/// Opens the ledger of the node of that name in the folder, looks into it, and puts it behind those
/// that were opened.
///
/// Errors: NoNode, NotOpened, Refused with Store or Memory, Memory.
fn look_at<'a, O: ShowsFiles>(
    alloc: Global,
    ledgers: &O,
    folder: &str,
    old: &Sealed,
    next: &Sealed,
    name: &Text,
    all: &mut Vec<Standing<O::Ledger>>,
) -> Result<Option<(Text, Text)>, Halt<'a>>
    ensures { MatchResult result
        (λ unfit. LooksAs (OpensThere (O.opens ledgers.now) (O.shows ledgers.now)) O.Ledger.site
        O.Ledger.book O.Ledger.stands folder.now old.now next.now name.now unfit all.old.items
        all.new.items)
        (λ halt. IsUnseen old.now next.now name.now halt
        × MayAdd (OpensThere (O.opens ledgers.now) (O.shows ledgers.now)) O.Ledger.site
        O.Ledger.book O.Ledger.stands folder.now old.now next.now name.now all.old.items
        all.new.items) }
{
    match stand_at(alloc, ledgers, folder, old, next, name) {
        Ok(standing) => look_and_add(all, standing, next),
        Err(halt) => Err(halt),
    }
}

/// The row that isn't fit, at the node of that name.
fn unfit_at(name: &Text, row: (Text, Text)) -> Result<UnfitRow, AllocError>
    ensures { IfOk result (λ unfit. (unfit.node ≡ name.now) × (unfit.uid ≡ row.0)
        × (unfit.dest ≡ row.1)) }
{
    let (uid, dest) = row;
    let node = name.clone()?;
    Ok(UnfitRow { node, uid, dest })
}

/// Opens the ledgers of these nodes in the folder and looks into each, up to the first that may not
/// be changed. All that were opened stay open, and are left as they were opened.
///
/// Errors: those of `look_at`, at a node; Memory.
pub fn look_at_all<'a, O: ShowsFiles>(
    alloc: Global,
    ledgers: &O,
    folder: &str,
    old: &Sealed,
    next: &Sealed,
    names: &[Text],
    all: &mut Vec<Standing<O::Ledger>>,
) -> Result<Option<UnfitRow>, Halted<'a>>
    requires { all.old.items ≡ [] }
    ensures { MatchResult result
        (λ unfit. AllLookAs (OpensThere (O.opens ledgers.now) (O.shows ledgers.now)) O.Ledger.site
        O.Ledger.book O.Ledger.stands folder.now old.now next.now names.now unfit all.new.items)
        (λ stop. StopsAt (OpensThere (O.opens ledgers.now) (O.shows ledgers.now)) O.Ledger.site
        O.Ledger.book O.Ledger.stands folder.now old.now next.now names.now stop.halt
        all.new.items) }
{
    for name in names {
        match look_at(alloc, ledgers, folder, old, next, name, all) {
            Ok(None) => {}
            Ok(Some(row)) => return Ok(Some(unfit_at(name, row)?)),
            Err(halt) => return Err(Halted::at(name, halt)),
        }
    }
    Ok(None)
}
