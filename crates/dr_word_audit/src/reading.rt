//! Reads the nodes' ledgers, which change nothing.
ghost use Rattle.std.specs.Prelude.{◌≡◌, ◌⊎◌, ◌++◌, ◌∷◌, [], false, IfOk, MatchResult, OnOk};
ghost use Rattle.dr_word_adopt.specs.Changes.{IsOpenedFor};
ghost use Rattle.dr_word_audit.specs.Audits.{IsShown, IsStop, is_missing as is_no_file};
ghost use Rattle.dr_word_audit.specs.Readings.{AreGathered, IsListed, IsOnlyRead, IsUnread};
ghost use Rattle.dr_word_audit.specs.Readings.{LooksAs};
ghost use Rattle.dr_run_open.specs.declared.halt.Halt.TheVariants as halts;
ghost use Rattle.dr_word_audit.specs.declared.reading.Gathering.TheVariants.{Missing};

use crate::counting::figures_of;
use crate::figuring::node_line;
use dr_base::{Seq, Text};
use dr_cert::Sealed;
use dr_ledger::{Ledger, LedgerFault, Row};
use dr_ledger_history::JournalLine;
use dr_ledger_journal::TellsJournal;
use dr_run_open::{Halt, Ledgers, Making, OpenFault, ledger_of};
use dr_word_adopt::{Halted, part_of, path_of};
use dr_world_audit::audit::NodeJournal;
use std::alloc::{AllocError, Global};

/// A node's journal, and the line that tells how much the node has.
#[derive(Drop)]
pub struct JournalShown {
    pub journal: NodeJournal,
    pub line: Text,
}

/// A node's ledger, which stays open, with what was read of it.
#[derive(Drop)]
pub struct Seen<L: Ledger + Drop> {
    pub ledger: L,
    pub shown: JournalShown,
}

/// What was read of several nodes: their journals, and the lines of all of them.
#[derive(Drop)]
pub struct Gathered<L: Ledger + Drop> {
    pub ledgers: Vec<L>,
    pub journals: Vec<NodeJournal>,
    pub told: Vec<u8>,
}

/// What the reading of several nodes' ledgers comes to.
#[derive(Drop)]
pub enum Gathering<L: Ledger + Drop> {
    /// All were read.
    All(Gathered<L>),
    /// The node of that name has no ledger.
    Missing(Text),
}

/// Whether the ledger isn't opened since it isn't there.
fn is_missing(halt: &Halt<'_>) -> bool
    ensures { result ≡ is_no_file halt.now }
{
    match halt {
        Halt::NotOpened(fault) => is_no_ledger(*fault),
        Halt::NoPlan(_) => false,
        Halt::NoCertificate(_) => false,
        Halt::NoNode => false,
        Halt::NoInstance(_) => false,
        Halt::Refused(_) => false,
        Halt::Receipt => false,
        Halt::Failed(_) => false,
        Halt::Memory => false,
    }
}

/// Whether the fault is that there is no file.
fn is_no_ledger(fault: OpenFault) -> bool
    ensures { result ≡ is_no_file (halts.NotOpened fault) }
{
    match fault {
        OpenFault::NoLedger => true,
        OpenFault::OtherSite => false,
        OpenFault::NoData => false,
        OpenFault::InUse => false,
        OpenFault::Store => false,
        OpenFault::IsThere => false,
        OpenFault::DataIsThere => false,
        OpenFault::Memory => false,
    }
}

/// Opens the ledger of the node of that name in the folder; none is made.
///
/// Errors: NoNode, NotOpened, Memory.
fn open_at<'a, O: Ledgers>(
    alloc: Global,
    ledgers: &O,
    folder: &str,
    sealed: &Sealed,
    name: &Text,
) -> Result<O::Ledger, Halt<'a>>
    ensures { MatchResult result
        (IsOpenedFor (O.opens ledgers.now) O.Ledger.site O.Ledger.book O.Ledger.stands folder.now
        sealed.now name.now) (IsUnread sealed.now.plan name.now) }
{
    let site = match part_of(alloc, sealed, name) {
        Ok(site) => site,
        Err(halt) => return Err(halt),
    };
    let path = match path_of(alloc, folder, name) {
        Ok(path) => path,
        Err(halt) => {
            drop(site);
            return Err(halt);
        }
    };
    let came = ledger_of(alloc, ledgers, path.as_str(), &site, Making::Never);
    drop(site);
    came
}

/// What is shown of a node of that name, whose ledger lists this.
fn show(
    alloc: Global,
    others: &[Text],
    name: &Text,
    lines: Seq<JournalLine>,
    kept: usize,
    rows: &[Row],
) -> Result<JournalShown, AllocError>
    ensures { IfOk result (IsListed others.now name.now lines kept rows.now) }
{
    let figures = figures_of(others, lines.as_slice(), kept, rows);
    let line = node_line(alloc, name, &figures)?;
    let name = name.clone()?;
    Ok(JournalShown {
        journal: NodeJournal { name, lines },
        line,
    })
}

/// Reads a ledger of the node of that name.
///
/// Errors: Store, Memory.
fn read_ledger<L: TellsJournal>(
    alloc: Global,
    others: &[Text],
    name: &Text,
    ledger: &mut L,
) -> Result<JournalShown, LedgerFault>
    ensures named { IfOk result (λ shown. shown.journal.name ≡ name.now) }
    ensures shown { IfOk result (λ shown. L.stands ledger.new
        → IsShown others.now (L.book ledger.old) shown.journal shown.line) }
    ensures same { IfOk result (λ shown. L.stands ledger.new
        → L.book ledger.new ≡ L.book ledger.old) }
    ensures site { L.site ledger.new ≡ L.site ledger.old }
{
    let lines = ledger.journal()?;
    let kept = ledger.kept()?;
    let rows = ledger.rows()?;
    let shown = show(alloc, others, name, lines, kept.len(), rows.as_slice())?;
    Ok(shown)
}

/// Reads a ledger that was opened for the node of that name; it stays open.
///
/// Errors: Store, Memory.
fn see<L: TellsJournal + Drop>(
    alloc: Global,
    others: &[Text],
    name: &Text,
    ledger: L,
) -> Result<Seen<L>, LedgerFault>
    ensures { IfOk result (IsOnlyRead L.site L.book L.stands others.now name.now ledger) }
{
    let mut ledger = ledger;
    match read_ledger(alloc, others, name, &mut ledger) {
        Ok(shown) => Ok(Seen { ledger, shown }),
        Err(fault) => {
            drop(ledger);
            Err(fault)
        }
    }
}

/// Opens the ledger of the node of that name in the folder, and reads it.
///
/// Errors: NoNode, NotOpened, Refused with Store or Memory, Memory.
fn look_at<'a, O: Ledgers>(
    alloc: Global,
    ledgers: &O,
    folder: &str,
    sealed: &Sealed,
    others: &[Text],
    name: &Text,
) -> Result<Seen<O::Ledger>, Halt<'a>>
where
    O::Ledger: TellsJournal,
    ensures { MatchResult result
        (LooksAs (O.opens ledgers.now) O.Ledger.site O.Ledger.book O.Ledger.stands folder.now
        sealed.now others.now name.now) (IsUnread sealed.now.plan name.now) }
{
    let ledger = match open_at(alloc, ledgers, folder, sealed, name) {
        Ok(ledger) => ledger,
        Err(halt) => return Err(halt),
    };
    match see(alloc, others, name, ledger) {
        Ok(seen) => Ok(seen),
        Err(fault) => Err(Halt::Refused(fault)),
    }
}

/// Adds what was read of one node more.
fn add<L: Ledger + Drop>(all: &mut Gathered<L>, seen: Seen<L>) -> Result<(), AllocError>
    ensures { OnOk result
        ((all.new.journals.items ≡ all.old.journals.items ++ seen.shown.journal ∷ [])
        × (all.new.told.items ≡ all.old.told.items ++ seen.shown.line)) }
{
    let Seen { ledger, shown } = seen;
    all.ledgers.push(ledger)?;
    add_shown(&mut all.journals, &mut all.told, shown)
}

/// Adds a journal, and a line behind those of others.
fn add_shown(
    journals: &mut Vec<NodeJournal>,
    told: &mut Vec<u8>,
    shown: JournalShown,
) -> Result<(), AllocError>
    ensures { OnOk result
        ((journals.new.items ≡ journals.old.items ++ shown.journal ∷ [])
        × (told.new.items ≡ told.old.items ++ shown.line)) }
{
    let JournalShown { journal, line } = shown;
    told.extend_from_slice(line.as_bytes())?;
    journals.push(journal)?;
    Ok(())
}

/// What it comes to that the ledger of the node of that name isn't read.
fn stop_at<'a, L: Ledger + Drop>(name: &Text, halt: Halt<'a>) -> Result<Gathering<L>, Halted<'a>>
    ensures { MatchResult result (λ gathering. gathering ≡ Missing name.now)
        (λ stop. ((stop.halt ≡ halt.entry) × (is_no_file halt.entry ≡ false))
        ⊎ (stop.halt ≡ halts.Memory)) }
{
    if is_missing(&halt) {
        drop(halt);
        return Ok(Gathering::Missing(name.clone()?));
    }
    Err(Halted::at(name, halt))
}

/// Reads the ledgers of these nodes in the folder, up to the first that isn't read.
///
/// Errors: those of `look_at`, at a node, but for a ledger that isn't there; Memory.
pub fn gather<'a, O: Ledgers>(
    alloc: Global,
    ledgers: &O,
    folder: &str,
    sealed: &Sealed,
    others: &[Text],
    names: &[Text],
) -> Result<Gathering<O::Ledger>, Halted<'a>>
where
    O::Ledger: TellsJournal,
    ensures { MatchResult result
        (AreGathered (O.opens ledgers.now) O.Ledger.site O.Ledger.book O.Ledger.stands folder.now
        sealed.now others.now names.now) (λ stop. IsStop sealed.now.plan names.now stop.halt) }
{
    let mut all = Gathered {
        ledgers: Vec::new(alloc),
        journals: Vec::new(alloc),
        told: Vec::new(alloc),
    };
    for name in names {
        match look_at(alloc, ledgers, folder, sealed, others, name) {
            Ok(seen) => add(&mut all, seen)?,
            Err(halt) => return stop_at(name, halt),
        }
    }
    Ok(Gathering::All(all))
}
