//! The journal, told to a history.
ghost use Rattle.std.specs.Prelude.{◌≡◌, ◌≢◌, ◌≤◌, ◌⊎◌, ◌↔◌, ◌++◌, ℕ, IsTrue, MatchResult, List};
ghost use Rattle.std.specs.Prelude.{[], ◌∷◌, length, take};
ghost use Rattle.dr_ledger.specs.Books.{Fold, Line, empty_book};
ghost use Rattle.dr_ledger.specs.Histories.{IsHistory, IsPast};
ghost use Rattle.dr_ledger.specs.SiteRoutes.{site_routing};
ghost use Rattle.dr_ledger_history.specs.Contents.{content};
ghost use Rattle.dr_ledger_history.specs.Lines.{line_of};
ghost use Rattle.dr_ledger_history.specs.Told.{IsTold, IsToldSince};
ghost use Rattle.dr_store_lists.specs.declared.listing.JournalRow.TheVariants as noted;
ghost use Rattle.dr_store_audit.specs.Goals.{AreByLine};
ghost use Rattle.dr_store_audit.specs.Journal.{CountUp, lines_told};
ghost use Rattle.dr_store_audit.specs.Telling.{EndsAtAdoption, GoOnUnder, IsNoJournal};
ghost use Rattle.dr_store_audit.specs.Telling.{IsToldJournal, NoneIsOver};
ghost use Rattle.dr_store_audit.specs.declared.fault.FindingFault.TheVariants as finding;

use crate::fault::{FindingFault, of_history};
use crate::lines::line_for;
use dr_base::Text;
use dr_ledger_history::{History, JournalLine};
use dr_site::Site;
use dr_store_lists::JournalRow;
use std::alloc::Global;

/// Whether it is an adoption.
fn is_adoption(note: &JournalRow) -> bool
    ensures { IsTrue result ↔ (note.now ≡ noted.Adoption) }
{
    match note {
        JournalRow::Adoption => true,
        _ => false,
    }
}

/// Where the past ends after one more note: there, if that one is an adoption.
fn end_after(end: usize, next: usize, note: &JournalRow) -> usize
    ensures { ((result ≡ end) × (note.now ≢ noted.Adoption))
        ⊎ ((result ≡ next) × (note.now ≡ noted.Adoption)) }
{
    if is_adoption(note) {
        return next;
    }
    end
}

/// How many notes there are up to the last adoption.
fn count_past(notes: &[(u64, JournalRow)]) -> usize
    ensures bound { result ≤ length notes.now }
    ensures over { EndsAtAdoption (take result notes.now) }
    ensures since { NoneIsOver result notes.now }
{
    let mut end = 0;
    for (i, entry) in notes.iter().enumerate() {
        end = end_after(end, i + 1, &entry.1);
    }
    end
}

/// Whether the lines' numbers count up from this one.
pub fn count_up(first: u64, notes: &[(u64, JournalRow)]) -> bool
    ensures { IsTrue result ↔ CountUp first notes.now }
{
    for (i, entry) in notes.iter().enumerate() {
        if entry.0 < first || entry.0 - first != i as u64 {
            return false;
        }
    }
    true
}

/// Tells one more line of the past.
///
/// Errors: OtherSite, only where the lines are no past with it; Memory.
fn tell_past(history: History, line: JournalLine) -> Result<History, FindingFault>
    ensures { MatchResult result
        (λ h. (lines : List Line)
        → IsTold lines (content history.parts)
        → IsTold (lines ++ line_of line ∷ []) (content h.parts))
        (λ fault. (lines : List Line)
        → fault ≡ finding.OtherSite
        → IsTold lines (content history.parts)
        → IsPast (lines ++ line_of line ∷ []) empty_book → ⊥) }
{
    match history.tell_past(line) {
        Ok(history) => Ok(history),
        Err(fault) => Err(of_history(fault)),
    }
}

/// Tells one more line since the last adoption.
///
/// Errors: OtherSite, only where those since then are no history with it; Memory.
fn tell_since(history: History, site: &Site, line: JournalLine) -> Result<History, FindingFault>
    ensures { MatchResult result
        (λ h. (past since : List Line)
        → IsToldSince (site_routing site.now) past since (content history.parts)
        → IsToldSince (site_routing site.now) past (since ++ line_of line ∷ []) (content h.parts))
        (λ fault. (past since : List Line)
        → fault ≡ finding.OtherSite
        → IsToldSince (site_routing site.now) past since (content history.parts)
        → IsHistory (site_routing site.now) (since ++ line_of line ∷ []) (Fold past) → ⊥) }
{
    match history.tell(site, line) {
        Ok(history) => Ok(history),
        Err(fault) => Err(of_history(fault)),
    }
}

/// What these lines make, whose plans may be gone, behind what was told before.
///
/// Errors: OtherSite, only where they are no past with that; Memory.
fn tell_all_past(
    alloc: Global,
    goals: &[(u64, Text)],
    notes: &[(u64, JournalRow)],
    begun: History,
) -> Result<History, FindingFault>
    requires { AreByLine goals.now }
    ensures { MatchResult result
        (λ h. (before : List Line)
        → IsTold before (content begun.parts)
        → IsTold (before ++ lines_told goals.now notes.now) (content h.parts))
        (λ fault. (before : List Line)
        → fault ≡ finding.OtherSite
        → IsTold before (content begun.parts)
        → IsPast (before ++ lines_told goals.now notes.now) empty_book → ⊥) }
{
    let mut history = begun;
    for entry in notes {
        let line = line_for(alloc, goals, entry.0, &entry.1)?;
        history = match tell_past(history, line) {
            Ok(history) => history,
            Err(fault) => return Err(fault),
        };
    }
    Ok(history)
}

/// What these lines make besides, which the node of this site added.
///
/// Errors: OtherSite, only where they are no history behind what was told; Memory.
fn tell_all_since(
    alloc: Global,
    site: &Site,
    goals: &[(u64, Text)],
    notes: &[(u64, JournalRow)],
    begun: History,
) -> Result<History, FindingFault>
    requires { AreByLine goals.now }
    ensures { MatchResult result
        (λ h. (past earlier : List Line)
        → IsToldSince (site_routing site.now) past earlier (content begun.parts)
        → IsToldSince (site_routing site.now) past (earlier ++ lines_told goals.now notes.now)
        (content h.parts))
        (λ fault. (past earlier : List Line)
        → fault ≡ finding.OtherSite
        → IsToldSince (site_routing site.now) past earlier (content begun.parts)
        → IsHistory (site_routing site.now) (earlier ++ lines_told goals.now notes.now)
        (Fold past) → ⊥) }
{
    let mut history = begun;
    for entry in notes {
        let line = line_for(alloc, goals, entry.0, &entry.1)?;
        history = match tell_since(history, site, line) {
            Ok(history) => history,
            Err(fault) => return Err(fault),
        };
    }
    Ok(history)
}

/// What the whole journal makes, if it is one of this site's ledger: `begun` is what the lines
/// before these made, and the goals are in the order of their lines.
///
/// Errors: OtherSite, only where it is none; Memory.
pub fn tell(
    alloc: Global,
    site: &Site,
    goals: &[(u64, Text)],
    notes: &[(u64, JournalRow)],
    begun: History,
) -> Result<History, FindingFault>
    requires { AreByLine goals.now }
    ensures { (before : List Line)
        → IsTold before (content begun.parts)
        → GoOnUnder (site_routing site.now) before notes.now
        → MatchResult result
        (λ h. IsToldJournal (site_routing site.now) (before ++ lines_told goals.now notes.now)
        (content h.parts))
        (λ fault. fault ≡ finding.OtherSite
        → IsNoJournal (site_routing site.now) (before ++ lines_told goals.now notes.now)) }
{
    let (past, since) = notes.split_at(count_past(notes));
    match tell_all_past(alloc, goals, past, begun) {
        Ok(told) => tell_all_since(alloc, site, goals, since, told),
        Err(fault) => Err(fault),
    }
}
