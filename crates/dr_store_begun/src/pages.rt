//! Lines of a past, read by pages and told.
ghost use Rattle.std.specs.Prelude.{◌≡◌, ◌+◌, ◌≤◌, ◌++◌, IfErr, IfOk, MatchResult};
ghost use Rattle.std.specs.Prelude.{List, drop, length, take};
ghost use Rattle.dr_ledger.specs.Books.{Line, empty_book};
ghost use Rattle.dr_ledger.specs.Histories.{IsPast};
ghost use Rattle.dr_ledger_history.specs.Contents.{content};
ghost use Rattle.dr_ledger_history.specs.Lines.{lines_of};
ghost use Rattle.dr_ledger_history.specs.Told.{IsTold};
ghost use Rattle.dr_ledger_history.specs.declared.line.HistoryFault.TheVariants as history;
ghost use Rattle.dr_store_begun.specs.Beginning.{IsOnlyRead, IsWhyNotBegun, lines_in};

use crate::fault::BeginFault;
use dr_base::Seq;
use dr_ledger_history::{History, HistoryFault, JournalLine};
use dr_store_past::LedgerPast;

/// So many lines of a past are read at a time.
const PAGE: u64 = 4096;

/// Tells the lines of a page, whose plans may be gone, behind what was told before.
///
/// Errors: NoCall, only where they are no past with that; Memory.
fn tell_page(begun: History, page: Seq<JournalLine>) -> Result<History, HistoryFault>
    ensures { MatchResult result
        (λ h. (before : List Line)
        → IsTold before (content begun.parts)
        → IsTold (before ++ lines_of page) (content h.parts))
        (λ fault. (before : List Line)
        → fault ≡ history.NoCall
        → IsTold before (content begun.parts)
        → IsPast (before ++ lines_of page) empty_book → ⊥) }
{
    let mut told = begun;
    for line in page.into_vec() {
        told = match told.tell_past(line) {
            Ok(told) => told,
            Err(fault) => return Err(fault),
        };
    }
    Ok(told)
}

/// Reads so many lines of a past behind that number. They are there, where the past goes so far.
///
/// Errors: Unread, Memory; Miscounted, only where what is shown isn't the past.
fn read_page<P: LedgerPast>(
    past: &mut P,
    after: u64,
    more: u32,
) -> Result<Seq<JournalLine>, BeginFault>
    ensures page { IfOk result (λ page. P.is_clean past.new
        → lines_of page ≡ take more (drop after (lines_in P.LedgerPast past.old))) }
    ensures size { IfOk result (λ page. length page ≡ more) }
    ensures read { IsOnlyRead P.LedgerPast past.old past.new }
    ensures why { after + more ≤ (P.reach past.old).count
        → IfErr result (IsWhyNotBegun P.LedgerPast past.old past.new (Unit {0})) }
{
    let page = past.lines_behind(after, more)?;
    if page.len() != more as usize {
        return Err(BeginFault::Miscounted);
    }
    Ok(page)
}

/// Reads and tells so many lines of a past behind that number.
///
/// Errors: Unread, Memory; Miscounted, only where what is shown isn't the past; NoHistory, only
/// where its lines are no history of a ledger.
fn tell_next<P: LedgerPast>(
    begun: History,
    past: &mut P,
    after: u64,
    more: u32,
) -> Result<History, BeginFault>
    ensures told { IfOk result (λ h. P.is_clean past.new
        → IsTold (take after (lines_in P.LedgerPast past.old)) (content begun.parts)
        → IsTold (take (after + more) (lines_in P.LedgerPast past.old)) (content h.parts)) }
    ensures read { IsOnlyRead P.LedgerPast past.old past.new }
    ensures why { after + more ≤ (P.reach past.old).count
        → IfErr result (IsWhyNotBegun P.LedgerPast past.old past.new
        (IsTold (take after (lines_in P.LedgerPast past.old)) (content begun.parts))) }
{
    let page = match read_page(past, after, more) {
        Ok(page) => page,
        Err(fault) => return Err(fault),
    };
    let told = tell_page(begun, page)?;
    Ok(told)
}

/// Reads and tells the lines of a past behind that number, a page at a time, up to its seal.
///
/// Errors: as `tell_next`.
pub fn tell_behind<P: LedgerPast>(
    begun: History,
    past: &mut P,
    first: u64,
) -> Result<History, BeginFault>
    ensures told { IfOk result (λ h. P.is_clean past.new
        → IsTold (take first (lines_in P.LedgerPast past.old)) (content begun.parts)
        → IsTold (lines_in P.LedgerPast past.old) (content h.parts)) }
    ensures read { IsOnlyRead P.LedgerPast past.old past.new }
    ensures why { IfErr result (IsWhyNotBegun P.LedgerPast past.old past.new
        (IsTold (take first (lines_in P.LedgerPast past.old)) (content begun.parts))) }
    ensures nothing { (P.reach past.old).count ≤ first → IfErr result (λ fault. ⊥) }
{
    let count = past.seal().count;
    let mut told = begun;
    let mut after = first;
    while after < count {
        let more = PAGE.min(count - after) as u32;
        told = match tell_next(told, past, after, more) {
            Ok(told) => told,
            Err(fault) => return Err(fault),
        };
        after += u64::from(more);
    }
    Ok(told)
}
