//! Receipts that are compared with a journal, page by page.
ghost use Rattle.std.specs.Prelude.{◌≡◌, ◌<◌, ◌≤◌, ◌+◌, ◌↔◌, ◌++◌, ◌∷◌, [], ℕ, All, IfErr, IfOk};
ghost use Rattle.std.specs.Prelude.{IfSome, IsTrue, List, OnOk, length, map as mapped};
ghost use Rattle.std.specs.List.{AllByRecursion, flat_map};
ghost use Rattle.dr_ledger.specs.Replies.{HasRisen, entry_of};
ghost use Rattle.dr_ledger.specs.declared.fault.LedgerFault.TheVariants.{Store};
ghost use Rattle.dr_desk.specs.Adoptions.{IsAsItWas};
ghost use Rattle.dr_desk.specs.Agreeing.{IsOfLine, numbers};
ghost use Rattle.dr_desk.specs.Paging.{AgreesWith, Differs, IsLeastFrom, IsOfLineWithin};

use crate::closing::{AgreeFault, CloseFault, ReceiptMismatch};
use crate::pass::Pass;
use crate::receipt::{Receipt, records};
use crate::sharing::Sharing;
use dr_ledger_history::JournalLine;
use dr_ledger_views::Views;
use std::collections::VecDeque;

/// How many lines of the journal are read at once.
const PAGE: u32 = 4_096;

/// A receipt isn't of the line at its number.
fn other_line() -> AgreeFault
    ensures { result ≡ AgreeFault.Close (CloseFault.Receipt ReceiptMismatch.OtherLine) }
{
    AgreeFault::Close(CloseFault::Receipt(ReceiptMismatch::OtherLine))
}

/// Whether the receipt is of its line, where the page has it.
fn agrees_with(page: &[JournalLine], after: u64, receipt: &Receipt) -> bool
    ensures { IsTrue result ↔ AgreesWith after page.now receipt.now }
{
    if receipt.number <= after {
        return true;
    }
    match page.get((receipt.number - after - 1) as usize) {
        None => true,
        Some(line) => records(line, receipt),
    }
}

fn each_agrees(page: &[JournalLine], after: u64, receipts: &VecDeque<Receipt>) -> bool
    ensures { IsTrue result ↔ All (AgreesWith after page.now) receipts.now.items }
{
    for i in 0..receipts.len() {
        if !agrees_with(page, after, &receipts[i]) {
            return false;
        }
    }
    true
}

fn all_agree<B: Sharing>(page: &[JournalLine], after: u64, passes: &[Pass<B>]) -> bool
    ensures { IsTrue result
        ↔ AllByRecursion (λ p. All (AgreesWith after page.now) p.receipts.items) passes.now }
{
    for pass in passes {
        if !each_agrees(page, after, &pass.receipts) {
            return false;
        }
    }
    true
}

/// The least of the numbers from that one on, where there is one more of them.
fn lesser(least: Option<u64>, from: u64, number: u64) -> Option<u64>
    ensures { (all : List ℕ) → IsLeastFrom from all least
        → IsLeastFrom from (all ++ number ∷ []) result }
{
    if number < from {
        return least;
    }
    let Some(other) = least else {
        return Some(number);
    };
    if number < other {
        return Some(number);
    }
    least
}

/// The least of the numbers from that one on.
fn least_from(all: &[u64], from: u64) -> Option<u64>
    ensures { IsLeastFrom from all.now result }
{
    let mut least = None;
    for number in all {
        least = lesser(least, from, *number);
    }
    least
}

/// The number behind a page that begins with the line of that number, and has a line.
fn behind(next: u64, page: &[JournalLine]) -> Option<u64>
    ensures { IfSome result (λ from. (next < from) × (from ≡ next + length page.now)) }
{
    let from = next.checked_add(page.len() as u64)?;
    if from <= next {
        return None;
    }
    Some(from)
}

/// Reads the page that begins with the line of that number, and compares the receipts with it whose
/// lines it has. Answers the number behind it.
fn compare_page<B: Sharing, L: Views>(
    ledger: &mut L,
    next: u64,
    passes: &[Pass<B>],
) -> Result<u64, AgreeFault>
    requires { 1 ≤ next }
    ensures same { IsAsItWas L.site L.book L.bodies L.stands L.failed ledger.old ledger.new }
    ensures further { IfOk result (λ from. next < from) }
    ensures of_lines { IfOk result (λ from. L.stands ledger.new
        → AllByRecursion (λ p.
        All (IsOfLineWithin next from (mapped entry_of (L.book ledger.new).lines))
        p.receipts.items) passes.now) }
    ensures fault { IfErr result (λ why. L.stands ledger.new
        → Differs why (Unit {0})
        (AllByRecursion (λ p.
        All (IsOfLine (mapped entry_of (L.book ledger.new).lines)) p.receipts.items) passes.now)
        (Unit {0}) (Unit {0})) }
    ensures risen { IfErr result (λ why. why ≡ AgreeFault.Read Store
        → HasRisen (L.failed ledger.old) (L.failed ledger.new)) }
{
    let page = match ledger.lines_behind(next - 1, PAGE) {
        Ok(page) => page,
        Err(why) => return Err(AgreeFault::Read(why)),
    };
    if !all_agree(page.as_slice(), next - 1, passes) {
        return Err(other_line());
    }
    match behind(next, page.as_slice()) {
        Some(from) => Ok(from),
        None => Err(AgreeFault::Close(CloseFault::Store)),
    }
}

/// Compares the receipts with the journal, which has so many lines. It is read by pages, from the
/// line on that has the least number of a receipt; `all` are their numbers. Where receipts have no
/// line for a while, no page is read.
pub(crate) fn compare_lines<B: Sharing, L: Views>(
    ledger: &mut L,
    count: u64,
    all: &[u64],
    passes: &[Pass<B>],
) -> Result<(), AgreeFault>
    requires all { all.now ≡ flat_map (λ p. numbers p.receipts.items) passes.now }
    requires count { L.stands ledger.old → count ≡ length (L.book ledger.old).lines }
    ensures same { IsAsItWas L.site L.book L.bodies L.stands L.failed ledger.old ledger.new }
    ensures of_lines { OnOk result (L.stands ledger.new
        → AllByRecursion (λ p.
        All (IsOfLine (mapped entry_of (L.book ledger.new).lines)) p.receipts.items) passes.now) }
    ensures fault { IfErr result (λ why. L.stands ledger.new
        → Differs why (Unit {0})
        (AllByRecursion (λ p.
        All (IsOfLine (mapped entry_of (L.book ledger.new).lines)) p.receipts.items) passes.now)
        (Unit {0}) (Unit {0})) }
    ensures risen { IfErr result (λ why. why ≡ AgreeFault.Read Store
        → HasRisen (L.failed ledger.old) (L.failed ledger.new)) }
{
    let mut from = 0;
    while let Some(next) = least_from(all, from) {
        if next == 0 {
            return Err(other_line());
        }
        if next > count {
            return Err(other_line());
        }
        match compare_page(ledger, next, passes) {
            Ok(behind) => from = behind,
            Err(why) => return Err(why),
        }
    }
    Ok(())
}
