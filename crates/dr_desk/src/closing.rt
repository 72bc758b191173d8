//! The end of a sharing: whether the passes agree with the journal, and what they count.
ghost use Rattle.std.specs.Prelude.{◌≡◌, ◌<◌, ◌≤◌, ◌+◌, ◌^◌, ◌↔◌, ◌++◌, All, IfErr, IfOk, IsTrue};
ghost use Rattle.std.specs.Prelude.{OnOk, length, map as mapped, sum_by};
ghost use Rattle.std.specs.List.{AllByRecursion, flat_map};
ghost use Rattle.dr_ledger.specs.Replies.{HasRisen, entry_of};
ghost use Rattle.dr_ledger.specs.declared.fault.LedgerFault.TheVariants.{Store};
ghost use Rattle.dr_desk.specs.Adoptions.{IsAsItWas};
ghost use Rattle.dr_desk.specs.Agreeing.{AreApart, Fails, IsOfLine, Rises, numbers, unread_by};
ghost use Rattle.dr_desk.specs.Paging.{Differs, unagreed_by};

use crate::desk::Desk;
use crate::paging::compare_lines;
use crate::pass::{Made, Pass};
use crate::receipt::Receipt;
use crate::sharing::Sharing;
use dr_ledger::LedgerFault;
use dr_ledger_views::Views;
use std::alloc::{AllocError, Global};
use std::collections::{BTreeSet, VecDeque};
use std::sync::ledger::{Book, Share};
use thiserror::Error;

/// Where receipts and journal don't agree.
#[derive(Clone, Copy, PartialEq, Eq, Debug)]
pub enum ReceiptMismatch {
    /// The journal has fewer lines than when the desk was shared.
    Beginning,
    /// A receipt isn't of the line at its number.
    OtherLine,
    /// In a pass the numbers don't rise.
    Falling,
    /// A number stands twice.
    Twice,
}

/// Why a sharing didn't end.
#[derive(Clone, Copy, PartialEq, Eq, Debug, Error)]
pub enum CloseFault {
    #[error("J1 Receipt")]
    Receipt(ReceiptMismatch),
    #[error("Store")]
    Store,
    #[error("Memory")]
    Memory,
}

impl From<AllocError> for CloseFault {
    ghost use Rattle.std.specs.Prelude.{◌≡◌};
    ghost use Rattle.dr_desk.specs.declared.closing.CloseFault.TheVariants.{Memory};

    ghost from_gives = { λ _ e. e ≡ Memory };

    fn from(_: AllocError) -> CloseFault {
        CloseFault::Memory
    }
}

/// Why receipts aren't found to agree with a journal: it can't be read, or that of the end of a
/// sharing.
#[derive(Clone, Copy, PartialEq, Eq, Debug)]
pub(crate) enum AgreeFault {
    Read(LedgerFault),
    Close(CloseFault),
}

impl From<AllocError> for AgreeFault {
    ghost use Rattle.std.specs.Prelude.{◌≡◌};
    ghost use Rattle.dr_desk.specs.declared.closing.AgreeFault.TheVariants.{Close};
    ghost use Rattle.dr_desk.specs.declared.closing.CloseFault.TheVariants.{Memory};

    ghost from_gives = { λ _ e. e ≡ Close Memory };

    fn from(_: AllocError) -> AgreeFault {
        AgreeFault::Close(CloseFault::Memory)
    }
}

/// A desk that is no longer shared, the sum of the lines that the passes count which came back, and
/// how many passes were made.
#[derive(Drop)]
pub struct Closed<L> {
    pub desk: Desk<L>,
    pub sum: u64,
    pub passes: u64,
}

/// A desk whose sharing has ended without agreement: why, and what was handed in.
#[derive(Drop)]
pub struct NotClosed<L, B: Sharing> {
    pub fault: CloseFault,
    pub desk: Desk<L>,
    pub passes: Vec<Pass<B>>,
}

/// Why a sharing doesn't end whose journal can't be read.
fn unread(why: LedgerFault) -> CloseFault
    ensures { result ≡ unread_by why }
{
    match why {
        LedgerFault::Memory => CloseFault::Memory,
        LedgerFault::NoLine
        | LedgerFault::Conflict
        | LedgerFault::Store
        | LedgerFault::NotWaiting
        | LedgerFault::NotHeld
        | LedgerFault::NotOver => CloseFault::Store,
    }
}

/// Why a sharing doesn't end whose receipts aren't found to agree.
pub(crate) fn unagreed(why: AgreeFault) -> CloseFault
    ensures { result ≡ unagreed_by why }
{
    match why {
        AgreeFault::Read(fault) => unread(fault),
        AgreeFault::Close(fault) => fault,
    }
}

/// Whether the journal still has as many lines as before, and the receipts agree with it.
pub(crate) fn agree<B: Sharing, L: Views>(
    alloc: Global,
    ledger: &mut L,
    before: u64,
    passes: &[Pass<B>],
) -> Result<(), AgreeFault>
    ensures same { IsAsItWas L.site L.book L.bodies L.stands L.failed ledger.old ledger.new }
    ensures begins { OnOk result (L.stands ledger.new
        → before ≤ length (L.book ledger.new).lines) }
    ensures of_lines { OnOk result (L.stands ledger.new
        → AllByRecursion (λ p.
        All (IsOfLine (mapped entry_of (L.book ledger.new).lines)) p.receipts.items) passes.now) }
    ensures rise { OnOk result (AllByRecursion (λ p. Rises p.receipts.items) passes.now) }
    ensures apart { OnOk result (AreApart (flat_map (λ p. numbers p.receipts.items) passes.now)) }
    ensures fault { IfErr result (λ why. L.stands ledger.new
        → Differs why (before ≤ length (L.book ledger.new).lines)
        (AllByRecursion (λ p.
        All (IsOfLine (mapped entry_of (L.book ledger.new).lines)) p.receipts.items) passes.now)
        (AllByRecursion (λ p. Rises p.receipts.items) passes.now)
        (AreApart (flat_map (λ p. numbers p.receipts.items) passes.now))) }
    ensures risen { IfErr result (λ why. why ≡ AgreeFault.Read Store
        → HasRisen (L.failed ledger.old) (L.failed ledger.new)) }
{
    let count = match ledger.line_count() {
        Ok(count) => count,
        Err(why) => return Err(AgreeFault::Read(why)),
    };
    if count < before {
        return Err(AgreeFault::Close(CloseFault::Receipt(ReceiptMismatch::Beginning)));
    }
    let all = numbers_of(alloc, passes)?;
    match compare_lines(ledger, count, all.as_slice(), passes) {
        Ok(()) => {}
        Err(why) => return Err(why),
    }
    match are_in_order(alloc, all.as_slice(), passes) {
        Ok(()) => Ok(()),
        Err(why) => Err(AgreeFault::Close(why)),
    }
}

/// Whether the numbers of the receipts rise in each pass, and none stands twice; `all` are they.
fn are_in_order<B: Sharing>(
    alloc: Global,
    all: &[u64],
    passes: &[Pass<B>],
) -> Result<(), CloseFault>
    requires { all.now ≡ flat_map (λ p. numbers p.receipts.items) passes.now }
    ensures rise { OnOk result (AllByRecursion (λ p. Rises p.receipts.items) passes.now) }
    ensures apart { OnOk result (AreApart (flat_map (λ p. numbers p.receipts.items) passes.now)) }
    ensures fault { IfErr result (λ why. Fails why (Unit {0}) (Unit {0})
        (AllByRecursion (λ p. Rises p.receipts.items) passes.now)
        (AreApart (flat_map (λ p. numbers p.receipts.items) passes.now))) }
{
    if !rise(passes) {
        return Err(CloseFault::Receipt(ReceiptMismatch::Falling));
    }
    if !are_apart(alloc, all)? {
        return Err(CloseFault::Receipt(ReceiptMismatch::Twice));
    }
    Ok(())
}

fn each_rises(receipts: &VecDeque<Receipt>) -> bool
    ensures { IsTrue result ↔ Rises receipts.now.items }
{
    for i in 1..receipts.len() {
        if receipts[i].number <= receipts[i - 1].number {
            return false;
        }
    }
    true
}

fn rise<B: Sharing>(passes: &[Pass<B>]) -> bool
    ensures { IsTrue result ↔ AllByRecursion (λ p. Rises p.receipts.items) passes.now }
{
    for pass in passes {
        if !each_rises(&pass.receipts) {
            return false;
        }
    }
    true
}

/// The numbers of the receipts, behind those that there are.
fn push_numbers(all: &mut Vec<u64>, receipts: &VecDeque<Receipt>) -> Result<(), AllocError>
    ensures { OnOk result (all.new.items ≡ all.old.items ++ numbers receipts.now.items) }
{
    for i in 0..receipts.len() {
        all.push(receipts[i].number)?;
    }
    Ok(())
}

fn numbers_of<B: Sharing>(alloc: Global, passes: &[Pass<B>]) -> Result<Vec<u64>, AllocError>
    ensures { IfOk result (λ all. all.items ≡ flat_map (λ p. numbers p.receipts.items) passes.now) }
{
    let mut all = Vec::new(alloc);
    for pass in passes {
        push_numbers(&mut all, &pass.receipts)?;
    }
    Ok(all)
}

/// Whether no number stands twice.
fn are_apart(alloc: Global, all: &[u64]) -> Result<bool, AllocError>
    ensures { IfOk result (λ apart. IsTrue apart ↔ AreApart all.now) }
{
    let mut seen = BTreeSet::new(alloc);
    for number in all {
        if !seen.insert(*number)? {
            return Ok(false);
        }
    }
    Ok(true)
}

/// What the passes count. With no pass missing it is the sum of all lines that were counted, and
/// else at most that.
pub(crate) fn joined<B: Sharing>(tally: Book<B>, rest: Share<B>, passes: Vec<Pass<B>>) -> u64
    requires total { tally.total < 2 ^ 64 }
    requires idle { rest.amount ≡ 0 }
    requires within { rest.parts ≤ B.parts }
    ensures sum { result ≡ sum_by (λ p. p.made.count) passes.items }
    ensures some { result ≤ tally.total }
    ensures all { rest.parts + length passes.items ≡ B.parts → result ≡ tally.total }
    ensures few { rest.parts + length passes.items ≤ B.parts }
{
    let mut tally = tally;
    let mut all = rest;
    let mut passes = passes;
    let mut sum = 0;
    while let Some(pass) = passes.pop() {
        let Pass { made, receipts: _ } = pass;
        let Made { count, share } = made;
        all.merge(share);
        tally.audit(&mut all);
        sum += count;
    }
    tally.audit(&mut all);
    sum
}
