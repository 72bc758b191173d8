//! What one caller of a shared desk did.
ghost use Rattle.std.specs.Prelude.{◌≡◌, ◌<◌, ◌≤◌, ◌+◌, ◌-◌, ◌^◌, ◌++◌, ◌∷◌, [], IfOk, length};
ghost use Rattle.std.specs.VecDeque.{deque_len, deque_capacity};
ghost use Rattle.dr_desk.specs.Receipts.{newest};

use crate::receipt::Receipt;
use crate::sharing::Sharing;
use std::alloc::{AllocError, Global};
use std::collections::VecDeque;
use std::sync::ledger::{Book, Share};
use thiserror::Error;

/// How many receipts a pass holds.
const KEPT: usize = 1024;

/// 65,535 passes were made.
#[derive(Clone, Copy, PartialEq, Eq, Debug, Error)]
#[error("J2 TooManyPasses")]
pub struct TooManyPasses;

/// How many lines were made, by whom: the count and a part of the sharing, whose amount it is.
#[derive(Drop)]
pub(crate) struct Made<B: Sharing> {
    pub(crate) count: u64,
    pub(crate) share: Share<B>,
    pub ghost one: { share.parts ≡ 1 },
    pub ghost counted: { share.amount ≡ count },
}

impl<B: Sharing> Made<B> {
    /// One line more: it counts here, and in the sum of all. Answers its number.
    pub(crate) fn count_line(&mut self, tally: &mut Book<B>, number: &mut u64) -> u64
        requires room { number.old < 2 ^ 64 - 1 }
        requires within { tally.old.total ≤ number.old }
        ensures tally { tally.new.total ≡ tally.old.total + 1 }
        ensures number { number.new ≡ number.old + 1 }
        ensures count { self.new.count ≡ self.old.count + 1 }
        ensures answers { result ≡ number.new }
    {
        let Made { count, share } = self;
        tally.audit(share);
        tally.add(share, 1);
        *count += 1;
        *number += 1;
        *number
    }
}

/// A caller's pass: how many lines its calls made, and receipts for the last 1,024 of them.
#[derive(Drop)]
pub struct Pass<B: Sharing> {
    pub(crate) made: Made<B>,
    pub(crate) receipts: VecDeque<Receipt>,
    pub ghost few: { length receipts.items ≤ 1024 },
}

impl<B: Sharing> Pass<B> {
    /// The pass of one that did nothing.
    pub(crate) fn new(alloc: Global, share: Share<B>) -> Pass<B>
        requires one { share.parts ≡ 1 }
        requires idle { share.amount ≡ 0 }
        ensures { (result.made.count ≡ 0) × (result.receipts.items ≡ []) }
    {
        let made = Made { count: 0, share };
        Pass {
            made,
            receipts: VecDeque::new(alloc),
        }
    }

    /// How many lines its calls made.
    pub fn count(&self) -> u64
        ensures { result ≡ self.now.made.count }
    {
        self.made.count
    }

    /// Receipts for the last 1,024 lines that its calls made, the oldest first.
    pub fn receipts(&self) -> &VecDeque<Receipt>
        ensures { result.now.items ≡ self.now.receipts.items }
    {
        &self.receipts
    }

    /// Room for one receipt more, so that none is wanting once a line is made.
    pub(crate) fn make_room(&mut self) -> Result<(), AllocError>
        ensures room { IfOk result (λ done.
            (length self.new.receipts.items < 1024
            → deque_len self.new.receipts < deque_capacity self.new.receipts)) }
        ensures count { self.new.made.count ≡ self.old.made.count }
        ensures receipts { self.new.receipts.items ≡ self.old.receipts.items }
    {
        if self.receipts.len() < KEPT {
            self.receipts.reserve(1)?;
        }
        Ok(())
    }

    /// One receipt more; of 1,024 the oldest goes.
    pub(crate) fn note(&mut self, receipt: Receipt)
        requires { length self.old.receipts.items < 1024
            → deque_len self.old.receipts < deque_capacity self.old.receipts }
        ensures count { self.new.made.count ≡ self.old.made.count }
        ensures receipts { self.new.receipts.items
            ≡ newest (self.old.receipts.items ++ receipt ∷ []) }
    {
        if self.receipts.len() == KEPT {
            let _ = self.receipts.pop_front();
        }
        self.receipts.push_back_reserved(receipt);
    }
}
