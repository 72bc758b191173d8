//! A balance, read of its text.
ghost use Rattle.std.specs.Prelude.{◌≡◌, IfOk, MatchOption};
ghost use Rattle.dr_ledger_balance.specs.Balances.{FitsBalance, body_of};
ghost use Rattle.dr_ledger_balance.specs.Reading.{HasNoBody, Reads};
ghost use Rattle.dr_ledger_balance.specs.declared.balance.Balance.{Balance as BalanceValue};

use crate::balance::Balance;
use crate::fault::BalanceFault;
use crate::lists::cut_all;
use crate::orders::test_orders;
use crate::pieces::cut_end;
use crate::sealing::sealed_body;
use std::alloc::{AllocError, Global};

/// The balance that has these lines, in whatever order its lists are.
fn read_body(alloc: Global, body: &[u8]) -> Result<Option<Balance>, AllocError>
    ensures { IfOk result (λ found. MatchOption found (HasNoBody body.now)
        (λ b. FitsBalance b × (body.now ≡ body_of b))) }
{
    let (items, after_items) = cut_all(alloc, body)?;
    let (arrivals, after_arrivals) = cut_all(alloc, after_items)?;
    let (kept, after_kept) = cut_all(alloc, after_arrivals)?;
    let (rows, after_rows) = cut_all(alloc, after_kept)?;
    let Some((count, rest)) = cut_end(after_rows) else {
        return Ok(None);
    };
    if !rest.is_empty() {
        return Ok(None);
    }
    Ok(Some(Balance {
        count,
        items,
        arrivals,
        kept,
        rows,
    }))
}

/// The balance whose text these bytes are (`put_balance`), where it is of at most so many lines of
/// a journal. It reads in one pass, and takes the memory of what it answers.
///
/// Errors: Cut, Changed, NoBalance, MoreThanSaid, and OutOfOrder or Twice, in this order; Memory,
/// which may come before them.
pub fn read_balance(alloc: Global, bytes: &[u8], most: u64) -> Result<Balance, BalanceFault>
    ensures { Reads bytes.now most result }
{
    let body = sealed_body(alloc, bytes)?;
    let Some(balance) = read_body(alloc, body)? else {
        return Err(BalanceFault::NoBalance);
    };
    if balance.count > most {
        return Err(BalanceFault::MoreThanSaid);
    }
    test_orders(&balance)?;
    Ok(balance)
}
