//! Whether lists are in the order of their keys.
ghost use Rattle.std.specs.Prelude.{◌≡◌, ◌⊎◌};
ghost use Rattle.std.specs.Cmp.{IsTotalOrder};
ghost use Rattle.std.specs.declared.cmp.Ordering.TheVariants as order;
ghost use Rattle.dr_ledger_balance.specs.Orders.{AnswersOrder, AnswersPair};
ghost use Rattle.dr_ledger_balance.specs.Reading.{AnswersOrders};

use crate::balance::Balance;
use crate::fault::BalanceFault;
use crate::spelled::Spelled;
use std::cmp::Ordering;

/// Whether the one comes before the next.
fn test_pair<S: Spelled>(one: &S, next: &S) -> Result<(), BalanceFault>
    ensures { AnswersPair (S.order one.now next.now) result }
{
    match one.compare(next) {
        Ordering::Less => Ok(()),
        Ordering::Equal => Err(BalanceFault::Twice),
        Ordering::Greater => Err(BalanceFault::OutOfOrder),
    }
}

/// Whether each comes before the next.
fn test_order<S: Spelled>(pieces: &[S]) -> Result<(), BalanceFault>
    requires { IsTotalOrder S.order }
    ensures { AnswersOrder S.order pieces.now result }
{
    for i in 1..pieces.len() {
        test_pair(&pieces[i - 1], &pieces[i])?;
    }
    Ok(())
}

/// Whether each list is in order.
pub fn test_orders(balance: &Balance) -> Result<(), BalanceFault>
    ensures { AnswersOrders balance.now result }
{
    test_order(balance.items.as_slice())?;
    test_order(balance.arrivals.as_slice())?;
    test_order(balance.kept.as_slice())?;
    test_order(balance.rows.as_slice())?;
    Ok(())
}
