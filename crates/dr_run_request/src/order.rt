//! What a node is told to do by the form of a request.
ghost use Rattle.std.specs.Prelude.{◌≡◌, MatchResult};
ghost use Rattle.dr_run_request.specs.Orders.{IsAsked};
ghost use Rattle.dr_run_request.specs.declared.order.Order.{Order as OrderValue};
ghost use Rattle.dr_run_request.specs.declared.route.Route.TheVariants as routes;
ghost use Rattle.dr_run_request.specs.declared.wanted.FormFault.TheVariants as fault;

use crate::form::value_in;
use crate::route::Route;
use crate::wanted::{FormFault, RowName, dest_of, row_of, uid_of};
use dr_base::Text;
use std::alloc::Global;

/// What a node is told to do.
#[derive(Debug, Drop)]
pub enum Order {
    /// To queue a held row again.
    Requeue(RowName),
    /// To queue again all rows to a destination that are held.
    RequeueAll(Text),
    /// To give a held row up.
    GiveUp(RowName),
    /// To forget an instance that is over.
    Forget(Text),
    /// To visit a destination now.
    Visit(Text),
}

/// What is to be queued again: one row, or, where the form names no UID, all of a destination.
///
/// Errors: Field, Memory.
fn requeue_of(alloc: Global, form: &[u8]) -> Result<Order, FormFault>
    ensures { MatchResult result
        (λ order. IsAsked order routes.Requeue form.now)
        (λ why. why ≡ fault.Field
        → (order : OrderValue) → IsAsked order routes.Requeue form.now → ⊥) }
{
    let uid = value_in(alloc, form, "uid")?;
    let dest = value_in(alloc, form, "dest")?;
    match (uid, dest) {
        (Some(uid), Some(dest)) => Ok(Order::Requeue(RowName { uid, dest })),
        (None, Some(dest)) => Ok(Order::RequeueAll(dest)),
        _ => Err(FormFault::Field),
    }
}

/// What the form of a request tells the node to do that is asked at that route.
///
/// Errors: Field where it lacks a field, or the route asks for nothing of the kind; Memory.
pub fn order_of(alloc: Global, route: Route, form: &[u8]) -> Result<Order, FormFault>
    ensures { MatchResult result
        (λ order. IsAsked order route form.now)
        (λ why. why ≡ fault.Field
        → (order : OrderValue) → IsAsked order route form.now → ⊥) }
{
    match route {
        Route::Requeue => requeue_of(alloc, form),
        Route::GiveUp => Ok(Order::GiveUp(row_of(alloc, form)?)),
        Route::Forget => Ok(Order::Forget(uid_of(alloc, form)?)),
        Route::Visit => Ok(Order::Visit(dest_of(alloc, form)?)),
        _ => Err(FormFault::Field),
    }
}
