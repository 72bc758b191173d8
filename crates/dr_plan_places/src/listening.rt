//! How the table of a node is at fault where it says that the node listens.
ghost use Rattle.std.specs.Prelude.{Bool, IfOk, IfSome, IsTrue, codes};
ghost use Rattle.toml.specs.Data.{get_member};
ghost use Rattle.toml.specs.View.{table_view};
ghost use Rattle.dr_plan_model.specs.Listening.{AtItsAddress, ListensFits};
ghost use Rattle.dr_plan_model.specs.declared.listens.Listens.{Listens as Place};
ghost use Rattle.dr_plan_model.specs.declared.plan.Format.{Format as Form};
ghost use Rattle.dr_plan_text.specs.Listening.{CallsOnly};
ghost use Rattle.dr_plan_places.specs.FieldFlaws.{IsAtFault};
ghost use Rattle.dr_plan_places.specs.Listening.{IsListensOf, HasItems};

use crate::keys::{misreads, misses};
use crate::rows::items_of;
use dr_plan_model::{Format, Listens};
use dr_plan_text::fields::{Address, Formed, Maybe};
use dr_plan_text::fits::listens_fits;
use dr_plan_text::listening::{calls_only, is_absent, says_listens};
use std::alloc::{AllocError, Global};
use toml::Table;

/// Whether `listens` is ill-formed: also where a node only calls, and the format hasn't that.
fn misreads_listens(format: Format, table: &Table, may_say: bool) -> bool
    ensures { IsTrue result
        → IsAtFault (IsListensOf may_say format) (table_view table.now) (codes "listens") }
{
    if calls_only(table) {
        return !listens_fits(format, &Listens::Nowhere);
    }
    !says_listens(table, may_say)
}

/// Whether an address is missing or ill-formed, or is given for a node that only calls.
///
/// Errors: want of memory.
fn misreads_address(alloc: Global, table: &Table) -> Result<bool, AllocError>
    ensures { IfOk result (λ b. IsTrue b → (may_say : Bool) → (format : Form)
        → IsAtFault (IsListensOf may_say format) (table_view table.now) (codes "address")) }
{
    if calls_only(table) {
        return Ok(!is_absent(table, "address"));
    }
    let wrong = misses::<Formed<Address>>(alloc, table, "address")?;
    Ok(wrong)
}

/// Whether all nodes of that format listen where others reach them.
fn is_before_third(format: Format) -> bool
    ensures { IsTrue result → (place : Place) → ListensFits format place → AtItsAddress place }
{
    match format {
        Format::One | Format::Two => true,
        Format::Three => false,
    }
}

/// Whether what a node binds to is ill-formed, or is given for a node that only calls, or in a
/// format that hasn't it.
///
/// Errors: want of memory.
fn misreads_bind(alloc: Global, format: Format, table: &Table) -> Result<bool, AllocError>
    ensures { IfOk result (λ b. IsTrue b → (may_say : Bool)
        → IsAtFault (IsListensOf may_say format) (table_view table.now) (codes "bind")) }
{
    if is_absent(table, "bind") {
        return Ok(false);
    }
    if calls_only(table) {
        return Ok(true);
    }
    if is_before_third(format) {
        return Ok(true);
    }
    let wrong = misreads::<Maybe<Formed<Address>>>(alloc, table, "bind")?;
    Ok(wrong)
}

/// The first key at which a node's table is at fault where it says that the node listens; whether
/// `listens = true` may be said is given.
///
/// Errors: want of memory.
pub fn listening_fault(
    alloc: Global,
    format: Format,
    table: &Table,
    may_say: bool,
) -> Result<Option<&'static str>, AllocError>
    ensures { IfOk result (λ found. IfSome found (λ key.
        IsAtFault (IsListensOf may_say format) (table_view table.now) key.now)) }
{
    if misreads_listens(format, table, may_say) {
        return Ok(Some("listens"));
    }
    if misreads_address(alloc, table)? {
        return Ok(Some("address"));
    }
    if misreads_bind(alloc, format, table)? {
        return Ok(Some("bind"));
    }
    Ok(None)
}

/// Whether a list with an item stands at the key.
fn has_items(table: &Table, key: &str) -> bool
    ensures { IsTrue result → HasItems (get_member key.now (table_view table.now)) }
{
    !items_of(table, key).is_empty()
}

/// Whether the table is that of a node that only calls, with an accept row.
pub fn calls_and_accepts(table: &Table) -> bool
    ensures calls { IsTrue result → CallsOnly (table_view table.now) }
    ensures accepts { IsTrue result
        → HasItems (get_member (codes "accept") (table_view table.now)) }
{
    calls_only(table) && has_items(table, "accept")
}
