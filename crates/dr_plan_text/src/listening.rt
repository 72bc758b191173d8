//! Where the table of a node says that it listens.
ghost use Rattle.std.specs.Prelude.{◌≡◌, ◌↔◌, IfOk, IfErr, IsTrue, None, codes};
ghost use Rattle.toml.specs.Data.{get_member};
ghost use Rattle.toml.specs.View.{table_view};
ghost use Rattle.dr_plan_model.specs.declared.listens.Listens.{Listens as Place};
ghost use Rattle.dr_plan_model.specs.Listening.{MayAccept};
ghost use Rattle.dr_plan_text.specs.Listening.{CallsOnly, SaysListens, IsListens};
ghost use Rattle.dr_plan_text.specs.declared.fault.ReadFault.TheVariants.{Field};

use crate::fault::ReadFault;
use crate::fields::{Address, Formed, Maybe};
use crate::form::{defaulted, required, value_at};
use dr_base::Seq;
use dr_plan_model::Listens;
use std::alloc::Global;
use toml::Table;

/// Whether nothing stands at the key.
pub fn is_absent(table: &Table, key: &str) -> bool
    ensures { IsTrue result ↔ (get_member key.now (table_view table.now) ≡ None) }
{
    match value_at(table, key) {
        Some(_) => false,
        None => true,
    }
}

/// Whether the node only calls: `listens = false`.
pub fn calls_only(table: &Table) -> bool
    ensures { IsTrue result ↔ CallsOnly (table_view table.now) }
{
    let Some(value) = value_at(table, "listens") else {
        return false;
    };
    value.as_bool() == Some(false)
}

/// Whether the table says that the node listens: by leaving it out, or by `listens = true` where
/// that may be said.
pub fn says_listens(table: &Table, may_say: bool) -> bool
    ensures { IsTrue result
        ↔ SaysListens may_say (get_member (codes "listens") (table_view table.now)) }
{
    let Some(value) = value_at(table, "listens") else {
        return true;
    };
    may_say && value.as_bool() == Some(true)
}

/// Where the node listens; whether `listens = true` may be said is given.
pub fn listens_in(alloc: Global, table: &Table, may_say: bool) -> Result<Listens, ReadFault>
    ensures ok { IfOk result (IsListens may_say (table_view table.now)) }
    ensures field { IfErr result (λ e.
        e ≡ Field → (place : Place) → IsListens may_say (table_view table.now) place → ⊥) }
{
    if calls_only(table) {
        if is_absent(table, "address") && is_absent(table, "bind") {
            return Ok(Listens::Nowhere);
        }
        return Err(ReadFault::Field);
    }
    if !says_listens(table, may_say) {
        return Err(ReadFault::Field);
    }
    let address = required::<Formed<Address>>(alloc, table, "address")?;
    let bind = defaulted::<Maybe<Formed<Address>>>(alloc, table, "bind", None)?;
    Ok(Listens::At { address, bind })
}

/// Whether a node that listens so may have these accept rows.
pub fn may_accept<T>(listens: &Listens, rows: &Seq<T>) -> bool
    ensures { IsTrue result ↔ MayAccept listens.now rows.now }
{
    match listens {
        Listens::Nowhere => rows.is_empty(),
        Listens::At { .. } => true,
    }
}
