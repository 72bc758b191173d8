//! Values and fields of a table, for any form of value.
ghost use Rattle.std.specs.Prelude.{◌≡◌, option_map, IsSome, IfOk, IfErr, List, ◌↔◌, IsTrue};
ghost use Rattle.std.specs.Prelude.{Contains, map};
ghost use Rattle.toml.specs.Data.{Data, Members, get_member};
ghost use Rattle.toml.specs.View.{view, items_view, table_view};
ghost use Rattle.dr_plan_text.specs.Fields.{ListsValues, IsListOf, IsSomeOf, SaysTable, Given};
ghost use Rattle.dr_plan_text.specs.Fields.{GivenOr};
ghost use Rattle.dr_plan_text.specs.Fields.{HasOnly};
ghost use Rattle.dr_plan_text.specs.declared.fault.ReadFault.TheVariants.{Field, Memory};

use crate::fault::ReadFault;
use dr_base::Seq;
use std::alloc::Global;
use toml::{Table, Value};

/// A form of value: what a value in TOML says, if it has that form. Forms are types of which no
/// value is made.
pub trait Form {
    type Output: Drop;

    ghost says: { Data → Self.Output → Type 0 };

    /// What the value says.
    fn read(alloc: Global, value: &Value) -> Result<Self::Output, ReadFault>
        ensures ok { IfOk result (says (view value.now)) }
        ensures field { IfErr result (λ e.
            e ≡ Field → (x : Self.Output) → says (view value.now) x → ⊥) };
}

/// What the values of an array say, in order.
fn read_items<F: Form>(alloc: Global, items: &[Value]) -> Result<Seq<F::Output>, ReadFault>
    ensures ok { IfOk result (ListsValues F.says (items_view items.now)) }
    ensures field { IfErr result (λ e.
        e ≡ Field → (xs : List F.Output) → ListsValues F.says (items_view items.now) xs → ⊥) }
{
    let mut read = Vec::new(alloc);
    for item in items {
        read.push(F::read(alloc, item)?)?;
    }
    Ok(Seq::from_vec(read))
}

/// An array of values of one form.
pub struct ListOf<F>(pub F);

impl<F: Form> Form for ListOf<F> {
    type Output = Seq<F::Output>;

    ghost says = { IsListOf F.says };

    fn read(alloc: Global, value: &Value) -> Result<Seq<F::Output>, ReadFault> {
        let Some(items) = value.as_array() else {
            return Err(ReadFault::Field);
        };
        read_items::<F>(alloc, items)
    }
}

/// An array of one value or more.
pub struct SomeOf<F>(pub F);

impl<F: Form> Form for SomeOf<F> {
    type Output = Seq<F::Output>;

    ghost says = { IsSomeOf F.says };

    fn read(alloc: Global, value: &Value) -> Result<Seq<F::Output>, ReadFault> {
        let values = ListOf::<F>::read(alloc, value)?;
        if values.is_empty() {
            return Err(ReadFault::Field);
        }
        Ok(values)
    }
}

/// A form of table: what a table of that form says.
pub trait TableForm {
    type Output: Drop;

    ghost is_table: { Members → Self.Output → Type 0 };

    /// What the table says.
    fn read_table(alloc: Global, table: &Table) -> Result<Self::Output, ReadFault>
        ensures ok { IfOk result (is_table (table_view table.now)) }
        ensures field { IfErr result (λ e.
            e ≡ Field → (x : Self.Output) → is_table (table_view table.now) x → ⊥) };
}

/// A table of one form.
pub struct TableOf<T>(pub T);

impl<T: TableForm> Form for TableOf<T> {
    type Output = T::Output;

    ghost says = { SaysTable T.is_table };

    fn read(alloc: Global, value: &Value) -> Result<T::Output, ReadFault> {
        let Some(table) = value.as_table() else {
            return Err(ReadFault::Field);
        };
        T::read_table(alloc, table)
    }
}

/// The value at a key.
pub fn value_at<'a>(table: &'a Table, key: &str) -> Option<&'a Value>
    ensures { option_map (λ v. view v.now) result ≡ get_member key.now (table_view table.now) }
{
    table.get(key)
}

/// What the value at a key says, which must stand there.
pub fn required<F: Form>(alloc: Global, table: &Table, key: &str) -> Result<F::Output, ReadFault>
    ensures ok { IfOk result (Given F.says (get_member key.now (table_view table.now))) }
    ensures field { IfErr result (λ e. e ≡ Field → (x : F.Output)
        → Given F.says (get_member key.now (table_view table.now)) x
        → ⊥) }
{
    match value_at(table, key) {
        Some(value) => F::read(alloc, value),
        None => Err(ReadFault::Field),
    }
}

/// What the value at a key says, and the default where none stands there.
pub fn defaulted<F: Form>(
    alloc: Global,
    table: &Table,
    key: &str,
    default: F::Output,
) -> Result<F::Output, ReadFault>
    ensures ok { IfOk result (GivenOr default F.says (get_member key.now (table_view table.now))) }
    ensures field { IfErr result (λ e. e ≡ Field → (x : F.Output)
        → GivenOr default F.says (get_member key.now (table_view table.now)) x
        → ⊥) }
    ensures memory { IfErr result (λ e.
        e ≡ Memory → IsSome (get_member key.now (table_view table.now))) }
{
    match value_at(table, key) {
        Some(value) => F::read(alloc, value),
        None => Ok(default),
    }
}

/// Whether the key is known.
pub fn is_among(known: &[&str], key: &str) -> bool
    ensures { IsTrue result ↔ Contains (map (λ k. k.now) known.now) key.now }
{
    for k in known {
        if *k == key {
            return true;
        }
    }
    false
}

/// Whether the table has no key but these.
pub fn has_only(table: &Table, known: &[&str]) -> bool
    ensures { IsTrue result ↔ HasOnly (map (λ k. k.now) known.now) (table_view table.now) }
{
    for key in table.keys() {
        if !is_among(known, key.as_str()) {
            return false;
        }
    }
    true
}
