//! What is wrong with a table of a form.
ghost use Rattle.std.specs.Prelude.{◌≡◌, IfOk, IfSome};
ghost use Rattle.dr_plan_model.specs.declared.plan.Format.{Format as Form};
ghost use Rattle.toml.specs.Data.{Members};
ghost use Rattle.toml.specs.View.{table_view};
ghost use Rattle.dr_plan_places.specs.FieldFlaws.{HasFlaw, IsAtFault, IsUnknown};

use dr_base::Text;
use dr_plan_model::Format;
use dr_plan_text::form::value_at;
use std::alloc::{AllocError, Global};
use toml::Table;

/// What is wrong with a field.
#[derive(Clone, Copy, PartialEq, Eq)]
pub enum Wrong {
    /// It has to stand there.
    Missing,
    /// No field of this key may stand there.
    Unknown,
    /// Its value isn't of its form.
    IllFormed,
}

/// The key of a field, and what is wrong with it.
#[derive(Drop)]
pub struct Flaw {
    pub key: Text,
    pub wrong: Wrong,
}

/// A form of table whose fields are looked at one by one. What a table of the form is may rest on
/// the format of the text.
pub trait Inspected {
    type Output;

    ghost is_table: { Form → Members → Self.Output → Type 0 };

    /// A key that no table of this form has, whatever the format.
    fn unknown_in<'a>(table: &'a Table) -> Option<&'a str>
        ensures { (format : Form)
            → IfSome result (λ key. IsUnknown (is_table format) (table_view table.now) key.now) };

    /// The first of the form's keys at which the table shows that it isn't of this form.
    fn fault_in(
        alloc: Global,
        format: Format,
        table: &Table,
    ) -> Result<Option<&'static str>, AllocError>
        ensures { IfOk result (λ found.
            IfSome found (λ key. IsAtFault (is_table format) (table_view table.now) key.now)) };
}

/// The flaw at a key.
fn flaw_at(alloc: Global, key: &str, wrong: Wrong) -> Result<Flaw, AllocError>
    ensures { IfOk result (λ flaw. (flaw.key ≡ key.now) × (flaw.wrong ≡ wrong)) }
{
    let key = Text::copy_of(alloc, key.as_bytes())?;
    Ok(Flaw { key, wrong })
}

/// A flaw of the table: a key that isn't known, else the first key of the form that shows one.
///
/// Errors: want of memory.
pub fn flaw_in<T: Inspected>(
    alloc: Global,
    format: Format,
    table: &Table,
) -> Result<Option<Flaw>, AllocError>
    ensures { IfOk result (λ found.
        IfSome found (HasFlaw (T.is_table format) (table_view table.now))) }
{
    if let Some(key) = T::unknown_in(table) {
        return Ok(Some(flaw_at(alloc, key, Wrong::Unknown)?));
    }
    let Some(key) = T::fault_in(alloc, format, table)? else {
        return Ok(None);
    };
    match value_at(table, key) {
        Some(_) => Ok(Some(flaw_at(alloc, key, Wrong::IllFormed)?)),
        None => Ok(Some(flaw_at(alloc, key, Wrong::Missing)?)),
    }
}
