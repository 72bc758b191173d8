//! Single fields of a table.
ghost use Rattle.std.specs.Prelude.{◌≡◌, IfOk, IfSome, IsTrue, IsSome, Contains, List, codes, map};
ghost use Rattle.toml.specs.Data.{get_member};
ghost use Rattle.toml.specs.View.{table_view};
ghost use Rattle.dr_base.specs.Texts.{Text as Words};
ghost use Rattle.dr_route.specs.declared.rule.FieldPattern.{FieldPattern};
ghost use Rattle.dr_plan_model.specs.declared.plan.Values.{Values};
ghost use Rattle.dr_plan_model.specs.Formed.{ModalitiesFit, StationsFit, ExceptionsFit};
ghost use Rattle.dr_plan_model.specs.Naming.{prefix_of, listed_prefixes};
ghost use Rattle.dr_plan_text.specs.Fields.{Given, GivenOr, SaysField, SaysExceptions, SaysValues};

use dr_plan_model::Format;
use dr_plan_text::fault::ReadFault;
use dr_plan_text::fits::{
    exceptions_fit, modalities_fit, modality_fits, station_fits, stations_fit,
};
use dr_plan_text::form::{Form, is_among, required, value_at};
use dr_plan_text::values::{AnyValue, AnyValues, Exceptions};
use std::alloc::{AllocError, Global};
use toml::Table;

/// Whether a field is missing or ill-formed that has to stand at the key.
///
/// Errors: want of memory.
pub fn misses<F: Form>(alloc: Global, table: &Table, key: &str) -> Result<bool, AllocError>
    ensures { IfOk result (λ b. IsTrue b → (x : F.Output)
        → Given F.says (get_member key.now (table_view table.now)) x
        → ⊥) }
{
    match required::<F>(alloc, table, key) {
        Ok(_) => Ok(false),
        Err(ReadFault::Field) => Ok(true),
        Err(ReadFault::Memory) => Err(AllocError),
    }
}

/// Whether a field is ill-formed that may be left out.
///
/// Errors: want of memory.
pub fn misreads<F: Form>(alloc: Global, table: &Table, key: &str) -> Result<bool, AllocError>
    ensures { IfOk result (λ b. IsTrue b → (default x : F.Output)
        → GivenOr default F.says (get_member key.now (table_view table.now)) x
        → ⊥) }
{
    let Some(value) = value_at(table, key) else {
        return Ok(false);
    };
    match F::read(alloc, value) {
        Ok(_) => Ok(false),
        Err(ReadFault::Field) => Ok(true),
        Err(ReadFault::Memory) => Err(AllocError),
    }
}

/// Whether the modality of a rule is ill-formed: also where it is a prefix, and the format has
/// none.
///
/// Errors: want of memory.
pub fn misreads_modality(alloc: Global, format: Format, table: &Table) -> Result<bool, AllocError>
    ensures { IfOk result (λ b. IsTrue b
        → (default x : FieldPattern)
        → GivenOr default SaysField (get_member (codes "modality") (table_view table.now)) x
        → ModalitiesFit format (prefix_of x) → ⊥) }
{
    let Some(value) = value_at(table, "modality") else {
        return Ok(false);
    };
    match AnyValue::read(alloc, value) {
        Ok(pattern) => Ok(!modality_fits(format, &pattern)),
        Err(ReadFault::Field) => Ok(true),
        Err(ReadFault::Memory) => Err(AllocError),
    }
}

/// Whether the station of a rule is ill-formed: also where it is a prefix, and the format has none.
///
/// Errors: want of memory.
pub fn misreads_station(alloc: Global, format: Format, table: &Table) -> Result<bool, AllocError>
    ensures { IfOk result (λ b. IsTrue b
        → (default x : FieldPattern)
        → GivenOr default SaysField (get_member (codes "station") (table_view table.now)) x
        → StationsFit format (prefix_of x) → ⊥) }
{
    let Some(value) = value_at(table, "station") else {
        return Ok(false);
    };
    match AnyValue::read(alloc, value) {
        Ok(pattern) => Ok(!station_fits(format, &pattern)),
        Err(ReadFault::Field) => Ok(true),
        Err(ReadFault::Memory) => Err(AllocError),
    }
}

/// Whether the stations that a rule excepts are ill-formed: also where there are some, and the
/// format has no exceptions.
///
/// Errors: want of memory.
pub fn misreads_except(alloc: Global, format: Format, table: &Table) -> Result<bool, AllocError>
    ensures { IfOk result (λ b. IsTrue b
        → (default x : List Words)
        → GivenOr default SaysExceptions (get_member (codes "except") (table_view table.now)) x
        → ExceptionsFit format x → ⊥) }
{
    let Some(value) = value_at(table, "except") else {
        return Ok(false);
    };
    match Exceptions::read(alloc, value) {
        Ok(stations) => Ok(!exceptions_fit(format, &stations)),
        Err(ReadFault::Field) => Ok(true),
        Err(ReadFault::Memory) => Err(AllocError),
    }
}

/// Whether the modalities of a flow are missing or ill-formed: also where one is a prefix, and the
/// format has none.
///
/// Errors: want of memory.
pub fn misses_modalities(alloc: Global, format: Format, table: &Table) -> Result<bool, AllocError>
    ensures { IfOk result (λ b. IsTrue b → (x : Values)
        → Given SaysValues (get_member (codes "modality") (table_view table.now)) x
        → ModalitiesFit format (listed_prefixes x) → ⊥) }
{
    match required::<AnyValues>(alloc, table, "modality") {
        Ok(values) => Ok(!modalities_fit(format, &values)),
        Err(ReadFault::Field) => Ok(true),
        Err(ReadFault::Memory) => Err(AllocError),
    }
}

/// Whether the stations of a flow are missing or ill-formed: also where one is a prefix, and the
/// format has none.
///
/// Errors: want of memory.
pub fn misses_stations(alloc: Global, format: Format, table: &Table) -> Result<bool, AllocError>
    ensures { IfOk result (λ b. IsTrue b → (x : Values)
        → Given SaysValues (get_member (codes "station") (table_view table.now)) x
        → StationsFit format (listed_prefixes x) → ⊥) }
{
    match required::<AnyValues>(alloc, table, "station") {
        Ok(values) => Ok(!stations_fit(format, &values)),
        Err(ReadFault::Field) => Ok(true),
        Err(ReadFault::Memory) => Err(AllocError),
    }
}

/// Whether a value stands at the key.
fn is_given(table: &Table, key: &str) -> bool
    ensures { IsTrue result → IsSome (get_member key.now (table_view table.now)) }
{
    match value_at(table, key) {
        Some(_) => true,
        None => false,
    }
}

/// The first key of the table that isn't known.
pub fn unknown_key<'a>(table: &'a Table, known: &[&str]) -> Option<&'a str>
    ensures { IfSome result (λ key. IsSome (get_member key.now (table_view table.now))
        × (Contains (map (λ k. k.now) known.now) key.now → ⊥)) }
{
    for key in table.keys() {
        let key = key.as_str();
        if is_among(known, key) {
            continue;
        }
        if is_given(table, key) {
            return Some(key);
        }
    }
    None
}
