//! The parts of modalities and of stations that neither plan tells apart.
ghost use Rattle.std.specs.Prelude.{◌≡◌, ◌++◌, ◌∷◌, [], IfOk, Contains, map};
ghost use Rattle.std.specs.Prelude.{◌↔◌, ◌⊎◌};
ghost use Rattle.dr_base.specs.Texts.{Text as Words};
ghost use Rattle.dr_route.specs.Laws.{IsPart};
ghost use Rattle.dr_route.specs.declared.cell.OwnedField.{OwnedField as Part};
ghost use Rattle.dr_route.specs.declared.cell.OwnedField.TheVariants as field;
ghost use Rattle.dr_cert_diff.specs.Differing.{values_of_both};
ghost use Rattle.dr_cert_diff.specs.Going.{ArePartsOf};

use dr_base::{Seq, Text};
use dr_plan_model::Plan;
use dr_plan_model::literals::literals;
use dr_route::names::{add_names, names_in_order};
use dr_route::{FieldValues, OwnedField};
use std::alloc::{AllocError, Global};
use std::collections::BTreeSet;

/// The names of both lists, in byte order and each once.
fn merged(alloc: Global, one: &[Text], other: &[Text]) -> Result<Seq<Text>, AllocError>
    ensures { IfOk result (λ seq.
        (t : Words) → Contains seq t ↔ (Contains one.now t ⊎ Contains other.now t)) }
{
    let mut names = BTreeSet::new(alloc);
    add_names(&mut names, one)?;
    add_names(&mut names, other)?;
    let all = names_in_order(alloc, names)?;
    Ok(all)
}

/// The parts of a field that are single values.
fn single_parts(alloc: Global, values: &[Text]) -> Result<Vec<OwnedField>, AllocError>
    ensures { IfOk result (λ v. v.items ≡ map (λ t. field.Literal t) values.now) }
{
    let mut parts = Vec::new(alloc);
    for value in values {
        parts.push(OwnedField::Literal(value.clone()?))?;
    }
    Ok(parts)
}

/// The parts of a field: each of these values, what begins with each of these prefixes, and all
/// others.
fn all_parts(
    alloc: Global,
    values: &[Text],
    prefixes: &[Text],
) -> Result<Vec<OwnedField>, AllocError>
    ensures { IfOk result (λ v. v.items
        ≡ map (λ t. field.Literal t) values.now ++ map (λ t. field.Prefix t) prefixes.now
        ++ field.Rest ∷ []) }
{
    let mut parts = single_parts(alloc, values)?;
    for prefix in prefixes {
        parts.push(OwnedField::Prefix(prefix.clone()?))?;
    }
    parts.push(OwnedField::Rest)?;
    Ok(parts)
}

/// The parts of a field that neither what the one plan names nor what the other does tells apart.
fn field_parts(
    alloc: Global,
    one: &FieldValues,
    other: &FieldValues,
) -> Result<Vec<OwnedField>, AllocError>
    ensures { IfOk result (λ v. (part : Part)
        → Contains v.items part ↔ IsPart (values_of_both one.now other.now) part) }
{
    let values = merged(alloc, one.literals.as_slice(), other.literals.as_slice())?;
    let prefixes = merged(alloc, one.prefixes.as_slice(), other.prefixes.as_slice())?;
    let parts = all_parts(alloc, values.as_slice(), prefixes.as_slice())?;
    Ok(parts)
}

/// The parts of the modalities and of the stations.
#[derive(Drop)]
pub struct FieldParts {
    pub modalities: Vec<OwnedField>,
    pub stations: Vec<OwnedField>,
}

/// The parts that neither plan tells apart.
pub fn parts_of(alloc: Global, old: &Plan, new: &Plan) -> Result<FieldParts, AllocError>
    ensures { IfOk result (ArePartsOf old.now new.now) }
{
    let one = literals(alloc, old)?;
    let other = literals(alloc, new)?;
    let modalities = field_parts(alloc, &one.modalities, &other.modalities)?;
    let stations = field_parts(alloc, &one.stations, &other.stations)?;
    Ok(FieldParts {
        modalities,
        stations,
    })
}
