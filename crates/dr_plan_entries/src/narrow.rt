//! Flows, and those of them that speak of one value.
ghost use Rattle.std.specs.Prelude.{◌≡◌, ◌↔◌, IsTrue, IfOk, MatchOption, Contains, Some, slice_get};
ghost use Rattle.std.specs.Prelude.{ℕ, false};
ghost use Rattle.dr_route.specs.declared.cell.OwnedField.{OwnedField as FieldValue};
ghost use Rattle.dr_route.specs.declared.cell.OwnedCell.{OwnedCell as CellValue};
ghost use Rattle.dr_base.specs.Texts.{Text as Words, IsInByteOrder};
ghost use Rattle.dr_plan_model.specs.declared.plan.Flow.{Flow as FlowValue};
ghost use Rattle.dr_plan_model.specs.Naming.{listed_literals};
ghost use Rattle.dr_plan_model.specs.Listings.{IsListedBy, AreListedBy};
ghost use Rattle.dr_route.specs.Cells.{owned_field};
ghost use Rattle.dr_plan_entries.specs.Entering.{AdmitsField, SpeaksOf, SpeaksAt};
ghost use Rattle.dr_plan_entries.specs.Entering.{NoneSpeaks, TakesIn, AreNarrowed};
ghost use Rattle.dr_plan_entries.specs.Entering.{AllBelow};

use dr_base::{Syntax, Text};
use dr_plan_model::sending::begins_one;
use dr_plan_model::{Flow, Listed, Values};
use dr_route::OwnedField;
use dr_route::names::is_in_set;
use std::alloc::{AllocError, Global};

/// One of the values that make a cell.
#[derive(Drop)]
pub enum Part<'a> {
    Site(&'a Text),
    Class(&'a Text),
    Syntax(Syntax),
    Modality(&'a OwnedField),
    Station(&'a OwnedField),
}

/// Whether the flow's values take in the part of the field: a prefix is taken in where it begins
/// with a listed one. The single values that it lists are this set.
fn admits(values: &Values, set: &[Text], part: &OwnedField) -> bool
    requires same { (t : Words) → Contains set.now t ↔ Contains (listed_literals values.now) t }
    requires ordered { IsInByteOrder set.now }
    ensures { IsTrue result ↔ AdmitsField values.now part.now }
{
    let Values::Listed(own) = values else {
        return true;
    };
    match part {
        OwnedField::Literal(literal) => {
            is_in_set(set, literal) || begins_one(own.prefixes.as_slice(), literal)
        }
        OwnedField::Prefix(prefix) => begins_one(own.prefixes.as_slice(), prefix),
        OwnedField::Rest => false,
    }
}

/// Whether the flow, which lists this, speaks of the value.
fn speaks_of(flow: &Flow, listed: &Listed, part: &Part<'_>) -> bool
    requires { IsListedBy flow.now listed.now }
    ensures { IsTrue result ↔ SpeaksOf flow.now part.now }
{
    match part {
        Part::Site(site) => flow.at == **site,
        Part::Class(class) => flow.classes.as_slice().contains(class),
        Part::Syntax(syntax) => flow.syntaxes.as_slice().contains(syntax),
        Part::Modality(field) => admits(&flow.modalities, listed.modalities.as_slice(), field),
        Part::Station(field) => admits(&flow.stations, listed.stations.as_slice(), field),
    }
}

/// The places of those of the flows that speak of the value, in their order.
pub fn narrowed(
    alloc: Global,
    flows: &[Flow],
    all: &[Listed],
    among: &[usize],
    part: &Part<'_>,
) -> Result<Vec<usize>, AllocError>
    requires below { AllBelow among.now flows.now }
    requires listed { AreListedBy flows.now all.now }
    ensures { IfOk result (λ v. AreNarrowed flows.now among.now part.now v.items) }
{
    let mut found = Vec::new(alloc);
    for place in among {
        if speaks_of(&flows[*place], &all[*place], part) {
            found.push(*place)?;
        }
    }
    Ok(found)
}

/// The first of the places at which a flow speaks of the value.
pub fn first_that_speaks(
    flows: &[Flow],
    all: &[Listed],
    among: &[usize],
    part: &Part<'_>,
) -> Option<usize>
    requires below { AllBelow among.now flows.now }
    requires listed { AreListedBy flows.now all.now }
    ensures { MatchOption result (NoneSpeaks flows.now among.now part.now)
        (λ k. Contains among.now k × SpeaksAt flows.now k part.now) }
{
    for place in among {
        if speaks_of(&flows[*place], &all[*place], part) {
            return Some(*place);
        }
    }
    None
}

/// Whether the flow may bring something in: none of its two lists is empty.
fn may_enter(flow: &Flow) -> bool
    ensures { result ≡ false → (cell : CellValue) → TakesIn flow.now cell → ⊥ }
{
    !is_empty(&flow.modalities) && !is_empty(&flow.stations)
}

/// Whether the values are a list of none.
fn is_empty(values: &Values) -> bool
    ensures { IsTrue result → (field : FieldValue) → AdmitsField values.now field → ⊥ }
{
    match values {
        Values::Any => false,
        Values::Listed(own) => own.literals.is_empty() && own.prefixes.is_empty(),
    }
}

/// The places of the flows that may bring something in.
pub fn places_of(alloc: Global, flows: &[Flow]) -> Result<Vec<usize>, AllocError>
    ensures below { IfOk result (λ v. AllBelow v.items flows.now) }
    ensures whole { IfOk result (λ v. (k : ℕ) (flow : FlowValue) (cell : CellValue)
        → slice_get flows.now k ≡ Some flow
        → TakesIn flow cell → Contains v.items k) }
{
    let mut places = Vec::new(alloc);
    for place in 0..flows.len() {
        if may_enter(&flows[place]) {
            places.push(place)?;
        }
    }
    Ok(places)
}
