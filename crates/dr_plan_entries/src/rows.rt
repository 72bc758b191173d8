//! The values of which flows speak that take in what they list, and no more.
ghost use Rattle.std.specs.Prelude.{◌≡◌, ◌↔◌, ◌⊎◌, IsTrue, IfOk, OnOk, MatchOption, Contains, map};
ghost use Rattle.dr_base.specs.Texts.{Text as Words};
ghost use Rattle.dr_route.specs.declared.cell.OwnedField.TheVariants as part;
ghost use Rattle.dr_plan_model.specs.Naming.{listed_literals};
ghost use Rattle.dr_plan_model.specs.Listings.{IsListedBy, AreListedBy};
ghost use Rattle.dr_route.specs.Names.{HasName};
ghost use Rattle.dr_plan_entries.specs.Entering.{AllBelow};
ghost use Rattle.dr_plan_entries.specs.Listing.{TakesListed, TakesJust, AreNamed};
ghost use Rattle.dr_plan_entries.specs.Listing.{values_of, set_of};

use dr_base::same::are_same;
use dr_base::{Seq, Text};
use dr_plan_model::{Flow, Listed, Values};
use dr_route::OwnedField;
use dr_route::names::{add_names, names_in_order};
use std::alloc::{AllocError, Global};
use std::collections::BTreeSet;

/// One of the two attributes whose values flows list.
#[derive(Clone, Copy)]
pub enum FlowSide {
    Modality,
    Station,
}

/// Whether the values are a list without prefixes.
fn is_list(values: &Values) -> bool
    ensures { IsTrue result → TakesListed values.now (listed_literals values.now) }
{
    match values {
        Values::Any => false,
        Values::Listed(own) => own.prefixes.is_empty(),
    }
}

/// What the flow says of it.
fn said_of<'a>(flow: &'a Flow, side: FlowSide) -> &'a Values
    ensures { result.now ≡ values_of side flow.now }
{
    match side {
        FlowSide::Modality => &flow.modalities,
        FlowSide::Station => &flow.stations,
    }
}

/// The set of the single values that the flow lists of it.
fn listed_of<'a>(listed: &'a Listed, side: FlowSide) -> &'a [Text]
    ensures { result.now ≡ set_of side listed.now }
{
    match side {
        FlowSide::Modality => listed.modalities.as_slice(),
        FlowSide::Station => listed.stations.as_slice(),
    }
}

/// What the flow lists of it, where it takes in nothing else.
fn listed_alone<'a>(flow: &Flow, listed: &'a Listed, side: FlowSide) -> Option<&'a [Text]>
    requires { IsListedBy flow.now listed.now }
    ensures { MatchOption result (Unit {0}) (λ texts. TakesJust side flow.now texts.now) }
{
    if is_list(said_of(flow, side)) {
        return Some(listed_of(listed, side));
    }
    None
}

/// Adds the texts to the names, unless they are the last ones, which are there already.
fn add_unless_same(
    names: &mut BTreeSet<Text>,
    texts: &[Text],
    last: &[Text],
) -> Result<(), AllocError>
    requires { (t : Words) → Contains last.now t → HasName names.old t }
    ensures { OnOk result
        ((t : Words) → HasName names.new t ↔ (HasName names.old t ⊎ Contains texts.now t)) }
{
    if are_same(texts, last) {
        return Ok(());
    }
    add_names(names, texts)?;
    Ok(())
}

/// What the flows at the places list of it, in byte order and each once; None where one of them
/// takes in something else too. Flows that stand behind each other and list the same are looked
/// into once.
pub fn names_in(
    alloc: Global,
    flows: &[Flow],
    all: &[Listed],
    among: &[usize],
    side: FlowSide,
) -> Result<Option<Seq<Text>>, AllocError>
    requires below { AllBelow among.now flows.now }
    requires listed { AreListedBy flows.now all.now }
    ensures { IfOk result (λ found.
        MatchOption found (Unit {0}) (AreNamed side flows.now among.now)) }
{
    let mut names = BTreeSet::new(alloc);
    let mut last: &[Text] = &[];
    for place in among {
        let Some(texts) = listed_alone(&flows[*place], &all[*place], side) else {
            return Ok(None);
        };
        add_unless_same(&mut names, texts, last)?;
        last = texts;
    }
    let names = names_in_order(alloc, names)?;
    Ok(Some(names))
}

/// The parts of a field that these literals are.
pub fn parts_from(alloc: Global, literals: Seq<Text>) -> Result<Vec<OwnedField>, AllocError>
    ensures { IfOk result (λ v. v.items ≡ map (λ l. part.Literal l) literals) }
{
    let parts: Vec<OwnedField> = literals
        .into_vec()
        .into_iter()
        .map(|literal| OwnedField::Literal(literal))
        .collect(alloc)?;
    Ok(parts)
}
