//! The sweep over all entries of a plan: by site, class, transfer syntax, modality and station.
ghost use Rattle.std.specs.Prelude.{◌≡◌, ◌↔◌, ◌<◌, IfOk, Contains, ℕ, Some, slice_get, length};
ghost use Rattle.dr_base.specs.Texts.{Text as Words, IsInByteOrder};
ghost use Rattle.dr_plan_model.specs.Plans.{IsWellFormed, literals_of};
ghost use Rattle.dr_route.specs.Laws.{IsPart};
ghost use Rattle.dr_plan_model.specs.declared.plan.Flow.{Flow as FlowValue};
ghost use Rattle.dr_plan_entries.specs.Entering.{AllBelow, EachSpeaks, HasParts};
ghost use Rattle.dr_plan_entries.specs.Entering.{HasClasses, HasSites, FitsAll, FitsClass};
ghost use Rattle.dr_plan_entries.specs.Entering.{FitsModality, FitsSyntax, WantsSite, WantsClass};
ghost use Rattle.dr_plan_entries.specs.Entering.{WantsSyntax, WantsModality, WantsStation};
ghost use Rattle.dr_plan_entries.specs.Listing.{IsRow};
ghost use Rattle.dr_plan_entries.specs.declared.rows.FlowSide.TheVariants.{Modality, Station};
ghost use Rattle.dr_plan_entries.specs.Visiting.{AfterVisits, IsEntryCell};

use crate::fields::parts_of;
use crate::narrow::{Part, first_that_speaks, narrowed, places_of};
use crate::rows::{FlowSide, names_in, parts_from};
use crate::visit::EntryVisitor;
use dr_base::{Seq, Syntax, Text};
use dr_plan_model::literals::literals;
use dr_plan_model::{Flow, Plan};
use dr_route::names::{add_names, names_in_order};
use dr_route::{OwnedCell, OwnedField};
use std::alloc::{AllocError, Global};
use std::collections::BTreeSet;
use std::slice;

/// A plan with the parts of its two fields, in the order in which they are printed.
#[derive(Drop)]
struct EntrySweep<'a> {
    alloc: Global,
    plan: &'a Plan,
    modalities: Seq<OwnedField>,
    stations: Seq<OwnedField>,
}

/// Where images enter a plan, and in which class and transfer syntax they do.
#[derive(Clone, Copy)]
struct Entrance<'a> {
    site: &'a Text,
    class: &'a Text,
    syntax: Syntax,
}

/// The classes of the flows at these places, in byte order.
fn classes_of(alloc: Global, flows: &[Flow], among: &[usize]) -> Result<Seq<Text>, AllocError>
    requires { AllBelow among.now flows.now }
    ensures whole { IfOk result (HasClasses flows.now among.now) }
    ensures ordered { IfOk result IsInByteOrder }
{
    let mut names = BTreeSet::new(alloc);
    for place in among {
        add_names(&mut names, flows[*place].classes.as_slice())?;
    }
    let classes = names_in_order(alloc, names)?;
    Ok(classes)
}

/// The sites of the flows, in byte order.
fn sites_of(alloc: Global, flows: &[Flow]) -> Result<Seq<Text>, AllocError>
    ensures whole { IfOk result (HasSites flows.now) }
    ensures ordered { IfOk result IsInByteOrder }
{
    let mut names = BTreeSet::new(alloc);
    for flow in flows {
        add_names(&mut names, slice::from_ref(&flow.at))?;
    }
    let sites = names_in_order(alloc, names)?;
    Ok(sites)
}

/// The cell of these values.
fn cell_from(
    class: &Text,
    syntax: Syntax,
    modality: &OwnedField,
    station: &OwnedField,
) -> Result<OwnedCell, AllocError>
    ensures { IfOk result (λ c. c
        ≡ record {
          class = class.now;
          syntax = syntax;
          modality = modality.now;
          station = station.now;
        }) }
{
    Ok(OwnedCell {
        class: class.clone()?,
        syntax,
        modality: modality.clone()?,
        station: station.clone()?,
    })
}

fn copy_stations(stations: &Seq<OwnedField>) -> Result<Seq<OwnedField>, AllocError>
    ensures { IfOk result (λ copy. copy ≡ stations.now) }
{
    let copy = stations.clone()?;
    Ok(copy)
}

impl<'a> EntrySweep<'a> {
    /// The stations that the flows at the places list, where they take in no others, and else all
    /// that the plan names.
    fn stations_for(&self, among: &[usize]) -> Result<Seq<OwnedField>, AllocError>
        requires parts { HasParts self.now.plan.now self.now.modalities self.now.stations }
        requires below { AllBelow among.now self.now.plan.now.flows }
        ensures { IfOk result (IsRow Station self.now.plan.now among.now) }
    {
        let named = names_in(
            self.alloc,
            self.plan.flows(),
            self.plan.listed(),
            among,
            FlowSide::Station,
        )?;
        let Some(names) = named else {
            let all = copy_stations(&self.stations)?;
            return Ok(all);
        };
        let row = parts_from(self.alloc, names)?;
        Ok(Seq::from_vec(row))
    }

    /// Visits the entry of these values, if some flow at the places brings it in.
    fn visit_station<V: EntryVisitor>(
        &self,
        visitor: &mut V,
        entrance: &Entrance<'_>,
        modality: &OwnedField,
        station: &OwnedField,
        among: &[usize],
    ) -> Result<Option<V::Finding>, AllocError>
        requires plan { V.plan visitor.old ≡ self.now.plan.now }
        requires ready { V.is_ready visitor.old }
        requires modality_part { IsPart (literals_of self.now.plan.now).modalities modality.now }
        requires station_part { IsPart (literals_of self.now.plan.now).stations station.now }
        requires fit { (flow : FlowValue) → (k : ℕ) → Contains among.now k
            → slice_get self.now.plan.now.flows k ≡ Some flow
            → FitsModality flow entrance.now.site.now entrance.now.class.now entrance.now.syntax
            modality.now }
        requires below { AllBelow among.now self.now.plan.now.flows }
        ensures { IfOk result
            (AfterVisits V.plan V.is_ready V.has_visited V.shows
            (WantsStation self.now.plan.now entrance.now.site.now entrance.now.class.now
            entrance.now.syntax modality.now station.now among.now) visitor.old visitor.new) }
    {
        let part = Part::Station(station);
        let Some(_) = first_that_speaks(self.plan.flows(), self.plan.listed(), among, &part) else {
            return Ok(None);
        };
        let cell = cell_from(entrance.class, entrance.syntax, modality, station)?;
        let found = visitor.visit(entrance.site, &cell)?;
        Ok(found)
    }

    /// Visits the entries of this modality at the stations of the row, station by station.
    fn visit_stations<V: EntryVisitor>(
        &self,
        visitor: &mut V,
        entrance: &Entrance<'_>,
        modality: &OwnedField,
        row: &[OwnedField],
        among: &[usize],
    ) -> Result<Option<V::Finding>, AllocError>
        requires plan { V.plan visitor.old ≡ self.now.plan.now }
        requires ready { V.is_ready visitor.old }
        requires modality_part { IsPart (literals_of self.now.plan.now).modalities modality.now }
        requires row { IsRow Station self.now.plan.now among.now row.now }
        requires fit { (flow : FlowValue) → (k : ℕ) → Contains among.now k
            → slice_get self.now.plan.now.flows k ≡ Some flow
            → FitsModality flow entrance.now.site.now entrance.now.class.now entrance.now.syntax
            modality.now }
        requires below { AllBelow among.now self.now.plan.now.flows }
        ensures { IfOk result
            (AfterVisits V.plan V.is_ready V.has_visited V.shows
            (WantsModality self.now.plan.now entrance.now.site.now entrance.now.class.now
            entrance.now.syntax modality.now among.now) visitor.old visitor.new) }
    {
        for station in row {
            let found = self.visit_station(visitor, entrance, modality, station, among)?;
            if found.is_some() {
                return Ok(found);
            }
        }
        Ok(None)
    }

    /// Visits the entries of this modality: at the stations that the flows at the places list,
    /// where they take in no others, and else at all that the plan names.
    fn visit_modality<V: EntryVisitor>(
        &self,
        visitor: &mut V,
        entrance: &Entrance<'_>,
        modality: &OwnedField,
        among: &[usize],
    ) -> Result<Option<V::Finding>, AllocError>
        requires plan { V.plan visitor.old ≡ self.now.plan.now }
        requires ready { V.is_ready visitor.old }
        requires parts { HasParts self.now.plan.now self.now.modalities self.now.stations }
        requires modality_part { IsPart (literals_of self.now.plan.now).modalities modality.now }
        requires fit { (flow : FlowValue) → (k : ℕ) → Contains among.now k
            → slice_get self.now.plan.now.flows k ≡ Some flow
            → FitsModality flow entrance.now.site.now entrance.now.class.now entrance.now.syntax
            modality.now }
        requires below { AllBelow among.now self.now.plan.now.flows }
        ensures { IfOk result
            (AfterVisits V.plan V.is_ready V.has_visited V.shows
            (WantsModality self.now.plan.now entrance.now.site.now entrance.now.class.now
            entrance.now.syntax modality.now among.now) visitor.old visitor.new) }
    {
        let named = names_in(
            self.alloc,
            self.plan.flows(),
            self.plan.listed(),
            among,
            FlowSide::Station,
        )?;
        let Some(names) = named else {
            let all = self.stations.as_slice();
            let found = self.visit_stations(visitor, entrance, modality, all, among)?;
            return Ok(found);
        };
        let row = parts_from(self.alloc, names)?;
        let listed = row.as_slice();
        let found = self.visit_stations(visitor, entrance, modality, listed, among)?;
        Ok(found)
    }

    /// Visits the entries of this modality: at the stations of the row where the places are those
    /// for which it was made, and else at those that the flows at the places list.
    fn visit_left<V: EntryVisitor>(
        &self,
        visitor: &mut V,
        entrance: &Entrance<'_>,
        modality: &OwnedField,
        row: &[OwnedField],
        among: &[usize],
        are_all: bool,
    ) -> Result<Option<V::Finding>, AllocError>
        requires plan { V.plan visitor.old ≡ self.now.plan.now }
        requires ready { V.is_ready visitor.old }
        requires parts { HasParts self.now.plan.now self.now.modalities self.now.stations }
        requires modality_part { IsPart (literals_of self.now.plan.now).modalities modality.now }
        requires row { IsRow Station self.now.plan.now among.now row.now }
        requires fit { (flow : FlowValue) → (k : ℕ) → Contains among.now k
            → slice_get self.now.plan.now.flows k ≡ Some flow
            → FitsModality flow entrance.now.site.now entrance.now.class.now entrance.now.syntax
            modality.now }
        requires below { AllBelow among.now self.now.plan.now.flows }
        ensures { IfOk result
            (AfterVisits V.plan V.is_ready V.has_visited V.shows
            (WantsModality self.now.plan.now entrance.now.site.now entrance.now.class.now
            entrance.now.syntax modality.now among.now) visitor.old visitor.new) }
    {
        if are_all {
            let found = self.visit_stations(visitor, entrance, modality, row, among)?;
            return Ok(found);
        }
        let later = self.visit_modality(visitor, entrance, modality, among)?;
        Ok(later)
    }

    /// Visits the entries of this transfer syntax at the modalities of the row, modality by
    /// modality.
    fn visit_modalities<V: EntryVisitor>(
        &self,
        visitor: &mut V,
        entrance: &Entrance<'_>,
        row: &[OwnedField],
        stations: &[OwnedField],
        among: &[usize],
    ) -> Result<Option<V::Finding>, AllocError>
        requires plan { V.plan visitor.old ≡ self.now.plan.now }
        requires ready { V.is_ready visitor.old }
        requires parts { HasParts self.now.plan.now self.now.modalities self.now.stations }
        requires row { IsRow Modality self.now.plan.now among.now row.now }
        requires stations { IsRow Station self.now.plan.now among.now stations.now }
        requires fit { (flow : FlowValue) → (k : ℕ) → Contains among.now k
            → slice_get self.now.plan.now.flows k ≡ Some flow
            → FitsSyntax flow entrance.now.site.now entrance.now.class.now entrance.now.syntax }
        requires below { AllBelow among.now self.now.plan.now.flows }
        ensures { IfOk result
            (AfterVisits V.plan V.is_ready V.has_visited V.shows
            (WantsSyntax self.now.plan.now entrance.now.site.now entrance.now.class.now
            entrance.now.syntax among.now) visitor.old visitor.new) }
    {
        for modality in row {
            let part = Part::Modality(modality);
            let here = narrowed(
                self.alloc,
                self.plan.flows(),
                self.plan.listed(),
                among,
                &part,
            )?;
            let left = here.as_slice();
            let are_all = left.len() == among.len();
            let found = self.visit_left(visitor, entrance, modality, stations, left, are_all)?;
            if found.is_some() {
                return Ok(found);
            }
        }
        Ok(None)
    }

    /// Visits the entries of this transfer syntax: at the modalities that the flows at the places
    /// list, where they take in no others, and else at all that the plan names.
    fn visit_syntax<V: EntryVisitor>(
        &self,
        visitor: &mut V,
        entrance: &Entrance<'_>,
        among: &[usize],
    ) -> Result<Option<V::Finding>, AllocError>
        requires plan { V.plan visitor.old ≡ self.now.plan.now }
        requires ready { V.is_ready visitor.old }
        requires parts { HasParts self.now.plan.now self.now.modalities self.now.stations }
        requires fit { (flow : FlowValue) → (k : ℕ) → Contains among.now k
            → slice_get self.now.plan.now.flows k ≡ Some flow
            → FitsSyntax flow entrance.now.site.now entrance.now.class.now entrance.now.syntax }
        requires below { AllBelow among.now self.now.plan.now.flows }
        ensures { IfOk result
            (AfterVisits V.plan V.is_ready V.has_visited V.shows
            (WantsSyntax self.now.plan.now entrance.now.site.now entrance.now.class.now
            entrance.now.syntax among.now) visitor.old visitor.new) }
    {
        let own = self.stations_for(among)?;
        let stations = own.as_slice();
        let named = names_in(
            self.alloc,
            self.plan.flows(),
            self.plan.listed(),
            among,
            FlowSide::Modality,
        )?;
        let Some(names) = named else {
            let all = self.modalities.as_slice();
            let found = self.visit_modalities(visitor, entrance, all, stations, among)?;
            return Ok(found);
        };
        let row = parts_from(self.alloc, names)?;
        let listed = row.as_slice();
        let found = self.visit_modalities(visitor, entrance, listed, stations, among)?;
        Ok(found)
    }

    /// Visits the entries of this class in one transfer syntax.
    fn visit_class_in<V: EntryVisitor>(
        &self,
        visitor: &mut V,
        site: &Text,
        class: &Text,
        syntax: Syntax,
        among: &[usize],
    ) -> Result<Option<V::Finding>, AllocError>
        requires plan { V.plan visitor.old ≡ self.now.plan.now }
        requires ready { V.is_ready visitor.old }
        requires parts { HasParts self.now.plan.now self.now.modalities self.now.stations }
        requires fit { (flow : FlowValue) → (k : ℕ) → Contains among.now k
            → slice_get self.now.plan.now.flows k ≡ Some flow
            → FitsClass flow site.now class.now }
        requires below { AllBelow among.now self.now.plan.now.flows }
        ensures { IfOk result
            (AfterVisits V.plan V.is_ready V.has_visited V.shows
            (WantsSyntax self.now.plan.now site.now class.now syntax among.now) visitor.old
            visitor.new) }
    {
        let part = Part::Syntax(syntax);
        let here = narrowed(
            self.alloc,
            self.plan.flows(),
            self.plan.listed(),
            among,
            &part,
        )?;
        let entrance = Entrance {
            site,
            class,
            syntax,
        };
        let found = self.visit_syntax(visitor, &entrance, here.as_slice())?;
        Ok(found)
    }

    /// Visits the entries of this class, in both transfer syntaxes.
    fn visit_class<V: EntryVisitor>(
        &self,
        visitor: &mut V,
        site: &Text,
        class: &Text,
        among: &[usize],
    ) -> Result<Option<V::Finding>, AllocError>
        requires plan { V.plan visitor.old ≡ self.now.plan.now }
        requires ready { V.is_ready visitor.old }
        requires parts { HasParts self.now.plan.now self.now.modalities self.now.stations }
        requires fit { (flow : FlowValue) → (k : ℕ) → Contains among.now k
            → slice_get self.now.plan.now.flows k ≡ Some flow
            → FitsClass flow site.now class.now }
        requires below { AllBelow among.now self.now.plan.now.flows }
        ensures { IfOk result
            (AfterVisits V.plan V.is_ready V.has_visited V.shows
            (WantsClass self.now.plan.now site.now class.now among.now) visitor.old visitor.new) }
    {
        let found = self.visit_class_in(visitor, site, class, Syntax::Implicit, among)?;
        if found.is_some() {
            return Ok(found);
        }
        let later = self.visit_class_in(visitor, site, class, Syntax::Explicit, among)?;
        Ok(later)
    }

    /// Visits the entries of this site, class by class.
    fn visit_site<V: EntryVisitor>(
        &self,
        visitor: &mut V,
        site: &Text,
        among: &[usize],
    ) -> Result<Option<V::Finding>, AllocError>
        requires plan { V.plan visitor.old ≡ self.now.plan.now }
        requires ready { V.is_ready visitor.old }
        requires parts { HasParts self.now.plan.now self.now.modalities self.now.stations }
        requires fit { (flow : FlowValue) → (k : ℕ) → Contains among.now k
            → slice_get self.now.plan.now.flows k ≡ Some flow
            → flow.at ≡ site.now }
        requires below { AllBelow among.now self.now.plan.now.flows }
        ensures { IfOk result
            (AfterVisits V.plan V.is_ready V.has_visited V.shows
            (WantsSite self.now.plan.now site.now among.now) visitor.old visitor.new) }
    {
        let classes = classes_of(self.alloc, self.plan.flows(), among)?;
        for class in classes.as_slice() {
            let part = Part::Class(class);
            let here = narrowed(
                self.alloc,
                self.plan.flows(),
                self.plan.listed(),
                among,
                &part,
            )?;
            let found = self.visit_class(visitor, site, class, here.as_slice())?;
            if found.is_some() {
                return Ok(found);
            }
        }
        Ok(None)
    }

    /// Visits all entries of the plan, site by site.
    fn visit_all<V: EntryVisitor>(&self, visitor: &mut V) -> Result<Option<V::Finding>, AllocError>
        requires plan { V.plan visitor.old ≡ self.now.plan.now }
        requires ready { V.is_ready visitor.old }
        requires parts { HasParts self.now.plan.now self.now.modalities self.now.stations }
        ensures { IfOk result
            (AfterVisits V.plan V.is_ready V.has_visited V.shows (IsEntryCell self.now.plan.now)
            visitor.old visitor.new) }
    {
        let all = places_of(self.alloc, self.plan.flows())?;
        let sites = sites_of(self.alloc, self.plan.flows())?;
        for site in sites.as_slice() {
            let part = Part::Site(site);
            let here = narrowed(
                self.alloc,
                self.plan.flows(),
                self.plan.listed(),
                all.as_slice(),
                &part,
            )?;
            let found = self.visit_site(visitor, site, here.as_slice())?;
            if found.is_some() {
                return Ok(found);
            }
        }
        Ok(None)
    }
}

/// Visits all entries of the plan, in byte order of node, class, transfer syntax, modality and
/// station as they are printed, until the visitor finds something: at the first of them at which it
/// does.
pub fn visit_entries<V: EntryVisitor>(
    alloc: Global,
    plan: &Plan,
    visitor: &mut V,
) -> Result<Option<V::Finding>, AllocError>
    requires plan { V.plan visitor.old ≡ plan.now }
    requires ready { V.is_ready visitor.old }
    ensures { IfOk result
        (AfterVisits V.plan V.is_ready V.has_visited V.shows (IsEntryCell plan.now) visitor.old
        visitor.new) }
{
    let literals = literals(alloc, plan)?;
    let sweep = EntrySweep {
        alloc,
        plan,
        modalities: parts_of(alloc, &literals.modalities)?,
        stations: parts_of(alloc, &literals.stations)?,
    };
    let found = sweep.visit_all(visitor)?;
    Ok(found)
}
