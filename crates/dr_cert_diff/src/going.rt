//! What changes, cell by cell, over all nodes where keys enter.
ghost use Rattle.std.specs.Prelude.{◌≡◌, IfOk, OnOk};
ghost use Rattle.dr_route.specs.Laws.{IsPart, key_of};
ghost use Rattle.dr_cert_diff.specs.Differing.{IsDiff, LiesInBoth, literals_of_both};
ghost use Rattle.dr_cert_diff.specs.Going.{Adds, ArePartsOf, At, AtClass, AtModality, AtPair};
ghost use Rattle.dr_cert_diff.specs.Going.{AtSite, Over, cell_at};

use crate::change::RouteChange;
use crate::comparing::{Both, compare};
use crate::entries::{classes_at, sites_of};
use crate::parts::{FieldParts, parts_of};
use dr_base::{Syntax, Text};
use dr_cert::Sealed;
use dr_route::{OwnedCell, OwnedField};
use std::alloc::{AllocError, Global};

/// A class and a transfer syntax.
#[derive(Drop)]
struct SyntaxPair<'a> {
    class: &'a Text,
    syntax: Syntax,
}

/// The cell of a class and a transfer syntax with these parts.
fn cell_of(
    pair: &SyntaxPair<'_>,
    modality: &OwnedField,
    station: &OwnedField,
) -> Result<OwnedCell, AllocError>
    ensures { IfOk result (λ cell.
        cell ≡ cell_at pair.now.class.now pair.now.syntax modality.now station.now) }
{
    Ok(OwnedCell {
        class: pair.class.clone()?,
        syntax: pair.syntax,
        modality: modality.clone()?,
        station: station.clone()?,
    })
}

/// What changes for the keys of the cell that enter at the site.
fn note(
    alloc: Global,
    both: &Both<'_>,
    site: &Text,
    cell: &OwnedCell,
    changes: &mut Vec<RouteChange>,
) -> Result<(), AllocError>
    requires { LiesInBoth both.now.old.now.plan both.now.new.now.plan cell.now (key_of cell.now) }
    ensures { OnOk result (Adds both.now.old.now.plan both.now.new.now.plan
        (At both.now.old.now.plan both.now.new.now.plan site.now cell.now)
        changes.old.items changes.new.items) }
{
    let Some(change) = compare(alloc, both, site, cell)? else {
        return Ok(());
    };
    changes.push(change)?;
    Ok(())
}

/// What changes for the keys with this class, transfer syntax and parts.
fn note_at(
    alloc: Global,
    both: &Both<'_>,
    site: &Text,
    pair: &SyntaxPair<'_>,
    modality: &OwnedField,
    station: &OwnedField,
    changes: &mut Vec<RouteChange>,
) -> Result<(), AllocError>
    requires { LiesInBoth both.now.old.now.plan both.now.new.now.plan
        (cell_at pair.now.class.now pair.now.syntax modality.now station.now)
        (key_of (cell_at pair.now.class.now pair.now.syntax modality.now station.now)) }
    ensures { OnOk result (Adds both.now.old.now.plan both.now.new.now.plan
        (At both.now.old.now.plan both.now.new.now.plan site.now
        (cell_at pair.now.class.now pair.now.syntax modality.now station.now))
        changes.old.items changes.new.items) }
{
    let cell = cell_of(pair, modality, station)?;
    let noted = note(alloc, both, site, &cell, changes);
    drop(cell);
    noted
}

/// What changes for the keys with this class, transfer syntax and part of the modalities.
fn over_stations(
    alloc: Global,
    both: &Both<'_>,
    site: &Text,
    pair: &SyntaxPair<'_>,
    modality: &OwnedField,
    parts: &FieldParts,
    changes: &mut Vec<RouteChange>,
) -> Result<(), AllocError>
    requires parts { ArePartsOf both.now.old.now.plan both.now.new.now.plan parts.now }
    requires modality { IsPart
        (literals_of_both both.now.old.now.plan both.now.new.now.plan).modalities modality.now }
    ensures { OnOk result (Adds both.now.old.now.plan both.now.new.now.plan
        (AtModality both.now.old.now.plan both.now.new.now.plan site.now pair.now.class.now
        pair.now.syntax parts.now.stations.items modality.now)
        changes.old.items changes.new.items) }
{
    let _old = both.old.plan();
    let _new = both.new.plan();
    for station in parts.stations.as_slice() {
        note_at(alloc, both, site, pair, modality, station, changes)?;
    }
    Ok(())
}

/// What changes for the keys with this class and transfer syntax.
fn over_modalities(
    alloc: Global,
    both: &Both<'_>,
    site: &Text,
    pair: &SyntaxPair<'_>,
    parts: &FieldParts,
    changes: &mut Vec<RouteChange>,
) -> Result<(), AllocError>
    requires { ArePartsOf both.now.old.now.plan both.now.new.now.plan parts.now }
    ensures { OnOk result (Adds both.now.old.now.plan both.now.new.now.plan
        (AtPair both.now.old.now.plan both.now.new.now.plan site.now pair.now.class.now
        pair.now.syntax parts.now)
        changes.old.items changes.new.items) }
{
    for modality in parts.modalities.as_slice() {
        over_stations(alloc, both, site, pair, modality, parts, changes)?;
    }
    Ok(())
}

/// What changes for the keys of this class.
fn over_syntaxes(
    alloc: Global,
    both: &Both<'_>,
    site: &Text,
    class: &Text,
    parts: &FieldParts,
    changes: &mut Vec<RouteChange>,
) -> Result<(), AllocError>
    requires { ArePartsOf both.now.old.now.plan both.now.new.now.plan parts.now }
    ensures { OnOk result (Adds both.now.old.now.plan both.now.new.now.plan
        (AtClass both.now.old.now.plan both.now.new.now.plan site.now parts.now class.now)
        changes.old.items changes.new.items) }
{
    let implicit = SyntaxPair {
        class,
        syntax: Syntax::Implicit,
    };
    over_modalities(alloc, both, site, &implicit, parts, changes)?;
    let explicit = SyntaxPair {
        class,
        syntax: Syntax::Explicit,
    };
    over_modalities(alloc, both, site, &explicit, parts, changes)?;
    Ok(())
}

/// What changes for the keys of these classes.
fn over_classes(
    alloc: Global,
    both: &Both<'_>,
    site: &Text,
    classes: &[Text],
    parts: &FieldParts,
    changes: &mut Vec<RouteChange>,
) -> Result<(), AllocError>
    requires { ArePartsOf both.now.old.now.plan both.now.new.now.plan parts.now }
    ensures { OnOk result (Adds both.now.old.now.plan both.now.new.now.plan
        (Over classes.now (AtClass both.now.old.now.plan both.now.new.now.plan site.now parts.now))
        changes.old.items changes.new.items) }
{
    for class in classes {
        over_syntaxes(alloc, both, site, class, parts, changes)?;
    }
    Ok(())
}

/// What changes for the keys that enter at the site.
fn at_site(
    alloc: Global,
    both: &Both<'_>,
    site: &Text,
    parts: &FieldParts,
    changes: &mut Vec<RouteChange>,
) -> Result<(), AllocError>
    requires { ArePartsOf both.now.old.now.plan both.now.new.now.plan parts.now }
    ensures { OnOk result (Adds both.now.old.now.plan both.now.new.now.plan
        (AtSite both.now.old.now.plan both.now.new.now.plan site.now)
        changes.old.items changes.new.items) }
{
    let classes = classes_at(alloc, both.old.plan(), both.new.plan(), site)?;
    over_classes(alloc, both, site, classes.as_slice(), parts, changes)?;
    Ok(())
}

/// What changes at these nodes.
fn over_sites(
    alloc: Global,
    both: &Both<'_>,
    sites: &[Text],
    parts: &FieldParts,
    changes: &mut Vec<RouteChange>,
) -> Result<(), AllocError>
    requires { ArePartsOf both.now.old.now.plan both.now.new.now.plan parts.now }
    ensures { OnOk result (Adds both.now.old.now.plan both.now.new.now.plan
        (Over sites.now (AtSite both.now.old.now.plan both.now.new.now.plan))
        changes.old.items changes.new.items) }
{
    for site in sites {
        at_site(alloc, both, site, parts, changes)?;
    }
    Ok(())
}

/// What changes from the old sealed plan to the new one: for each node where keys enter, and each
/// cell of keys that neither plan tells apart, the nodes that kept them and don't any more, and
/// those that keep them and didn't.
///
/// Errors: want of memory.
pub fn changes(alloc: Global, old: &Sealed, new: &Sealed) -> Result<Vec<RouteChange>, AllocError>
    ensures { IfOk result (λ v. IsDiff old.now.plan new.now.plan v.items) }
{
    let both = Both { old, new };
    let sites = sites_of(alloc, old.plan(), new.plan())?;
    let parts = parts_of(alloc, old.plan(), new.plan())?;
    let mut changes = Vec::new(alloc);
    over_sites(alloc, &both, sites.as_slice(), &parts, &mut changes)?;
    Ok(changes)
}
