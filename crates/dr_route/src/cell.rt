//! Cells: the sets of keys that no rule of a plan tells apart.
ghost use Rattle.std.specs.Prelude.{◌≡◌, IfOk};
ghost use Rattle.std.specs.Prelude.{◌++◌, ◌∷◌, []};
ghost use Rattle.dr_route.specs.Cells.{AreInOrder, IsOrdered, InCell, InField, owned_field};
ghost use Rattle.dr_route.specs.Laws.{key_of, value_of};
ghost use Rattle.dr_route.specs.contracts.cell.OwnedFieldOrd.TheImpl as fields;
ghost use Rattle.dr_route.specs.contracts.cell.OwnedCellOrd.TheImpl as cells;

use crate::key::Key;
use crate::search::{find, longest};
use dr_base::{Seq, Syntax, Text};
use std::alloc::{AllocError, Global};
use std::cmp::Ordering;
use std::marker::Model;

/// The values that a plan, or one of its flows, names for one field, modality or station: single
/// values, and what values begin with.
#[derive(Clone, Debug, Drop)]
pub struct FieldValues {
    pub literals: Seq<Text>,
    pub prefixes: Seq<Text>,
}

/// The values that a plan names for modality and for station.
#[derive(Clone, Debug, Drop)]
pub struct Literals {
    pub modalities: FieldValues,
    pub stations: FieldValues,
}

/// One part of a field, modality or station: a literal of the plan; the values that are no literal,
/// and of whose prefixes this one of the plan is the longest, which are written as the prefix and
/// `*`; or all others, which are written `*`.
#[derive(Clone, PartialEq, Eq, PartialOrd, Ord, Debug, Drop)]
pub enum OwnedField {
    Literal(Text),
    Prefix(Text),
    Rest,
}

/// The keys with one class, one transfer syntax, one part of the modalities and one of the
/// stations.
#[derive(Clone, PartialEq, Eq, PartialOrd, Ord, Debug, Drop)]
pub struct OwnedCell {
    pub class: Text,
    pub syntax: Syntax,
    pub modality: OwnedField,
    pub station: OwnedField,
}

/// A part of a field, by reference to the plan's literal or prefix.
#[derive(Drop)]
pub enum Field<'a> {
    Literal(&'a Text),
    Prefix(&'a Text),
    Rest,
}

/// A cell by reference, which takes no memory; contracts see the cell itself.
#[derive(Drop)]
pub struct Cell<'a> {
    class: &'a Text,
    syntax: Syntax,
    modality: Field<'a>,
    station: Field<'a>,
}

impl<'a> Model for Cell<'a> {
    ghost use Rattle.dr_route.specs.declared.cell.OwnedCell.{OwnedCell};
    ghost use Rattle.dr_route.specs.Cells.{owned_field};

    ghost Value = { OwnedCell };

    ghost view = { λ c. record {
      class = c.class.now;
      syntax = c.syntax;
      modality = owned_field c.modality;
      station = owned_field c.station;
    } };
}

/// The part of the field that the value lies in. It takes no memory: a binary search over the
/// literals, and one over the prefixes for each beginning of the value.
pub fn field_of<'a>(values: &'a FieldValues, value: &Text) -> Field<'a>
    requires { IsOrdered values.now }
    ensures { InField values.now (owned_field result) value.now }
{
    if let Some(literal) = find(values.literals.as_slice(), value.as_bytes()) {
        return Field::Literal(literal);
    }
    match longest(values.prefixes.as_slice(), value.as_bytes()) {
        Some(prefix) => Field::Prefix(prefix),
        None => Field::Rest,
    }
}

/// The cell of a key, without memory.
pub fn cell_of<'a>(literals: &'a Literals, key: &'a Key) -> Cell<'a>
    requires { AreInOrder literals.now }
    ensures { InCell literals.now result key.now }
{
    Cell {
        class: &key.class,
        syntax: key.syntax,
        modality: field_of(&literals.modalities, &key.modality),
        station: field_of(&literals.stations, &key.station),
    }
}

fn owned_part(field: &Field<'_>) -> Result<OwnedField, AllocError>
    ensures { IfOk result (λ f. f ≡ owned_field field.now) }
{
    match field {
        Field::Literal(literal) => {
            let text: &Text = literal;
            Ok(OwnedField::Literal(text.clone()?))
        }
        Field::Prefix(prefix) => {
            let text: &Text = prefix;
            Ok(OwnedField::Prefix(text.clone()?))
        }
        Field::Rest => Ok(OwnedField::Rest),
    }
}

impl<'a> Cell<'a> {
    /// The cell with texts of its own.
    pub fn to_owned(&self) -> Result<OwnedCell, AllocError>
        ensures { IfOk result (λ c. c ≡ self.now) }
    {
        Ok(OwnedCell {
            class: self.class.clone()?,
            syntax: self.syntax,
            modality: owned_part(&self.modality)?,
            station: owned_part(&self.station)?,
        })
    }
}

/// The part of the field by reference.
fn borrowed_part(field: &OwnedField) -> Field<'_>
    ensures { owned_field result ≡ field.now }
{
    match field {
        OwnedField::Literal(literal) => Field::Literal(literal),
        OwnedField::Prefix(prefix) => Field::Prefix(prefix),
        OwnedField::Rest => Field::Rest,
    }
}

/// How the part of the field compares to one by reference.
fn compared_part(part: &OwnedField, field: &Field<'_>) -> Ordering
    ensures { result ≡ fields.cmp-value.it part.now (owned_field field.now) }
{
    match (part, field) {
        (OwnedField::Literal(literal), Field::Literal(other)) => literal.cmp(other),
        (OwnedField::Prefix(prefix), Field::Prefix(other)) => prefix.cmp(other),
        (OwnedField::Rest, Field::Rest) => Ordering::Equal,
        (OwnedField::Literal(_), _) => Ordering::Less,
        (OwnedField::Prefix(_), Field::Literal(_)) => Ordering::Greater,
        (OwnedField::Prefix(_), Field::Rest) => Ordering::Less,
        (OwnedField::Rest, _) => Ordering::Greater,
    }
}

impl OwnedCell {
    /// The cell by reference, which takes no memory.
    pub fn borrowed(&self) -> Cell<'_>
        ensures { result ≡ self.now }
    {
        Cell {
            class: &self.class,
            syntax: self.syntax,
            modality: borrowed_part(&self.modality),
            station: borrowed_part(&self.station),
        }
    }

    /// How the cell compares to one by reference: in the order of cells.
    pub fn compared(&self, other: &Cell<'_>) -> Ordering
        ensures { result ≡ cells.cmp-value.it self.now other.now }
    {
        self.class.cmp(other.class).then(
            self.syntax.cmp(&other.syntax).then(compared_part(&self.modality, &other.modality).then(
                compared_part(&self.station, &other.station),
            )),
        )
    }
}

/// The text and the byte 128, which no value of a plan has, behind it.
pub fn value_under(alloc: Global, prefix: &Text) -> Result<Text, AllocError>
    ensures { IfOk result (λ t. t ≡ prefix.now ++ (128 ∷ [])) }
{
    let mut bytes = Vec::from_slice(alloc, prefix.as_bytes())?;
    bytes.push(128)?;
    Ok(Text::from_vec(bytes))
}

/// A value of the part: its literal; or its prefix and the byte 128, which no literal and no
/// prefix has; or the text of this byte.
fn value_in(alloc: Global, field: &OwnedField) -> Result<Text, AllocError>
    ensures { IfOk result (λ t. t ≡ value_of field.now) }
{
    match field {
        OwnedField::Literal(literal) => literal.clone(),
        OwnedField::Prefix(prefix) => value_under(alloc, prefix),
        OwnedField::Rest => Text::copy_of(alloc, &[128]),
    }
}

/// One key of the cell, which stands for all of them.
pub fn key_in(alloc: Global, cell: &OwnedCell) -> Result<Key, AllocError>
    ensures { IfOk result (λ k. k ≡ key_of cell.now) }
{
    Ok(Key {
        class: cell.class.clone()?,
        syntax: cell.syntax,
        modality: value_in(alloc, &cell.modality)?,
        station: value_in(alloc, &cell.station)?,
    })
}
