//! The parts of a field of a plan, in the order in which they are printed.
ghost use Rattle.std.specs.Prelude.{◌≡◌, ◌++◌, ◌∷◌, [], codes, List, IfOk, OnOk, All, map};
ghost use Rattle.dr_base.specs.Texts.{Text as Words};
ghost use Rattle.dr_route.specs.declared.cell.OwnedField.TheVariants as part;
ghost use Rattle.dr_plan_sound.specs.Printed.{printed_field};
ghost use Rattle.dr_plan_entries.specs.Entering.{ArePartsOf, HasItsText, part_of};
ghost use Rattle.dr_plan_entries.specs.InOrder.{IsInPrintedOrder};

use dr_base::{Seq, Text};
use dr_route::{FieldValues, OwnedField};
use std::alloc::{AllocError, Global};

/// A part of a field with its printed text, by which it is sorted.
#[derive(Drop)]
pub struct ShownPart {
    text: Text,
    part: OwnedField,
}

/// The prefix with `*` behind it.
fn starred(alloc: Global, prefix: &Text) -> Result<Text, AllocError>
    ensures { IfOk result (λ t. t ≡ prefix.now ++ codes "*") }
{
    let mut bytes = Vec::from_slice(alloc, prefix.as_bytes())?;
    bytes.push(b'*')?;
    Ok(Text::from_vec(bytes))
}

/// Adds the parts of these literals.
fn add_literals(shown: &mut Vec<ShownPart>, literals: &[Text]) -> Result<(), AllocError>
    ensures parts { OnOk result
        (map part_of shown.new.items
        ≡ map part_of shown.old.items ++ map (λ l. part.Literal l) literals.now) }
    ensures texts { OnOk result (All HasItsText shown.old.items → All HasItsText shown.new.items) }
{
    for literal in literals {
        let text = literal.clone()?;
        let part = OwnedField::Literal(literal.clone()?);
        shown.push(ShownPart { text, part })?;
    }
    Ok(())
}

/// Adds the parts of these prefixes.
fn add_prefixes(
    alloc: Global,
    shown: &mut Vec<ShownPart>,
    prefixes: &[Text],
) -> Result<(), AllocError>
    ensures parts { OnOk result
        (map part_of shown.new.items
        ≡ map part_of shown.old.items ++ map (λ p. part.Prefix p) prefixes.now) }
    ensures texts { OnOk result (All HasItsText shown.old.items → All HasItsText shown.new.items) }
{
    for prefix in prefixes {
        let text = starred(alloc, prefix)?;
        let part = OwnedField::Prefix(prefix.clone()?);
        shown.push(ShownPart { text, part })?;
    }
    Ok(())
}

/// The part of all values that the plan doesn't name, which is printed `*`.
fn rest(alloc: Global) -> Result<ShownPart, AllocError>
    ensures { IfOk result (λ s. (s.part ≡ part.Rest) × HasItsText s) }
{
    let text = Text::copy_of(alloc, b"*")?;
    Ok(ShownPart {
        text,
        part: OwnedField::Rest,
    })
}

/// All parts, each with its text.
fn shown_of(alloc: Global, values: &FieldValues) -> Result<Vec<ShownPart>, AllocError>
    ensures parts { IfOk result (λ v. map part_of v.items
        ≡ map (λ l. part.Literal l) values.now.literals
        ++ map (λ p. part.Prefix p) values.now.prefixes ++ part.Rest ∷ []) }
    ensures texts { IfOk result (λ v. All HasItsText v.items) }
{
    let mut shown = Vec::new(alloc);
    add_literals(&mut shown, values.literals.as_slice())?;
    add_prefixes(alloc, &mut shown, values.prefixes.as_slice())?;
    shown.push(rest(alloc)?)?;
    Ok(shown)
}

/// The parts of the field in the byte order in which they are printed: its literals, its prefixes,
/// each with `*` behind it, and the rest as `*`.
pub fn parts_of(alloc: Global, values: &FieldValues) -> Result<Seq<OwnedField>, AllocError>
    ensures same { IfOk result (ArePartsOf values.now) }
    ensures ordered { IfOk result (IsInPrintedOrder printed_field) }
{
    let mut shown = shown_of(alloc, values)?;
    shown.sort_unstable_by(|a, b| a.text.cmp(&b.text));
    let parts: Vec<OwnedField> = shown.into_iter().map(|one| one.part).collect(alloc)?;
    Ok(Seq::from_vec(parts))
}
