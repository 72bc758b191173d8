//! Whether lines and hops stand in the order of their printed bytes.
ghost use Rattle.std.specs.Prelude.{◌≡◌, ◌↔◌, IsTrue, IfOk, AllPairs, map};
ghost use Rattle.std.specs.declared.cmp.Ordering.TheVariants.{Less};
ghost use Rattle.dr_base.specs.Texts.{text_cmp};
ghost use Rattle.dr_plan_sound.specs.Printed.{printed_line, printed_hop};

use crate::printed::Printed;
use dr_base::Text;
use dr_plan_sound::{Hop, Line};
use std::alloc::{AllocError, Global};

/// The printed text of the value.
fn text_of<P: Printed>(alloc: Global, item: &P) -> Result<Text, AllocError>
    ensures { IfOk result (λ t. t ≡ P.printed item.now) }
{
    let mut text = Vec::new(alloc);
    item.print(&mut text)?;
    Ok(Text::from_vec(text))
}

/// The printed texts of the values.
fn texts_of<P: Printed>(alloc: Global, items: &[P]) -> Result<Vec<Text>, AllocError>
    ensures { IfOk result (λ v. v.items ≡ map P.printed items.now) }
{
    let mut texts = Vec::with_capacity(alloc, items.len())?;
    for item in items {
        texts.push(text_of(alloc, item)?)?;
    }
    Ok(texts)
}

/// Whether each text comes before the next.
fn ascend(texts: &[Text]) -> bool
    ensures { IsTrue result ↔ AllPairs (λ a b. text_cmp a b ≡ Less) texts.now }
{
    for i in 1..texts.len() {
        if texts[i - 1] >= texts[i] {
            return false;
        }
    }
    true
}

/// Whether the values stand in the byte order of their texts, each text once.
fn are_in_order<P: Printed>(alloc: Global, items: &[P]) -> Result<bool, AllocError>
    ensures { IfOk result (λ b.
        IsTrue b ↔ AllPairs (λ x y. text_cmp (P.printed x) (P.printed y) ≡ Less) items.now) }
{
    let texts = texts_of(alloc, items)?;
    Ok(ascend(texts.as_slice()))
}

/// Whether the lines stand in the byte order of their printed texts, none twice.
pub fn are_lines_in_order(alloc: Global, lines: &[Line]) -> Result<bool, AllocError>
    ensures { IfOk result (λ b.
        IsTrue b ↔ AllPairs (λ x y. text_cmp (printed_line x) (printed_line y) ≡ Less) lines.now) }
{
    are_in_order(alloc, lines)
}

/// Whether the hops stand in the byte order of their printed texts, none twice.
pub fn are_hops_in_order(alloc: Global, hops: &[Hop]) -> Result<bool, AllocError>
    ensures { IfOk result (λ b.
        IsTrue b ↔ AllPairs (λ x y. text_cmp (printed_hop x) (printed_hop y) ≡ Less) hops.now) }
{
    are_in_order(alloc, hops)
}
