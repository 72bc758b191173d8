//! Lines and hops in the order of their printed bytes.
ghost use Rattle.std.specs.Prelude.{◌≡◌, ◌≢◌, ◌↔◌, IfOk, All, AllPairs, Contains, length, map};
ghost use Rattle.std.specs.Prelude.{nat_eq};
ghost use Rattle.std.proofs.Common.{refl};
ghost use Rattle.std.specs.Cmp.{partial_equiv_from_equiv, on_equiv, on_po, on_total};
ghost use Rattle.std.specs.Cmp.Lexicographic.{pointwise, slice_cmp, nat_list_eq_equiv};
ghost use Rattle.std.specs.Cmp.Lexicographic.{nat_list_cmp_total, texts_po, texts_ties};
ghost use Rattle.std.specs.Ordering.{nat_cmp, as_partial_cmp, on};
ghost use Rattle.std.specs.declared.cmp.Ordering.TheVariants.{Less};
ghost use Rattle.dr_base.specs.Texts.{text_cmp};
ghost use Rattle.dr_plan_sound.specs.declared.certificate.Line.{Line as LineValue};
ghost use Rattle.dr_plan_sound.specs.declared.certificate.Hop.{Hop as HopValue};
ghost use Rattle.dr_plan_sound.specs.Printed.{printed_line, printed_hop};
ghost use Rattle.dr_cert_text.specs.Printable.{IsPrintableLine, IsPrintableHop};

use crate::printed::Printed;
use dr_base::{Seq, Text};
use dr_plan_sound::{Hop, Line};
use std::alloc::{AllocError, Global};
use std::cmp::Ordering;

/// A value with its printed text, by which it is compared.
#[derive(Drop)]
struct Keyed<P> {
    text: Text,
    item: P,
}

impl<P> PartialEq for Keyed<P> {
    ghost eq = { on (λ k. k.text) (pointwise nat_eq) };

    ghost laws = { partial_equiv_from_equiv (on_equiv (λ k. k.text) nat_list_eq_equiv) };

    fn eq(&self, other: &Keyed<P>) -> bool {
        self.text == other.text
    }
}

impl<P> Eq for Keyed<P> {
    ghost laws = { on_equiv (λ k. k.text) nat_list_eq_equiv };
}

impl<P> PartialOrd for Keyed<P> {
    ghost partial_cmp = { as_partial_cmp (on (λ k. k.text) (slice_cmp nat_cmp)) };

    ghost laws = { on_po (λ k. k.text) texts_po };

    fn partial_cmp(&self, other: &Keyed<P>) -> Option<Ordering> {
        Some(self.cmp(other))
    }
}

impl<P> Ord for Keyed<P> {
    ghost cmp = { on (λ k. k.text) (slice_cmp nat_cmp) };

    ghost total = { on_total (λ k. k.text) nat_list_cmp_total };

    ghost matches_partial_cmp = { λ x y. refl };

    ghost matches_eq = { λ x y. texts_ties x.text y.text };

    fn cmp(&self, other: &Keyed<P>) -> Ordering {
        self.text.cmp(&other.text)
    }
}

/// The values with their texts.
fn with_texts<P: Printed>(alloc: Global, items: Vec<P>) -> Result<Vec<Keyed<P>>, AllocError>
    ensures items { IfOk result (λ v. map (λ k. k.item) v.items ≡ items.items) }
    ensures texts { IfOk result (λ v. All (λ k. k.text ≡ P.printed k.item) v.items) }
{
    let mut all = Vec::with_capacity(alloc, items.len())?;
    for item in items {
        let mut text = Vec::new(alloc);
        item.print(&mut text)?;
        let text = Text::from_vec(text);
        all.push(Keyed { text, item })?;
    }
    Ok(all)
}

/// The values in the byte order of their texts: n log n comparisons.
fn in_printed_order<P: Printed>(alloc: Global, items: Vec<P>) -> Result<Seq<P>, AllocError>
    requires { AllPairs (λ a b. P.printed a ≢ P.printed b) items.items }
    ensures same { IfOk result (λ seq. (item : P) → Contains seq item ↔ Contains items.items item) }
    ensures long { IfOk result (λ seq. length seq ≡ length items.items) }
    ensures ordered { IfOk result (λ seq.
        AllPairs (λ a b. text_cmp (P.printed a) (P.printed b) ≡ Less) seq) }
{
    let mut all = with_texts(alloc, items)?;
    all.sort_unstable();
    let sorted: Vec<P> = all.into_iter().map(|pair| pair.item).collect(alloc)?;
    Ok(Seq::from_vec(sorted))
}

/// The lines in the byte order of their printed texts, which is the order of a certificate.
pub fn order_lines(alloc: Global, lines: Vec<Line>) -> Result<Seq<Line>, AllocError>
    requires printable { All IsPrintableLine lines.items }
    requires different { AllPairs (λ a b. a ≢ b) lines.items }
    ensures same { IfOk result (λ seq.
        (line : LineValue) → Contains seq line ↔ Contains lines.items line) }
    ensures long { IfOk result (λ seq. length seq ≡ length lines.items) }
    ensures ordered { IfOk result (λ seq.
        AllPairs (λ a b. text_cmp (printed_line a) (printed_line b) ≡ Less) seq) }
{
    in_printed_order(alloc, lines)
}

/// The hops in the byte order of their printed texts, which is the order of a certificate.
pub fn order_hops(alloc: Global, hops: Vec<Hop>) -> Result<Seq<Hop>, AllocError>
    requires printable { All IsPrintableHop hops.items }
    requires different { AllPairs (λ a b. a ≢ b) hops.items }
    ensures same { IfOk result (λ seq.
        (hop : HopValue) → Contains seq hop ↔ Contains hops.items hop) }
    ensures long { IfOk result (λ seq. length seq ≡ length hops.items) }
    ensures ordered { IfOk result (λ seq.
        AllPairs (λ a b. text_cmp (printed_hop a) (printed_hop b) ≡ Less) seq) }
{
    in_printed_order(alloc, hops)
}
