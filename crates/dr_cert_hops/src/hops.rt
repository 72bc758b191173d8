//! The pairs that go over hops, and their numbers.
ghost use Rattle.std.specs.Prelude.{◌≡◌, ◌<◌, ◌↔◌, IfOk, Contains};
ghost use Rattle.std.specs.List.Sorted.{IsStrictlySortedBy};
ghost use Rattle.dr_cert_hops.specs.declared.hops.Passage.{Passage as PassageValue};
ghost use Rattle.dr_cert_hops.specs.Numbering.{ArePassages, Numbers, NumbersAll, shown_passage};
ghost use Rattle.dr_cert_hops.specs.Numbering.{ends_at, hop_after, passage_cmp};

use dr_base::{Syntax, Text};
use dr_plan_sound::{Hop, Line};
use dr_route::is_local;
use std::alloc::{AllocError, Global};
use std::collections::{BTreeMap, BTreeSet};

/// How many presentation contexts an association has at most: their ids are odd, 1 to 255 (PS3.8
/// 7.1.1.13).
const MOST_CONTEXTS: u8 = 128;

/// The hops of a plan, or the first that has too many pairs.
#[derive(Drop)]
pub enum Numbered {
    Hops(Vec<Hop>),
    TooMany { from: Text, to: Text },
}

/// A pair that goes over a hop.
#[derive(Clone, PartialEq, Eq, PartialOrd, Ord, Debug, Drop)]
pub struct Passage {
    pub from: Text,
    pub to: Text,
    pub class: Text,
    pub syntax: Syntax,
}

/// The two ends of a hop.
#[derive(Clone, PartialEq, Eq, PartialOrd, Ord, Drop)]
pub struct Ends {
    pub from: Text,
    pub to: Text,
}

/// The pair that the line shows for its hop.
fn passage_of(line: &Line) -> Result<Passage, AllocError>
    ensures { IfOk result (λ p. p ≡ shown_passage line.now) }
{
    Ok(Passage {
        from: line.stop.caller.clone()?,
        to: line.stop.node.clone()?,
        class: line.stop.cell.class.clone()?,
        syntax: line.stop.cell.syntax,
    })
}

/// The ends of the passage's hop.
fn ends_of(passage: &Passage) -> Result<Ends, AllocError>
    ensures { IfOk result (λ e. e ≡ ends_at passage.now) }
{
    Ok(Ends {
        from: passage.from.clone()?,
        to: passage.to.clone()?,
    })
}

/// The passage as a hop, after so many others over it.
fn hop_of(passage: &Passage, before: u8) -> Result<Hop, AllocError>
    requires { before < 128 }
    ensures { IfOk result (λ h. h ≡ hop_after passage.now before) }
{
    Ok(Hop {
        from: passage.from.clone()?,
        to: passage.to.clone()?,
        id: 2 * before + 1,
        class: passage.class.clone()?,
        syntax: passage.syntax,
    })
}

/// The passages of the set, in order.
fn in_order(alloc: Global, passages: BTreeSet<Passage>) -> Result<Vec<Passage>, AllocError>
    ensures same { IfOk result (λ v.
        (p : PassageValue) → Contains v.items p ↔ Contains passages.keys p) }
    ensures ordered { IfOk result (λ v. IsStrictlySortedBy passage_cmp v.items) }
{
    let listed: Vec<Passage> = passages.into_iter().collect(alloc)?;
    Ok(listed)
}

/// The pairs over all hops that the lines show, by sender, receiver, class and transfer syntax,
/// each once.
fn passages_of(alloc: Global, lines: &[Line]) -> Result<Vec<Passage>, AllocError>
    ensures { IfOk result (λ v. ArePassages lines.now v.items) }
{
    let mut passages = BTreeSet::new(alloc);
    for line in lines {
        if !is_local(&line.stop.caller) {
            passages.insert(passage_of(line)?)?;
        }
    }
    let listed = in_order(alloc, passages)?;
    Ok(listed)
}

/// Numbers the pairs of each hop 1, 3, 5 and so on, in their order.
fn number(alloc: Global, passages: &[Passage]) -> Result<Numbered, AllocError>
    ensures { IfOk result (NumbersAll passages.now) }
{
    let mut counts: BTreeMap<Ends, u8> = BTreeMap::new(alloc);
    let mut hops = Vec::new(alloc);
    for passage in passages {
        let ends = ends_of(passage)?;
        let before = counts.get(&ends).copied().unwrap_or(0);
        if before >= MOST_CONTEXTS {
            let Ends { from, to } = ends;
            return Ok(Numbered::TooMany { from, to });
        }
        counts.insert(ends, before + 1)?;
        hops.push(hop_of(passage, before)?)?;
    }
    Ok(Numbered::Hops(hops))
}

/// The presentation contexts of the hops that the lines show: over each hop its pairs of class and
/// transfer syntax, numbered 1, 3, 5 and so on in byte order of class, then transfer syntax. Where
/// a hop has more than 128 pairs, the first such hop in byte order is named.
pub fn number_hops(alloc: Global, lines: &[Line]) -> Result<Numbered, AllocError>
    ensures { IfOk result (Numbers lines.now) }
{
    let passages = passages_of(alloc, lines)?;
    let numbered = number(alloc, passages.as_slice())?;
    Ok(numbered)
}
