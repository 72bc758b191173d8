//! What was heard of a connection before its session begins.
ghost use Rattle.std.specs.Prelude.{◌≡◌, ◌∷◌, [], None, IfOk, false};
ghost use Rattle.dr_session.specs.declared.ends.Heard.TheVariants.{Bytes, Late};
ghost use Rattle.dr_desk_workers.specs.Hearing.{IsAhead, Puts, TakesHeard, later, listed, told};

use crate::gate::Gate;
use dr_base::Text;
use dr_session::{Clock, Heard, Link};
use std::alloc::{AllocError, Global};
use std::mem;

/// No request is longer, in bytes; the session refuses one that says it is by its head alone.
const LONGEST: usize = 1 << 20;

/// So many pieces are awaited at most.
const MOST_PIECES: u64 = 1 << 40;

/// What was heard ahead of a session, in the order in which it is to be heard: the first PDU, what
/// came behind it, and what ended the waiting for it.
#[derive(Drop)]
pub struct Ahead {
    pub first: Option<Heard>,
    pub second: Option<Heard>,
    pub third: Option<Heard>,
}

impl Ahead {
    /// What is to be heard next, if anything is.
    pub fn take(&mut self) -> Option<Heard>
        ensures { (result ≡ self.old.first) × (self.new ≡ later self.old) }
    {
        let third = mem::replace(&mut self.third, None);
        let second = mem::replace(&mut self.second, third);
        mem::replace(&mut self.first, second)
    }

    /// That alone.
    fn of_one(heard: Heard) -> Ahead
        ensures { told result ≡ heard ∷ [] }
    {
        Ahead {
            first: Some(heard),
            second: None,
            third: None,
        }
    }

    /// What ended the waiting, if anything did; nothing came before it.
    fn of_nothing(ended: Option<Heard>) -> Ahead
        ensures { told result ≡ listed ended [] }
    {
        Ahead {
            first: ended,
            second: None,
            third: None,
        }
    }

    /// Bytes, of which so many are the first PDU, and what ended the waiting for it.
    ///
    /// Errors: want of memory.
    fn of(
        alloc: Global,
        text: &[u8],
        whole: usize,
        ended: Option<Heard>,
    ) -> Result<Ahead, AllocError>
        ensures { IfOk result (Puts text.now ended) }
    {
        if text.is_empty() {
            return Ok(Ahead::of_nothing(ended));
        }
        let (request, behind) = text.split_at(whole.min(text.len()));
        let first = Text::copy_of(alloc, request)?;
        if behind.is_empty() {
            return Ok(Ahead {
                first: Some(Heard::Bytes(first)),
                second: ended,
                third: None,
            });
        }
        let second = Text::copy_of(alloc, behind)?;
        Ok(Ahead {
            first: Some(Heard::Bytes(first)),
            second: Some(Heard::Bytes(second)),
            third: ended,
        })
    }
}

/// How long the PDU is whose first bytes these are, with its head, if they tell it. What is no
/// request isn't awaited, nor one of a length that is refused.
fn whole_length(text: &[u8]) -> Option<usize> {
    let [kind, _, a, b, c, d, ..] = text else {
        return None;
    };
    let length = u32::from_be_bytes([*a, *b, *c, *d]) as usize;
    if *kind != 1 || length > LONGEST {
        return Some(text.len());
    }
    Some(length + 6)
}

/// Whether it ends the waiting: a late mark does from that moment on.
fn is_over<C: Clock>(heard: &Heard, until: u64, clock: &C) -> bool
    ensures { result ≡ false → heard.now ≡ Late }
{
    match heard {
        Heard::Late => clock.now() >= until,
        Heard::Bytes(_) | Heard::End | Heard::Fault | Heard::Memory => true,
        Heard::Idle | Heard::Crowded => true,
    }
}

/// More bytes; what is put ahead, once the first PDU is there whole.
///
/// Errors: want of memory.
fn take_bytes(alloc: Global, piece: &[u8], text: &mut Vec<u8>) -> Result<Option<Ahead>, AllocError>
    ensures { IfOk result (λ ahead.
        TakesHeard (Bytes piece.now) text.old.items ahead text.new.items) }
{
    text.extend_from_slice(piece)?;
    let whole = whole_length(text.as_slice()).unwrap_or(usize::MAX);
    if whole > text.len() {
        return Ok(None);
    }
    let ahead = Ahead::of(alloc, text.as_slice(), whole, None)?;
    Ok(Some(ahead))
}

/// What was heard; what is put ahead, where it ends the waiting.
///
/// Errors: want of memory.
fn take_in<C: Clock>(
    alloc: Global,
    heard: Heard,
    text: &mut Vec<u8>,
    clock: &C,
    until: u64,
) -> Result<Option<Ahead>, AllocError>
    ensures { IfOk result (λ ahead. TakesHeard heard text.old.items ahead text.new.items) }
{
    if let Heard::Bytes(piece) = &heard {
        return take_bytes(alloc, piece.as_bytes(), text);
    }
    if !is_over(&heard, until, clock) {
        return Ok(None);
    }
    let ahead = Ahead::of(alloc, text.as_slice(), text.len(), Some(heard))?;
    Ok(Some(ahead))
}

/// Waits until the first PDU is there whole, or can't be any more.
///
/// Errors: want of memory.
fn hear_first<K: Link + Drop, C: Clock, G: Gate>(
    alloc: Global,
    link: &mut K,
    gate: &G,
    clock: &C,
    taken: u64,
) -> Result<Ahead, AllocError>
    ensures { IfOk result (λ ahead. IsAhead K.hears link.old ahead link.new) }
{
    let until = taken.saturating_add(gate.awaits());
    let mut text = Vec::new(alloc);
    for _piece in 0..MOST_PIECES {
        if gate.is_over() || gate.is_closing() {
            return Ok(Ahead::of_one(Heard::Fault));
        }
        let heard = link.recv();
        if let Some(ahead) = take_in(alloc, heard, &mut text, clock, until)? {
            return Ok(ahead);
        }
    }
    Ok(Ahead::of_one(Heard::Fault))
}

/// What comes on a connection until its first PDU is there whole, or can't be any more: what the
/// link hears, in its order. Nobody is counted while it is awaited. Where the node ends it is a
/// fault.
pub fn ahead_of<K: Link + Drop, C: Clock, G: Gate>(
    alloc: Global,
    link: &mut K,
    gate: &G,
    clock: &C,
    taken: u64,
) -> Ahead
    ensures { IsAhead K.hears link.old result link.new }
{
    match hear_first(alloc, link, gate, clock, taken) {
        Ok(ahead) => ahead,
        Err(AllocError) => Ahead::of_one(Heard::Memory),
    }
}
