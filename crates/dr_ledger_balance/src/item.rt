//! An instance, cut off the front of a text.
ghost use Rattle.std.specs.Prelude.{◌≡◌, IfOk, MatchOption};
ghost use Rattle.dr_ledger_balance.specs.Pieces.{HasNone, IsPiece};
ghost use Rattle.dr_ledger_balance.specs.Places.{item_of, key_of};
ghost use Rattle.dr_ledger_balance.specs.Spelling.{FitsItem, FitsKey, item_then, key_then};

use crate::fields::{after, cut_digest, cut_field, cut_number, cut_syntax};
use dr_base::{Syntax, Text};
use dr_ledger::Instance;
use dr_route::Key;
use std::alloc::{AllocError, Global};

/// What rules read of an instance, each text where it stands.
#[derive(Drop)]
pub struct KeyFields<'a> {
    pub class: &'a [u8],
    pub syntax: Syntax,
    pub modality: &'a [u8],
    pub station: &'a [u8],
}

/// An instance, each text where it stands.
#[derive(Drop)]
pub struct ItemFields<'a> {
    pub uid: &'a [u8],
    pub key: KeyFields<'a>,
    pub size: u64,
    pub digest: [u8; 32],
}

/// What rules read of an instance, at the front of a text.
fn cut_key(text: &[u8]) -> Option<(KeyFields<'_>, &[u8])>
    ensures { MatchOption result (HasNone FitsKey key_then text.now)
        (λ f. IsPiece FitsKey key_then text.now (key_of f.0) f.1.now) }
{
    let (class, after_class) = cut_field(text)?;
    let (syntax, after_syntax) = cut_syntax(after_class)?;
    let (modality, after_modality) = cut_field(after_syntax)?;
    let (station, rest) = cut_field(after_modality)?;
    let key = KeyFields {
        class,
        syntax,
        modality,
        station,
    };
    Some((key, rest))
}

/// The line of an instance at the front of a text.
pub fn cut_item(text: &[u8]) -> Option<(ItemFields<'_>, &[u8])>
    ensures { MatchOption result (HasNone FitsItem item_then text.now)
        (λ f. IsPiece FitsItem item_then text.now (item_of f.0) f.1.now) }
{
    let fields = after(text, b"instance")?;
    let (uid, after_uid) = cut_field(fields)?;
    let (key, after_key) = cut_key(after_uid)?;
    let (size, after_size) = cut_number(after_key)?;
    let (digest, later) = cut_digest(after_size)?;
    let rest = after(later, b"\n")?;
    let item = ItemFields {
        uid,
        key,
        size,
        digest,
    };
    Some((item, rest))
}

fn key_at(alloc: Global, places: &KeyFields<'_>) -> Result<Key, AllocError>
    ensures { IfOk result (λ key. key ≡ key_of places.now) }
{
    let class = Text::copy_of(alloc, places.class)?;
    let modality = Text::copy_of(alloc, places.modality)?;
    let station = Text::copy_of(alloc, places.station)?;
    Ok(Key {
        class,
        syntax: places.syntax,
        modality,
        station,
    })
}

/// The instance that stands there.
pub fn item_at(alloc: Global, places: &ItemFields<'_>) -> Result<Instance, AllocError>
    ensures { IfOk result (λ item. item ≡ item_of places.now) }
{
    let uid = Text::copy_of(alloc, places.uid)?;
    let key = key_at(alloc, &places.key)?;
    Ok(Instance {
        uid,
        key,
        size: places.size,
        digest: places.digest,
    })
}
