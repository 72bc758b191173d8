//! An instance.
ghost use Rattle.std.specs.Prelude.{◌≡◌, IfOk};
ghost use Rattle.dr_ledger.specs.declared.item.Instance.{Instance as InstanceValue};
ghost use Rattle.dr_route.specs.declared.key.Key.{Key as KeyValue};
ghost use Rattle.dr_ledger_read.specs.Cutting.{Cuts};
ghost use Rattle.dr_ledger_read.specs.Places.{IsItem, IsKey, ShowsItem, ShowsKey};

use crate::digest::cut_digest;
use crate::members::cut_syntax;
use crate::numbers::cut_count;
use crate::places::{ItemPlaces, KeyPlaces};
use crate::quoted::{cut_word, text_at};
use dr_ledger::Instance;
use dr_route::Key;
use std::alloc::{AllocError, Global};

/// What rules read of an instance, at the front of a text.
fn cut_key(text: &[u8]) -> Option<(KeyPlaces<'_>, &[u8])>
    ensures { Cuts ShowsKey (IsKey text.now) result }
{
    let (class, after_class) = cut_word(text, b",\"class\":")?;
    let (syntax, after_syntax) = cut_syntax(after_class)?;
    let (modality, after_modality) = cut_word(after_syntax, b",\"modality\":")?;
    let (station, rest) = cut_word(after_modality, b",\"station\":")?;
    let key = KeyPlaces {
        class,
        syntax,
        modality,
        station,
    };
    Some((key, rest))
}

/// An instance at the front of a text.
pub fn cut_item(text: &[u8]) -> Option<(ItemPlaces<'_>, &[u8])>
    ensures { Cuts ShowsItem (IsItem text.now) result }
{
    let (uid, after_uid) = cut_word(text, b",\"uid\":")?;
    let (key, after_key) = cut_key(after_uid)?;
    let (size, after_size) = cut_count(after_key, b",\"length\":")?;
    let (digest, rest) = cut_digest(after_size)?;
    let item = ItemPlaces {
        uid,
        key,
        size,
        digest,
    };
    Some((item, rest))
}

fn key_at(alloc: Global, places: &KeyPlaces<'_>) -> Result<Key, AllocError>
    ensures { IfOk result (λ made. (key : KeyValue) → ShowsKey places.now key → made ≡ key) }
{
    let class = text_at(alloc, places.class)?;
    let modality = text_at(alloc, places.modality)?;
    let station = text_at(alloc, places.station)?;
    Ok(Key {
        class,
        syntax: places.syntax,
        modality,
        station,
    })
}

/// The instance that stands at such places.
pub fn item_at(alloc: Global, places: &ItemPlaces<'_>) -> Result<Instance, AllocError>
    ensures { IfOk result (λ made. (item : InstanceValue) → ShowsItem places.now item
        → made ≡ item) }
{
    let uid = text_at(alloc, places.uid)?;
    let key = key_at(alloc, &places.key)?;
    Ok(Instance {
        uid,
        key,
        size: places.size,
        digest: places.digest,
    })
}
