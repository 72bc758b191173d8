//! What the standard names, and how it is found by a word.
ghost use Rattle.std.specs.Prelude.{◌≡◌, ◌↔◌, IsTrue, MatchOption, map};
ghost use Rattle.dr_base.specs.Texts.{Text as Words};
ghost use Rattle.dr_plan_expand.specs.Words.{IsCalled, HasUid, HasSome, Names, entry, entries};

use crate::find::{Test, first};

/// A class or a transfer syntax of the standard (PS3.6): its keyword, its name and its UID.
pub type KnownUid = (&'static str, &'static str, &'static str);

/// The name of a set, and the UID of a class that is in it.
pub type OfSet = (&'static str, &'static str);

/// A table of classes or of transfer syntaxes.
pub type Table = &'static [KnownUid];

/// A table of classes of sets.
pub type SetTable = &'static [OfSet];

/// Whether the word is its keyword or its name.
fn is_called(known: &KnownUid, word: &[u8]) -> bool
    ensures { IsTrue result ↔ IsCalled (entry known.now) word.now }
{
    known.0.as_bytes() == word || known.1.as_bytes() == word
}

/// An entry has this keyword or name.
#[derive(Drop)]
struct Called<'a>(&'a [u8]);

impl<'a> Test for Called<'a> {
    type Item = KnownUid;

    ghost holds = { λ called known. IsCalled (entry known) called.0.now };

    fn test(&self, known: &KnownUid) -> bool {
        is_called(known, self.0)
    }
}

/// The UID of the first entry of a table that the word names.
fn uid_in(table: &[KnownUid], word: &[u8]) -> Option<&'static str>
    ensures { MatchOption result ((uid : Words) → HasUid (map entry table.now) word.now uid → ⊥)
        (λ uid. HasUid (map entry table.now) word.now uid.now) }
{
    match first(&Called(word), table) {
        Some(known) => Some(known.2),
        None => None,
    }
}

/// A table has an entry that the word names.
#[derive(Drop)]
struct Has<'a>(&'a [u8]);

impl<'a> Test for Has<'a> {
    type Item = Table;

    ghost holds = { λ has table. HasSome has.0.now (entries table) };

    fn test(&self, table: &Table) -> bool {
        match uid_in(table, self.0) {
            Some(_) => true,
            None => false,
        }
    }
}

/// The UID that the word names, in the first table that has an entry which it names.
pub fn uid_of(tables: &[Table], word: &[u8]) -> Option<&'static str>
    ensures { MatchOption result ((uid : Words) → Names (map entries tables.now) word.now uid → ⊥)
        (λ uid. Names (map entries tables.now) word.now uid.now) }
{
    match first(&Has(word), tables) {
        Some(table) => uid_in(table, word),
        None => None,
    }
}
