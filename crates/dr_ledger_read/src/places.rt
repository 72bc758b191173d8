//! Places in a text at which what a line says stands.
use dr_base::Syntax;
use dr_ledger::Outcome;

/// What rules read of an instance: each text is a place behind its first quote.
#[derive(Drop)]
pub struct KeyPlaces<'a> {
    pub class: &'a [u8],
    pub syntax: Syntax,
    pub modality: &'a [u8],
    pub station: &'a [u8],
}

#[derive(Drop)]
pub struct ItemPlaces<'a> {
    pub uid: &'a [u8],
    pub key: KeyPlaces<'a>,
    pub size: u64,
    pub digest: [u8; 32],
}

/// A line. The names of a first arrival stand one behind the other at their place.
#[derive(Drop)]
pub enum LinePlaces<'a> {
    Arrival {
        caller: &'a [u8],
        item: ItemPlaces<'a>,
        to: &'a [u8],
        keep: bool,
    },
    Repeat {
        caller: &'a [u8],
        item: ItemPlaces<'a>,
    },
    Settling {
        uid: &'a [u8],
        dest: &'a [u8],
        outcome: Outcome,
        now: u64,
    },
    Requeuing {
        uid: &'a [u8],
        dest: &'a [u8],
    },
    Dropping {
        uid: &'a [u8],
        dest: &'a [u8],
        now: u64,
    },
    Forgetting {
        uid: &'a [u8],
    },
    Adoption,
}

/// A line with its number and the moment (milliseconds) at which it was written.
#[derive(Drop)]
pub struct SealedPlaces<'a> {
    pub number: u64,
    pub line: LinePlaces<'a>,
    pub moment: Option<u64>,
}
