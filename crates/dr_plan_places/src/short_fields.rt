//! The place of a fault of a text of format 3 in words.
use crate::excess::excess_in;
use crate::field_place::{FieldPlace, NodePart};
use crate::fields::{add_table, describe_flaw, key_of};
use crate::print::add_quoted;
use crate::short_place::short_field_in;
use crate::strangers::{Stranger, WordKey, stranger_in};
use dr_base::Text;
use dr_plan_expand::tables::ShortPlanTable;
use dr_plan_text::fault::ReadFault;
use dr_plan_text::form::TableForm;
use std::alloc::{AllocError, Global};
use toml::Table;

/// What the text's own fields have to be.
fn wanted_of_root(key: &str) -> &'static [u8] {
    match key {
        "set" => b"a table [set] of lists of classes in quotes, none of them empty",
        "group" => b"a table [group] of lists of names in quotes, none of them empty",
        "node" => b"tables [[node]]",
        "flow" => b"tables [[flow]]",
        _ => b"?",
    }
}

/// What an address has to be.
const ADDRESS: &[u8] =
    b"\"host:port\" without blanks, with a port of up to 65535, and left out where listens is false";

/// What a node's own fields have to be.
fn wanted_of_node(key: &str) -> &'static [u8] {
    match key {
        "name" => b"a name in quotes, which doesn't begin with @",
        "address" | "bind" => ADDRESS,
        "max_pdu" => b"a whole number",
        "accept" => b"tables [[node.accept]], and left out where listens is false",
        "rule" => b"tables [[node.rule]]",
        "listens" => b"true or false",
        _ => b"?",
    }
}

/// What the fields of an accept row have to be.
fn wanted_of_row(key: &str) -> &'static [u8] {
    match key {
        "from" => b"\"*\" or a list of names and groups",
        "class" => b"a class or a set in quotes, or a list of them",
        "syntax" => b"a list of transfer syntaxes, none of them twice",
        _ => b"?",
    }
}

/// What the fields of a rule have to be.
fn wanted_of_rule(key: &str) -> &'static [u8] {
    match key {
        "from" => b"\"*\", a name or a group, or a list of them",
        "class" => b"\"*\", a class or a set, or a list of them",
        "modality" | "station" =>
            b"\"*\" or a value of up to 64 characters, or a prefix with *, as \"CT*\"",
        "to" => b"a list of names and groups",
        "keep" => b"true or false",
        "except" => b"a list of values of up to 64 characters, without *",
        _ => b"?",
    }
}

/// What the fields of a flow have to be.
fn wanted_of_flow(key: &str) -> &'static [u8] {
    match key {
        "at" | "to" => b"a name or a group in quotes, or a list of them",
        "class" => b"a class or a set in quotes, or a list of them",
        "syntax" => b"a list of transfer syntaxes",
        "modality" | "station" =>
            b"\"*\" or a list of values of up to 64 characters and of prefixes with *, as \"CT*\"",
        _ => b"?",
    }
}

/// What the field at a key of a table has to be.
fn wanted(place: FieldPlace, key: &str) -> &'static [u8] {
    match place {
        FieldPlace::Root => wanted_of_root(key),
        FieldPlace::OfNode(_, NodePart::Own) => wanted_of_node(key),
        FieldPlace::OfNode(_, NodePart::AcceptRow(_)) => wanted_of_row(key),
        FieldPlace::OfNode(_, NodePart::Rule(_)) => wanted_of_rule(key),
        FieldPlace::OfFlow(_) => wanted_of_flow(key),
    }
}

/// What is said where each field is of its form, and no text spells what the tables stand for.
fn describe_unspelled(alloc: Global) -> Result<Text, AllocError> {
    let mut out = Vec::from_slice(
        alloc,
        b"  each field is of its form, but a word has a character ",
    )?;
    out.extend_from_slice(b"that isn't printable, a group has a group in it, ")?;
    out.extend_from_slice(b"or an accept row gives a transfer syntax twice\n")?;
    Ok(Text::from_vec(out))
}

/// The place of a field's fault in words; where no place shows it, what else it can be.
///
/// Errors: want of memory.
pub fn describe_short_field(alloc: Global, root: &Table) -> Result<Text, AllocError> {
    match short_field_in(alloc, root)? {
        Some((place, flaw)) => {
            describe_flaw(alloc, root, place, &flaw, wanted(place, key_of(&flaw)))
        }
        None => describe_unspelled(alloc),
    }
}

/// A table with which the plan stands for more than a plan may, in words.
fn describe_over(alloc: Global, root: &Table, place: FieldPlace) -> Result<Text, AllocError> {
    let mut out = Vec::from_slice(alloc, b"  ")?;
    add_table(&mut out, root, place)?;
    out.extend_from_slice(b": with it the plan stands for more than 262144 words, ")?;
    out.extend_from_slice(b"a list for more than 1024, or a word has more than 128 bytes\n")?;
    Ok(Text::from_vec(out))
}

/// The place in words at which a plan stands for more than a plan may. Nothing where there is none.
///
/// Errors: want of memory.
pub fn describe_excess(alloc: Global, root: &Table) -> Result<Text, AllocError> {
    let short = match ShortPlanTable::read_table(alloc, root) {
        Ok(short) => short,
        Err(ReadFault::Field) => return Ok(Text::empty(alloc)),
        Err(ReadFault::Memory) => return Err(AllocError),
    };
    match excess_in(&short) {
        Some(place) => describe_over(alloc, root, place),
        None => Ok(Text::empty(alloc)),
    }
}

/// The field as it is written.
fn name_of(key: WordKey) -> &'static [u8] {
    match key {
        WordKey::From => b"from",
        WordKey::Class => b"class",
        WordKey::To => b"to",
        WordKey::At => b"at",
    }
}

/// What a word stands for that nobody defines.
fn kind_of(stranger: &Stranger) -> &'static [u8] {
    let is_marked = stranger.word.as_bytes().first() == Some(&b'@');
    match stranger.key {
        WordKey::Class if is_marked =>
            b" is a set that nobody defines, or one with a class that nobody defines",
        WordKey::Class => b" is neither a UID nor the name of a class",
        WordKey::From | WordKey::To | WordKey::At => b" is a group that nobody defines",
    }
}

/// A word that nobody defines in words: its table, its field and the word.
fn describe_stranger(
    alloc: Global,
    root: &Table,
    place: FieldPlace,
    stranger: &Stranger,
) -> Result<Text, AllocError> {
    let mut out = Vec::from_slice(alloc, b"  ")?;
    add_table(&mut out, root, place)?;
    out.extend_from_slice(b", ")?;
    out.extend_from_slice(name_of(stranger.key))?;
    out.extend_from_slice(b": ")?;
    add_quoted(&mut out, stranger.word.as_bytes())?;
    out.extend_from_slice(kind_of(stranger))?;
    out.push(b'\n')?;
    Ok(Text::from_vec(out))
}

/// The place of a word that nobody defines in words. Nothing where there is none.
///
/// Errors: want of memory.
pub fn describe_unknown_word(alloc: Global, root: &Table) -> Result<Text, AllocError> {
    let short = match ShortPlanTable::read_table(alloc, root) {
        Ok(short) => short,
        Err(ReadFault::Field) => return Ok(Text::empty(alloc)),
        Err(ReadFault::Memory) => return Err(AllocError),
    };
    match stranger_in(alloc, &short)? {
        Some((place, stranger)) => describe_stranger(alloc, root, place, &stranger),
        None => Ok(Text::empty(alloc)),
    }
}
