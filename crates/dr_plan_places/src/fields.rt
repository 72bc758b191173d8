//! The place of a field that is missing, unknown or ill-formed, in words.
use crate::field_place::field_in;
use crate::print::{add_index, add_quoted};
use crate::{FieldPlace, Flaw, NodePart, Wrong};
use dr_base::Text;
use std::alloc::{AllocError, Global};
use std::str;
use toml::Table;

/// What the text's own fields have to be.
fn wanted_of_root(key: &str) -> &'static [u8] {
    match key {
        "format" => b"the number 1, 2 or 3",
        "node" => b"tables [[node]]",
        "flow" => b"tables [[flow]]",
        _ => b"?",
    }
}

/// What a node's own fields have to be.
fn wanted_of_node(key: &str) -> &'static [u8] {
    match key {
        "name" => b"a name in quotes",
        "address" => b"\"host:port\" without blanks, with a port of up to 65535",
        "max_pdu" => b"a whole number",
        "accept" => b"tables [[node.accept]]",
        "rule" => b"tables [[node.rule]]",
        "listens" | "bind" => b"left out before format 3",
        _ => b"?",
    }
}

/// What the fields of an accept row have to be.
fn wanted_of_row(key: &str) -> &'static [u8] {
    match key {
        "from" => b"\"*\" or a list of names",
        "class" => b"a SOP class UID in quotes",
        "syntax" => b"a list of transfer syntax UIDs, none of them twice",
        _ => b"?",
    }
}

/// What the fields of a rule have to be.
fn wanted_of_rule(key: &str) -> &'static [u8] {
    match key {
        "from" => b"\"*\" or a name",
        "class" => b"\"*\" or a SOP class UID",
        "modality" => b"\"*\" or a value of up to 64 characters",
        "station" =>
            b"\"*\" or a value of up to 64 characters, or in format 2 a prefix with *, as \"CT*\"",
        "to" => b"a list of names",
        "keep" => b"true or false",
        "except" => b"left out before format 3",
        _ => b"?",
    }
}

/// What the fields of a flow have to be.
fn wanted_of_flow(key: &str) -> &'static [u8] {
    match key {
        "at" | "to" => b"a name in quotes",
        "class" => b"a list of SOP class UIDs",
        "syntax" => b"a list of transfer syntax UIDs",
        "modality" => b"\"*\" or a list of values of up to 64 characters",
        "station" =>
            b"\"*\" or a list of values of up to 64 characters, in format 2 also of prefixes with *, as \"CT*\"",
        _ => b"?",
    }
}

/// What the field at a key of a table has to be.
fn wanted(place: FieldPlace, key: &str) -> &'static [u8] {
    match place {
        FieldPlace::Root => wanted_of_root(key),
        FieldPlace::OfNode(_, NodePart::Own) => wanted_of_node(key),
        FieldPlace::OfNode(_, NodePart::AcceptRow(_)) => wanted_of_row(key),
        FieldPlace::OfNode(_, NodePart::Rule(_)) => wanted_of_rule(key),
        FieldPlace::OfFlow(_) => wanted_of_flow(key),
    }
}

/// The name of a node as its table has it.
fn name_in(root: &Table, index: usize) -> Option<&str> {
    let nodes = root.get("node")?.as_array()?;
    let node = nodes.as_slice().get(index)?.as_table()?;
    node.get("name")?.as_str()
}

/// Adds a node, as `node 3 "GATE"`.
fn add_node(out: &mut Vec<u8>, root: &Table, index: usize) -> Result<(), AllocError> {
    out.extend_from_slice(b"node ")?;
    add_index(out, index)?;
    let Some(name) = name_in(root, index) else {
        return Ok(());
    };
    out.push(b' ')?;
    add_quoted(out, name.as_bytes())
}

/// Adds a part of a node.
fn add_part(out: &mut Vec<u8>, part: NodePart) -> Result<(), AllocError> {
    match part {
        NodePart::Own => Ok(()),
        NodePart::AcceptRow(row) => {
            out.extend_from_slice(b", accept row ")?;
            add_index(out, row)
        }
        NodePart::Rule(rule) => {
            out.extend_from_slice(b", rule ")?;
            add_index(out, rule)
        }
    }
}

/// Adds a table of the text.
pub fn add_table(out: &mut Vec<u8>, root: &Table, place: FieldPlace) -> Result<(), AllocError> {
    match place {
        FieldPlace::Root => out.extend_from_slice(b"in front of all tables"),
        FieldPlace::OfNode(index, part) => {
            add_node(out, root, index)?;
            add_part(out, part)
        }
        FieldPlace::OfFlow(index) => {
            out.extend_from_slice(b"flow ")?;
            add_index(out, index)
        }
    }
}

/// The key of a flaw.
pub fn key_of(flaw: &Flaw) -> &str {
    str::from_utf8(flaw.key.as_bytes()).unwrap_or("")
}

/// Adds what is wrong with a field, and what it has to be.
fn add_flaw(out: &mut Vec<u8>, flaw: &Flaw, wanted: &[u8]) -> Result<(), AllocError> {
    let key = flaw.key.as_bytes();
    match flaw.wrong {
        Wrong::Unknown => {
            out.extend_from_slice(b": no key ")?;
            add_quoted(out, key)?;
            return out.extend_from_slice(b" is known here");
        }
        Wrong::Missing => {
            out.extend_from_slice(b", ")?;
            out.extend_from_slice(key)?;
            out.extend_from_slice(b": it is missing, and has to be ")?;
        }
        Wrong::IllFormed => {
            out.extend_from_slice(b", ")?;
            out.extend_from_slice(key)?;
            out.extend_from_slice(b": it has to be ")?;
        }
    }
    out.extend_from_slice(wanted)
}

/// A field's fault in words, one line of them, indented by two blanks: the table, the key, and what
/// it has to be.
pub fn describe_flaw(
    alloc: Global,
    root: &Table,
    place: FieldPlace,
    flaw: &Flaw,
    wanted: &[u8],
) -> Result<Text, AllocError> {
    let mut out = Vec::from_slice(alloc, b"  ")?;
    add_table(&mut out, root, place)?;
    add_flaw(&mut out, flaw, wanted)?;
    out.push(b'\n')?;
    Ok(Text::from_vec(out))
}

/// The place of a field's fault in words. Nothing where no place shows it.
///
/// Errors: want of memory.
pub fn describe_field(alloc: Global, root: &Table) -> Result<Text, AllocError> {
    match field_in(alloc, root)? {
        Some((place, flaw)) => {
            describe_flaw(alloc, root, place, &flaw, wanted(place, key_of(&flaw)))
        }
        None => Ok(Text::empty(alloc)),
    }
}
