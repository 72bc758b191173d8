//! The plan of devices, as text.
ghost use Rattle.std.specs.Prelude.{◌≡◌, ◌++◌, IfOk, OnOk, codes, flat_map};
ghost use Rattle.dr_word_import.specs.Tables.{accept_at_gate, accept_behind, accept_table};
ghost use Rattle.dr_word_import.specs.Tables.{device_tables, flow_head, flow_table, flow_tail};
ghost use Rattle.dr_word_import.specs.Tables.{gate_rule};
ghost use Rattle.dr_word_import.specs.Tables.{keeper_rule, line, node_table, place_of, plan_of};
ghost use Rattle.dr_word_import.specs.Tables.{quoted, rows_of, syntaxes, target_item};

use crate::device::{Device, Usual};
use dr_base::Text;
use std::alloc::{AllocError, Global};

const LF: u8 = 10;

const QUOTE: u8 = 34;

/// Adds a word between quotes.
fn put_quoted(out: &mut Vec<u8>, word: &[u8]) -> Result<(), AllocError>
    ensures { OnOk result (out.new.items ≡ out.old.items ++ quoted word.now) }
{
    out.push(QUOTE)?;
    out.extend_from_slice(word)?;
    out.push(QUOTE)?;
    Ok(())
}

/// Adds a line.
fn put_line(out: &mut Vec<u8>, text: &[u8]) -> Result<(), AllocError>
    ensures { OnOk result (out.new.items ≡ out.old.items ++ line text.now) }
{
    out.extend_from_slice(text)?;
    out.push(LF)?;
    Ok(())
}

/// Adds a line that ends with a word between quotes.
fn put_value(out: &mut Vec<u8>, key: &[u8], word: &[u8]) -> Result<(), AllocError>
    ensures { OnOk result (out.new.items ≡ out.old.items ++ line (key.now ++ quoted word.now)) }
{
    out.extend_from_slice(key)?;
    put_quoted(out, word)?;
    out.push(LF)?;
    Ok(())
}

/// Adds a line that ends with a name between quotes.
fn put_named(out: &mut Vec<u8>, key: &[u8], name: &Text) -> Result<(), AllocError>
    ensures { OnOk result (out.new.items ≡ out.old.items ++ line (key.now ++ quoted name.now)) }
{
    put_value(out, key, name.as_bytes())?;
    Ok(())
}

/// Adds a line with a list of one word.
fn put_list(out: &mut Vec<u8>, key: &[u8], word: &[u8]) -> Result<(), AllocError>
    ensures { OnOk result
        (out.new.items ≡ out.old.items ++ line (key.now ++ quoted word.now ++ codes "]")) }
{
    out.extend_from_slice(key)?;
    put_quoted(out, word)?;
    out.extend_from_slice(b"]")?;
    out.push(LF)?;
    Ok(())
}

/// Adds both transfer syntaxes.
fn put_syntaxes(out: &mut Vec<u8>) -> Result<(), AllocError>
    ensures { OnOk result (out.new.items ≡ out.old.items ++ syntaxes) }
{
    put_line(
        out,
        b"syntax = [\"ExplicitVRLittleEndian\", \"ImplicitVRLittleEndian\"]",
    )
}

/// Adds where a device listens.
fn put_place(out: &mut Vec<u8>, address: &Option<Text>) -> Result<(), AllocError>
    ensures { OnOk result (out.new.items ≡ out.old.items ++ place_of address.now) }
{
    match address {
        Some(address) => put_value(out, b"address = ", address.as_bytes()),
        None => put_line(out, b"listens = false"),
    }
}

/// Adds the table of a node.
fn put_node(out: &mut Vec<u8>, it: &Device) -> Result<(), AllocError>
    ensures { OnOk result (out.new.items ≡ out.old.items ++ node_table it.now) }
{
    out.push(LF)?;
    put_line(out, b"[[node]]")?;
    put_value(out, b"name = ", it.name.as_bytes())?;
    put_place(out, &it.address)?;
    Ok(())
}

/// Adds an accept row.
fn put_accept(out: &mut Vec<u8>, name: &Text, sends: Usual) -> Result<(), AllocError>
    ensures { OnOk result (out.new.items ≡ out.old.items ++ accept_table name.now sends) }
{
    put_line(out, b"[[node.accept]]")?;
    put_list(out, b"from = [", name.as_bytes())?;
    put_value(out, b"class = ", sends.set())?;
    put_syntaxes(out)?;
    Ok(())
}

/// Adds what the gate accepts of a device.
fn put_accept_at_gate(out: &mut Vec<u8>, it: &Device) -> Result<(), AllocError>
    ensures { OnOk result (out.new.items ≡ out.old.items ++ accept_at_gate it.now) }
{
    if it.role.is_scanner() {
        return put_accept(out, &it.name, it.sends);
    }
    Ok(())
}

/// Adds what a keeper accepts from the gate of what a device sends.
fn put_accept_behind(out: &mut Vec<u8>, gate: &Text, it: &Device) -> Result<(), AllocError>
    ensures { OnOk result (out.new.items ≡ out.old.items ++ accept_behind gate.now it.now) }
{
    if it.role.is_scanner() {
        return put_accept(out, gate, it.sends);
    }
    Ok(())
}

/// Adds a target, where the device keeps.
fn put_target(out: &mut Vec<u8>, it: &Device) -> Result<(), AllocError>
    ensures { OnOk result (out.new.items ≡ out.old.items ++ target_item it.now) }
{
    if it.role.is_keeper() {
        put_quoted(out, it.name.as_bytes())?;
        out.extend_from_slice(b", ")?;
        return Ok(());
    }
    Ok(())
}

/// Adds all targets.
fn put_targets(out: &mut Vec<u8>, all: &[Device]) -> Result<(), AllocError>
    ensures { OnOk result (out.new.items ≡ out.old.items ++ flat_map target_item all.now) }
{
    for it in all {
        put_target(out, it)?;
    }
    Ok(())
}

/// Adds all that the gate accepts.
fn put_gate_accepts(out: &mut Vec<u8>, all: &[Device]) -> Result<(), AllocError>
    ensures { OnOk result (out.new.items ≡ out.old.items ++ flat_map accept_at_gate all.now) }
{
    for it in all {
        put_accept_at_gate(out, it)?;
    }
    Ok(())
}

/// Adds all that a keeper accepts from the gate.
fn put_keeper_accepts(out: &mut Vec<u8>, gate: &Text, all: &[Device]) -> Result<(), AllocError>
    ensures { OnOk result
        (out.new.items ≡ out.old.items ++ flat_map (accept_behind gate.now) all.now) }
{
    for it in all {
        put_accept_behind(out, gate, it)?;
    }
    Ok(())
}

/// Adds the rule of the gate.
fn put_gate_rule(out: &mut Vec<u8>, all: &[Device]) -> Result<(), AllocError>
    ensures { OnOk result (out.new.items ≡ out.old.items ++ gate_rule all.now) }
{
    put_line(out, b"[[node.rule]]")?;
    out.extend_from_slice(b"to = [")?;
    put_targets(out, all)?;
    put_line(out, b"]")?;
    Ok(())
}

/// Adds the rule of a keeper.
fn put_keeper_rule(out: &mut Vec<u8>) -> Result<(), AllocError>
    ensures { OnOk result (out.new.items ≡ out.old.items ++ keeper_rule) }
{
    put_line(out, b"[[node.rule]]")?;
    put_line(out, b"keep = true")?;
    Ok(())
}

/// Adds what the gate does.
fn put_gate_rows(out: &mut Vec<u8>, all: &[Device]) -> Result<(), AllocError>
    ensures { OnOk result
        (out.new.items ≡ out.old.items ++ (flat_map accept_at_gate all.now ++ gate_rule all.now)) }
{
    put_gate_accepts(out, all)?;
    put_gate_rule(out, all)?;
    Ok(())
}

/// Adds what a keeper does.
fn put_keeper_rows(out: &mut Vec<u8>, gate: &Text, all: &[Device]) -> Result<(), AllocError>
    ensures { OnOk result (out.new.items
        ≡ out.old.items ++ (flat_map (accept_behind gate.now) all.now ++ keeper_rule)) }
{
    put_keeper_accepts(out, gate, all)?;
    put_keeper_rule(out)?;
    Ok(())
}

/// Adds what a device does with what comes.
fn put_rows(out: &mut Vec<u8>, all: &[Device], gate: &Text, it: &Device) -> Result<(), AllocError>
    ensures { OnOk result (out.new.items ≡ out.old.items ++ rows_of all.now gate.now it.now) }
{
    if it.role.is_router() {
        return put_gate_rows(out, all);
    }
    if it.role.is_keeper() {
        return put_keeper_rows(out, gate, all);
    }
    Ok(())
}

/// Adds the tables of a device.
fn put_device(out: &mut Vec<u8>, all: &[Device], gate: &Text, it: &Device) -> Result<(), AllocError>
    ensures { OnOk result (out.new.items ≡ out.old.items ++ device_tables all.now gate.now it.now) }
{
    put_node(out, it)?;
    put_rows(out, all, gate, it)?;
    Ok(())
}

/// Adds the tables of all devices.
fn put_devices(out: &mut Vec<u8>, all: &[Device], gate: &Text) -> Result<(), AllocError>
    ensures { OnOk result
        (out.new.items ≡ out.old.items ++ flat_map (device_tables all.now gate.now) all.now) }
{
    for it in all {
        put_device(out, all, gate, it)?;
    }
    Ok(())
}

/// Adds where a flow begins and goes to.
fn put_flow_head(out: &mut Vec<u8>, gate: &Text, it: &Device) -> Result<(), AllocError>
    ensures { OnOk result (out.new.items ≡ out.old.items ++ flow_head gate.now it.now) }
{
    out.push(LF)?;
    put_line(out, b"[[flow]]")?;
    put_named(out, b"at = ", &it.name)?;
    put_named(out, b"to = ", gate)?;
    Ok(())
}

/// Adds what is in it.
fn put_flow_tail(out: &mut Vec<u8>, sends: Usual) -> Result<(), AllocError>
    ensures { OnOk result (out.new.items ≡ out.old.items ++ flow_tail sends) }
{
    put_list(out, b"class = [", sends.set())?;
    put_syntaxes(out)?;
    put_line(out, b"modality = \"*\"")?;
    put_line(out, b"station = \"*\"")?;
    Ok(())
}

/// Adds the table of a flow.
fn put_scan(out: &mut Vec<u8>, gate: &Text, it: &Device) -> Result<(), AllocError>
    ensures { OnOk result (out.new.items
        ≡ out.old.items ++ (flow_head gate.now it.now ++ flow_tail it.now.sends)) }
{
    put_flow_head(out, gate, it)?;
    put_flow_tail(out, it.sends)?;
    Ok(())
}

/// Adds the flow of a device, where it sends.
fn put_flow(out: &mut Vec<u8>, gate: &Text, it: &Device) -> Result<(), AllocError>
    ensures { OnOk result (out.new.items ≡ out.old.items ++ flow_table gate.now it.now) }
{
    if it.role.is_scanner() {
        return put_scan(out, gate, it);
    }
    Ok(())
}

/// Adds all flows.
fn put_flows(out: &mut Vec<u8>, gate: &Text, all: &[Device]) -> Result<(), AllocError>
    ensures { OnOk result
        (out.new.items ≡ out.old.items ++ flat_map (flow_table gate.now) all.now) }
{
    for it in all {
        put_flow(out, gate, it)?;
    }
    Ok(())
}

/// The plan of these devices, whose gate has this name.
pub fn plan_text(alloc: Global, all: &[Device], gate: &Text) -> Result<Vec<u8>, AllocError>
    ensures { IfOk result (λ text. text.items ≡ plan_of all.now gate.now) }
{
    let mut out = Vec::new(alloc);
    put_line(&mut out, b"format = 3")?;
    put_devices(&mut out, all, gate)?;
    put_flows(&mut out, gate, all)?;
    Ok(out)
}
