//! Why a plan isn't sound, in sentences.
use crate::remedy::{Remedy, remedy_of};
use crate::sender::{Sender, holding_rule, sender_of};
use dr_base::{Syntax, Text};
use dr_check::Fault;
use dr_plan_model::Plan;
use dr_plan_places::print::{add_index, add_quoted};
use dr_route::cell::key_in;
use dr_route::{Key, OwnedCell, OwnedField};
use std::alloc::{AllocError, Global};

/// Adds words.
fn add(out: &mut Vec<u8>, words: &str) -> Result<(), AllocError> {
    out.extend_from_slice(words.as_bytes())
}

/// Adds a name.
fn add_name(out: &mut Vec<u8>, name: &Text) -> Result<(), AllocError> {
    add_quoted(out, name.as_bytes())
}

/// Adds the part of the field of that name: its literal, what its values begin with, or that the
/// plan doesn't name it.
fn add_part(out: &mut Vec<u8>, field: &str, part: &OwnedField) -> Result<(), AllocError> {
    match part {
        OwnedField::Literal(literal) => {
            add(out, field)?;
            add(out, " ")?;
            add_name(out, literal)
        }
        OwnedField::Prefix(prefix) => {
            add(out, "a ")?;
            add(out, field)?;
            add(out, " that begins with ")?;
            add_name(out, prefix)
        }
        OwnedField::Rest => {
            add(out, "a ")?;
            add(out, field)?;
            add(out, " that the plan doesn't name")
        }
    }
}

/// Adds what goes on the walk.
fn add_cell(out: &mut Vec<u8>, cell: &OwnedCell) -> Result<(), AllocError> {
    add(out, "  What goes: class ")?;
    out.extend_from_slice(cell.class.as_bytes())?;
    add(out, " in transfer syntax ")?;
    out.extend_from_slice(cell.syntax.uid())?;
    add(out, ", of ")?;
    add_part(out, "modality", &cell.modality)?;
    add(out, " and ")?;
    add_part(out, "station", &cell.station)?;
    add(out, ".\n")
}

/// Adds by what it is sent.
fn add_sender(out: &mut Vec<u8>, sender: Option<Sender>) -> Result<(), AllocError> {
    match sender {
        Some(Sender::Flow(index)) => {
            add(out, " by flow ")?;
            add_index(out, index)
        }
        Some(Sender::Rule(index)) => {
            add(out, " by its rule ")?;
            add_index(out, index)
        }
        None => Ok(()),
    }
}

/// Adds a hop, as `"GATE" sends it to "ARCH" by its rule 2.`
fn add_hop(
    out: &mut Vec<u8>,
    plan: &Plan,
    caller: &Text,
    from: &Text,
    key: &Key,
    to: &Text,
) -> Result<(), AllocError> {
    add(out, "  ")?;
    add_name(out, from)?;
    add(out, " sends it to ")?;
    add_name(out, to)?;
    add_sender(out, sender_of(plan, from, caller, key, to))?;
    add(out, ".\n")
}

/// Adds each hop of the walk that goes on from a node over these.
fn add_hops(
    out: &mut Vec<u8>,
    plan: &Plan,
    local: &Text,
    start: &Text,
    key: &Key,
    over: &[Text],
) -> Result<(), AllocError> {
    let mut caller = local;
    let mut from = start;
    for to in over {
        add_hop(out, plan, caller, from, key, to)?;
        caller = from;
        from = to;
    }
    Ok(())
}

/// The last node, and the one before it.
fn last_two(walk: &[Text]) -> Option<(&Text, &Text)> {
    match walk {
        [.., from, to] => Some((from, to)),
        _ => None,
    }
}

/// Adds transfer syntaxes.
fn add_syntaxes(out: &mut Vec<u8>, syntaxes: &[Syntax]) -> Result<(), AllocError> {
    let mut is_first = true;
    for syntax in syntaxes {
        if !is_first {
            add(out, " and ")?;
        }
        is_first = false;
        out.extend_from_slice(syntax.uid())?;
    }
    Ok(())
}

/// Adds that a transfer syntax is missing in an accept row.
fn add_missing_syntax(
    out: &mut Vec<u8>,
    syntaxes: &[Syntax],
    row: usize,
    from: &Text,
    key: &Key,
) -> Result<(), AllocError> {
    add(out, " takes this class from ")?;
    add_name(out, from)?;
    add(out, " by its accept row ")?;
    add_index(out, row)?;
    add(out, ", but only in ")?;
    add_syntaxes(out, syntaxes)?;
    add(out, ": add ")?;
    out.extend_from_slice(key.syntax.uid())?;
    add(out, " to its syntaxes,")
}

/// Adds that a caller is missing in an accept row.
fn add_missing_caller(out: &mut Vec<u8>, row: usize, from: &Text) -> Result<(), AllocError> {
    add(
        out,
        " takes this class in this transfer syntax by its accept row ",
    )?;
    add_index(out, row)?;
    add(out, ", but not from ")?;
    add_name(out, from)?;
    add(out, ": add that name to its from,")
}

/// Adds what the node would have to accept.
fn add_remedy(
    out: &mut Vec<u8>,
    plan: &Plan,
    from: &Text,
    key: &Key,
    to: &Text,
) -> Result<(), AllocError> {
    let Some(node) = plan.node(to) else {
        return Ok(());
    };
    match remedy_of(node.accepts.as_slice(), from, &key.class, key.syntax) {
        Remedy::AddSyntax(row) => match node.accepts.as_slice().get(row) {
            Some(accept) => add_missing_syntax(out, accept.syntaxes.as_slice(), row, from, key),
            None => Ok(()),
        },
        Remedy::AddCaller(row) => add_missing_caller(out, row, from),
        Remedy::AddRow => {
            add(out, " has no accept row for this class from ")?;
            add_name(out, from)?;
            add(out, ": add one,")
        }
    }
}

/// Adds why the walk's last hop isn't accepted, and what to change.
fn add_refused(out: &mut Vec<u8>, plan: &Plan, key: &Key, walk: &[Text]) -> Result<(), AllocError> {
    let Some((from, to)) = last_two(walk) else {
        return Ok(());
    };
    add(out, "  ")?;
    add_name(out, to)?;
    add_remedy(out, plan, from, key, to)?;
    add(out, " or let ")?;
    add_name(out, from)?;
    add(out, " not send it there.\n")
}

/// Adds that the walk comes back.
fn add_circle(out: &mut Vec<u8>, walk: &[Text]) -> Result<(), AllocError> {
    let Some((from, to)) = last_two(walk) else {
        return Ok(());
    };
    add(out, "  So it comes from ")?;
    add_name(out, from)?;
    add(out, " to ")?;
    add_name(out, to)?;
    add(
        out,
        " a second time, and would go round for ever: change one of these rules.\n",
    )
}

/// Adds why the walk ends.
fn add_end(out: &mut Vec<u8>, plan: &Plan, key: &Key, walk: &[Text]) -> Result<(), AllocError> {
    let Some((caller, name)) = last_two(walk) else {
        return Ok(());
    };
    let Some(node) = plan.node(name) else {
        return Ok(());
    };
    add(out, "  ")?;
    add_name(out, name)?;
    add(out, " neither keeps it nor sends it on: ")?;
    match holding_rule(node.rules.as_slice(), caller, key) {
        Some(rule) => {
            add(out, "its rule ")?;
            add_index(out, rule)?;
            add(out, " holds for it, but has neither to nor keep = true.\n")
        }
        None => add(out, "none of its rules holds for it; add one.\n"),
    }
}

/// Adds what goes on the walk, and the walk's hops, and answers the key that stands for what goes.
fn add_walk(
    alloc: Global,
    out: &mut Vec<u8>,
    plan: &Plan,
    cell: &OwnedCell,
    walk: &[Text],
) -> Result<Key, AllocError> {
    let key = key_in(alloc, cell)?;
    let local = Text::copy_of(alloc, b"-")?;
    add_cell(out, cell)?;
    if let [start, over @ ..] = walk {
        add_hops(out, plan, &local, start, &key, over)?;
    }
    Ok(key)
}

/// Adds that too many pairs go over a hop.
fn add_overfull(out: &mut Vec<u8>, from: &Text, to: &Text) -> Result<(), AllocError> {
    add(
        out,
        "  More than 128 pairs of a class and a transfer syntax go from ",
    )?;
    add_name(out, from)?;
    add(out, " to ")?;
    add_name(out, to)?;
    add(
        out,
        ", and an association has 128 presentation contexts: let fewer classes or transfer syntaxes go there.\n",
    )
}

/// Adds the sentences about a fault.
fn add_fault(
    alloc: Global,
    out: &mut Vec<u8>,
    plan: &Plan,
    fault: &Fault,
) -> Result<(), AllocError> {
    match fault {
        Fault::NoContext { walk, cell } => {
            let key = add_walk(alloc, out, plan, cell, walk.as_slice())?;
            add_refused(out, plan, &key, walk.as_slice())
        }
        Fault::Cycle { walk, cell } => {
            add_walk(alloc, out, plan, cell, walk.as_slice())?;
            add_circle(out, walk.as_slice())
        }
        Fault::DeadEnd { walk, cell } => {
            let key = add_walk(alloc, out, plan, cell, walk.as_slice())?;
            add_end(out, plan, &key, walk.as_slice())
        }
        Fault::TooManyContexts { from, to } => add_overfull(out, from, to),
    }
}

/// Why the plan isn't sound, in sentences, a line each, indented by two blanks: what goes, each hop
/// with the flow or the rule by which it goes, and what is wrong at the end.
///
/// Errors: want of memory.
pub fn describe(alloc: Global, plan: &Plan, fault: &Fault) -> Result<Text, AllocError> {
    let mut out = Vec::new(alloc);
    add_fault(alloc, &mut out, plan, fault)?;
    Ok(Text::from_vec(out))
}
