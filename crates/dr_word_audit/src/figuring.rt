//! The line that tells how much a node has.
ghost use Rattle.std.specs.Prelude.{◌≡◌, ◌++◌, IfOk, OnOk};
ghost use Rattle.dr_word_audit.specs.Figures.{count_fields, figure_fields};
ghost use Rattle.dr_word_audit.specs.Figures.{holds_line as line_of_all, node_line as line_of_node};

use crate::counting::Figures;
use dr_base::Text;
use dr_base::fields::{add_field, add_number};
use std::alloc::{AllocError, Global};

const LF: u8 = 10;

/// Adds a number behind a word for it.
fn put_count(out: &mut Vec<u8>, word: &[u8], count: usize) -> Result<(), AllocError>
    ensures { OnOk result
        (out.new.items ≡ out.old.items ++ count_fields word.now count) }
{
    add_field(out, word)?;
    add_number(out, count as u64)
}

/// Adds how much a node has.
fn put_figures(out: &mut Vec<u8>, figures: &Figures) -> Result<(), AllocError>
    ensures { OnOk result (out.new.items ≡ out.old.items ++ figure_fields figures.now) }
{
    put_count(out, b"arrivals", figures.arrivals)?;
    put_count(out, b"kept", figures.kept)?;
    put_count(out, b"waiting", figures.waiting)?;
    put_count(out, b"held", figures.held)?;
    put_count(out, b"dropped", figures.dropped)?;
    put_count(out, b"others", figures.others)?;
    Ok(())
}

/// The line of a node.
pub fn node_line(alloc: Global, name: &Text, figures: &Figures) -> Result<Text, AllocError>
    ensures { IfOk result (λ line. line ≡ line_of_node name.now figures.now) }
{
    let mut out = Vec::new(alloc);
    out.extend_from_slice(b"node")?;
    add_field(&mut out, name.as_bytes())?;
    put_figures(&mut out, figures)?;
    out.push(LF)?;
    Ok(Text::from_vec(out))
}

/// The line before those of so many nodes.
pub fn holds_line(alloc: Global, count: usize) -> Result<Vec<u8>, AllocError>
    ensures { IfOk result (λ line. line.items ≡ line_of_all count) }
{
    let mut out = Vec::new(alloc);
    out.extend_from_slice(b"holds")?;
    add_number(&mut out, count as u64)?;
    out.push(LF)?;
    Ok(out)
}
