//! The rows of a journey.
ghost use Rattle.std.specs.Prelude.{◌≡◌, ◌++◌, IfOk, OnOk, flat_map};
ghost use Rattle.dr_cert_trace.specs.Rows.{cell_row, traced_hop_row, journey_text, keep_row};
ghost use Rattle.dr_cert_trace.specs.Rows.{rank_row};

use crate::tracing::Journey;
use dr_base::Text;
use dr_base::fields::add_field;
use dr_cert_text::add_part;
use dr_plan_sound::Hop;
use dr_route::OwnedCell;
use std::alloc::{AllocError, Global};

const LF: u8 = 10;

/// Adds the row of a cell.
fn add_cell(out: &mut Vec<u8>, cell: &OwnedCell) -> Result<(), AllocError>
    ensures { OnOk result (out.new.items ≡ out.old.items ++ cell_row cell.now) }
{
    out.extend_from_slice(b"cell")?;
    add_field(out, cell.class.as_bytes())?;
    add_field(out, cell.syntax.uid())?;
    add_part(out, &cell.modality)?;
    add_part(out, &cell.station)?;
    out.push(LF)?;
    Ok(())
}

/// Adds the row of a rank.
fn add_rank(out: &mut Vec<u8>, rank: u32) -> Result<(), AllocError>
    ensures { OnOk result (out.new.items ≡ out.old.items ++ rank_row rank) }
{
    out.extend_from_slice(b"rank")?;
    let mut digits = itoa::Buffer::new();
    add_field(out, digits.format(rank).as_bytes())?;
    out.push(LF)?;
    Ok(())
}

/// Adds the row of a hop.
fn add_hop(out: &mut Vec<u8>, hop: &Hop) -> Result<(), AllocError>
    ensures { OnOk result (out.new.items ≡ out.old.items ++ traced_hop_row hop.now) }
{
    out.extend_from_slice(b"hop")?;
    add_field(out, hop.from.as_bytes())?;
    add_field(out, hop.to.as_bytes())?;
    let mut digits = itoa::Buffer::new();
    add_field(out, digits.format(hop.id).as_bytes())?;
    out.push(LF)?;
    Ok(())
}

/// Adds the rows of the hops.
fn add_hops(out: &mut Vec<u8>, hops: &[Hop]) -> Result<(), AllocError>
    ensures { OnOk result (out.new.items ≡ out.old.items ++ flat_map traced_hop_row hops.now) }
{
    for hop in hops {
        add_hop(out, hop)?;
    }
    Ok(())
}

/// Adds the row of a node that keeps.
fn add_keep(out: &mut Vec<u8>, name: &Text) -> Result<(), AllocError>
    ensures { OnOk result (out.new.items ≡ out.old.items ++ keep_row name.now) }
{
    out.extend_from_slice(b"keep")?;
    add_field(out, name.as_bytes())?;
    out.push(LF)?;
    Ok(())
}

/// Adds the rows of the nodes that keep.
fn add_keeps(out: &mut Vec<u8>, keeps: &[Text]) -> Result<(), AllocError>
    ensures { OnOk result (out.new.items ≡ out.old.items ++ flat_map keep_row keeps.now) }
{
    for name in keeps {
        add_keep(out, name)?;
    }
    Ok(())
}

/// The text of a journey of the keys of the cell.
pub fn text_of(alloc: Global, cell: &OwnedCell, journey: &Journey) -> Result<Text, AllocError>
    ensures { IfOk result (λ text. text ≡ journey_text cell.now journey.now) }
{
    let mut out = Vec::new(alloc);
    add_cell(&mut out, cell)?;
    add_rank(&mut out, journey.rank)?;
    add_hops(&mut out, journey.hops.as_slice())?;
    add_keeps(&mut out, journey.keeps.as_slice())?;
    Ok(Text::from_vec(out))
}
