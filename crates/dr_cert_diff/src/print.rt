//! The lines of changes.
ghost use Rattle.std.specs.Prelude.{◌≡◌, ◌++◌, IfOk, OnOk, flat_map};
ghost use Rattle.dr_cert_diff.specs.Rows.{change_rows, entry_fields, row_of};
ghost use Rattle.dr_base.specs.Texts.{next_field};

use crate::change::RouteChange;
use dr_base::Text;
use dr_base::fields::add_field;
use dr_cert_text::add_part;
use dr_route::OwnedCell;
use std::alloc::{AllocError, Global};

const LF: u8 = 10;

/// Adds the fields of a node and a cell.
fn add_entry(out: &mut Vec<u8>, site: &Text, cell: &OwnedCell) -> Result<(), AllocError>
    ensures { OnOk result (out.new.items ≡ out.old.items ++ entry_fields site.now cell.now) }
{
    add_field(out, site.as_bytes())?;
    add_field(out, cell.class.as_bytes())?;
    add_field(out, cell.syntax.uid())?;
    add_part(out, &cell.modality)?;
    add_part(out, &cell.station)?;
    Ok(())
}

/// Adds a field for each of the nodes.
fn add_dests(out: &mut Vec<u8>, dests: &[Text]) -> Result<(), AllocError>
    ensures { OnOk result (out.new.items ≡ out.old.items ++ flat_map next_field dests.now) }
{
    for dest in dests {
        add_field(out, dest.as_bytes())?;
    }
    Ok(())
}

/// Adds a row: its word, the node and the cell, and the nodes that are lost or gained; none where
/// there is no such node.
fn add_row(
    out: &mut Vec<u8>,
    word: &[u8],
    site: &Text,
    cell: &OwnedCell,
    dests: &[Text],
) -> Result<(), AllocError>
    ensures { OnOk result
        (out.new.items ≡ out.old.items ++ row_of word.now site.now cell.now dests.now) }
{
    if dests.is_empty() {
        return Ok(());
    }
    out.extend_from_slice(word)?;
    add_entry(out, site, cell)?;
    add_dests(out, dests)?;
    out.push(LF)?;
    Ok(())
}

/// Adds the rows of a change.
fn add_change(out: &mut Vec<u8>, change: &RouteChange) -> Result<(), AllocError>
    ensures { OnOk result (out.new.items ≡ out.old.items ++ change_rows change.now) }
{
    add_row(
        out,
        b"lost",
        &change.site,
        &change.cell,
        change.lost.as_slice(),
    )?;
    add_row(
        out,
        b"gained",
        &change.site,
        &change.cell,
        change.gained.as_slice(),
    )
}

/// The rows of all changes.
pub fn changes_text(alloc: Global, changes: &[RouteChange]) -> Result<Text, AllocError>
    ensures { IfOk result (λ text. text ≡ flat_map change_rows changes.now) }
{
    let mut out = Vec::new(alloc);
    for change in changes {
        add_change(&mut out, change)?;
    }
    Ok(Text::from_vec(out))
}
