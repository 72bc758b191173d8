//! The line that is printed for a plan that isn't sound.
ghost use Rattle.std.specs.Prelude.{◌≡◌, ◌++◌, ◌∷◌, IfOk, OnOk};
ghost use Rattle.dr_word_check.specs.Faults.{tabbed, walk_fields, fault_fields, no_line};

use dr_base::Text;
use dr_base::fields::add_field;
use dr_cert_text::add_part;
use dr_check::Fault;
use dr_route::OwnedCell;
use std::alloc::{AllocError, Global};

const LF: u8 = 10;

/// Adds each of the fields behind a tab.
fn add_fields(line: &mut Vec<u8>, fields: &[Text]) -> Result<(), AllocError>
    ensures { OnOk result (line.new.items ≡ line.old.items ++ tabbed fields.now) }
{
    for field in fields {
        add_field(line, field.as_bytes())?;
    }
    Ok(())
}

/// Adds the parts of the cell and the nodes of the walk.
fn add_walk(line: &mut Vec<u8>, cell: &OwnedCell, walk: &[Text]) -> Result<(), AllocError>
    ensures { OnOk result (line.new.items ≡ line.old.items ++ walk_fields cell.now walk.now) }
{
    add_field(line, cell.class.as_bytes())?;
    add_field(line, cell.syntax.uid())?;
    add_part(line, &cell.modality)?;
    add_part(line, &cell.station)?;
    add_fields(line, walk)
}

/// Adds the fault's name and its parts.
fn add_fault(line: &mut Vec<u8>, fault: &Fault) -> Result<(), AllocError>
    ensures { OnOk result (line.new.items ≡ line.old.items ++ fault_fields fault.now) }
{
    match fault {
        Fault::NoContext { walk, cell } => {
            add_field(line, b"NoContext")?;
            add_walk(line, cell, walk.as_slice())
        }
        Fault::Cycle { walk, cell } => {
            add_field(line, b"Cycle")?;
            add_walk(line, cell, walk.as_slice())
        }
        Fault::DeadEnd { walk, cell } => {
            add_field(line, b"DeadEnd")?;
            add_walk(line, cell, walk.as_slice())
        }
        Fault::TooManyContexts { from, to } => {
            add_field(line, b"TooManyContexts")?;
            add_field(line, from.as_bytes())?;
            add_field(line, to.as_bytes())
        }
    }
}

/// The line that is printed for a plan with this fault.
pub fn line_of(alloc: Global, fault: &Fault) -> Result<Text, AllocError>
    ensures { IfOk result (λ line. line ≡ no_line fault.now) }
{
    let mut line = Vec::from_slice(alloc, b"no")?;
    add_fault(&mut line, fault)?;
    line.push(LF)?;
    Ok(Text::from_vec(line))
}
