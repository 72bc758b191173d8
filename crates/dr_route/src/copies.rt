//! Copies, each equal to what it is made of. What derives `Clone` says so of each of its parts.
ghost use Rattle.std.specs.Prelude.{◌≡◌, IfOk};

use crate::cell::{Literals, OwnedCell};
use dr_base::{Seq, Text};
use std::alloc::AllocError;

/// A copy of a cell. It fails for want of memory alone.
pub fn copy_cell(cell: &OwnedCell) -> Result<OwnedCell, AllocError>
    ensures { IfOk result (λ copy. copy ≡ cell.now) }
{
    let copy = cell.clone()?;
    Ok(copy)
}

/// A copy of the modalities and stations that a plan names. It fails for want of memory alone.
pub fn copy_literals(literals: &Literals) -> Result<Literals, AllocError>
    ensures { IfOk result (λ copy. copy ≡ literals.now) }
{
    let copy = literals.clone()?;
    Ok(copy)
}

/// A copy of names, in order. It fails for want of memory alone.
pub fn copy_names(names: &Seq<Text>) -> Result<Seq<Text>, AllocError>
    ensures { IfOk result (λ copy. copy ≡ names.now) }
{
    let copy = names.clone()?;
    Ok(copy)
}
