//! The plan that a text writes.
ghost use Rattle.dr_plan_text.specs.Tables.{ReadsText};

use crate::fault::TextFault;
use crate::tables::read_root;
use crate::words::PlanText;
use std::alloc::Global;

/// The plan as the text writes it, or the first fault: the bytes aren't TOML, then a field. Memory
/// is answered only where a growth was refused.
pub fn read_text(alloc: Global, text: &[u8]) -> Result<PlanText, TextFault>
    ensures { ReadsText text.now result }
{
    let root = match toml::table_from_slice(alloc, text) {
        Ok(root) => root,
        Err(fault) if fault.is_memory() => return Err(TextFault::Memory),
        Err(_) => return Err(TextFault::NotToml),
    };
    Ok(read_root(alloc, &root)?)
}
