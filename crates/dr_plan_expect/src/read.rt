//! The expectations that a text writes.
ghost use Rattle.dr_plan_expect.specs.Reading.{ReadsExpectations};

use crate::fault::ExpectFault;
use crate::line::{line_at, line_of};
use crate::tables::read_root;
use crate::words::Expectation;
use dr_base::Seq;
use dr_plan_text::fault::ReadFault;
use std::alloc::Global;

/// The rows that the text writes.
///
/// Errors: Expect where it is no text in TOML, or a row is ill-formed, or there is none; Memory.
pub fn read_expectations(alloc: Global, text: &[u8]) -> Result<Seq<Expectation>, ExpectFault>
    ensures { ReadsExpectations text.now result }
{
    let root = match toml::table_from_slice(alloc, text) {
        Ok(root) => root,
        Err(fault) => {
            let Some(span) = fault.span() else {
                return Err(ExpectFault::Memory);
            };
            return Err(ExpectFault::Expect(line_at(text, span.start)));
        }
    };
    match read_root(alloc, &root) {
        Ok(rows) => Ok(rows),
        Err(ReadFault::Memory) => Err(ExpectFault::Memory),
        Err(ReadFault::Field) => Err(ExpectFault::Expect(line_of(alloc, text, &root))),
    }
}
