//! One key of a cell, of which a row speaks if it speaks of any.
ghost use Rattle.std.specs.Prelude.{◌≡◌, IfOk};
ghost use Rattle.dr_cert_expect.specs.Samples.{IsSample, IsSampleValue};

use dr_base::Text;
use dr_plan_expect::Expectation;
use dr_route::cell::{key_in, value_under};
use dr_route::rule::begins;
use dr_route::{FieldPattern, Key, OwnedCell};
use std::alloc::{AllocError, Global};

/// The value that the pattern asks for, and else the cell's own; of a prefix the cell's own where
/// it begins so.
fn sample_value(alloc: Global, pattern: &FieldPattern, own: &Text) -> Result<Text, AllocError>
    ensures { IfOk result (IsSampleValue pattern.now own.now) }
{
    match pattern {
        FieldPattern::Any => own.clone(),
        FieldPattern::Literal(literal) => literal.clone(),
        FieldPattern::Prefix(prefix) => {
            if begins(prefix, own) {
                return own.clone();
            }
            value_under(alloc, prefix)
        }
    }
}

/// One key, which is of the cell and of which the row speaks, if there is any.
pub fn sample(alloc: Global, row: &Expectation, cell: &OwnedCell) -> Result<Key, AllocError>
    ensures { IfOk result (IsSample row.now cell.now) }
{
    let own = key_in(alloc, cell)?;
    Ok(Key {
        class: own.class.clone()?,
        syntax: own.syntax,
        modality: sample_value(alloc, &row.modality, &own.modality)?,
        station: sample_value(alloc, &row.station, &own.station)?,
    })
}
