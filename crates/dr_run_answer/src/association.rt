//! Associations that are open.
ghost use Rattle.std.specs.Prelude.{◌≡◌, ◌++◌, OnOk, flat_map};
ghost use Rattle.dr_run_answer.specs.Answers.{association_line};

use dr_base::Text;
use dr_base_quoted::put_text;
use dr_ledger_text::{put_named, put_number};
use std::alloc::AllocError;

/// An association that is open: who asked for it, from which address its connection comes (empty
/// where the system didn't tell it), the number of its session, since when it is open
/// (milliseconds), and how many instances came over it that are new, were there already, or were
/// refused.
#[derive(Drop)]
pub struct OpenAssociation {
    pub caller: Text,
    pub address: Text,
    pub session: u64,
    pub since: u64,
    pub stored: u64,
    pub again: u64,
    pub refused: u64,
}

/// Adds the line of an association.
fn put_association(out: &mut Vec<u8>, association: &OpenAssociation) -> Result<(), AllocError>
    ensures { OnOk result (out.new.items ≡ out.old.items ++ association_line association.now) }
{
    out.extend_from_slice(b"{\"caller\":")?;
    put_text(out, &association.caller)?;
    put_named(out, "address", &association.address)?;
    put_number(out, "session", association.session)?;
    put_number(out, "since", association.since)?;
    put_number(out, "stored", association.stored)?;
    put_number(out, "again", association.again)?;
    put_number(out, "refused", association.refused)?;
    out.extend_from_slice(b"}\n")?;
    Ok(())
}

/// Adds a line for each association.
pub fn put_associations(
    out: &mut Vec<u8>,
    associations: &[OpenAssociation],
) -> Result<(), AllocError>
    ensures { OnOk result
        (out.new.items ≡ out.old.items ++ flat_map association_line associations.now) }
{
    for association in associations {
        put_association(out, association)?;
    }
    Ok(())
}
