//! What a certificate's text has a row for.
ghost use Rattle.std.specs.Prelude.{◌≡◌, [], ◌∷◌, ◌++◌, List, ℕ, OnOk};
ghost use Rattle.dr_plan_sound.specs.Printed.{printed_field};
ghost use Rattle.dr_cert_text.specs.Cuts.{Lacks};
ghost use Rattle.dr_cert_text.specs.Reading.{Reads};

use crate::fault::CertificateFault;
use dr_base::fields::add_field;
use dr_route::OwnedField;
use std::alloc::{AllocError, Global};

/// What a certificate's text has a row for.
pub trait Printed: Sized + Drop {
    // the first field of its rows
    ghost word: { List ℕ };

    // the fields behind it, joined by tabs
    ghost printed: { Self → List ℕ };

    // which of them can be read back
    ghost printable: { Self → Type 0 };

    /// The first field of its rows and the tab behind it.
    fn row_start() -> &'static [u8]
        ensures { result.now ≡ word ++ 9 ∷ [] };

    /// Adds its fields.
    fn print(&self, out: &mut Vec<u8>) -> Result<(), AllocError>
        ensures { OnOk result (out.new.items ≡ out.old.items ++ printed self.now) };

    /// Reads its fields.
    fn read(alloc: Global, fields: &[u8]) -> Result<Self, CertificateFault>
        requires { Lacks 10 fields.now }
        ensures { Reads printed printable fields.now result };
}

/// Adds a tab and a part of the modalities or of the stations: a prefix has `*` behind it.
pub fn add_part(out: &mut Vec<u8>, part: &OwnedField) -> Result<(), AllocError>
    ensures { OnOk result (out.new.items ≡ out.old.items ++ 9 ∷ printed_field part.now) }
{
    match part {
        OwnedField::Literal(literal) => add_field(out, literal.as_bytes()),
        OwnedField::Prefix(prefix) => {
            add_field(out, prefix.as_bytes())?;
            out.push(b'*')?;
            Ok(())
        }
        OwnedField::Rest => add_field(out, b"*"),
    }
}
