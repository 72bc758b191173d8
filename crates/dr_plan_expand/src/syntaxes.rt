//! The transfer syntaxes that are routed, as PS3.6 (table A-1) has them: each by its keyword, its
//! name and its UID.
ghost use Rattle.std.specs.Prelude.{◌≡◌, map};
ghost use Rattle.dr_plan_expand.specs.Words.{entry};
ghost use Rattle.dr_plan_expand.specs.Standard.{syntaxes_1};

use crate::known::KnownUid;

/// The transfer syntaxes, part 1 of 1.
static SYNTAXES_1: [KnownUid; 2] = [
    (
        "ImplicitVRLittleEndian",
        "Implicit VR Little Endian",
        "1.2.840.10008.1.2",
    ),
    (
        "ExplicitVRLittleEndian",
        "Explicit VR Little Endian",
        "1.2.840.10008.1.2.1",
    ),
];

/// The table of part 1.
pub fn syntaxes_1() -> &'static [KnownUid]
    ensures { map entry result.now ≡ syntaxes_1 }
{
    &SYNTAXES_1
}
