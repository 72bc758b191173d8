//! Members of an object of JSON, behind another member.
ghost use Rattle.std.specs.Prelude.{◌≡◌, ◌++◌, OnOk};
ghost use Rattle.dr_ledger_text.specs.Members.{flag, number, word};

use dr_base::Text;
use dr_base::fields::add_decimal;
use dr_base_quoted::put_quoted;
use std::alloc::AllocError;

/// Adds a number behind its name.
pub fn put_number(out: &mut Vec<u8>, name: &str, value: u64) -> Result<(), AllocError>
    ensures { OnOk result (out.new.items ≡ out.old.items ++ number name.now value) }
{
    out.extend_from_slice(b",\"")?;
    out.extend_from_slice(name.as_bytes())?;
    out.extend_from_slice(b"\":")?;
    add_decimal(out, value)
}

/// Adds a text behind its name.
pub fn put_word(out: &mut Vec<u8>, name: &str, value: &[u8]) -> Result<(), AllocError>
    ensures { OnOk result (out.new.items ≡ out.old.items ++ word name.now value.now) }
{
    out.extend_from_slice(b",\"")?;
    out.extend_from_slice(name.as_bytes())?;
    out.extend_from_slice(b"\":")?;
    put_quoted(out, value)
}

/// The same of a `Text`.
pub fn put_named(out: &mut Vec<u8>, name: &str, value: &Text) -> Result<(), AllocError>
    ensures { OnOk result (out.new.items ≡ out.old.items ++ word name.now value.now) }
{
    put_word(out, name, value.as_bytes())
}

/// The same of words.
pub fn put_said(out: &mut Vec<u8>, name: &str, value: &str) -> Result<(), AllocError>
    ensures { OnOk result (out.new.items ≡ out.old.items ++ word name.now value.now) }
{
    put_word(out, name, value.as_bytes())
}

/// Adds whether something is so, behind its name.
pub fn put_flag(out: &mut Vec<u8>, name: &str, value: bool) -> Result<(), AllocError>
    ensures { OnOk result (out.new.items ≡ out.old.items ++ flag name.now value) }
{
    out.extend_from_slice(b",\"")?;
    out.extend_from_slice(name.as_bytes())?;
    out.extend_from_slice(b"\":")?;
    if value {
        return out.extend_from_slice(b"true");
    }
    out.extend_from_slice(b"false")
}
