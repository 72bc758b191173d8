//! Lines of fields, each behind a tab, as certificates, findings and reports have them, and numbers
//! in decimal digits.
ghost use Rattle.std.specs.Prelude.{◌≡◌, ◌++◌, ◌∷◌, ℕ, MatchOption, OnOk, decimal};
ghost use Rattle.dr_base.specs.Numbers.{IsNumeral};

use std::alloc::AllocError;
use std::str;

const TAB: u8 = 9;

/// Adds a field behind a tab.
pub fn add_field(out: &mut Vec<u8>, field: &[u8]) -> Result<(), AllocError>
    ensures { OnOk result (out.new.items ≡ out.old.items ++ (9 ∷ field.now)) }
{
    out.push(TAB)?;
    out.extend_from_slice(field)
}

/// Adds the digits of a number.
pub fn add_decimal(out: &mut Vec<u8>, number: u64) -> Result<(), AllocError>
    ensures { OnOk result (out.new.items ≡ out.old.items ++ decimal number) }
{
    let mut digits = itoa::Buffer::new();
    out.extend_from_slice(digits.format(number).as_bytes())
}

/// Adds a number behind a tab.
pub fn add_number(out: &mut Vec<u8>, number: u64) -> Result<(), AllocError>
    ensures { OnOk result (out.new.items ≡ out.old.items ++ (9 ∷ decimal number)) }
{
    out.push(TAB)?;
    add_decimal(out, number)
}

/// The number below 2^64 that a field writes in decimal digits, without a sign or a leading zero.
pub fn read_number(field: &[u8]) -> Option<u64>
    ensures { MatchOption result ((n : ℕ) → IsNumeral 64 n field.now → ⊥)
        (λ n. IsNumeral 64 n field.now) }
{
    let Ok(text) = str::from_utf8(field) else {
        return None;
    };
    let Ok(number) = text.parse::<u64>() else {
        return None;
    };
    let mut digits = itoa::Buffer::new();
    if digits.format(number).as_bytes() != field {
        return None;
    }
    Some(number)
}

/// The number below 2^32 that a field writes in decimal digits, without a sign or a leading zero.
pub fn read_small_number(field: &[u8]) -> Option<u32>
    ensures { MatchOption result ((n : ℕ) → IsNumeral 32 n field.now → ⊥)
        (λ n. IsNumeral 32 n field.now) }
{
    let number = read_number(field)?;
    let Ok(small) = u32::try_from(number) else {
        return None;
    };
    Some(small)
}
