//! The fields of a form, in a body or behind a `?`.
ghost use Rattle.std.specs.Prelude.{◌≡◌, IfOk, map as mapped, option_map};
ghost use Rattle.form_urlencoded.specs.Form.{decode, plus_to_space, raw_pairs as pairs_of};
ghost use Rattle.dr_run_request.specs.Forms.{first_value, value_in};

use dr_base::Text;
use form_urlencoded::raw_pairs;
use percent_encoding::percent_decode;
use std::alloc::{AllocError, Global};

/// The value of the first field of that name, as it is written.
pub(crate) fn raw_value<'a>(form: &'a [u8], name: &str) -> Option<&'a [u8]>
    ensures { option_map (λ value. value.now) result ≡ first_value (pairs_of form.now) name.now }
{
    for (key, value) in raw_pairs(form) {
        if key == name.as_bytes() {
            return Some(value);
        }
    }
    None
}

/// The byte that stands for a blank is one.
fn plus_to_space(byte: u8) -> u8
    ensures { result ≡ plus_to_space byte }
{
    if byte == b'+' {
        return b' ';
    }
    byte
}

/// The bytes, with blanks.
fn spaced(alloc: Global, raw: &[u8]) -> Result<Vec<u8>, AllocError>
    ensures { IfOk result (λ bytes. bytes.items ≡ mapped plus_to_space raw.now) }
{
    let mut bytes = Vec::with_capacity(alloc, raw.len())?;
    for byte in raw {
        bytes.push(plus_to_space(*byte))?;
    }
    Ok(bytes)
}

/// What is written as it is meant.
fn decoded(alloc: Global, raw: &[u8]) -> Result<Text, AllocError>
    ensures { IfOk result (λ text. text ≡ decode raw.now) }
{
    let bytes = spaced(alloc, raw)?;
    let mut text = Vec::new(alloc);
    percent_decode(bytes.as_slice()).append_to(&mut text)?;
    Ok(Text::from_vec(text))
}

/// What the field of that name says.
pub(crate) fn value_in(alloc: Global, form: &[u8], name: &str) -> Result<Option<Text>, AllocError>
    ensures { IfOk result (λ value. value ≡ value_in form.now name.now) }
{
    match raw_value(form, name) {
        Some(raw) => Ok(Some(decoded(alloc, raw)?)),
        None => Ok(None),
    }
}
