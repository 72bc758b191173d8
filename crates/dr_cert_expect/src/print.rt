//! The line of a row that doesn't hold.
ghost use Rattle.std.specs.Prelude.{◌≡◌, ◌++◌, IfOk, OnOk};
ghost use Rattle.dr_cert_expect.specs.Rows.{case_fields, lack_fields, miss_line, shown};
ghost use Rattle.dr_cert_expect.specs.Rows.{shown_byte as shown_code};

use crate::answer::{Case, Lack, Miss};
use dr_base::Text;
use dr_base::fields::add_field;
use std::alloc::{AllocError, Global};

const LF: u8 = 10;

/// A byte as it is shown: 128, which stands for what a plan doesn't name, as an asterisk.
fn shown_byte(byte: u8) -> u8
    ensures { result ≡ shown_code byte }
{
    if byte == 128 {
        return b'*';
    }
    byte
}

/// The bytes of a value as they are shown.
fn shown_value(alloc: Global, value: &Text) -> Result<Vec<u8>, AllocError>
    ensures { IfOk result (λ v. v.items ≡ shown value.now) }
{
    let mut bytes = Vec::new(alloc);
    for byte in value.as_bytes() {
        bytes.push(shown_byte(*byte))?;
    }
    Ok(bytes)
}

/// Adds the fields of a case.
fn add_case(alloc: Global, out: &mut Vec<u8>, case: &Case) -> Result<(), AllocError>
    ensures { OnOk result (out.new.items ≡ out.old.items ++ case_fields case.now) }
{
    let modality = shown_value(alloc, &case.key.modality)?;
    let station = shown_value(alloc, &case.key.station)?;
    add_field(out, case.site.as_bytes())?;
    add_field(out, case.key.class.as_bytes())?;
    add_field(out, case.key.syntax.uid())?;
    add_field(out, modality.as_slice())?;
    add_field(out, station.as_slice())?;
    Ok(())
}

/// Adds what a row lacks.
fn add_lack(alloc: Global, out: &mut Vec<u8>, lack: &Lack) -> Result<(), AllocError>
    ensures { OnOk result (out.new.items ≡ out.old.items ++ lack_fields lack.now) }
{
    match lack {
        Lack::Nothing => {
            add_field(out, b"nothing")?;
            Ok(())
        }
        Lack::Keep(name, case) => {
            add_field(out, b"keep ")?;
            out.extend_from_slice(name.as_bytes())?;
            add_case(alloc, out, case)
        }
        Lack::Never(name, case) => {
            add_field(out, b"never ")?;
            out.extend_from_slice(name.as_bytes())?;
            add_case(alloc, out, case)
        }
    }
}

/// The line of a row that doesn't hold.
pub fn miss_text(alloc: Global, miss: &Miss) -> Result<Text, AllocError>
    ensures { IfOk result (λ text. text ≡ miss_line miss.now) }
{
    let mut out = Vec::new(alloc);
    out.extend_from_slice(b"no")?;
    let mut digits = itoa::Buffer::new();
    add_field(&mut out, digits.format(miss.row).as_bytes())?;
    add_lack(alloc, &mut out, &miss.lack)?;
    out.push(LF)?;
    Ok(Text::from_vec(out))
}
