//! Lines as one document of JSON.
ghost use Rattle.std.specs.Prelude.{◌≡◌, ◌++◌, IfOk, OnOk, flat_map};
ghost use Rattle.dr_word_json.specs.Documents.{document, part_of};

use dr_base::Text;
use dr_base_quoted::put_quoted_byte;
use std::alloc::{AllocError, Global};

const TAB: u8 = 9;

const LF: u8 = 10;

/// Adds a byte of a line, or what is between two parts or two lines.
fn put_byte(out: &mut Vec<u8>, byte: u8) -> Result<(), AllocError>
    ensures { OnOk result (out.new.items ≡ out.old.items ++ part_of byte) }
{
    if byte == TAB {
        return out.extend_from_slice(b"\",\"");
    }
    if byte == LF {
        return out.extend_from_slice(b"\"],\n[\"");
    }
    put_quoted_byte(out, byte)
}

/// Adds these bytes of lines.
fn put_bytes(out: &mut Vec<u8>, bytes: &[u8]) -> Result<(), AllocError>
    ensures { OnOk result (out.new.items ≡ out.old.items ++ flat_map part_of bytes.now) }
{
    for byte in bytes {
        put_byte(out, *byte)?;
    }
    Ok(())
}

/// The document of these lines, each of which a line feed ends.
pub fn document_of(alloc: Global, lines: &[u8]) -> Result<Text, AllocError>
    ensures { IfOk result (λ text. text ≡ document lines.now) }
{
    let Some((_, inner)) = lines.split_last() else {
        return Text::copy_of(alloc, b"[]\n");
    };
    let mut out = Vec::new(alloc);
    out.extend_from_slice(b"[[\"")?;
    put_bytes(&mut out, inner)?;
    out.extend_from_slice(b"\"]]\n")?;
    Ok(Text::from_vec(out))
}
