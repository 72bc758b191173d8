//! The standard input.
ghost use Rattle.std.specs.Prelude.{◌≡◌, ◌<◌, ℕ, List, IfOk, OnOk, IfSome, length, true, Ok};
ghost use Rattle.std.specs.Prelude.{vec_len};
ghost use Rattle.std.specs.Io.KnownBytes.{IsAtEnd};
ghost use Rattle.dr_certify.specs.Inputs.{TakesBytes};

use std::alloc::{AllocError, Global};
use std::io;
use std::io::Read;

/// How many reads the input is given to come to its end.
const MOST_READS: u64 = 1 << 40;

/// How many bytes one read takes at most.
const PIECE: usize = 65_536;

/// A piece of so many bytes, to be read into.
fn empty_piece(alloc: Global, count: usize) -> Result<Vec<u8>, AllocError>
    requires { 0 < count }
    ensures { IfOk result (λ piece. 0 < vec_len piece) }
{
    let piece = vec![in alloc; 0; count]?;
    Ok(piece)
}

/// Reads a piece of the input onto the text, and says whether the input is at its end.
fn read_piece<R: Read>(input: &mut R, piece: &mut [u8], text: &mut Vec<u8>) -> io::Result<bool>
    requires { 0 < length piece.old }
    ensures taken { OnOk result
        (TakesBytes (R.remaining input.old) (R.remaining input.new) text.old.items text.new.items) }
    ensures end { result ≡ Ok true → IsAtEnd (R.remaining input.new) }
{
    let count = match input.read(piece) {
        Ok(count) => count,
        Err(error) => {
            if error.kind() == io::ErrorKind::Interrupted {
                return Ok(false);
            }
            return Err(error);
        }
    };
    text.extend_from_slice(&piece[..count])?;
    Ok(count == 0)
}

/// The whole input. One that isn't at its end after 2^40 reads is given up.
pub fn read_input<R: Read>(alloc: Global, input: &mut R) -> io::Result<Vec<u8>>
    ensures { IfOk result (λ text. IfSome (R.remaining input.old) (λ bytes. text.items ≡ bytes)) }
{
    let mut text = Vec::new(alloc);
    let mut piece = empty_piece(alloc, PIECE)?;
    for _ in 0..MOST_READS {
        if read_piece(input, piece.as_mut_slice(), &mut text)? {
            return Ok(text);
        }
    }
    Err(io::Error::from(io::ErrorKind::FileTooLarge))
}
