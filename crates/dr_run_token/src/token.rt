//! The token in a file.
ghost use Rattle.std.specs.Prelude.{◌≤◌, IfOk, length};

use dr_base::Text;
use std::alloc::Global;
use std::io::ErrorKind;
use std::os::unix::fs::PermissionsExt;
use std::{fs, io};

/// A token has so many bytes at least.
const LEAST: usize = 16;

/// The rights of others than its owner to a file.
const OTHERS: u32 = 0o077;

/// Where tokens are read.
pub trait Tokens {
    ghost use Rattle.std.specs.Prelude.{◌≤◌, IfOk, length};

    /// The token in a file, before its line's end.
    ///
    /// Errors: PermissionDenied, where others than its owner may read or write it; InvalidData,
    /// where it is shorter than 16 bytes; those of the system; want of memory.
    fn token(&self, alloc: Global, path: &str) -> io::Result<Text>
        ensures { IfOk result (λ token. 16 ≤ length token) };
}

/// The files of the system.
#[derive(Drop)]
pub struct SystemTokens<'a>(pub &'a HostRuntime);

/// What a file of the system holds, and who may read it, isn't known to contracts.
impl<'a> Tokens for SystemTokens<'a> {
    fn token(&self, alloc: Global, path: &str) -> io::Result<Text> {
        let rights = fs::metadata(self.0, path)?.permissions().mode();
        if rights & OTHERS != 0 {
            return Err(io::Error::from(ErrorKind::PermissionDenied));
        }
        let bytes = fs::read(self.0, path)?;
        token_of(alloc, bytes.as_slice())
    }
}

/// The token in the bytes of a file.
///
/// Errors: InvalidData, where it is shorter than 16 bytes; want of memory.
fn token_of(alloc: Global, bytes: &[u8]) -> io::Result<Text>
    ensures { IfOk result (λ token. 16 ≤ length token) }
{
    let token = bytes.trim_ascii_end();
    if token.len() < LEAST {
        return Err(io::Error::from(ErrorKind::InvalidData));
    }
    let token = Text::copy_of(alloc, token)?;
    Ok(token)
}
