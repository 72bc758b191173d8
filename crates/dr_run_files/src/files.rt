//! Files by their paths.
ghost use Rattle.std.specs.Prelude.{IfOk};

use std::alloc::Global;
use std::io;

/// What reads a named file.
pub trait Files {
    ghost use Rattle.std.specs.Prelude.{ℕ, List, IfOk};

    /// A file of this path holds these bytes.
    ghost holds: { Self → List ℕ → List ℕ → Type 0 };

    /// The bytes of the file.
    fn read(&self, alloc: Global, path: &str) -> io::Result<Vec<u8>>
        ensures { IfOk result (λ bytes. holds self.now path.now bytes.items) };

    /// Puts this text in the place of what the file held, if there is one: who opens it finds the
    /// one or the other, whole.
    fn replace(&self, alloc: Global, path: &str, text: &[u8]) -> io::Result<()>;
}

/// Why a run couldn't be brought to its end.
#[derive(Drop)]
pub enum Failure<'a> {
    /// The standard input or an output failed.
    Stream(io::Error),
    /// The file of this path wasn't read.
    File(&'a str, io::Error),
}

impl<'a> From<io::Error> for Failure<'a> {
    fn from(error: io::Error) -> Failure<'a> {
        Failure::Stream(error)
    }
}

/// The bytes of the file.
///
/// Errors: File.
pub fn read_file<'a, F: Files>(
    alloc: Global,
    files: &F,
    path: &'a str,
) -> Result<Vec<u8>, Failure<'a>>
    ensures { IfOk result (λ bytes. F.holds files.now path.now bytes.items) }
{
    match files.read(alloc, path) {
        Ok(bytes) => Ok(bytes),
        Err(error) => Err(Failure::File(path, error)),
    }
}
