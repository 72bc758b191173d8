//! The digests of a data set's pieces, by which what is read is tested.
ghost use Rattle.std.specs.Prelude.{IfOk};
ghost use Rattle.dr_store_bodies.specs.Sums.{AreSums};

use sqlite_disk::digest_of;
use std::alloc::{AllocError, Global};

/// The bytes of a piece.
pub const PIECE: usize = 262_144;

/// The digest of each piece of the data set, in their order, under the key. Nothing but memory can
/// be wanting.
pub fn sums_of(alloc: Global, key: u64, body: &[u8]) -> Result<Vec<u64>, AllocError>
    ensures sums { IfOk result (λ sums. AreSums key PIECE body.now sums.items) }
{
    let mut sums = Vec::new(alloc);
    let mut from = 0;
    while from < body.len() {
        let end = from + PIECE.min(body.len() - from);
        sums.push(digest_of(key, &body[from..end]))?;
        from = end;
    }
    Ok(sums)
}
