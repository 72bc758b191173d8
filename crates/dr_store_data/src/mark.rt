//! What ties a ledger's tables and its file together.
ghost use Rattle.std.specs.Prelude.{◌≡◌, ◌≢◌, IfOk, MatchOption, length};
ghost use Rattle.dr_store_data.specs.Heads.{bytes_of_mark, IsMarkOf};

use std::alloc::{AllocError, Global};

/// The key under which the digests of data sets are taken, and the mark that the tables and the
/// head of the file have. Both are drawn when the ledger is made.
#[derive(Clone, Copy, PartialEq, Eq, Debug, Drop)]
pub struct DataMark {
    pub key: u64,
    pub mark: [u8; 16],
}

/// The bytes that the tables have for it: the key, lowest byte first, and the mark.
pub fn mark_bytes(alloc: Global, mark: &DataMark) -> Result<Vec<u8>, AllocError>
    ensures { IfOk result (λ bytes. bytes.items ≡ bytes_of_mark mark.now) }
{
    let mut bytes = Vec::new(alloc);
    bytes.extend_from_slice(&mark.key.to_le_bytes())?;
    bytes.extend_from_slice(mark.mark.as_slice())?;
    Ok(bytes)
}

/// What these bytes of the tables say, which are 24.
pub fn mark_in(bytes: &[u8]) -> Option<DataMark>
    ensures { MatchOption result (length bytes.now ≢ 24) (IsMarkOf bytes.now) }
{
    if bytes.len() != 24 {
        return None;
    }
    let key = bytes.first_chunk::<8>()?;
    let mark = bytes.last_chunk::<16>()?;
    Some(DataMark {
        key: u64::from_le_bytes(*key),
        mark: *mark,
    })
}
