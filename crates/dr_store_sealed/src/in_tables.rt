//! What a ledger's tables have for a seal.
ghost use Rattle.std.specs.Prelude.{◌≡◌, ◌+◌, ◌≤◌, IfOk, MatchOption, drop, length, take};
ghost use Rattle.dr_store_sealed.specs.InTables.{IsOfCode, IsSealText, bytes_of_seal, number_at};
ghost use Rattle.dr_store_sealed.specs.InTables.{seal_said};

use crate::seal::Seal;
use std::alloc::{AllocError, Global};

/// The bytes of a seal in the tables.
const SIZE: usize = 56;

/// The bytes that the tables have for a seal: count, chain, number and offset, each number in eight
/// bytes, the lowest first. They say just that seal, since its numbers have 64 bits.
pub fn seal_bytes(alloc: Global, seal: &Seal) -> Result<Vec<u8>, AllocError>
    ensures bytes { IfOk result (λ bytes. bytes.items ≡ bytes_of_seal seal.now) }
    ensures of_code { IfOk result (λ bytes. IsOfCode seal.now) }
{
    let offset = seal.offset as u64;
    let mut bytes = Vec::new(alloc);
    bytes.extend_from_slice(&seal.count.to_le_bytes())?;
    bytes.extend_from_slice(&seal.chain)?;
    bytes.extend_from_slice(&seal.number.to_le_bytes())?;
    bytes.extend_from_slice(&offset.to_le_bytes())?;
    Ok(bytes)
}

/// The number in eight bytes from there on.
fn number_in(bytes: &[u8], at: usize) -> u64
    requires { at + 8 ≤ length bytes.now }
    ensures { result ≡ number_at at bytes.now }
{
    let mut eight = [0; 8];
    eight.copy_from_slice(&bytes[at..at + 8]);
    u64::from_le_bytes(eight)
}

/// The chain in 32 bytes, behind the count.
fn chain_in(bytes: &[u8]) -> [u8; 32]
    requires { 40 ≤ length bytes.now }
    ensures { result ≡ take 32 (drop 8 bytes.now) }
{
    let mut chain = [0; 32];
    chain.copy_from_slice(&bytes[8..40]);
    chain
}

/// The seal that these bytes of the tables say, which are none or 56. Where they are none, it is
/// the first one.
pub fn read_seal(bytes: &[u8]) -> Option<Seal>
    ensures { MatchOption result (IsSealText bytes.now → ⊥) (λ seal. seal ≡ seal_said bytes.now) }
{
    if bytes.is_empty() {
        return Some(Seal::first());
    }
    if bytes.len() != SIZE {
        return None;
    }
    Some(Seal {
        count: number_in(bytes, 0),
        chain: chain_in(bytes),
        number: number_in(bytes, 40),
        offset: number_in(bytes, 48) as usize,
    })
}
