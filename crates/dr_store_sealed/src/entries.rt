//! Lines as the bytes of a file.
ghost use Rattle.std.specs.Prelude.{◌≡◌, ◌≢◌, ◌↔◌, ◌+◌, ◌<◌, ◌≤◌, ◌++◌, ◌^◌, ℕ, List, All};
ghost use Rattle.std.specs.Prelude.{IfOk, IfErr, OnOk, IsTrue, length, Contains};
ghost use Rattle.dr_store_sealed.specs.Lines.{IsOneLine, bytes_of, entry_of, mark_of, next_chain};
ghost use Rattle.dr_store_sealed.specs.Seals.{TakesLines, full, lines_between, next_seal};
ghost use Rattle.dr_store_sealed.specs.Refusals.{IsWhyNoEntry, IsWhyNoEntries};

use crate::fault::SealFault;
use crate::seal::{LONGEST, Seal};
use dr_base::Text;
use memchr::memchr;
use sha2::{Digest, Sha256};
use std::alloc::{AllocError, Global};

/// What ends a line.
pub const END: u8 = 10;

/// The chain of a line behind one with that chain.
pub fn chain_of(chain: &[u8; 32], line: &[u8]) -> [u8; 32]
    ensures { result ≡ next_chain chain.now line.now }
{
    let mut hasher = Sha256::new();
    hasher.update(chain.as_slice());
    hasher.update(line);
    hasher.finalize()
}

/// What is behind a line with that chain in its file.
pub fn mark(alloc: Global, chain: &[u8; 32]) -> Result<Vec<u8>, AllocError>
    ensures { IfOk result (λ mark. mark.items ≡ mark_of chain.now) }
{
    let digits = hex::encode(alloc, chain.as_slice())?;
    let mut mark = Vec::new(alloc);
    mark.push(32)?;
    mark.extend_from_slice(digits.as_bytes())?;
    mark.push(END)?;
    Ok(mark)
}

/// Whether the bytes may be a line.
pub fn is_line(line: &[u8]) -> bool
    ensures { IsTrue result ↔ IsOneLine line.now }
{
    line.len() <= LONGEST && memchr(END, line).is_none()
}

/// What is behind a line that goes behind the seal into the seal's file, and the seal behind both.
pub fn behind_line(alloc: Global, seal: &Seal, line: &[u8]) -> Result<(Vec<u8>, Seal), SealFault>
    requires { seal.now.offset < full }
    ensures mark { IfOk result (λ made.
        made.0.items ≡ mark_of (next_chain seal.now.chain line.now)) }
    ensures seal { IfOk result (λ made. made.1 ≡ next_seal seal.now line.now) }
    ensures line { IfOk result (λ made. IsOneLine line.now) }
    ensures why { IfErr result (IsWhyNoEntry seal.now line.now) }
{
    if !is_line(line) {
        return Err(SealFault::Unfit);
    }
    let Some(count) = seal.count.checked_add(1) else {
        return Err(SealFault::Uncounted);
    };
    let chain = chain_of(&seal.chain, line);
    let behind = mark(alloc, &chain)?;
    let Some(offset) = seal.offset.checked_add(line.len() + behind.len()) else {
        return Err(SealFault::Uncounted);
    };
    let last = Seal {
        count,
        chain,
        number: seal.number,
        offset,
    };
    Ok((behind, last))
}

/// Adds a line behind the seal, whose file takes it, and answers the seal behind the line.
fn push_entry(bytes: &mut Vec<u8>, seal: &Seal, line: &[u8]) -> Result<Seal, SealFault>
    requires { seal.now.offset < full }
    ensures bytes { IfOk result
        (λ last. bytes.new.items ≡ bytes.old.items ++ entry_of seal.now.chain line.now) }
    ensures seal { IfOk result (λ last. last ≡ next_seal seal.now line.now) }
    ensures line { IfOk result (λ last. IsOneLine line.now) }
    ensures why { IfErr result (IsWhyNoEntry seal.now line.now) }
{
    let alloc = *bytes.allocator();
    let (behind, last) = behind_line(alloc, seal, line)?;
    bytes.extend_from_slice(line)?;
    bytes.extend_from_slice(&behind)?;
    Ok(last)
}

/// The bytes of as many of the lines as begin in the seal's file, and the seal behind them.
pub fn entries_of(alloc: Global, seal: &Seal, lines: &[Text]) -> Result<(Vec<u8>, Seal), SealFault>
    ensures takes { IfOk result (λ made. TakesLines seal.now lines.now made.1) }
    ensures bytes { IfOk result (λ made. made.0.items
        ≡ bytes_of seal.now.chain (lines_between seal.now made.1 lines.now)) }
    ensures place { IfOk result (λ made.
        made.1.offset ≡ seal.now.offset + length made.0.items) }
    ensures lines { IfOk result (λ made. All IsOneLine (lines_between seal.now made.1 lines.now)) }
    ensures why { IfErr result (IsWhyNoEntries seal.now lines.now) }
{
    let mut bytes = Vec::new(alloc);
    let mut last = *seal;
    for line in lines {
        if last.is_full() {
            return Ok((bytes, last));
        }
        last = push_entry(&mut bytes, &last, line.as_bytes())?;
    }
    Ok((bytes, last))
}
