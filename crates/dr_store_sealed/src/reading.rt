//! Lines out of the bytes of a file.
ghost use Rattle.std.specs.Prelude.{◌≡◌, ◌≢◌, ◌∷◌, [], ◌<◌, ◌++◌, ℕ, List, All, length};
ghost use Rattle.std.specs.Prelude.{IfErr, IfNone, IfOk, IfSome, MatchOption};
ghost use Rattle.sqlite_disk.specs.Disk.{Holds};
ghost use Rattle.dr_store_sealed.specs.Files.{Spans};
ghost use Rattle.dr_store_sealed.specs.Lines.{IsOneLine, bytes_of, entry_of};
ghost use Rattle.dr_store_sealed.specs.Refusals.{IsWhyNoLineIn, IsWhyNoLines};
ghost use Rattle.dr_store_sealed.specs.Seals.{next_seal};

use crate::entries::{END, behind_line};
use crate::fault::SealFault;
use crate::piece::are_alike;
use crate::seal::Seal;
use dr_base::Text;
use memchr::memchr;
use std::alloc::Global;

/// The bytes of what is behind a line: a space, 64 digits, and the end of the line.
const MARK: usize = 66;

/// The bytes before the first end of a line, and those behind it.
fn first_end(bytes: &[u8]) -> Option<(&[u8], &[u8])>
    ensures { MatchOption result (All (λ byte. byte ≢ 10) bytes.now) (λ parts.
        (bytes.now ≡ parts.0.now ++ 10 ∷ parts.1.now)
        × All (λ byte. byte ≢ 10) parts.0.now) }
{
    let at = memchr(END, bytes)?;
    Some((&bytes[..at], &bytes[at + 1..]))
}

/// The bytes up to the first end of a line and with it, and what follows them.
#[tactic(auto, using(crate::proofs::Prefixes::front_taken))]
fn split_line(bytes: &[u8]) -> Option<(&[u8], &[u8])>
    ensures whole { IfSome result (λ parts. bytes.now ≡ parts.0.now ++ parts.1.now) }
    ensures ends { IfSome result (λ parts. (body : List ℕ)
        × (parts.0.now ≡ body ++ 10 ∷ []) × All (λ byte. byte ≢ 10) body) }
    ensures shorter { IfSome result (λ parts. length parts.1.now < length bytes.now) }
    ensures none { IfNone result (All (λ byte. byte ≢ 10) bytes.now) }
{
    match first_end(bytes) {
        Some((body, later)) => Some((&bytes[..body.len() + 1], later)),
        None => None,
    }
}

/// What is before the last bytes of an entry that are behind its line, and these.
fn cut_mark(entry: &[u8]) -> Option<(&[u8], &[u8])>
    ensures { MatchOption result (length entry.now < 66) (λ parts.
        (entry.now ≡ parts.0.now ++ parts.1.now) × (length parts.1.now ≡ 66)) }
{
    let size = entry.len().checked_sub(MARK)?;
    Some((&entry[..size], &entry[size..]))
}

/// The line of these bytes, which are all of one line of a file behind the seal, and the seal
/// behind it. `Broken` where its chain isn't the one that it ought to have.
fn line_in(alloc: Global, entry: &[u8], seal: &Seal) -> Result<(Text, Seal), SealFault>
    ensures entry { IfOk result (λ read. entry.now ≡ entry_of seal.now.chain read.0) }
    ensures seal { IfOk result (λ read. read.1 ≡ next_seal seal.now read.0) }
    ensures one_file { IfOk result (λ read. read.1.number ≡ seal.now.number) }
    ensures line { IfOk result (λ read. IsOneLine read.0) }
    ensures why { IfErr result (IsWhyNoLineIn seal.now entry.now) }
{
    if seal.is_full() {
        return Err(SealFault::Broken);
    }
    let Some((line, tail)) = cut_mark(entry) else {
        return Err(SealFault::Broken);
    };
    let (behind, last) = match behind_line(alloc, seal, line) {
        Ok(made) => made,
        Err(fault) => return Err(fault),
    };
    if !are_alike(tail, &behind) {
        return Err(SealFault::Broken);
    }
    let text = Text::copy_of(alloc, line)?;
    Ok((text, last))
}

/// All whole lines that these bytes begin with, which stand in a file behind the seal, and the seal
/// behind them. `Broken` where there is none.
pub fn lines_in(alloc: Global, piece: &[u8], from: &Seal) -> Result<(Vec<Text>, Seal), SealFault>
    ensures spans { IfOk result (λ read. Spans from.now read.0.items read.1) }
    ensures bytes { IfOk result (λ read.
        Holds piece.now 0 (bytes_of from.now.chain read.0.items)) }
    ensures lines { IfOk result (λ read. All IsOneLine read.0.items) }
    ensures some { IfOk result (λ read. 0 < length read.0.items) }
    ensures why { IfErr result (IsWhyNoLines from.now piece.now) }
{
    let mut lines = Vec::new(alloc);
    let mut last = *from;
    let mut rest = piece;
    while let Some((entry, later)) = split_line(rest) {
        match line_in(alloc, entry, &last) {
            Ok((line, next)) => {
                lines.push(line)?;
                last = next;
                rest = later;
            }
            Err(fault) => return Err(fault),
        }
    }
    if lines.is_empty() {
        return Err(SealFault::Broken);
    }
    Ok((lines, last))
}
