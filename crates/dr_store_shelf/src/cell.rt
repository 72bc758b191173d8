//! Cells that name an extent.
ghost use Rattle.std.specs.Prelude.{◌≡◌, ◌≤◌, ◌<◌, ◌+◌, ◌*◌, ◌^◌, ◌↔◌, ◌++◌, ◌∷◌, [], ℕ, List};
ghost use Rattle.std.specs.Prelude.{IfOk, IsTrue, MatchOption, OnOk, drop, length, slice_index};
ghost use Rattle.std.specs.Int.{w64, to_le_bytes};
ghost use Rattle.sqlite_disk.specs.Digest.{digest};
ghost use Rattle.dr_store_shelf.specs.Cells.{EndsWithDigests, Fit, HaveDigests, IsBlankCell};
ghost use Rattle.dr_store_shelf.specs.Cells.{Passes, extent_in, number_at, sum_in, written};

use dr_store_bodies::{Extent, PIECE, sums_of};
use sqlite_disk::digest_of;
use std::alloc::{AllocError, Global};

/// The number at that place, if it is within the cell.
fn number_at(cell: &[u8], at: usize) -> Option<u64>
    ensures { MatchOption result (length cell.now < at + 8)
        (λ n. (at + 8 ≤ length cell.now) × (n ≡ number_at cell.now at)) }
{
    if cell.len() < 8 || cell.len() - 8 < at {
        return None;
    }
    let bytes = cell[at..].first_chunk::<8>()?;
    Some(u64::from_le_bytes(*bytes))
}

/// The extent that the cell names, unless the cell was cut, or has bytes behind its digests.
pub fn extent_of(cell: &[u8]) -> Option<Extent>
    ensures { MatchOption result (EndsWithDigests cell.now → ⊥)
        (λ e. EndsWithDigests cell.now × (e ≡ extent_in cell.now)) }
{
    let at = number_at(cell, 0)?;
    let size = number_at(cell, 8)? as usize;
    if cell.len() != 16 + size.div_ceil(PIECE) * 8 {
        return None;
    }
    Some(Extent {
        at: at as usize,
        size,
    })
}

/// These numbers behind those that were written.
fn write_all(cell: &mut Vec<u8>, numbers: &[u64]) -> Result<(), AllocError>
    ensures all { OnOk result (cell.new.items ≡ cell.old.items ++ written numbers.now) }
    ensures fit { OnOk result (Fit numbers.now) }
{
    for number in numbers {
        cell.extend_from_slice(&number.to_le_bytes())?;
    }
    Ok(())
}

/// The cell of a data set whose place isn't known yet: it says place 0.
pub fn blank_cell(alloc: Global, key: u64, body: &[u8]) -> Result<Vec<u8>, AllocError>
    ensures { IfOk result (λ cell. IsBlankCell key body.now cell.items) }
{
    let sums = sums_of(alloc, key, body)?;
    let mut cell = Vec::new(alloc);
    write_all(&mut cell, &[0, body.len() as u64])?;
    write_all(&mut cell, sums.as_slice())?;
    Ok(cell)
}

/// Writes the place into the cell, in which there was another.
fn place_in(cell: &mut [u8], at: usize)
    requires { 8 ≤ length cell.old }
    ensures { cell.new ≡ to_le_bytes w64 at ++ drop 8 cell.old }
{
    let number = at as u64;
    cell[..8].copy_from_slice(&number.to_le_bytes());
}

/// The cell with that place, in which there was another.
pub fn placed_cell(cell: Vec<u8>, at: usize) -> Vec<u8>
    requires { 8 ≤ length cell.items }
    ensures { result.items ≡ to_le_bytes w64 at ++ drop 8 cell.items }
{
    let mut placed = cell;
    place_in(&mut placed, at);
    placed
}

/// Whether the cell has a digest for the piece with that number, and the piece has it.
fn has_digest(key: u64, cell: &[u8], index: usize, part: &[u8]) -> bool
    requires { index < 2 ^ 60 }
    ensures { IsTrue result
        ↔ ((24 + index * 8 ≤ length cell.now) × (sum_in cell.now index ≡ digest key part.now)) }
{
    match number_at(cell, 16 + index * 8) {
        Some(sum) => sum == digest_of(key, part),
        None => false,
    }
}

/// Whether each piece of the bytes has the digest that the cell has for it.
fn have_digests(key: u64, cell: &[u8], bytes: &[u8]) -> bool
    ensures { IsTrue result ↔ HaveDigests key cell.now bytes.now }
{
    let mut from = 0;
    let mut index = 0;
    while from < bytes.len() {
        let end = from + PIECE.min(bytes.len() - from);
        if !has_digest(key, cell, index, &bytes[from..end]) {
            return false;
        }
        from = end;
        index += 1;
    }
    true
}

/// Whether the bytes have the length and the digests that the cell says.
pub fn passes(key: u64, cell: &[u8], bytes: &[u8]) -> bool
    ensures { IsTrue result ↔ Passes key cell.now bytes.now }
{
    let Some(extent) = extent_of(cell) else {
        return false;
    };
    bytes.len() == extent.size && have_digests(key, cell, bytes)
}
