//! What the cells of a row say.
ghost use Rattle.std.specs.Prelude.{◌≡◌, ◌<◌, ◌+◌, IfSome};
ghost use Rattle.sqlite.specs.Order.{column};
ghost use Rattle.dr_ledger.specs.Replies.{Reads};
ghost use Rattle.dr_route.specs.declared.key.Key.{Key};
ghost use Rattle.dr_store_schema.specs.Cells.{bytes_in, number_in, outcome_in, progress_in};
ghost use Rattle.dr_store_schema.specs.Cells.{syntax_marked, text_in};

use dr_base::{Octets, Syntax, Text};
use dr_ledger::{Cause, LedgerFault, Outcome, Progress};
use dr_route::Key;
use sqlite::Row;
use sqlite::types::ValueRef;
use std::alloc::Global;

pub fn read_text(alloc: Global, row: &Row, at: usize) -> Result<Text, LedgerFault>
    ensures { Reads result (λ t. t ≡ text_in (column row.now at)) }
{
    match row.get_ref(at) {
        Ok(ValueRef::Text(bytes)) => Ok(Text::copy_of(alloc, bytes)?),
        _ => Err(LedgerFault::Store),
    }
}

pub fn read_bytes(alloc: Global, row: &Row, at: usize) -> Result<Octets, LedgerFault>
    ensures { Reads result (λ t. t ≡ bytes_in (column row.now at)) }
{
    match row.get_ref(at) {
        Ok(ValueRef::Blob(bytes)) => Ok(Text::copy_of(alloc, bytes)?),
        _ => Err(LedgerFault::Store),
    }
}

pub fn read_number(row: &Row, at: usize) -> Result<u64, LedgerFault>
    ensures { Reads result (λ n. n ≡ number_in (column row.now at)) }
{
    match row.get::<u64>(at) {
        Ok(number) => Ok(number),
        Err(_) => Err(LedgerFault::Store),
    }
}

/// A SHA-256.
pub fn read_digest(row: &Row, at: usize) -> Result<[u8; 32], LedgerFault>
    ensures { Reads result (λ d. d ≡ bytes_in (column row.now at)) }
{
    match row.get_ref(at) {
        Ok(ValueRef::Blob(bytes)) => match <[u8; 32]>::try_from(bytes) {
            Ok(digest) => Ok(digest),
            Err(_) => Err(LedgerFault::Store),
        },
        _ => Err(LedgerFault::Store),
    }
}

/// A transfer syntax, of its mark.
fn read_syntax(row: &Row, at: usize) -> Result<Syntax, LedgerFault>
    ensures { Reads result (λ s. s ≡ syntax_marked (text_in (column row.now at))) }
{
    match row.get_ref(at) {
        Ok(ValueRef::Text(mark)) => {
            if mark == b"I".as_slice() {
                return Ok(Syntax::Implicit);
            }
            Ok(Syntax::Explicit)
        }
        _ => Err(LedgerFault::Store),
    }
}

/// What rules read of an instance, from the columns class, syntax, modality and station, of which
/// the first is at this place.
pub fn read_key(alloc: Global, row: &Row, first: usize) -> Result<Key, LedgerFault>
    requires { first < 100 }
    ensures { Reads result (λ k. k
        ≡ record {
          class = text_in (column row.now first);
          syntax = syntax_marked (text_in (column row.now (first + 1)));
          modality = bytes_in (column row.now (first + 2));
          station = bytes_in (column row.now (first + 3));
        }) }
{
    let class = read_text(alloc, row, first)?;
    let syntax = read_syntax(row, first + 1)?;
    let modality = read_bytes(alloc, row, first + 2)?;
    let station = read_bytes(alloc, row, first + 3)?;
    Ok(Key {
        class,
        syntax,
        modality,
        station,
    })
}

/// What came of a try, in a line of the journal.
pub fn read_outcome(row: &Row, at: usize) -> Result<Outcome, LedgerFault>
    ensures { Reads result (λ o. o ≡ outcome_in (column row.now at)) }
{
    match row.get_ref(at) {
        Ok(ValueRef::Null) => Ok(Outcome::Broken),
        Ok(ValueRef::Int(number)) => {
            if number == -1 {
                return Ok(Outcome::NoContext);
            }
            if number == -2 {
                return Ok(Outcome::Unreadable);
            }
            match u16::try_from(number) {
                Ok(status) => Ok(Outcome::Status(status)),
                Err(_) => Err(LedgerFault::Store),
            }
        }
        _ => Err(LedgerFault::Store),
    }
}

/// What a row of queue says, from its columns state, tries, due and cause, of which the first is at
/// this place; None where they aren't a ledger's.
pub fn read_progress(row: &Row, first: usize) -> Option<Progress>
    requires { first < 100 }
    ensures { IfSome result (λ p. p
        ≡ progress_in (column row.now first) (column row.now (first + 1))
        (column row.now (first + 2)) (column row.now (first + 3))) }
{
    let state: u64 = row.get(first).ok()?;
    match state {
        0 => {
            let tries: u32 = row.get(first + 1).ok()?;
            let due: u64 = row.get(first + 2).ok()?;
            Some(Progress::Waiting { tries, due })
        }
        1 => {
            let why: Option<i64> = row.get(first + 3).ok()?;
            match why {
                None => Some(Progress::Held(Cause::NoContext)),
                Some(number) => {
                    if number == -2 {
                        return Some(Progress::Held(Cause::Unreadable));
                    }
                    let status = u16::try_from(number).ok()?;
                    Some(Progress::Held(Cause::Status(status)))
                }
            }
        }
        2 => Some(Progress::Done),
        _ => Some(Progress::Dropped),
    }
}
