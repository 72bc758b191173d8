//! What came, counted: by caller, and by caller and modality of the last hour. What the lines
//! amount to is said in `specs/Intakes.antt`, and what follows from it in `laws`.
ghost use Rattle.std.specs.Prelude.{◌≡◌, ◌+◌, ◌&&◌, ◌++◌, ◌∷◌, [], IfOk, MatchBool, MatchResult};
ghost use Rattle.std.specs.Prelude.{OnOk, bytes_eq, filter, min, nat_eq, not, position};
ghost use Rattle.dr_run_answer.specs.Intakes.{AddsAt, AddsRecentLine, AddsRecent, AreRecent};
ghost use Rattle.dr_run_answer.specs.Intakes.{CountsMinute, CountsOne, IsShare, if_so, is_by};
ghost use Rattle.dr_run_answer.specs.Intakes.{is_of_hour, most};

use crate::intake::{Brought, Recent};
use dr_base::Text;
use dr_ledger::{Arrived, LedgerFault};
use std::alloc::{AllocError, Global};

/// What came within a minute (since 1970) from a caller, of a modality.
#[derive(Drop)]
pub struct Minute {
    pub minute: u64,
    pub recent: Recent,
}

/// By how much an instance raises the figures of its caller.
#[derive(Clone, Copy)]
struct CallerShare {
    stored: u64,
    again: u64,
    refused: u64,
    bytes: u64,
}

/// By how much an instance of so many bytes does that was answered so.
fn share_of(answer: Result<Arrived, LedgerFault>, size: u64) -> CallerShare
    ensures { IsShare answer size result }
{
    match answer {
        Ok(Arrived::New) => CallerShare {
            stored: 1,
            again: 0,
            refused: 0,
            bytes: size,
        },
        Ok(Arrived::Again) => CallerShare {
            stored: 0,
            again: 1,
            refused: 0,
            bytes: 0,
        },
        Err(_) => CallerShare {
            stored: 0,
            again: 0,
            refused: 1,
            bytes: 0,
        },
    }
}

/// Raises the figures of a caller. One stays at its greatest value.
fn raise(brought: &mut Brought, share: CallerShare)
    ensures { brought.new ≡ record {
      caller = brought.old.caller;
      stored = min most (brought.old.stored + share.stored);
      again = min most (brought.old.again + share.again);
      refused = min most (brought.old.refused + share.refused);
      bytes = min most (brought.old.bytes + share.bytes);
    } }
{
    brought.stored = brought.stored.saturating_add(share.stored);
    brought.again = brought.again.saturating_add(share.again);
    brought.refused = brought.refused.saturating_add(share.refused);
    brought.bytes = brought.bytes.saturating_add(share.bytes);
}

/// What a caller has brought whose first instance raises its figures so.
///
/// Errors: want of memory.
fn first_of(caller: &Text, share: CallerShare) -> Result<Brought, AllocError>
    ensures { IfOk result (λ b. b ≡ record {
      caller = caller.now;
      stored = share.stored;
      again = share.again;
      refused = share.refused;
      bytes = share.bytes;
    }) }
{
    let caller = caller.clone()?;
    Ok(Brought {
        caller,
        stored: share.stored,
        again: share.again,
        refused: share.refused,
        bytes: share.bytes,
    })
}

/// Where the line of a caller stands, if it has one.
fn place_of(callers: &[Brought], caller: &Text) -> Option<usize>
    ensures { result ≡ position (λ b. bytes_eq b.caller caller.now) callers.now }
{
    callers.iter().position(|b| b.caller == *caller)
}

/// Counts an instance for its caller.
///
/// Errors: want of memory, where the caller has no line yet; nothing has changed then.
pub fn note_caller(
    callers: &mut Vec<Brought>,
    caller: &Text,
    answer: Result<Arrived, LedgerFault>,
    size: u64,
) -> Result<(), AllocError>
    ensures { MatchResult result
        (λ done. CountsOne caller.now answer size callers.old.items callers.new.items)
        (λ why. callers.new.items ≡ callers.old.items) }
{
    let share = share_of(answer, size);
    match place_of(callers.as_slice(), caller) {
        Some(place) => {
            raise(&mut callers[place], share);
            Ok(())
        }
        None => add_first(callers, caller, share),
    }
}

/// Adds a line for a caller that has none.
///
/// Errors: want of memory; nothing has changed then.
fn add_first(
    callers: &mut Vec<Brought>,
    caller: &Text,
    share: CallerShare,
) -> Result<(), AllocError>
    ensures { MatchResult result
        (λ done. callers.new.items ≡ callers.old.items ++ (record {
          caller = caller.now;
          stored = share.stored;
          again = share.again;
          refused = share.refused;
          bytes = share.bytes;
        }) ∷ [])
        (λ why. callers.new.items ≡ callers.old.items) }
{
    let first = first_of(caller, share)?;
    callers.push(first)?;
    Ok(())
}

/// A copy of what a caller has brought.
///
/// Errors: want of memory.
fn brought_copy(brought: &Brought) -> Result<Brought, AllocError>
    ensures { IfOk result (λ copy. copy ≡ brought.now) }
{
    let caller = brought.caller.clone()?;
    Ok(Brought {
        caller,
        stored: brought.stored,
        again: brought.again,
        refused: brought.refused,
        bytes: brought.bytes,
    })
}

/// Copies of what callers have brought.
///
/// Errors: want of memory.
pub fn copies_of(alloc: Global, callers: &[Brought]) -> Result<Vec<Brought>, AllocError>
    ensures { IfOk result (λ copies. copies.items ≡ callers.now) }
{
    let mut copies = Vec::with_capacity(alloc, callers.len())?;
    for brought in callers {
        copies.push(brought_copy(brought)?)?;
    }
    Ok(copies)
}

/// So many minutes are an hour: the one that is under way, and those before it.
const HOUR: u64 = 60;

/// So many lines of minutes are kept at most.
const MOST: usize = 4_096;

/// Whether a minute is of the hour that ends with this one.
fn is_of_hour(now: u64, minute: u64) -> bool
    ensures { result ≡ is_of_hour now minute }
{
    now.saturating_sub(minute) < HOUR
}

/// Lets go of what isn't of the hour that ends with this minute.
pub fn let_go(minutes: &mut Vec<Minute>, now: u64)
    ensures { minutes.new.items ≡ filter (λ one. is_of_hour now one.minute) minutes.old.items }
{
    minutes.retain(|one| is_of_hour(now, one.minute));
}

/// Whether it is of that caller and modality.
fn is_by(line: &Recent, caller: &Text, modality: &Text) -> bool
    ensures { result ≡ is_by caller.now modality.now line.now }
{
    line.caller == *caller && line.modality == *modality
}

/// What came of a caller and modality: one instance that was taken or refused.
///
/// Errors: want of memory.
fn one_of(caller: &Text, modality: &Text, is_taken: bool) -> Result<Recent, AllocError>
    ensures { IfOk result (λ line. line ≡ record {
      caller = caller.now;
      modality = modality.now;
      stored = if_so is_taken 1;
      refused = if_so (not is_taken) 1;
    }) }
{
    let caller = caller.clone()?;
    let modality = modality.clone()?;
    Ok(Recent {
        caller,
        modality,
        stored: u64::from(is_taken),
        refused: u64::from(!is_taken),
    })
}

/// Where the line of a minute, a caller and a modality stands, if there is one.
fn place_in(minutes: &[Minute], minute: u64, line: &Recent) -> Option<usize>
    ensures { result ≡ position
        (λ one. nat_eq one.minute minute && is_by line.now.caller line.now.modality one.recent)
        minutes.now }
{
    minutes.iter().position(|one| one.minute == minute
        && is_by(&one.recent, &line.caller, &line.modality))
}

/// Raises what came. A figure stays at its greatest value.
fn raise_line(line: &mut Recent, stored: u64, refused: u64)
    ensures { line.new ≡ record {
      caller = line.old.caller;
      modality = line.old.modality;
      stored = min most (line.old.stored + stored);
      refused = min most (line.old.refused + refused);
    } }
{
    line.stored = line.stored.saturating_add(stored);
    line.refused = line.refused.saturating_add(refused);
}

/// The same of a minute.
fn raise_minute(one: &mut Minute, stored: u64, refused: u64)
    ensures { one.new ≡ record {
      minute = one.old.minute;
      recent = record {
        caller = one.old.recent.caller;
        modality = one.old.recent.modality;
        stored = min most (one.old.recent.stored + stored);
        refused = min most (one.old.recent.refused + refused);
      };
    } }
{
    raise_line(&mut one.recent, stored, refused);
}

/// Adds a line for a minute; says whether there was room and memory for it.
fn add_minute(minutes: &mut Vec<Minute>, minute: u64, recent: Recent) -> bool
    ensures { MatchBool result
        (minutes.new.items
        ≡ minutes.old.items ++ (record { minute = minute; recent = recent }) ∷ [])
        (minutes.new.items ≡ minutes.old.items) }
{
    if minutes.len() >= MOST {
        return false;
    }
    minutes.push(Minute { minute, recent }).is_ok()
}

/// Counts a line in its minute.
fn note_line(minutes: &mut Vec<Minute>, minute: u64, line: Recent) -> bool
    ensures { MatchBool result
        (AddsAt minute line minutes.old.items minutes.new.items)
        (minutes.new.items ≡ minutes.old.items) }
{
    match place_in(minutes.as_slice(), minute, &line) {
        Some(place) => {
            raise_minute(&mut minutes[place], line.stored, line.refused);
            true
        }
        None => add_minute(minutes, minute, line),
    }
}

/// Counts an instance for its minute. It isn't counted, and nothing has changed, where there is no
/// room or no memory for a line more; it tells which.
pub fn note_minute(
    minutes: &mut Vec<Minute>,
    minute: u64,
    caller: &Text,
    modality: &Text,
    is_taken: bool,
) -> bool
    ensures { MatchBool result
        (CountsMinute minute caller.now modality.now is_taken minutes.old.items minutes.new.items)
        (minutes.new.items ≡ minutes.old.items) }
{
    match one_of(caller, modality, is_taken) {
        Ok(line) => note_line(minutes, minute, line),
        Err(_) => false,
    }
}

/// A copy of it.
///
/// Errors: want of memory.
fn copy_of(line: &Recent) -> Result<Recent, AllocError>
    ensures { IfOk result (λ copy. copy ≡ line.now) }
{
    let caller = line.caller.clone()?;
    let modality = line.modality.clone()?;
    Ok(Recent {
        caller,
        modality,
        stored: line.stored,
        refused: line.refused,
    })
}

/// Where the line of a caller and a modality stands, if there is one.
fn place_by(lines: &[Recent], line: &Recent) -> Option<usize>
    ensures { result
        ≡ position (λ one. is_by line.now.caller line.now.modality one) lines.now }
{
    lines
        .iter()
        .position(|one| is_by(one, &line.caller, &line.modality))
}

/// Adds what came to what came of the same caller and modality.
///
/// Errors: want of memory.
fn add_line(lines: &mut Vec<Recent>, line: &Recent) -> Result<(), AllocError>
    ensures { OnOk result (AddsRecentLine line.now lines.old.items lines.new.items) }
{
    match place_by(lines.as_slice(), line) {
        Some(place) => {
            raise_line(&mut lines[place], line.stored, line.refused);
            Ok(())
        }
        None => {
            let copy = copy_of(line)?;
            lines.push(copy)?;
            Ok(())
        }
    }
}

/// The same, where its minute is of the hour that ends with this one.
///
/// Errors: want of memory.
fn add_recent(lines: &mut Vec<Recent>, one: &Minute, now: u64) -> Result<(), AllocError>
    ensures { OnOk result (AddsRecent now one.now lines.old.items lines.new.items) }
{
    if is_of_hour(now, one.minute) {
        return add_line(lines, &one.recent);
    }
    Ok(())
}

/// What came within the hour that ends with this minute, by caller and modality.
///
/// Errors: want of memory.
pub fn recents_of(alloc: Global, minutes: &[Minute], now: u64) -> Result<Vec<Recent>, AllocError>
    ensures { IfOk result (λ lines. AreRecent now minutes.now lines.items) }
{
    let mut lines = Vec::new(alloc);
    for one in minutes {
        add_recent(&mut lines, one, now)?;
    }
    Ok(lines)
}
