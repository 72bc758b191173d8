//! Writes that the peer has to take in time.
ghost use Rattle.std.specs.Prelude.{◌≡◌, ◌≤◌, ◌<◌, ◌↔◌, length, take, true, false, IfSome, IsTrue};
ghost use Rattle.std.specs.Io.KnownBytes.{Appends};

use crate::limits::Cut;
use crate::quiet::is_quiet;
use dr_session::Clock;
use std::io::Write;

/// More calls of the system than one write makes.
const MOST_CALLS: u64 = 1 << 40;

/// The PDU that is being written: where it ends among the bytes, and since when it is written.
#[derive(Clone, Copy, PartialEq, Eq)]
struct Current {
    end: usize,
    since: u64,
}

/// Where the PDU ends that begins at a place; at the end of the bytes where its head isn't whole.
fn end_of_pdu(bytes: &[u8], begin: usize) -> usize {
    let Some([_, _, a, b, c, d, ..]) = bytes.get(begin..) else {
        return bytes.len();
    };
    let length = u32::from_be_bytes([*a, *b, *c, *d]) as usize;
    begin.saturating_add(length).saturating_add(6)
}

/// Where the PDU ends in which a place is, by the end of one at or before it.
fn end_behind(bytes: &[u8], end: usize, at: usize) -> usize {
    let mut end = end;
    for _ in 0..bytes.len() {
        if end > at || end >= bytes.len() {
            return end;
        }
        end = end_of_pdu(bytes, end);
    }
    end
}

impl Current {
    /// The PDU at that place, which may be a later one than this.
    fn at(self, bytes: &[u8], at: usize, now: u64) -> Current {
        if at < self.end {
            return self;
        }
        Current {
            end: end_behind(bytes, self.end, at),
            since: now,
        }
    }
}

/// One call of the system: how many bytes it took, none where it has to be asked again. None where
/// the write has failed.
fn write_some<S: Write>(stream: &mut S, bytes: &[u8]) -> Option<usize>
    ensures { IfSome result (λ count. (count ≤ length bytes.now)
        × Appends (S.contents stream.old) (S.contents stream.new) (take count bytes.now)) }
{
    match stream.write(bytes) {
        Ok(0) => None,
        Ok(count) => Some(count),
        Err(error) => {
            if is_quiet(&error) {
                return Some(0);
            }
            None
        }
    }
}

/// Whether the rest of a PDU that has been written for so many milliseconds may still be written.
/// Where all links are cut nothing waits.
fn may_go_on(spent: u64, limit: u64, is_cut: bool) -> bool
    ensures { IsTrue result ↔ (spent < limit) × (is_cut ≡ false) }
{
    spent < limit && !is_cut
}

/// Writes all bytes, which are whole PDUs; each has so many milliseconds until the system has taken
/// it, however often it takes a part. Says whether it did.
pub fn write_in_time<S: Write, C: Clock>(
    stream: &mut S,
    bytes: &[u8],
    limit: u64,
    cut: &Cut,
    clock: &C,
) -> bool
    ensures { result ≡ true
        → Appends (S.contents stream.old) (S.contents stream.new) bytes.now }
{
    let mut at = 0;
    let mut current = Current {
        end: end_of_pdu(bytes, 0),
        since: clock.now(),
    };
    for _ in 0..MOST_CALLS {
        if at >= bytes.len() {
            return true;
        }
        match write_some(stream, &bytes[at..]) {
            Some(count) => at += count,
            None => return false,
        }
        let now = clock.now();
        current = current.at(bytes, at, now);
        let spent = now.saturating_sub(current.since);
        if at < bytes.len() && !may_go_on(spent, limit, cut.is_made()) {
            return false;
        }
    }
    false
}
