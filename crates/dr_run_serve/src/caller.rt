//! One who asks over the control connection, as a reader and a writer that come to an end.
use dr_session::Clock;
use std::io;
use std::io::{ErrorKind, Read, Write};
use std::net::TcpStream;
use std::time::Duration;

/// From the accept on a request has so many milliseconds to come whole.
pub const ASKED: u64 = 5_000;

/// And so many its answer to be taken, once it is there.
const ANSWERED: u64 = 30_000;

/// How much time is left until a moment.
///
/// Errors: TimedOut where none is.
fn left<C: Clock>(clock: &C, until: u64) -> io::Result<Duration> {
    let left = until.saturating_sub(clock.now());
    if left == 0 {
        return Err(io::Error::from(ErrorKind::TimedOut));
    }
    Ok(Duration::from_millis(left))
}

/// What a caller sends, until that moment.
#[derive(Drop)]
pub struct CallerInput<'a, C: Clock> {
    pub stream: &'a TcpStream,
    pub clock: &'a C,
    pub until: u64,
}

impl<'a, C: Clock> Read for CallerInput<'a, C> {
    fn read(&mut self, piece: &mut [u8]) -> io::Result<usize> {
        let left = left(self.clock, self.until)?;
        self.stream.set_read_timeout(Some(left))?;
        let mut stream = self.stream;
        stream.read(piece)
    }
}

/// What a caller is sent, until when, and whether its first bytes were written that say that it was
/// answered well.
#[derive(Drop)]
pub struct Outgoing<'a, C: Clock> {
    pub stream: &'a TcpStream,
    pub clock: &'a C,
    until: Option<u64>,
    pub well: bool,
}

impl<'a, C: Clock> Outgoing<'a, C> {
    /// Nothing was sent yet.
    pub fn new(stream: &'a TcpStream, clock: &'a C) -> Outgoing<'a, C> {
        Outgoing {
            stream,
            clock,
            until: None,
            well: false,
        }
    }

    /// Until when it is sent: from its first bytes on it has its time.
    fn end(&mut self) -> u64 {
        match self.until {
            Some(until) => until,
            None => {
                let until = self.clock.now().saturating_add(ANSWERED);
                self.until = Some(until);
                until
            }
        }
    }
}

/// Whether the bytes begin an answer that is no refusal: one of the statuses 200 to 399 (RFC 9112
/// 4).
fn begins_well(piece: &[u8]) -> bool {
    piece.starts_with(b"HTTP/1.1 2") || piece.starts_with(b"HTTP/1.1 3")
}

impl<'a, C: Clock> Write for Outgoing<'a, C> {
    fn write(&mut self, piece: &[u8]) -> io::Result<usize> {
        let until = self.end();
        let left = left(self.clock, until)?;
        self.stream.set_write_timeout(Some(left))?;
        self.well = self.well || begins_well(piece);
        let mut stream = self.stream;
        stream.write(piece)
    }

    fn flush(&mut self) -> io::Result<()> {
        Ok(())
    }
}

/// Reads what a caller still sends, and lets go of it, until it closes or its time is over: where a
/// connection is closed with bytes unread, the system drops the answer that is on its way.
pub fn drain<C: Clock>(caller: &mut CallerInput<'_, C>) {
    let mut piece = [0u8; 4096];
    for _ in 0..1024u32 {
        match caller.read(&mut piece) {
            Ok(0) | Err(_) => return,
            Ok(_) => {}
        }
    }
}
