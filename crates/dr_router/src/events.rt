//! The log of a node that runs, on the system's standard error.
use dr_session::Clock;
use jiff::Timestamp;
use log::kv::Source;
use log::span::Spans;
use log::{Line, Log, Metadata, Record};
use std::fmt;
use std::fmt::{Display, Formatter};

/// Writes each event as a line on the standard error, behind the moment at which it happened (UTC,
/// RFC 3339, with three decimals).
#[derive(Drop)]
pub struct EventLog<'a, R: Eprint, C: Clock> {
    pub rt: &'a R,
    pub clock: &'a C,
}

/// A line behind its moment, in milliseconds since 1970.
#[derive(Drop)]
struct Dated<L: Display> {
    now: u64,
    line: L,
}

impl<L: Display> Display for Dated<L> {
    fn fmt<W: fmt::Write>(&self, f: &mut Formatter<W>) -> fmt::Result {
        let moment = i64::try_from(self.now).unwrap_or(i64::MAX);
        match Timestamp::from_millisecond(moment) {
            Ok(moment) => write!(f, "{moment:.3} {}", self.line),
            Err(_) => write!(f, "- {}", self.line),
        }
    }
}

impl<'a, R: Eprint, C: Clock> Log for EventLog<'a, R, C> {
    fn enabled(&self, _metadata: &Metadata<'_>) -> bool {
        true
    }

    fn log<D: Display, K: Source, S: Spans>(&self, record: &Record<'_, D, K, S>) {
        let dated = Dated {
            now: self.clock.now(),
            line: Line::new(record),
        };
        let _ = self.rt.eprintln(dated);
    }

    fn flush(&self) {}

    fn target(&self) -> &str {
        ""
    }
}
