//! PDUs out of a stream that comes in pieces.
ghost use Rattle.std.specs.Prelude.{◌≡◌, ◌≤◌, [], false, drop, length};
ghost use Rattle.dr_pdu.specs.Feeding.{Feeds, Gathers, fresh};

use crate::decoder::decode;
use crate::fault::PduFault;
use crate::pdu::Pdu;
use bytes::BytesMut;
use dr_base::Seq;
use std::alloc::Global;
use std::marker::Model;

/// Takes a stream in pieces, however it is cut, and gives its PDUs. It keeps what stands behind the
/// last whole one.
#[derive(Drop)]
pub struct Feeder {
    alloc: Global,
    limit: u32,
    failed: bool,
    kept: BytesMut,
}

impl Model for Feeder {
    ghost use Rattle.dr_pdu.specs.Feeding.{Feeding};

    ghost Value = { Feeding };

    ghost view = { λ f. record { limit = f.limit; failed = f.failed; kept = f.kept.items } };
}

impl Feeder {
    /// A feeder that has heard nothing; it takes no memory. `limit` bounds the length field of a
    /// P-DATA-TF, in bytes; 0 stands for 134,217,728.
    pub fn new(alloc: Global, limit: u32) -> Feeder
        ensures { result ≡ fresh limit }
    {
        Feeder {
            alloc,
            limit,
            failed: false,
            kept: BytesMut::new(alloc),
        }
    }

    /// The bytes behind the last whole PDU, which it keeps; it takes no memory.
    pub fn kept(&self) -> &[u8]
        ensures { result.now ≡ self.now.kept }
    {
        self.kept.as_slice()
    }

    /// All whole PDUs that were not given yet, in order.
    ///
    /// A fault in front is answered at once, and from then on every call answers `Failed`. A fault
    /// behind whole PDUs is answered by the next call. On `Memory` the feeder is as before, and the
    /// piece isn't taken. `More` is no answer.
    pub fn feed(&mut self, piece: &[u8]) -> Result<Seq<Pdu>, PduFault>
        ensures { Feeds self.old piece.now result self.new }
    {
        if self.failed {
            return Err(PduFault::Failed);
        }
        if self.kept.is_empty() {
            return self.feed_alone(piece);
        }
        self.feed_behind(piece)
    }

    /// A piece where nothing is kept: its PDUs are read where they stand, and what is behind them
    /// is kept.
    fn feed_alone(&mut self, piece: &[u8]) -> Result<Seq<Pdu>, PduFault>
        requires works { self.old.failed ≡ false }
        requires nothing_kept { self.old.kept ≡ [] }
        ensures { Feeds self.old piece.now result self.new }
    {
        match gather(self.alloc, self.limit, piece) {
            Ok((pdus, used)) => {
                self.kept.extend_from_slice(&piece[used..])?;
                Ok(pdus)
            }
            Err(fault) => match fault {
                PduFault::Memory => Err(PduFault::Memory),
                _ => {
                    self.failed = true;
                    Err(fault)
                }
            },
        }
    }

    /// A piece behind what is kept.
    fn feed_behind(&mut self, piece: &[u8]) -> Result<Seq<Pdu>, PduFault>
        requires { self.old.failed ≡ false }
        ensures { Feeds self.old piece.now result self.new }
    {
        let before = self.kept.len();
        self.kept.extend_from_slice(piece)?;
        match gather(self.alloc, self.limit, self.kept.as_slice()) {
            Ok((pdus, used)) => {
                drop_front(&mut self.kept, used);
                Ok(pdus)
            }
            Err(fault) => match fault {
                PduFault::Memory => {
                    self.kept.truncate(before);
                    Err(PduFault::Memory)
                }
                _ => {
                    self.failed = true;
                    self.kept.clear();
                    Err(fault)
                }
            },
        }
    }
}

/// The PDUs in front of a text, and how many bytes they take.
fn gather(alloc: Global, limit: u32, text: &[u8]) -> Result<(Seq<Pdu>, usize), PduFault>
    ensures { Gathers limit text.now result }
{
    let mut pdus = Vec::new(alloc);
    let mut used = 0;
    loop {
        match decode(alloc, &text[used..], limit) {
            Ok((pdu, len)) => {
                pdus.push(pdu)?;
                used += len;
            }
            Err(fault) => match fault {
                PduFault::More => return Ok((Seq::from_vec(pdus), used)),
                PduFault::Memory => return Err(PduFault::Memory),
                _ => {
                    if pdus.is_empty() {
                        return Err(fault);
                    }
                    return Ok((Seq::from_vec(pdus), used));
                }
            },
        }
    }
}

/// Drops the first bytes of a buffer. Nothing is moved; where all bytes go, all of its room is free
/// again.
fn drop_front(kept: &mut BytesMut, used: usize)
    requires { used ≤ length kept.old.items }
    ensures { kept.new.items ≡ drop used kept.old.items }
{
    if used == kept.len() {
        kept.clear();
        return;
    }
    kept.advance(used);
}
