//! Requests over a network, each in a connection of its own.
ghost use Rattle.std.specs.Prelude.{◌≡◌, IfOk, Ok, true, option_map};
ghost use Rattle.dr_word_at.specs.Callers.{AnswersBy};

use dr_base::Text;
use dr_run_ask::{AskFault, Asks, HttpAnswer, HttpCall, MOST, answer_in, request_bytes};
use dr_run_net::Network;
use dr_session::{Clock, Heard, Link};
use std::alloc::Global;
use std::io::ErrorKind;

/// From the connect on an answer has so many milliseconds to come whole.
const WAIT: u64 = 10_000;

/// And that to a copy so many: all of a ledger has to be written to a disk.
const COPY_WAIT: u64 = 600_000;

/// For how many milliseconds the answer is awaited.
fn wait_of(call: HttpCall<'_>) -> u64 {
    match call {
        HttpCall::Backup(_) => COPY_WAIT,
        _ => WAIT,
    }
}

/// Asks at an address, with a token where there is one.
#[derive(Drop)]
pub struct Caller<'a, N: Network, C: Clock> {
    pub alloc: Global,
    pub network: &'a N,
    pub clock: &'a C,
    pub at: &'a Text,
    pub token: Option<&'a Text>,
}

/// A connection to the address.
///
/// Errors: NoConnection, Memory.
fn connect<N: Network>(alloc: Global, network: &N, at: &Text) -> Result<N::Socket, AskFault>
    ensures { IfOk result (λ link. N.connects network.now at.now (Ok link)) }
{
    match network.connect(alloc, at) {
        Ok(link) => Ok(link),
        Err(error) => {
            if error.kind() == ErrorKind::OutOfMemory {
                return Err(AskFault::Memory);
            }
            Err(AskFault::NoConnection)
        }
    }
}

/// All bytes that come until the other side closes, or until that moment.
///
/// Errors: NoAnswer where it doesn't close until then, or the link fails; NoNodesAnswer where more
/// come than an answer has; Memory.
fn hear_all<L: Link, C: Clock>(
    alloc: Global,
    link: &mut L,
    clock: &C,
    until: u64,
) -> Result<Vec<u8>, AskFault> {
    let mut bytes = Vec::new(alloc);
    for _ in 0..u64::MAX {
        if clock.now() >= until {
            return Err(AskFault::NoAnswer);
        }
        match link.recv() {
            Heard::Bytes(piece) => {
                let piece = piece.as_bytes();
                if bytes.len().saturating_add(piece.len()) > MOST {
                    return Err(AskFault::NoNodesAnswer);
                }
                bytes.extend_from_slice(piece)?;
            }
            Heard::End => return Ok(bytes),
            Heard::Late | Heard::Crowded => {}
            Heard::Idle | Heard::Fault => return Err(AskFault::NoAnswer),
            Heard::Memory => return Err(AskFault::Memory),
        }
    }
    Err(AskFault::NoAnswer)
}

/// Sends a request over a link, and hears the answer.
///
/// Errors: NoAnswer, NoNodesAnswer, Memory.
fn exchange<L: Link, C: Clock>(
    alloc: Global,
    link: &mut L,
    clock: &C,
    bytes: &[u8],
    until: u64,
) -> Result<HttpAnswer, AskFault>
    ensures { IfOk result (λ _. (mid : L) × L.sends link.old bytes.now true mid) }
{
    if link.send(bytes) {
        let heard = hear_all(alloc, link, clock, until)?;
        link.close();
        let answer = answer_in(alloc, heard.as_slice())?;
        return Ok(answer);
    }
    Err(AskFault::NoAnswer)
}

/// An answer comes only to the request that is meant, which was sent over a link that leads to the
/// address. Who asks stays as they are.
impl<'a, N: Network, C: Clock> Asks for Caller<'a, N, C> {
    ghost use Rattle.std.specs.Prelude.{◌≡◌, option_map};
    ghost use Rattle.dr_word_at.specs.Callers.{AnswersBy};

    ghost answers = { λ s call result t. (t ≡ s)
        × AnswersBy (N.connects s.network.now) N.Socket.sends s.at.now
        (option_map (λ token. token.now) s.token) call result };

    fn ask(&mut self, call: HttpCall<'_>) -> Result<HttpAnswer, AskFault> {
        let bytes = request_bytes(self.alloc, self.at, self.token, call)?;
        let until = self.clock.now().saturating_add(wait_of(call));
        let mut link = connect(self.alloc, self.network, self.at)?;
        let answer = exchange(self.alloc, &mut link, self.clock, bytes.as_slice(), until)?;
        Ok(answer)
    }
}
