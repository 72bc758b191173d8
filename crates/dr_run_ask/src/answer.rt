//! An answer of HTTP/1.1, over a link.
ghost use Rattle.std.specs.Prelude.{IfOk};
ghost use Rattle.httparse.specs.Spans.{IsResponseWithin};

use crate::fault::AskFault;
use http1::Limits;
use http1::decode::{Decoded, Decoder};
use http1::fields::KnownFields;
use http1::framing::{Framing, MethodKind, response_framing};
use httparse::Status;
use httparse::spans::{EMPTY_HEADER_SPAN, HeaderSpan, ResponseSpans, parse_response};
use std::alloc::Global;

/// A head has so many bytes at most.
const HEAD: usize = 8 * 1024;

/// And an answer so many, with its head: over what 1,000 rows take.
pub const MOST: usize = 4 * 1024 * 1024;

/// A body comes in so many pieces at most: each has a byte, and one more call finds its end.
const PIECES: usize = MOST + 1;

/// An answer has so many fields at most.
const FIELDS: usize = 32;

/// An answer: its status, and its body.
#[derive(Drop)]
pub struct HttpAnswer {
    pub status: u16,
    pub body: Vec<u8>,
}

/// What a body is that ends where its bytes do.
///
/// Errors: NoAnswer where it has to be whole.
fn ended(framing: Framing, body: Vec<u8>) -> Result<Vec<u8>, AskFault> {
    if framing == Framing::UntilClose {
        return Ok(body);
    }
    Err(AskFault::NoAnswer)
}

/// The body in what follows a head. One that goes until the end is there; another has to be whole.
///
/// Errors: NoNodesAnswer, NoAnswer where it is cut, Memory.
fn body_in(alloc: Global, framing: Framing, bytes: &[u8]) -> Result<Vec<u8>, AskFault> {
    let limits = Limits {
        max_head_len: HEAD,
        max_extensions_len: HEAD,
        max_trailers_len: HEAD,
    };
    let mut decoder = Decoder::new(framing, &limits);
    let mut trailers = [EMPTY_HEADER_SPAN; FIELDS];
    let (mut body, mut rest) = (Vec::new(alloc), bytes);
    for _piece in 0..PIECES {
        match decoder.decode(rest, &mut trailers) {
            Ok(Decoded::Data(piece)) => {
                body.extend_from_slice(piece.of(rest))?;
                rest = &rest[piece.end..];
            }
            Ok(Decoded::End { .. }) => return Ok(body),
            Ok(Decoded::NeedMore(_)) => return ended(framing, body),
            Err(_) => return Err(AskFault::NoNodesAnswer),
        }
    }
    Err(AskFault::NoNodesAnswer)
}

/// Why a head isn't there whole in so many bytes.
fn cut_at(length: usize) -> AskFault {
    if length < HEAD {
        return AskFault::NoAnswer;
    }
    AskFault::NoNodesAnswer
}

/// The head of an answer.
///
/// Errors: NoNodesAnswer, NoAnswer where it is cut.
fn head_in(bytes: &[u8], spans: &mut [HeaderSpan]) -> Result<ResponseSpans, AskFault>
    ensures { IfOk result (IsResponseWithin bytes.now spans.new) }
{
    let parsed = match parse_response(bytes, spans) {
        Ok(parsed) => parsed,
        Err(_) => return Err(AskFault::NoNodesAnswer),
    };
    let Status::Complete(head) = parsed else {
        return Err(cut_at(bytes.len()));
    };
    if head.len > HEAD {
        return Err(AskFault::NoNodesAnswer);
    }
    Ok(head)
}

/// How long the body of an answer is, by its head.
///
/// Errors: NoNodesAnswer.
fn framing_of(bytes: &[u8], spans: &[HeaderSpan], head: &ResponseSpans) -> Result<Framing, AskFault>
    requires { IsResponseWithin bytes.now spans.now head.now }
{
    let fields = KnownFields::from_spans(bytes, &spans[..head.headers]);
    match response_framing(MethodKind::Other, head.code, head.version, &fields) {
        Ok(framing) => Ok(framing),
        Err(_) => Err(AskFault::NoNodesAnswer),
    }
}

/// The answer in all bytes that came.
///
/// Errors: NoNodesAnswer, NoAnswer where it is cut, Memory.
pub fn answer_in(alloc: Global, bytes: &[u8]) -> Result<HttpAnswer, AskFault> {
    let mut spans = [EMPTY_HEADER_SPAN; FIELDS];
    let head = head_in(bytes, &mut spans)?;
    let framing = framing_of(bytes, &spans, &head)?;
    let body = body_in(alloc, framing, &bytes[head.len..])?;
    Ok(HttpAnswer {
        status: head.code,
        body,
    })
}
