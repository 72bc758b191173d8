//! Pieces of a document.
ghost use Rattle.std.specs.Prelude.{◌≡◌, ◌≤◌, ◌++◌, OnOk, codes, decimal, flat_map};
ghost use Rattle.dr_run_page.specs.Documents.{ago_words, cause_words, due_words, moment_words};
ghost use Rattle.dr_run_page.specs.Documents.{seconds, tried_words, visit_words, waited_words};
ghost use Rattle.dr_run_page.specs.Pieces.{text_of};

use crate::shown::put_shown;
use dr_base::fields::add_decimal;
use dr_ledger::Cause;
use dr_run_answer::Visited;
use std::alloc::AllocError;

/// A piece of a document.
#[derive(Clone, Copy)]
pub(crate) enum Piece<'a> {
    /// Markup of this crate.
    Markup(&'a str),
    /// Bytes that a peer sent, or a name.
    Words(&'a [u8]),
    Number(u64),
    /// Why a row is held.
    Cause(Cause),
    /// Now, and from when on a row is due, if one is.
    Due(u64, Option<u64>),
    /// For how many seconds a row has waited, where one waits.
    Waited(Option<u64>),
    /// Now, and the last visit, if there was one.
    Visit(u64, Option<Visited>),
    /// Now, and a moment.
    Ago(u64, u64),
}

/// Adds why a row is held.
fn put_cause(out: &mut Vec<u8>, cause: Cause) -> Result<(), AllocError>
    ensures { OnOk result (out.new.items ≡ out.old.items ++ cause_words cause) }
{
    match cause {
        Cause::Status(status) => {
            let bytes = status.to_be_bytes();
            let alloc = *out.allocator();
            let digits = hex::encode_upper(alloc, bytes.as_slice())?;
            out.extend_from_slice(b"status ")?;
            out.extend_from_slice(digits.as_bytes())
        }
        Cause::NoContext => out.extend_from_slice(b"no presentation context"),
        Cause::Unreadable => out.extend_from_slice(b"data set unreadable"),
    }
}

/// Adds seconds behind a word.
fn put_seconds(out: &mut Vec<u8>, word: &str, from: u64, to: u64) -> Result<(), AllocError>
    requires { from ≤ to }
    ensures { OnOk result (out.new.items
        ≡ out.old.items ++ (word.now ++ decimal (seconds from to) ++ codes " s")) }
{
    out.extend_from_slice(word.as_bytes())?;
    add_decimal(out, (to - from) / 1_000)?;
    out.extend_from_slice(b" s")
}

/// Adds that moment.
fn put_moment(out: &mut Vec<u8>, now: u64, due: u64) -> Result<(), AllocError>
    ensures { OnOk result (out.new.items ≡ out.old.items ++ moment_words now due) }
{
    if now < due {
        return put_seconds(out, "in ", now, due);
    }
    put_seconds(out, "for ", due, now)
}

/// Adds that moment, where it is one.
fn put_tried(out: &mut Vec<u8>, now: u64, due: u64) -> Result<(), AllocError>
    ensures { OnOk result (out.new.items ≡ out.old.items ++ tried_words now due) }
{
    if 0 < due {
        return put_moment(out, now, due);
    }
    out.extend_from_slice(b"not tried")
}

/// Adds from when on a row is due.
fn put_due(out: &mut Vec<u8>, now: u64, due: Option<u64>) -> Result<(), AllocError>
    ensures { OnOk result (out.new.items ≡ out.old.items ++ due_words now due) }
{
    match due {
        None => out.extend_from_slice(b"-"),
        Some(due) => put_tried(out, now, due),
    }
}

/// Adds for how many seconds a row has waited.
fn put_waited(out: &mut Vec<u8>, waited: Option<u64>) -> Result<(), AllocError>
    ensures { OnOk result (out.new.items ≡ out.old.items ++ waited_words waited) }
{
    match waited {
        None => out.extend_from_slice(b"-"),
        Some(seconds) => {
            add_decimal(out, seconds)?;
            out.extend_from_slice(b" s")
        }
    }
}

/// Adds how long ago that moment was.
fn put_ago(out: &mut Vec<u8>, now: u64, at: u64) -> Result<(), AllocError>
    ensures { OnOk result (out.new.items ≡ out.old.items ++ ago_words now at) }
{
    if now < at {
        return out.extend_from_slice(b"now");
    }
    add_decimal(out, (now - at) / 1_000)?;
    out.extend_from_slice(b" s ago")
}

/// Adds what the last visit came to, and how long ago.
fn put_visit(out: &mut Vec<u8>, now: u64, visit: Option<Visited>) -> Result<(), AllocError>
    ensures { OnOk result (out.new.items ≡ out.old.items ++ visit_words now visit) }
{
    let Some(visit) = visit else {
        return out.extend_from_slice(b"-");
    };
    put_shown(out, visit.came.as_bytes())?;
    out.extend_from_slice(b", ")?;
    put_ago(out, now, visit.at)
}

/// Adds a piece.
fn put_piece(out: &mut Vec<u8>, piece: Piece<'_>) -> Result<(), AllocError>
    ensures { OnOk result (out.new.items ≡ out.old.items ++ text_of piece.entry) }
{
    match piece {
        Piece::Markup(markup) => out.extend_from_slice(markup.as_bytes()),
        Piece::Words(words) => put_shown(out, words),
        Piece::Number(value) => add_decimal(out, value),
        Piece::Cause(cause) => put_cause(out, cause),
        Piece::Due(now, due) => put_due(out, now, due),
        Piece::Waited(waited) => put_waited(out, waited),
        Piece::Visit(now, visit) => put_visit(out, now, visit),
        Piece::Ago(now, at) => put_ago(out, now, at),
    }
}

/// Adds pieces, one behind another.
pub(crate) fn put_pieces(out: &mut Vec<u8>, pieces: &[Piece<'_>]) -> Result<(), AllocError>
    ensures { OnOk result (out.new.items ≡ out.old.items ++ flat_map text_of pieces.now) }
{
    for piece in pieces {
        put_piece(out, *piece)?;
    }
    Ok(())
}
