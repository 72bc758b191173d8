//! What a session wants of its end.
ghost use Rattle.std.specs.Prelude.{◌≡◌};
ghost use Rattle.dr_session.specs.Links.{wants};

use crate::end::End;

/// What a session is for.
#[derive(Clone, Copy, PartialEq, Eq, Debug)]
pub enum Kind {
    /// It serves an association that the other side asks for.
    Receive,
    /// It sends each row that is due.
    Deliver,
    /// It asks for one echo.
    EchoOnce,
}

/// What a session wants next.
#[derive(Clone, Copy, PartialEq, Eq, Debug)]
pub enum Wish {
    /// To hear what comes.
    Listen,
    /// To send the first row that is due.
    Push,
    Release,
    Echo,
}

/// What a session wants next that has asked its end for something so many times.
pub(crate) fn next_wish(kind: Kind, asked: u32, end: &End) -> Wish
    ensures { result ≡ wants kind asked end.now }
{
    match kind {
        Kind::Receive => Wish::Listen,
        Kind::Deliver => deliver_wish(asked, end),
        Kind::EchoOnce => echo_wish(asked, end),
    }
}

/// Rows are pushed until none is due, at most 65,535 of them.
fn deliver_wish(asked: u32, end: &End) -> Wish
    ensures { result ≡ wants Kind.Deliver asked end.now }
{
    if !end.is_free() || asked >= 65_536 {
        return Wish::Listen;
    }
    if end.is_dry() || asked >= 65_535 {
        return Wish::Release;
    }
    Wish::Push
}

/// An echo, and then the release.
fn echo_wish(asked: u32, end: &End) -> Wish
    ensures { result ≡ wants Kind.EchoOnce asked end.now }
{
    if !end.is_free() || asked >= 2 {
        return Wish::Listen;
    }
    if asked >= 1 {
        return Wish::Release;
    }
    Wish::Echo
}
