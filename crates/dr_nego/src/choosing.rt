//! What an acceptor answers for one presentation context.
ghost use Rattle.std.specs.Prelude.{◌≡◌, IfOk, []};
ghost use Rattle.std.specs.List.{list_any};
ghost use Rattle.dr_base.specs.Syntaxes.{syntax_uid};
ghost use Rattle.dr_nego.specs.Answering.{member, is_caller, is_row_for, is_stranger, is_proposed};
ghost use Rattle.dr_nego.specs.Answering.{first_proposed, syntaxes_for, answer_with, answer_of};
ghost use Rattle.dr_nego.specs.Tests.{offered_by};

use dr_base::{Syntax, Text};
use dr_pdu::{ContextAnswer, ContextProposal};
use dr_route::AcceptRow;
use dr_route::accept::{is_caller, takes_class};
use std::alloc::{AllocError, Global};

/// The Verification class (PS3.4 A).
pub const VERIFICATION: &[u8] = b"1.2.840.10008.1.1";

/// What everybody is offered for Verification.
const FOR_VERIFICATION: [Syntax; 2] = [Syntax::Implicit, Syntax::Explicit];

/// Result 3: the abstract syntax isn't supported (PS3.8 9.3.3.2).
const NO_SUCH_CLASS: u8 = 3;

/// Result 4: none of the transfer syntaxes is supported (PS3.8 9.3.3.2).
const NO_SUCH_SYNTAX: u8 = 4;

/// Whether the text is one of these.
pub fn is_member(text: &[u8], texts: &[Text]) -> bool
    ensures { result ≡ member text.now texts.now }
{
    texts.iter().any(|other| text == other.as_bytes())
}

/// Whether the row speaks of the caller.
fn is_of_caller(row: &AcceptRow, caller: &Text) -> bool
    ensures { result ≡ is_caller row.now.from caller.now }
{
    is_caller(&row.from, caller)
}

/// Whether some row speaks of the caller.
fn is_known(rows: &[AcceptRow], caller: &Text) -> bool
    ensures { result ≡ list_any (λ row. is_caller row.from caller.now) rows.now }
{
    rows.iter().any(|row| is_of_caller(row, caller))
}

/// Whether the caller is the local one, `-`, or no row speaks of it.
pub fn is_stranger(rows: &[AcceptRow], caller: &Text) -> bool
    ensures { result ≡ is_stranger rows.now caller.now }
{
    if caller.as_bytes() == b"-".as_slice() {
        return true;
    }
    !is_known(rows, caller)
}

/// Whether the row is for the caller and the class.
fn is_row_for(row: &AcceptRow, caller: &Text, class: &Text) -> bool
    ensures { result ≡ is_row_for caller.now class.now row.now }
{
    takes_class(row, caller, class)
}

/// Whether some row is for the caller and the class.
fn has_row(rows: &[AcceptRow], caller: &Text, class: &Text) -> bool
    ensures { result ≡ list_any (is_row_for caller.now class.now) rows.now }
{
    rows.iter().any(|row| is_row_for(row, caller, class))
}

/// Whether the transfer syntax was proposed in the context.
fn is_proposed(proposal: &ContextProposal, syntax: Syntax) -> bool
    ensures { result ≡ is_proposed proposal.now syntax }
{
    is_member(syntax.uid(), proposal.syntaxes.as_slice())
}

/// The first of the offered syntaxes that was proposed.
fn first_proposed(proposal: &ContextProposal, offered: &[Syntax]) -> Option<Syntax>
    ensures { result ≡ first_proposed proposal.now offered.now }
{
    offered
        .iter()
        .copied()
        .find(|syntax| is_proposed(proposal, *syntax))
}

/// The first syntax of the row that was proposed, where the row is for the caller and the context's
/// class.
fn offered_by(row: &AcceptRow, caller: &Text, proposal: &ContextProposal) -> Option<Syntax>
    ensures { result ≡ offered_by row.now caller.now proposal.now }
{
    if !is_row_for(row, caller, &proposal.class) {
        return None;
    }
    first_proposed(proposal, row.syntaxes.as_slice())
}

/// Of the rows for the caller and the context's class, in order, the first syntax that was
/// proposed.
fn first_offered(rows: &[AcceptRow], caller: &Text, proposal: &ContextProposal) -> Option<Syntax>
    ensures { result
        ≡ first_proposed proposal.now (syntaxes_for rows.now caller.now proposal.now.class) }
{
    for row in rows {
        if let Some(syntax) = offered_by(row, caller, proposal) {
            return Some(syntax);
        }
    }
    None
}

/// The acceptance of the context with that syntax, or its refusal where there is none.
fn answer_with(
    alloc: Global,
    proposal: &ContextProposal,
    chosen: Option<Syntax>,
) -> Result<ContextAnswer, AllocError>
    ensures { IfOk result (λ a. a ≡ answer_with proposal.now chosen) }
{
    let Some(syntax) = chosen else {
        return Ok(refused(alloc, proposal, NO_SUCH_SYNTAX));
    };
    Ok(ContextAnswer {
        id: proposal.id,
        result: 0,
        syntax: Text::copy_of(alloc, syntax.uid())?,
    })
}

/// The refusal of the context for that reason.
fn refused(alloc: Global, proposal: &ContextProposal, reason: u8) -> ContextAnswer
    ensures { result ≡ record { id = proposal.now.id; result = reason; syntax = [] } }
{
    ContextAnswer {
        id: proposal.id,
        result: reason,
        syntax: Text::empty(alloc),
    }
}

/// What the caller is answered for a context, by these accept rows.
pub fn answer_of(
    alloc: Global,
    rows: &[AcceptRow],
    caller: &Text,
    proposal: &ContextProposal,
) -> Result<ContextAnswer, AllocError>
    ensures { IfOk result (λ a. a ≡ answer_of rows.now caller.now proposal.now) }
{
    if proposal.class.as_bytes() == VERIFICATION {
        let chosen = first_proposed(proposal, &FOR_VERIFICATION);
        let answer = answer_with(alloc, proposal, chosen)?;
        return Ok(answer);
    }
    if !has_row(rows, caller, &proposal.class) {
        return Ok(refused(alloc, proposal, NO_SUCH_CLASS));
    }
    let chosen = first_offered(rows, caller, proposal);
    let answer = answer_with(alloc, proposal, chosen)?;
    Ok(answer)
}
