//! What is told of an association that was asked for: by whom, and which contexts were refused.
use dr_pdu::{AssociateAc, AssociateRq, ContextAnswer, ContextProposal};
use dr_run_shown::Escaped;
use log::{Log, info};
use std::fmt;
use std::fmt::{Display, Formatter};

/// So many contexts are shown of each kind at most.
const MOST: usize = 16;

/// The class that was proposed in a context; empty where none was.
fn class_of(proposals: &[ContextProposal], id: u8) -> &[u8] {
    for proposal in proposals {
        if proposal.id == id {
            return proposal.class.as_bytes();
        }
    }
    &[]
}

/// A context that was accepted, by its class and its transfer syntax, or refused, by its class and
/// the answer's result (PS3.8 9.3.3.2).
#[derive(Drop)]
struct ContextShown<'a> {
    class: &'a [u8],
    answer: &'a ContextAnswer,
}

impl<'a> Display for ContextShown<'a> {
    fn fmt<W: fmt::Write>(&self, f: &mut Formatter<W>) -> fmt::Result {
        let class = Escaped(self.class);
        if self.answer.result == 0 {
            let syntax = Escaped(self.answer.syntax.as_bytes());
            return write!(f, "{class}={syntax}");
        }
        let result = self.answer.result;
        write!(f, "{class}={result}")
    }
}

/// The contexts of an answer that were accepted, or those that were refused.
#[derive(Drop)]
struct Contexts<'a> {
    proposals: &'a [ContextProposal],
    answers: &'a [ContextAnswer],
    accepted: bool,
}

impl<'a> Display for Contexts<'a> {
    fn fmt<W: fmt::Write>(&self, f: &mut Formatter<W>) -> fmt::Result {
        let mut shown = 0usize;
        for answer in self.answers {
            if (answer.result == 0) != self.accepted {
                continue;
            }
            if shown >= MOST {
                return f.write_str(" ..");
            }
            if shown > 0 {
                f.write_str(" ")?;
            }
            let class = class_of(self.proposals, answer.id);
            write!(f, "{}", ContextShown { class, answer })?;
            shown += 1;
        }
        Ok(())
    }
}

/// Tells who asked for an association, by which titles, and which of its contexts were accepted and
/// refused.
pub fn tell_asked<G: Log>(
    log: &G,
    session: u64,
    request: &AssociateRq,
    answer: Option<&AssociateAc>,
) {
    let caller = Escaped(request.front.calling.as_bytes());
    let called = Escaped(request.front.called.as_bytes());
    let Some(answer) = answer else {
        info!(
            log; target: "contexts",
            "none session={session} caller=\"{caller}\" called=\"{called}\""
        );
        return;
    };
    let proposals = request.contexts.as_slice();
    let answers = answer.contexts.as_slice();
    let accepted = Contexts {
        proposals,
        answers,
        accepted: true,
    };
    let refused = Contexts {
        proposals,
        answers,
        accepted: false,
    };
    info!(
        log; target: "contexts",
        "asked session={session} caller=\"{caller}\" called=\"{called}\" accepted=\"{accepted}\" refused=\"{refused}\""
    );
}
