//! The replies to questions about a sealed plan.
ghost use Rattle.std.specs.Prelude.{◌≡◌};
ghost use Rattle.dr_cert_lint.specs.Graphs.{IsGraphText};
ghost use Rattle.dr_cert_lint.specs.Findings.{IsLintText};
ghost use Rattle.dr_word_route.specs.Replies.{IsRouted, IsRoutedFor, IsTextReply};

use crate::reply::{Response, Unanswered};
use dr_base::Text;
use dr_cert::Sealed;
use dr_cert_lint::{graph_text, lint_text};
use dr_cert_trace::route_text;
use dr_route::Key;
use std::alloc::{AllocError, Global};

/// Where an instance of the key goes that enters at the site.
fn routed(alloc: Global, sealed: &Sealed, site: &Text, key: &Key) -> Response
    ensures { IsRouted sealed.now.plan site.now key.now result }
{
    match route_text(alloc, sealed, site, key) {
        Ok(Some(text)) => Response::Printed(text),
        Ok(None) => Response::NoLine,
        Err(AllocError) => Response::Refused(Unanswered::Memory),
    }
}

/// Where an instance goes that enters at the site, as far as its key was read.
pub fn reply_for(
    alloc: Global,
    sealed: &Sealed,
    site: &Text,
    key: Result<Key, Unanswered>,
) -> Response
    ensures { IsRoutedFor sealed.now.plan site.now key result }
{
    match key {
        Ok(key) => routed(alloc, sealed, site, &key),
        Err(refusal) => Response::Refused(refusal),
    }
}

/// The graph of the network.
pub fn graph_reply(alloc: Global, sealed: &Sealed) -> Response
    ensures { IsTextReply (IsGraphText sealed.now.plan sealed.now.certificate) result }
{
    match graph_text(alloc, sealed) {
        Ok(text) => Response::Printed(text),
        Err(AllocError) => Response::Refused(Unanswered::Memory),
    }
}

/// What is sound in the plan and still looks wrong.
pub fn lint_reply(alloc: Global, sealed: &Sealed) -> Response
    ensures { IsTextReply (IsLintText sealed.now.plan) result }
{
    match lint_text(alloc, sealed) {
        Ok(text) => Response::Printed(text),
        Err(AllocError) => Response::Refused(Unanswered::Memory),
    }
}
