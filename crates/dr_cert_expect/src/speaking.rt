//! Of which keys a row speaks.
ghost use Rattle.std.specs.Prelude.{◌≡◌, ◌↔◌, IsTrue};
ghost use Rattle.dr_base.specs.Syntaxes.{syntax_uid};
ghost use Rattle.dr_route.specs.Routes.{Matches};
ghost use Rattle.dr_cert_expect.specs.Expected.{SpeaksOf};

use dr_base::{Syntax, Text};
use dr_plan_expect::Expectation;
use dr_route::rule::{matches, matches_field};
use dr_route::{Key, Pattern};

/// Whether the pattern admits the transfer syntax's UID.
fn matches_syntax(pattern: &Pattern, syntax: Syntax) -> bool
    ensures { IsTrue result ↔ Matches pattern.now (syntax_uid syntax) }
{
    match pattern {
        Pattern::Any => true,
        Pattern::Literal(uid) => uid.as_bytes() == syntax.uid(),
    }
}

/// Whether the row speaks of the key where it enters at the site.
pub fn speaks_of(row: &Expectation, site: &Text, key: &Key) -> bool
    ensures { IsTrue result ↔ SpeaksOf row.now site.now key.now }
{
    matches(&row.at, site)
        && matches(&row.class, &key.class)
        && matches_syntax(&row.syntax, key.syntax)
        && matches_field(&row.modality, &key.modality)
        && matches_field(&row.station, &key.station)
}
