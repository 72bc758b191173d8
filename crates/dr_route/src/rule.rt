//! The rules of a node.
ghost use Rattle.std.specs.Prelude.{◌≡◌, ◌↔◌, ◌++◌, IsTrue, MatchOption};
ghost use Rattle.dr_base.specs.Texts.{Text as Words, Begins};
ghost use Rattle.dr_route.specs.Routes.{local, Matches, MatchesField};
ghost use Rattle.dr_route.specs.Routes.{TakesStation, Holds};

use crate::key::Key;
use dr_base::{Seq, Text};

/// What a rule asks of the caller, or of the class.
#[derive(Clone, Debug, Drop)]
pub enum Pattern {
    /// Any value; it is written `*`.
    Any,
    /// Just this value.
    Literal(Text),
}

/// What a rule asks of one field, modality or station.
#[derive(Clone, Debug, Drop)]
pub enum FieldPattern {
    /// Any value; it is written `*`.
    Any,
    /// Just this value.
    Literal(Text),
    /// Each value that begins with this text; it is written with `*` behind it. Plans have such
    /// stations from format 2 on, and such modalities in format 3.
    Prefix(Text),
}

/// A rule of a node: which instances it speaks of, the nodes that they are sent to, and whether the
/// node keeps them. It doesn't speak of the stations `except`, which stand in any order. Plans have
/// such exceptions in format 3.
#[derive(Clone, Debug, Drop)]
pub struct Rule {
    pub from: Pattern,
    pub class: Pattern,
    pub modality: FieldPattern,
    pub station: FieldPattern,
    pub except: Seq<Text>,
    pub to: Seq<Text>,
    pub keep: bool,
}

/// What the rules that hold say together: the nodes to send to, in byte order and each once, and
/// whether to keep.
#[derive(Debug, Drop)]
pub struct Targets {
    pub to: Seq<Text>,
    pub keep: bool,
}

/// Whether this is the local caller `-`, by which instances enter at a node itself.
pub fn is_local(caller: &Text) -> bool
    ensures { IsTrue result ↔ (caller.now ≡ local) }
{
    caller.as_bytes() == b"-".as_slice()
}

/// Whether the pattern admits the value.
pub fn matches(pattern: &Pattern, value: &Text) -> bool
    ensures { IsTrue result ↔ Matches pattern.now value.now }
{
    match pattern {
        Pattern::Any => true,
        Pattern::Literal(literal) => literal == value,
    }
}

/// What follows the prefix, where the value begins with it.
fn after<'a>(prefix: &[u8], value: &'a [u8]) -> Option<&'a [u8]>
    ensures { MatchOption result ((rest : Words) → value.now ≡ prefix.now ++ rest → ⊥)
        (λ rest. value.now ≡ prefix.now ++ rest.now) }
{
    value.strip_prefix(prefix)
}

/// Whether the value begins with the prefix.
pub fn begins(prefix: &Text, value: &Text) -> bool
    ensures { IsTrue result ↔ Begins prefix.now value.now }
{
    match after(prefix.as_bytes(), value.as_bytes()) {
        Some(_) => true,
        None => false,
    }
}

/// Whether the pattern admits the value of its field.
pub fn matches_field(pattern: &FieldPattern, value: &Text) -> bool
    ensures { IsTrue result ↔ MatchesField pattern.now value.now }
{
    match pattern {
        FieldPattern::Any => true,
        FieldPattern::Literal(literal) => literal == value,
        FieldPattern::Prefix(prefix) => begins(prefix, value),
    }
}

/// Whether the rule speaks of the station: its pattern admits it, and it is no exception.
pub fn takes_station(rule: &Rule, station: &Text) -> bool
    ensures { IsTrue result ↔ TakesStation rule.now station.now }
{
    matches_field(&rule.station, station) && !rule.except.as_slice().contains(station)
}

/// Whether the rule holds for what the caller brings: each of its four patterns admits its value,
/// and the station is no exception. No rule holds for the local caller.
pub fn holds(rule: &Rule, caller: &Text, key: &Key) -> bool
    ensures { IsTrue result ↔ Holds rule.now caller.now key.now }
{
    !is_local(caller)
        && matches(&rule.from, caller)
        && matches(&rule.class, &key.class)
        && matches_field(&rule.modality, &key.modality)
        && takes_station(rule, &key.station)
}
