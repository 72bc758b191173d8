//! A plan of format 3 as it is written, with its names and lists.
use dr_base::{Seq, Text};
use dr_plan_model::{Listens, Values};
use dr_route::{Callers, FieldPattern};

/// A name that the plan defines, and the words that it stands for: of a set classes, of a group
/// nodes.
#[derive(Drop)]
pub struct Definition {
    pub name: Text,
    pub words: Seq<Text>,
}

/// A row of a node's accept list: its callers may be groups, and its classes are any words. There
/// is one class or more, and one syntax or more, none twice.
#[derive(Drop)]
pub struct ShortRow {
    pub from: Callers,
    pub classes: Seq<Text>,
    pub syntaxes: Seq<Text>,
}

/// What a rule names its callers or its classes by.
#[derive(Drop)]
pub enum AnyWords {
    /// Any; it is written `*`.
    Any,
    Listed(Seq<Text>),
}

/// A rule: its callers, classes and targets are any words, and modality, station and the stations
/// that it excepts have their forms. What it excepts is a set: in byte order, and each once.
#[derive(Drop)]
pub struct ShortRule {
    pub from: AnyWords,
    pub classes: AnyWords,
    pub modality: FieldPattern,
    pub station: FieldPattern,
    pub except: Seq<Text>,
    pub to: Seq<Text>,
    pub keep: bool,
}

/// A node: its name doesn't begin with `@`, its addresses have their form, and `max_pdu` (bytes) is
/// any integer. Where it listens nowhere it has no accept row.
#[derive(Drop)]
pub struct ShortNode {
    pub name: Text,
    pub listens: Listens,
    pub max_pdu: i64,
    pub accepts: Seq<ShortRow>,
    pub rules: Seq<ShortRule>,
}

/// A flow: its nodes, classes and transfer syntaxes are any words, one or more of each, and
/// modalities and stations have their forms.
#[derive(Drop)]
pub struct ShortFlow {
    pub at: Seq<Text>,
    pub to: Seq<Text>,
    pub classes: Seq<Text>,
    pub syntaxes: Seq<Text>,
    pub modalities: Values,
    pub stations: Values,
}

/// The sets, groups, nodes and flows of a text of format 3, in its order; the sets and the groups
/// each in the order of their names.
#[derive(Drop)]
pub struct ShortPlan {
    pub sets: Seq<Definition>,
    pub groups: Seq<Definition>,
    pub nodes: Seq<ShortNode>,
    pub flows: Seq<ShortFlow>,
}
