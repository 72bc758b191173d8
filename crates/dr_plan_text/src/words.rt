//! The parts of a plan, as they are written.
use dr_base::{Seq, Text};
use dr_plan_model::{Format, Listens, Values};
use dr_route::{Callers, Rule};

/// A row of a node's accept list: `from` and the transfer syntaxes are any texts, `class` has its
/// form. There is one syntax or more, and none twice.
#[derive(Debug, Drop)]
pub struct AcceptText {
    pub from: Callers,
    pub class: Text,
    pub syntaxes: Seq<Text>,
}

/// A node: its addresses have their form, its name is any text, and `max_pdu` (bytes) any integer.
/// In its rules the names are any texts, and class, modality, station and the stations that are
/// excepted have their forms. Where it listens nowhere it has no accept row.
#[derive(Debug, Drop)]
pub struct NodeText {
    pub name: Text,
    pub listens: Listens,
    pub max_pdu: i64,
    pub accepts: Seq<AcceptText>,
    pub rules: Seq<Rule>,
}

/// A flow: its names and transfer syntaxes are any texts, while classes, modalities and stations
/// have their forms. There is one class or more, and one syntax or more.
#[derive(Debug, Drop)]
pub struct FlowText {
    pub at: Text,
    pub to: Text,
    pub classes: Seq<Text>,
    pub syntaxes: Seq<Text>,
    pub modalities: Values,
    pub stations: Values,
}

/// The format of a plan's text, and its nodes and flows in the order of the text. They name no
/// prefix that the format doesn't have. Before format 3 each node listens where others reach it,
/// and no rule excepts a station.
#[derive(Debug, Drop)]
pub struct PlanText {
    pub format: Format,
    pub nodes: Seq<NodeText>,
    pub flows: Seq<FlowText>,
}
