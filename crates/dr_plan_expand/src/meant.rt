//! The plan that a plan of format 3 means.
ghost use Rattle.std.specs.Prelude.{◌≡◌, ◌++◌, IfOk, OnOk, IfErr, List, map, flat_map};
ghost use Rattle.dr_route.specs.declared.rule.Pattern.{Pattern as Pat};
ghost use Rattle.dr_route.specs.declared.rule.Pattern.TheVariants.{Literal};
ghost use Rattle.dr_route.specs.declared.accept.Callers.{Callers as Called};
ghost use Rattle.dr_plan_text.specs.declared.words.PlanText.{PlanText as Written};
ghost use Rattle.dr_plan_expand.specs.Meanings.{IsCallers, ArePatterns, row_of, rule_of, node_of};
ghost use Rattle.dr_plan_expand.specs.Meanings.{YieldsRows, YieldsRules, YieldsNode, YieldsFlows};
ghost use Rattle.dr_plan_expand.specs.Meanings.{Means, flow_of};
ghost use Rattle.dr_plan_expand.specs.Seen.{seen};
ghost use Rattle.dr_plan_expand.specs.declared.fault.WordFault.TheVariants.{Unknown};

use crate::fault::WordFault;
use crate::known::{SetTable, Table};
use crate::lookup::{standard_tables, tables_of};
use crate::short::{AnyWords, Definition, ShortFlow, ShortNode, ShortPlan, ShortRow, ShortRule};
use crate::words::{Classes, Nodes, Syntaxes, copy_of};
use crate::yields::{Yielding, all};
use dr_base::{Seq, Text};
use dr_plan_model::listens::copy_listens;
use dr_plan_model::{Format, Values};
use dr_plan_text::{AcceptText, FlowText, NodeText, PlanText};
use dr_route::{Callers, FieldPattern, Pattern, Rule};
use std::alloc::{AllocError, Global};

/// What the words of a plan are looked up in.
#[derive(Clone, Copy)]
pub struct Tables<'a> {
    pub classes: &'a [Table],
    pub usual: &'a [SetTable],
    pub syntaxes: &'a [Table],
    pub sets: &'a [Definition],
    pub groups: &'a [Definition],
}

/// The callers of a row.
fn callers_of(alloc: Global, groups: &[Definition], from: &Callers) -> Result<Callers, WordFault>
    ensures ok { IfOk result (IsCallers groups.now from.now) }
    ensures unknown { IfErr result (λ e.
        e ≡ Unknown → (x : Called) → IsCallers groups.now from.now x → ⊥) }
{
    match from {
        Callers::Any => Ok(Callers::Any),
        Callers::Listed(words) => {
            let names = all(&Nodes(groups), alloc, words.as_slice())?;
            Ok(Callers::Listed(names))
        }
    }
}

/// A copy of callers.
fn copy_callers(callers: &Callers) -> Result<Callers, AllocError>
    ensures { IfOk result (λ copy. copy ≡ callers.now) }
{
    let copy = callers.clone()?;
    Ok(copy)
}

/// The row of one class.
fn row_with(
    alloc: Global,
    from: &Callers,
    syntaxes: &[Text],
    class: &Text,
) -> Result<AcceptText, AllocError>
    ensures { IfOk result (λ row. row ≡ row_of from.now syntaxes.now class.now) }
{
    let from = copy_callers(from)?;
    let class = class.clone()?;
    let syntaxes = copy_of(alloc, syntaxes)?;
    Ok(AcceptText {
        from,
        class,
        syntaxes,
    })
}

/// The rows of these classes.
fn rows_with(
    alloc: Global,
    from: &Callers,
    syntaxes: &[Text],
    classes: &[Text],
) -> Result<Seq<AcceptText>, AllocError>
    ensures { IfOk result (λ rows. rows ≡ map (row_of from.now syntaxes.now) classes.now) }
{
    let mut rows = Vec::new(alloc);
    for class in classes {
        rows.push(row_with(alloc, from, syntaxes, class)?)?;
    }
    Ok(Seq::from_vec(rows))
}

/// Accept rows.
#[derive(Clone, Copy)]
struct Rows<'a>(Tables<'a>);

impl<'a> Yielding for Rows<'a> {
    type Element = ShortRow;

    type Thing = AcceptText;

    ghost yields = { λ rows. YieldsRows (seen rows.0) };

    fn things(&self, alloc: Global, row: &ShortRow) -> Result<Seq<AcceptText>, WordFault> {
        let tables = self.0;
        let from = callers_of(alloc, tables.groups, &row.from)?;
        let way = Classes(tables.classes, tables.usual, tables.sets);
        let classes = all(&way, alloc, row.classes.as_slice())?;
        let syntaxes = all(&Syntaxes(tables.syntaxes), alloc, row.syntaxes.as_slice())?;
        let rows = rows_with(alloc, &from, syntaxes.as_slice(), classes.as_slice())?;
        Ok(rows)
    }
}

/// Patterns that ask for these texts.
fn literals(alloc: Global, texts: &[Text]) -> Result<Seq<Pattern>, AllocError>
    ensures { IfOk result (λ patterns. patterns ≡ map Literal texts.now) }
{
    let mut patterns = Vec::new(alloc);
    for text in texts {
        patterns.push(Pattern::Literal(text.clone()?))?;
    }
    Ok(Seq::from_vec(patterns))
}

/// The patterns of a field of a rule.
fn patterns_of<Y: Yielding<Element = Text, Thing = Text>>(
    way: &Y,
    alloc: Global,
    words: &AnyWords,
) -> Result<Seq<Pattern>, WordFault>
    ensures ok { IfOk result (ArePatterns (Y.yields way.now) words.now) }
    ensures unknown { IfErr result (λ e. e ≡ Unknown → (patterns : List Pat)
        → ArePatterns (Y.yields way.now) words.now patterns → ⊥) }
{
    match words {
        AnyWords::Any => {
            let mut patterns = Seq::new(alloc);
            patterns.push(Pattern::Any)?;
            Ok(patterns)
        }
        AnyWords::Listed(words) => {
            let texts = all(way, alloc, words.as_slice())?;
            Ok(literals(alloc, texts.as_slice())?)
        }
    }
}

/// A copy of a pattern.
fn copy_pattern(pattern: &Pattern) -> Result<Pattern, AllocError>
    ensures { IfOk result (λ copy. copy ≡ pattern.now) }
{
    let copy = pattern.clone()?;
    Ok(copy)
}

/// A copy of what a rule asks of the modality or of the station.
fn copy_field(pattern: &FieldPattern) -> Result<FieldPattern, AllocError>
    ensures { IfOk result (λ copy. copy ≡ pattern.now) }
{
    let copy = pattern.clone()?;
    Ok(copy)
}

/// The rule for one caller and one class.
fn rule_with(
    alloc: Global,
    rule: &ShortRule,
    to: &[Text],
    from: &Pattern,
    class: &Pattern,
) -> Result<Rule, AllocError>
    ensures { IfOk result (λ made. made ≡ rule_of rule.now to.now from.now class.now) }
{
    let from = copy_pattern(from)?;
    let class = copy_pattern(class)?;
    let modality = copy_field(&rule.modality)?;
    let station = copy_field(&rule.station)?;
    let except = copy_of(alloc, rule.except.as_slice())?;
    let to = copy_of(alloc, to)?;
    Ok(Rule {
        from,
        class,
        modality,
        station,
        except,
        to,
        keep: rule.keep,
    })
}

/// Adds the rules for one caller and these classes.
fn add_rules(
    alloc: Global,
    out: &mut Vec<Rule>,
    rule: &ShortRule,
    to: &[Text],
    from: &Pattern,
    classes: &[Pattern],
) -> Result<(), AllocError>
    ensures { OnOk result
        (out.new.items ≡ out.old.items ++ map (rule_of rule.now to.now from.now) classes.now) }
{
    for class in classes {
        out.push(rule_with(alloc, rule, to, from, class)?)?;
    }
    Ok(())
}

/// The rules for these callers and classes.
fn rules_with(
    alloc: Global,
    rule: &ShortRule,
    to: &[Text],
    froms: &[Pattern],
    classes: &[Pattern],
) -> Result<Seq<Rule>, AllocError>
    ensures { IfOk result (λ rules. rules
        ≡ flat_map (λ from. map (rule_of rule.now to.now from) classes.now) froms.now) }
{
    let mut rules = Vec::new(alloc);
    for from in froms {
        add_rules(alloc, &mut rules, rule, to, from, classes)?;
    }
    Ok(Seq::from_vec(rules))
}

/// Rules.
#[derive(Clone, Copy)]
struct Rules<'a>(Tables<'a>);

impl<'a> Yielding for Rules<'a> {
    type Element = ShortRule;

    type Thing = Rule;

    ghost yields = { λ rules. YieldsRules (seen rules.0) };

    fn things(&self, alloc: Global, rule: &ShortRule) -> Result<Seq<Rule>, WordFault> {
        let tables = self.0;
        let nodes = Nodes(tables.groups);
        let froms = patterns_of(&nodes, alloc, &rule.from)?;
        let way = Classes(tables.classes, tables.usual, tables.sets);
        let classes = patterns_of(&way, alloc, &rule.classes)?;
        let to = all(&nodes, alloc, rule.to.as_slice())?;
        let rules = rules_with(
            alloc,
            rule,
            to.as_slice(),
            froms.as_slice(),
            classes.as_slice(),
        )?;
        Ok(rules)
    }
}

/// The node with these rows and rules.
fn node_with(
    node: &ShortNode,
    accepts: Seq<AcceptText>,
    rules: Seq<Rule>,
) -> Result<NodeText, AllocError>
    ensures { IfOk result (λ made. made ≡ node_of node.now accepts rules) }
{
    let name = node.name.clone()?;
    let listens = copy_listens(&node.listens)?;
    Ok(NodeText {
        name,
        listens,
        max_pdu: node.max_pdu,
        accepts,
        rules,
    })
}

/// Nodes.
#[derive(Clone, Copy)]
struct WholeNodes<'a>(Tables<'a>);

impl<'a> Yielding for WholeNodes<'a> {
    type Element = ShortNode;

    type Thing = NodeText;

    ghost yields = { λ nodes. YieldsNode (seen nodes.0) };

    fn things(&self, alloc: Global, node: &ShortNode) -> Result<Seq<NodeText>, WordFault> {
        let accepts = all(&Rows(self.0), alloc, node.accepts.as_slice())?;
        let rules = all(&Rules(self.0), alloc, node.rules.as_slice())?;
        let whole = node_with(node, accepts, rules)?;
        let mut nodes = Seq::new(alloc);
        nodes.push(whole)?;
        Ok(nodes)
    }
}

/// A copy of the modalities or of the stations of a flow.
fn copy_values(values: &Values) -> Result<Values, AllocError>
    ensures { IfOk result (λ copy. copy ≡ values.now) }
{
    let copy = values.clone()?;
    Ok(copy)
}

/// What a flow has beside its nodes.
#[derive(Clone, Copy)]
struct Sent<'a> {
    classes: &'a [Text],
    syntaxes: &'a [Text],
}

/// The flow from one node to another.
fn flow_with(
    alloc: Global,
    flow: &ShortFlow,
    sent: Sent<'_>,
    at: &Text,
    to: &Text,
) -> Result<FlowText, AllocError>
    ensures { IfOk result (λ made.
        made ≡ flow_of flow.now sent.entry.classes.now sent.entry.syntaxes.now at.now to.now) }
{
    let at = at.clone()?;
    let to = to.clone()?;
    let classes = copy_of(alloc, sent.classes)?;
    let syntaxes = copy_of(alloc, sent.syntaxes)?;
    let modalities = copy_values(&flow.modalities)?;
    let stations = copy_values(&flow.stations)?;
    Ok(FlowText {
        at,
        to,
        classes,
        syntaxes,
        modalities,
        stations,
    })
}

/// Adds the flows from one node to these.
fn add_flows(
    alloc: Global,
    out: &mut Vec<FlowText>,
    flow: &ShortFlow,
    sent: Sent<'_>,
    at: &Text,
    tos: &[Text],
) -> Result<(), AllocError>
    ensures { OnOk result (out.new.items ≡ out.old.items
        ++ map (flow_of flow.now sent.entry.classes.now sent.entry.syntaxes.now at.now) tos.now) }
{
    for to in tos {
        out.push(flow_with(alloc, flow, sent, at, to)?)?;
    }
    Ok(())
}

/// The flows from these nodes to those.
fn flows_with(
    alloc: Global,
    flow: &ShortFlow,
    sent: Sent<'_>,
    ats: &[Text],
    tos: &[Text],
) -> Result<Seq<FlowText>, AllocError>
    ensures { IfOk result (λ flows. flows ≡ flat_map
        (λ at. map (flow_of flow.now sent.entry.classes.now sent.entry.syntaxes.now at) tos.now)
        ats.now) }
{
    let mut flows = Vec::new(alloc);
    for at in ats {
        add_flows(alloc, &mut flows, flow, sent, at, tos)?;
    }
    Ok(Seq::from_vec(flows))
}

/// Flows.
#[derive(Clone, Copy)]
struct Flows<'a>(Tables<'a>);

impl<'a> Yielding for Flows<'a> {
    type Element = ShortFlow;

    type Thing = FlowText;

    ghost yields = { λ flows. YieldsFlows (seen flows.0) };

    fn things(&self, alloc: Global, flow: &ShortFlow) -> Result<Seq<FlowText>, WordFault> {
        let tables = self.0;
        let nodes = Nodes(tables.groups);
        let ats = all(&nodes, alloc, flow.at.as_slice())?;
        let tos = all(&nodes, alloc, flow.to.as_slice())?;
        let way = Classes(tables.classes, tables.usual, tables.sets);
        let classes = all(&way, alloc, flow.classes.as_slice())?;
        let syntaxes = all(&Syntaxes(tables.syntaxes), alloc, flow.syntaxes.as_slice())?;
        let sent = Sent {
            classes: classes.as_slice(),
            syntaxes: syntaxes.as_slice(),
        };
        let flows = flows_with(alloc, flow, sent, ats.as_slice(), tos.as_slice())?;
        Ok(flows)
    }
}

/// The plan that a plan of format 3 means.
///
/// Errors: Unknown where a set, a group or a class is one that nobody defines, and Memory.
pub fn meant(alloc: Global, short: &ShortPlan) -> Result<PlanText, WordFault>
    ensures ok { IfOk result (Means short.now) }
    ensures unknown { IfErr result (λ e.
        e ≡ Unknown → (plan : Written) → Means short.now plan → ⊥) }
{
    let known = standard_tables();
    let tables = tables_of(&known, short);
    let nodes = all(&WholeNodes(tables), alloc, short.nodes.as_slice())?;
    let flows = all(&Flows(tables), alloc, short.flows.as_slice())?;
    Ok(PlanText {
        format: Format::Three,
        nodes,
        flows,
    })
}
