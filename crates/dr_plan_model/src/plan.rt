//! Nodes, flows, and the plan that they make.
ghost use Rattle.std.specs.Prelude.{◌≡◌, ◌≢◌, [], OnErr};
ghost use Rattle.dr_plan_model.specs.Formed.{AreWellFormed};
ghost use Rattle.dr_plan_model.specs.Listings.{AreListedBy};
ghost use Rattle.dr_plan_model.specs.Plans.{IsWellFormed, IsTheNode, NamesNoNode};
ghost use Rattle.std.specs.Prelude.{IfOk, MatchOption};

use crate::copies::{copy_accepts, copy_flows, copy_rules};
use crate::listed::{Listed, all_listed};
use crate::listens::{Listens, copy_listens};
use dr_base::{Seq, Syntax, Text};
use dr_route::{AcceptRow, FieldValues, Rule};
use std::alloc::{AllocError, Global};
use std::marker::Model;

/// A node of the network: its title, where it listens, the greatest length of the P-DATA-TF PDUs
/// that it takes (bytes; 0 is no limit), what it accepts, and its rules.
#[derive(Debug, Drop)]
pub struct Node {
    pub name: Text,
    pub listens: Listens,
    pub max_pdu: u32,
    pub accepts: Seq<AcceptRow>,
    pub rules: Seq<Rule>,
}

impl Clone for Node {
    ghost use Rattle.std.specs.Prelude.{◌≡◌};

    ghost is_clone = { λ node copy. copy ≡ node };

    fn clone(&self) -> Result<Node, AllocError> {
        Ok(Node {
            name: self.name.clone()?,
            listens: copy_listens(&self.listens)?,
            max_pdu: self.max_pdu,
            accepts: copy_accepts(&self.accepts)?,
            rules: copy_rules(&self.rules)?,
        })
    }
}

/// The format of a plan's text, which is also the version of its certificate's text. From format 2
/// on a rule or a flow may name stations by what they begin with, and in format 3 modalities too.
/// In format 3 a text may have names and lists that are put right before it is read as a plan, and
/// a node may listen nowhere, or elsewhere than others reach it.
#[derive(Clone, Copy, PartialEq, Eq, Debug)]
pub enum Format {
    One,
    Two,
    Three,
}

/// The values of one field, modality or station, that a flow speaks of.
#[derive(Clone, Debug, Drop)]
pub enum Values {
    /// Any value; it is written `*`.
    Any,
    Listed(FieldValues),
}

/// What enters at a node itself, and the node that it goes to first.
#[derive(Clone, Debug, Drop)]
pub struct Flow {
    pub at: Text,
    pub to: Text,
    pub classes: Seq<Text>,
    pub syntaxes: Seq<Syntax>,
    pub modalities: Values,
    pub stations: Values,
}

/// A plan. Its names are names of its nodes, its literals are printable, it keeps the limits of
/// plans, it names no prefix that its format doesn't have, and before format 3 each node listens
/// where others reach it. What its flows list is kept as sets too, in which a value is found sooner
/// than in a list.
#[derive(Debug, Drop)]
pub struct Plan {
    format: Format,
    nodes: Seq<Node>,
    flows: Seq<Flow>,
    listed: Seq<Listed>,
    digest: [u8; 32],
}

impl Model for Plan {
    ghost use Rattle.dr_plan_model.specs.Networks.{Network};

    ghost Value = { Network };

    ghost use Rattle.dr_plan_model.specs.Formed.{AreWellFormed};
    ghost use Rattle.dr_plan_model.specs.Listings.{AreListedBy};

    ghost view = { λ p.
        record { format = p.format; nodes = p.nodes; flows = p.flows; digest = p.digest } };

    ghost invariant = { λ p.
        AreWellFormed p.format p.nodes p.flows × AreListedBy p.flows p.listed };
}

fn copy_nodes(nodes: &Seq<Node>) -> Result<Seq<Node>, AllocError>
    ensures { IfOk result (λ copy. copy ≡ nodes.now) }
{
    let copy = nodes.clone()?;
    Ok(copy)
}

fn copy_listed(listed: &Seq<Listed>) -> Result<Seq<Listed>, AllocError>
    ensures { IfOk result (λ copy. copy ≡ listed.now) }
{
    let copy = listed.clone()?;
    Ok(copy)
}

impl Plan {
    /// The plan of these nodes and flows, whose text is of this format and has this SHA-256.
    /// Without flows it takes no memory.
    pub fn new(
        alloc: Global,
        format: Format,
        nodes: Seq<Node>,
        flows: Seq<Flow>,
        digest: [u8; 32],
    ) -> Result<Plan, AllocError>
        requires { AreWellFormed format nodes flows }
        ensures plan { IfOk result (λ plan.
            plan ≡ record { format = format; nodes = nodes; flows = flows; digest = digest }) }
        ensures memory { OnErr result (flows ≢ []) }
    {
        let listed = all_listed(alloc, flows.as_slice())?;
        Ok(Plan {
            format,
            nodes,
            flows,
            listed,
            digest,
        })
    }

    /// A copy of it.
    pub fn copy(&self) -> Result<Plan, AllocError>
        ensures { IfOk result (λ plan. plan ≡ self.now) }
    {
        let nodes = copy_nodes(&self.nodes)?;
        let flows = copy_flows(&self.flows)?;
        let listed = copy_listed(&self.listed)?;
        Ok(Plan {
            format: self.format,
            nodes,
            flows,
            listed,
            digest: self.digest,
        })
    }

    /// The format of its text.
    pub fn format(&self) -> Format
        ensures { result ≡ self.now.format }
    {
        self.format
    }

    /// Its nodes, in the order of its text.
    pub fn nodes(&self) -> &[Node]
        ensures same { result.now ≡ self.now.nodes }
        ensures well_formed { IsWellFormed self.now }
    {
        self.nodes.as_slice()
    }

    /// Its flows, in the order of its text.
    pub fn flows(&self) -> &[Flow]
        ensures same { result.now ≡ self.now.flows }
        ensures well_formed { IsWellFormed self.now }
    {
        self.flows.as_slice()
    }

    /// What its flows list, in the order of its text.
    pub fn listed(&self) -> &[Listed]
        ensures { AreListedBy self.now.flows result.now }
    {
        self.listed.as_slice()
    }

    /// The SHA-256 of its text.
    pub fn digest(&self) -> &[u8; 32]
        ensures { result.now ≡ self.now.digest }
    {
        &self.digest
    }

    /// The node of that name, and None for a stranger.
    pub fn node(&self, name: &Text) -> Option<&Node>
        ensures { MatchOption result (NamesNoNode self.now name.now) (λ node.
            IsTheNode self.now name.now node.now) }
    {
        for node in self.nodes.as_slice() {
            if node.name == *name {
                return Some(node);
            }
        }
        None
    }
}
