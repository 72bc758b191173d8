//! The site of a node.
ghost use Rattle.std.specs.Prelude.{◌≡◌, ◌↔◌, IfOk, IsTrue, MatchBool, Contains};
ghost use Rattle.dr_base.specs.Texts.{Text as Words, IsInByteOrder};
ghost use Rattle.dr_plan_model.specs.Plans.{IsTheNode};
ghost use Rattle.dr_plan_sound.specs.declared.certificate.Hop.{Hop as HopValue};
ghost use Rattle.dr_site.specs.Routing.{HasLineFor, SendsFrom, KeepsAt};
ghost use Rattle.dr_site.specs.Parts.{Part, IsPartOf, IsHopTo, hops_to};
ghost use Rattle.dr_site.specs.Sites.{IsCertified, IsSite, IsSiteOf};

use crate::rows::{flows_at, has_hop, hops_ending_at, hops_from, lines_of};
use dr_base::heap::boxed;
use dr_base::same::{Same, are_same};
use dr_base::{Seq, Text};
use dr_cert::Sealed;
use dr_cert::index::{find, index_of};
use dr_cert::place::StopPlace;
use dr_plan_model::copies::{copy_accepts, copy_flows, copy_rules};
use dr_plan_model::literals::literals;
use dr_plan_model::sending::flow_targets;
use dr_plan_model::{Flow, Node, Plan};
use dr_plan_sound::copies::{copy_hops, copy_lines};
use dr_plan_sound::{Certificate, Hop, Line};
use dr_route::copies::copy_literals;
use dr_route::routing::targets;
use dr_route::{AcceptRow, Key, Literals, Rule, Targets, cell_of, is_local};
use std::alloc::{AllocError, Global};
use std::marker::Model;
use thiserror::Error;

/// Why there is no site.
#[derive(Clone, Copy, PartialEq, Eq, Debug, Error)]
pub enum SiteFault {
    /// No node of the plan has the name.
    #[error("NoNode")]
    NoNode,
    #[error("Memory")]
    Memory,
}

impl From<AllocError> for SiteFault {
    ghost use Rattle.std.specs.Prelude.{◌≡◌};
    ghost use Rattle.dr_site.specs.declared.site.SiteFault.TheVariants.{Memory};

    ghost from_gives = { λ _ e. e ≡ Memory };

    fn from(_: AllocError) -> SiteFault {
        SiteFault::Memory
    }
}

/// The parts of a site, as they are kept.
#[derive(Drop)]
struct SiteParts {
    name: Text,
    max_pdu: u32,
    digest: [u8; 32],
    rules: Seq<Rule>,
    accepts: Seq<AcceptRow>,
    flows: Seq<Flow>,
    lines: Vec<Line>,
    hops: Seq<Hop>,
    literals: Literals,
}

/// What one node works by: its part of a sound plan and of the plan's certificate. It has the
/// node's name, the greatest length of the P-DATA-TF PDUs that it takes (bytes; 0 is no limit), the
/// plan's SHA-256, its own rules, accept rows and flows, its own lines and the hops that begin at
/// it, and the literals of the whole plan, by which the cell of a key is found. It moves as a
/// pointer.
#[derive(Drop)]
pub struct Site {
    parts: Box<SiteParts>,
}

impl Model for Site {
    ghost use Rattle.dr_site.specs.Parts.{Part};
    ghost use Rattle.dr_site.specs.Sites.{IsSite};

    ghost Value = { Part };

    ghost view = { λ s. record {
      name = s.parts.value.name;
      max_pdu = s.parts.value.max_pdu;
      digest = s.parts.value.digest;
      rules = s.parts.value.rules;
      accepts = s.parts.value.accepts;
      flows = s.parts.value.flows;
      lines = s.parts.value.lines.items;
      hops = s.parts.value.hops;
      literals = s.parts.value.literals;
    } };

    ghost invariant = { λ s. IsSite
        (record {
          name = s.parts.value.name;
          max_pdu = s.parts.value.max_pdu;
          digest = s.parts.value.digest;
          rules = s.parts.value.rules;
          accepts = s.parts.value.accepts;
          flows = s.parts.value.flows;
          lines = s.parts.value.lines.items;
          hops = s.parts.value.hops;
          literals = s.parts.value.literals;
        }) };
}

impl Site {
    /// The site of the node of that name in a sealed plan.
    ///
    /// Errors: NoNode where the plan has no such node, whatever memory there is; Memory.
    pub fn of(alloc: Global, sealed: &Sealed, name: &Text) -> Result<Site, SiteFault>
        ensures { IsSiteOf sealed.now.plan sealed.now.certificate name.now result }
    {
        Site::of_part(alloc, sealed.plan(), sealed.certificate(), name)
    }

    /// The site of the node of that name, of a sound plan with its certificate.
    fn of_part(
        alloc: Global,
        plan: &Plan,
        certificate: &Certificate,
        name: &Text,
    ) -> Result<Site, SiteFault>
        requires { IsCertified plan.now certificate.now }
        ensures { IsSiteOf plan.now certificate.now name.now result }
    {
        let Some(node) = plan.node(name) else {
            return Err(SiteFault::NoNode);
        };
        let site = Site::of_node(alloc, plan, certificate, name, node)?;
        Ok(site)
    }

    /// The site of that node, of a sound plan with its certificate.
    fn of_node(
        alloc: Global,
        plan: &Plan,
        certificate: &Certificate,
        name: &Text,
        node: &Node,
    ) -> Result<Site, AllocError>
        requires certified { IsCertified plan.now certificate.now }
        requires node { IsTheNode plan.now name.now node.now }
        ensures { IfOk result (λ s.
            (s.name ≡ name.now) × IsPartOf plan.now certificate.now s) }
    {
        let rules = copy_rules(&node.rules)?;
        let accepts = copy_accepts(&node.accepts)?;
        let flows = flows_at(alloc, plan.flows(), name)?;
        let own = lines_of(alloc, certificate.lines.as_slice(), name)?;
        let lines = index_of(alloc, own.as_slice())?;
        let hops = hops_from(alloc, certificate.hops.as_slice(), name)?;
        let literals = literals(alloc, plan)?;
        let parts = SiteParts {
            name: name.clone()?,
            max_pdu: node.max_pdu,
            digest: *plan.digest(),
            rules,
            accepts,
            flows,
            lines,
            hops,
            literals,
        };
        let site = Site::of_parts(alloc, parts)?;
        Ok(site)
    }

    /// The site of these parts, on the heap.
    fn of_parts(alloc: Global, parts: SiteParts) -> Result<Site, AllocError>
        requires { IsSite
            (record {
              name = parts.name;
              max_pdu = parts.max_pdu;
              digest = parts.digest;
              rules = parts.rules;
              accepts = parts.accepts;
              flows = parts.flows;
              lines = parts.lines.items;
              hops = parts.hops;
              literals = parts.literals;
            }) }
        ensures { IfOk result (λ s. s
            ≡ record {
              name = parts.name;
              max_pdu = parts.max_pdu;
              digest = parts.digest;
              rules = parts.rules;
              accepts = parts.accepts;
              flows = parts.flows;
              lines = parts.lines.items;
              hops = parts.hops;
              literals = parts.literals;
            }) }
    {
        let parts = boxed(alloc, parts)?;
        Ok(Site { parts })
    }

    /// The name of its node.
    pub fn name(&self) -> &Text
        ensures { result.now ≡ self.now.name }
    {
        &self.parts.as_ref().name
    }

    /// The greatest length of the P-DATA-TF PDUs that its node takes, in bytes; 0 is no limit.
    pub fn max_pdu(&self) -> u32
        ensures { result ≡ self.now.max_pdu }
    {
        self.parts.as_ref().max_pdu
    }

    /// The SHA-256 of the plan's text.
    pub fn digest(&self) -> &[u8; 32]
        ensures { result.now ≡ self.now.digest }
    {
        &self.parts.as_ref().digest
    }

    /// Its node's rules, in the order of the plan's text.
    pub fn rules(&self) -> &[Rule]
        ensures { result.now ≡ self.now.rules }
    {
        self.parts.as_ref().rules.as_slice()
    }

    /// Its node's accept rows, in the order of the plan's text.
    pub fn accepts(&self) -> &[AcceptRow]
        ensures same { result.now ≡ self.now.accepts }
        ensures site { IsSite self.now }
    {
        self.parts.as_ref().accepts.as_slice()
    }

    /// The flows that enter at its node, in the order of the plan's text.
    pub fn flows(&self) -> &[Flow]
        ensures { result.now ≡ self.now.flows }
    {
        self.parts.as_ref().flows.as_slice()
    }

    /// The certificate's lines of its node, in the order of their stops.
    pub fn lines(&self) -> &[Line]
        ensures { result.now ≡ self.now.lines }
    {
        self.parts.as_ref().lines.as_slice()
    }

    /// The presentation contexts of the hops that begin at its node, by their ids.
    pub fn hops(&self) -> &[Hop]
        ensures same { result.now ≡ self.now.hops }
        ensures site { IsSite self.now }
    {
        self.parts.as_ref().hops.as_slice()
    }

    /// The presentation contexts of its node's hop to that node, by their ids (1, 3, 5 and so on);
    /// none where it has no such hop.
    pub fn hops_to(&self, alloc: Global, dest: &Text) -> Result<Seq<Hop>, AllocError>
        ensures hops { IfOk result (λ s. s ≡ hops_to self.now dest.now) }
        ensures site { IsSite self.now }
    {
        let hops = hops_ending_at(alloc, self.parts.as_ref().hops.as_slice(), dest)?;
        Ok(hops)
    }

    /// Whether its node has a hop to that node. It takes no memory.
    pub fn has_hop(&self, dest: &Text) -> bool
        ensures { MatchBool result ((hop : HopValue) × IsHopTo self.now dest.now hop)
            ((hop : HopValue) → IsHopTo self.now dest.now hop → ⊥) }
    {
        has_hop(self.parts.as_ref().hops.as_slice(), dest)
    }

    /// Whether the certificate has a line for what the caller brings to this node with that key. It
    /// takes no memory.
    pub fn has_line(&self, caller: &Text, key: &Key) -> bool
        ensures { IsTrue result ↔ HasLineFor self.now caller.now key.now }
    {
        let parts = self.parts.as_ref();
        let stop = StopPlace::new(caller, &parts.name, cell_of(&parts.literals, key));
        let Some(_) = find(parts.lines.as_slice(), &stop) else {
            return false;
        };
        true
    }

    /// What the node does with the key that it has from the caller: the nodes that it sends it to,
    /// in byte order and each once, and whether it keeps it. What enters at the node itself has the
    /// caller `-`; it goes by the node's flows and isn't kept.
    pub fn targets(&self, alloc: Global, caller: &Text, key: &Key) -> Result<Targets, AllocError>
        ensures to { IfOk result (λ t.
            (to : Words) → Contains t.to to ↔ SendsFrom self.now caller.now key.now to) }
        ensures ordered { IfOk result (λ t. IsInByteOrder t.to) }
        ensures keep { IfOk result (λ t. IsTrue t.keep ↔ KeepsAt self.now caller.now key.now) }
    {
        let parts = self.parts.as_ref();
        if is_local(caller) {
            let to = flow_targets(alloc, parts.flows.as_slice(), &parts.name, key)?;
            return Ok(Targets { to, keep: false });
        }
        let targets = targets(alloc, parts.rules.as_slice(), caller, key)?;
        Ok(targets)
    }

    /// Whether the other is the same site, part by part. It takes no memory.
    pub fn is_same(&self, other: &Site) -> bool
        ensures { IsTrue result ↔ (self.now ≡ other.now) }
    {
        let own = self.parts.as_ref();
        let other = other.parts.as_ref();
        own.max_pdu == other.max_pdu
            && own.digest == other.digest
            && own.name.is_same(&other.name)
            && are_same(own.rules.as_slice(), other.rules.as_slice())
            && are_same(own.accepts.as_slice(), other.accepts.as_slice())
            && are_same(own.flows.as_slice(), other.flows.as_slice())
            && are_same(own.lines.as_slice(), other.lines.as_slice())
            && are_same(own.hops.as_slice(), other.hops.as_slice())
            && own.literals.is_same(&other.literals)
    }

    /// Another one, equal to it.
    pub fn copy(&self) -> Result<Site, AllocError>
        ensures { IfOk result (λ s. s ≡ self.now) }
    {
        let own = self.parts.as_ref();
        let parts = SiteParts {
            name: own.name.clone()?,
            max_pdu: own.max_pdu,
            digest: own.digest,
            rules: copy_rules(&own.rules)?,
            accepts: copy_accepts(&own.accepts)?,
            flows: copy_flows(&own.flows)?,
            lines: copy_lines(&own.lines)?,
            hops: copy_hops(&own.hops)?,
            literals: copy_literals(&own.literals)?,
        };
        let parts = boxed(*Box::allocator(&self.parts), parts)?;
        Ok(Site { parts })
    }
}
