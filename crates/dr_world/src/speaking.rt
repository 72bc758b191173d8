//! What another maker's product writes for what it is told to do.
ghost use Rattle.std.specs.Prelude.{◌≡◌, ◌↔◌, ◌++◌, Contains, IfOk, IsTrue, option_copied};
ghost use Rattle.dr_ledger.specs.Items.{IsItem};
ghost use Rattle.dr_nego.specs.Fragments.{spellings};
ghost use Rattle.dr_world.specs.Nodes.{seats_of};
ghost use Rattle.dr_world.specs.Orders.{agreed_at, answer_pdus, asked_at, context_in};
ghost use Rattle.dr_world.specs.Orders.{response_pdus, storing_pdus};

use dr_base::{Octets, Seq, Text};
use dr_dimse::{Command, write_command};
use dr_ledger::{Item, Job, Ledger};
use dr_nego::{Agreed, FragmentKind, put_fragments};
use dr_node::Node;
use dr_session::Pending;
use std::alloc::{AllocError, Global};
use std::collections::BTreeMap;

/// The greatest length field, in bytes, of the P-DATA-TF PDUs that are written: each node of a plan
/// takes as much.
const LIMIT: u32 = 1_024;

/// The message id of a store.
const STORE_ID: u16 = 1;

/// Whether the name is one of these.
pub fn is_among(names: &[Text], name: &Text) -> bool
    ensures { IsTrue result ↔ Contains names.now name.now }
{
    names.contains(name)
}

/// What the node of that name has agreed on at a link.
fn agreed_at<'a, L: Ledger>(
    nodes: &'a BTreeMap<Text, Node<L>>,
    name: &Text,
    link: u64,
) -> Option<&'a Agreed>
    ensures { option_copied result ≡ agreed_at link (seats_of nodes.now name.now) }
{
    let Some(node) = nodes.get(name) else {
        return None;
    };
    let Some(side) = node.side(link) else {
        return None;
    };
    side.end.agreed()
}

/// The request whose response the node of that name awaits at a link.
pub fn asked_at<'a, L: Ledger>(
    nodes: &'a BTreeMap<Text, Node<L>>,
    name: &Text,
    link: u64,
) -> Option<&'a Pending>
    ensures { option_copied result ≡ asked_at link (seats_of nodes.now name.now) }
{
    let Some(node) = nodes.get(name) else {
        return None;
    };
    let Some(side) = node.side(link) else {
        return None;
    };
    side.end.asked()
}

/// The presentation context that the node of that name has accepted at a link for the item's class
/// and transfer syntax.
pub fn context_at<L: Ledger>(
    nodes: &BTreeMap<Text, Node<L>>,
    name: &Text,
    link: u64,
    item: &Item,
) -> Option<u8>
    ensures { result ≡ context_in (agreed_at link (seats_of nodes.now name.now)) item.now }
{
    let Some(agreed) = agreed_at(nodes, name, link) else {
        return None;
    };
    agreed.context_for(&item.key().class, item.key().syntax)
}

/// What is there, and behind it a C-STORE-RQ with the data set of an item, in that context.
pub fn store_text(
    alloc: Global,
    front: &[u8],
    context: u8,
    item: &Item,
) -> Result<Octets, AllocError>
    ensures { IfOk result (λ bytes.
        bytes ≡ front.now ++ spellings (storing_pdus context item.now)) }
{
    let job = item.copy()?.into_job();
    let bytes = job_text(alloc, context, &job)?;
    let all = join(alloc, front, &bytes)?;
    Ok(all)
}

/// What is there, and these bytes behind it.
fn join(alloc: Global, front: &[u8], bytes: &Octets) -> Result<Octets, AllocError>
    ensures { IfOk result (λ all. all ≡ front.now ++ bytes.now) }
{
    let mut out = Vec::new(alloc);
    out.extend_from_slice(front)?;
    out.extend_from_slice(bytes.as_bytes())?;
    Ok(Octets::from_vec(out))
}

/// The same of what an item is made of.
fn job_text(alloc: Global, context: u8, job: &Job) -> Result<Octets, AllocError>
    requires { IsItem job.now }
    ensures { IfOk result (λ bytes. bytes ≡ spellings (storing_pdus context job.now)) }
{
    let command = Command::StoreRq {
        id: STORE_ID,
        class: job.key.class.clone()?,
        instance: job.uid.clone()?,
    };
    let text = write_command(alloc, &command)?;
    let terms = within(alloc);
    let mut out = Vec::new(alloc);
    put_fragments(&mut out, &terms, context, FragmentKind::Command, &text)?;
    put_fragments(
        &mut out,
        &terms,
        context,
        FragmentKind::DataSet,
        job.body.as_bytes(),
    )?;
    Ok(Octets::from_vec(out))
}

/// What is there, and behind it a C-STORE-RSP with that status to the request that is awaited so.
pub fn answer_text(
    alloc: Global,
    front: &[u8],
    asked: &Pending,
    status: u16,
) -> Result<Octets, AllocError>
    ensures { IfOk result (λ bytes.
        bytes ≡ front.now ++ spellings (answer_pdus asked.now status)) }
{
    let bytes = response_text(alloc, asked.context, asked.id, status)?;
    let all = join(alloc, front, &bytes)?;
    Ok(all)
}

/// A response to the request of that message id in that context, with that status.
fn response_text(alloc: Global, context: u8, to: u16, status: u16) -> Result<Octets, AllocError>
    ensures { IfOk result (λ bytes. bytes ≡ spellings (response_pdus context to status)) }
{
    let command = Command::StoreRsp {
        to,
        status,
        class: Text::from_vec(Vec::new(alloc)),
        instance: Text::from_vec(Vec::new(alloc)),
        has_data: false,
    };
    let text = write_command(alloc, &command)?;
    let terms = within(alloc);
    let mut out = Vec::new(alloc);
    put_fragments(&mut out, &terms, context, FragmentKind::Command, &text)?;
    Ok(Octets::from_vec(out))
}

/// Terms whose limit each node keeps to.
fn within(alloc: Global) -> Agreed
    ensures { result.limit ≡ 1024 }
{
    Agreed {
        pairs: Seq::new(alloc),
        limit: LIMIT,
    }
}
