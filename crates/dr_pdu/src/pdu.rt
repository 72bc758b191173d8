//! The protocol data units of the DICOM upper layer (PS3.8 section 9.3), as values.
use dr_base::{Octets, Seq, Text};

/// One protocol data unit.
#[derive(Debug, Drop)]
pub enum Pdu {
    /// A-ASSOCIATE-RQ (9.3.2).
    AssociateRq(AssociateRq),
    /// A-ASSOCIATE-AC (9.3.3).
    AssociateAc(AssociateAc),
    /// A-ASSOCIATE-RJ (9.3.4).
    AssociateRj(AssociateRj),
    /// P-DATA-TF (9.3.5), with its presentation data values in order, or none.
    Transfer(Seq<Pdv>),
    /// A-RELEASE-RQ (9.3.6).
    ReleaseRq,
    /// A-RELEASE-RP (9.3.7).
    ReleaseRp,
    /// A-ABORT (9.3.8).
    Abort(Abort),
}

/// A presentation data value (9.3.5.1): a fragment of a command or of a data set.
#[derive(Debug, Drop)]
pub struct Pdv {
    /// The presentation context.
    pub id: u8,
    /// The message control header (Annex E.2): bit 0 is set for a command, bit 1 for the last
    /// fragment.
    pub header: u8,
    /// The fragment's bytes.
    pub fragment: Octets,
}

/// An association that is asked for.
pub type AssociateRq = Association<ContextProposal>;

/// An association that is agreed on.
pub type AssociateAc = Association<ContextAnswer>;

/// An association, with a `C` for each presentation context: what is proposed, or what is answered.
#[derive(Debug, Drop)]
pub struct Association<C> {
    /// Versions, titles and reserved bytes.
    pub front: Front,
    /// The application context name (9.3.2.1).
    pub application: Text,
    /// The presentation contexts, in the order of their items.
    pub contexts: Seq<C>,
    /// The greatest length field, in bytes, of a P-DATA-TF that the sender of this PDU takes (Annex
    /// D.1); 0 is no limit.
    pub max_pdu: u32,
}

/// What stands in front of the items of an association's PDU.
#[derive(Debug, Drop)]
pub struct Front {
    /// The protocol version; bit 0 is version 1.
    pub version: u16,
    /// The called application entity's title, without its padding.
    pub called: Text,
    /// The calling application entity's title, without its padding.
    pub calling: Text,
    /// The 32 reserved bytes, which an acceptor sends back.
    pub reserved: Octets,
}

/// A presentation context that is proposed (9.3.2.2).
#[derive(Debug, Drop)]
pub struct ContextProposal {
    /// The presentation context id.
    pub id: u8,
    /// The abstract syntax: the UID of a service object pair class.
    pub class: Text,
    /// The transfer syntaxes, in the proposer's order.
    pub syntaxes: Seq<Text>,
}

/// A presentation context that is answered (9.3.3.2).
#[derive(Debug, Drop)]
pub struct ContextAnswer {
    /// The presentation context id.
    pub id: u8,
    /// 0 for acceptance; 1 to 4 say why the context is refused.
    pub result: u8,
    /// The transfer syntax, empty where the context is refused.
    pub syntax: Text,
}

/// A rejection (9.3.4), with its numbers as they stand.
#[derive(Clone, Copy, Debug, PartialEq, Eq)]
pub struct AssociateRj {
    /// 1 permanent, 2 transient.
    pub result: u8,
    /// 1 the user, 2 the provider's association control, 3 the provider's presentation layer.
    pub source: u8,
    /// The reason, whose meaning depends on the source.
    pub reason: u8,
}

/// An abort (9.3.8), with its numbers as they stand.
#[derive(Clone, Copy, Debug, PartialEq, Eq)]
pub struct Abort {
    /// 0 the user, 2 the provider.
    pub source: u8,
    /// Why the provider aborts.
    pub reason: u8,
}
