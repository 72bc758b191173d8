//! The PDUs of the DICOM upper layer (PS3.8 section 9.3): as values, and as bytes.
//!
//! `specs/Grammar.antt` relates texts to the PDUs that they spell, and says which fault a text
//! shows; `decode` answers just that. `specs/Written.antt` has the one spelling that `encode`
//! writes. `specs/Feeding.antt` says what a `Feeder` makes of a stream in pieces. `laws` has what
//! follows from the definitions, and `figures` worked figures of them.
#![tactic(auto)]

mod associate;
mod contexts;
mod decoder;
mod encoder;
mod fault;
mod feeder;
pub mod figures;
mod items;
pub mod laws;
mod lengths;
mod pdu;
mod pdvs;

pub use decoder::decode;
pub use encoder::{encode, put, put_fragment};
pub use fault::PduFault;
pub use feeder::Feeder;
pub use lengths::fits;
pub use pdu::{
    Abort, AssociateAc, AssociateRj, AssociateRq, Association, ContextAnswer, ContextProposal,
    Front, Pdu, Pdv,
};
