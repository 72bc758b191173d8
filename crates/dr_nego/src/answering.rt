//! What an acceptor goes by, and its answers.
use crate::agreed::Agreed;
use dr_pdu::AssociateAc;
use dr_site::Site;

/// What an acceptor goes by: its node's title, accept rows and greatest length.
#[derive(Clone, Copy)]
pub struct Policy<'a> {
    pub site: &'a Site,
}

/// What a request is answered.
#[derive(Debug, Drop)]
pub enum Answer {
    Accept(AssociateAc, Agreed),
    /// Result, source and reason (PS3.8 9.3.4).
    Reject(u8, u8, u8),
    /// A greatest length of 1 to 7, which no fragment fits: the acceptor aborts.
    TooSmall,
}
