//! The associations that are open, for whoever asks the node for them.
use dr_base::Text;
use dr_ledger::{Arrived, LedgerFault};
use dr_run_answer::OpenAssociation;
use std::alloc::{AllocError, Global};
use std::net::SocketAddr;
use std::sync::{Mutex, Wait};

/// The associations that were accepted and aren't over, and the connections on which none was
/// accepted yet, each under a lock of its own.
#[derive(Drop)]
pub struct Open {
    alloc: Global,
    all: Mutex<Vec<OpenAssociation>>,
    coming: Mutex<Vec<Coming>>,
}

/// A connection that came: the number of its session, and from which address it comes.
#[derive(Drop)]
struct Coming {
    session: u64,
    address: Text,
}

/// The address of a peer, empty where the system doesn't tell it.
///
/// Errors: want of memory.
fn address_of(alloc: Global, peer: Option<SocketAddr>) -> Result<Text, AllocError> {
    match peer {
        Some(address) => {
            let words = format!(in alloc; "{address}")?;
            Ok(Text::from_vec(words.into_bytes()))
        }
        None => Ok(Text::empty(alloc)),
    }
}

/// One that has just begun.
///
/// Errors: want of memory.
fn begun(
    alloc: Global,
    session: u64,
    caller: &[u8],
    address: Text,
    since: u64,
) -> Result<OpenAssociation, AllocError> {
    Ok(OpenAssociation {
        caller: Text::copy_of(alloc, caller)?,
        address,
        session,
        since,
        stored: 0,
        again: 0,
        refused: 0,
    })
}

/// Counts an instance that came over it.
fn count(association: &mut OpenAssociation, answer: Result<Arrived, LedgerFault>) {
    match answer {
        Ok(Arrived::New) => association.stored = association.stored.saturating_add(1),
        Ok(Arrived::Again) => association.again = association.again.saturating_add(1),
        Err(_) => association.refused = association.refused.saturating_add(1),
    }
}

/// A copy of it.
///
/// Errors: want of memory.
fn copy_of(association: &OpenAssociation) -> Result<OpenAssociation, AllocError> {
    Ok(OpenAssociation {
        caller: association.caller.clone()?,
        address: association.address.clone()?,
        session: association.session,
        since: association.since,
        stored: association.stored,
        again: association.again,
        refused: association.refused,
    })
}

impl Open {
    /// None is open.
    pub fn new(alloc: Global) -> Open {
        Open {
            alloc,
            all: Mutex::new(Vec::new(alloc)),
            coming: Mutex::new(Vec::new(alloc)),
        }
    }

    /// A connection came, of that session. Where there is no memory for it, its address isn't
    /// shown.
    pub fn came<R: Wait>(&self, rt: &R, session: u64, peer: Option<SocketAddr>) {
        if let Ok(address) = address_of(self.alloc, peer) {
            let _noted = self.coming.lock(rt).push(Coming { session, address });
        }
    }

    /// The address from which the connection of that session comes, if it is noted; it isn't any
    /// more.
    fn take_address<R: Wait>(&self, rt: &R, session: u64) -> Option<Text> {
        let mut coming = self.coming.lock(rt);
        match coming.iter().position(|one| one.session == session) {
            Some(place) => {
                let Coming { address, .. } = coming.swap_remove(place);
                Some(address)
            }
            None => None,
        }
    }

    /// One more is open, of that session. Where there is no memory for it, it isn't shown.
    pub fn begin<R: Wait>(&self, rt: &R, session: u64, caller: &[u8], since: u64) {
        let address = match self.take_address(rt, session) {
            Some(address) => address,
            None => Text::empty(self.alloc),
        };
        if let Ok(association) = begun(self.alloc, session, caller, address, since) {
            let _noted = self.all.lock(rt).push(association);
        }
    }

    /// An instance came over that of the session, and was answered.
    pub fn note<R: Wait>(&self, rt: &R, session: u64, answer: Result<Arrived, LedgerFault>) {
        let mut all = self.all.lock(rt);
        for association in all.iter_mut() {
            if association.session == session {
                count(association, answer);
            }
        }
    }

    /// That of the session is over, or none was accepted.
    pub fn end<R: Wait>(&self, rt: &R, session: u64) {
        drop(self.take_address(rt, session));
        self.all
            .lock(rt)
            .retain(|association| association.session != session);
    }

    /// Those that are open, as they are at this moment.
    ///
    /// Errors: want of memory.
    pub fn shown<R: Wait>(
        &self,
        rt: &R,
        alloc: Global,
    ) -> Result<Vec<OpenAssociation>, AllocError> {
        let all = self.all.lock(rt);
        let mut shown = Vec::with_capacity(alloc, all.len())?;
        for association in all.iter() {
            shown.push(copy_of(association)?)?;
        }
        Ok(shown)
    }
}
