//! Where nodes listen.
ghost use Rattle.std.specs.Prelude.{◌≡◌, ◌↔◌, IfOk, IsTrue, MatchOption, None, Some};
ghost use Rattle.dr_plan_model.specs.Listening.{AtItsAddress, address_of, door_of};

use dr_base::Text;
use std::alloc::AllocError;

/// Where a node listens.
#[derive(Debug, Drop)]
pub enum Listens {
    /// Nowhere: it only calls.
    Nowhere,
    /// At an address by which others reach it; where another one is given too, it binds to that.
    At { address: Text, bind: Option<Text> },
}

/// A copy of an address, if there is one.
fn copy_bind(bind: &Option<Text>) -> Result<Option<Text>, AllocError>
    ensures { IfOk result (λ copy. copy ≡ bind.now) }
{
    match bind {
        Some(address) => Ok(Some(address.clone()?)),
        None => Ok(None),
    }
}

impl Clone for Listens {
    ghost use Rattle.std.specs.Prelude.{◌≡◌};

    ghost is_clone = { λ listens copy. copy ≡ listens };

    fn clone(&self) -> Result<Listens, AllocError> {
        match self {
            Listens::Nowhere => Ok(Listens::Nowhere),
            Listens::At { address, bind } => Ok(Listens::At {
                address: address.clone()?,
                bind: copy_bind(bind)?,
            }),
        }
    }
}

impl Listens {
    /// The address by which others reach it.
    pub fn address(&self) -> Option<&Text>
        ensures { MatchOption result (address_of self.now ≡ None) (λ address.
            address_of self.now ≡ Some address.now) }
    {
        match self {
            Listens::Nowhere => None,
            Listens::At { address, .. } => Some(address),
        }
    }

    /// The address to which it binds.
    pub fn door(&self) -> Option<&Text>
        ensures { MatchOption result (door_of self.now ≡ None) (λ address.
            door_of self.now ≡ Some address.now) }
    {
        match self {
            Listens::Nowhere => None,
            Listens::At { address, bind } => match bind {
                Some(own) => Some(own),
                None => Some(address),
            },
        }
    }

    /// Whether it listens, and where others reach it.
    pub fn is_at_its_address(&self) -> bool
        ensures { IsTrue result ↔ AtItsAddress self.now }
    {
        match self {
            Listens::Nowhere => false,
            Listens::At { bind, .. } => bind.is_none(),
        }
    }
}

/// A copy of where a node listens. It fails for want of memory alone.
pub fn copy_listens(listens: &Listens) -> Result<Listens, AllocError>
    ensures { IfOk result (λ copy. copy ≡ listens.now) }
{
    let copy = listens.clone()?;
    Ok(copy)
}
