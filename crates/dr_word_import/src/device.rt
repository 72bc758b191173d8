//! Devices, as a row of the table has them.
ghost use Rattle.std.specs.Prelude.{◌≡◌};
ghost use Rattle.dr_word_import.specs.Tables.{is_keeper, is_router, is_scanner, set_of};

use dr_base::Text;

/// What a device is for.
#[derive(Clone, Copy, PartialEq, Eq, Debug)]
pub enum Role {
    /// It sends.
    Scanner,
    /// It keeps what it is sent: an archive or a workstation.
    Keeper,
    /// It is our gate.
    Router,
}

/// What devices of a modality usually send.
#[derive(Clone, Copy, PartialEq, Eq)]
pub enum Usual {
    Ct,
    Mr,
    Us,
    Xa,
    Mg,
    /// Images of any kind.
    Images,
}

/// A device of the table: its AE title, where it listens, which is nowhere where it only calls,
/// what it is for, and what it sends.
#[derive(Drop)]
pub struct Device {
    pub name: Text,
    pub address: Option<Text>,
    pub role: Role,
    pub sends: Usual,
}

impl Role {
    pub fn is_scanner(self) -> bool
        ensures { result ≡ is_scanner self }
    {
        match self {
            Role::Scanner => true,
            Role::Keeper => false,
            Role::Router => false,
        }
    }

    pub fn is_keeper(self) -> bool
        ensures { result ≡ is_keeper self }
    {
        match self {
            Role::Scanner => false,
            Role::Keeper => true,
            Role::Router => false,
        }
    }

    pub fn is_router(self) -> bool
        ensures { result ≡ is_router self }
    {
        match self {
            Role::Scanner => false,
            Role::Keeper => false,
            Role::Router => true,
        }
    }
}

impl Usual {
    /// The plan's word for it.
    pub fn set(self) -> &'static [u8]
        ensures { result.now ≡ set_of self }
    {
        match self {
            Usual::Ct => b"@ct",
            Usual::Mr => b"@mr",
            Usual::Us => b"@us",
            Usual::Xa => b"@xa",
            Usual::Mg => b"@mg",
            Usual::Images => b"@all-images",
        }
    }
}
