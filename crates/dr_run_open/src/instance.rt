//! The instance in a Part 10 file.
ghost use Rattle.std.specs.Prelude.{◌≡◌};
ghost use Rattle.dr_run_open.specs.Instances.{ReadsInstance, instance_status};

use crate::status::Status;
use dr_base::Text;
use dr_dataset::FileFault;
use dr_dataset::file::part10;
use dr_ledger::{Item, ItemFault};
use std::alloc::{AllocError, Global};
use thiserror::Error;

/// Why a file has no instance.
#[derive(Clone, Copy, PartialEq, Eq, Debug, Error)]
pub enum InstanceFault {
    /// It is no Part 10 file.
    #[error("{0}")]
    NoFile(FileFault),
    /// Its data set is no instance.
    #[error("{0}")]
    NoItem(ItemFault),
}

impl InstanceFault {
    /// The status with which the program ends, where it is told.
    pub fn status(self) -> Status
        ensures { result ≡ instance_status self }
    {
        match self {
            InstanceFault::NoFile(FileFault::Memory) | InstanceFault::NoItem(ItemFault::Memory) => {
                Status::Memory
            }
            _ => Status::Refused,
        }
    }
}

/// The instance in the bytes of a Part 10 file (PS3.10 7.1).
pub fn item_of(alloc: Global, text: &[u8]) -> Result<Item, InstanceFault>
    ensures { ReadsInstance text.now result }
{
    let part = match part10(text) {
        Ok(part) => part,
        Err(fault) => return Err(InstanceFault::NoFile(fault)),
    };
    let body = match Text::copy_of(alloc, &text[part.start..]) {
        Ok(body) => body,
        Err(AllocError) => return Err(InstanceFault::NoItem(ItemFault::Memory)),
    };
    match Item::read(alloc, part.syntax, body) {
        Ok(item) => Ok(item),
        Err(fault) => Err(InstanceFault::NoItem(fault)),
    }
}
