//! Commands (PS3.7 sections 9.1 and 9.3), as values.
ghost use Rattle.std.specs.Prelude.{◌≡◌};
ghost use Rattle.dr_dimse.specs.Commands.{announces as announces_data, field_of, id_of};

use dr_base::Text;

/// A command: what is read of it, and what is written. Texts are UIDs without their padding.
#[derive(Debug, Drop)]
pub enum Command {
    /// C-STORE-RQ (9.3.1.1), behind which a data set follows.
    StoreRq {
        /// The message id.
        id: u16,
        /// The affected SOP class UID.
        class: Text,
        /// The affected SOP instance UID.
        instance: Text,
    },
    /// C-STORE-RSP (9.3.1.2).
    StoreRsp {
        /// The id of the message that it answers.
        to: u16,
        status: u16,
        /// The affected SOP class UID, empty where there is none.
        class: Text,
        /// The affected SOP instance UID, empty where there is none.
        instance: Text,
        has_data: bool,
    },
    /// C-ECHO-RQ (9.3.5.1).
    EchoRq {
        /// The message id.
        id: u16,
        /// The affected SOP class UID, empty where there is none.
        class: Text,
        has_data: bool,
    },
    /// C-ECHO-RSP (9.3.5.2).
    EchoRsp {
        /// The id of the message that it answers.
        to: u16,
        status: u16,
        /// The affected SOP class UID, empty where there is none.
        class: Text,
        has_data: bool,
    },
    /// Any other command.
    Other {
        /// The command field (E.1); 8000H and above are answers.
        field: u16,
        /// The message id, or the id of the message that it answers; none in a C-CANCEL-RQ.
        id: Option<u16>,
        /// The status of an answer.
        status: Option<u16>,
        has_data: bool,
    },
}

impl Command {
    /// Whether a data set follows.
    pub fn announces(&self) -> bool
        ensures { result ≡ announces_data self.now }
    {
        match self {
            Command::StoreRq { .. } => true,
            Command::StoreRsp { has_data, .. }
            | Command::EchoRq { has_data, .. }
            | Command::EchoRsp { has_data, .. }
            | Command::Other { has_data, .. } => *has_data,
        }
    }

    /// The command field (E.1).
    pub fn field(&self) -> u16
        ensures { result ≡ field_of self.now }
    {
        match self {
            Command::StoreRq { .. } => 0x0001,
            Command::StoreRsp { .. } => 0x8001,
            Command::EchoRq { .. } => 0x0030,
            Command::EchoRsp { .. } => 0x8030,
            Command::Other { field, .. } => *field,
        }
    }

    /// The message id, or the id of the message that it answers.
    pub fn id(&self) -> Option<u16>
        ensures { result ≡ id_of self.now }
    {
        match self {
            Command::StoreRq { id, .. } => Some(*id),
            Command::StoreRsp { to, .. } => Some(*to),
            Command::EchoRq { id, .. } => Some(*id),
            Command::EchoRsp { to, .. } => Some(*to),
            Command::Other { id, .. } => *id,
        }
    }
}
