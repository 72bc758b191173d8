//! Which data sets are read: those of C-STORE-RQs.
ghost use Rattle.std.specs.Prelude.{◌≡◌};
ghost use Rattle.std.specs.Option.{option_copied};
ghost use Rattle.dr_dimse_scan.specs.Stores.{is_store, store_text};

use dr_dimse::{Body, Command, Message};

/// Whether the command is a C-STORE-RQ.
pub fn is_store(command: &Command) -> bool
    ensures { result ≡ is_store command.now }
{
    match command {
        Command::StoreRq { .. } => true,
        Command::StoreRsp { .. }
        | Command::EchoRq { .. }
        | Command::EchoRsp { .. }
        | Command::Other { .. } => false,
    }
}

/// The bytes of the data set of a C-STORE-RQ.
pub fn text_in(message: &Message) -> Option<&[u8]>
    ensures { option_copied result ≡ store_text message.now }
{
    if !is_store(&message.command) {
        return None;
    }
    let Some(body) = &message.body else {
        return None;
    };
    match body {
        Body::Whole(text) => Some(text.as_bytes()),
        Body::TooLarge => None,
    }
}
