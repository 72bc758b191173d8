//! What may end the program from without: its input, and those who ask over a control connection.
use dr_base::Text;
use dr_run_control::names_of;
use dr_run_request::Access;
use dr_run_serve::{ControlPlace, ControlPort, Ending, StopSign};
use dr_run_token::{SystemTokens, Tokens};
use dr_word_line::VERSION;
use std::alloc::Global;
use std::hash::RandomState;
use std::io;
use std::io::{ErrorKind, Read, Stdin};
use std::net::{TcpListener, ToSocketAddrs};
use std::sync::Arc;
use std::thread::{Builder, Threads};

/// The input, which a thread of its own reads to its end, and the system, which listens.
#[derive(Drop)]
pub struct InputEnd<'a, T: Threads> {
    pub rt: &'a T,
    pub input: Stdin,
    pub system: &'a HostRuntime,
}

/// Reads an input to its end, and lets go of what it reads. One that can't be read any more has
/// ended, too.
fn read_out(input: Stdin) {
    let (mut input, mut piece) = (input, [0u8; 256]);
    for _ in 0..u64::MAX {
        match input.read(&mut piece) {
            Ok(0) => return,
            Ok(_) => {}
            Err(error) => {
                if error.kind() != ErrorKind::Interrupted {
                    return;
                }
            }
        }
    }
}

impl<'a, T: Threads> Ending for InputEnd<'a, T> {
    fn watch(&self, stop: Arc<StopSign, Global>) -> io::Result<()> {
        let input = self.input;
        let _thread = Builder::new().spawn(self.rt, move || {
            read_out(input);
            stop.ask();
        })?;
        Ok(())
    }

    fn open_control(&self, alloc: Global, place: ControlPlace<'_>) -> io::Result<ControlPort> {
        if !place.is_for_anyone {
            test_loopback(self.system, place.at)?;
        }
        let token = token_of(self.system, alloc, place)?;
        let keys = RandomState::new(self.system)?;
        let hosts = names_of(alloc, place.at, port_of(place.at), place.host)?;
        let listener = TcpListener::bind(self.system, place.at)?;
        let access = Access {
            hosts,
            token,
            is_guarded: place.is_for_anyone,
        };
        let version = format!(in alloc; "{VERSION}")?;
        Ok(ControlPort::new(listener, keys, access, version))
    }
}

/// The port of an address, behind the last colon and with it.
fn port_of(address: &str) -> &str {
    match address.rfind(':') {
        Some(at) => address.get(at..).unwrap_or(""),
        None => "",
    }
}

/// Tests that an address, or each one of its name, is of this machine alone.
///
/// Errors: PermissionDenied; those of the look-up.
fn test_loopback(system: &HostRuntime, address: &str) -> io::Result<()> {
    for one in address.to_socket_addrs(system)? {
        if !one.ip().is_loopback() {
            return Err(io::Error::from(ErrorKind::PermissionDenied));
        }
    }
    Ok(())
}

/// The token that an act needs, if there is one. Where others than this machine may ask, there has
/// to be one.
///
/// Errors: InvalidInput where one is lacking; those of the file.
fn token_of(
    system: &HostRuntime,
    alloc: Global,
    place: ControlPlace<'_>,
) -> io::Result<Option<Text>> {
    match place.token {
        Some(path) => Ok(Some(SystemTokens(system).token(alloc, path)?)),
        None if place.is_for_anyone => Err(io::Error::from(ErrorKind::InvalidInput)),
        None => Ok(None),
    }
}
