//! The system's network.
use crate::limits::{Cut, Limits};
use crate::network::{Listening, Network};
use crate::socket::Socket;
use dr_base::Text;
use dr_session::Clock;
use std::alloc::Global;
use std::io::ErrorKind;
use std::net::{Net, Shutdown, SocketAddr, TcpListener, TcpStream, ToSocketAddrs};
use std::os::fd::OwnedFd;
use std::time::Duration;
use std::{io, str};

/// The network of the system, with the clock by which its sockets count, their limits, and what
/// cuts them.
#[derive(Drop)]
pub struct Sockets<'a, R: Net<Stream = TcpStream, Listener = TcpListener>, C: Clock> {
    rt: &'a R,
    clock: &'a C,
    cut: &'a Cut,
    limits: Limits,
}

impl<'a, R: Net<Stream = TcpStream, Listener = TcpListener>, C: Clock> Sockets<'a, R, C> {
    /// With the usual limits.
    pub fn new(rt: &'a R, clock: &'a C, cut: &'a Cut) -> Sockets<'a, R, C> {
        Sockets {
            rt,
            clock,
            cut,
            limits: Limits::usual(),
        }
    }

    /// Connects to one of a name's addresses, each in its turn, until one answers or the time is
    /// over.
    fn connect_by(&self, address: &str) -> io::Result<TcpStream> {
        let mut last = io::Error::from(ErrorKind::NotFound);
        let addresses = address.to_socket_addrs(self.rt)?;
        // The look-up of the name, which has a limit of its own, takes nothing of the connect's
        // time.
        let begun = self.clock.now();
        for one in addresses {
            let left = self
                .limits
                .connect
                .saturating_sub(self.clock.now().saturating_sub(begun));
            if left == 0 {
                return Err(io::Error::from(ErrorKind::TimedOut));
            }
            match TcpStream::connect_timeout(self.rt, &one, Duration::from_millis(left)) {
                Ok(stream) => return Ok(stream),
                Err(error) => last = error,
            }
        }
        Err(last)
    }
}

/// The address as the system takes it.
fn words_of(address: &Text) -> io::Result<&str> {
    match str::from_utf8(address.as_bytes()) {
        Ok(words) => Ok(words),
        Err(_) => Err(io::Error::from(ErrorKind::InvalidInput)),
    }
}

/// What no contract says of a system's sockets, tests do.
impl<'a, R: Net<Stream = TcpStream, Listener = TcpListener>, C: Clock> Network
    for Sockets<'a, R, C> {
    type Socket = Socket<'a, TcpStream, C>;

    type Listener = SystemListener<'a, C>;

    ghost connects = { λ sockets address result. Unit {0} };

    fn within(&self, limits: Limits) -> Sockets<'a, R, C> {
        Sockets {
            rt: self.rt,
            clock: self.clock,
            cut: self.cut,
            limits,
        }
    }

    fn cut(&self) {
        self.cut.make();
    }

    /// A connect is given up after its limit.
    fn connect(&self, alloc: Global, address: &Text) -> io::Result<Socket<'a, TcpStream, C>> {
        let stream = self.connect_by(words_of(address)?)?;
        Socket::new(alloc, stream, self.clock, self.limits, self.cut)
    }

    fn listen(&self, alloc: Global, address: &Text) -> io::Result<SystemListener<'a, C>> {
        let listener = TcpListener::bind(self.rt, words_of(address)?)?;
        Ok(SystemListener {
            alloc,
            listener,
            clock: self.clock,
            cut: self.cut,
            limits: self.limits,
        })
    }
}

/// A listening socket of the system.
#[derive(Drop)]
pub struct SystemListener<'a, C: Clock> {
    alloc: Global,
    listener: TcpListener,
    clock: &'a C,
    cut: &'a Cut,
    limits: Limits,
}

impl<'a, C: Clock> Listening for SystemListener<'a, C> {
    type Socket = Socket<'a, TcpStream, C>;

    fn accept(&self) -> io::Result<Socket<'a, TcpStream, C>> {
        let (stream, _) = self.listener.accept()?;
        Socket::new(self.alloc, stream, self.clock, self.limits, self.cut)
    }

    fn peer(&self, link: &Socket<'a, TcpStream, C>) -> Option<SocketAddr> {
        link.stream.peer_addr().ok()
    }

    /// The listening socket is shut down by a second handle of it, which wakes who waits at the
    /// first.
    fn close(&self) {
        if let Ok(listener) = self.listener.try_clone() {
            let _ended = TcpStream::from(OwnedFd::from(listener)).shutdown(Shutdown::Both);
        }
    }
}
