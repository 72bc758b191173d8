//! A network, as a program sees it.
ghost use Rattle.std.specs.Prelude.{ℕ, List, Result};
ghost use Rattle.std.specs.declared.io.Error.{Error};

use crate::limits::Limits;
use dr_base::Text;
use dr_session::Link;
use std::alloc::Global;
use std::io;
use std::net::SocketAddr;

/// Where a program connects and listens, each address as a plan writes it (`host:port`). Its
/// relation says what a connect to an address may come to, a link to it or an error; a system's
/// sockets claim nothing.
pub trait Network: Sized + Drop {
    type Socket: Link + Drop;

    type Listener: Listening<Socket = Self::Socket> + Drop;

    ghost connects: { Self → List ℕ → Result Self.Socket Error → Type 0 };

    /// The same network, whose links have these limits.
    fn within(&self, limits: Limits) -> Self;

    /// Cuts all links: from now on each read and write over one of them fails.
    fn cut(&self);

    /// A link to what listens at the address.
    fn connect(&self, alloc: Global, address: &Text) -> io::Result<Self::Socket>
        ensures { connects self.now address.now result };

    /// Listens at the address.
    fn listen(&self, alloc: Global, address: &Text) -> io::Result<Self::Listener>;
}

/// What listens at an address.
pub trait Listening {
    type Socket: Link + Drop;

    /// Waits for the next connection.
    fn accept(&self) -> io::Result<Self::Socket>;

    /// The address of the other side of a connection, where the system tells it.
    fn peer(&self, _link: &Self::Socket) -> Option<SocketAddr> {
        None
    }

    /// Ends the waiting: from now on `accept` answers an error, also where it waits already.
    fn close(&self);
}
