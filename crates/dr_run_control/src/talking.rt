//! One request of a connection.
ghost use Rattle.std.specs.Prelude.{◌≡◌, ℕ, List, OnOk};
ghost use Rattle.http_server.specs.Exchange.{Call, Chain};

use http_server::{Config, Connection, Service, serve};
use http1::Limits;
use std::alloc::Global;
use std::hash::RandomState;
use std::io;
use std::io::{Read, Write};

/// A head has so many bytes at most.
const HEAD: usize = 8 * 1024;

/// And a body so many.
const BODY: usize = 64 * 1024;

/// The limits of a connection.
fn config() -> Config {
    Config {
        limits: Limits {
            max_head_len: HEAD,
            max_extensions_len: HEAD,
            max_trailers_len: HEAD,
        },
        max_body_len: BODY,
        max_pending: BODY,
        read_size: HEAD,
    }
}

/// Reads requests, has them answered, and writes the answers, until a request or its answer asks
/// for the end, as each of a `Console` does. Whatever was done, the service was called for it, with
/// a request that was read, and in order.
///
/// Errors: those of the reader and the writer; then what was answered stands.
pub fn talk<S: Service, R: Read, W: Write>(
    alloc: Global,
    keys: RandomState,
    service: &mut S,
    reader: &mut R,
    writer: &mut W,
) -> io::Result<()>
    ensures { (calls : List Call) × Chain S.answers service.old calls service.new }
{
    let mut connection = Connection::new(alloc, keys, config());
    let came = serve(&mut connection, service, reader, writer);
    drop(connection);
    came
}
