//! By which names a request may call a node.
ghost use Rattle.std.specs.Prelude.{◌≡◌, ◌++◌, ◌∷◌, [], IfOk, OnOk, option_copied};
ghost use Rattle.dr_run_control.specs.Names.{names_of};

use dr_base::{Seq, Text};
use std::alloc::{AllocError, Global};

/// A name with what stands behind it.
fn joined(alloc: Global, name: &str, port: &str) -> Result<Text, AllocError>
    ensures { IfOk result (λ text. text ≡ name.now ++ port.now) }
{
    let mut bytes = Vec::from_slice(alloc, name.as_bytes())?;
    bytes.extend_from_slice(port.as_bytes())?;
    Ok(Text::from_vec(bytes))
}

/// Adds one name more, alone and with the port.
fn add_host(names: &mut Seq<Text>, alloc: Global, host: &str, port: &str) -> Result<(), AllocError>
    ensures { OnOk result (names.new ≡ names.old ++ (host.now ∷ (host.now ++ port.now) ∷ [])) }
{
    names.push(joined(alloc, host, "")?)?;
    names.push(joined(alloc, host, port)?)
}

/// The names by which a request may call a node that listens at an address: that one, `localhost`
/// with its port (`:` and a number), and one name more, if one is given, alone and with the port.
///
/// Errors: want of memory.
pub fn names_of(
    alloc: Global,
    at: &str,
    port: &str,
    host: Option<&str>,
) -> Result<Seq<Text>, AllocError>
    ensures { IfOk result (λ names. names ≡ names_of at.now port.now (option_copied host.entry)) }
{
    let mut names = Seq::new(alloc);
    names.push(joined(alloc, at, "")?)?;
    names.push(joined(alloc, "localhost", port)?)?;
    if let Some(host) = host {
        add_host(&mut names, alloc, host, port)?;
    }
    Ok(names)
}
