//! What a browser gives that may act.
ghost use Rattle.std.specs.Prelude.{◌≡◌, ◌++◌, IfOk, codes};
ghost use Rattle.dr_run_request.specs.Asking.{credentials_of};

use base64::engine::general_purpose::STANDARD;
use dr_base::Text;
use std::alloc::{AllocError, Global};

/// What a browser gives: the credentials of the token, and the key that the forms of this run's
/// page have.
#[derive(Drop)]
pub struct Browser {
    pub credentials: Text,
    pub key: Text,
}

/// The name and the token, as a browser joins them.
fn named(alloc: Global, token: &Text) -> Result<Vec<u8>, AllocError>
    ensures { IfOk result (λ bytes. bytes.items ≡ codes "operator:" ++ token.now) }
{
    let mut bytes = Vec::from_slice(alloc, b"operator:")?;
    bytes.extend_from_slice(token.as_bytes())?;
    Ok(bytes)
}

/// What a browser gives for a token, by the Basic scheme of HTTP (RFC 7617 2).
fn credentials_of(alloc: Global, token: &Text) -> Result<Text, AllocError>
    ensures { IfOk result (λ text. text ≡ credentials_of token.now) }
{
    let bytes = named(alloc, token)?;
    let text = STANDARD.encode(alloc, bytes.as_slice())?;
    Ok(Text::from_vec(text.into_bytes()))
}

impl Browser {
    /// Whoever was told the name `operator` and the token, in a run whose page has that key.
    ///
    /// Errors: want of memory.
    pub fn of(alloc: Global, token: &Text, key: Text) -> Result<Browser, AllocError>
        ensures credentials { IfOk result (λ b. b.credentials ≡ credentials_of token.now) }
        ensures key { IfOk result (λ b. b.key ≡ key) }
    {
        let credentials = credentials_of(alloc, token)?;
        Ok(Browser { credentials, key })
    }
}
