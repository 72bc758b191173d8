//! The bytes of a request.
ghost use Rattle.std.specs.Prelude.{◌≡◌, ◌++◌, ◌∷◌, [], IfOk, OnOk, decimal, length as len};
ghost use Rattle.std.specs.Prelude.{option_map};
ghost use Rattle.http1.specs.Head.{pairs, request_text};
ghost use Rattle.dr_run_ask.specs.Calls.{bearer_fields, bearer_of, body_of, fields_of, form_of};
ghost use Rattle.dr_run_ask.specs.Calls.{form_fields};
ghost use Rattle.dr_run_ask.specs.Calls.{fields_of_body, method_of, query_of, request_of};
ghost use Rattle.dr_run_ask.specs.Calls.{target_of};

use crate::call::HttpCall;
use crate::fault::AskFault;
use dr_base::Text;
use http1::head::write_request;
use http1::{Header, WriteError};
use std::alloc::{AllocError, Global};

/// What stands before a token in its field.
const BEARER: &[u8] = b"Bearer ";

/// Adds a query, where there is one.
fn put_query(target: &mut Vec<u8>, form: &str) -> Result<(), AllocError>
    ensures { OnOk result (target.new.items ≡ target.old.items ++ query_of form.now) }
{
    if form.is_empty() {
        return Ok(());
    }
    target.push(b'?')?;
    target.extend_from_slice(form.as_bytes())
}

/// Where the request goes: a path, and what is asked behind it.
fn target_of(alloc: Global, call: HttpCall<'_>) -> Result<Vec<u8>, AllocError>
    ensures { IfOk result (λ target. target.items ≡ target_of call.entry) }
{
    let mut target = Vec::from_slice(alloc, call.path().as_bytes())?;
    if !call.is_act() {
        put_query(&mut target, call.form())?;
    }
    Ok(target)
}

/// What the field with the token says.
fn bearer_of(alloc: Global, token: &Text) -> Result<Vec<u8>, AllocError>
    ensures { IfOk result (λ value. value.items ≡ bearer_of token.now) }
{
    let mut value = Vec::from_slice(alloc, BEARER)?;
    value.extend_from_slice(token.as_bytes())?;
    Ok(value)
}

/// Adds a field.
fn add_field<'f>(
    fields: &mut Vec<Header<'f>>,
    name: &'f [u8],
    value: &'f [u8],
) -> Result<(), AllocError>
    ensures { OnOk result
        (pairs fields.new.items ≡ pairs fields.old.items ++ ((name.now, value.now) ∷ [])) }
{
    fields.push(Header { name, value })?;
    Ok(())
}

/// Adds the field with the token, where there is one.
fn add_bearer<'f>(fields: &mut Vec<Header<'f>>, bearer: Option<&'f [u8]>) -> Result<(), AllocError>
    ensures { OnOk result (pairs fields.new.items
        ≡ pairs fields.old.items ++ bearer_fields (option_map (λ b. b.now) bearer.entry)) }
{
    match bearer {
        Some(value) => {
            fields.push(Header {
                name: b"authorization",
                value,
            })?;
            Ok(())
        }
        None => Ok(()),
    }
}

/// Adds that the body is a form, of so many bytes.
fn add_form<'f>(fields: &mut Vec<Header<'f>>, size: &'f [u8]) -> Result<(), AllocError>
    ensures { OnOk result
        (pairs fields.new.items ≡ pairs fields.old.items ++ form_fields size.now) }
{
    add_field(
        fields,
        b"content-type",
        b"application/x-www-form-urlencoded",
    )?;
    add_field(fields, b"content-length", size)?;
    Ok(())
}

/// Adds what is said of the body: of what is told, that it is a form of so many bytes.
fn add_body<'f>(
    fields: &mut Vec<Header<'f>>,
    call: HttpCall<'_>,
    size: &'f str,
) -> Result<(), AllocError>
    requires { size.now ≡ decimal (len (form_of call)) }
    ensures { OnOk result
        (pairs fields.new.items ≡ pairs fields.old.items ++ fields_of_body call.entry) }
{
    if call.is_act() {
        return add_form(fields, size.as_bytes());
    }
    Ok(())
}

/// The fields of a request.
fn fields_of<'f>(
    alloc: Global,
    host: &'f Text,
    bearer: Option<&'f [u8]>,
    call: HttpCall<'_>,
    length: &'f str,
) -> Result<Vec<Header<'f>>, AllocError>
    requires { length.now ≡ decimal (len (form_of call)) }
    ensures { IfOk result (λ fields. pairs fields.items
        ≡ fields_of host.now (option_map (λ b. b.now) bearer.entry) call.entry) }
{
    let mut fields = Vec::new(alloc);
    fields.push(Header {
        name: b"host",
        value: host.as_bytes(),
    })?;
    fields.push(Header {
        name: b"connection",
        value: b"close",
    })?;
    add_bearer(&mut fields, bearer)?;
    add_body(&mut fields, call, length)?;
    Ok(fields)
}

/// Writes the head of a request with these fields, and its body.
///
/// Errors: NoRequest where a part can't stand in a head; Memory.
fn put_request(
    out: &mut Vec<u8>,
    call: HttpCall<'_>,
    target: &[u8],
    fields: &[Header<'_>],
) -> Result<(), AskFault>
    ensures { OnOk result (out.new.items ≡ out.old.items
        ++ request_text (method_of call.entry) target.now 1 (pairs fields.now)
        ++ body_of call.entry) }
{
    match write_request(out, call.method().as_bytes(), target, 1, fields, &[]) {
        Ok(()) => {}
        Err(WriteError::OutOfMemory) => return Err(AskFault::Memory),
        Err(_) => return Err(AskFault::NoRequest),
    }
    if call.is_act() {
        out.extend_from_slice(call.form().as_bytes())?;
    }
    Ok(())
}

/// The bytes of a request with what the field of the token says.
///
/// Errors: NoRequest, Memory.
fn bytes_with(
    alloc: Global,
    host: &Text,
    bearer: Option<&[u8]>,
    call: HttpCall<'_>,
) -> Result<Vec<u8>, AskFault>
    ensures { IfOk result (λ bytes. bytes.items
        ≡ request_text (method_of call.entry) (target_of call.entry) 1
        (fields_of host.now (option_map (λ b. b.now) bearer.entry) call.entry)
        ++ body_of call.entry) }
{
    let target = target_of(alloc, call)?;
    let mut digits = itoa::Buffer::new();
    let length = digits.format(call.form().len() as u64);
    let fields = fields_of(alloc, host, bearer, call, length)?;
    let mut out = Vec::new(alloc);
    put_request(&mut out, call, target.as_slice(), fields.as_slice())?;
    Ok(out)
}

/// The bytes of the request by which a node is asked or told that, at the address `host`.
///
/// Errors: NoRequest where the address or the token can't stand in a request; Memory.
pub fn request_bytes(
    alloc: Global,
    host: &Text,
    token: Option<&Text>,
    call: HttpCall<'_>,
) -> Result<Vec<u8>, AskFault>
    ensures { IfOk result (λ bytes.
        bytes.items ≡ request_of host.now (option_map (λ t. t.now) token.entry) call.entry) }
{
    match token {
        Some(token) => {
            let bearer = bearer_of(alloc, token)?;
            bytes_with(alloc, host, Some(bearer.as_slice()), call)
        }
        None => bytes_with(alloc, host, None, call),
    }
}
