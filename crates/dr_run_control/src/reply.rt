//! Replies: a status, and a text.
ghost use Rattle.std.specs.Prelude.{◌≡◌, ◌++◌, [], IsTrue, Ok, OnOk};
ghost use Rattle.http_header.specs.FieldName.{is_header_name};
ghost use Rattle.http_header.specs.FieldValue.{is_visible_text};
ghost use Rattle.dr_run_answer.specs.Answers.{fault_line};
ghost use Rattle.dr_run_backup.specs.Faults.{name_of_copy};
ghost use Rattle.dr_run_open.specs.Codes.{code_of};
ghost use Rattle.dr_run_control.specs.Replies.{IsToldIn, name_of_form, name_of_refusal};
ghost use Rattle.dr_run_control.specs.Replies.{status_of_copy, status_of_fault, status_of_form};
ghost use Rattle.dr_run_control.specs.Replies.{status_of_refusal};

use bytes::Bytes;
use dr_ledger::LedgerFault;
use dr_run_answer::put_fault;
use dr_run_backup::BackupFault;
use dr_run_open::code_of;
use dr_run_request::{FormFault, Refused};
use http::{HeaderName, HeaderValue, StatusCode};
use http_server::Response;
use std::alloc::{AllocError, Global};

/// What the text of a reply is.
#[derive(Clone, Copy, PartialEq, Eq)]
pub(crate) enum Media {
    /// Lines of JSON.
    Lines,
    /// Figures for Prometheus.
    Figures,
    /// A document for people.
    Page,
    /// A line for whoever has used a form of the page, which comes back then.
    Told,
}

/// A reply: its status, and its text, of which it is said what it is.
#[derive(Drop)]
pub(crate) struct HttpReply {
    pub status: StatusCode,
    pub text: Vec<u8>,
    pub media: Media,
}

impl HttpReply {
    /// With no text.
    pub fn bare(alloc: Global, status: StatusCode) -> HttpReply
        ensures status { result.status ≡ status }
        ensures text { result.text.items ≡ [] }
    {
        HttpReply {
            status,
            text: Vec::new(alloc),
            media: Media::Lines,
        }
    }

    /// With the name of a fault, where there is memory for it.
    pub fn of_fault(alloc: Global, status: StatusCode, fault: &str) -> HttpReply
        ensures status { result.status ≡ status }
        ensures text { IsToldIn (fault_line fault.now) result.text.items }
    {
        HttpReply {
            status,
            text: fault_text(alloc, fault),
            media: Media::Lines,
        }
    }
}

/// The line of a fault; where there is no memory for it, none.
fn fault_text(alloc: Global, fault: &str) -> Vec<u8>
    ensures { IsToldIn (fault_line fault.now) result.items }
{
    let mut text = Vec::new(alloc);
    match put_fault(&mut text, fault) {
        Ok(()) => text,
        Err(_) => Vec::new(alloc),
    }
}

/// The status of a refusal.
pub(crate) fn status_of_refusal(refused: Refused) -> StatusCode
    ensures { result ≡ status_of_refusal refused }
{
    match refused {
        Refused::Host => StatusCode::MISDIRECTED_REQUEST,
        Refused::Origin => StatusCode::FORBIDDEN,
        Refused::Path => StatusCode::NOT_FOUND,
        Refused::Method => StatusCode::METHOD_NOT_ALLOWED,
        Refused::Closed => StatusCode::FORBIDDEN,
        Refused::Token => StatusCode::UNAUTHORIZED,
        Refused::Key => StatusCode::FORBIDDEN,
    }
}

/// The name of a refusal.
pub fn name_of_refusal(refused: Refused) -> &'static str
    ensures { result.now ≡ name_of_refusal refused }
{
    match refused {
        Refused::Host => "Host",
        Refused::Origin => "Origin",
        Refused::Path => "Path",
        Refused::Method => "Method",
        Refused::Closed => "Closed",
        Refused::Token => "Token",
        Refused::Key => "Key",
    }
}

/// The reply to a request that is refused.
pub(crate) fn refusal(alloc: Global, refused: Refused) -> HttpReply
    ensures status { result.status ≡ status_of_refusal refused }
    ensures text { IsToldIn (fault_line (name_of_refusal refused)) result.text.items }
{
    HttpReply::of_fault(alloc, status_of_refusal(refused), name_of_refusal(refused))
}

/// The status of a form that isn't understood.
fn status_of_form(fault: FormFault) -> StatusCode
    ensures { result ≡ status_of_form fault }
{
    match fault {
        FormFault::Field => StatusCode::BAD_REQUEST,
        FormFault::Memory => StatusCode::SERVICE_UNAVAILABLE,
    }
}

/// The name of what is wrong with a form.
fn name_of_form(fault: FormFault) -> &'static str
    ensures { result.now ≡ name_of_form fault }
{
    match fault {
        FormFault::Field => "Field",
        FormFault::Memory => "Memory",
    }
}

/// The reply to a form that isn't understood.
pub(crate) fn misread(alloc: Global, fault: FormFault) -> HttpReply
    ensures status { result.status ≡ status_of_form fault }
    ensures text { IsToldIn (fault_line (name_of_form fault)) result.text.items }
{
    HttpReply::of_fault(alloc, status_of_form(fault), name_of_form(fault))
}

/// The status of what a ledger refused.
fn status_of_fault(fault: LedgerFault) -> StatusCode
    ensures { result ≡ status_of_fault fault }
{
    match fault {
        LedgerFault::NoLine
        | LedgerFault::Conflict
        | LedgerFault::NotWaiting
        | LedgerFault::NotHeld
        | LedgerFault::NotOver => StatusCode::CONFLICT,
        LedgerFault::Store | LedgerFault::Memory => StatusCode::SERVICE_UNAVAILABLE,
    }
}

/// The reply where a ledger refused.
pub(crate) fn refused_by_ledger(alloc: Global, fault: LedgerFault) -> HttpReply
    ensures status { result.status ≡ status_of_fault fault }
    ensures text { IsToldIn (fault_line (code_of fault)) result.text.items }
{
    HttpReply::of_fault(alloc, status_of_fault(fault), code_of(fault))
}

/// The status of a copy that wasn't made.
fn status_of_copy(fault: BackupFault) -> StatusCode
    ensures { result ≡ status_of_copy fault }
{
    match fault {
        BackupFault::NoPath => StatusCode::BAD_REQUEST,
        BackupFault::OwnFile | BackupFault::IsThere | BackupFault::Busy | BackupFault::DataFile =>
            StatusCode::CONFLICT,
        BackupFault::GivenUp | BackupFault::NoCopy(_) | BackupFault::Memory => {
            StatusCode::SERVICE_UNAVAILABLE
        }
    }
}

/// The reply where no copy was made.
pub(crate) fn uncopied(alloc: Global, fault: BackupFault) -> HttpReply
    ensures status { result.status ≡ status_of_copy fault }
    ensures text { IsToldIn (fault_line (name_of_copy fault)) result.text.items }
{
    HttpReply::of_fault(alloc, status_of_copy(fault), fault.name())
}

/// Adds a field.
fn add(response: &mut Response, name: &'static str, value: &'static str) -> Result<(), AllocError>
    requires name { IsTrue (is_header_name name.now) }
    requires value { IsTrue (is_visible_text value.now) }
    ensures status { response.new.status ≡ response.old.status }
    ensures body { response.new.body ≡ response.old.body }
{
    response.add_header(
        HeaderName::from_static(name),
        HeaderValue::from_static(value),
    )
}

/// Adds that a text is a document, of which a browser takes nothing for a script, and for which it
/// asks nobody else for anything.
fn add_page(response: &mut Response) -> Result<(), AllocError>
    ensures status { response.new.status ≡ response.old.status }
    ensures body { response.new.body ≡ response.old.body }
{
    add(response, "content-type", "text/html; charset=utf-8")?;
    add(
        response,
        "content-security-policy",
        "default-src 'none'; style-src 'unsafe-inline'; form-action 'self'; frame-ancestors 'none'",
    )?;
    add(response, "x-content-type-options", "nosniff")
}

/// Adds that a text is one for a person, who sees the page again 2 s later.
fn add_told(response: &mut Response) -> Result<(), AllocError>
    ensures status { response.new.status ≡ response.old.status }
    ensures body { response.new.body ≡ response.old.body }
{
    add(response, "content-type", "text/plain; charset=utf-8")?;
    add(response, "refresh", "2; url=/")
}

/// Adds, where the token is lacking, how a browser is to give it (RFC 7617 2).
fn add_challenge(response: &mut Response) -> Result<(), AllocError>
    ensures status { response.new.status ≡ response.old.status }
    ensures body { response.new.body ≡ response.old.body }
{
    if response.status != StatusCode::UNAUTHORIZED {
        return Ok(());
    }
    add(response, "www-authenticate", "Basic realm=\"dr_router\"")
}

/// Adds what a text is (RFC 9110 8.3).
fn add_media(response: &mut Response, media: Media) -> Result<(), AllocError>
    ensures status { response.new.status ≡ response.old.status }
    ensures body { response.new.body ≡ response.old.body }
{
    match media {
        Media::Lines => add(response, "content-type", "application/x-ndjson"),
        Media::Figures => add(response, "content-type", "text/plain; version=0.0.4"),
        Media::Page => add_page(response),
        Media::Told => add_told(response),
    }
}

/// Adds the fields and the text of a reply.
fn fill(response: &mut Response, text: Vec<u8>, media: Media) -> Result<(), AllocError>
    ensures status { response.new.status ≡ response.old.status }
    ensures body { OnOk result
        (response.new.body.items ≡ response.old.body.items ++ text.items) }
{
    add(response, "connection", "close")?;
    add(response, "cache-control", "no-store")?;
    add_challenge(response)?;
    add_media(response, media)?;
    response.body.push(Bytes::from_vec(text)?)
}

/// Makes it the response, to a form of the page or to another request; where there is no memory for
/// its text, the status alone.
pub(crate) fn respond(response: &mut Response, reply: HttpReply, is_of_page: bool)
    requires { response.old.body.items ≡ [] }
    ensures status { response.new.status ≡ reply.status }
    ensures body { IsToldIn reply.text.items response.new.body.items }
{
    let HttpReply {
        status,
        text,
        media,
    } = reply;
    response.status = status;
    let media = if is_of_page { Media::Told } else { media };
    match fill(response, text, media) {
        Ok(()) => {}
        Err(AllocError) => response.body.clear(),
    }
}
