//! Whether a request may ask what it asks.
ghost use Rattle.std.specs.Prelude.{◌≡◌, ◌↔◌, Contains, IsTrue, codes, option_map};
ghost use Rattle.http.specs.Request.{body_of, head_of};
ghost use Rattle.http_header.specs.Token.{lowercase};
ghost use Rattle.dr_run_request.specs.Asking.{AdmitsRequest, HasKey, IsBrowser, IsFromHere};
ghost use Rattle.dr_run_request.specs.Asking.{IsHosted};
ghost use Rattle.dr_run_request.specs.Asking.{IsOriginBy, IsOriginOf, IsProgram, field_of};
ghost use Rattle.dr_run_request.specs.Asking.{method_of, needs_token};

use crate::browser::Browser;
use crate::form::raw_value;
use crate::route::{Route, route_at};
use crate::token::{is_basic, is_bearer, is_same};
use bytes::Bytes;
use dr_base::{Seq, Text};
use http::Request;

/// Who may ask: by which names the node is called, and by which token an act is allowed.
#[derive(Drop)]
pub struct Access {
    /// What a request may name as its host.
    pub hosts: Seq<Text>,
    /// Without one nothing can be acted.
    pub token: Option<Text>,
    /// Whether reading needs the token too.
    pub is_guarded: bool,
}

/// Why a request is refused.
#[derive(Clone, Copy, PartialEq, Eq, Debug)]
pub enum Refused {
    /// It names a host that isn't allowed.
    Host,
    /// A page that isn't the node's sent it.
    Origin,
    /// Nothing is at its path.
    Path,
    /// What is at its path is asked by another method.
    Method,
    /// A token is needed, and the node has none.
    Closed,
    /// It hasn't the token.
    Token,
    /// A browser sent it, and its form isn't one of this run's page.
    Key,
}

/// The first value of a field.
fn field<'a>(request: &'a Request<Bytes>, name: &str) -> Option<&'a [u8]>
    ensures { option_map (λ value. value.now) result
        ≡ field_of (head_of request.now) (lowercase name.now) }
{
    match request.headers().get(name) {
        Some(value) => Some(value.as_bytes()),
        None => None,
    }
}

/// Whether the name is one of them.
fn is_listed(hosts: &[Text], host: &[u8]) -> bool
    ensures { IsTrue result ↔ Contains hosts.now host.now }
{
    for listed in hosts {
        if listed.as_bytes() == host {
            return true;
        }
    }
    false
}

/// Whether the request names a host that is allowed.
fn is_hosted(access: &Access, request: &Request<Bytes>) -> bool
    ensures { IsTrue result ↔ IsHosted access.now (head_of request.now) }
{
    match field(request, "host") {
        Some(host) => is_listed(access.hosts.as_slice(), host),
        None => false,
    }
}

/// Whether an origin is that of a page of the node, which was reached by HTTP.
fn is_plain_origin(access: &Access, origin: &[u8]) -> bool
    ensures { IsTrue result ↔ IsOriginBy access.now (codes "http://") origin.now }
{
    match origin.strip_prefix(b"http://".as_slice()) {
        Some(host) => is_listed(access.hosts.as_slice(), host),
        None => false,
    }
}

/// Whether it is that of one which was reached by HTTP over TLS.
fn is_secure_origin(access: &Access, origin: &[u8]) -> bool
    ensures { IsTrue result ↔ IsOriginBy access.now (codes "https://") origin.now }
{
    match origin.strip_prefix(b"https://".as_slice()) {
        Some(host) => is_listed(access.hosts.as_slice(), host),
        None => false,
    }
}

/// Whether an origin is that of a page of the node.
fn is_own_origin(access: &Access, origin: &[u8]) -> bool
    ensures { IsTrue result ↔ IsOriginOf access.now origin.now }
{
    is_plain_origin(access, origin) || is_secure_origin(access, origin)
}

/// Whether no page sent the request, or one of the node.
fn is_from_here(access: &Access, request: &Request<Bytes>) -> bool
    ensures { IsTrue result ↔ IsFromHere access.now (head_of request.now) }
{
    match field(request, "origin") {
        Some(origin) => is_own_origin(access, origin),
        None => true,
    }
}

/// Whether the request has the token as a program gives it.
fn is_program(request: &Request<Bytes>, token: &Text) -> bool
    ensures { IsTrue result ↔ IsProgram token.now (head_of request.now) }
{
    match field(request, "authorization") {
        Some(value) => is_bearer(value, token.as_bytes()),
        None => false,
    }
}

/// Whether the request has the token as a browser gives it.
fn is_browser(request: &Request<Bytes>, browser: &Option<Browser>) -> bool
    ensures { IsTrue result ↔ IsBrowser browser.now (head_of request.now) }
{
    let Some(browser) = browser else {
        return false;
    };
    match field(request, "authorization") {
        Some(value) => is_basic(value, browser.credentials.as_bytes()),
        None => false,
    }
}

/// Whether a form is one of this run's page.
fn has_key(form: &[u8], browser: &Option<Browser>) -> bool
    ensures { IsTrue result ↔ HasKey browser.now form.now }
{
    let Some(browser) = browser else {
        return false;
    };
    match raw_value(form, "key") {
        Some(value) => is_same(value, browser.key.as_bytes()),
        None => false,
    }
}

/// Whether the request has the method of the route.
fn has_method(request: &Request<Bytes>, route: Route) -> bool
    ensures { IsTrue result ↔ ((head_of request.now).method ≡ method_of route) }
{
    request.method().as_str() == route.method()
}

/// Whether the route needs a token.
fn needs_token(access: &Access, route: Route) -> bool
    ensures { result ≡ needs_token access.now route }
{
    access.is_guarded || route.is_act()
}

/// What the request asks for, where it may. `browser` is what a browser gives, where one is
/// answered.
///
/// Errors: Host, Origin, Path, Method, Closed, Token and Key, tested in this order.
pub fn admit(
    access: &Access,
    browser: &Option<Browser>,
    request: &Request<Bytes>,
) -> Result<Route, Refused>
    ensures { AdmitsRequest access.now browser.now (head_of request.now) (body_of request.now)
        result }
{
    if !is_hosted(access, request) {
        return Err(Refused::Host);
    }
    if !is_from_here(access, request) {
        return Err(Refused::Origin);
    }
    let Some(route) = route_at(request.uri().path()) else {
        return Err(Refused::Path);
    };
    if !has_method(request, route) {
        return Err(Refused::Method);
    }
    if !needs_token(access, route) {
        return Ok(route);
    }
    let Some(token) = &access.token else {
        return Err(Refused::Closed);
    };
    if is_program(request, token) {
        return Ok(route);
    }
    if !is_browser(request, browser) {
        return Err(Refused::Token);
    }
    if route.is_act() && !has_key(request.body().as_slice(), browser) {
        return Err(Refused::Key);
    }
    Ok(route)
}
