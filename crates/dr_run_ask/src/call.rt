//! What a node that runs is asked and told.
ghost use Rattle.std.specs.Prelude.{◌≡◌, IfOk, string_bytes};
ghost use Rattle.dr_run_ask.specs.Calls.{copy_form, dest_form, form_of, is_act, journal_form};
ghost use Rattle.dr_run_ask.specs.Calls.{method_of};
ghost use Rattle.dr_run_ask.specs.Calls.{path_of};
ghost use Rattle.dr_run_ask.specs.Calls.{reason_form, route_of, row_form, rows_form, uid_form};

use dr_run_request::Route;
use form_urlencoded::Serializer;
use std::alloc::{AllocError, Global};

/// What a node that runs is asked, and what it is told, each with its form
/// (application/x-www-form-urlencoded).
#[derive(Clone, Copy, Drop)]
pub enum HttpCall<'a> {
    /// What it is, and how much it has.
    Status,
    /// The rows to a node, behind a UID.
    Rows(&'a str),
    /// Lines of its journal, behind a number.
    Journal(&'a str),
    /// To queue held rows again.
    Requeue(&'a str),
    /// To give a held row up.
    GiveUp(&'a str),
    /// To forget an instance.
    Forget(&'a str),
    /// To visit a node now.
    Visit(&'a str),
    /// To copy its ledger.
    Backup(&'a str),
    /// To end in order.
    Stop,
}

impl<'a> HttpCall<'a> {
    /// What it means at the node.
    fn route(self) -> Route
        ensures { result ≡ route_of self.entry }
    {
        match self {
            HttpCall::Status => Route::Status,
            HttpCall::Rows(_) => Route::Rows,
            HttpCall::Journal(_) => Route::Journal,
            HttpCall::Requeue(_) => Route::Requeue,
            HttpCall::GiveUp(_) => Route::GiveUp,
            HttpCall::Forget(_) => Route::Forget,
            HttpCall::Visit(_) => Route::Visit,
            HttpCall::Backup(_) => Route::Backup,
            HttpCall::Stop => Route::Stop,
        }
    }

    /// Its path.
    pub fn path(self) -> &'static str
        ensures { result.now ≡ path_of self.entry }
    {
        self.route().path()
    }

    /// Whether it changes anything.
    pub fn is_act(self) -> bool
        ensures { result ≡ is_act self.entry }
    {
        self.route().is_act()
    }

    /// What it is about.
    pub fn form(self) -> &'a str
        ensures { result.now ≡ form_of self.entry }
    {
        match self {
            HttpCall::Status | HttpCall::Stop => "",
            HttpCall::Rows(form) | HttpCall::Requeue(form) | HttpCall::GiveUp(form) => form,
            HttpCall::Forget(form) | HttpCall::Visit(form) => form,
            HttpCall::Journal(form) | HttpCall::Backup(form) => form,
        }
    }

    /// The method by which it is asked or told.
    pub fn method(self) -> &'static str
        ensures { result.now ≡ method_of self.entry }
    {
        self.route().method()
    }
}

/// The form of a row.
pub fn row_form(alloc: Global, uid: &str, dest: &str) -> Result<String, AllocError>
    ensures { IfOk result (λ form. string_bytes form ≡ row_form uid.now dest.now) }
{
    let mut form = Serializer::new(String::new(alloc));
    form.extend_pairs(&[("uid", uid), ("dest", dest)])?;
    Ok(form.finish())
}

/// The form of a row, with a reason.
pub fn reason_form(alloc: Global, uid: &str, dest: &str, reason: &str) -> Result<String, AllocError>
    ensures { IfOk result (λ form. string_bytes form ≡ reason_form uid.now dest.now reason.now) }
{
    let mut form = Serializer::new(String::new(alloc));
    form.extend_pairs(&[("uid", uid), ("dest", dest), ("reason", reason)])?;
    Ok(form.finish())
}

/// The form of a node: of all held rows to it, or of a visit.
pub fn dest_form(alloc: Global, dest: &str) -> Result<String, AllocError>
    ensures { IfOk result (λ form. string_bytes form ≡ dest_form dest.now) }
{
    let mut form = Serializer::new(String::new(alloc));
    form.extend_pairs(&[("dest", dest)])?;
    Ok(form.finish())
}

/// The form of an instance.
pub fn uid_form(alloc: Global, uid: &str) -> Result<String, AllocError>
    ensures { IfOk result (λ form. string_bytes form ≡ uid_form uid.now) }
{
    let mut form = Serializer::new(String::new(alloc));
    form.extend_pairs(&[("uid", uid)])?;
    Ok(form.finish())
}

/// The form of a copy, by its path.
pub fn copy_form(alloc: Global, path: &str) -> Result<String, AllocError>
    ensures { IfOk result (λ form. string_bytes form ≡ copy_form path.now) }
{
    let mut form = Serializer::new(String::new(alloc));
    form.extend_pairs(&[("copy", path)])?;
    Ok(form.finish())
}

/// The form of the rows to a node behind a UID.
pub fn rows_form(alloc: Global, dest: &str, after: &str) -> Result<String, AllocError>
    ensures { IfOk result (λ form. string_bytes form ≡ rows_form dest.now after.now) }
{
    let mut form = Serializer::new(String::new(alloc));
    form.extend_pairs(&[("dest", dest), ("after", after)])?;
    Ok(form.finish())
}

/// The form of the lines of a journal behind a number.
pub fn journal_form(alloc: Global, after: u64) -> Result<String, AllocError>
    ensures { IfOk result (λ form. string_bytes form ≡ journal_form after) }
{
    let mut digits = itoa::Buffer::new();
    let after = digits.format(after);
    let mut form = Serializer::new(String::new(alloc));
    form.extend_pairs(&[("after", after)])?;
    Ok(form.finish())
}
