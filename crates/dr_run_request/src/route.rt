//! What may be asked of a running node.
ghost use Rattle.std.specs.Prelude.{◌≡◌, ◌↔◌, IfNone, IfSome, IsTrue, false, true};
ghost use Rattle.dr_run_request.specs.Asking.{IsAt, goes_on, is_act, method_of, path_of};
ghost use Rattle.dr_run_request.specs.declared.route.Route.{Route as RouteValue};
ghost use Rattle.dr_run_request.specs.declared.route.Route.TheVariants as RouteValues;

/// What may be asked of a running node: seven things to read, and six acts.
#[derive(Clone, Copy, PartialEq, Eq)]
pub enum Route {
    /// The page for people.
    Page,
    /// What it is, and how much it has.
    Status,
    /// Rows for a destination.
    Rows,
    /// The rows of an instance.
    Instance,
    /// Lines of its journal.
    Journal,
    /// Its figures, for Prometheus.
    Metrics,
    /// Whether it is well.
    Health,
    /// To queue a held row again, or all of a destination.
    Requeue,
    /// To give a held row up.
    GiveUp,
    /// To forget an instance that is over.
    Forget,
    /// To visit a destination now.
    Visit,
    /// To copy its ledger.
    Backup,
    /// To end in order.
    Stop,
}

impl Route {
    /// Whether it changes anything.
    pub fn is_act(self) -> bool
        ensures { result ≡ is_act self }
    {
        match self {
            Route::Page | Route::Status | Route::Rows | Route::Instance => false,
            Route::Journal | Route::Metrics | Route::Health => false,
            Route::Requeue | Route::GiveUp | Route::Forget | Route::Visit | Route::Stop => true,
            Route::Backup => true,
        }
    }

    /// Its path; of an instance, what stands before its UID.
    pub fn path(self) -> &'static str
        ensures { result.now ≡ path_of self }
    {
        match self {
            Route::Page => "/",
            Route::Status => "/status",
            Route::Rows => "/rows",
            Route::Instance => "/instance/",
            Route::Journal => "/journal",
            Route::Metrics => "/metrics",
            Route::Health => "/health",
            Route::Requeue => "/requeue",
            Route::GiveUp => "/drop",
            Route::Forget => "/forget",
            Route::Visit => "/visit",
            Route::Backup => "/backup",
            Route::Stop => "/stop",
        }
    }

    /// The method by which it is asked.
    pub fn method(self) -> &'static str
        ensures { result.now ≡ method_of self }
    {
        if self.is_act() {
            return "POST";
        }
        "GET"
    }
}

/// Whether the path of a route goes on with a UID.
fn goes_on(route: Route) -> bool
    ensures { result ≡ goes_on route }
{
    matches!(route, Route::Instance)
}

/// Whether a path goes on with a UID behind that of an instance.
fn is_instance(path: &str) -> bool
    ensures { IsTrue result ↔ IsAt RouteValues.Instance path.now }
{
    path.as_bytes()
        .strip_prefix(b"/instance/".as_slice())
        .is_some()
}

/// Whether a path is that of the route.
fn is_at(route: Route, path: &str) -> bool
    ensures { IsTrue result ↔ IsAt route path.now }
{
    if goes_on(route) {
        return is_instance(path);
    }
    path == route.path()
}

/// The route that reads, of a path.
fn reading_at(path: &str) -> Option<Route>
    ensures found { IfSome result (λ route. IsAt route path.now) }
    ensures none { IfNone result
        ((route : RouteValue) → is_act route ≡ false → IsAt route path.now → ⊥) }
{
    if is_at(Route::Page, path) {
        return Some(Route::Page);
    }
    if is_at(Route::Status, path) {
        return Some(Route::Status);
    }
    if is_at(Route::Rows, path) {
        return Some(Route::Rows);
    }
    if is_at(Route::Instance, path) {
        return Some(Route::Instance);
    }
    if is_at(Route::Journal, path) {
        return Some(Route::Journal);
    }
    if is_at(Route::Metrics, path) {
        return Some(Route::Metrics);
    }
    if is_at(Route::Health, path) {
        return Some(Route::Health);
    }
    None
}

/// The act of a path.
fn act_at(path: &str) -> Option<Route>
    ensures found { IfSome result (λ route. IsAt route path.now) }
    ensures none { IfNone result
        ((route : RouteValue) → is_act route ≡ true → IsAt route path.now → ⊥) }
{
    if is_at(Route::Requeue, path) {
        return Some(Route::Requeue);
    }
    if is_at(Route::GiveUp, path) {
        return Some(Route::GiveUp);
    }
    if is_at(Route::Forget, path) {
        return Some(Route::Forget);
    }
    if is_at(Route::Visit, path) {
        return Some(Route::Visit);
    }
    if is_at(Route::Backup, path) {
        return Some(Route::Backup);
    }
    if is_at(Route::Stop, path) {
        return Some(Route::Stop);
    }
    None
}

/// The route of a path.
pub(crate) fn route_at(path: &str) -> Option<Route>
    ensures found { IfSome result (λ route. IsAt route path.now) }
    ensures none { IfNone result ((route : RouteValue) → IsAt route path.now → ⊥) }
{
    match reading_at(path) {
        Some(route) => Some(route),
        None => act_at(path),
    }
}
