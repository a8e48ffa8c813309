ghost use Rattle.std.specs.Prelude.{◌≡◌, IfOk};
ghost use Rattle.http_routes.specs.Table.{table};

use http_routes::{Route, router};
use matchit::Router;
use request_events::Defaults;
use std::alloc::{AllocError, Global};

/// What connections are served by: what the settings add to a request, and the router of the table of routes. It is made once, for
/// any number of connections beside and after each other.
#[derive(Drop)]
pub struct Interface {
    pub(crate) defaults: Defaults,
    pub(crate) router: Router<Route>,
    ghost is_table: { router ≡ table },
}

impl Interface {
    /// Fails for want of memory alone.
    pub fn new(alloc: Global, defaults: Defaults) -> Result<Interface, AllocError>
        ensures { IfOk result (λ made. made.defaults ≡ defaults) }
    {
        match router(alloc) {
            Ok(router) => Ok(Interface { defaults, router }),
            Err(_) => Err(AllocError),
        }
    }
}
