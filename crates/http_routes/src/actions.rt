ghost use Rattle.std.specs.Prelude.{◌≡◌, map};
ghost use Rattle.http_routes.specs.Table.{row_of};
ghost use Rattle.http_routes.specs.Actions.{action_of, asked_by};

use crate::route::{Action, Route};

impl Route {
    /// What a method asks for at the route, None if the route doesn't take it.
    pub fn action(self, method: &[u8]) -> Option<Action>
        ensures { result ≡ action_of self method.now }
    {
        asked_by(self.actions(), method)
    }
}

/// What the first row of a method asks for.
fn asked_by(rows: &[(&str, Action)], method: &[u8]) -> Option<Action>
    ensures { result ≡ asked_by method.now (map row_of rows.now) }
{
    for (name, action) in rows {
        if name.as_bytes() == method {
            return Some(*action);
        }
    }
    None
}
