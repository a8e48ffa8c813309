//! The routes in plain words: functions that do nothing, whose contracts the table keeps.
ghost use Rattle.http_routes.specs.Laws.{FormsHaveRoutes, RoutesHaveForms};

/// A path that has a route has the form of the route.
pub fn routes_have_forms()
    ensures { RoutesHaveForms }
{}

/// A path of the form of a route has this route.
pub fn forms_have_routes()
    ensures { FormsHaveRoutes }
{}
