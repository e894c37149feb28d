//! Laws of paths and routes, as clauses of functions that do nothing. A caller has a law by calling its function.
ghost use Rattle.std.specs.Prelude.{◌≡◌, ℕ, List};
ghost use Rattle.http_routes.specs.declared.route.Route.{Route};
ghost use Rattle.http_routes.specs.Paths.{Resource, IsPath};
ghost use Rattle.http_routes.specs.Routing.{IsRoute};

/// A path is of one resource at most, and has its parts in one way.
pub fn one_resource()
    ensures { (path : List ℕ) (one other : Resource) → IsPath one path → IsPath other path → one ≡ other }
{}

/// A request has one route at most.
pub fn one_route()
    ensures { (account method path query : List ℕ) (one other : Route)
        → IsRoute account method path query one → IsRoute account method path query other → one ≡ other }
{}
