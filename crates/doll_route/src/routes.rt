//! The routes of a site.

ghost use Rattle.std.specs.Prelude.{◌≡◌, ◌++◌, ◌∷◌, [], ◌<◌, false, Ok, length, slice_get, IfOk, IfSome};
ghost use Rattle.std.specs.Option.{option_copied};
ghost use Rattle.serde_json.specs.View.{view};
ghost use Rattle.doll_text.specs.Gives.{Gives};
ghost use Rattle.doll_route.specs.declared.route.Route.{Route};
ghost use Rattle.doll_route.specs.Queries.{AreParamsFor, param_names, params_in};
ghost use Rattle.doll_route.specs.Readings.{routes_of};
ghost use Rattle.doll_route.specs.Routes.{AreRoutes, AreRoutesOf, IsFoundIn, IsRoute, IsTheOnly, has_path, found_number, route_of};

use crate::fault::RouteFault;
use crate::limits::MOST_ROUTES;
use crate::path::requested;
use crate::query::values_of;
use crate::reading::route_in;
use crate::route::{Found, Route};
use crate::row::add_row;
use doll_schema::{Schema, Values};
use doll_text::{Items, Memory};
use matchit::Router;
use serde_json::Value;
use std::alloc::Global;
use std::marker::Model;

/// The routes of a site, at most 256, each named by its number in this list, with a router that finds them by their paths.
#[derive(Drop)]
pub struct Routes {
    routes: Items<Route>,
    router: Router<u16>,
}

impl Model for Routes {
    ghost use Rattle.std.specs.Prelude.{List};
    ghost use Rattle.doll_route.specs.declared.route.Route.{Route};
    ghost use Rattle.doll_route.specs.Routes.{AreRoutes};
    ghost use Rattle.doll_route.specs.Rows.{HasRows};

    ghost Value = { List Route };

    ghost view = { λ r. r.routes };

    ghost invariant = { λ r. AreRoutes r.routes × HasRows r.routes r.router };
}

impl Routes {
    /// No routes.
    pub fn empty(alloc: Global) -> Routes
        ensures { result ≡ [] }
    {
        Routes {
            routes: Items::new(alloc),
            router: Router::new(alloc),
        }
    }

    /// The routes that a JSON value is, or the first fault of the first route that has one. A value that is no array has the
    /// fault of route 0.
    pub fn read(alloc: Global, json: &Value, schema: &Schema) -> Result<Routes, RouteFault>
        ensures exact { Gives RouteFault.Memory (routes_of schema.now (view json.now)) result }
        ensures fits { IfOk result (AreRoutesOf schema.now) }
    {
        let Some(items) = json.as_array() else {
            return Err(RouteFault::BadForm { at: 0 });
        };
        let mut routes = Routes::empty(alloc);
        for item in items.as_slice() {
            let route = route_in(alloc, schema, routes.as_slice(), item)?;
            routes = routes.with(alloc, route)?;
        }
        Ok(routes)
    }

    /// These routes and one more.
    fn with(self, alloc: Global, route: Route) -> Result<Routes, Memory>
        requires route { IsRoute route }
        requires fresh { has_path self route.path ≡ false }
        requires room { length self < MOST_ROUTES }
        ensures { IfOk result (λ routes. routes ≡ self ++ route ∷ []) }
    {
        let Routes {
            mut routes,
            mut router,
        } = self;
        add_row(
            alloc,
            &mut router,
            route.path.as_bytes(),
            routes.len() as u16,
        )?;
        routes.push(route)?;
        Ok(Routes { routes, router })
    }

    /// The routes in the order of their numbers.
    pub fn as_slice(&self) -> &[Route]
        ensures routes { result.now ≡ self.now }
        ensures kept { AreRoutes self.now }
    {
        self.routes.as_slice()
    }

    /// The route with a number.
    pub fn route(&self, number: u16) -> Option<&Route>
        ensures { option_copied result ≡ slice_get self.now number }
    {
        self.routes.get(number as usize)
    }

    /// The route that a path asks for. The path is read in its own length, whatever the number of routes, and takes no memory.
    pub fn find(&self, path: &str) -> Result<Option<Found>, Memory>
        ensures exact { result ≡ Ok (route_of self.now path.now) }
        ensures only { IfOk result (λ found. IsTheOnly self.now path.now (found_number found)) }
        ensures fits { IfOk result (λ found. IfSome found (IsFoundIn self.now)) }
    {
        Ok(self.found(path, self.candidate(path)))
    }

    /// The number of the only route that a path may ask for.
    fn candidate(&self, path: &str) -> Option<u16>
        ensures { IsTheOnly self.now path.now result }
    {
        match self.router.at(path) {
            Ok(found) => Some(*found.value),
            Err(_) => None,
        }
    }

    /// The route with a number, where the path asks for it.
    fn found(&self, path: &str, number: Option<u16>) -> Option<Found>
        requires { IsTheOnly self.now path.now number }
        ensures exact { result ≡ route_of self.now path.now }
        ensures fits { IfSome result (IsFoundIn self.now) }
    {
        let route = number?;
        let own = self.routes.get(route as usize)?;
        let id = requested(own.path.as_bytes(), path.as_bytes())?;
        Some(Found { route, id })
    }

    /// The values of a route's parameters in a query: of each name the first pair's value, else nil.
    pub fn params(&self, alloc: Global, route: u16, query: &str) -> Result<Values, Memory>
        requires { route < length self.now }
        ensures exact { IfOk result (λ values. values ≡ params_in self.now route query.now) }
        ensures fits { IfOk result (AreParamsFor (param_names (slice_get self.now route))) }
    {
        match self.routes.get(route as usize) {
            Some(own) => values_of(alloc, &own.params, query),
            None => unreachable!(),
        }
    }
}
