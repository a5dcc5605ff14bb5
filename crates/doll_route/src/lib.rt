//! The routes of a site: read from JSON, found by the path of a request, with the parameters of its query.
#![tactic(auto)]

mod draft;
pub mod fault;
pub mod limits;
pub mod path;
mod query;
mod reading;
pub mod route;
pub mod routes;
mod row;

pub use fault::RouteFault;
pub use path::split_target;
pub use reading::variable_of;
pub use route::{Found, Names, Route, Subject};
pub use routes::Routes;
