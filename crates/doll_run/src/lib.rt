//! What rendering through a cache still has to do, and that a page comes out of it as direct rendering has it.
#![tactic(auto)]

ghost use Rattle.doll_run.specs.Comes.{PagesComeOut, RouteVariablesHaveTypes};

/// The variables that a route binds have the types that it gives them.
pub fn route_variables_have_types()
    ensures { RouteVariablesHaveTypes }
{}

/// In a typed set: where each block is answered by what it shows with no cache, if it is answered at all, the page of a route that is rendered through the cache
/// is that of direct rendering, and each block that is handed in on the way is one that a page reaches, as it shows.
pub fn pages_come_out()
    ensures { PagesComeOut }
{}
