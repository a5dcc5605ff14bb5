//! How many routes a site may have.

/// How many routes.
pub const MOST_ROUTES: u32 = 256;

/// How many parameters of a route.
pub const MOST_PARAMS: usize = 8;
