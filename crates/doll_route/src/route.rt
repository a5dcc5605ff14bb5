//! A route, what it is about, and what a path finds.

use doll_text::{Items, Name, Text};

/// Names of variables.
pub type Names = Items<Name>;

/// What a route is about.
#[derive(Clone, Copy, PartialEq, Eq)]
pub enum Subject {
    Nothing,
    /// The record of a model that the path names by its id. Its variable has the model's name.
    Record { model: u16 },
    /// All records of a model. Their variable has the model's plural.
    List { model: u16 },
}

/// A page of a site: the path that it has, the template that it is rendered from, and the variables that it binds.
#[derive(Drop)]
pub struct Route {
    /// A slash, or literal segments, each behind a slash, with `/:id` at the end exactly where the route is about a record.
    pub path: Text,
    /// The virtual path of the template.
    pub template: Name,
    pub subject: Subject,
    /// The parameters of a query, at most 8, each a variable of its name.
    pub params: Names,
}

/// The route that a path asks for, by its number, with the id of its record where it is about one.
#[derive(Clone, Copy, PartialEq, Eq)]
pub struct Found {
    pub route: u16,
    pub id: Option<u32>,
}
