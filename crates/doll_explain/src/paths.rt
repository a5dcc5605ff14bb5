//! A path that has no page, and words that are no command, explained.

use crate::words::{path_words, record_words};
use doll_excerpt::{Paper, put_quoted, put_shown};
use doll_route::{Found, Route, Routes, split_target};
use doll_text::Memory;
use std::alloc::Global;

/// How many routes are shown that are near a path.
const MOST_NEAR: usize = 3;

/// The commands, each with an example.
const USAGE: &str = "\
these words are none of the commands
doll plain PATH < BUNDLE     writes the page of a path: doll plain /products/1 < examples/hello.json
doll lint < BUNDLE           writes the faults of the templates, or clean
doll digests < BUNDLE        writes the digests of the templates
doll replay < BUNDLE         writes what the orders of the site's script come to
Each reads a site's bundle, a JSON object, from standard input.";

/// Appends the usage.
pub(crate) fn put_usage(paper: &mut Paper) -> Result<(), Memory> {
    paper.put(USAGE)
}

/// Appends why a path has no page: no route has it, with the routes that are nearest, or its record isn't there.
pub(crate) fn put_path(
    alloc: Global,
    paper: &mut Paper,
    routes: &Routes,
    target: &str,
) -> Result<(), Memory> {
    let (path, _query) = split_target(target);
    put_quoted(paper, path.as_bytes())?;
    match routes.find(path)? {
        Some(found) => put_record(paper, routes, found),
        None => put_near(alloc, paper, routes.as_slice(), path.as_bytes()),
    }
}

/// Appends that a record isn't there, with the route that was found.
fn put_record(paper: &mut Paper, routes: &Routes, found: Found) -> Result<(), Memory> {
    let words = record_words();
    paper.put(" ")?;
    paper.put(words.wrong)?;
    paper.put("\n")?;
    if let Some(route) = routes.route(found.route) {
        put_one(paper, route)?;
    }
    paper.put(words.instead)
}

/// Appends the routes that are nearest to a path.
fn put_near(alloc: Global, paper: &mut Paper, routes: &[Route], path: &[u8]) -> Result<(), Memory> {
    let words = path_words();
    paper.put(" ")?;
    paper.put(words.wrong)?;
    paper.put("\n")?;
    let mut shown = Vec::new(alloc);
    for _ in 0..MOST_NEAR {
        let Some((number, route)) = nearest(routes, path, shown.as_slice()) else {
            return paper.put(words.instead);
        };
        put_one(paper, route)?;
        shown.push(number)?;
    }
    paper.put(words.instead)
}

/// Appends a route and its template.
fn put_one(paper: &mut Paper, route: &Route) -> Result<(), Memory> {
    paper.put("  ")?;
    put_shown(paper, route.path.as_bytes())?;
    paper.put("  (")?;
    put_shown(paper, route.template.as_bytes())?;
    paper.put(")\n")
}

/// The first of the routes with the longest front in common with a path that isn't shown yet, with its number.
fn nearest<'a>(routes: &'a [Route], path: &[u8], shown: &[usize]) -> Option<(usize, &'a Route)> {
    let mut best: Option<(usize, &'a Route)> = None;
    let mut length = 0;
    for (number, route) in routes.iter().enumerate() {
        let common = common_front(route.path.as_bytes(), path);
        if !shown.contains(&number) && (best.is_none() || common > length) {
            best = Some((number, route));
            length = common;
        }
    }
    best
}

/// How many bytes two texts have in common at their fronts.
fn common_front(one: &[u8], other: &[u8]) -> usize {
    for (at, byte) in one.iter().enumerate() {
        if other.get(at) != Some(byte) {
            return at;
        }
    }
    one.len()
}
