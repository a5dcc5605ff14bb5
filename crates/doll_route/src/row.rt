//! The rows of a router, one for each route.

ghost use Rattle.std.specs.Prelude.{◌≡◌, None, IfOk, OnOk, Ok, string_bytes};
ghost use Rattle.std.specs.Str.{IsUtf8};
ghost use Rattle.matchit.specs.Route.{parse_route, Scan};
ghost use Rattle.matchit.specs.Router.{nearest};
ghost use Rattle.doll_route.specs.Rows.{AddsRow, router_text, pattern_of};

use crate::path::before_id;
use doll_text::Memory;
use matchit::{InsertError, Router};
use std::alloc::Global;

/// Adds the row of a route's path with a number.
pub fn add_row(
    alloc: Global,
    router: &mut Router<u16>,
    path: &[u8],
    number: u16,
) -> Result<(), Memory>
    requires text { IsUtf8 (router_text path.now) }
    requires reads { (s : Scan) × (parse_route (router_text path.now) ≡ Ok s)
        × (s.pattern ≡ pattern_of path.now) }
    requires apart { nearest (pattern_of path.now) router.old ≡ None }
    ensures { OnOk result (AddsRow (pattern_of path.now) number router.old router.new) }
{
    let text = router_text(alloc, path)?;
    match router.insert(text.as_str(), number) {
        Ok(()) => Ok(()),
        Err(InsertError::OutOfMemory) => Err(Memory),
        Err(_) => unreachable!(),
    }
}

/// The text of a path's pattern.
fn router_text(alloc: Global, path: &[u8]) -> Result<String, Memory>
    requires { IsUtf8 (router_text path.now) }
    ensures { IfOk result (λ text. string_bytes text ≡ router_text path.now) }
{
    let bytes = match before_id(path) {
        Some(front) => {
            let mut bytes = Vec::from_slice(alloc, front)?;
            bytes.extend_from_slice("{id}".as_bytes())?;
            bytes
        }
        None => Vec::from_slice(alloc, path)?,
    };
    match String::from_utf8(bytes) {
        Ok(text) => Ok(text),
        Err(_) => unreachable!(),
    }
}
