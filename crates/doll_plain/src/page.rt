//! The page of a route.

ghost use Rattle.std.specs.Prelude.{◌≡◌, IfOk};
ghost use Rattle.doll_table.specs.Fits.{Fits};
ghost use Rattle.doll_eval.specs.Living.{AreLiving};
ghost use Rattle.doll_plain.specs.Pages.{MoreLevelsChangeNothing, named_writes, page_of};

use crate::render::render_template;
use crate::variables::{is_there, route_variables};
use doll_route::{Found, Routes};
use doll_schema::{Schema, Values, Vars};
use doll_set::{LONGEST_CHAIN, TemplateSet};
use doll_table::{Looking, Table};
use doll_text::{Bytes, Memory};
use std::alloc::Global;

/// The page of the route that a path found, with these values of its parameters: its template is rendered over the table and no
/// cache is read or written. None exactly where the record that the route is about isn't in the table. A template or a partial that
/// the set hasn't writes nothing.
pub fn plain_page(
    alloc: Global,
    set: &TemplateSet,
    schema: &Schema,
    routes: &Routes,
    found: &Found,
    params: &Values,
    table: &Table,
) -> Result<Option<Bytes>, Memory>
    requires { Fits schema.now table.now }
    ensures { IfOk result (λ page. page
        ≡ page_of set.now schema.now routes.now found.now params.now table.now) }
{
    let Some(route) = routes.route(found.route) else {
        return Ok(None);
    };
    if !is_there(table, route.subject, found.id) {
        return Ok(None);
    }
    let vars = route_variables(alloc, schema, route, found.id, params, table)?;
    let page = named_page(alloc, set, schema, table, route.template.as_bytes(), vars)?;
    Ok(Some(page))
}

/// What a template of a set writes is the same by any number of levels of partials from the most templates of a chain on.
pub fn more_levels_change_nothing()
    ensures { MoreLevelsChangeNothing }
{}

/// What the template with a name writes.
fn named_page(
    alloc: Global,
    set: &TemplateSet,
    schema: &Schema,
    table: &Table,
    name: &[u8],
    vars: Vars,
) -> Result<Bytes, Memory>
    requires fits { Fits schema.now table.now }
    requires living { AreLiving table.now vars }
    ensures { IfOk result (λ page. page
        ≡ named_writes schema.now table.now set.now.templates name.now vars) }
{
    let mut out = Vec::new(alloc);
    let Some(number) = set.number_of(name) else {
        return Ok(Bytes::from_vec(out));
    };
    let mut rows = Looking::new(table);
    render_template(
        alloc,
        set,
        schema,
        LONGEST_CHAIN,
        number,
        vars,
        &mut rows,
        &mut out,
    )?;
    Ok(Bytes::from_vec(out))
}
