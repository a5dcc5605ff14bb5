//! Small sites, typed, and the faults that they have as lines.

use doll_base::ViewFile;
use doll_digest::{Md5Hash, Registry};
use doll_faults::{lint_lines, type_lines};
use doll_lint::checked::{LintRefusal, lint};
use doll_route::Routes;
use doll_schema::Schema;
use doll_set::{SetFault, TemplateSet};
use doll_text::{Memory, Name, Text};
use doll_types::{TypeRefusal, Typed, type_set};
use serde_json::Value;
use std::alloc::Global;

/// Products with their games, and comments with their replies.
pub const MODELS: &str =
    r#"{"models":[{"name":"product","plural":"products","attributes":[{"name":"name","kind":"text"},{"name":"price","kind":"integer"}],"has_many":[{"name":"games","model":"game","inverse":"product","dependent":"destroy"}]},{"name":"game","plural":"games","attributes":[{"name":"name","kind":"text"}],"belongs_to":[{"name":"product","model":"product","touch":true}]},{"name":"comment","plural":"comments","attributes":[{"name":"body","kind":"text"}],"belongs_to":[{"name":"parent","model":"comment","touch":true,"null":true}],"has_many":[{"name":"replies","model":"comment","inverse":"parent"}]}]}"#;

fn schema_in(alloc: Global, json: &Value) -> Option<Schema> {
    Schema::read(alloc, json).ok()
}

fn schema(alloc: Global, models: &str) -> Option<Schema> {
    match Value::from_slice(alloc, models.as_bytes()) {
        Ok(json) => schema_in(alloc, &json),
        Err(_) => None,
    }
}

fn routes_in(alloc: Global, json: &Value, schema: &Schema) -> Option<Routes> {
    Routes::read(alloc, json, schema).ok()
}

fn routes(alloc: Global, text: &str, schema: &Schema) -> Option<Routes> {
    match Value::from_slice(alloc, text.as_bytes()) {
        Ok(json) => routes_in(alloc, &json, schema),
        Err(_) => None,
    }
}

fn file(alloc: Global, name: &str, source: &str) -> Result<ViewFile, Memory> {
    Ok(ViewFile {
        name: Name::from_bytes(alloc, name.as_bytes())?,
        source: Text::from_bytes(alloc, source.as_bytes())?,
    })
}

fn files(alloc: Global, pairs: &[(&str, &str)]) -> Result<Vec<ViewFile>, Memory> {
    let mut files = Vec::new(alloc);
    for (name, source) in pairs {
        files.push(file(alloc, name, source)?)?;
    }
    Ok(files)
}

fn set(alloc: Global, pairs: &[(&str, &str)]) -> Result<TemplateSet, SetFault> {
    let files = files(alloc, pairs)?;
    let mut registry = Registry::new(alloc, Md5Hash);
    TemplateSet::read(alloc, files.as_slice(), &mut registry)
}

/// What typing says of the site with these models, routes and files; nothing where it can't be read.
pub fn typed(
    alloc: Global,
    models: &str,
    text: &str,
    pairs: &[(&str, &str)],
) -> Option<Result<Typed, TypeRefusal>> {
    let schema = schema(alloc, models)?;
    let routes = routes(alloc, text, &schema)?;
    let set = set(alloc, pairs).ok()?;
    Some(type_set(alloc, set, schema, &routes))
}

/// A line for each fault of a site, none where it is typed; nothing where it can't be read or memory ran out.
pub fn told(alloc: Global, text: &str, pairs: &[(&str, &str)]) -> Option<Vec<u8>> {
    match typed(alloc, MODELS, text, pairs)? {
        Ok(_) => Some(Vec::new(alloc)),
        Err(TypeRefusal::Faults(faults)) => type_lines(alloc, faults.as_slice()).ok(),
        Err(TypeRefusal::Memory) => None,
    }
}

/// A line for each fault of a lint, none where the set is clean; nothing where memory ran out.
fn linted(alloc: Global, typed: Typed) -> Option<Vec<u8>> {
    match lint(alloc, typed) {
        Ok(_) => Some(Vec::new(alloc)),
        Err(LintRefusal::Faults(faults)) => lint_lines(alloc, faults.as_slice()).ok(),
        Err(LintRefusal::Memory) => None,
    }
}

/// A line for each fault of a site's types, where there are any, else one for each of its lint.
pub fn lint_told(
    alloc: Global,
    models: &str,
    text: &str,
    pairs: &[(&str, &str)],
) -> Option<Vec<u8>> {
    match typed(alloc, models, text, pairs)? {
        Ok(typed) => linted(alloc, typed),
        Err(TypeRefusal::Faults(faults)) => type_lines(alloc, faults.as_slice()).ok(),
        Err(TypeRefusal::Memory) => None,
    }
}
