//! A small site, read, typed and linted, and a history of its records.

ghost use Rattle.std.specs.Prelude.{◌≡◌, IfOk, IfSome};
ghost use Rattle.doll_journal.specs.Storable.{AreStorable};
ghost use Rattle.doll_sound.specs.Names.{AreNamed, HasNames, HasPaths};
ghost use Rattle.doll_sound.specs.Sites.{HasDistinctPlurals};

use doll_base::ViewFile;
use doll_digest::{Md5Hash, Registry};
use doll_journal::{Changes, changes_of};
use doll_keep::MemKeeper;
use doll_lint::checked::{Checked, lint};
use doll_records::Records;
use doll_route::Routes;
use doll_schema::Schema;
use doll_set::{SetFault, TemplateSet};
use doll_sound::{md5_gives_digests, schemas_have_names, schemas_have_plurals, sets_have_paths};
use doll_text::{Copied, Memory, Name, Text};
use doll_types::type_set;
use serde_json::Value;
use std::alloc::Global;

/// Products, which have names.
const MODELS: &str =
    r#"{"models":[{"name":"product","plural":"products","attributes":[{"name":"name","kind":"text"}]}]}"#;

/// The page of a product.
const ROUTES: &str = r#"[{"path":"/products/:id","template":"products/show","record":"product"}]"#;

const PAGE: (&str, &str) = (
    "products/show.html.erb",
    "<% cache product do %><%= product.name %><% end %>",
);

/// A product more.
const CREATE: &str = r#"[{"create":"product","values":{"name":"Chess"}}]"#;

fn json(alloc: Global, text: &str) -> Option<Value> {
    Value::from_slice(alloc, text.as_bytes()).ok()
}

/// A schema that was read.
fn schema_in(alloc: Global, json: &Value) -> Option<Schema>
    ensures plurals { IfSome result HasDistinctPlurals }
    ensures names { IfSome result AreNamed }
{
    schemas_have_plurals();
    schemas_have_names();
    match Schema::read(alloc, json) {
        Ok(schema) => Some(schema),
        Err(_) => None,
    }
}

/// The site's schema.
pub fn schema(alloc: Global) -> Option<Schema>
    ensures plurals { IfSome result HasDistinctPlurals }
    ensures names { IfSome result AreNamed }
{
    match json(alloc, MODELS) {
        Some(json) => schema_in(alloc, &json),
        None => None,
    }
}

fn routes_in(alloc: Global, json: &Value, schema: &Schema) -> Option<Routes> {
    Routes::read(alloc, json, schema).ok()
}

fn routes(alloc: Global, schema: &Schema) -> Option<Routes> {
    match json(alloc, ROUTES) {
        Some(json) => routes_in(alloc, &json, schema),
        None => None,
    }
}

fn file(alloc: Global, name: &str, source: &str) -> Result<ViewFile, Memory> {
    Ok(ViewFile {
        name: Name::from_bytes(alloc, name.as_bytes())?,
        source: Text::from_bytes(alloc, source.as_bytes())?,
    })
}

fn set(alloc: Global) -> Result<TemplateSet, SetFault>
    ensures { IfOk result HasPaths }
{
    let (name, source) = PAGE;
    let mut files = Vec::new(alloc);
    files.push(file(alloc, name, source)?)?;
    set_of(alloc, files.as_slice())
}

/// The set that files make.
fn set_of(alloc: Global, files: &[ViewFile]) -> Result<TemplateSet, SetFault>
    ensures { IfOk result HasPaths }
{
    sets_have_paths();
    md5_gives_digests();
    let mut registry = Registry::new(alloc, Md5Hash);
    TemplateSet::read(alloc, files, &mut registry)
}

/// The site's set, checked under a schema.
fn checked_by(alloc: Global, set: TemplateSet, schema: Schema, routes: &Routes) -> Option<Checked>
    ensures schema { IfSome result (λ checked. checked.schema ≡ schema) }
    ensures set { IfSome result (λ checked. checked.set ≡ set) }
{
    match type_set(alloc, set, schema, routes) {
        Ok(typed) => lint(alloc, typed).ok(),
        Err(_) => None,
    }
}

/// The same of the site.
pub fn checked(alloc: Global, schema: Schema) -> Option<Checked>
    requires { AreNamed schema }
    ensures schema { IfSome result (λ checked. checked.schema ≡ schema) }
    ensures names { IfSome result (λ checked. HasNames checked.set checked.schema) }
{
    let routes = routes(alloc, &schema)?;
    match set(alloc) {
        Ok(set) => checked_by(alloc, set, schema, &routes),
        Err(_) => None,
    }
}

/// No commits yet, kept in memory.
pub fn records(alloc: Global, schema: Schema) -> Option<Records<MemKeeper>>
    ensures { IfSome result (λ records. records.schema ≡ schema) }
{
    let keeper = MemKeeper::new(alloc, Vec::new(alloc), None);
    match Records::open(alloc, keeper, schema) {
        Ok(records) => Some(records),
        Err(_) => None,
    }
}

/// An equal value.
pub fn copied<T: Copied>(alloc: Global, value: &T) -> Option<T>
    ensures { IfSome result (λ copy. copy ≡ value.now) }
{
    match value.copy(alloc) {
        Ok(copy) => Some(copy),
        Err(_) => None,
    }
}

fn changes_in(alloc: Global, json: &Value) -> Option<Changes>
    ensures { IfSome result (λ changes. AreStorable changes) }
{
    match changes_of(alloc, json) {
        Ok(changes) => changes,
        Err(_) => None,
    }
}

/// The creation of a product.
pub fn creation(alloc: Global) -> Option<Changes>
    ensures { IfSome result (λ changes. AreStorable changes) }
{
    match json(alloc, CREATE) {
        Some(json) => changes_in(alloc, &json),
        None => None,
    }
}
