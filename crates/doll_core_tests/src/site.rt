//! Sites that are made of texts: read, typed and linted, with no commits yet.

ghost use Rattle.std.specs.Prelude.{◌≡◌, ◌≤◌, ◌^◌, length, IfOk, IfSome};
ghost use Rattle.doll_journal.specs.Storable.{AreStorable};
ghost use Rattle.doll_sound.specs.Names.{AreNamed, HasNames, HasPaths};
ghost use Rattle.doll_sound.specs.Sites.{HasDistinctPlurals};

use doll_base::ViewFile;
use doll_digest::{Md5Hash, Registry};
use doll_journal::{Changes, changes_of};
use doll_keep::MemKeeper;
use doll_lint::checked::{Checked, lint};
use doll_records::Records;
use doll_route::Routes;
use doll_schema::Schema;
use doll_set::{SetFault, TemplateSet};
use doll_sound::{md5_gives_digests, schemas_have_names, schemas_have_plurals, sets_have_paths};
use doll_text::{Copied, Memory, Name, Text};
use doll_types::type_set;
use serde_json::Value;
use std::alloc::Global;

/// The name of a file and its text.
pub type View = (&'static str, &'static str);

/// A site whose set is checked, and its history.
#[derive(Drop)]
pub struct Site {
    pub routes: Routes,
    pub checked: Checked,
    pub records: Records<MemKeeper>,
}

/// The site of these models and routes, in JSON, and these views; nothing where it isn't one or memory ran out.
pub fn site_of(alloc: Global, models: &str, routes: &str, views: &[View]) -> Option<Site>
    ensures schema { IfSome result (λ site. site.records.schema ≡ site.checked.schema) }
    ensures routes { IfSome result (λ site. site.routes ≡ site.checked.routes) }
    ensures plurals { IfSome result (λ site. HasDistinctPlurals site.checked.schema) }
    ensures names { IfSome result (λ site. HasNames site.checked.set site.checked.schema) }
    ensures few { IfSome result (λ site. length site.checked.set.templates ≤ 2 ^ 16) }
{
    let schema = schema(alloc, models)?;
    let records = records(alloc, copied(alloc, &schema)?)?;
    let routes = routes_of(alloc, routes, &schema)?;
    let set = set(alloc, views)?;
    let checked = checked(alloc, set, schema, &routes)?;
    Some(Site {
        routes,
        checked,
        records,
    })
}

fn json(alloc: Global, text: &str) -> Option<Value> {
    Value::from_slice(alloc, text.as_bytes()).ok()
}

fn schema_in(alloc: Global, json: &Value) -> Option<Schema>
    ensures plurals { IfSome result HasDistinctPlurals }
    ensures names { IfSome result AreNamed }
{
    schemas_have_plurals();
    schemas_have_names();
    match Schema::read(alloc, json) {
        Ok(schema) => Some(schema),
        Err(_) => None,
    }
}

fn schema(alloc: Global, models: &str) -> Option<Schema>
    ensures plurals { IfSome result HasDistinctPlurals }
    ensures names { IfSome result AreNamed }
{
    match json(alloc, models) {
        Some(json) => schema_in(alloc, &json),
        None => None,
    }
}

fn routes_in(alloc: Global, json: &Value, schema: &Schema) -> Option<Routes> {
    Routes::read(alloc, json, schema).ok()
}

fn routes_of(alloc: Global, routes: &str, schema: &Schema) -> Option<Routes> {
    match json(alloc, routes) {
        Some(json) => routes_in(alloc, &json, schema),
        None => None,
    }
}

/// No commits yet, kept in memory.
fn records(alloc: Global, schema: Schema) -> Option<Records<MemKeeper>>
    ensures { IfSome result (λ records. records.schema ≡ schema) }
{
    let keeper = MemKeeper::new(alloc, Vec::new(alloc), None);
    match Records::open(alloc, keeper, schema) {
        Ok(records) => Some(records),
        Err(_) => None,
    }
}

/// An equal value.
fn copied<T: Copied>(alloc: Global, value: &T) -> Option<T>
    ensures { IfSome result (λ copy. copy ≡ value.now) }
{
    match value.copy(alloc) {
        Ok(copy) => Some(copy),
        Err(_) => None,
    }
}

fn file(alloc: Global, view: View) -> Result<ViewFile, Memory> {
    let (name, source) = view;
    Ok(ViewFile {
        name: Name::from_bytes(alloc, name.as_bytes())?,
        source: Text::from_bytes(alloc, source.as_bytes())?,
    })
}

fn files(alloc: Global, views: &[View]) -> Result<Vec<ViewFile>, Memory> {
    let mut files = Vec::new(alloc);
    for view in views {
        files.push(file(alloc, *view)?)?;
    }
    Ok(files)
}

/// The set that files make.
fn set_of(alloc: Global, files: &[ViewFile]) -> Result<TemplateSet, SetFault>
    ensures { IfOk result HasPaths }
{
    sets_have_paths();
    md5_gives_digests();
    let mut registry = Registry::new(alloc, Md5Hash);
    TemplateSet::read(alloc, files, &mut registry)
}

fn set(alloc: Global, views: &[View]) -> Option<TemplateSet>
    ensures paths { IfSome result HasPaths }
    ensures few { IfSome result (λ set. length set.templates ≤ 2 ^ 16) }
{
    match files(alloc, views) {
        Ok(files) => few_of(set_of(alloc, files.as_slice())),
        Err(_) => None,
    }
}

/// A set that was read, where it has no more templates than two bytes count.
fn few_of(read: Result<TemplateSet, SetFault>) -> Option<TemplateSet>
    requires { IfOk read HasPaths }
    ensures paths { IfSome result HasPaths }
    ensures few { IfSome result (λ set. length set.templates ≤ 2 ^ 16) }
{
    match read {
        Ok(set) => {
            if set.templates().len() > 65_536 {
                return None;
            }
            Some(set)
        }
        Err(_) => None,
    }
}

/// The set, typed and linted.
fn checked(alloc: Global, set: TemplateSet, schema: Schema, routes: &Routes) -> Option<Checked>
    requires paths { HasPaths set }
    requires few { length set.templates ≤ 2 ^ 16 }
    requires named { AreNamed schema }
    requires distinct { HasDistinctPlurals schema }
    ensures schema { IfSome result (λ checked. checked.schema ≡ schema) }
    ensures routes { IfSome result (λ checked. checked.routes ≡ routes.now) }
    ensures plurals { IfSome result (λ checked. HasDistinctPlurals checked.schema) }
    ensures names { IfSome result (λ checked. HasNames checked.set checked.schema) }
    ensures few { IfSome result (λ checked. length checked.set.templates ≤ 2 ^ 16) }
{
    linted(alloc, set, schema, routes)
}

fn linted(alloc: Global, set: TemplateSet, schema: Schema, routes: &Routes) -> Option<Checked>
    ensures set { IfSome result (λ checked. checked.set ≡ set) }
    ensures schema { IfSome result (λ checked. checked.schema ≡ schema) }
    ensures routes { IfSome result (λ checked. checked.routes ≡ routes.now) }
{
    match type_set(alloc, set, schema, routes) {
        Ok(typed) => lint(alloc, typed).ok(),
        Err(_) => None,
    }
}

fn changes_in(alloc: Global, json: &Value) -> Option<Changes>
    ensures { IfSome result AreStorable }
{
    match changes_of(alloc, json) {
        Ok(changes) => changes,
        Err(_) => None,
    }
}

/// The changes that a text in JSON has.
pub fn changes(alloc: Global, text: &str) -> Option<Changes>
    ensures { IfSome result AreStorable }
{
    match json(alloc, text) {
        Some(json) => changes_in(alloc, &json),
        None => None,
    }
}
