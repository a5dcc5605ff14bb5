//! The files of a site's templates, as a bundle names them.

ghost use Rattle.std.specs.Prelude.{◌≡◌, [], not, option_map, IfOk, OnOk};
ghost use Rattle.std.proofs.Common.{refl, rules};
ghost use Rattle.std.specs.Cmp.{partial_order_from_own_ties};
ghost use Rattle.std.specs.Cmp.Rules.{comparing};
ghost use Rattle.std.specs.List.{list_any};
ghost use Rattle.std.specs.Ordering.{as_partial_cmp};
ghost use Rattle.std.specs.Str.{bytes_eq};
ghost use Rattle.serde_json.specs.Find.{as_str};
ghost use Rattle.serde_json.specs.View.{items_view, members_view, view};
ghost use Rattle.doll_text.specs.Gives.{GivesBy, GivesExactly};
ghost use Rattle.doll_schema.specs.Json.{list_if_given};
ghost use Rattle.doll_digest.specs.Registries.{name_added, names_in};
ghost use Rattle.doll_views.specs.Files.{wanted_names};
ghost use Rattle.doll_views.specs.Seen.{seen_listing};
ghost use Rattle.doll_views.specs.Views as spec;
ghost use Rattle.doll_views.specs.Views.{file_order, have_one_name};

use crate::refusal::{BundlePart, Kind, Refusal};
use doll_text::{Memory, Text};
use indexmap::IndexSet;
use serde_json::{Map, Value};
use std::alloc::{AllocError, Global};
use std::cmp::Ordering;
use std::marker::Model;

/// The name of a file, a text, which contracts see as the list of its bytes.
#[derive(Drop)]
pub struct FileName {
    text: String,
}

impl Model for FileName {
    ghost use Rattle.std.specs.Prelude.{ℕ, List, string_bytes};

    ghost Value = { List ℕ };

    ghost view = { λ name. string_bytes name.text };
}

impl FileName {
    pub fn new(alloc: Global, name: &str) -> Result<FileName, Memory>
        ensures { IfOk result (λ copy. copy ≡ name.now) }
    {
        let text = String::from_str(alloc, name)?;
        Ok(FileName { text })
    }

    pub fn as_str(&self) -> &str
        ensures { result.now ≡ self.now }
    {
        self.text.as_str()
    }
}

/// Where the source of a file is.
#[derive(Drop)]
pub enum Source {
    /// In the bundle.
    Given(Text),
    /// In the bundle, where something stands that is no text.
    NoText,
    /// In the folder, in the file with the same name.
    Folder,
}

/// A file of a template, as a bundle names it.
#[derive(Drop)]
pub struct NamedFile {
    pub name: FileName,
    pub source: Source,
}

/// What a bundle says of its files.
#[derive(Drop)]
pub struct Listing {
    /// All of them in ascending order of their names, of equal names those of `views` before those of `files`.
    pub files: Vec<NamedFile>,
    /// Those of `files` alone, ascending, each name once. They are read from the folder.
    pub wanted: Vec<NamedFile>,
}

/// A fault of the file with a number, or with 0 one of the views as a whole.
pub fn views_refusal(number: u64, kind: Kind) -> Refusal
    ensures { result ≡ spec.views_refusal number kind }
{
    Refusal::Refused {
        part: BundlePart::Views,
        number,
        kind,
    }
}

/// What a bundle says of its files under `views` and `files`, each with a text or to be read.
pub fn listing_of(
    alloc: Global,
    views: Option<&Value>,
    files: Option<&Value>,
) -> Result<Listing, Refusal>
    ensures { GivesBy seen_listing Refusal.Memory (spec.listing_of
        (option_map (λ d. view d.now) views.entry) (option_map (λ d. view d.now) files.entry)) result }
{
    let listed = listed(alloc, views, files)?;
    all_sourced(listed.files.as_slice())?;
    Ok(listed)
}

/// The same, before it is looked at whether each source is a text.
fn listed(alloc: Global, views: Option<&Value>, files: Option<&Value>) -> Result<Listing, Refusal>
    ensures { GivesBy seen_listing Refusal.Memory (spec.listed
        (option_map (λ d. view d.now) views.entry) (option_map (λ d. view d.now) files.entry)) result }
{
    let views = views_in(alloc, views)?;
    let Some(names) = list_if_given(files) else {
        return Err(views_refusal(0, Kind::BadForm));
    };
    with_names(alloc, views, names)
}

/// The array, of nothing where it is left out.
fn list_if_given(files: Option<&Value>) -> Option<&[Value]>
    ensures { option_map (λ s. items_view s.now) result
        ≡ list_if_given (option_map (λ d. view d.now) files.entry) }
{
    let Some(files) = files else {
        return Some(&[]);
    };
    let items = files.as_array()?;
    Some(items.as_slice())
}

/// The files under `views`, not yet in their order.
fn views_in(alloc: Global, views: Option<&Value>) -> Result<Vec<NamedFile>, Refusal>
    ensures { GivesBy (λ files. spec.in_place files.items) Refusal.Memory
        (spec.views_in (option_map (λ d. view d.now) views.entry)) result }
{
    let Some(views) = views else {
        return Ok(Vec::new(alloc));
    };
    let Some(views) = views.as_object() else {
        return Err(views_refusal(0, Kind::BadForm));
    };
    Ok(all_views(alloc, views)?)
}

/// The files of an object's members.
fn all_views(alloc: Global, views: &Map<String, Value>) -> Result<Vec<NamedFile>, Memory>
    ensures { IfOk result (λ files. spec.in_place files.items
        ≡ spec.with_views [] (members_view views.now.entries)) }
{
    let mut files = Vec::new(alloc);
    for (name, source) in views.iter() {
        files.push(view_of(alloc, name.as_str(), source)?)?;
    }
    Ok(files)
}

/// The file of a view.
fn view_of(alloc: Global, name: &str, source: &Value) -> Result<NamedFile, Memory>
    ensures { IfOk result (λ file. file ≡ spec.view_of name.now (view source.now)) }
{
    Ok(NamedFile {
        name: FileName::new(alloc, name)?,
        source: given_source(alloc, source)?,
    })
}

/// What a bundle says of the source of a view.
fn given_source(alloc: Global, source: &Value) -> Result<Source, Memory>
    ensures { IfOk result (λ given. given ≡ spec.given_source (as_str (view source.now))) }
{
    match source.as_str() {
        Some(text) => Ok(Source::Given(Text::from_bytes(alloc, text.as_bytes())?)),
        None => Ok(Source::NoText),
    }
}

/// A file that the folder has.
fn in_folder(alloc: Global, name: &str) -> Result<NamedFile, Memory>
    ensures { IfOk result (λ file. file ≡ spec.in_folder name.now) }
{
    Ok(NamedFile {
        name: FileName::new(alloc, name)?,
        source: Source::Folder,
    })
}

/// The files of views and those with these names. There may be many before it is told that they are too many, so they are sorted
/// once, at the end.
fn with_names(alloc: Global, views: Vec<NamedFile>, names: &[Value]) -> Result<Listing, Refusal>
    ensures { GivesBy seen_listing Refusal.Memory
        (spec.with_names (spec.unwanted (spec.in_place views.items)) (items_view names.now)) result }
{
    let mut files = views;
    let mut wanted = Vec::new(alloc);
    let mut seen = IndexSet::new(alloc);
    for name in names {
        let Some(name) = name.as_str() else {
            return Err(views_refusal(0, Kind::BadForm));
        };
        files.push(in_folder(alloc, name)?)?;
        put_wanted(alloc, &mut seen, &mut wanted, name)?;
    }
    let files = in_order(files)?;
    let wanted = in_order(wanted)?;
    Ok(Listing { files, wanted })
}

/// Puts the file with a name among those that are wanted, unless it is there.
#[tactic(auto, using(crate::proofs::Wanted::one_more_wanted, crate::proofs::Wanted::wanted_before, crate::proofs::Wanted::one_more_seen, crate::proofs::Wanted::seen_before))]
fn put_wanted(
    alloc: Global,
    seen: &mut IndexSet<Vec<u8>>,
    wanted: &mut Vec<NamedFile>,
    name: &str,
) -> Result<(), Memory>
    requires seen { names_in seen.old.keys ≡ wanted_names wanted.old.items }
    ensures wanted { OnOk result (spec.in_place wanted.new.items
        ≡ spec.put_once (spec.in_place wanted.old.items) (spec.in_folder name.now)) }
    ensures seen { OnOk result (names_in seen.new.keys ≡ wanted_names wanted.new.items) }
{
    if !add_new(alloc, seen, name.as_bytes())? {
        return Ok(());
    }
    wanted.push(in_folder(alloc, name)?)?;
    Ok(())
}

/// Puts a name among others, and tells whether it wasn't there.
fn add_new(alloc: Global, seen: &mut IndexSet<Vec<u8>>, name: &[u8]) -> Result<bool, Memory>
    ensures told { IfOk result (λ new. new
        ≡ not (list_any (bytes_eq name.now) (names_in seen.old.keys))) }
    ensures added { OnOk result (names_in seen.new.keys
        ≡ name_added (names_in seen.old.keys) name.now) }
{
    let name = Vec::from_slice(alloc, name)?;
    Ok(seen.insert(name)?)
}

/// Files go by their names.
impl Ord for NamedFile {
    ghost cmp = { file_order };

    ghost total = { Prim.search (comparing, rules) depth 14 };

    ghost matches_partial_cmp = { Prim.search (comparing, rules) depth 14 };

    ghost matches_eq = { λ x y. refl };

    fn cmp(&self, other: &NamedFile) -> Ordering {
        self.name
            .as_str()
            .as_bytes()
            .cmp(other.name.as_str().as_bytes())
    }
}

impl PartialOrd for NamedFile {
    ghost partial_cmp = { as_partial_cmp file_order };

    ghost laws = { partial_order_from_own_ties (Prim.search (comparing, rules) depth 14) (λ x y. refl) };

    fn partial_cmp(&self, other: &NamedFile) -> Option<Ordering> {
        Some(self.cmp(other))
    }
}

impl PartialEq for NamedFile {
    ghost eq = { have_one_name };

    ghost laws = { Prim.search (comparing, rules) depth 14 };

    fn eq(&self, other: &NamedFile) -> bool {
        self.cmp(other).is_eq()
    }
}

impl Eq for NamedFile {
    ghost laws = { Prim.search (comparing, rules) depth 14 };
}

/// Files in the order of their names, those of one name in the order in which they came.
fn in_order(files: Vec<NamedFile>) -> Result<Vec<NamedFile>, AllocError>
    ensures { IfOk result (λ sorted. sorted.items ≡ spec.in_place files.items) }
{
    let mut files = files;
    files.sort()?;
    Ok(files)
}

/// Each source is a text or in the folder, else the first that isn't is told.
fn all_sourced(files: &[NamedFile]) -> Result<(), Refusal>
    ensures { GivesExactly (λ done. done) (spec.all_sourced 0 files.now) result }
{
    let mut number = 0;
    for file in files {
        sourced(number, &file.source)?;
        number += 1;
    }
    Ok(())
}

/// A source is a text or in the folder.
fn sourced(number: u64, source: &Source) -> Result<(), Refusal>
    ensures { GivesExactly (λ done. done) (spec.sourced number source.now) result }
{
    match source {
        Source::NoText => Err(views_refusal(number, Kind::BadForm)),
        Source::Given(_) => Ok(()),
        Source::Folder => Ok(()),
    }
}
