//! A bundle, as it is read, and as it is once its files are.

ghost use Rattle.std.specs.Prelude.{◌≡◌, ◌≢◌, option_map, IfOk, Err};
ghost use Rattle.doll_base.specs.Faults.{HasCause, KeepsCount};
ghost use Rattle.doll_views.specs.declared.refusal.Refusal.TheVariants.{Failed};
ghost use Rattle.serde_json.specs.View.{items_view, view};
ghost use Rattle.doll_text.specs.Gives.{GivesBy, GivesExactly};
ghost use Rattle.doll_views.specs.Bundles.{WasRead, commit_refusal, json_of, bundle_in, commits_in, loaded_of, with_files};
ghost use Rattle.doll_views.specs.Files.{AsksFirst, GivesFor, wanted_names};
ghost use Rattle.doll_views.specs.Seen.{seen_bundle, seen_loaded};

use crate::faults::{routes_in, schema_in};
use crate::files::read_files;
use crate::form::{parts_of, settings_of};
use crate::refusal::{BundlePart, Kind, Refusal};
use crate::sets::set_in;
use crate::views::{Listing, listing_of};
use doll_base::{Folder, ViewFile};
use doll_route::Routes;
use doll_schema::Schema;
use doll_set::TemplateSet;
use doll_settings::SiteSettings;
use doll_text::Memory;
use serde_json::Value;
use std::alloc::Global;

/// What is read of a bundle before anything is asked of the outside.
#[derive(Drop)]
pub struct Bundle<'a> {
    pub schema: Schema,
    pub routes: Routes,
    pub settings: SiteSettings,
    pub listing: Listing,
    pub commits: Option<&'a Value>,
    pub script: Option<&'a Value>,
}

/// A bundle once its files are read: the set that they make, and its commits and its script as they stand in it. Whether these
/// commits can be made, and whether that is a script, isn't told.
#[derive(Drop)]
pub struct Loaded<'a> {
    pub schema: Schema,
    pub routes: Routes,
    pub set: TemplateSet,
    pub settings: SiteSettings,
    pub commits: &'a [Value],
    pub script: Option<&'a Value>,
}

impl<'a> Bundle<'a> {
    /// The bundle that a JSON value is: its form, its schema, its routes, its settings and what it says of its files, or the first
    /// refusal in this order.
    #[tactic(auto, unfolding(crate::specs::Bundles::bundle_in))]
    pub fn read(alloc: Global, json: &'a Value) -> Result<Bundle<'a>, Refusal>
        ensures exact { GivesBy seen_bundle Refusal.Memory (bundle_in (view json.now)) result }
        ensures read { IfOk result
            (λ bundle. WasRead bundle.schema bundle.routes bundle.settings) }
    {
        let parts = parts_of(json)?;
        let schema = schema_in(alloc, parts.schema)?;
        let routes = routes_in(alloc, &schema, parts.routes)?;
        let settings = settings_of(parts.settings)?;
        let listing = listing_of(alloc, parts.views, parts.files)?;
        Ok(Bundle {
            schema,
            routes,
            settings,
            listing,
            commits: parts.commits,
            script: parts.script,
        })
    }

    /// The bundle with its files: those that the folder has are read, the set is made, and the commits are an array, or the first
    /// refusal in this order.
    pub fn load<F: Folder>(self, alloc: Global, folder: &mut F) -> Result<Loaded<'a>, Refusal>
        ensures answer { GivesFor seen_loaded
            (F.files folder.old) (wanted_names self.entry.listing.wanted.items)
            (loaded_of (seen_bundle self.entry)) result }
        ensures read { WasRead self.entry.schema self.entry.routes self.entry.settings
            → IfOk result (λ loaded. WasRead loaded.schema loaded.routes loaded.settings) }
        ensures asked { AsksFirst (wanted_names self.entry.listing.wanted.items)
            (F.asked folder.old) (F.asked folder.new) }
        ensures kept { F.files folder.new ≡ F.files folder.old }
        ensures cause { HasCause Failed (F.faults folder.old) (F.faults folder.new) result }
        ensures count { KeepsCount (F.faults folder.old) (F.faults folder.new) }
    {
        match read_files(alloc, folder, &self.listing) {
            Ok(files) => with_files(alloc, self, files.as_slice()),
            Err(why) => Err(why),
        }
    }
}

/// A bundle whose files these are.
fn with_files<'a>(
    alloc: Global,
    bundle: Bundle<'a>,
    files: &[ViewFile],
) -> Result<Loaded<'a>, Refusal>
    ensures exact { GivesBy seen_loaded Refusal.Memory
        (with_files (seen_bundle bundle.entry) files.now) result }
    ensures read { WasRead bundle.entry.schema bundle.entry.routes bundle.entry.settings
        → IfOk result (λ loaded. WasRead loaded.schema loaded.routes loaded.settings) }
    ensures alive { result ≢ Err Refusal.Failed }
{
    let set = set_in(alloc, files)?;
    let commits = commits_in(bundle.commits)?;
    Ok(Loaded {
        schema: bundle.schema,
        routes: bundle.routes,
        set,
        settings: bundle.settings,
        commits,
        script: bundle.script,
    })
}

/// The JSON value that bytes are: none where they are no UTF-8 or no JSON.
pub fn json_of(alloc: Global, bytes: &[u8]) -> Result<Option<Value>, Memory>
    ensures { IfOk result (λ json. option_map view json ≡ json_of bytes.now) }
{
    match Value::from_slice(alloc, bytes) {
        Ok(json) => Ok(Some(json)),
        Err(error) => {
            if error.is_memory() {
                Err(Memory)
            } else {
                Ok(None)
            }
        }
    }
}

/// The array of a bundle's commits, an empty one where they are left out.
fn commits_in(commits: Option<&Value>) -> Result<&[Value], Refusal>
    ensures { GivesExactly
        (λ items. items_view items.now)
        (commits_in (option_map (λ d. view d.now) commits.entry)) result }
{
    let Some(commits) = commits else {
        return Ok(&[]);
    };
    match commits.as_array() {
        Some(commits) => Ok(commits.as_slice()),
        None => Err(commit_refusal(0, Kind::BadForm)),
    }
}

/// A fault of the commit with a number.
pub fn commit_refusal(number: u64, kind: Kind) -> Refusal
    ensures { result ≡ commit_refusal number kind }
{
    Refusal::Refused {
        part: BundlePart::Commits,
        number,
        kind,
    }
}
