//! A site: the routes and templates of a bundle, over the records that its commits leave.

ghost use Rattle.std.specs.Prelude.{◌≡◌, IfOk};
ghost use Rattle.doll_text.specs.Gives.{GivesBy};
ghost use Rattle.doll_route.specs.Routes.{AreRoutesOf};
ghost use Rattle.doll_views.specs.Bundles.{WasRead};
ghost use Rattle.doll_views.specs.Seen.{seen_loaded};
ghost use Rattle.doll_bundle.specs.Sites.{IsServed, page_after, page_at, seen_site, site_of};

use crate::commits::records_after;
use crate::script::script_in;
use doll_keep::MemKeeper;
use doll_plain::plain_page;
use doll_records::Records;
use doll_route::{Routes, split_target};
use doll_schema::Schema;
use doll_set::TemplateSet;
use doll_settings::SiteSettings;
use doll_text::{Bytes, Items, Memory, Text};
use doll_views::{Loaded, Refusal};
use std::alloc::Global;

/// A site: its schema, its routes, its templates, the history of its records, its settings and the lines of its script.
#[derive(Drop)]
pub struct Site {
    pub schema: Schema,
    pub routes: Routes,
    pub set: TemplateSet,
    pub records: Records<MemKeeper>,
    pub settings: SiteSettings,
    pub script: Items<Text>,
}

impl Site {
    /// The site of a bundle that was read, whose commits are made one after another, each that says no time at the next of these
    /// readings. The first commit that is refused refuses the bundle, and behind them a script that is no array of texts.
    pub fn of(alloc: Global, loaded: Loaded<'_>, readings: &[u64]) -> Result<Site, Refusal>
        requires { WasRead loaded.schema loaded.routes loaded.settings }
        ensures exact { GivesBy seen_site Refusal.Memory
            (site_of (seen_loaded loaded.entry) readings.now) result }
        ensures served { IfOk result IsServed }
    {
        let records = records_after(alloc, &loaded.schema, readings, loaded.commits)?;
        let script = script_in(alloc, loaded.script)?;
        Ok(Site {
            schema: loaded.schema,
            routes: loaded.routes,
            set: loaded.set,
            records,
            settings: loaded.settings,
            script,
        })
    }

    /// The page of a request's target, with no cache; none where no route has its path or the route's record isn't there.
    pub fn page(&self, alloc: Global, target: &str) -> Result<Option<Bytes>, Memory>
        requires { IsServed self.now }
        ensures { IfOk result (λ page. page ≡ page_at (seen_site self.now) target.now) }
    {
        site_page(
            alloc,
            &self.schema,
            &self.routes,
            &self.set,
            &self.records,
            target,
        )
    }
}

/// The page of a request's target of the site with these parts, which may be held apart from one another.
pub fn site_page(
    alloc: Global,
    schema: &Schema,
    routes: &Routes,
    set: &TemplateSet,
    records: &Records<MemKeeper>,
    target: &str,
) -> Result<Option<Bytes>, Memory>
    requires records { records.now.schema ≡ schema.now }
    requires routes { AreRoutesOf schema.now routes.now }
    ensures { IfOk result (λ page. page
        ≡ page_after schema.now routes.now set.now records.now.history target.now) }
{
    let (path, query) = split_target(target);
    let Some(found) = routes.find(path)? else {
        return Ok(None);
    };
    let params = routes.params(alloc, found.route, query)?;
    let snapshot = records.snapshot(alloc)?;
    plain_page(
        alloc,
        set,
        schema,
        routes,
        &found,
        &params,
        snapshot.table.get(),
    )
}
