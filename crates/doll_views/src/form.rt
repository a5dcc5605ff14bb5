//! The form of a bundle.

ghost use Rattle.std.specs.Prelude.{◌≡◌, option_map, IfOk};
ghost use Rattle.serde_json.specs.View.{view};
ghost use Rattle.doll_text.specs.Gives.{GivesExactly};
ghost use Rattle.doll_settings.specs.Settings.{AreWithinBounds};
ghost use Rattle.doll_views.specs.Forms.{parts_of, settings_of, settings_refusal};
ghost use Rattle.doll_views.specs.Seen.{seen_parts};

use crate::refusal::{BundlePart, Kind, Refusal, json_refusal};
use doll_schema::json::has_only;
use doll_settings::{SiteSettings, settings_in};
use serde_json::Value;

/// The parts of a bundle; all but the schema may be left out.
#[derive(Clone, Copy)]
pub struct Parts<'a> {
    pub schema: &'a Value,
    pub routes: Option<&'a Value>,
    pub views: Option<&'a Value>,
    pub files: Option<&'a Value>,
    pub settings: Option<&'a Value>,
    pub commits: Option<&'a Value>,
    pub script: Option<&'a Value>,
}

/// The keys of a bundle.
const KEYS: [&str; 7] = [
    "schema", "routes", "views", "files", "settings", "commits", "script",
];

/// The parts of a bundle: an object with a schema and no key that isn't listed.
pub fn parts_of(bundle: &Value) -> Result<Parts<'_>, Refusal>
    ensures { GivesExactly seen_parts (parts_of (view bundle.now)) result }
{
    if !has_only(bundle, &KEYS) {
        return Err(json_refusal());
    }
    let Some(schema) = bundle.get("schema") else {
        return Err(json_refusal());
    };
    Ok(Parts {
        schema,
        routes: bundle.get("routes"),
        views: bundle.get("views"),
        files: bundle.get("files"),
        settings: bundle.get("settings"),
        commits: bundle.get("commits"),
        script: bundle.get("script"),
    })
}

/// The settings of a bundle, the usual ones where they are left out.
pub fn settings_of(settings: Option<&Value>) -> Result<SiteSettings, Refusal>
    ensures exact { GivesExactly (λ found. found)
        (settings_of (option_map (λ d. view d.now) settings.entry)) result }
    ensures bounds { IfOk result AreWithinBounds }
{
    match settings_in(settings) {
        Some(settings) => Ok(settings),
        None => Err(settings_refusal()),
    }
}

/// Settings that aren't of the form.
fn settings_refusal() -> Refusal
    ensures { result ≡ settings_refusal }
{
    Refusal::Refused {
        part: BundlePart::Settings,
        number: 0,
        kind: Kind::BadForm,
    }
}
