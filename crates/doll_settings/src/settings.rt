//! The settings of a site, and the reading of them.

ghost use Rattle.std.specs.Prelude.{◌≡◌, option_map, IfSome};
ghost use Rattle.serde_json.specs.View.{view};
ghost use Rattle.doll_settings.specs.Settings.{are_listed, settings_in, shelf_in, under};
ghost use Rattle.doll_settings.specs.Settings.{AreWithinBounds};
ghost use Rattle.doll_shelf.specs.Settings.{AreValid};

use crate::numbers::{limit_or, number_or};
use doll_entry::LATEST_TIME;
use doll_schema::json::has_only;
use doll_shelf::{MOST_IN_BATCH, ShelfSettings};
use serde_json::Value;

/// The most shards of a shelf.
pub const MOST_SHARDS: u32 = 64;

/// The most workers that answer requests.
pub const MOST_WORKERS: u32 = 64;

/// The age at which an entry goes where nothing else is said: two weeks, in microseconds.
pub const DEFAULT_AGE: u64 = 1_209_600_000_000;

/// How many entries a batch removes where nothing else is said.
pub const DEFAULT_BATCH: u64 = 100;

/// How many shards, and how many workers, there are where nothing else is said.
pub const DEFAULT_PARTS: u64 = 4;

/// The keys of settings.
const KEYS: [&str; 8] = [
    "expires_in",
    "race_condition_ttl",
    "max_entries",
    "max_size",
    "max_age",
    "expiry_batch_size",
    "shards",
    "workers",
];

/// The settings of a site.
#[derive(Clone, Copy, PartialEq, Eq)]
pub struct SiteSettings {
    /// How the shelf of its cache keeps entries.
    pub shelf: ShelfSettings,
    /// In how many parts the shelf is, each with a lock of its own: 1 to 64.
    pub shards: u32,
    /// How many workers answer requests at once: 1 to 64.
    pub workers: u32,
}

/// The settings that a JSON value says, None where it is none, or where a setting isn't of its form. What it leaves out, and where
/// it is left out itself, everything, is as usual. Takes no memory.
pub fn settings_in(settings: Option<&Value>) -> Option<SiteSettings>
    ensures exact { result ≡ settings_in (option_map (λ d. view d.now) settings.entry) }
    ensures bounds { IfSome result AreWithinBounds }
{
    if !are_listed(settings) {
        return None;
    }
    let shelf = shelf_in(settings)?;
    let shards = number_or(
        under("shards", settings),
        1,
        MOST_SHARDS as u64,
        DEFAULT_PARTS,
    )?;
    let workers = number_or(
        under("workers", settings),
        1,
        MOST_WORKERS as u64,
        DEFAULT_PARTS,
    )?;
    Some(SiteSettings {
        shelf,
        shards: shards as u32,
        workers: workers as u32,
    })
}

/// Whether settings are an object without other keys than theirs, or left out.
fn are_listed(settings: Option<&Value>) -> bool
    ensures { result ≡ are_listed (option_map (λ d. view d.now) settings.entry) }
{
    match settings {
        Some(settings) => has_only(settings, &KEYS),
        None => true,
    }
}

/// The value under a key, where there is one.
fn under<'a>(key: &str, settings: Option<&'a Value>) -> Option<&'a Value>
    ensures { option_map (λ d. view d.now) result
        ≡ under key.now (option_map (λ d. view d.now) settings.entry) }
{
    match settings {
        Some(settings) => settings.get(key),
        None => None,
    }
}

/// The settings of the shelf.
fn shelf_in(settings: Option<&Value>) -> Option<ShelfSettings>
    ensures exact { result ≡ shelf_in (option_map (λ d. view d.now) settings.entry) }
    ensures valid { IfSome result AreValid }
{
    let expires_in = limit_or(under("expires_in", settings), 0, LATEST_TIME, None)?;
    let race_ttl = number_or(under("race_condition_ttl", settings), 0, LATEST_TIME, 0)?;
    let max_entries = limit_or(under("max_entries", settings), 1, u64::MAX, None)?;
    let max_size = limit_or(under("max_size", settings), 1, u64::MAX, None)?;
    let max_age = limit_or(
        under("max_age", settings),
        0,
        LATEST_TIME,
        Some(DEFAULT_AGE),
    )?;
    let batch = number_or(
        under("expiry_batch_size", settings),
        1,
        MOST_IN_BATCH as u64,
        DEFAULT_BATCH,
    )?;
    Some(ShelfSettings {
        expires_in,
        race_ttl,
        max_entries,
        max_size,
        max_age,
        batch: batch as u32,
    })
}
