//! Settings that aren't of their form, explained.

use crate::schema::put_said;
use crate::words::{other_words, setting_words, settings_words};
use doll_excerpt::Paper;
use doll_settings::{LATEST_TIME, MOST_IN_BATCH, MOST_SHARDS, MOST_WORKERS, limit_in, number_in};
use doll_text::Memory;
use serde_json::Value;

/// Appends which setting isn't of its form: the first in ascending order of keys.
pub(crate) fn put_settings(paper: &mut Paper, settings: &Value) -> Result<(), Memory> {
    paper.put("settings")?;
    let Some(members) = settings.as_object() else {
        return put_said(paper, None, settings_words());
    };
    for (key, value) in members.iter() {
        if !is_setting(key.as_str(), value) {
            return put_setting(paper, key.as_str());
        }
    }
    Err(Memory)
}

/// Appends what may stand under a key, or that it is no setting's.
fn put_setting(paper: &mut Paper, key: &str) -> Result<(), Memory> {
    match setting_words(key) {
        Some(words) => {
            paper.put(".")?;
            paper.put(key)?;
            put_said(paper, None, words)
        }
        None => put_said(paper, Some(key), other_words()),
    }
}

/// Whether a value may stand under a key of the settings.
fn is_setting(key: &str, value: &Value) -> bool {
    if key == "expires_in" || key == "max_age" {
        return limit_in(value, 0, LATEST_TIME).is_some();
    }
    if key == "race_condition_ttl" {
        return number_in(value, 0, LATEST_TIME).is_some();
    }
    if key == "max_entries" || key == "max_size" {
        return limit_in(value, 1, u64::MAX).is_some();
    }
    if key == "expiry_batch_size" {
        return number_in(value, 1, MOST_IN_BATCH as u64).is_some();
    }
    if key == "shards" {
        return number_in(value, 1, MOST_SHARDS as u64).is_some();
    }
    key == "workers" && number_in(value, 1, MOST_WORKERS as u64).is_some()
}
