//! Settings and scripts of bundles: what may stand there, what is read, and in which order the parts are refused.

use crate::tables::{check, check_rows, json};
use doll_settings::{ShelfSettings, SiteSettings, settings_in};
use std::test::Fail;

/// What stands under `settings`, with whether it may.
const SETTINGS: [(&str, bool); 52] = [
    ("{}", true),
    ("null", false),
    ("[]", false),
    (r#"{"expire":1}"#, false),
    (r#"{"expires_in":null}"#, true),
    (r#"{"expires_in":0}"#, true),
    (r#"{"expires_in":4611686018427387904}"#, true),
    (r#"{"expires_in":4611686018427387905}"#, false),
    (r#"{"expires_in":-1}"#, false),
    (r#"{"expires_in":1.0}"#, false),
    (r#"{"expires_in":"1"}"#, false),
    (r#"{"race_condition_ttl":0}"#, true),
    (r#"{"race_condition_ttl":4611686018427387904}"#, true),
    (r#"{"race_condition_ttl":4611686018427387905}"#, false),
    (r#"{"race_condition_ttl":null}"#, false),
    (r#"{"max_entries":null}"#, true),
    (r#"{"max_entries":1}"#, true),
    (r#"{"max_entries":0}"#, false),
    (r#"{"max_entries":18446744073709551615}"#, true),
    (r#"{"max_entries":18446744073709551616}"#, false),
    (r#"{"max_entries":false}"#, false),
    (r#"{"max_size":null}"#, true),
    (r#"{"max_size":1}"#, true),
    (r#"{"max_size":0}"#, false),
    (r#"{"max_size":18446744073709551615}"#, true),
    (r#"{"max_size":18446744073709551616}"#, false),
    (r#"{"max_size":1e2}"#, false),
    (r#"{"max_age":null}"#, true),
    (r#"{"max_age":0}"#, true),
    (r#"{"max_age":4611686018427387904}"#, true),
    (r#"{"max_age":4611686018427387905}"#, false),
    (r#"{"max_age":-0}"#, false),
    (r#"{"expiry_batch_size":1}"#, true),
    (r#"{"expiry_batch_size":0}"#, false),
    (r#"{"expiry_batch_size":10000}"#, true),
    (r#"{"expiry_batch_size":10001}"#, false),
    (r#"{"expiry_batch_size":null}"#, false),
    (r#"{"shards":1}"#, true),
    (r#"{"shards":0}"#, false),
    (r#"{"shards":64}"#, true),
    (r#"{"shards":65}"#, false),
    (r#"{"shards":4294967297}"#, false),
    (r#"{"shards":null}"#, false),
    (r#"{"workers":1}"#, true),
    (r#"{"workers":0}"#, false),
    (r#"{"workers":64}"#, true),
    (r#"{"workers":65}"#, false),
    (r#"{"workers":4294967297}"#, false),
    (r#"{"workers":null}"#, false),
    (r#"{"workers":[]}"#, false),
    (r#"{"shards":65,"shards":3}"#, true),
    (r#"{"shards":3,"shards":65}"#, false),
];

/// A bundle round settings.
const BEFORE: &str = r#"{"schema":{"models":[]},"settings":"#;

const BEHIND: &str = "}";

/// Each setting, none as it is where it isn't said.
const ALL: &str =
    r#"{"expires_in":1,"race_condition_ttl":2,"max_entries":3,"max_size":4,"max_age":5,"expiry_batch_size":6,"shards":7,"workers":8}"#;

/// What is read of them.
const ALL_READ: SiteSettings = SiteSettings {
    shelf: ShelfSettings {
        expires_in: Some(1),
        race_ttl: 2,
        max_entries: Some(3),
        max_size: Some(4),
        max_age: Some(5),
        batch: 6,
    },
    shards: 7,
    workers: 8,
};

/// The settings where nothing is said.
const USUAL: SiteSettings = SiteSettings {
    shelf: ShelfSettings {
        expires_in: None,
        race_ttl: 0,
        max_entries: None,
        max_size: None,
        max_age: Some(1_209_600_000_000),
        batch: 100,
    },
    shards: 4,
    workers: 4,
};

/// A JSON array of bundles, each with a path and the answer: of two parts that are refused the earlier one is told.
const PARTS: &str = r##"[
[{"schema":PRODUCT,"routes":TO_PRODUCTS,"views":{"thing.html.erb":"x"},"commits":[{"changes":[{"create":"product","values":{}}]}],"settings":{"shards":1},"script":["get /products/1","no order"]},"/products/1","x"],
[{"schema":{},"settings":7},"/","bundle schema 0: BadForm"],
[{"schema":PRODUCT,"routes":TO_GAMES,"settings":7},"/","bundle routes 0: UnknownModel"],
[{"schema":PRODUCT,"settings":7,"views":7},"/","bundle settings 0: BadForm"],
[{"schema":PRODUCT,"settings":{"shards":0},"files":["gone.html.erb"]},"/","bundle settings 0: BadForm"],
[{"schema":PRODUCT,"settings":{},"views":{"a.html.erb":"<% end %>"},"commits":7,"script":7},"/","bundle views 0: BadTemplate"],
[{"schema":PRODUCT,"commits":null,"script":null},"/","bundle commits 0: BadForm"],
[{"schema":PRODUCT,"commits":[{"changes":[]},{"changes":[{"touch":"product","id":1}]}],"script":7},"/","bundle commits 1: MissingRow"],
[{"schema":PRODUCT,"commits":[{"changes":[]}],"script":null},"/","bundle script 0: BadForm"],
[{"schema":PRODUCT,"script":"expire"},"/","bundle script 0: BadForm"],
[{"schema":PRODUCT,"script":["expire",null]},"/","bundle script 0: BadForm"],
[{"schema":PRODUCT,"scripts":[]},"/","bundle json 0: BadForm"]
]"##;

#[test]
fn settings_have_bounds(rt: HostRuntime) -> Result<(), Fail> {
    for (settings, may) in SETTINGS {
        let text = format!(in rt.alloc(); "{BEFORE}{settings}{BEHIND}")?;
        let bundle = json(rt.alloc(), text.as_str())?;
        let wanted = if may {
            "unknown"
        } else {
            "bundle settings 0: BadForm"
        };
        check(&rt, &bundle, "/", wanted)?;
    }
    Ok(())
}

#[test]
fn settings_are_read(rt: HostRuntime) -> Result<(), Fail> {
    let all = json(rt.alloc(), ALL)?;
    assert!(rt; settings_in(Some(&all)) == Some(ALL_READ));
    assert!(rt; settings_in(None) == Some(USUAL));
    Ok(())
}

#[test]
fn the_earlier_part_is_refused(rt: HostRuntime) -> Result<(), Fail> {
    check_rows(&rt, PARTS)
}
