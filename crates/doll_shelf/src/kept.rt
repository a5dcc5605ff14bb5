//! What is kept under a key.

ghost use Rattle.std.specs.Prelude.{◌≡◌, ◌≤◌, option_map};
ghost use Rattle.std.specs.Map.{lookup};
ghost use Rattle.std.specs.Str.{bytes_eq};
ghost use Rattle.doll_entry.specs.declared.judging.TheConstants.{LATEST_TIME};
ghost use Rattle.doll_shelf.specs.Batches as spec;
ghost use Rattle.doll_shelf.specs.Settings.{IsTime};
ghost use Rattle.doll_shelf.specs.Entries.{size_of};
ghost use Rattle.doll_shelf.specs.Kept.{entry_kept};

use crate::queue::Queue;
use crate::settings::ShelfSettings;
use doll_entry::{BlockId, Fragment, Fresh, counted_time};
use doll_key::{KeyText, Versions};
use doll_schema::Vars;

/// An entry without its key.
#[derive(Drop)]
pub struct Kept {
    pub versions: Versions,
    pub value: Fragment,
    pub vars: Vars,
    pub block: BlockId,
    pub origin: u64,
    pub written_at: u64,
    pub expires_at: Option<u64>,
}

/// The key of a fragment, and the rest of its entry where it is written at this time.
pub fn kept_of(fresh: Fresh, settings: &ShelfSettings, now: u64) -> (KeyText, Kept)
    requires { IsTime settings.now.expires_in }
    ensures { entry_kept result ≡ spec.entry_of settings.now fresh now }
{
    let Fresh {
        key,
        versions,
        value,
        vars,
        block,
        origin,
    } = fresh;
    let written_at = counted_time(now);
    let kept = Kept {
        versions,
        value,
        vars,
        block,
        origin,
        written_at,
        expires_at: expiry_after(settings.expires_in, written_at),
    };
    (key, kept)
}

fn expiry_after(expires_in: Option<u64>, time: u64) -> Option<u64>
    requires set { IsTime expires_in }
    requires counts { time ≤ LATEST_TIME }
    ensures { result ≡ spec.expiry_after expires_in time }
{
    match expires_in {
        Some(expires_in) => Some(time + expires_in),
        None => None,
    }
}

/// The size of an entry in bytes, as far as it is told by 64 bits.
pub fn size_kept(key: &KeyText, kept: &Kept) -> u64
    ensures { result ≡ size_of (entry_kept (key.now, kept.now)) }
{
    key.as_bytes().len() as u64 + kept.value.get().as_slice().len() as u64
}

/// The size of the entry under a key, if there is one.
pub fn size_under(queue: &Queue, key: &KeyText) -> Option<u64>
    ensures { result ≡ option_map (λ kept. size_of (entry_kept (key.now, kept)))
        (lookup (bytes_eq key.now) queue.now) }
{
    match queue.get(key) {
        Some(kept) => Some(size_kept(key, kept)),
        None => None,
    }
}

/// Whether what was written at one time is older than an age at another.
pub fn is_past(written_at: u64, age: Option<u64>, time: u64) -> bool
    ensures { result ≡ spec.is_older_since age time written_at }
{
    match age {
        Some(age) => time > written_at && time - written_at > age,
        None => false,
    }
}
