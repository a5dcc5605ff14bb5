//! How an entry is judged.

ghost use Rattle.std.specs.Prelude.{◌≡◌, ◌≤◌, min};
ghost use Rattle.doll_entry.specs.Judging as spec;

use crate::entry::Entry;
use doll_key::Versions;

/// The latest time that counts, in microseconds: 2^62.
pub const LATEST_TIME: u64 = 4_611_686_018_427_387_904;

/// What becomes of an entry whose key is asked for.
#[derive(Clone, Copy, PartialEq, Eq)]
pub enum Judged {
    /// It is given.
    Live,
    /// It has other versions, and stays.
    Mismatch,
    /// It has just expired: it isn't given, and its expiry is moved.
    Bump,
    /// It has expired, and goes.
    Dead,
}

/// The time as it counts: this one, or 2^62 where it is later.
pub fn counted_time(now: u64) -> u64
    ensures value { result ≡ spec.counted_time now }
    ensures most { result ≤ LATEST_TIME }
{
    now.min(LATEST_TIME)
}

/// What becomes of an entry that is asked for with these versions at a time, where one that has expired may stay for `ttl`
/// microseconds. Takes no memory.
pub fn judge(entry: &Entry, versions: &Versions, now: u64, ttl: u64) -> Judged
    ensures { result ≡ spec.judged entry.now versions.now now ttl }
{
    judge_kept(&entry.fresh.versions, entry.expires_at, versions, now, ttl)
}

/// The same of an entry by its versions and its expiry.
pub fn judge_kept(
    kept: &Versions,
    expires_at: Option<u64>,
    versions: &Versions,
    now: u64,
    ttl: u64,
) -> Judged
    ensures { result ≡ spec.judged_by kept.now expires_at versions.now (spec.counted_time now) ttl }
{
    let now = counted_time(now);
    if let Some(expiry) = expires_at {
        if expiry <= now {
            return judge_expired(now - expiry, ttl);
        }
    }
    if kept.as_slice() == versions.as_slice() {
        Judged::Live
    } else {
        Judged::Mismatch
    }
}

/// What becomes of an entry that expired so long ago.
fn judge_expired(since: u64, ttl: u64) -> Judged
    ensures { result ≡ spec.judged_expired since ttl }
{
    if ttl > 0 && since <= ttl {
        Judged::Bump
    } else {
        Judged::Dead
    }
}
