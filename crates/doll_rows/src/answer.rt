//! What a bundle answers to a path, and to the word `digests`.

ghost use Rattle.std.specs.Prelude.{IfOk};
ghost use Rattle.doll_bundle.specs.Sites.{IsServed};

use doll_base::{ListClock, MemFolder};
use doll_bundle::{Site, read_clock, untimed};
use doll_text::{Bytes, Memory};
use doll_views::{Bundle, Refusal, digest_lines, refusal_line};
use serde_json::Value;
use std::alloc::Global;

/// The site of a bundle with the files of a folder, where the clock reads 77 and then 90.
fn site_of(alloc: Global, bundle: &Value, folder: MemFolder) -> Result<Site, Refusal>
    ensures { IfOk result IsServed }
{
    let mut folder = folder;
    let bundle = Bundle::read(alloc, bundle)?;
    let loaded = bundle.load(alloc, &mut folder)?;
    let mut clock = ListClock::new(Vec::from_slice(alloc, &[77, 90])?);
    let readings = read_clock(alloc, &mut clock, untimed(loaded.commits))?;
    Site::of(alloc, loaded, readings.as_slice())
}

/// The digests of a site, or the page of a path, or `unknown`.
fn site_answer(alloc: Global, site: &Site, path: &str) -> Result<Vec<u8>, Memory>
    requires { IsServed site.now }
{
    if path == "digests" {
        return digest_lines(alloc, &site.set);
    }
    match site.page(alloc, path)? {
        Some(page) => Ok(Vec::from_slice(alloc, page.as_slice())?),
        None => Ok(Vec::from_slice(alloc, b"unknown")?),
    }
}

/// What tells a refusal.
fn refusal_answer(alloc: Global, why: Refusal) -> Result<Vec<u8>, Memory> {
    match why {
        Refusal::Refused { part, number, kind } => refusal_line(alloc, part, number, kind),
        Refusal::TooLong => Ok(Vec::from_slice(alloc, b"too long")?),
        Refusal::Failed => Ok(Vec::from_slice(alloc, b"failed")?),
        Refusal::Memory => Err(Memory),
    }
}

/// The page of a path or the digests, or what tells why there is none.
pub fn answer(
    alloc: Global,
    bundle: &Value,
    folder: MemFolder,
    path: &str,
) -> Result<Bytes, Memory> {
    let text = match site_of(alloc, bundle, folder) {
        Ok(site) => site_answer(alloc, &site, path)?,
        Err(why) => refusal_answer(alloc, why)?,
    };
    Ok(Bytes::from_vec(text))
}
