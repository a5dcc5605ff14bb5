//! Framed texts.

ghost use Rattle.std.specs.Prelude.{◌≡◌, ◌++◌, OnOk};
ghost use Rattle.doll_digest.specs.Framing.{OneTemplate, framed_dependency, net};

use crate::digest::Digest;
use doll_text::Memory;
use itoa::Buffer;

/// What stands between a length and the bytes that it counts.
const COLON: u8 = b':';

/// What stands after these bytes.
const COMMA: u8 = b',';

/// Appends a dependency: its name, and its digest in digits. After a refusal some of it may stand there.
pub(crate) fn put_dependency(name: &[u8], digest: Digest, out: &mut Vec<u8>) -> Result<(), Memory>
    ensures { OnOk result (out.new.items ≡ out.old.items ++ framed_dependency (name.now, digest)) }
{
    put_net(name, out)?;
    put_net(&digest.hex(), out)
}

/// Appends bytes behind their length, so that where they end can be told. After a refusal some of it may stand there.
#[tactic(auto, unfolding(crate::specs::Framing::net))]
pub(crate) fn put_net(bytes: &[u8], out: &mut Vec<u8>) -> Result<(), Memory>
    ensures { OnOk result (out.new.items ≡ out.old.items ++ net bytes.now) }
{
    let mut buffer = Buffer::new();
    out.extend_from_slice(buffer.format(bytes.len()).as_bytes())?;
    out.push(COLON)?;
    out.extend_from_slice(bytes)?;
    out.push(COMMA)?;
    Ok(())
}

/// No two templates have the same framed text: it tells the source, and each dependency by its name and its digest.
pub fn one_template()
    ensures { OneTemplate }
{}
