//! Keys.

ghost use Rattle.std.specs.Prelude.{◌≡◌, IfOk};
ghost use Rattle.doll_key.specs.Keys as spec;
ghost use Rattle.doll_key.specs.Uniqueness.{OneKey};

use crate::components::{COLON, Components, append_components};
use crate::texts::KeyText;
use doll_digest::Digest;
use doll_text::{Copied, Memory, Name};
use std::alloc::Global;

/// What the key of a fragment is made of.
#[derive(Drop)]
pub struct KeyParts {
    /// The virtual path of the template.
    pub path: Name,
    /// The digest of the template, which also tells what it renders.
    pub digest: Digest,
    pub components: Components,
}

impl Copied for KeyParts {
    fn copy(&self, alloc: Global) -> Result<KeyParts, Memory> {
        Ok(KeyParts {
            path: self.path.copy(alloc)?,
            digest: self.digest,
            components: self.components.copy(alloc)?,
        })
    }
}

/// The text of a key.
pub fn key_text(alloc: Global, parts: &KeyParts) -> Result<KeyText, Memory>
    ensures { IfOk result (λ text. text ≡ spec.key_text parts.now) }
{
    let mut out = key_prefix(alloc, parts.path.as_bytes(), parts.digest)?;
    append_components(parts.components.as_slice(), &mut out)?;
    Ok(KeyText::from_vec(out))
}

/// The room in bytes that a key's text is given at once behind its path: what stands before the components takes 39 of
/// it, and a record or two seldom more than what is left. A text that needs more grows.
pub const BEHIND_PATH: usize = 90;

/// What stands before the components in the text of a key: it is the same for all keys of a template, so it can be made once.
pub fn key_prefix(alloc: Global, path: &[u8], digest: Digest) -> Result<Vec<u8>, Memory>
    ensures { IfOk result (λ prefix. prefix.items ≡ spec.key_prefix path.now digest) }
{
    let mut out = Vec::with_capacity(alloc, path.len().saturating_add(BEHIND_PATH))?;
    out.extend_from_slice(b"views/")?;
    out.extend_from_slice(path)?;
    out.push(COLON)?;
    digest.write_hex(&mut out)?;
    Ok(out)
}

/// No two keys have the same text: it tells the template, its digest and each component.
pub fn one_key()
    ensures { OneKey }
{}
