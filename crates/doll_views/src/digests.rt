//! The digests of a set's templates.

ghost use Rattle.std.specs.Prelude.{◌≡◌, ◌++◌, IfOk, OnOk};
ghost use Rattle.doll_views.specs.Digests as spec;

use doll_digest::Digest;
use doll_set::TemplateSet;
use doll_text::Memory;
use std::alloc::Global;

/// The digests of a set, a line for each template, in ascending order of names.
pub fn digest_lines(alloc: Global, set: &TemplateSet) -> Result<Vec<u8>, Memory>
    ensures { IfOk result (λ lines. lines.items ≡ spec.digest_lines set.now) }
{
    let mut lines = Vec::new(alloc);
    let mut number = 0;
    for template in set.templates() {
        put_line(&mut lines, set.digest(number), template.name.as_bytes())?;
        number += 1;
    }
    Ok(lines)
}

/// The digest of a template in digits, a space, its name and a line end.
fn put_line(lines: &mut Vec<u8>, digest: Option<Digest>, name: &[u8]) -> Result<(), Memory>
    ensures { OnOk result (lines.new.items ≡ lines.old.items ++ spec.digest_line digest name.now) }
{
    if let Some(digest) = digest {
        digest.write_hex(lines)?;
    }
    lines.push(b' ')?;
    lines.extend_from_slice(name)?;
    lines.push(b'\n')?;
    Ok(())
}
