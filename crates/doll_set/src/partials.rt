//! The partials that tags of templates name, to be found by their places.

ghost use Rattle.std.specs.Prelude.{◌≡◌, ◌++◌, ◌<◌, length, IfOk, OnOk, IfSome};
ghost use Rattle.doll_digest.specs.Registries.{names_in};
ghost use Rattle.doll_set.specs.Dependencies.{names_of};
ghost use Rattle.doll_set.specs.Partials as spec;

use crate::dependencies::{PartialTag, add_tags, number_of, partial_path};
use crate::template::Template;
use doll_text::{Items, Memory, Name};
use indexmap::IndexSet;
use std::alloc::Global;

/// The partial that a tag names.
#[derive(Drop)]
pub(crate) struct TagPartial {
    /// The place of the tag's `<%`.
    pub at: u32,
    /// The partial's name as it is written.
    pub name: Name,
    /// The number of the partial.
    pub number: usize,
}

/// The partials that the tags of each template name.
pub(crate) fn all_partials(
    alloc: Global,
    names: &IndexSet<Vec<u8>>,
    templates: &[Template],
) -> Result<Items<Items<TagPartial>>, Memory>
    requires named { names_in names.now.keys ≡ names_of templates.now }
    ensures { IfOk result (λ partials. partials ≡ spec.all_partials templates.now) }
{
    let mut partials = Items::new(alloc);
    for template in templates {
        partials.push(partials_of(alloc, names, template)?)?;
    }
    Ok(partials)
}

/// Those of one template, in the order of the text.
#[tactic(auto, unfolding(crate::specs::Partials::partials_of))]
fn partials_of(
    alloc: Global,
    names: &IndexSet<Vec<u8>>,
    template: &Template,
) -> Result<Items<TagPartial>, Memory>
    ensures { IfOk result (λ partials. partials
        ≡ spec.partials_of (names_in names.now.keys) template.now) }
{
    let mut tags = Items::new(alloc);
    add_tags(alloc, template.tree.as_slice(), &mut tags)?;
    let mut partials = Items::new(alloc);
    for tag in tags.as_slice() {
        add_partial(alloc, names, template.name.as_bytes(), tag, &mut partials)?;
    }
    Ok(partials)
}

/// Appends the partial that a tag names, if it is there.
fn add_partial(
    alloc: Global,
    names: &IndexSet<Vec<u8>>,
    template: &[u8],
    tag: &PartialTag,
    partials: &mut Items<TagPartial>,
) -> Result<(), Memory>
    ensures { OnOk result (partials.new ≡ partials.old
        ++ spec.tag_partials (names_in names.now.keys) template.now tag.now) }
{
    let path = partial_path(alloc, template, tag.name.as_bytes())?;
    let Some(number) = number_of(names, path.as_slice()) else {
        return Ok(());
    };
    let name = tag.name.copy(alloc)?;
    partials.push(TagPartial {
        at: tag.at,
        name,
        number,
    })?;
    Ok(())
}

/// Where the partial of the tag at this place stands among these, which ascend by their places.
pub(crate) fn place_of(partials: &[TagPartial], at: u32) -> Option<usize>
    ensures { IfSome result (λ place. place < length partials.now) }
{
    let mut low = 0;
    let mut high = partials.len();
    while low < high {
        let middle = low + (high - low) / 2;
        let found = partials[middle].at;
        if found == at {
            return Some(middle);
        }
        if found < at {
            low = middle + 1;
        } else {
            high = middle;
        }
    }
    None
}
