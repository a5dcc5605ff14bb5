//! Looking up what models refer to.

ghost use Rattle.std.specs.Prelude.{◌≡◌, ◌<◌, ◌≤◌, ◌&&◌, ◌==◌, [], length, IfOk};
ghost use Rattle.std.specs.Str.{bytes_eq};
ghost use Rattle.doll_text.specs.Gives.{Gives};
ghost use Rattle.doll_schema.specs.Limits.{HasFewDrafts, HasFewParts, AreDraftsWithinLimits, AreWithinLimits};
ghost use Rattle.doll_schema.specs.Schemas.{draft_named, parent_draft_named, inverse_named, has_inverse, belongs_to_of, has_many_of, belongs_to_from, has_many_from, linked_model, linked_from};

use crate::draft::{ManyDraft, ModelDraft, ParentDraft};
use crate::fault::{Part, Place, SchemaFault};
use crate::limits::{MOST_MANYS, MOST_PARENTS};
use crate::model::{BelongsTo, HasMany, Manys, Model, Models, Parents};
use doll_text::{Copied, Items, copy_list};
use std::alloc::Global;

/// All models with their associations looked up, or the first fault of these.
pub fn linked(alloc: Global, drafts: &[ModelDraft]) -> Result<Models, SchemaFault>
    requires { AreDraftsWithinLimits drafts.now }
    ensures exact { Gives SchemaFault.Memory (linked_from drafts.now [] drafts.now) result }
    ensures limits { IfOk result AreWithinLimits }
{
    let mut models = Items::new(alloc);
    for (number, draft) in drafts.iter().enumerate() {
        let model = linked_model(alloc, drafts, number as u32, draft)?;
        models.push(model)?;
    }
    Ok(models)
}

fn linked_model(
    alloc: Global,
    models: &[ModelDraft],
    number: u32,
    draft: &ModelDraft,
) -> Result<Model, SchemaFault>
    requires models { AreDraftsWithinLimits models.now }
    requires few { HasFewDrafts draft.now }
    ensures exact { Gives SchemaFault.Memory (linked_model models.now number draft.now) result }
    ensures few { IfOk result HasFewParts }
{
    let belongs_to = linked_parents(alloc, models, number, draft.belongs_to.as_slice())?;
    let own = draft.name.as_bytes();
    let has_many = linked_manys(alloc, models, number, own, draft.has_many.as_slice())?;
    Ok(Model {
        name: draft.name.copy(alloc)?,
        plural: draft.plural.copy(alloc)?,
        attributes: copy_list(alloc, draft.attributes.as_slice())?,
        belongs_to,
        has_many,
    })
}

fn linked_parents(
    alloc: Global,
    models: &[ModelDraft],
    number: u32,
    drafts: &[ParentDraft],
) -> Result<Parents, SchemaFault>
    requires models { AreDraftsWithinLimits models.now }
    requires few { length drafts.now ≤ MOST_PARENTS }
    ensures exact { Gives SchemaFault.Memory (belongs_to_from models.now number [] drafts.now)
        result }
    ensures few { IfOk result (λ parents. length parents ≤ MOST_PARENTS) }
{
    let mut parents = Items::new(alloc);
    for draft in drafts {
        let at = Place {
            model: number,
            part: Part::BelongsTo,
            item: parents.len() as u32,
        };
        let parent = belongs_to_of(alloc, models, at, draft)?;
        parents.push(parent)?;
    }
    Ok(parents)
}

fn belongs_to_of(
    alloc: Global,
    models: &[ModelDraft],
    at: Place,
    draft: &ParentDraft,
) -> Result<BelongsTo, SchemaFault>
    requires { AreDraftsWithinLimits models.now }
    ensures { Gives SchemaFault.Memory (belongs_to_of models.now at draft.now) result }
{
    let Some(model) = draft_named(models, draft.model.as_bytes()) else {
        return Err(SchemaFault::UnknownModel { at });
    };
    Ok(BelongsTo {
        name: draft.name.copy(alloc)?,
        model,
        touch: draft.touch,
        null: draft.null,
    })
}

fn draft_named(models: &[ModelDraft], name: &[u8]) -> Option<u16>
    requires { AreDraftsWithinLimits models.now }
    ensures { result ≡ draft_named models.now name.now }
{
    let number = draft_at(models, name)?;
    Some(number as u16)
}

fn draft_at(models: &[ModelDraft], name: &[u8]) -> Option<usize>
    ensures { result ≡ draft_named models.now name.now }
{
    models.iter().position(|m| name == m.name.as_bytes())
}

fn linked_manys(
    alloc: Global,
    models: &[ModelDraft],
    number: u32,
    own: &[u8],
    drafts: &[ManyDraft],
) -> Result<Manys, SchemaFault>
    requires models { AreDraftsWithinLimits models.now }
    requires few { length drafts.now ≤ MOST_MANYS }
    ensures exact { Gives SchemaFault.Memory
        (has_many_from models.now number own.now [] drafts.now) result }
    ensures few { IfOk result (λ manys. length manys ≤ MOST_MANYS) }
{
    let mut manys = Items::new(alloc);
    for draft in drafts {
        let at = Place {
            model: number,
            part: Part::HasMany,
            item: manys.len() as u32,
        };
        let many = has_many_of(alloc, models, own, at, manys.as_slice(), draft)?;
        manys.push(many)?;
    }
    Ok(manys)
}

fn has_many_of(
    alloc: Global,
    models: &[ModelDraft],
    own: &[u8],
    at: Place,
    earlier: &[HasMany],
    draft: &ManyDraft,
) -> Result<HasMany, SchemaFault>
    requires { AreDraftsWithinLimits models.now }
    ensures { Gives SchemaFault.Memory (has_many_of models.now own.now at earlier.now draft.now)
        result }
{
    let Some(model) = draft_named(models, draft.model.as_bytes()) else {
        return Err(SchemaFault::UnknownModel { at });
    };
    let Some(inverse) = inverse_named(models, model, own, draft.inverse.as_bytes()) else {
        return Err(SchemaFault::BadInverse { at });
    };
    if has_inverse(earlier, model, inverse) {
        return Err(SchemaFault::BadInverse { at });
    }
    Ok(HasMany {
        name: draft.name.copy(alloc)?,
        model,
        inverse,
        destroy: draft.destroy,
    })
}

fn inverse_named(models: &[ModelDraft], child: u16, own: &[u8], name: &[u8]) -> Option<u16>
    requires { AreDraftsWithinLimits models.now }
    ensures { result ≡ inverse_named models.now child own.now name.now }
{
    let child = models.get(child as usize)?;
    parent_draft_named(child.belongs_to.as_slice(), own, name)
}

fn parent_draft_named(parents: &[ParentDraft], own: &[u8], name: &[u8]) -> Option<u16>
    requires { length parents.now ≤ MOST_PARENTS }
    ensures { result ≡ parent_draft_named parents.now own.now name.now }
{
    let number = parent_draft_at(parents, own, name)?;
    Some(number as u16)
}

fn parent_draft_at(parents: &[ParentDraft], own: &[u8], name: &[u8]) -> Option<usize>
    ensures { result ≡ parent_draft_named parents.now own.now name.now }
{
    parents.iter().position(|p| is_parent(p, own, name))
}

fn is_parent(parent: &ParentDraft, own: &[u8], name: &[u8]) -> bool
    ensures { result ≡ (bytes_eq name.now parent.now.name && bytes_eq own.now parent.now.model) }
{
    name == parent.name.as_bytes() && own == parent.model.as_bytes()
}

fn has_inverse(manys: &[HasMany], child: u16, inverse: u16) -> bool
    ensures { result ≡ has_inverse manys.now child inverse }
{
    manys
        .iter()
        .any(|many| many.model == child && many.inverse == inverse)
}
