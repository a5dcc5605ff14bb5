//! The items of a cached collection.

ghost use Rattle.std.specs.Prelude.{◌≡◌, ◌+◌, ◌≤◌, ◌<◌, ◌^◌, ◌++◌, ◌∷◌, [], true, IfOk, OnOk, map, sum_by, IsSome};
ghost use Rattle.std.specs.List.{list_all};
ghost use Rattle.doll_table.specs.Fits.{Fits};
ghost use Rattle.doll_table.specs.Tables.{row_of};
ghost use Rattle.doll_lint.specs.Blocks.{item_key};
ghost use Rattle.doll_run.specs.Keys.{prefix_at};
ghost use Rattle.doll_frames.specs.Collections as spec;
ghost use Rattle.doll_frames.specs.Walks as walks;

use crate::flow::{Asks, ask_for, block_id};
use crate::frame::KeptItem;
use crate::keys::{BlockKey, block_key, prefix_at};
use crate::scope::{alone_typing, alone_vars};
use crate::walk::Walk;
use doll_erb::{Key, KeyPart};
use doll_expr::{Expr, Name};
use doll_schema::{Schema, Vars};
use doll_set::TemplateSet;
use doll_table::Rows;
use doll_text::{Copied, Items, Memory, Text};
use doll_types::Typing;
use std::alloc::Global;

/// The number of the block that each item of a cached collection is, behind those of all tags.
pub const ITEM_BLOCK: u32 = 4_294_967_295;

/// The room in bytes that an item's key text is given at once behind its prefix: a record and the word `collection` seldom take
/// more. A text that needs more grows.
const BEHIND_PREFIX: usize = 50;

/// The items of a collection with their keys, and the questions for them.
#[derive(Drop)]
pub struct ItemAsks {
    pub items: Items<KeptItem>,
    pub asks: Asks,
}

/// The questions for all items of a collection, each under a name and alone with the partial with a number.
pub fn item_asks<R: Rows>(
    alloc: Global,
    set: &TemplateSet,
    schema: &Schema,
    tree: u32,
    partial: usize,
    name: &Name,
    walk: &Walk,
    rows: &mut R,
) -> Result<ItemAsks, Memory>
    requires few { partial < 2 ^ 16 }
    requires fits { Fits schema.now (R.table rows.old) }
    requires living { walks.Lives (R.table rows.old) walk.now }
    ensures items { IfOk result (λ made. made.items ≡ map (spec.kept_item set.now schema.now
        (R.table rows.old) partial name.now walk.now.of walk.now.model) walk.now.ids) }
    ensures asks { IfOk result (λ made. made.asks ≡ map (spec.item_ask set.now schema.now
        (R.table rows.old) tree partial name.now walk.now.of walk.now.model) walk.now.ids) }
    ensures keys { OnOk result (list_all (spec.item_has_key set.now schema.now
        (R.table rows.old) partial name.now walk.now.of walk.now.model) walk.now.ids ≡ true) }
    ensures table { R.table rows.new ≡ R.table rows.old }
    ensures looks { OnOk result (R.looks rows.new ≤ R.looks rows.old + sum_by (spec.item_looks
        set.now schema.now (R.table rows.old) partial name.now walk.now.of walk.now.model) walk.now.ids) }
{
    let key = item_key(alloc, name)?;
    let typing = alone_typing(alloc, name, walk.of)?;
    let prefix = prefix_at(alloc, set, partial)?;
    let mut made = ItemAsks {
        items: Items::new(alloc),
        asks: Items::new(alloc),
    };
    for id in walk.ids.as_slice() {
        add_item(
            alloc,
            set,
            schema,
            tree,
            partial,
            name,
            walk,
            *id,
            key.as_slice(),
            &typing,
            prefix.as_slice(),
            rows,
            &mut made,
        )?;
    }
    Ok(made)
}

/// Appends an item with its key, and the question for it.
#[tactic(auto, using(crate::proofs::Collections::item_made, crate::proofs::Collections::asked_made, crate::proofs::Collections::looks_made, crate::proofs::Collections::key_made, doll_plain::proofs::Parts::alone_lives))]
fn add_item<R: Rows>(
    alloc: Global,
    set: &TemplateSet,
    schema: &Schema,
    tree: u32,
    partial: usize,
    name: &Name,
    walk: &Walk,
    id: u32,
    key: &[KeyPart],
    typing: &Typing,
    prefix: &[u8],
    rows: &mut R,
    made: &mut ItemAsks,
) -> Result<(), Memory>
    requires few { partial < 2 ^ 16 }
    requires fits { Fits schema.now (R.table rows.old) }
    requires living { IsSome (row_of (R.table rows.old) walk.now.model id) }
    requires key { key.now ≡ item_key name.now }
    requires typing { typing.now ≡ (name.now, walk.now.of) ∷ [] }
    requires prefix { prefix.now ≡ prefix_at set.now partial }
    ensures items { OnOk result (made.new.items ≡ made.old.items ++ spec.kept_item set.now
        schema.now (R.table rows.old) partial name.now walk.now.of walk.now.model id ∷ []) }
    ensures asks { OnOk result (made.new.asks ≡ made.old.asks ++ spec.item_ask set.now
        schema.now (R.table rows.old) tree partial name.now walk.now.of walk.now.model id ∷ []) }
    ensures has_key { OnOk result (spec.item_has_key set.now schema.now
        (R.table rows.old) partial name.now walk.now.of walk.now.model id ≡ true) }
    ensures table { R.table rows.new ≡ R.table rows.old }
    ensures looks { OnOk result (R.looks rows.new ≤ R.looks rows.old + spec.item_looks set.now
        schema.now (R.table rows.old) partial name.now walk.now.of walk.now.model id) }
{
    let vars = alone_vars(alloc, name, walk.model, id)?;
    let one = item_block_key(
        alloc, set, schema, partial, typing, key, &vars, prefix, rows,
    )?;
    let ask = ask_for(alloc, &one, vars, block_id(tree, partial, ITEM_BLOCK))?;
    made.asks.push(ask)?;
    made.items.push(KeptItem { id, key: one })?;
    Ok(())
}

/// The key of an item that stands alone.
fn item_block_key<R: Rows>(
    alloc: Global,
    set: &TemplateSet,
    schema: &Schema,
    partial: usize,
    typing: &Typing,
    key: &[KeyPart],
    vars: &Vars,
    prefix: &[u8],
    rows: &mut R,
) -> Result<BlockKey, Memory>
    requires fits { Fits schema.now (R.table rows.old) }
    requires living { spec.AreLiving (R.table rows.old) vars.now }
    requires prefix { prefix.now ≡ prefix_at set.now partial }
    ensures key { IfOk result (λ k. k ≡ spec.key_over set.now schema.now (R.table rows.old) partial
        typing.now key.now vars.now) }
    ensures is_key { OnOk result (spec.is_key_over set.now schema.now (R.table rows.old) partial
        typing.now key.now vars.now ≡ true) }
    ensures table { R.table rows.new ≡ R.table rows.old }
    ensures looks { OnOk result (R.looks rows.new ≤ R.looks rows.old + spec.looks_over set.now
        schema.now (R.table rows.old) partial typing.now key.now vars.now) }
{
    let mut text = Vec::with_capacity(alloc, prefix.len().saturating_add(BEHIND_PREFIX))?;
    text.extend_from_slice(prefix)?;
    block_key(alloc, set, schema, partial, typing, key, vars, text, rows)
}

/// The key of an item: itself, and the word `collection`.
fn item_key(alloc: Global, item: &Name) -> Result<Key, Memory>
    ensures { IfOk result (λ key. key ≡ item_key item.now) }
{
    let mut key = Items::new(alloc);
    key.push(KeyPart::Path(Expr::Var(item.copy(alloc)?)))?;
    key.push(KeyPart::Literal(Text::from_bytes(alloc, b"collection")?))?;
    Ok(key)
}
