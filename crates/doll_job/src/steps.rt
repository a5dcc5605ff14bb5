//! Steps between the parts of a rendering, which take no part in its recursion.

ghost use Rattle.std.specs.Prelude.{◌≡◌, ◌≤◌, ◌<◌, ◌^◌, [], None, ℕ, false, List, IfOk, OnOk, IfSome, get_or, length};
ghost use Rattle.std.specs.Option.{option_copied};
ghost use Rattle.doll_erb.specs.declared.node.Node.{Node};
ghost use Rattle.doll_table.specs.Fits.{Fits};
ghost use Rattle.doll_table.specs.Tables.{TableMap};
ghost use Rattle.doll_eval.specs.Living.{AreLiving};
ghost use Rattle.doll_frames.specs.Carried as carried;
ghost use Rattle.doll_frames.specs.Contexts.{Known};
ghost use Rattle.doll_frames.specs.declared.context.Context.{Context as InContext};
ghost use Rattle.doll_frames.specs.Stacks.{FramesLive, KeptLives, Stopped, first_is, fragment, fragments, is_collection};
ghost use Rattle.doll_frames.specs.Walks.{Lives};
ghost use Rattle.doll_job.specs.Steps as spec;

use doll_entry::Fetched;
use doll_erb::{Arms, Key, Local};
use doll_expr::{Expr, Name};
use doll_frames::{
    AtBlock, AtCollection, BlockKey, Context, Flow, Frame, ITEM_BLOCK, Kept, Output, Scope, Stack,
    Walk, alone, ask_block, ask_items, begin_walk, block_id, chosen_arm, fresh_of, locals_scope,
};
use doll_table::Rows;
use doll_text::{Copied, Memory};
use std::alloc::Global;

/// How a block goes on.
#[derive(Drop)]
pub(crate) enum BlockStep {
    /// It is done, or stops at a call.
    Stops(Flow),
    /// By its body, of which so much is written.
    Body { key: BlockKey, written: Output },
}

/// How a tag goes on that renders a partial for each item of a list.
#[derive(Drop)]
pub(crate) enum CollectionStep {
    /// It is done, or stops at a call.
    Stops(Flow),
    /// By the first item that wasn't passed.
    Members { partial: usize, walk: Walk },
    /// By the first item that wasn't passed, which missed and of which so much is written.
    Missed { kept: Kept, written: Output },
}

/// The arm of an `if` that it stopped in, else the first whose test holds.
pub(crate) fn arm_place<R: Rows>(
    alloc: Global,
    context: &Context<'_>,
    arms: &Arms,
    scope: &Scope,
    rows: &mut R,
    stack: &mut Stack,
) -> Result<usize, Memory>
    requires fits { Fits context.now.schema.now (R.table rows.old) }
    requires living { AreLiving (R.table rows.old) scope.now.vars }
    requires frames { FramesLive (R.table rows.old) stack.old.frames }
    ensures leads { (otherwise : List Node) (before : List ℕ) → IfOk result
        (λ place. spec.ArmLeads context.now (R.table rows.old) arms.now otherwise scope.now place
        stack.old stack.new (R.looks rows.old) (R.looks rows.new) before) }
    ensures frames { OnOk result (FramesLive (R.table rows.old) stack.new.frames) }
    ensures table { R.table rows.new ≡ R.table rows.old }
{
    if let Some(place) = stack.pop_arm(alloc) {
        return Ok(place);
    }
    let place = chosen_arm(alloc, arms.as_slice(), &scope.vars, context.schema, rows)?;
    Ok(place)
}

/// The items of an `each` from the one on that it stopped in, else all of its list; none where it has no items by its type.
pub(crate) fn each_walk<R: Rows>(
    alloc: Global,
    context: &Context<'_>,
    list: &Expr,
    scope: &Scope,
    rows: &mut R,
    stack: &mut Stack,
) -> Result<Option<Walk>, Memory>
    requires fits { Fits context.now.schema.now (R.table rows.old) }
    requires living { AreLiving (R.table rows.old) scope.now.vars }
    requires frames { FramesLive (R.table rows.old) stack.old.frames }
    ensures leads { (name : List ℕ) (body : List Node) (before : List ℕ) → IfOk result
        (spec.EachLeads context.now (R.table rows.old) list.now name body scope.now
        stack.old stack.new (R.looks rows.old) (R.looks rows.new) before before) }
    ensures living { IfOk result (λ walk. IfSome walk (Lives (R.table rows.old))) }
    ensures frames { OnOk result (FramesLive (R.table rows.old) stack.new.frames) }
    ensures ended { IfOk result (λ walk. walk ≡ None → stack.new.frames ≡ []) }
    ensures table { R.table rows.new ≡ R.table rows.old }
{
    if let Some(walk) = stack.pop_item(alloc) {
        return Ok(Some(walk));
    }
    let walk = begin_walk(alloc, list, scope, context.schema, rows)?;
    Ok(walk)
}

/// The partial that a tag stopped in with its variables, else the one that it names with the values of its locals; none where it
/// names none, or one of them has no type.
pub(crate) fn render_place<R: Rows>(
    alloc: Global,
    context: &Context<'_>,
    at: u32,
    name: &Name,
    locals: &[Local],
    scope: &Scope,
    rows: &mut R,
    stack: &mut Stack,
) -> Result<Option<(usize, Scope)>, Memory>
    requires fits { Fits context.now.schema.now (R.table rows.old) }
    requires living { AreLiving (R.table rows.old) scope.now.vars }
    requires frames { FramesLive (R.table rows.old) stack.old.frames }
    ensures leads { (before : List ℕ) → IfOk result
        (spec.RenderLeads context.now (R.table rows.old) name.now locals.now scope.now
        stack.old stack.new (R.looks rows.old) (R.looks rows.new) before) }
    ensures living { IfOk result
        (λ found. IfSome found (λ at. AreLiving (R.table rows.old) at.1.vars)) }
    ensures frames { OnOk result (FramesLive (R.table rows.old) stack.new.frames) }
    ensures table { R.table rows.new ≡ R.table rows.old }
{
    if let Some(at) = stack.pop_partial(alloc) {
        return Ok(Some(at));
    }
    let Some(own) = locals_scope(alloc, locals, scope, context.schema, rows)? else {
        return Ok(None);
    };
    let Some(number) = context
        .set
        .partial_at(alloc, context.number, at, name.as_bytes())?
    else {
        return Ok(None);
    };
    Ok(Some((number, own)))
}

/// Asks for a block, writes what was found in its place, or goes on by its body.
pub(crate) fn block_step<R: Rows>(
    alloc: Global,
    context: &Context<'_>,
    block: u32,
    key: &Key,
    scope: &Scope,
    rows: &mut R,
    out: &mut Output,
    stack: &mut Stack,
) -> Result<BlockStep, Memory>
    requires fits { Fits context.now.schema.now (R.table rows.old) }
    requires known { Known context.now }
    requires living { AreLiving (R.table rows.old) scope.now.vars }
    requires frames { FramesLive (R.table rows.old) stack.old.frames }
    ensures leads { (body : List Node) → IfOk result
        (spec.BlockLeads context.now (R.table rows.old) block key.now body scope.now
        stack.old stack.new (R.looks rows.old) (R.looks rows.new) out.old out.new) }
    ensures frames { OnOk result (FramesLive (R.table rows.old) stack.new.frames) }
    ensures table { R.table rows.new ≡ R.table rows.old }
{
    match stack.pop_block(alloc) {
        AtBlock::Start => {
            let flow = ask_block(alloc, context, block, key, scope, rows, stack)?;
            Ok(BlockStep::Stops(flow))
        }
        AtBlock::Asked(key) => {
            let found = stack.take_one();
            stack.clear(alloc);
            let Some(fragment) = found else {
                return Ok(BlockStep::Body {
                    key,
                    written: Output::new(alloc),
                });
            };
            out.append(fragment.get().as_slice())?;
            Ok(BlockStep::Stops(Flow::Done))
        }
        AtBlock::Body { key, written } => Ok(BlockStep::Body { key, written }),
        AtBlock::Behind => {
            stack.clear(alloc);
            Ok(BlockStep::Stops(Flow::Done))
        }
    }
}

/// Ends a block whose body came so far: where that is done, the block is written and handed in, else it stops with it.
pub(crate) fn end_block(
    alloc: Global,
    context: &Context<'_>,
    block: u32,
    key: BlockKey,
    written: Output,
    scope: &Scope,
    flow: Flow,
    out: &mut Output,
    stack: &mut Stack,
) -> Result<Flow, Memory>
    requires known { Known context.now }
    ensures goes { (table : TableMap) (body : List Node) (old : Stopped) (looks later : ℕ)
        (before : List ℕ) → carried.NodesGo context.now table body scope.now old stack.old
        looks later before written flow → IfOk result (carried.BodyGoes context.now table block key
        body before scope.now old stack.new looks later out.old out.new) }
    ensures frames { (table : TableMap) → FramesLive table stack.old.frames
        → OnOk result (FramesLive table stack.new.frames) }
{
    if !flow.is_done() {
        stack.push(Frame::Body { key, written })?;
        return Ok(flow);
    }
    out.append(written.as_slice())?;
    let fresh = fresh_of(
        alloc,
        key,
        &scope.vars,
        block_id(context.tree, context.number, block),
        written.into_bytes(),
        context.moment,
    )?;
    stack.push(Frame::Behind)?;
    Ok(Flow::Write(fresh))
}

/// Begins with the first item of a list, asks for all of them, or goes on from where it stopped, past the items that were found.
pub(crate) fn collection_step<R: Rows>(
    alloc: Global,
    context: &Context<'_>,
    at: u32,
    name: &Name,
    list: &Expr,
    item: &Name,
    cached: bool,
    scope: &Scope,
    rows: &mut R,
    out: &mut Output,
    stack: &mut Stack,
) -> Result<CollectionStep, Memory>
    requires fits { Fits context.now.schema.now (R.table rows.old) }
    requires known { Known context.now }
    requires living { AreLiving (R.table rows.old) scope.now.vars }
    requires frames { FramesLive (R.table rows.old) stack.old.frames }
    ensures leads { IfOk result (spec.CollectionLeads context.now (R.table rows.old)
        name.now list.now item.now cached scope.now stack.old stack.new
        (R.looks rows.old) (R.looks rows.new) out.old out.new) }
    ensures living { IfOk result (spec.StepLives (R.table rows.old)) }
    ensures frames { OnOk result (FramesLive (R.table rows.old) stack.new.frames) }
    ensures table { R.table rows.new ≡ R.table rows.old }
{
    match stack.pop_collection(alloc) {
        AtCollection::Start => {
            begin_collection(
                alloc, context, at, name, list, item, cached, scope, rows, stack,
            )
        }
        AtCollection::Member { partial, walk } => Ok(CollectionStep::Members { partial, walk }),
        AtCollection::Asked(kept) => {
            let mut kept = kept;
            kept.found = stack.take_many(alloc);
            stack.clear(alloc);
            pass_found(alloc, kept, out)
        }
        AtCollection::Missed { kept, written } => Ok(CollectionStep::Missed { kept, written }),
        AtCollection::HandedIn(kept) => {
            stack.clear(alloc);
            pass_found(alloc, kept, out)
        }
    }
}

/// Begins with the first item of a list, or asks for all of them.
fn begin_collection<R: Rows>(
    alloc: Global,
    context: &Context<'_>,
    at: u32,
    name: &Name,
    list: &Expr,
    item: &Name,
    cached: bool,
    scope: &Scope,
    rows: &mut R,
    stack: &mut Stack,
) -> Result<CollectionStep, Memory>
    requires fits { Fits context.now.schema.now (R.table rows.old) }
    requires known { Known context.now }
    requires living { AreLiving (R.table rows.old) scope.now.vars }
    requires begins { stack.old.frames ≡ [] }
    ensures leads { (old : Stopped) (before : List ℕ) → first_is is_collection old.frames ≡ false → IfOk result
        (spec.CollectionLeads context.now (R.table rows.old) name.now list.now item.now cached
        scope.now old stack.new (R.looks rows.old) (R.looks rows.new) before before) }
    ensures living { IfOk result (spec.StepLives (R.table rows.old)) }
    ensures frames { OnOk result (FramesLive (R.table rows.old) stack.new.frames) }
    ensures table { R.table rows.new ≡ R.table rows.old }
{
    let Some(walk) = begin_walk(alloc, list, scope, context.schema, rows)? else {
        return Ok(CollectionStep::Stops(Flow::Done));
    };
    let Some(partial) = context
        .set
        .partial_at(alloc, context.number, at, name.as_bytes())?
    else {
        return Ok(CollectionStep::Stops(Flow::Done));
    };
    if !cached {
        return Ok(CollectionStep::Members { partial, walk });
    }
    let flow = ask_items(alloc, context, partial, item, walk, rows, stack)?;
    Ok(CollectionStep::Stops(flow))
}

/// Writes what was found of the items that weren't passed, up to the first that missed.
fn pass_found(alloc: Global, kept: Kept, out: &mut Output) -> Result<CollectionStep, Memory>
    ensures leads { (context : InContext)
        (table : TableMap) (item : List ℕ) (looks : ℕ) → IfOk result
        (spec.KeptLeads context table item kept looks out.old out.new) }
    ensures living { (table : TableMap) → KeptLives table kept
        → IfOk result (spec.StepLives table) }
{
    let mut kept = kept;
    while kept.at < kept.items.len() {
        let Some(bytes) = found_bytes(&kept) else {
            return Ok(CollectionStep::Missed {
                kept,
                written: Output::new(alloc),
            });
        };
        out.append(bytes)?;
        kept.at += 1;
    }
    Ok(CollectionStep::Stops(Flow::Done))
}

/// What was found of the first item that wasn't passed.
fn found_bytes(kept: &Kept) -> Option<&[u8]>
    ensures { option_copied result ≡ get_or (fragments kept.now.found) kept.now.at None }
{
    let Some(found) = kept.found.get(kept.at) else {
        return None;
    };
    bytes_of(found)
}

/// The bytes that were found, if any.
fn bytes_of(found: &Fetched) -> Option<&[u8]>
    ensures { option_copied result ≡ fragment found.now }
{
    match found {
        Fetched::Hit(fragment) => Some(fragment.get().as_slice()),
        Fetched::Miss(_) => None,
    }
}

/// The variable of the first item that wasn't passed, where there is one.
pub(crate) fn missed_scope(alloc: Global, item: &Name, kept: &Kept) -> Result<Option<Scope>, Memory>
    ensures some { IfOk result (λ own. IfSome own (spec.IsMissed item.now kept.now)) }
    ensures none { IfOk result (λ own. own ≡ None → length kept.now.items ≤ kept.now.at) }
{
    let Some(one) = kept.items.get(kept.at) else {
        return Ok(None);
    };
    let own = alone(alloc, item, kept.of, kept.model, one.id)?;
    Ok(Some(own))
}

/// Ends an item that missed and whose partial came so far: where that is done, the item is written and handed in, else it stops
/// with it.
pub(crate) fn end_missed(
    alloc: Global,
    context: &Context<'_>,
    kept: Kept,
    own: &Scope,
    written: Output,
    flow: Flow,
    out: &mut Output,
    stack: &mut Stack,
) -> Result<Flow, Memory>
    requires within { kept.at < length kept.items }
    requires known { kept.partial < 2 ^ 16 }
    ensures goes { (table : TableMap) (item : List ℕ) (old : Stopped) (looks later : ℕ)
        (before : List ℕ) → spec.IsMissed item kept own.now
        → carried.TemplateGoes context.now table kept.partial own.now old stack.old
        looks later before written flow → IfOk result (carried.MissedGoes context.now table item kept
        before old stack.new looks later out.old out.new) }
    ensures frames { (table : TableMap) → KeptLives table kept → FramesLive table stack.old.frames
        → OnOk result (FramesLive table stack.new.frames) }
{
    if !flow.is_done() {
        stack.push(Frame::Missed { kept, written })?;
        return Ok(flow);
    }
    out.append(written.as_slice())?;
    let key = kept.items.as_slice()[kept.at].key.copy(alloc)?;
    let fresh = fresh_of(
        alloc,
        key,
        &own.vars,
        block_id(context.tree, kept.partial, ITEM_BLOCK),
        written.into_bytes(),
        context.moment,
    )?;
    let mut kept = kept;
    kept.at += 1;
    stack.push(Frame::HandedIn { kept })?;
    Ok(Flow::Write(fresh))
}
