//! Steps of a rendering that take no part in its recursion: writing a value, and asking.

ghost use Rattle.std.specs.Prelude.{◌≡◌, ◌≤◌, ◌<◌, ◌+◌, ◌^◌, ◌++◌, [], ℕ, Bool, List, IfOk, OnOk};
ghost use Rattle.doll_erb.specs.declared.node.Node.{Node};
ghost use Rattle.doll_expr.specs.declared.expr.Expr.{Expr};
ghost use Rattle.doll_table.specs.Fits.{Fits};
ghost use Rattle.doll_eval.specs.Living.{AreLiving};
ghost use Rattle.doll_eval.specs.Operations;
ghost use Rattle.doll_eval.specs.Values.{looks_of, value_of};
ghost use Rattle.doll_plain.specs.Direct.{Variables};
ghost use Rattle.doll_types.specs.Types.{Typing as Types};
ghost use Rattle.doll_run.specs.Rendering.{items_run};
ghost use Rattle.doll_frames.specs.Along.{Went};
ghost use Rattle.doll_frames.specs.Contexts.{Known, over_of};
ghost use Rattle.doll_frames.specs.Left as spec;
ghost use Rattle.doll_frames.specs.Stacks.{FramesLive};
ghost use Rattle.doll_frames.specs.Walks.{Lives, items_in};

use crate::collection::item_asks;
use crate::context::Context;
use crate::flow::{Flow, ask_for, block_id};
use crate::frame::{Frame, Kept};
use crate::keys::{block_key, prefix_at};
use crate::output::Output;
use crate::scope::Scope;
use crate::stack::Stack;
use crate::walk::Walk;
use doll_erb::Key;
use doll_eval::eval;
use doll_expr::{Expr, Name};
use doll_table::Rows;
use doll_text::{Copied, Items, Memory};
use std::alloc::Global;

/// Writes the value of an expression, escaped unless it is written raw.
pub fn write_value<R: Rows>(
    alloc: Global,
    context: &Context<'_>,
    expr: &Expr,
    raw: bool,
    scope: &Scope,
    rows: &mut R,
    out: &mut Output,
    stack: &mut Stack,
) -> Result<Flow, Memory>
    requires fits { Fits context.now.schema.now (R.table rows.old) }
    requires living { AreLiving (R.table rows.old) scope.now.vars }
    ensures done { IfOk result (λ flow. flow ≡ Flow.Done) }
    ensures text { OnOk result (out.new ≡ out.old ++ Operations.written raw
        (value_of expr.now scope.now.vars context.now.schema.now (R.table rows.old))) }
    ensures looks { OnOk result (R.looks rows.new ≤ R.looks rows.old
        + looks_of expr.now scope.now.vars context.now.schema.now (R.table rows.old)) }
    ensures frames { stack.new.frames ≡ [] }
    ensures table { R.table rows.new ≡ R.table rows.old }
{
    stack.clear(alloc);
    let value = eval(alloc, expr, &scope.vars, context.schema, rows)?;
    out.print(&value, raw)?;
    Ok(Flow::Done)
}

/// Asks for a block.
#[tactic(auto, using(crate::proofs::Lives::frame_pushed, crate::proofs::Lives::no_frames))]
pub fn ask_block<R: Rows>(
    alloc: Global,
    context: &Context<'_>,
    block: u32,
    key: &Key,
    scope: &Scope,
    rows: &mut R,
    stack: &mut Stack,
) -> Result<Flow, Memory>
    requires fits { Fits context.now.schema.now (R.table rows.old) }
    requires known { Known context.now }
    requires living { AreLiving (R.table rows.old) scope.now.vars }
    requires frames { FramesLive (R.table rows.old) stack.old.frames }
    requires begins { stack.old.frames ≡ [] }
    ensures goes { (body : List Node) → IfOk result (Went
        (spec.block_anew (spec.stage_at (over_of context.now (R.table rows.old)) context.now.levels context.now.number) block key.now body
        scope.now.typing scope.now.vars)
        (spec.block_left (over_of context.now (R.table rows.old)) context.now.levels context.now.number block key.now body
        scope.now.typing scope.now.vars) stack.new
        (R.looks rows.old) (R.looks rows.new) [] []) }
    ensures frames { OnOk result (FramesLive (R.table rows.old) stack.new.frames) }
    ensures table { R.table rows.new ≡ R.table rows.old }
{
    let prefix = prefix_at(alloc, context.set, context.number)?;
    let key = block_key(
        alloc,
        context.set,
        context.schema,
        context.number,
        &scope.typing,
        key.as_slice(),
        &scope.vars,
        prefix,
        rows,
    )?;
    let block = block_id(context.tree, context.number, block);
    let vars = scope.vars.copy(alloc)?;
    let ask = ask_for(alloc, &key, vars, block)?;
    stack.push(Frame::Asked { key })?;
    Ok(Flow::Read(ask))
}

/// Asks for all items of a cached collection, where there are any.
#[tactic(auto, using(crate::proofs::Lives::frame_pushed, crate::proofs::Lives::no_frames))]
pub fn ask_items<R: Rows>(
    alloc: Global,
    context: &Context<'_>,
    partial: usize,
    item: &Name,
    walk: Walk,
    rows: &mut R,
    stack: &mut Stack,
) -> Result<Flow, Memory>
    requires fits { Fits context.now.schema.now (R.table rows.old) }
    requires known { Known context.now }
    requires living { Lives (R.table rows.old) walk }
    requires frames { FramesLive (R.table rows.old) stack.old.frames }
    requires few { partial < 2 ^ 16 }
    requires begins { stack.old.frames ≡ [] }
    ensures goes { (name : List ℕ) (list : Expr) (cached : Bool) (typing : Types) (vars : Variables) → IfOk result (Went
        (items_run (spec.stage_at (over_of context.now (R.table rows.old)) context.now.levels context.now.number) partial item.now walk.of (items_in walk))
        (spec.collection_left (over_of context.now (R.table rows.old)) context.now.levels context.now.number name list item.now cached typing vars) stack.new
        (R.looks rows.old) (R.looks rows.new) [] []) }
    ensures frames { OnOk result (FramesLive (R.table rows.old) stack.new.frames) }
    ensures table { R.table rows.new ≡ R.table rows.old }
{
    if walk.ids.as_slice().is_empty() {
        return Ok(Flow::Done);
    }
    let made = item_asks(
        alloc,
        context.set,
        context.schema,
        context.tree,
        partial,
        item,
        &walk,
        rows,
    )?;
    let kept = Kept {
        partial,
        of: walk.of,
        model: walk.model,
        items: made.items,
        at: 0,
        found: Items::new(alloc),
    };
    stack.push(Frame::AskedMany { kept })?;
    Ok(Flow::ReadMany(made.asks))
}
