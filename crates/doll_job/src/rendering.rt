//! Rendering the tree of a template up to the next call of the cache.

ghost use Rattle.std.specs.Prelude.{◌≡◌, [], IfOk, OnOk};
ghost use Rattle.doll_table.specs.Fits.{Fits};
ghost use Rattle.doll_eval.specs.Living.{AreLiving};
ghost use Rattle.doll_frames.specs.Carried as spec;
ghost use Rattle.doll_frames.specs.Contexts.{Known};
ghost use Rattle.doll_frames.specs.Stacks.{FramesLive, KeptLives};
ghost use Rattle.doll_frames.specs.Walks.{Lives};

use crate::steps::{
    BlockStep, CollectionStep, arm_place, block_step, collection_step, each_walk, end_block,
    end_missed, missed_scope, render_place,
};
use doll_erb::{Arms, Key, Local, Node, Tree};
use doll_expr::{Expr, Name};
use doll_frames::{
    Context, Flow, Frame, Kept, Output, Scope, Stack, Walk, alone, arm_body, bind, unbind,
    write_value,
};
use doll_table::Rows;
use doll_text::Memory;
use std::alloc::Global;

/// Carries the template with a number on, by so many levels of partials.
#[cycle(run)]
pub(crate) fn run_template<R: Rows>(
    alloc: Global,
    context: &Context<'_>,
    number: usize,
    scope: &mut Scope,
    rows: &mut R,
    out: &mut Output,
    stack: &mut Stack,
) -> Result<Flow, Memory>
    requires fits { Fits context.now.schema.now (R.table rows.old) }
    requires known { Known context.now }
    requires living { AreLiving (R.table rows.old) scope.old.vars }
    requires frames { FramesLive (R.table rows.old) stack.old.frames }
    ensures goes { IfOk result (spec.TemplateGoes context.now (R.table rows.old)
        number scope.old stack.old stack.new (R.looks rows.old) (R.looks rows.new)
        out.old out.new) }
    ensures scope { OnOk result (scope.new ≡ scope.old) }
    ensures frames { OnOk result (FramesLive (R.table rows.old) stack.new.frames) }
    ensures table { R.table rows.new ≡ R.table rows.old }
{
    if context.levels == 0 {
        stack.clear(alloc);
        return Ok(Flow::Done);
    }
    let Some(template) = context.set.templates().get(number) else {
        stack.clear(alloc);
        return Ok(Flow::Done);
    };
    let inner = Context {
        set: context.set,
        schema: context.schema,
        moment: context.moment,
        tree: context.tree,
        number,
        levels: context.levels - 1,
    };
    run_nodes(
        alloc,
        &inner,
        template.tree.as_slice(),
        scope,
        rows,
        out,
        stack,
    )
}

/// Carries nodes on, one after another.
#[cycle(run)]
fn run_nodes<R: Rows>(
    alloc: Global,
    context: &Context<'_>,
    nodes: &[Node],
    scope: &mut Scope,
    rows: &mut R,
    out: &mut Output,
    stack: &mut Stack,
) -> Result<Flow, Memory>
    requires fits { Fits context.now.schema.now (R.table rows.old) }
    requires known { Known context.now }
    requires living { AreLiving (R.table rows.old) scope.old.vars }
    requires frames { FramesLive (R.table rows.old) stack.old.frames }
    ensures goes { IfOk result (spec.NodesGo context.now (R.table rows.old)
        nodes.now scope.old stack.old stack.new (R.looks rows.old) (R.looks rows.new)
        out.old out.new) }
    ensures scope { OnOk result (scope.new ≡ scope.old) }
    ensures frames { OnOk result (FramesLive (R.table rows.old) stack.new.frames) }
    ensures table { R.table rows.new ≡ R.table rows.old }
{
    let Some(at) = stack.pop_node(alloc) else {
        return run_from(alloc, context, nodes, 0, scope, rows, out, stack);
    };
    let Some(node) = nodes.get(at) else {
        stack.clear(alloc);
        return Ok(Flow::Done);
    };
    let flow = run_node(alloc, context, node, scope, rows, out, stack)?;
    if !flow.is_done() {
        stack.push(Frame::Node { number: at })?;
        return Ok(flow);
    }
    run_from(alloc, context, nodes, at + 1, scope, rows, out, stack)
}

/// Renders nodes from one on, which begin.
#[cycle(run)]
fn run_from<R: Rows>(
    alloc: Global,
    context: &Context<'_>,
    nodes: &[Node],
    first: usize,
    scope: &mut Scope,
    rows: &mut R,
    out: &mut Output,
    stack: &mut Stack,
) -> Result<Flow, Memory>
    requires fits { Fits context.now.schema.now (R.table rows.old) }
    requires known { Known context.now }
    requires living { AreLiving (R.table rows.old) scope.old.vars }
    requires begins { stack.old.frames ≡ [] }
    ensures goes { IfOk result (spec.NodesGoFrom context.now (R.table rows.old)
        nodes.now first scope.old stack.new (R.looks rows.old) (R.looks rows.new)
        out.old out.new) }
    ensures scope { OnOk result (scope.new ≡ scope.old) }
    ensures frames { OnOk result (FramesLive (R.table rows.old) stack.new.frames) }
    ensures table { R.table rows.new ≡ R.table rows.old }
{
    let mut at = first;
    while at < nodes.len() {
        let flow = run_node(alloc, context, &nodes[at], scope, rows, out, stack)?;
        if !flow.is_done() {
            stack.push(Frame::Node { number: at })?;
            return Ok(flow);
        }
        at += 1;
    }
    Ok(Flow::Done)
}

/// Carries a node on.
#[cycle(run)]
fn run_node<R: Rows>(
    alloc: Global,
    context: &Context<'_>,
    node: &Node,
    scope: &mut Scope,
    rows: &mut R,
    out: &mut Output,
    stack: &mut Stack,
) -> Result<Flow, Memory>
    requires fits { Fits context.now.schema.now (R.table rows.old) }
    requires known { Known context.now }
    requires living { AreLiving (R.table rows.old) scope.old.vars }
    requires frames { FramesLive (R.table rows.old) stack.old.frames }
    ensures goes { IfOk result (spec.NodeGoes context.now (R.table rows.old)
        node.now scope.old stack.old stack.new (R.looks rows.old) (R.looks rows.new)
        out.old out.new) }
    ensures scope { OnOk result (scope.new ≡ scope.old) }
    ensures frames { OnOk result (FramesLive (R.table rows.old) stack.new.frames) }
    ensures table { R.table rows.new ≡ R.table rows.old }
{
    match node {
        Node::Text(text) => {
            stack.clear(alloc);
            out.append(text.as_bytes())?;
            Ok(Flow::Done)
        }
        Node::Write { expr, .. } => write_value(
            alloc, context, expr, false, scope, rows, out, stack,
        ),
        Node::Raw { expr, .. } => write_value(alloc, context, expr, true, scope, rows, out, stack),
        Node::If {
            arms,
            otherwise,
            ..
        } => run_if(alloc, context, arms, otherwise, scope, rows, out, stack),
        Node::Each {
            list,
            name,
            body,
            ..
        } => run_each(
            alloc,
            context,
            list,
            name,
            body.as_slice(),
            scope,
            rows,
            out,
            stack,
        ),
        Node::Cache {
            block,
            key,
            body,
            ..
        } => run_block(
            alloc,
            context,
            *block,
            key,
            body.as_slice(),
            scope,
            rows,
            out,
            stack,
        ),
        Node::Render { at, name, locals } => run_render(
            alloc,
            context,
            *at,
            name,
            locals.as_slice(),
            scope,
            rows,
            out,
            stack,
        ),
        Node::Collection {
            at,
            name,
            list,
            item,
            cached,
        } => run_collection(
            alloc, context, *at, name, list, item, *cached, scope, rows, out, stack,
        ),
        Node::Depends { .. } => {
            stack.clear(alloc);
            Ok(Flow::Done)
        }
    }
}

/// Carries on the body of the first arm whose test holds, else the last part.
#[cycle(run)]
fn run_if<R: Rows>(
    alloc: Global,
    context: &Context<'_>,
    arms: &Arms,
    otherwise: &Tree,
    scope: &mut Scope,
    rows: &mut R,
    out: &mut Output,
    stack: &mut Stack,
) -> Result<Flow, Memory>
    requires fits { Fits context.now.schema.now (R.table rows.old) }
    requires known { Known context.now }
    requires living { AreLiving (R.table rows.old) scope.old.vars }
    requires frames { FramesLive (R.table rows.old) stack.old.frames }
    ensures goes { IfOk result (spec.IfGoes context.now (R.table rows.old)
        arms.now otherwise.now scope.old stack.old stack.new (R.looks rows.old) (R.looks rows.new)
        out.old out.new) }
    ensures scope { OnOk result (scope.new ≡ scope.old) }
    ensures frames { OnOk result (FramesLive (R.table rows.old) stack.new.frames) }
    ensures table { R.table rows.new ≡ R.table rows.old }
{
    let place = arm_place(alloc, context, arms, scope, rows, stack)?;
    let body = arm_body(arms, otherwise, place);
    let flow = run_nodes(alloc, context, body, scope, rows, out, stack)?;
    if !flow.is_done() {
        stack.push(Frame::Arm { place })?;
        return Ok(flow);
    }
    Ok(flow)
}

/// Carries on the body of an `each`, item by item.
#[cycle(run)]
fn run_each<R: Rows>(
    alloc: Global,
    context: &Context<'_>,
    list: &Expr,
    name: &Name,
    body: &[Node],
    scope: &mut Scope,
    rows: &mut R,
    out: &mut Output,
    stack: &mut Stack,
) -> Result<Flow, Memory>
    requires fits { Fits context.now.schema.now (R.table rows.old) }
    requires known { Known context.now }
    requires living { AreLiving (R.table rows.old) scope.old.vars }
    requires frames { FramesLive (R.table rows.old) stack.old.frames }
    ensures goes { IfOk result (spec.EachGoes context.now (R.table rows.old)
        list.now name.now body.now scope.old stack.old stack.new (R.looks rows.old) (R.looks rows.new)
        out.old out.new) }
    ensures scope { OnOk result (scope.new ≡ scope.old) }
    ensures frames { OnOk result (FramesLive (R.table rows.old) stack.new.frames) }
    ensures table { R.table rows.new ≡ R.table rows.old }
{
    let Some(walk) = each_walk(alloc, context, list, scope, rows, stack)? else {
        return Ok(Flow::Done);
    };
    let mut walk = walk;
    while walk.at < walk.ids.as_slice().len() {
        let id = walk.ids.as_slice()[walk.at];
        bind(alloc, name, walk.of, walk.model, id, scope)?;
        let flow = run_nodes(alloc, context, body, scope, rows, out, stack)?;
        unbind(scope);
        if !flow.is_done() {
            stack.push(Frame::Item { walk })?;
            return Ok(flow);
        }
        walk.at += 1;
    }
    stack.clear(alloc);
    Ok(Flow::Done)
}

/// Carries a block on: it is asked for; what was found stands in its place, else its body is rendered and handed in.
#[cycle(run)]
fn run_block<R: Rows>(
    alloc: Global,
    context: &Context<'_>,
    block: u32,
    key: &Key,
    body: &[Node],
    scope: &mut Scope,
    rows: &mut R,
    out: &mut Output,
    stack: &mut Stack,
) -> Result<Flow, Memory>
    requires fits { Fits context.now.schema.now (R.table rows.old) }
    requires known { Known context.now }
    requires living { AreLiving (R.table rows.old) scope.old.vars }
    requires frames { FramesLive (R.table rows.old) stack.old.frames }
    ensures goes { IfOk result (spec.BlockGoes context.now (R.table rows.old)
        block key.now body.now scope.old stack.old stack.new (R.looks rows.old) (R.looks rows.new)
        out.old out.new) }
    ensures scope { OnOk result (scope.new ≡ scope.old) }
    ensures frames { OnOk result (FramesLive (R.table rows.old) stack.new.frames) }
    ensures table { R.table rows.new ≡ R.table rows.old }
{
    let step = block_step(alloc, context, block, key, scope, rows, out, stack)?;
    match step {
        BlockStep::Stops(flow) => Ok(flow),
        BlockStep::Body { key, written } => {
            let mut written = written;
            let flow = run_nodes(alloc, context, body, scope, rows, &mut written, stack)?;
            end_block(alloc, context, block, key, written, scope, flow, out, stack)
        }
    }
}

/// Carries on a partial with its own variables alone.
#[cycle(run)]
fn run_render<R: Rows>(
    alloc: Global,
    context: &Context<'_>,
    at: u32,
    name: &Name,
    locals: &[Local],
    scope: &Scope,
    rows: &mut R,
    out: &mut Output,
    stack: &mut Stack,
) -> Result<Flow, Memory>
    requires fits { Fits context.now.schema.now (R.table rows.old) }
    requires known { Known context.now }
    requires living { AreLiving (R.table rows.old) scope.now.vars }
    requires frames { FramesLive (R.table rows.old) stack.old.frames }
    ensures goes { IfOk result (spec.RenderGoes context.now (R.table rows.old)
        name.now locals.now scope.now stack.old stack.new (R.looks rows.old) (R.looks rows.new)
        out.old out.new) }
    ensures frames { OnOk result (FramesLive (R.table rows.old) stack.new.frames) }
    ensures table { R.table rows.new ≡ R.table rows.old }
{
    let Some((number, own)) = render_place(alloc, context, at, name, locals, scope, rows, stack)?
    else {
        return Ok(Flow::Done);
    };
    let mut own = own;
    let flow = run_template(alloc, context, number, &mut own, rows, out, stack)?;
    if !flow.is_done() {
        stack.push(Frame::Partial { number, scope: own })?;
        return Ok(flow);
    }
    Ok(flow)
}

/// Carries on a partial for each item of a list.
#[cycle(run)]
fn run_collection<R: Rows>(
    alloc: Global,
    context: &Context<'_>,
    at: u32,
    name: &Name,
    list: &Expr,
    item: &Name,
    cached: bool,
    scope: &Scope,
    rows: &mut R,
    out: &mut Output,
    stack: &mut Stack,
) -> Result<Flow, Memory>
    requires fits { Fits context.now.schema.now (R.table rows.old) }
    requires known { Known context.now }
    requires living { AreLiving (R.table rows.old) scope.now.vars }
    requires frames { FramesLive (R.table rows.old) stack.old.frames }
    ensures goes { IfOk result (spec.CollectionGoes context.now (R.table rows.old)
        name.now list.now item.now cached scope.now stack.old stack.new (R.looks rows.old) (R.looks rows.new)
        out.old out.new) }
    ensures frames { OnOk result (FramesLive (R.table rows.old) stack.new.frames) }
    ensures table { R.table rows.new ≡ R.table rows.old }
{
    let step = collection_step(
        alloc, context, at, name, list, item, cached, scope, rows, out, stack,
    )?;
    match step {
        CollectionStep::Stops(flow) => Ok(flow),
        CollectionStep::Members { partial, walk } => {
            run_members(alloc, context, partial, item, walk, rows, out, stack)
        }
        CollectionStep::Missed { kept, written } => {
            run_missed(alloc, context, item, kept, written, rows, out, stack)
        }
    }
}

/// Carries on a partial with the first item that wasn't passed, and then renders it with each that follows.
#[cycle(run)]
fn run_members<R: Rows>(
    alloc: Global,
    context: &Context<'_>,
    partial: usize,
    item: &Name,
    walk: Walk,
    rows: &mut R,
    out: &mut Output,
    stack: &mut Stack,
) -> Result<Flow, Memory>
    requires fits { Fits context.now.schema.now (R.table rows.old) }
    requires known { Known context.now }
    requires living { Lives (R.table rows.old) walk }
    requires frames { FramesLive (R.table rows.old) stack.old.frames }
    ensures goes { IfOk result (spec.MembersGo context.now (R.table rows.old)
        partial item.now walk stack.old stack.new (R.looks rows.old) (R.looks rows.new)
        out.old out.new) }
    ensures frames { OnOk result (FramesLive (R.table rows.old) stack.new.frames) }
    ensures table { R.table rows.new ≡ R.table rows.old }
{
    let mut walk = walk;
    while walk.at < walk.ids.as_slice().len() {
        let id = walk.ids.as_slice()[walk.at];
        let mut own = alone(alloc, item, walk.of, walk.model, id)?;
        let flow = run_template(alloc, context, partial, &mut own, rows, out, stack)?;
        if !flow.is_done() {
            stack.push(Frame::Member { partial, walk })?;
            return Ok(flow);
        }
        walk.at += 1;
    }
    stack.clear(alloc);
    Ok(Flow::Done)
}

/// Carries on the partial with the first item that wasn't passed; where it is done, hands it in.
#[cycle(run)]
fn run_missed<R: Rows>(
    alloc: Global,
    context: &Context<'_>,
    item: &Name,
    kept: Kept,
    written: Output,
    rows: &mut R,
    out: &mut Output,
    stack: &mut Stack,
) -> Result<Flow, Memory>
    requires fits { Fits context.now.schema.now (R.table rows.old) }
    requires known { Known context.now }
    requires living { KeptLives (R.table rows.old) kept }
    requires frames { FramesLive (R.table rows.old) stack.old.frames }
    ensures goes { IfOk result (spec.MissedGoes context.now (R.table rows.old)
        item.now kept written stack.old stack.new (R.looks rows.old) (R.looks rows.new)
        out.old out.new) }
    ensures frames { OnOk result (FramesLive (R.table rows.old) stack.new.frames) }
    ensures table { R.table rows.new ≡ R.table rows.old }
{
    let Some(own) = missed_scope(alloc, item, &kept)? else {
        stack.clear(alloc);
        return Ok(Flow::Done);
    };
    let mut own = own;
    let mut written = written;
    let flow = run_template(
        alloc,
        context,
        kept.partial,
        &mut own,
        rows,
        &mut written,
        stack,
    )?;
    end_missed(alloc, context, kept, &own, written, flow, out, stack)
}
