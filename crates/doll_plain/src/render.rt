//! Rendering the tree of a template of a set with no cache.

ghost use Rattle.std.specs.Prelude.{◌≡◌, ◌++◌, OnOk};
ghost use Rattle.doll_table.specs.Fits.{Fits};
ghost use Rattle.doll_eval.specs.Living.{AreLiving};
ghost use Rattle.doll_eval.specs.Operations;
ghost use Rattle.doll_eval.specs.Values.{value_of};
ghost use Rattle.doll_plain.specs.Direct.{collection_writes, direct, each_writes, if_writes, locals_in, tag_writes, written};
ghost use Rattle.doll_plain.specs.Pages.{levels_write, scene_of};

use crate::binding::{Records, bind, holds, items, locals_of, one_var, unbind};
use doll_erb::{Arms, Local, Node, Tree};
use doll_eval::{eval, print};
use doll_expr::{Expr, Memory, Name};
use doll_schema::{Schema, Vars};
use doll_set::TemplateSet;
use doll_table::Rows;
use std::alloc::Global;

/// What the parts of a template are rendered in.
#[derive(Drop)]
struct Context<'a> {
    /// The templates, among which are the partials.
    set: &'a TemplateSet,
    schema: &'a Schema,
    /// The number of the template.
    number: usize,
    /// How many levels of partials may follow.
    levels: usize,
}

/// Appends what the template with a number writes by so many levels of partials, nothing by none. The variables must live in the
/// table of `rows`, which must fit the schema.
#[cycle(render)]
pub fn render_template<R: Rows>(
    alloc: Global,
    set: &TemplateSet,
    schema: &Schema,
    levels: usize,
    number: usize,
    vars: Vars,
    rows: &mut R,
    out: &mut Vec<u8>,
) -> Result<(), Memory>
    requires fits { Fits schema.now (R.table rows.old) }
    requires living { AreLiving (R.table rows.old) vars }
    ensures page { OnOk result (out.new.items ≡ out.old.items
        ++ levels_write schema.now (R.table rows.old) set.now.templates levels number vars) }
    ensures table { R.table rows.new ≡ R.table rows.old }
{
    if levels == 0 {
        return Ok(());
    }
    let Some(template) = set.templates().get(number) else {
        return Ok(());
    };
    let context = Context {
        set,
        schema,
        number,
        levels: levels - 1,
    };
    let mut vars = vars;
    render(
        alloc,
        &context,
        template.tree.as_slice(),
        &mut vars,
        rows,
        out,
    )
}

/// Appends what nodes write, one after another.
#[cycle(render)]
fn render<R: Rows>(
    alloc: Global,
    context: &Context<'_>,
    nodes: &[Node],
    vars: &mut Vars,
    rows: &mut R,
    out: &mut Vec<u8>,
) -> Result<(), Memory>
    requires fits { Fits context.now.schema.now (R.table rows.old) }
    requires living { AreLiving (R.table rows.old) vars.old }
    ensures page { OnOk result (out.new.items ≡ out.old.items
        ++ direct (scene_of context.now (R.table rows.old)) nodes.now vars.old) }
    ensures vars { OnOk result (vars.new ≡ vars.old) }
    ensures table { R.table rows.new ≡ R.table rows.old }
{
    for node in nodes {
        render_node(alloc, context, node, vars, rows, out)?;
    }
    Ok(())
}

/// Appends what a node writes.
#[cycle(render)]
fn render_node<R: Rows>(
    alloc: Global,
    context: &Context<'_>,
    node: &Node,
    vars: &mut Vars,
    rows: &mut R,
    out: &mut Vec<u8>,
) -> Result<(), Memory>
    requires fits { Fits context.now.schema.now (R.table rows.old) }
    requires living { AreLiving (R.table rows.old) vars.old }
    ensures page { OnOk result (out.new.items ≡ out.old.items
        ++ written (scene_of context.now (R.table rows.old)) node.now vars.old) }
    ensures vars { OnOk result (vars.new ≡ vars.old) }
    ensures table { R.table rows.new ≡ R.table rows.old }
{
    match node {
        Node::Text(text) => Ok(out.extend_from_slice(text.as_bytes())?),
        Node::Write { expr, .. } => write_value(alloc, context, expr, false, vars, rows, out),
        Node::Raw { expr, .. } => write_value(alloc, context, expr, true, vars, rows, out),
        Node::If {
            arms,
            otherwise,
            ..
        } => render_if(alloc, context, arms, otherwise, vars, rows, out),
        Node::Each {
            list,
            name,
            body,
            ..
        } => render_each(alloc, context, list, name, body.as_slice(), vars, rows, out),
        Node::Cache { body, .. } => render(alloc, context, body.as_slice(), vars, rows, out),
        Node::Render { .. } => render_tag(alloc, context, node, vars, rows, out),
        Node::Collection { .. } => render_tag(alloc, context, node, vars, rows, out),
        Node::Depends { .. } => Ok(()),
    }
}

/// Appends the value of an expression, escaped unless it is written raw.
fn write_value<R: Rows>(
    alloc: Global,
    context: &Context<'_>,
    expr: &Expr,
    raw: bool,
    vars: &Vars,
    rows: &mut R,
    out: &mut Vec<u8>,
) -> Result<(), Memory>
    requires fits { Fits context.now.schema.now (R.table rows.old) }
    requires living { AreLiving (R.table rows.old) vars.now }
    ensures page { OnOk result (out.new.items ≡ out.old.items
        ++ Operations.written raw (value_of expr.now vars.now context.now.schema.now (R.table rows.old))) }
    ensures table { R.table rows.new ≡ R.table rows.old }
{
    let value = eval(alloc, expr, vars, context.schema, rows)?;
    print(&value, raw, out)
}

/// Appends what the first arm whose test holds writes, else the last part.
#[cycle(render)]
fn render_if<R: Rows>(
    alloc: Global,
    context: &Context<'_>,
    arms: &Arms,
    otherwise: &Tree,
    vars: &mut Vars,
    rows: &mut R,
    out: &mut Vec<u8>,
) -> Result<(), Memory>
    requires fits { Fits context.now.schema.now (R.table rows.old) }
    requires living { AreLiving (R.table rows.old) vars.old }
    ensures page { OnOk result (out.new.items ≡ out.old.items
        ++ if_writes (scene_of context.now (R.table rows.old)) arms.now otherwise.now vars.old) }
    ensures vars { OnOk result (vars.new ≡ vars.old) }
    ensures table { R.table rows.new ≡ R.table rows.old }
{
    for arm in arms.as_slice() {
        let held = holds(alloc, &arm.test, vars, context.schema, rows)?;
        if held {
            return render(alloc, context, arm.body.as_slice(), vars, rows, out);
        }
    }
    render(alloc, context, otherwise.as_slice(), vars, rows, out)
}

/// Appends what a body writes for each item of a list, with the item under a name.
#[cycle(render)]
fn render_each<R: Rows>(
    alloc: Global,
    context: &Context<'_>,
    list: &Expr,
    name: &Name,
    body: &[Node],
    vars: &mut Vars,
    rows: &mut R,
    out: &mut Vec<u8>,
) -> Result<(), Memory>
    requires fits { Fits context.now.schema.now (R.table rows.old) }
    requires living { AreLiving (R.table rows.old) vars.old }
    ensures page { OnOk result (out.new.items ≡ out.old.items
        ++ each_writes (scene_of context.now (R.table rows.old)) list.now name.now body.now vars.old) }
    ensures vars { OnOk result (vars.new ≡ vars.old) }
    ensures table { R.table rows.new ≡ R.table rows.old }
{
    let Records { model, ids } = items(alloc, list, vars, context.schema, rows)?;
    for id in ids.as_slice() {
        bind(alloc, name, model, *id, vars)?;
        render(alloc, context, body, vars, rows, out)?;
        unbind(vars);
    }
    Ok(())
}

/// Appends what a tag that renders a partial writes.
#[cycle(render)]
fn render_tag<R: Rows>(
    alloc: Global,
    context: &Context<'_>,
    node: &Node,
    vars: &Vars,
    rows: &mut R,
    out: &mut Vec<u8>,
) -> Result<(), Memory>
    requires fits { Fits context.now.schema.now (R.table rows.old) }
    requires living { AreLiving (R.table rows.old) vars.now }
    ensures page { OnOk result (out.new.items ≡ out.old.items
        ++ tag_writes (scene_of context.now (R.table rows.old)) node.now vars.now) }
    ensures table { R.table rows.new ≡ R.table rows.old }
{
    match node {
        Node::Render { at, name, locals } => {
            render_partial(
                alloc,
                context,
                *at,
                name,
                locals.as_slice(),
                vars,
                rows,
                out,
            )
        }
        Node::Collection {
            at,
            name,
            list,
            item,
            ..
        } => render_collection(alloc, context, *at, name, list, item, vars, rows, out),
        _ => Ok(()),
    }
}

/// Appends what a partial writes with its own variables alone.
#[cycle(render)]
fn render_partial<R: Rows>(
    alloc: Global,
    context: &Context<'_>,
    at: u32,
    name: &Name,
    locals: &[Local],
    vars: &Vars,
    rows: &mut R,
    out: &mut Vec<u8>,
) -> Result<(), Memory>
    requires fits { Fits context.now.schema.now (R.table rows.old) }
    requires living { AreLiving (R.table rows.old) vars.now }
    ensures page { let scene = scene_of context.now (R.table rows.old) in
        OnOk result (out.new.items ≡ out.old.items
        ++ scene.partial name.now (locals_in scene locals.now vars.now)) }
    ensures table { R.table rows.new ≡ R.table rows.old }
{
    let own = locals_of(alloc, locals, vars, context.schema, rows)?;
    let Some(partial) = context
        .set
        .partial_at(alloc, context.number, at, name.as_bytes())?
    else {
        return Ok(());
    };
    render_template(
        alloc,
        context.set,
        context.schema,
        context.levels,
        partial,
        own,
        rows,
        out,
    )
}

/// Appends what a partial writes for each item of a list, with the item alone.
#[cycle(render)]
fn render_collection<R: Rows>(
    alloc: Global,
    context: &Context<'_>,
    at: u32,
    name: &Name,
    list: &Expr,
    item: &Name,
    vars: &Vars,
    rows: &mut R,
    out: &mut Vec<u8>,
) -> Result<(), Memory>
    requires fits { Fits context.now.schema.now (R.table rows.old) }
    requires living { AreLiving (R.table rows.old) vars.now }
    ensures page { OnOk result (out.new.items ≡ out.old.items
        ++ collection_writes (scene_of context.now (R.table rows.old)) name.now list.now item.now vars.now) }
    ensures table { R.table rows.new ≡ R.table rows.old }
{
    let Records { model, ids } = items(alloc, list, vars, context.schema, rows)?;
    let Some(partial) = context
        .set
        .partial_at(alloc, context.number, at, name.as_bytes())?
    else {
        return Ok(());
    };
    for id in ids.as_slice() {
        let own = one_var(alloc, item, model, *id)?;
        render_template(
            alloc,
            context.set,
            context.schema,
            context.levels,
            partial,
            own,
            rows,
            out,
        )?;
    }
    Ok(())
}
