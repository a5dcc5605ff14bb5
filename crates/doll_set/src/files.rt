//! Files in the order of their names, and the templates that they hold.

ghost use Rattle.std.specs.Prelude.{◌≡◌, ◌+◌, ◌<◌, ◌≤◌, ◌^◌, [], length, map, option_copied, IfOk, OnOk};
ghost use Rattle.std.specs.List.{prefix_len};
ghost use Rattle.doll_text.specs.Gives.{Gives};
ghost use Rattle.doll_expr.specs.declared.lex.TheConstants.{LONGEST_SOURCE};
ghost use Rattle.doll_erb.specs.Trees.{tree_of};
ghost use Rattle.doll_set.specs.Files as spec;
ghost use Rattle.doll_set.specs.Order as order_spec;
ghost use Rattle.doll_set.specs.declared.fault.SetFault.TheVariants.{Memory as NoMemory};

use crate::fault::SetFault;
use crate::template::Template;
use doll_base::ViewFile;
use doll_erb::{ErbFault, Tree, parse_template};
use doll_expr::LONGEST_SOURCE;
use doll_text::{Items, Name, is_virtual_path};
use std::alloc::{AllocError, Global};

/// What the name of a template's file ends with.
const ENDING: &[u8] = b".html.erb";

/// Files in ascending order of their names; equal names keep their order.
pub(crate) fn in_order<'a>(
    alloc: Global,
    files: &'a [ViewFile],
) -> Result<Vec<&'a ViewFile>, AllocError>
    ensures order { IfOk result (λ ordered.
        map (λ file. file.now) ordered.items ≡ spec.in_order files.now) }
    ensures count { IfOk result (λ ordered. length ordered.items ≡ length files.now) }
{
    let mut ordered = Vec::with_capacity(alloc, files.len())?;
    for file in files {
        let at = place_of_file(ordered.as_slice(), file.name.as_bytes());
        ordered.insert(at, file)?;
    }
    Ok(ordered)
}

/// The place behind those whose names aren't above this one, from the front on.
#[tactic(auto, using(crate::proofs::Placing::place_past, crate::proofs::Placing::place_here))]
fn place_of_file(files: &[&ViewFile], name: &[u8]) -> usize
    ensures place { result ≡ prefix_len (λ other. order_spec.isnt_above other.name name.now)
        (map (λ file. file.now) files.entry.now) }
    ensures within { result ≤ length files.entry.now }
{
    let mut at = 0;
    for file in files {
        if !isnt_above(file.name.as_bytes(), name) {
            return at;
        }
        at += 1;
    }
    at
}

/// Whether a name isn't above another, by their bytes.
fn isnt_above(name: &[u8], other: &[u8]) -> bool
    ensures { result ≡ order_spec.isnt_above name.now other.now }
{
    name.cmp(other).is_le()
}

/// The virtual path that a file's name says.
pub(crate) fn virtual_path(name: &[u8]) -> Option<&[u8]>
    ensures { option_copied result ≡ spec.virtual_path name.now }
{
    if !name.ends_with(ENDING) {
        return None;
    }
    let path = &name[..name.len() - ENDING.len()];
    if !is_virtual_path(path) {
        return None;
    }
    Some(path)
}

/// The templates of files in this order, ascending by their virtual paths.
pub(crate) fn templates_of(alloc: Global, files: &[&ViewFile]) -> Result<Items<Template>, SetFault>
    requires count { length files.now < 2 ^ 32 }
    ensures answer { Gives NoMemory
        (spec.templates_from 0 [] (map (λ file. file.now) files.entry.now)) result }
    ensures count { IfOk result (λ templates. length templates ≤ length files.entry.now) }
{
    let mut templates = Vec::new(alloc);
    let mut number = 0;
    for file in files {
        let template = template_of(alloc, number, templates.as_slice(), file)?;
        put_template(&mut templates, template)?;
        number += 1;
    }
    Ok(Items::from_vec(templates))
}

/// A template among the others, by their virtual paths.
fn put_template(templates: &mut Vec<Template>, template: Template) -> Result<(), AllocError>
    ensures { OnOk result (templates.new.items ≡ spec.put_template templates.old.items template) }
{
    let at = place_of_template(templates.as_slice(), template.name.as_bytes());
    templates.insert(at, template)?;
    Ok(())
}

/// The place behind those whose names aren't above this one, from the front on.
#[tactic(auto, using(crate::proofs::Placing::place_past, crate::proofs::Placing::place_here))]
fn place_of_template(templates: &[Template], name: &[u8]) -> usize
    ensures place { result ≡ prefix_len (λ t. order_spec.isnt_above t.name name.now) templates.now }
    ensures within { result ≤ length templates.now }
{
    let mut at = 0;
    for template in templates {
        if !isnt_above(template.name.as_bytes(), name) {
            return at;
        }
        at += 1;
    }
    at
}

/// The template of a file, where these were read before it.
fn template_of(
    alloc: Global,
    number: u32,
    templates: &[Template],
    file: &ViewFile,
) -> Result<Template, SetFault>
    ensures { Gives NoMemory (spec.template_of number templates.now file.now) result }
{
    let Some(path) = virtual_path(file.name.as_bytes()) else {
        return Err(SetFault::BadName { index: number });
    };
    let name = Name::from_bytes(alloc, path)?;
    if is_taken(templates, path) {
        return Err(SetFault::Duplicate { name });
    }
    if file.source.as_bytes().len() > LONGEST_SOURCE {
        return Err(SetFault::TooLong { name });
    }
    let source = file.source.copy(alloc)?;
    let tree = tree_of(alloc, &name, source.as_bytes())?;
    Ok(Template { name, source, tree })
}

/// The tree of the source of the template with this name.
fn tree_of(alloc: Global, name: &Name, source: &[u8]) -> Result<Tree, SetFault>
    requires { length source.now ≤ LONGEST_SOURCE }
    ensures { Gives NoMemory (spec.or_bad_template name.now (tree_of source.now)) result }
{
    match parse_template(alloc, source) {
        Ok(tree) => Ok(tree),
        Err(ErbFault::Memory) => Err(SetFault::Memory),
        Err(fault) => Err(SetFault::BadTemplate {
            name: name.copy(alloc)?,
            fault,
        }),
    }
}

/// Whether a template has this name.
fn is_taken(templates: &[Template], name: &[u8]) -> bool
    ensures { result ≡ spec.is_taken templates.now name.now }
{
    templates
        .iter()
        .any(|template| name == template.name.as_bytes())
}
