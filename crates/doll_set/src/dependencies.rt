//! What templates depend on: the partials that their tags name.

ghost use Rattle.std.specs.Prelude.{◌≡◌, ◌++◌, ◌∷◌, [], ◌<◌, ◌^◌, ◌==◌, true, false, length, map, slice_set, IfOk, OnOk};
ghost use Rattle.std.specs.List.{AllByRecursion, IsDistinct, list_any, range_with_len};
ghost use Rattle.std.specs.Str.{bytes_eq};
ghost use Rattle.doll_digest.specs.Registries.{name_added, names_in};
ghost use Rattle.doll_text.specs.Gives.{Gives};
ghost use Rattle.doll_text.specs.Segments.{is_slash};
ghost use Rattle.doll_graph.specs.Graphs.{has_mark};
ghost use Rattle.doll_set.specs.Dependencies as spec;
ghost use Rattle.doll_set.specs.declared.fault.SetFault.TheVariants.{Memory as NoMemory};

use crate::fault::SetFault;
use crate::template::Template;
use doll_erb::Node;
use doll_text::segments::last_segment;
use doll_text::{Ids, Items, Memory, Name, SLASH};
use indexmap::IndexSet;
use std::alloc::{AllocError, Global};

/// What stands before the name of a partial's file.
const UNDERSCORE: u8 = b'_';

/// A tag that names a partial.
#[derive(Drop)]
pub struct PartialTag {
    /// The place of its `<%`.
    pub at: u32,
    /// The partial's name as it is written.
    pub name: Name,
    /// Whether it renders the partial; a comment that declares a dependency doesn't.
    pub renders: bool,
}

/// What a template depends on.
#[derive(Drop)]
pub struct Links {
    /// The numbers of its partials, ascending, each once.
    pub dependencies: Ids,
    /// The numbers of the partials that it renders, once for each tag, in the order of the text.
    pub rendered: Ids,
}

/// Appends the tags of nodes that name a partial, in the order of the text.
#[cycle(tags)]
#[tactic(auto, using(crate::proofs::Tags::if_tags, crate::proofs::Tags::each_tags, crate::proofs::Tags::cache_tags))]
pub(crate) fn add_tags(
    alloc: Global,
    nodes: &[Node],
    tags: &mut Items<PartialTag>,
) -> Result<(), Memory>
    ensures { OnOk result (tags.new ≡ tags.old ++ spec.tags_of nodes.now) }
{
    for node in nodes {
        add_node_tags(alloc, node, tags)?;
    }
    Ok(())
}

/// Appends those of a node.
#[cycle(tags)]
#[tactic(auto, using(crate::proofs::Tags::if_tags, crate::proofs::Tags::each_tags, crate::proofs::Tags::cache_tags))]
fn add_node_tags(alloc: Global, node: &Node, tags: &mut Items<PartialTag>) -> Result<(), Memory>
    ensures { OnOk result (tags.new ≡ tags.old ++ spec.node_tags node.now) }
{
    match node {
        Node::Text(_) | Node::Write { .. } | Node::Raw { .. } => Ok(()),
        Node::If {
            arms,
            otherwise,
            ..
        } => {
            for arm in arms.as_slice() {
                add_tags(alloc, arm.body.as_slice(), tags)?;
            }
            add_tags(alloc, otherwise.as_slice(), tags)
        }
        Node::Each { body, .. } | Node::Cache { body, .. } => {
            add_tags(alloc, body.as_slice(), tags)
        }
        Node::Render { at, name, .. } | Node::Collection { at, name, .. } => {
            add_tag(alloc, *at, name, true, tags)
        }
        Node::Depends { at, name } => add_tag(alloc, *at, name, false, tags),
    }
}

/// Appends one tag.
fn add_tag(
    alloc: Global,
    at: u32,
    name: &Name,
    renders: bool,
    tags: &mut Items<PartialTag>,
) -> Result<(), Memory>
    ensures { OnOk result (tags.new
        ≡ tags.old ++ record { at = at; name = name.now; renders = renders } ∷ []) }
{
    let name = name.copy(alloc)?;
    tags.push(PartialTag { at, name, renders })?;
    Ok(())
}

/// The virtual path of the partial that a template means by a name: in the folder that the name has, else in the template's,
/// with an underscore before its last segment.
#[tactic(auto, unfolding(crate::specs::Dependencies::partial_path))]
pub(crate) fn partial_path(alloc: Global, template: &[u8], name: &[u8]) -> Result<Vec<u8>, Memory>
    ensures { IfOk result (λ path. path.items ≡ spec.partial_path template.now name.now) }
{
    let mut path = Vec::new(alloc);
    put_folder(folder_meant(template, name), &mut path)?;
    path.push(UNDERSCORE)?;
    path.extend_from_slice(last_segment(name))?;
    Ok(path)
}

/// The folder that a template means by a name: the name's own, or where it has none the template's.
fn folder_meant<'a>(template: &'a [u8], name: &'a [u8]) -> &'a [u8]
    ensures { result.now ≡ spec.folder_meant template.now name.now }
{
    if has_slash(name) {
        return folder_of(name);
    }
    folder_of(template)
}

fn has_slash(name: &[u8]) -> bool
    ensures { result ≡ list_any is_slash name.now }
{
    name.iter().any(|byte| *byte == SLASH)
}

/// The folder of a name, nothing where the name has none.
fn folder_of(name: &[u8]) -> &[u8]
    ensures { result.now ≡ spec.folder_of name.now }
{
    let mut at = name.len();
    while at > 0 {
        if name[at - 1] == SLASH {
            return &name[..at - 1];
        }
        at -= 1;
    }
    &name[..0]
}

/// Appends what stands before a file's name in a folder.
fn put_folder(folder: &[u8], path: &mut Vec<u8>) -> Result<(), AllocError>
    ensures { OnOk result (path.new.items ≡ path.old.items ++ spec.within folder.now) }
{
    if folder.is_empty() {
        return Ok(());
    }
    path.extend_from_slice(folder)?;
    path.push(SLASH)?;
    Ok(())
}

/// The number of the template with this virtual path, by the names of all.
pub(crate) fn number_of(names: &IndexSet<Vec<u8>>, path: &[u8]) -> Option<usize>
    ensures { result ≡ spec.number_of (names_in names.now.keys) path.now }
{
    names.get_index_of(path)
}

/// The names of templates, to be found by their hash.
pub(crate) fn index_of_names(
    alloc: Global,
    templates: &[Template],
) -> Result<IndexSet<Vec<u8>>, Memory>
    requires distinct { IsDistinct bytes_eq (spec.names_of templates.now) }
    ensures { IfOk result (λ names. names_in names.keys ≡ spec.names_of templates.now) }
{
    let mut names = IndexSet::new(alloc);
    for template in templates {
        add_name(alloc, &mut names, template.name.as_bytes())?;
    }
    Ok(names)
}

fn add_name(alloc: Global, names: &mut IndexSet<Vec<u8>>, name: &[u8]) -> Result<(), Memory>
    ensures { OnOk result (names_in names.new.keys ≡ name_added (names_in names.old.keys) name.now) }
{
    let name = Vec::from_slice(alloc, name)?;
    names.insert_full(name)?;
    Ok(())
}

/// What each template depends on, or the first tag whose partial isn't there.
#[tactic(auto, using(crate::proofs::Making::none_made, crate::proofs::Making::one_made, crate::proofs::Making::one_fails, crate::proofs::Making::all_made))]
pub(crate) fn all_links(
    alloc: Global,
    names: &IndexSet<Vec<u8>>,
    templates: &[Template],
) -> Result<Items<Links>, SetFault>
    requires count { length templates.now < 2 ^ 32 }
    requires names { names_in names.now.keys ≡ spec.names_of templates.now }
    ensures answer { Gives NoMemory (spec.all_links templates.now templates.now) result }
    ensures each { IfOk result (λ links. length links ≡ length templates.now) }
    ensures closed { IfOk result (AllByRecursion (spec.AreLinksBelow (length templates.now))) }
{
    let mut links = Items::new(alloc);
    for template in templates {
        links.push(links_of(alloc, names, template)?)?;
    }
    Ok(links)
}

/// What a template depends on and renders.
fn links_of(
    alloc: Global,
    names: &IndexSet<Vec<u8>>,
    template: &Template,
) -> Result<Links, SetFault>
    requires count { length names.now.keys < 2 ^ 32 }
    ensures { Gives NoMemory (spec.links_of (names_in names.now.keys) template.now) result }
{
    let mut tags = Items::new(alloc);
    add_tags(alloc, template.tree.as_slice(), &mut tags)?;
    let numbers = named_by(alloc, names, template.name.as_bytes(), tags.as_slice())?;
    Ok(Links {
        dependencies: distinct(alloc, names.len() as u32, numbers.as_slice())?,
        rendered: rendered(alloc, tags.as_slice(), numbers.as_slice())?,
    })
}

/// The numbers of the partials that tags name, in the order of the tags, or the first tag whose partial isn't there.
#[tactic(auto, using(crate::proofs::Making::none_made, crate::proofs::Making::one_made, crate::proofs::Making::one_fails, crate::proofs::Making::all_made))]
fn named_by(
    alloc: Global,
    names: &IndexSet<Vec<u8>>,
    template: &[u8],
    tags: &[PartialTag],
) -> Result<Ids, SetFault>
    requires count { length names.now.keys < 2 ^ 32 }
    ensures { Gives NoMemory
        (spec.named_by (names_in names.now.keys) template.now tags.now) result }
{
    let mut numbers = Ids::new(alloc);
    for tag in tags {
        numbers.push(number_named(alloc, names, template, tag)?)?;
    }
    Ok(numbers)
}

/// The number of the partial that a tag names.
fn number_named(
    alloc: Global,
    names: &IndexSet<Vec<u8>>,
    template: &[u8],
    tag: &PartialTag,
) -> Result<u32, SetFault>
    requires count { length names.now.keys < 2 ^ 32 }
    ensures { Gives NoMemory
        (spec.number_named (names_in names.now.keys) template.now tag.now) result }
{
    let path = partial_path(alloc, template, tag.name.as_bytes())?;
    let Some(number) = number_of(names, path.as_slice()) else {
        return Err(SetFault::MissingPartial {
            name: Name::from_bytes(alloc, template)?,
            at: tag.at,
        });
    };
    Ok(number as u32)
}

/// Each of these numbers that is below `count` once, ascending.
fn distinct(alloc: Global, count: u32, numbers: &[u32]) -> Result<Ids, Memory>
    ensures { IfOk result (λ once. once ≡ spec.distinct count numbers.now) }
{
    let marks = marks_of(alloc, count as usize, numbers)?;
    let mut once = Ids::new(alloc);
    for number in 0..count {
        if !has_mark(marks.as_slice(), number) {
            continue;
        }
        once.push(number)?;
    }
    Ok(once)
}

fn has_mark(marks: &[bool], number: u32) -> bool
    ensures { result ≡ has_mark marks.now number }
{
    match marks.get(number as usize) {
        Some(mark) => *mark,
        None => false,
    }
}

/// Of each number below `count`, whether it is among these.
fn marks_of(alloc: Global, count: usize, numbers: &[u32]) -> Result<Vec<bool>, Memory>
    ensures { IfOk result (λ marks. marks.items
        ≡ map (λ number. list_any (λ other. number == other) numbers.now) (range_with_len 0 count)) }
{
    let mut marks = unmarked(alloc, count)?;
    for number in numbers {
        mark(&mut marks, *number as usize);
    }
    Ok(marks)
}

/// So many marks, none of which is set.
fn unmarked(alloc: Global, count: usize) -> Result<Vec<bool>, Memory>
    ensures { IfOk result (λ marks. marks.items ≡ map (λ _. false) (range_with_len 0 count)) }
{
    let mut marks = Vec::with_capacity(alloc, count)?;
    for _number in 0..count {
        marks.push(false)?;
    }
    Ok(marks)
}

/// Marks a number, if it is among those that can be.
fn mark(marks: &mut Vec<bool>, number: usize)
    ensures { marks.new.items ≡ slice_set marks.old.items number true }
{
    if number < marks.len() {
        marks[number] = true;
    }
}

/// The numbers of the partials that are rendered, once for each tag.
fn rendered(alloc: Global, tags: &[PartialTag], numbers: &[u32]) -> Result<Ids, Memory>
    ensures { IfOk result (λ ids. ids ≡ spec.rendered tags.now numbers.now) }
{
    let mut ids = Ids::new(alloc);
    for (tag, number) in tags.iter().zip(numbers) {
        if !tag.renders {
            continue;
        }
        ids.push(*number)?;
    }
    Ok(ids)
}
