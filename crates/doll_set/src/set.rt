//! The set of a site's templates.

ghost use Rattle.std.specs.Prelude.{◌≡◌, ◌<◌, ◌^◌, None, Some, length, map, option_copied, slice_get, IfOk, OnOk, IfSome};
ghost use Rattle.doll_text.specs.Gives.{Gives};
ghost use Rattle.doll_digest.specs.Registries.{NumbersStay, TextsStay};
ghost use Rattle.doll_set.specs.Dependencies.{graph_of, names_of, number_of, partial_of};
ghost use Rattle.doll_set.specs.Digests.{EachIsThere, name_at, too_deep};
ghost use Rattle.doll_set.specs.Order.{Ascend};
ghost use Rattle.doll_graph.specs.Graphs.{cycle};
ghost use Rattle.doll_set.specs.Sets as spec;
ghost use Rattle.doll_set.specs.declared.fault.SetFault.TheVariants.{Memory as NoMemory};

use crate::dependencies::{Links, all_links, index_of_names, number_of, partial_path};
use crate::digests::digests;
use crate::fault::SetFault;
use crate::files::{in_order, templates_of};
use crate::limits::{LONGEST_CHAIN, MOST_VIEWS};
use crate::partials::{TagPartial, all_partials, place_of};
use crate::template::Template;
use crate::weights::first_too_wide;
use doll_base::ViewFile;
use doll_digest::{Digest, Hash16, Registry};
use doll_graph::{cycle, first_longer};
use doll_text::{Ids, Items, Memory, Name};
use indexmap::IndexSet;
use std::alloc::Global;
use std::marker::Model;

/// The templates of a site, ascending by their names, with what each depends on and its digest.
#[derive(Drop)]
pub struct TemplateSet {
    templates: Items<Template>,
    names: IndexSet<Vec<u8>>,
    graph: Items<Ids>,
    digests: Items<Digest>,
    /// The partials that the tags of each template name.
    partials: Items<Items<TagPartial>>,
}

impl Model for TemplateSet {
    ghost use Rattle.std.specs.Coded.{codes};
    ghost use Rattle.doll_erb.specs.contracts.node.Node as node;
    ghost use Rattle.doll_set.specs.Sets.{ReadSet, IsSet, IsKept};

    ghost Value = { ReadSet };

    ghost coded = { Prim.hlevel (codes, node.the_row.coded) };

    ghost view = { λ s. record { templates = s.templates; graph = s.graph; digests = s.digests } };

    ghost invariant = { λ s. IsSet s.templates s.graph s.digests
        × IsKept s.names.keys s.partials s.templates };
}

impl TemplateSet {
    /// Reads the files of a set and enters its templates into a registry. After a refusal some of them may stand there.
    pub fn read<H: Hash16>(
        alloc: Global,
        files: &[ViewFile],
        registry: &mut Registry<H>,
    ) -> Result<TemplateSet, SetFault>
        ensures answer { Gives NoMemory (spec.set_of H.hash_of registry.old files.now) result }
        ensures registered { IfOk result (λ set.
            spec.registry_after H.hash_of registry.old set ≡ Ok registry.new) }
        ensures numbers { NumbersStay registry.old.names registry.new.names }
        ensures texts { TextsStay registry.old.texts registry.new.texts }
    {
        let templates = read_templates(alloc, files)?;
        let names = names_of(alloc, templates.as_slice())?;
        let graph = linked(alloc, &names, templates.as_slice())?;
        let partials = all_partials(alloc, &names, templates.as_slice())?;
        let digests = digests(alloc, templates.as_slice(), graph.as_slice(), registry)?;
        Ok(TemplateSet {
            templates,
            names,
            graph,
            digests,
            partials,
        })
    }

    /// The templates, ascending by their names.
    pub fn templates(&self) -> &[Template]
        ensures value { result.now ≡ self.now.templates }
        ensures set { spec.IsSet self.now.templates self.now.graph self.now.digests }
    {
        self.templates.as_slice()
    }

    /// The digest of the template with a number.
    pub fn digest(&self, number: usize) -> Option<Digest>
        ensures { result ≡ slice_get self.now.digests number }
    {
        self.digests.as_slice().get(number).copied()
    }

    /// The numbers of what a template depends on, ascending.
    pub fn dependencies(&self, number: usize) -> Option<&Ids>
        ensures { option_copied result ≡ slice_get self.now.graph number }
    {
        self.graph.as_slice().get(number)
    }

    /// The number of the template with this name.
    pub fn number_of(&self, name: &[u8]) -> Option<usize>
        ensures { result ≡ number_of (names_of self.now.templates) name.now }
    {
        number_of(&self.names, name)
    }

    /// The number of the partial that a template means by a name in a tag.
    pub fn partial_of(
        &self,
        alloc: Global,
        template: &[u8],
        name: &[u8],
    ) -> Result<Option<usize>, Memory>
        ensures { IfOk result (λ number.
            number ≡ partial_of (names_of self.now.templates) template.now name.now) }
    {
        let path = partial_path(alloc, template, name)?;
        Ok(number_of(&self.names, path.as_slice()))
    }

    /// The number of the partial that the template with a number means by a name in the tag at this place.
    pub fn partial_at(
        &self,
        alloc: Global,
        number: usize,
        at: u32,
        name: &[u8],
    ) -> Result<Option<usize>, Memory>
        ensures { IfOk result (λ partial. partial
            ≡ partial_of (names_of self.now.templates) (name_at self.now.templates number) name.now) }
    {
        if let Some(partial) = self.partial_kept(number, at, name) {
            return Ok(Some(partial));
        }
        self.partial_of(alloc, self.name_of(number), name)
    }

    /// The number of that partial where the tag is kept under this name.
    fn partial_kept(&self, number: usize, at: u32, name: &[u8]) -> Option<usize>
        ensures { IfSome result (λ partial. partial_of (names_of self.now.templates)
            (name_at self.now.templates number) name.now ≡ Some partial) }
    {
        let Some(partials) = self.partials.as_slice().get(number) else {
            return None;
        };
        let partials = partials.as_slice();
        let Some(place) = place_of(partials, at) else {
            return None;
        };
        let partial = &partials[place];
        if partial.name.as_bytes() != name {
            return None;
        }
        Some(partial.number)
    }

    /// The name of the template with a number, nothing where there is none.
    fn name_of(&self, number: usize) -> &[u8]
        ensures { result.now ≡ name_at self.now.templates number }
    {
        match self.templates.as_slice().get(number) {
            Some(template) => template.name.as_bytes(),
            None => &[],
        }
    }
}

/// In a set each partial that a tag of a template names is among what the template depends on.
pub fn tags_are_dependencies()
    ensures { spec.TagsAreDependencies }
{}

/// The templates of files, ascending by their names.
fn read_templates(alloc: Global, files: &[ViewFile]) -> Result<Items<Template>, SetFault>
    ensures answer { Gives NoMemory (spec.templates_of files.now) result }
    ensures count { IfOk result (λ templates. length templates < 2 ^ 32) }
{
    if files.len() > MOST_VIEWS {
        return Err(SetFault::TooMany {
            count: u32::try_from(files.len()).unwrap_or(u32::MAX),
        });
    }
    let order = in_order(alloc, files)?;
    templates_of(alloc, order.as_slice())
}

/// The names of templates, by which their numbers are found.
#[tactic(auto, using(crate::proofs::Ascending::ascend_distinct))]
fn names_of(alloc: Global, templates: &[Template]) -> Result<IndexSet<Vec<u8>>, Memory>
    requires { Ascend (names_of templates.now) }
    ensures { IfOk result (λ names. spec.IsNamed names.keys templates.now) }
{
    index_of_names(alloc, templates)
}

/// What each template depends on, where every partial is there, none leads back to itself, no chain is too long and none is too
/// heavy.
#[tactic(auto, using(crate::proofs::Linking::linked_so, crate::proofs::Linking::not_linked, crate::proofs::Linking::not_fit))]
fn linked(
    alloc: Global,
    names: &IndexSet<Vec<u8>>,
    templates: &[Template],
) -> Result<Items<Ids>, SetFault>
    requires count { length templates.now < 2 ^ 32 }
    requires named { spec.IsNamed names.now.keys templates.now }
    ensures answer { Gives NoMemory (spec.linked_graph templates.now) result }
    ensures closed { IfOk result EachIsThere }
    ensures long { IfOk result (λ graph. length graph ≡ length templates.now) }
    ensures shallow { IfOk result (λ graph. too_deep graph ≡ None) }
{
    let links = all_links(alloc, names, templates)?;
    let graph = graph_of(alloc, links.as_slice())?;
    fit(alloc, templates, links.as_slice(), graph.as_slice())?;
    Ok(graph)
}

/// Nothing leads back to itself, no chain is too long and none is too heavy. Where no chain is too long nothing leads back to
/// itself, so the ways back are looked for only in a set that is refused.
#[tactic(auto, using(crate::proofs::Linking::short_fits, crate::proofs::Linking::deep_refused), unfolding(crate::specs::Digests::too_deep))]
fn fit(
    alloc: Global,
    templates: &[Template],
    links: &[Links],
    graph: &[Ids],
) -> Result<(), SetFault>
    requires count { length templates.now < 2 ^ 32 }
    requires long { length links.now ≡ length templates.now }
    requires graph { graph.now ≡ graph_of links.now }
    ensures answer { Gives NoMemory (spec.fit templates.now links.now) result }
    ensures shallow { OnOk result (too_deep graph.now ≡ None) }
{
    if let Some(number) = first_longer(alloc, graph, LONGEST_CHAIN)? {
        no_cycle(alloc, templates, graph)?;
        return Err(SetFault::DepthOver {
            name: name_at(alloc, templates, number)?,
        });
    }
    none_wide(alloc, templates, links)
}

/// What each template depends on.
fn graph_of(alloc: Global, links: &[Links]) -> Result<Items<Ids>, Memory>
    ensures { IfOk result (λ graph. graph ≡ graph_of links.now) }
{
    let mut graph = Items::new(alloc);
    for one in links {
        graph.push(one.dependencies.copy(alloc)?)?;
    }
    Ok(graph)
}

/// Nothing leads back to itself.
fn no_cycle(alloc: Global, templates: &[Template], graph: &[Ids]) -> Result<(), SetFault>
    requires count { length graph.now < 2 ^ 32 }
    ensures { Gives NoMemory (spec.no_cycle templates.now (cycle graph.now)) result }
{
    match cycle(alloc, graph)? {
        Some(way) => Err(SetFault::Cycle {
            names: named(alloc, templates, way.as_slice())?,
        }),
        None => Ok(()),
    }
}

/// The names of the templates with these numbers.
fn named(alloc: Global, templates: &[Template], numbers: &[u32]) -> Result<Items<Name>, Memory>
    ensures { IfOk result (λ names. names ≡ map (name_at templates.now) numbers.now) }
{
    let mut names = Items::new(alloc);
    for number in numbers {
        names.push(name_at(alloc, templates, *number)?)?;
    }
    Ok(names)
}

/// The name of the template with this number, nothing where there is none.
fn name_at(alloc: Global, templates: &[Template], number: u32) -> Result<Name, Memory>
    ensures { IfOk result (λ name. name ≡ name_at templates.now number) }
{
    match templates.get(number as usize) {
        Some(template) => template.name.copy(alloc),
        None => Name::from_bytes(alloc, &[]),
    }
}

/// None is too heavy.
#[tactic(auto, unfolding(crate::specs::Sets::first_heavy))]
fn none_wide(alloc: Global, templates: &[Template], links: &[Links]) -> Result<(), SetFault>
    requires count { length templates.now < 2 ^ 32 }
    requires long { length links.now ≡ length templates.now }
    ensures { Gives NoMemory
        (spec.none_wide templates.now (spec.first_heavy templates.now links.now)) result }
{
    match first_too_wide(alloc, templates, links)? {
        Some(number) => Err(SetFault::TooWide {
            name: name_at(alloc, templates, number)?,
        }),
        None => Ok(()),
    }
}
