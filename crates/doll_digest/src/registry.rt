//! The registry of names and framed texts.

ghost use Rattle.std.specs.Prelude.{◌≡◌, ◌<◌, length, Some, IfOk, OnOk, OnErr};
ghost use Rattle.std.specs.List.{IsDistinct};
ghost use Rattle.std.specs.Map.{keys_of};
ghost use Rattle.std.specs.Str.{bytes_eq};
ghost use Rattle.doll_text.specs.Gives.{Gives};
ghost use Rattle.doll_digest.specs.Framing.{IsDigest, framed_text};
ghost use Rattle.doll_digest.specs.Registries as spec;
ghost use Rattle.doll_digest.specs.declared.registry.DigestFault.TheVariants.{Memory as NoMemory};

use crate::digest::Digest;
use crate::framing::{put_dependency, put_net};
use crate::hash::Hash16;
use doll_text::{Memory, Text};
use indexmap::{IndexMap, IndexSet};
use std::alloc::{AllocFailed, Global};
use std::marker::Model;

/// The number of a name in a registry, which contracts see as this number.
#[derive(Clone, Copy, PartialEq, Eq)]
pub struct NameId {
    number: usize,
}

impl Model for NameId {
    ghost use Rattle.std.specs.Prelude.{ℕ};

    ghost Value = { ℕ };

    ghost view = { λ id. id.number };

    ghost inverse = { λ number. record { number = number } };
}

/// Why a template has no digest.
#[derive(Drop)]
pub enum DigestFault {
    /// Another framed text has the same hash.
    Clash {
        /// The framed text that the registry keeps.
        old: Text,
        /// The one that was to be entered.
        new: Text,
    },
    /// No memory was found.
    Memory,
}

impl From<Memory> for DigestFault {
    ghost from_gives = { λ _ e. e ≡ NoMemory };

    fn from(_error: Memory) -> DigestFault {
        DigestFault::Memory
    }
}

impl<T: Drop> From<AllocFailed<T>> for DigestFault {
    ghost from_gives = { λ _ e. e ≡ NoMemory };

    fn from(_error: AllocFailed<T>) -> DigestFault {
        DigestFault::Memory
    }
}

/// Names, each with its number, and framed texts, each under its digest. Both are only added to.
#[derive(Drop)]
pub struct Registry<H: Hash16> {
    hash: H,
    names: IndexSet<Vec<u8>>,
    texts: IndexMap<Digest, Text>,
}

impl<H: Hash16> Model for Registry<H> {
    ghost use Rattle.doll_digest.specs.Registries.{Registered, AreKept, names_in};

    ghost Value = { Registered };

    ghost view = { λ r. record { names = names_in r.names.keys; texts = r.texts.entries } };

    ghost invariant = { λ r. AreKept H.hash_of r.texts.entries };
}

impl<H: Hash16> Registry<H> {
    /// A registry of nothing yet. Takes no memory.
    pub fn new(alloc: Global, hash: H) -> Registry<H>
        ensures { result ≡ spec.empty }
    {
        Registry {
            hash,
            names: IndexSet::new(alloc),
            texts: IndexMap::new(alloc),
        }
    }

    /// The number of a name, the same for the same name: the place where it came, counted from 0. Only a new name takes memory.
    pub fn name(&mut self, alloc: Global, name: &[u8]) -> Result<NameId, Memory>
        ensures number { IfOk result (λ id. id ≡ spec.number_of self.old.names name.now) }
        ensures within { IfOk result (λ id. id < length self.new.names) }
        ensures at { IfOk result (λ id. spec.name_at self.new.names id ≡ name.now) }
        ensures named { OnOk result (self.new ≡ spec.with_name self.old name.now) }
        ensures same { OnErr result (self.new ≡ self.old) }
        ensures numbers { spec.NumbersStay self.old.names self.new.names }
        ensures texts { self.new.texts ≡ self.old.texts }
    {
        let number = number_in(alloc, &mut self.names, name)?;
        Ok(NameId { number })
    }

    /// Enters a template: the hash of its framed text, which the registry keeps from then on. A dependency is a name's number and
    /// the digest of the template with this name. A refusal changes nothing.
    pub fn enter(
        &mut self,
        alloc: Global,
        source: &[u8],
        deps: &[(NameId, Digest)],
    ) -> Result<Digest, DigestFault>
        requires numbers { spec.AreNumbered self.old.names deps.now }
        ensures answer { Gives NoMemory
            (spec.entered H.hash_of self.old (spec.text_of self.old source.now deps.now)) result }
        ensures hash { IfOk result (λ digest. digest
            ≡ H.hash_of (spec.text_of self.old source.now deps.now)) }
        ensures digest { IfOk result IsDigest }
        ensures entered { OnOk result (self.new
            ≡ spec.with_text H.hash_of self.old (spec.text_of self.old source.now deps.now)) }
        ensures same { OnErr result (self.new ≡ self.old) }
        ensures kept { IfOk result (λ digest. spec.text_under self.new.texts digest
            ≡ Some (spec.text_of self.old source.now deps.now)) }
        ensures stay { spec.TextsStay self.old.texts self.new.texts }
        ensures names { self.new.names ≡ self.old.names }
        ensures apart { spec.AreApart H.hash_of self.new.texts }
    {
        let text = framed(alloc, &self.names, source, deps)?;
        self.keep(alloc, text)
    }

    fn keep(&mut self, alloc: Global, text: Text) -> Result<Digest, DigestFault>
        ensures answer { Gives NoMemory (spec.entered H.hash_of self.old text) result }
        ensures digest { IfOk result IsDigest }
        ensures entered { OnOk result (self.new ≡ spec.with_text H.hash_of self.old text) }
        ensures same { OnErr result (self.new ≡ self.old) }
        ensures apart { spec.AreApart H.hash_of self.new.texts }
    {
        let digest = Digest::from_bytes(self.hash.hash(text.as_bytes()));
        keep_in(alloc, &mut self.texts, digest, text)
    }
}

/// The framed text of a template, whose dependencies are these names.
#[tactic(auto, unfolding(crate::specs::Framing::framed_text))]
fn framed(
    alloc: Global,
    names: &IndexSet<Vec<u8>>,
    source: &[u8],
    deps: &[(NameId, Digest)],
) -> Result<Text, Memory>
    requires { spec.AreNumbered (spec.names_in names.now.keys) deps.now }
    ensures { IfOk result (λ text. text
        ≡ framed_text source.now (spec.named (spec.names_in names.now.keys) deps.now)) }
{
    let mut out = Vec::new(alloc);
    put_net(source, &mut out)?;
    for (id, digest) in deps {
        put_dependency(name_at(names, *id), *digest, &mut out)?;
    }
    Ok(Text::from_vec(out))
}

fn name_at(names: &IndexSet<Vec<u8>>, id: NameId) -> &[u8]
    requires { id < length names.now.keys }
    ensures { result.now ≡ spec.name_at (spec.names_in names.now.keys) id }
{
    names[id.number].as_slice()
}

/// The place of a name, which is added at the end where it isn't there.
fn number_in(alloc: Global, names: &mut IndexSet<Vec<u8>>, name: &[u8]) -> Result<usize, Memory>
    ensures number { IfOk result (λ number.
        number ≡ spec.number_of (spec.names_in names.old.keys) name.now) }
    ensures names { OnOk result (spec.names_in names.new.keys
        ≡ spec.name_added (spec.names_in names.old.keys) name.now) }
    ensures same { OnErr result (names.new.keys ≡ names.old.keys) }
{
    if let Some(number) = names.get_index_of(name) {
        return Ok(number);
    }
    let (number, _) = names.insert_full(Vec::from_slice(alloc, name)?)?;
    Ok(number)
}

/// Keeps a text under a digest, which it is the only one to have.
fn keep_in(
    alloc: Global,
    texts: &mut IndexMap<Digest, Text>,
    digest: Digest,
    text: Text,
) -> Result<Digest, DigestFault>
    ensures answer { Gives NoMemory
        (spec.answered digest text (spec.text_under texts.old.entries digest)) result }
    ensures given { IfOk result (λ given. given ≡ digest) }
    ensures entered { OnOk result (texts.new.entries
        ≡ spec.texts_with texts.old.entries digest text) }
    ensures same { OnErr result (texts.new.entries ≡ texts.old.entries) }
    ensures unique { IsDistinct bytes_eq (keys_of texts.old.entries)
        → IsDistinct bytes_eq (keys_of texts.new.entries) }
{
    if let Some(kept) = texts.get(&digest) {
        return same_text(alloc, digest, kept, text);
    }
    texts.insert(digest, text)?;
    Ok(digest)
}

fn same_text(alloc: Global, digest: Digest, old: &Text, new: Text) -> Result<Digest, DigestFault>
    ensures answer { Gives NoMemory (spec.compared digest old.now new) result }
    ensures given { IfOk result (λ given. given ≡ digest) }
{
    if old.as_bytes() == new.as_bytes() {
        return Ok(digest);
    }
    Err(DigestFault::Clash {
        old: old.copy(alloc)?,
        new,
    })
}
