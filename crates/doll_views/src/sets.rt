//! The set of templates of a site's files, and its faults as the bundle's.

ghost use Rattle.std.specs.Prelude.{◌≡◌, ◌≢◌, ◌≤◌, drop, length, IfOk, Err};
ghost use Rattle.doll_text.specs.Gives.{Gives};
ghost use Rattle.doll_views.specs.Sets as spec;
ghost use Rattle.doll_views.specs.Views.{views_refusal};

use crate::refusal::{Kind, Refusal};
use crate::views::views_refusal;
use doll_base::ViewFile;
use doll_digest::{Md5Hash, Registry};
use doll_set::{SetFault, TemplateSet};
use doll_text::{Memory, Name};
use std::alloc::Global;

/// The set of a site's files, with MD5 for its digests.
#[tactic(auto, unfolding(crate::specs::Sets::set_in))]
pub fn set_in(alloc: Global, files: &[ViewFile]) -> Result<TemplateSet, Refusal>
    ensures answer { Gives Refusal.Memory (spec.set_in files.now) result }
    ensures alive { result ≢ Err Refusal.Failed }
{
    let mut registry = Registry::new(alloc, Md5Hash);
    match TemplateSet::read(alloc, files, &mut registry) {
        Ok(set) => Ok(set),
        Err(fault) => Err(set_refusal(alloc, files, fault)),
    }
}

/// A fault of a set as the bundle's, with the number of the file that it is in.
fn set_refusal(alloc: Global, files: &[ViewFile], fault: SetFault) -> Refusal
    ensures named { result ≢ Refusal.Memory → result ≡ spec.set_refusal files.now fault }
    ensures memory { fault ≡ SetFault.Memory → result ≡ Refusal.Memory }
    ensures alive { result ≢ Refusal.Failed }
{
    match fault {
        SetFault::TooMany { .. } => views_refusal(0, Kind::TooMany),
        SetFault::BadName { index } => views_refusal(u64::from(index), Kind::BadName),
        SetFault::Duplicate { name } => second_refusal(alloc, files, &name),
        SetFault::TooLong { name } => file_refusal(alloc, files, &name, Kind::TooLong),
        SetFault::BadTemplate { name, .. } => file_refusal(alloc, files, &name, Kind::BadTemplate),
        SetFault::MissingPartial { name, .. } => {
            file_refusal(alloc, files, &name, Kind::MissingPartial)
        }
        SetFault::Cycle { names } => cycle_refusal(alloc, files, names.as_slice()),
        SetFault::DepthOver { name } => file_refusal(alloc, files, &name, Kind::DepthOver),
        SetFault::TooWide { name } => file_refusal(alloc, files, &name, Kind::TooWide),
        SetFault::Clash { .. } => views_refusal(0, Kind::Clash),
        SetFault::Memory => Refusal::Memory,
    }
}

/// A fault of a template's file.
fn file_refusal(alloc: Global, files: &[ViewFile], template: &Name, kind: Kind) -> Refusal
    ensures named { result ≢ Refusal.Memory
        → result ≡ views_refusal (spec.number_of files.now template.now) kind }
    ensures alive { result ≢ Refusal.Failed }
{
    match number_of(alloc, files, template.as_bytes()) {
        Ok(number) => views_refusal(number, kind),
        Err(_) => Refusal::Memory,
    }
}

/// A template has two files.
fn second_refusal(alloc: Global, files: &[ViewFile], template: &Name) -> Refusal
    ensures named { result ≢ Refusal.Memory
        → result ≡ views_refusal (spec.second_of files.now template.now) Kind.Duplicate }
    ensures alive { result ≢ Refusal.Failed }
{
    match second_of(alloc, files, template) {
        Ok(number) => views_refusal(number, Kind::Duplicate),
        Err(_) => Refusal::Memory,
    }
}

/// These templates depend on one another.
fn cycle_refusal(alloc: Global, files: &[ViewFile], names: &[Name]) -> Refusal
    ensures named { result ≢ Refusal.Memory
        → result ≡ views_refusal (spec.number_of files.now (spec.first_name names.now)) Kind.Cycle }
    ensures alive { result ≢ Refusal.Failed }
{
    match number_of(alloc, files, first_name(names)) {
        Ok(number) => views_refusal(number, Kind::Cycle),
        Err(_) => Refusal::Memory,
    }
}

/// The first name of a cycle.
fn first_name(names: &[Name]) -> &[u8]
    ensures { result.now ≡ spec.first_name names.now }
{
    match names {
        [name, ..] => name.as_bytes(),
        [] => &[],
    }
}

/// The number of a template's file.
fn number_of(alloc: Global, files: &[ViewFile], template: &[u8]) -> Result<u64, Memory>
    ensures { IfOk result (λ n. n ≡ spec.number_of files.now template.now) }
{
    let name = file_name(alloc, template)?;
    Ok(number_named(files, name.as_slice()) as u64)
}

/// The number of the second file of a template.
fn second_of(alloc: Global, files: &[ViewFile], template: &Name) -> Result<u64, Memory>
    ensures { IfOk result (λ n. n ≡ spec.second_of files.now template.now) }
{
    let name = file_name(alloc, template.as_bytes())?;
    let first = number_named(files, name.as_slice()) + 1;
    let second = number_named(behind(files, first), name.as_slice());
    Ok((first + second) as u64)
}

/// The name of a template's file.
fn file_name(alloc: Global, template: &[u8]) -> Result<Vec<u8>, Memory>
    ensures { IfOk result (λ name. name.items ≡ spec.file_name template.now) }
{
    let mut name = Vec::from_slice(alloc, template)?;
    name.extend_from_slice(b".html.erb")?;
    Ok(name)
}

/// The files behind so many.
fn behind(files: &[ViewFile], count: usize) -> &[ViewFile]
    ensures { result.now ≡ drop count files.now }
{
    if count < files.len() {
        &files[count..]
    } else {
        &[]
    }
}

/// How many files stand before the first with this name.
#[tactic(auto, using(doll_set::proofs::Placing::place_past, doll_set::proofs::Placing::place_here))]
fn number_named(files: &[ViewFile], name: &[u8]) -> usize
    ensures value { result ≡ spec.number_named files.now name.now }
    ensures within { result ≤ length files.now }
{
    let mut number = 0;
    for file in files {
        if !is_named_otherwise(file, name) {
            return number;
        }
        number += 1;
    }
    number
}

/// Whether a file has another name.
fn is_named_otherwise(file: &ViewFile, name: &[u8]) -> bool
    ensures { result ≡ spec.is_named_otherwise name.now file.now }
{
    file.name.as_bytes() != name
}
