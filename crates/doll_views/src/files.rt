//! The files of a site once those that a folder has are read.

ghost use Rattle.std.specs.Prelude.{◌≡◌, ◌∷◌, ◌++◌, [], map, IfOk, Ok};
ghost use Rattle.std.specs.Str.{is_utf8};
ghost use Rattle.doll_base.specs.Faults.{KeepsCount, HasCause};
ghost use Rattle.doll_text.specs.Gives.{Gives, GivesBy};
ghost use Rattle.doll_views.specs.Files as spec;
ghost use Rattle.doll_views.specs.Seen.{seen_listing};
ghost use Rattle.doll_views.specs.declared.refusal.Refusal.TheVariants.{Failed};

use crate::refusal::{Kind, Refusal};
use crate::views::{Listing, NamedFile, Source, views_refusal};
use doll_base::{Folder, FolderFault, ViewFile};
use doll_text::{Memory, Name, Text};
use std::alloc::Global;

/// The most bytes of a file that is read.
pub const LONGEST_FILE: usize = 16_777_216;

/// The files of a listing. Those that are in the folder are read in ascending order of their names, each once, up to the first
/// that is refused.
pub fn read_files<F: Folder>(
    alloc: Global,
    folder: &mut F,
    listing: &Listing,
) -> Result<Vec<ViewFile>, Refusal>
    ensures answer { spec.GivesFor (λ files. files.items)
        (F.files folder.old) (spec.wanted_names listing.now.wanted.items)
        (spec.files_of (seen_listing listing.now)) result }
    ensures asked { spec.AsksFirst (spec.wanted_names listing.now.wanted.items)
        (F.asked folder.old) (F.asked folder.new) }
    ensures kept { F.files folder.new ≡ F.files folder.old }
    ensures cause { HasCause Failed (F.faults folder.old) (F.faults folder.new) result }
    ensures count { KeepsCount (F.faults folder.old) (F.faults folder.new) }
{
    let files = listing.files.as_slice();
    let wanted = listing.wanted.as_slice();
    match read_wanted(alloc, folder, files, wanted) {
        Ok(read) => with_sources(alloc, read.as_slice(), files),
        Err(why) => Err(why),
    }
}

/// The files that are in the folder.
fn read_wanted<F: Folder>(
    alloc: Global,
    folder: &mut F,
    files: &[NamedFile],
    wanted: &[NamedFile],
) -> Result<Vec<ViewFile>, Refusal>
    ensures answer { spec.GivesFor (λ read. read.items)
        (F.files folder.old) (spec.wanted_names wanted.now)
        (spec.read_from files.now [] wanted.now) result }
    ensures asked { spec.AsksFirst (spec.wanted_names wanted.now)
        (F.asked folder.old) (F.asked folder.new) }
    ensures kept { F.files folder.new ≡ F.files folder.old }
    ensures cause { HasCause Failed (F.faults folder.old) (F.faults folder.new) result }
    ensures count { KeepsCount (F.faults folder.old) (F.faults folder.new) }
{
    let mut read = Vec::new(alloc);
    for file in wanted {
        match read_one(alloc, folder, files, file) {
            Ok(one) => read.push(one)?,
            Err(why) => return Err(why),
        }
    }
    Ok(read)
}

/// A file that is in the folder.
fn read_one<F: Folder>(
    alloc: Global,
    folder: &mut F,
    files: &[NamedFile],
    file: &NamedFile,
) -> Result<ViewFile, Refusal>
    ensures answer { spec.GivesFound (λ file. file) (F.files folder.old) file.now.name
        (spec.read_file (spec.number_in_folder files.now file.now.name) file.now.name) result }
    ensures asked { F.asked folder.new ≡ F.asked folder.old ++ file.now.name ∷ [] }
    ensures kept { F.files folder.new ≡ F.files folder.old }
    ensures cause { HasCause Failed (F.faults folder.old) (F.faults folder.new) result }
    ensures count { KeepsCount (F.faults folder.old) (F.faults folder.new) }
{
    read_file(alloc, folder, files, file.name.as_str())
}

/// The number of the file that is read under this name.
#[tactic(auto, using(doll_set::proofs::Placing::place_past, doll_set::proofs::Placing::place_here))]
fn number_in_folder(files: &[NamedFile], name: &str) -> u64
    ensures { result ≡ spec.number_in_folder files.now name.now }
{
    let mut number = 0;
    for file in files {
        if !is_other(file, name) {
            return number;
        }
        number += 1;
    }
    number
}

/// Whether a file isn't the one that is read under this name.
fn is_other(file: &NamedFile, name: &str) -> bool
    ensures { result ≡ spec.is_other name.now file.now }
{
    if !is_in_folder(&file.source) {
        return true;
    }
    file.name.as_str() != name
}

/// Whether a source is in the folder.
fn is_in_folder(source: &Source) -> bool
    ensures { result ≡ spec.is_in_folder source.now }
{
    match source {
        Source::Folder => true,
        Source::NoText => false,
        Source::Given(_) => false,
    }
}

/// The file with a name, read from the folder. Its number is looked for only where it is refused.
fn read_file<F: Folder>(
    alloc: Global,
    folder: &mut F,
    files: &[NamedFile],
    name: &str,
) -> Result<ViewFile, Refusal>
    ensures answer { spec.GivesFound (λ file. file) (F.files folder.old) name.now
        (spec.read_file (spec.number_in_folder files.now name.now) name.now) result }
    ensures asked { F.asked folder.new ≡ F.asked folder.old ++ name.now ∷ [] }
    ensures kept { F.files folder.new ≡ F.files folder.old }
    ensures cause { HasCause Failed (F.faults folder.old) (F.faults folder.new) result }
    ensures count { KeepsCount (F.faults folder.old) (F.faults folder.new) }
{
    match folder.read_file(alloc, name, LONGEST_FILE) {
        Ok(bytes) => text_file(alloc, files, name, bytes),
        Err(fault) => Err(folder_refusal(number_in_folder(files, name), fault)),
    }
}

/// The file with these bytes.
fn text_file(
    alloc: Global,
    files: &[NamedFile],
    name: &str,
    bytes: Vec<u8>,
) -> Result<ViewFile, Refusal>
    ensures { Gives Refusal.Memory
        (spec.text_file (spec.number_in_folder files.now name.now) name.now bytes.items) result }
{
    if !is_text(bytes.as_slice()) {
        return Err(views_refusal(number_in_folder(files, name), Kind::BadForm));
    }
    Ok(ViewFile {
        name: Name::from_bytes(alloc, name.as_bytes())?,
        source: Text::from_vec(bytes),
    })
}

/// Why a file isn't read, as the bundle's refusal.
fn folder_refusal(number: u64, fault: FolderFault) -> Refusal
    ensures { result ≡ spec.folder_refusal number fault }
{
    match fault {
        FolderFault::Missing => views_refusal(number, Kind::Missing),
        FolderFault::TooLong => Refusal::TooLong,
        FolderFault::Failed => Refusal::Failed,
        FolderFault::Memory => Refusal::Memory,
    }
}

/// Whether bytes are a text.
#[tactic(auto, using(crate::proofs::Texts::is_a_text, crate::proofs::Texts::is_no_text))]
fn is_text(bytes: &[u8]) -> bool
    ensures { result ≡ is_utf8 bytes.now }
{
    match std::str::from_utf8(bytes) {
        Ok(_) => true,
        Err(_) => false,
    }
}

/// The files with their sources, where these were read.
fn with_sources(
    alloc: Global,
    read: &[ViewFile],
    files: &[NamedFile],
) -> Result<Vec<ViewFile>, Refusal>
    ensures { GivesBy (λ all. all.items) Refusal.Memory
        (Ok (map (spec.with_source read.now) files.now)) result }
{
    let mut all = Vec::new(alloc);
    for file in files {
        all.push(with_source(alloc, read, file)?)?;
    }
    Ok(all)
}

/// A file with its source.
fn with_source(alloc: Global, read: &[ViewFile], file: &NamedFile) -> Result<ViewFile, Memory>
    ensures { IfOk result (λ one. one ≡ spec.with_source read.now file.now) }
{
    let name = file.name.as_str();
    let source = source_in(read, name.as_bytes(), &file.source);
    Ok(ViewFile {
        name: Name::from_bytes(alloc, name.as_bytes())?,
        source: Text::from_bytes(alloc, source)?,
    })
}

/// The source of a file, nothing where there is none.
fn source_in<'a>(read: &'a [ViewFile], name: &[u8], source: &'a Source) -> &'a [u8]
    ensures { result.now ≡ spec.source_in read.now name.now source.now }
{
    match source {
        Source::Given(text) => text.as_bytes(),
        Source::Folder => source_named(read, name),
        Source::NoText => &[],
    }
}

/// The source of the first file with this name, nothing where there is none.
fn source_named<'a>(read: &'a [ViewFile], name: &[u8]) -> &'a [u8]
    ensures { result.now ≡ spec.source_named read.now name.now }
{
    let mut rest = read;
    while let [file, more @ ..] = rest {
        if file.name.as_bytes() == name {
            return file.source.as_bytes();
        }
        rest = more;
    }
    &[]
}
