//! The explanation of an answer, made from what was answered.

ghost use Rattle.std.specs.Prelude.{◌≤◌, length, string_bytes, IfOk};
ghost use Rattle.std.specs.Str.{IsUtf8};
ghost use Rattle.doll_views.specs.Bundles.{WasRead};
ghost use Rattle.doll_excerpt.specs.Texts.{EndsLine};

use crate::commits::put_commit;
use crate::lints::put_lints;
use crate::paths::{put_path, put_usage};
use crate::report::{put_named, put_wrong};
use crate::schema::{put_route, put_said, put_schema};
use crate::scripts::{put_refused, put_script};
use crate::sets::put_set;
use crate::settings::put_settings;
use crate::types::put_types;
use crate::words::{
    bundle_words, commit_words, file_words, json_words, listing_words, too_long_words,
};
use doll_base::{MemFolder, ViewFile};
use doll_bundle::Site;
use doll_digest::{Md5Hash, Registry};
use doll_excerpt::{LONGEST_PAPER, Paper, byte_at, put_place, put_stretch, token_at};
use doll_lint::checked::{LintRefusal, lint};
use doll_route::Routes;
use doll_schema::Schema;
use doll_set::TemplateSet;
use doll_text::{Copied, Memory, Name, Text};
use doll_types::{TypeRefusal, Typed, type_set};
use doll_views::{Bundle, BundlePart, Kind, Loaded, NamedFile, Refusal, Source, json_of};
use serde_json::Value;
use std::alloc::Global;

/// What is explained: which answer was given.
#[derive(Clone, Copy, PartialEq, Eq)]
pub enum Answer {
    /// The words are none of the commands.
    WrongWords,
    /// The bundle is refused.
    Refused,
    /// The templates have faults of types.
    Untyped,
    /// Cached blocks have faults.
    Unclean,
    /// No page has the path.
    UnknownPath,
    /// The line of the script with this number, from 1, is no order, or its session isn't open, or is open already.
    ScriptRefused { line: u32 },
    /// The input or a file is too long.
    TooLong,
}

/// What was answered: the input, what the folder gave, the name of the last file that it didn't give, the clock's readings, and the
/// path where one was asked for.
#[derive(Clone, Copy)]
pub struct Answered<'a> {
    pub input: &'a [u8],
    pub files: &'a [ViewFile],
    pub missed: Option<&'a Name>,
    pub readings: &'a [u64],
    pub path: Option<&'a str>,
}

/// Explains an answer: where something is wrong, what, and what to write instead. What it names is found by the calls that
/// answered, over what they were given.
pub fn explain(alloc: Global, answer: Answer, answered: Answered<'_>) -> Result<String, Memory>
    ensures bounded { IfOk result (λ text. length (string_bytes text) ≤ LONGEST_PAPER) }
    ensures utf8 { IfOk result (λ text. IsUtf8 (string_bytes text)) }
    ensures ended { IfOk result (λ text. EndsLine (string_bytes text)) }
{
    let mut paper = Paper::new(alloc);
    match answer {
        Answer::WrongWords => put_usage(&mut paper)?,
        Answer::TooLong => match answered.missed {
            Some(name) => put_named(&mut paper, name.as_bytes(), too_long_words())?,
            None => put_named(&mut paper, b"standard input", too_long_words())?,
        },
        Answer::Refused
        | Answer::Untyped
        | Answer::Unclean
        | Answer::UnknownPath
        | Answer::ScriptRefused { .. } => put_input(alloc, &mut paper, answer, answered)?,
    }
    paper.finish()
}

/// Appends the explanation of an answer to an input.
fn put_input(
    alloc: Global,
    paper: &mut Paper,
    answer: Answer,
    answered: Answered<'_>,
) -> Result<(), Memory> {
    match json_of(alloc, answered.input)? {
        Some(json) => put_json(alloc, paper, answer, answered, &json),
        None => put_bad_json(alloc, paper, answered.input),
    }
}

/// Where the reading of an input as JSON stops.
fn end_of_json(alloc: Global, input: &[u8]) -> Option<usize> {
    match Value::from_slice(alloc, input) {
        Ok(_) => None,
        Err(error) => Some(byte_at(input, error.line(), error.column())),
    }
}

/// Appends where an input stops being JSON.
fn put_bad_json(alloc: Global, paper: &mut Paper, input: &[u8]) -> Result<(), Memory> {
    let words = json_words();
    let Some(at) = end_of_json(alloc, input) else {
        return Err(Memory);
    };
    paper.put("standard input")?;
    put_place(paper, input, at)?;
    put_wrong(paper, &[], words)?;
    put_stretch(alloc, paper, input, token_at(input, at))?;
    paper.put(words.instead)
}

/// Appends the explanation of an answer to a JSON value.
fn put_json(
    alloc: Global,
    paper: &mut Paper,
    answer: Answer,
    answered: Answered<'_>,
    json: &Value,
) -> Result<(), Memory> {
    match Bundle::read(alloc, json) {
        Ok(bundle) => put_bundle(alloc, paper, answer, answered, bundle),
        Err(Refusal::Refused { part, .. }) => put_part(alloc, paper, json, part),
        Err(_) => Err(Memory),
    }
}

/// Appends why a part of a bundle is refused before its files are read.
fn put_part(
    alloc: Global,
    paper: &mut Paper,
    json: &Value,
    part: BundlePart,
) -> Result<(), Memory> {
    match part {
        BundlePart::Schema => put_bad_schema(alloc, paper, json),
        BundlePart::Routes => put_bad_routes(alloc, paper, json),
        BundlePart::Views => {
            paper.put("views")?;
            put_said(paper, None, listing_words())
        }
        BundlePart::Settings => match json.get("settings") {
            Some(settings) => put_settings(paper, settings),
            None => Err(Memory),
        },
        BundlePart::Json | BundlePart::Commits | BundlePart::Script => {
            paper.put("standard input")?;
            put_said(paper, None, bundle_words())
        }
    }
}

/// Appends why a bundle's schema is refused.
fn put_bad_schema(alloc: Global, paper: &mut Paper, json: &Value) -> Result<(), Memory> {
    let Some(schema) = json.get("schema") else {
        return Err(Memory);
    };
    match Schema::read(alloc, schema) {
        Ok(_) => Err(Memory),
        Err(fault) => put_schema(paper, schema, fault),
    }
}

/// Appends why a bundle's routes are refused.
fn put_bad_routes(alloc: Global, paper: &mut Paper, json: &Value) -> Result<(), Memory> {
    let (Some(schema), Some(routes)) = (json.get("schema"), json.get("routes")) else {
        return Err(Memory);
    };
    let Ok(schema) = Schema::read(alloc, schema) else {
        return Err(Memory);
    };
    match Routes::read(alloc, routes, &schema) {
        Ok(_) => Err(Memory),
        Err(fault) => put_route(paper, routes, fault),
    }
}

/// Appends the explanation of an answer to a bundle that is read.
fn put_bundle(
    alloc: Global,
    paper: &mut Paper,
    answer: Answer,
    answered: Answered<'_>,
    bundle: Bundle<'_>,
) -> Result<(), Memory>
    requires { WasRead bundle.schema bundle.routes bundle.settings }
{
    if let Answer::ScriptRefused { line } = answer {
        return put_refused(alloc, paper, bundle.script, line);
    }
    if answer == Answer::UnknownPath {
        return match answered.path {
            Some(path) => put_path(alloc, paper, &bundle.routes, path),
            None => Err(Memory),
        };
    }
    let sources = sources_of(alloc, bundle.listing.files.as_slice(), answered.files)?;
    let mut folder = MemFolder::new(copies_of(alloc, answered.files)?, Vec::new(alloc));
    match bundle.load(alloc, &mut folder) {
        Ok(loaded) => put_loaded(alloc, paper, answer, answered, sources.as_slice(), loaded),
        Err(why) => put_unloaded(alloc, paper, sources.as_slice(), why),
    }
}

/// The files of a bundle with their sources: those that stand in it, and those that the folder gave.
fn sources_of(
    alloc: Global,
    named: &[NamedFile],
    given: &[ViewFile],
) -> Result<Vec<ViewFile>, Memory> {
    let mut sources = Vec::new(alloc);
    for file in named {
        let name = file.name.as_str().as_bytes();
        sources.push(ViewFile {
            name: Name::from_bytes(alloc, name)?,
            source: Text::from_bytes(alloc, source_in(&file.source, given, name))?,
        })?;
    }
    Ok(sources)
}

/// The source of a file, nothing where there is none.
fn source_in<'a>(source: &'a Source, given: &'a [ViewFile], name: &[u8]) -> &'a [u8] {
    match source {
        Source::Given(text) => text.as_bytes(),
        Source::NoText => &[],
        Source::Folder => {
            for file in given {
                if file.name.as_bytes() == name {
                    return file.source.as_bytes();
                }
            }
            &[]
        }
    }
}

/// The same files.
fn copies_of(alloc: Global, files: &[ViewFile]) -> Result<Vec<ViewFile>, Memory> {
    let mut copies = Vec::new(alloc);
    for file in files {
        copies.push(ViewFile {
            name: file.name.copy(alloc)?,
            source: file.source.copy(alloc)?,
        })?;
    }
    Ok(copies)
}

/// Appends why a bundle's files are refused, or its commits are no array.
fn put_unloaded(
    alloc: Global,
    paper: &mut Paper,
    sources: &[ViewFile],
    why: Refusal,
) -> Result<(), Memory> {
    match why {
        Refusal::Refused {
            part: BundlePart::Views,
            number,
            kind,
        } => put_views(alloc, paper, sources, number as usize, kind),
        Refusal::Refused { kind, .. } => {
            paper.put("commits")?;
            put_said(paper, None, commit_words(kind))
        }
        _ => Err(Memory),
    }
}

/// Appends why a bundle's files are refused: one isn't read, or they make no set.
fn put_views(
    alloc: Global,
    paper: &mut Paper,
    sources: &[ViewFile],
    number: usize,
    kind: Kind,
) -> Result<(), Memory> {
    if kind == Kind::Missing || kind == Kind::BadForm {
        return match sources.get(number) {
            Some(file) => put_named(paper, file.name.as_bytes(), file_words(kind)),
            None => Err(Memory),
        };
    }
    let mut registry = Registry::new(alloc, Md5Hash);
    match TemplateSet::read(alloc, sources, &mut registry) {
        Ok(_) => Err(Memory),
        Err(fault) => put_set(alloc, paper, sources, &fault),
    }
}

/// Appends the explanation of an answer to a bundle whose files are read.
fn put_loaded(
    alloc: Global,
    paper: &mut Paper,
    answer: Answer,
    answered: Answered<'_>,
    sources: &[ViewFile],
    loaded: Loaded<'_>,
) -> Result<(), Memory>
    requires { WasRead loaded.schema loaded.routes loaded.settings }
{
    match answer {
        Answer::Untyped | Answer::Unclean => put_templates(alloc, paper, sources, loaded),
        _ => put_commits(alloc, paper, answered.readings, loaded),
    }
}

/// Appends which commit is refused, and why, or what isn't of a script's form.
fn put_commits(
    alloc: Global,
    paper: &mut Paper,
    readings: &[u64],
    loaded: Loaded<'_>,
) -> Result<(), Memory>
    requires { WasRead loaded.schema loaded.routes loaded.settings }
{
    let commits = loaded.commits;
    let script = loaded.script;
    let schema = loaded.schema.copy(alloc)?;
    match Site::of(alloc, loaded, readings) {
        Err(
            Refusal::Refused {
                part: BundlePart::Script,
                ..
            },
        ) => put_script(paper, script),
        Err(Refusal::Refused { number, kind, .. }) => put_commit(
            alloc,
            paper,
            &schema,
            readings,
            commits,
            number as usize,
            kind,
        ),
        _ => Err(Memory),
    }
}

/// Appends the faults of types, or where there are none those of the lint.
fn put_templates(
    alloc: Global,
    paper: &mut Paper,
    sources: &[ViewFile],
    loaded: Loaded<'_>,
) -> Result<(), Memory> {
    match type_set(alloc, loaded.set, loaded.schema, &loaded.routes) {
        Ok(typed) => put_blocks(alloc, paper, sources, typed),
        Err(TypeRefusal::Faults(faults)) => put_types(alloc, paper, sources, faults.as_slice()),
        Err(TypeRefusal::Memory) => Err(Memory),
    }
}

/// Appends the faults of the lint.
fn put_blocks(
    alloc: Global,
    paper: &mut Paper,
    sources: &[ViewFile],
    typed: Typed,
) -> Result<(), Memory> {
    match lint(alloc, typed) {
        Err(LintRefusal::Faults(faults)) => put_lints(alloc, paper, sources, faults.as_slice()),
        _ => Err(Memory),
    }
}
