//! What the program answers to its words and its input.

ghost use Rattle.std.specs.Prelude.{◌≡◌, ◌≢◌, [], Ok, Err, IfOk, IsErrOf};
ghost use Rattle.serde_json.specs.View.{view};
ghost use Rattle.doll_base.specs.Faults.{HasCause, KeepsCount};
ghost use Rattle.doll_route.specs.Routes.{AreRoutesOf};
ghost use Rattle.doll_views.specs.Bundles.{WasRead, bundle_in, bundle_of};
ghost use Rattle.doll_views.specs.Files.{AsksFirst};
ghost use Rattle.doll_views.specs.Seen.{seen_bundle, seen_loaded};
ghost use Rattle.doll_bundle.specs.Sites.{IsServed, page_after, readings_needed, seen_site, site_of};
ghost use Rattle.doll.specs.Replies as spec;
ghost use Rattle.doll.specs.Stages.{WasMade};
ghost use Rattle.doll.specs.Statuses.{IsAnswer};
ghost use Rattle.doll.specs.Timed.{AnswersFor, AnswersTimed, IsTold};
ghost use Rattle.doll.specs.Words.{seen_command};
ghost use Rattle.doll.specs.declared.unanswered.Unanswered.TheVariants as unanswered;

use crate::replaying::replay_reply;
use crate::status::Status;
use crate::unanswered::Unanswered;
use crate::words::Command;
use doll_base::{Clock, Folder};
use doll_bundle::{Site, read_clock, site_page, untimed};
use doll_faults::{lint_lines, type_lines};
use doll_keep::MemKeeper;
use doll_lint::checked::{LintRefusal, lint};
use doll_lint::fault::LintFault;
use doll_records::Records;
use doll_route::Routes;
use doll_text::{Bytes, Memory};
use doll_types::{TypeFault, TypeRefusal, Typed, type_set};
use doll_views::{Bundle, Loaded, Refusal, digest_lines, json_of, json_refusal, refusal_line};
use serde_json::Value;
use std::alloc::Global;
use std::hash::RandomState;

/// The most bytes of an input.
pub const LONGEST_INPUT: usize = 16_777_216;

/// A status, and what is written.
#[derive(Drop)]
pub struct Reply {
    pub status: Status,
    pub text: Bytes,
}

/// A reply of one line.
pub(crate) fn line_reply(status: Status, text: Vec<u8>) -> Result<Reply, Memory>
    ensures { IfOk result (λ reply. reply ≡ record { status = status; text = spec.line text.items }) }
{
    let mut text = text;
    text.push(b'\n')?;
    Ok(Reply {
        status,
        text: Bytes::from_vec(text),
    })
}

/// The usage line, for words that are none of the forms.
pub fn usage(alloc: Global) -> Result<Reply, Memory>
    ensures value { IfOk result (λ reply. reply ≡ spec.usage) }
    ensures status { IfOk result (λ reply. IsAnswer reply.status) }
{
    let text =
        "usage: doll plain PATH | lint | digests | replay | workload N | serve BUNDLE ADDRESS [JOURNAL]";
    line_reply(Status::WrongWords, Vec::from_slice(alloc, text.as_bytes())?)
}

/// The reply to an input that is too long.
pub fn too_long(alloc: Global) -> Result<Reply, Memory>
    ensures value { IfOk result (λ reply. reply ≡ spec.too_long) }
    ensures status { IfOk result (λ reply. IsAnswer reply.status) }
{
    line_reply(
        Status::TooLong,
        Vec::from_slice(alloc, b"too long 16777216")?,
    )
}

fn unknown(alloc: Global, path: &[u8]) -> Result<Reply, Memory>
    ensures value { IfOk result (λ reply. reply ≡ spec.unknown path.now) }
    ensures status { IfOk result (λ reply. IsAnswer reply.status) }
{
    let mut text = Vec::from_slice(alloc, b"unknown ")?;
    text.extend_from_slice(path)?;
    line_reply(Status::UnknownPath, text)
}

/// The reply to a bundle that is refused.
fn refusal_reply(alloc: Global, why: Refusal) -> Result<Reply, Unanswered>
    ensures value { IfOk result (spec.IsRefusalReply why) }
    ensures real { IfOk result (λ reply. IsTold why) }
    ensures status { IfOk result (λ reply. IsAnswer reply.status) }
    ensures cause { IsErrOf result unanswered.Failed → why ≡ Refusal.Failed }
{
    match why {
        Refusal::Refused { part, number, kind } => Ok(line_reply(
            Status::BundleRefused,
            refusal_line(alloc, part, number, kind)?,
        )?),
        Refusal::TooLong => Ok(too_long(alloc)?),
        Refusal::Failed => Err(Unanswered::Failed),
        Refusal::Memory => Err(Unanswered::Memory),
    }
}

/// The page of a path of a site whose templates are typed.
fn page_reply(
    alloc: Global,
    typed: &Typed,
    routes: &Routes,
    records: &Records<MemKeeper>,
    path: &str,
) -> Result<Reply, Memory>
    requires records { records.now.schema ≡ typed.now.schema }
    requires routes { AreRoutesOf typed.now.schema routes.now }
    ensures value { IfOk result (λ reply. reply ≡ spec.page_reply
        (page_after typed.now.schema routes.now typed.now.set records.now.history path.now)
        path.now) }
    ensures status { IfOk result (λ reply. IsAnswer reply.status) }
{
    match site_page(alloc, typed.schema(), routes, typed.set(), records, path)? {
        Some(text) => Ok(Reply {
            status: Status::Done,
            text,
        }),
        None => unknown(alloc, path.as_bytes()),
    }
}

/// What tells faults of types.
pub(crate) fn untyped(alloc: Global, faults: &[TypeFault]) -> Result<Reply, Memory>
    ensures value { IfOk result (λ reply. reply ≡ spec.untyped faults.now) }
    ensures status { IfOk result (λ reply. IsAnswer reply.status) }
{
    Ok(Reply {
        status: Status::Untyped,
        text: Bytes::from_vec(type_lines(alloc, faults)?),
    })
}

/// The page of a path of a site, or the faults of its types.
fn plain_reply(alloc: Global, site: Site, path: &str) -> Result<Reply, Memory>
    requires { IsServed site }
    ensures value { IfOk result (spec.IsPlainReply (seen_site site) path.now) }
    ensures status { IfOk result (λ reply. IsAnswer reply.status) }
{
    let Site {
        schema,
        routes,
        set,
        records,
        ..
    } = site;
    match type_set(alloc, set, schema, &routes) {
        Ok(typed) => page_reply(alloc, &typed, &routes, &records, path),
        Err(TypeRefusal::Faults(faults)) => untyped(alloc, faults.as_slice()),
        Err(TypeRefusal::Memory) => Err(Memory),
    }
}

/// The word that tells that nothing is wrong.
fn clean(alloc: Global) -> Result<Reply, Memory>
    ensures value { IfOk result (λ reply. reply ≡ spec.lint_reply []) }
    ensures status { IfOk result (λ reply. IsAnswer reply.status) }
{
    line_reply(Status::Done, Vec::from_slice(alloc, b"clean")?)
}

/// What tells faults of a lint.
pub(crate) fn unclean(alloc: Global, faults: &[LintFault]) -> Result<Reply, Memory>
    requires some { faults.now ≢ [] }
    ensures value { IfOk result (λ reply. reply ≡ spec.lint_reply faults.now) }
    ensures status { IfOk result (λ reply. IsAnswer reply.status) }
{
    Ok(Reply {
        status: Status::Unclean,
        text: Bytes::from_vec(lint_lines(alloc, faults)?),
    })
}

/// The faults of a typed set's lint, or `clean`.
fn linted(alloc: Global, typed: Typed) -> Result<Reply, Memory>
    ensures value { IfOk result (spec.IsLinted typed.set typed.schema typed.routes) }
    ensures status { IfOk result (λ reply. IsAnswer reply.status) }
{
    match lint(alloc, typed) {
        Ok(_) => clean(alloc),
        Err(LintRefusal::Faults(faults)) => unclean(alloc, faults.as_slice()),
        Err(LintRefusal::Memory) => Err(Memory),
    }
}

/// The faults of a site's types, or those of its lint, or `clean`.
fn lint_reply(alloc: Global, site: Site) -> Result<Reply, Memory>
    ensures value { IfOk result (spec.IsLintReply (seen_site site)) }
    ensures status { IfOk result (λ reply. IsAnswer reply.status) }
{
    match type_set(alloc, site.set, site.schema, &site.routes) {
        Ok(typed) => linted(alloc, typed),
        Err(TypeRefusal::Faults(faults)) => untyped(alloc, faults.as_slice()),
        Err(TypeRefusal::Memory) => Err(Memory),
    }
}

/// The digests of a site's templates.
fn digests_reply(alloc: Global, site: &Site) -> Result<Reply, Memory>
    ensures value { IfOk result (λ reply. reply ≡ spec.digests_reply (seen_site site.now)) }
    ensures status { IfOk result (λ reply. IsAnswer reply.status) }
{
    Ok(Reply {
        status: Status::Done,
        text: Bytes::from_vec(digest_lines(alloc, &site.set)?),
    })
}

/// What is asked of a site.
fn site_reply(
    alloc: Global,
    command: Command<'_>,
    site: Site,
    keys: RandomState,
) -> Result<Reply, Memory>
    requires served { IsServed site }
    requires made { WasMade site.set }
    ensures value { IfOk result (spec.IsSiteReply (seen_command command.entry) (seen_site site)) }
    ensures status { IfOk result (λ reply. IsAnswer reply.status) }
{
    match command {
        Command::Plain(path) => plain_reply(alloc, site, path),
        Command::Lint => lint_reply(alloc, site),
        Command::Digests => digests_reply(alloc, &site),
        Command::Replay => replay_reply(alloc, keys, site),
    }
}

/// What is asked of the site of a bundle, where the clock gave these readings.
fn made_reply(
    alloc: Global,
    command: Command<'_>,
    loaded: Loaded<'_>,
    readings: &[u64],
    keys: RandomState,
) -> Result<Reply, Unanswered>
    requires read { WasRead loaded.schema loaded.routes loaded.settings }
    requires made { WasMade loaded.set }
    ensures value { IfOk result (spec.IsMadeReply
        (seen_command command.entry) (site_of (seen_loaded loaded.entry) readings.now)) }
    ensures alive { result ≢ Err unanswered.Failed }
    ensures status { IfOk result (λ reply. IsAnswer reply.status) }
{
    match Site::of(alloc, loaded, readings) {
        Ok(site) => Ok(site_reply(alloc, command, site, keys)?),
        Err(why) => refusal_reply(alloc, why),
    }
}

/// The same, where the clock is read once for each of the bundle's commits that says no time.
#[tactic(auto, using(crate::proofs::Timing::with_clock))]
fn loaded_reply<C: Clock>(
    alloc: Global,
    command: Command<'_>,
    loaded: Loaded<'_>,
    clock: &mut C,
    keys: RandomState,
) -> Result<Reply, Unanswered>
    requires read { WasRead loaded.schema loaded.routes loaded.settings }
    requires made { WasMade loaded.set }
    ensures value { AnswersTimed
        (readings_needed (Ok (seen_loaded loaded.entry)))
        (spec.IsLoadedReply (seen_command command.entry) (Ok (seen_loaded loaded.entry)))
        (C.readings clock.old) (C.readings clock.new) result }
    ensures alive { result ≢ Err unanswered.Failed }
    ensures status { IfOk result (λ reply. IsAnswer reply.status) }
{
    let readings = read_clock(alloc, clock, untimed(loaded.commits))?;
    made_reply(alloc, command, loaded, readings.as_slice(), keys)
}

/// What is asked of the site of a bundle whose files are read from the folder first.
fn bundle_reply<F: Folder, C: Clock>(
    alloc: Global,
    command: Command<'_>,
    bundle: Bundle<'_>,
    folder: &mut F,
    clock: &mut C,
    keys: RandomState,
) -> Result<Reply, Unanswered>
    requires { WasRead bundle.schema bundle.routes bundle.settings }
    ensures value { AnswersFor
        (seen_command command.entry) (Ok (seen_bundle bundle.entry))
        (F.files folder.old) (C.readings clock.old) (C.readings clock.new) result }
    ensures asked { AsksFirst
        (spec.names_in (Ok (seen_bundle bundle.entry)))
        (F.asked folder.old) (F.asked folder.new) }
    ensures kept { F.files folder.new ≡ F.files folder.old }
    ensures cause { HasCause unanswered.Failed (F.faults folder.old) (F.faults folder.new) result }
    ensures count { KeepsCount (F.faults folder.old) (F.faults folder.new) }
    ensures clock { IsErrOf result unanswered.Failed → clock.new ≡ clock.old }
    ensures status { IfOk result (λ reply. IsAnswer reply.status) }
{
    match bundle.load(alloc, folder) {
        Ok(loaded) => loaded_reply(alloc, command, loaded, clock, keys),
        Err(why) => refusal_reply(alloc, why),
    }
}

/// What is asked of the site of the bundle that a JSON value is.
fn json_reply<F: Folder, C: Clock>(
    alloc: Global,
    command: Command<'_>,
    json: &Value,
    folder: &mut F,
    clock: &mut C,
    keys: RandomState,
) -> Result<Reply, Unanswered>
    ensures value { AnswersFor
        (seen_command command.entry) (bundle_in (view json.now))
        (F.files folder.old) (C.readings clock.old) (C.readings clock.new) result }
    ensures asked { AsksFirst
        (spec.names_in (bundle_in (view json.now)))
        (F.asked folder.old) (F.asked folder.new) }
    ensures kept { F.files folder.new ≡ F.files folder.old }
    ensures cause { HasCause unanswered.Failed (F.faults folder.old) (F.faults folder.new) result }
    ensures count { KeepsCount (F.faults folder.old) (F.faults folder.new) }
    ensures clock { IsErrOf result unanswered.Failed → clock.new ≡ clock.old }
    ensures status { IfOk result (λ reply. IsAnswer reply.status) }
{
    match Bundle::read(alloc, json) {
        Ok(bundle) => bundle_reply(alloc, command, bundle, folder, clock, keys),
        Err(why) => refusal_reply(alloc, why),
    }
}

/// The reply to an input that isn't too long.
pub fn input_reply<F: Folder, C: Clock>(
    alloc: Global,
    command: Command<'_>,
    input: &[u8],
    folder: &mut F,
    clock: &mut C,
    keys: RandomState,
) -> Result<Reply, Unanswered>
    ensures value { AnswersFor
        (seen_command command.entry) (bundle_of input.now)
        (F.files folder.old) (C.readings clock.old) (C.readings clock.new) result }
    ensures asked { AsksFirst
        (spec.names_in (bundle_of input.now))
        (F.asked folder.old) (F.asked folder.new) }
    ensures kept { F.files folder.new ≡ F.files folder.old }
    ensures cause { HasCause unanswered.Failed (F.faults folder.old) (F.faults folder.new) result }
    ensures count { KeepsCount (F.faults folder.old) (F.faults folder.new) }
    ensures clock { IsErrOf result unanswered.Failed → clock.new ≡ clock.old }
    ensures status { IfOk result (λ reply. IsAnswer reply.status) }
{
    match json_of(alloc, input) {
        Ok(Some(json)) => json_reply(alloc, command, &json, folder, clock, keys),
        Ok(None) => refusal_reply(alloc, json_refusal()),
        Err(_) => Err(Unanswered::Memory),
    }
}
