//! What stands at a limit is read and made, which no clause says, since want of memory excuses all; what is past it isn't.

use crate::answer::answer;
use crate::files::{file, home};
use doll_base::MemFolder;
use doll_text::{Bytes, Memory};
use doll_views::json_of;
use std::alloc::{AllocError, Global};
use std::process::Abort;
use std::test::Fail;

/// Products and their games, with commits to be set in and a page of games.
const SHOP: &str = r#"{"schema":{"models":[
{"name":"product","plural":"products","attributes":[{"name":"name","kind":"text"}],"has_many":[{"name":"games","model":"game","inverse":"product","dependent":"destroy"}]},
{"name":"game","plural":"games","attributes":[],"belongs_to":[{"name":"product","model":"product"}]}
]},"routes":[{"path":"/games/:id","template":"thing","record":"game"}],"views":{"thing.html.erb":"<%= game.product.games.size %><%= game.product.name %>"},"commits":[COMMITS]}"#;

/// Models to be set in, with a page of the last.
const MODELS: &str =
    r#"{"schema":{"models":[COMMITS]},"routes":[{"path":"/last/:id","template":"thing","record":"m31"}],"views":{"thing.html.erb":"<%= m31.c7.size %>"},"commits":[{"changes":[{"create":"m31","values":{}},{"update":"m31","id":1,"values":{"a7_id":1}}]}]}"#;

/// A model with 8 associations to itself of either kind.
const MODEL: &str =
    r#"{"name":"mNUMBER","plural":"pNUMBER","attributes":[],"belongs_to":[PARENTS],"has_many":[MANYS]}"#;

const PARENT: &str = r#"{"name":"aNUMBER","model":"mMODEL","null":true}"#;

const MANY: &str = r#"{"name":"cNUMBER","model":"mMODEL","inverse":"aNUMBER"}"#;

/// A product, and as many games of it as are set in.
const FAMILY: &str = r#"{"changes":[{"create":"product","values":{}},GAMES]}"#;

const GAME: &str = r#"{"create":"game","values":{"product_id":1}}"#;

/// One game more, and a destroy of the product with all of them; then a product with one game.
const DESTROYED: &str =
    r#"{"changes":[{"create":"game","values":{"product_id":1}}]},{"changes":[{"destroy":"product","id":1},{"create":"product","values":{}},{"create":"game","values":{"product_id":2}}]}"#;

const GIVEN: &str = r#"{"changes":[{"create":"product","values":{VALUES}}]}"#;

const NAMED: &str =
    r#"{"changes":[{"create":"product","values":{"name":"TEXT"}},{"create":"game","values":{"product_id":1}}]}"#;

/// A view, and the template of the path `/` in a folder.
const FILE: &str = r#""views":{"a.html.erb":""},"files":["home.html.erb"]"#;

/// A text so many times with commas between, with the number of each in place of a word.
fn repeated(alloc: Global, count: usize, text: &str) -> Result<String, AllocError> {
    let mut all = String::new(alloc);
    for index in 0..count {
        if index > 0 {
            all.push_str(",")?;
        }
        let number = format!(in alloc; "{index}")?;
        all.push_str(text.replace(alloc, "NUMBER", number.as_str())?.as_str())?;
    }
    Ok(all)
}

/// A text of so many bytes: two to this power, and some more.
fn long(alloc: Global, power: usize, more: &str) -> Result<String, AllocError> {
    let mut text = String::from_str(alloc, "x")?;
    for _ in 0..power {
        text = format!(in alloc; "{text}{text}")?;
    }
    text.push_str(more)?;
    Ok(text)
}

/// So many models with 8 associations to parents and 8 to children each.
fn models(alloc: Global, count: usize) -> Result<String, AllocError> {
    let parents = repeated(alloc, 8, PARENT)?;
    let manys = repeated(alloc, 8, MANY)?;
    let model = MODEL.replace(alloc, "PARENTS", parents.as_str())?;
    let model = model.as_str().replace(alloc, "MANYS", manys.as_str())?;
    let model = model.as_str().replace(alloc, "mMODEL", "mNUMBER")?;
    repeated(alloc, count, model.as_str())
}

/// A product with so many games, and what is made then.
fn family(alloc: Global, count: usize, then: &str) -> Result<String, AllocError> {
    let games = repeated(alloc, count, GAME)?;
    let mut family = FAMILY.replace(alloc, "GAMES", games.as_str())?;
    family.push_str(then)?;
    Ok(family)
}

/// The answer of a bundle that is read from a text.
fn answer_of(alloc: Global, bundle: &str, path: &str) -> Option<Bytes> {
    match json_of(alloc, bundle.as_bytes()) {
        Ok(Some(json)) => {
            let folder = MemFolder::new(Vec::new(alloc), Vec::new(alloc));
            answer(alloc, &json, folder, path).ok()
        }
        _ => None,
    }
}

/// Sees that a bundle with these commits or models set in answers so.
fn check(
    rt: &(impl Abort + AllocGlobal),
    bundle: &str,
    set_in: &str,
    path: &str,
    wanted: &str,
) -> Result<(), Fail> {
    let alloc = rt.alloc();
    let bundle = bundle.replace(alloc, "COMMITS", set_in)?;
    let found = answer_of(alloc, bundle.as_str(), path).ok_or("no memory")?;
    assert!(rt; found.as_slice() == wanted.as_bytes(), "at {path}");
    Ok(())
}

#[test]
fn a_schema_may_have_32_models_with_all_associations(rt: HostRuntime) -> Result<(), Fail> {
    let most = models(rt.alloc(), 32)?;
    check(&rt, MODELS, most.as_str(), "/last/1", "1")?;
    let more = models(rt.alloc(), 33)?;
    check(&rt, MODELS, more.as_str(), "/", "bundle schema 32: TooMany")
}

#[test]
fn a_commit_may_have_a_thousand_changes(rt: HostRuntime) -> Result<(), Fail> {
    let most = family(rt.alloc(), 999, "")?;
    check(&rt, SHOP, most.as_str(), "/games/999", "999")?;
    let more = family(rt.alloc(), 1000, "")?;
    let too_many = "bundle commits 0: TooManyChanges";
    check(&rt, SHOP, more.as_str(), "/", too_many)
}

#[test]
fn a_thousand_records_go_with_one(rt: HostRuntime) -> Result<(), Fail> {
    let alloc = rt.alloc();
    let then = format!(in alloc; ",{DESTROYED}")?;
    let destroyed = family(alloc, 999, then.as_str())?;
    check(&rt, SHOP, destroyed.as_str(), "/games/1000", "unknown")?;
    check(&rt, SHOP, destroyed.as_str(), "/games/1001", "1")
}

/// Sees that a commit with so many values is refused so.
fn check_values(rt: &(impl Abort + AllocGlobal), count: usize, wanted: &str) -> Result<(), Fail> {
    let values = repeated(rt.alloc(), count, "\"vNUMBER\":1")?;
    let given = GIVEN.replace(rt.alloc(), "VALUES", values.as_str())?;
    check(rt, SHOP, given.as_str(), "/", wanted)
}

#[test]
fn a_change_may_have_64_values(rt: HostRuntime) -> Result<(), Fail> {
    check_values(&rt, 64, "bundle commits 0: UnknownAttribute")?;
    check_values(&rt, 65, "bundle commits 0: BadForm")
}

/// A commit with a text.
fn named(alloc: Global, text: &str) -> Result<String, AllocError> {
    NAMED.replace(alloc, "TEXT", text)
}

#[test]
fn a_value_may_have_a_million_bytes(rt: HostRuntime) -> Result<(), Fail> {
    let alloc = rt.alloc();
    let text = long(alloc, 20, "")?;
    let most = named(alloc, text.as_str())?;
    let page = format!(in alloc; "1{text}")?;
    check(&rt, SHOP, most.as_str(), "/games/1", page.as_str())?;
    let more = named(alloc, long(alloc, 20, "x")?.as_str())?;
    check(&rt, SHOP, more.as_str(), "/", "bundle commits 0: BadForm")
}

/// A folder with a file of this source.
fn folder_of(alloc: Global, source: &str) -> Result<MemFolder, Memory> {
    let mut files = Vec::new(alloc);
    files.push(file(alloc, "home.html.erb", source.as_bytes())?)?;
    Ok(MemFolder::new(files, Vec::new(alloc)))
}

/// Sees that a site whose template is in a folder answers so, where the template has so many bytes.
fn check_file(
    rt: &(impl Abort + AllocGlobal),
    power: usize,
    more: &str,
    wanted: &str,
) -> Result<(), Fail> {
    let alloc = rt.alloc();
    let folder = folder_of(alloc, long(alloc, power, more)?.as_str())
        .ok()
        .ok_or("no memory")?;
    let found = home(alloc, FILE, folder)?;
    assert!(rt; found.as_slice() == wanted.as_bytes(), "of {more}");
    Ok(())
}

#[test]
fn a_file_may_have_a_quarter_of_a_million_bytes(rt: HostRuntime) -> Result<(), Fail> {
    let page = long(rt.alloc(), 18, "")?;
    check_file(&rt, 18, "", page.as_str())?;
    check_file(&rt, 18, "x", "bundle views 1: TooLong")?;
    check_file(&rt, 24, "x", "too long")
}
