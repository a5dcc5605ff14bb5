//! Bundles that are refused before their templates are looked at, commits, paths and words: what is said of each first.

use crate::texts::{MODELS, ROUTES, explained, first_line};
use doll_explain::Answer;
use std::alloc::Global;
use std::test::Fail;

/// Bundles, with the first lines of their explanations.
const BUNDLES: [(&str, &str); 18] = [
    ("{\n\"schema\":]", "standard input:2:10: this isn't JSON"),
    (
        "{\"schema\":{\"models\":[]},\"veiws\":{}}",
        "standard input: isn't a bundle",
    ),
    (
        "{\"schema\":{\"models\":[]},\"settings\":[]}",
        "settings: isn't an object",
    ),
    (
        "{\"schema\":{\"models\":[]},\"settings\":{\"expire\":1}}",
        "settings: \"expire\" isn't a setting",
    ),
    (
        "{\"schema\":{\"models\":[]},\"settings\":{\"max_age\":null,\"race_condition_ttl\":null}}",
        "settings.race_condition_ttl: isn't a whole number from 0 to 4611686018427387904",
    ),
    (
        "{\"schema\":{\"models\":[]},\"settings\":{\"shards\":64,\"workers\":65}}",
        "settings.workers: isn't a whole number from 1 to 64",
    ),
    (
        "{\"schema\":{\"models\":[]},\"script\":{}}",
        "script: isn't an array",
    ),
    (
        "{\"schema\":{\"models\":[]},\"script\":[\"expire\",7]}",
        "script[1]: isn't a text",
    ),
    ("{\"schema\":{}}", "schema: isn't of the form"),
    (
        "{\"schema\":{\"models\":[{\"name\":\"end\",\"plural\":\"ends\",\"attributes\":[]}]}}",
        "schema.models[0].name: \"end\" isn't a name",
    ),
    (
        "{\"schema\":{\"models\":[{\"name\":\"cat\",\"plural\":\"cats\",\"attributes\":[{\"name\":\"age\",\"kind\":\"float\"}]}]}}",
        "schema.models[0].attributes[0].kind: \"float\" isn't one of integer, text, boolean",
    ),
    (
        "{\"schema\":{\"models\":[{\"name\":\"cat\",\"plural\":\"cats\",\"attributes\":[{\"name\":\"age\"}]}]}}",
        "schema.models[0].attributes[0]: isn't of the form of an attribute",
    ),
    (
        "{\"schema\":{\"models\":[{\"name\":\"cat\",\"plural\":\"cats\",\"attributes\":[],\"belongs_to\":[{\"name\":\"dog\",\"model\":\"dog\"}]}]}}",
        "schema.models[0].belongs_to[0].model: \"dog\" isn't the name of a model",
    ),
    (
        "{\"schema\":{\"models\":[{\"name\":\"cat\",\"plural\":\"cats\",\"attributes\":[],\"has_many\":[{\"name\":\"kittens\",\"model\":\"cat\",\"inverse\":\"dam\"}]}]}}",
        "schema.models[0].has_many[0].inverse: \"dam\" isn't a free `belongs_to` of the other model to this one",
    ),
    (
        "{\"schema\":{\"models\":[]},\"routes\":[{\"path\":\"/Cats\",\"template\":\"cats\"}]}",
        "routes[0].path: \"/Cats\" isn't the path of such a route",
    ),
    (
        "{\"schema\":{\"models\":[]},\"routes\":[{\"path\":\"/cats\",\"template\":\"cats\",\"list\":\"cat\"}]}",
        "routes[0].list: \"cat\" isn't the name of a model",
    ),
    (
        "{\"schema\":{\"models\":[]},\"views\":[]}",
        "views: isn't of the form",
    ),
    (
        "{\"schema\":{\"models\":[]},\"files\":[\"cats.html.erb\"]}",
        "cats.html.erb: this file isn't there",
    ),
];

/// Second changes of a second commit, with the first lines of their explanations.
const CHANGES: [(&str, &str); 8] = [
    (
        "{\"create\":\"cat\",\"values\":{}}",
        "commits[1].changes[1]: create `cat`: there is no such model",
    ),
    (
        "{\"create\":\"product\",\"values\":{\"colour\":1}}",
        "commits[1].changes[1]: create `product`: a value is given for what is neither an attribute nor a foreign key",
    ),
    (
        "{\"update\":\"product\",\"id\":1,\"values\":{\"price\":\"x\"}}",
        "commits[1].changes[1]: update `product` 1: a value isn't of the kind that the schema says",
    ),
    (
        "{\"create\":\"game\",\"values\":{}}",
        "commits[1].changes[1]: create `game`: a value is nil that may not be",
    ),
    (
        "{\"touch\":\"product\",\"id\":7}",
        "commits[1].changes[1]: touch `product` 7: there is no such record",
    ),
    (
        "{\"create\":\"game\",\"values\":{\"product_id\":9}}",
        "commits[1].changes[1]: create `game`: a foreign key names a record that isn't there",
    ),
    (
        "{\"destroy\":\"product\",\"id\":1}",
        "commits[1].changes[1]: destroy `product` 1: a record that stays names one that would go",
    ),
    ("{}", "commits[1]: isn't of the form"),
];

/// The first commit, and what stands before and behind the second's second change.
const COMMITS: &str =
    r#","commits":[{"at":1,"changes":[{"create":"product","values":{}},{"create":"game","values":{"product_id":1}}]},{"at":2,"changes":[{"touch":"product","id":1},"#;

fn of_change(alloc: Global, change: &str) -> Result<String, doll_text::Memory> {
    let parts = ["{", MODELS, COMMITS, change, "]}]}"];
    explained(alloc, Answer::Refused, parts.as_slice(), "")
}

#[test]
fn a_refused_bundle_is_told_by_its_path(rt: HostRuntime) -> Result<(), Fail> {
    for (bundle, wanted) in BUNDLES {
        let parts = [bundle];
        let text = explained(rt.alloc(), Answer::Refused, parts.as_slice(), "");
        let text = text.ok().ok_or("no memory")?;
        assert_eq!(rt; first_line(text.as_str()), wanted.as_bytes());
    }
    Ok(())
}

#[test]
fn a_refused_change_is_told_by_its_number(rt: HostRuntime) -> Result<(), Fail> {
    for (change, wanted) in CHANGES {
        let text = of_change(rt.alloc(), change).ok().ok_or("no memory")?;
        assert_eq!(rt; first_line(text.as_str()), wanted.as_bytes());
    }
    Ok(())
}

/// The nearest routes come first.
const NEAR: &str = "`/games/7` isn't the path of a page
  /games  (games/index)
  /products/:id  (products/show)
A page's path is that of a route, with a record's id in the place of `:id`.
";

/// A route has the path.
const NO_RECORD: &str = "`/products/7` is the path of a record that isn't there
  /products/:id  (products/show)
No record of this model has this id once the bundle's commits are made.
";

#[test]
fn a_path_without_a_page_is_told_with_the_nearest_routes(rt: HostRuntime) -> Result<(), Fail> {
    let parts = ["{", MODELS, ",", ROUTES, "}"];
    for (path, wanted) in [("/games/7?q=1", NEAR), ("/products/7", NO_RECORD)] {
        let text = explained(rt.alloc(), Answer::UnknownPath, parts.as_slice(), path);
        let text = text.ok().ok_or("no memory")?;
        assert_eq!(rt; text.as_bytes(), wanted.as_bytes());
    }
    Ok(())
}

#[test]
fn words_and_what_is_too_long_are_told(rt: HostRuntime) -> Result<(), Fail> {
    for (answer, wanted) in [
        (Answer::WrongWords, "these words are none of the commands"),
        (Answer::TooLong, "standard input: this is too long"),
    ] {
        let text = explained(rt.alloc(), answer, &[], "")
            .ok()
            .ok_or("no memory")?;
        assert_eq!(rt; first_line(text.as_str()), wanted.as_bytes());
    }
    Ok(())
}
