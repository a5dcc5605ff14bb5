//! Pages of a shop, call by call.

ghost use Rattle.std.specs.Prelude.{◌≡◌, ◌≤◌, ◌^◌, length};

use crate::driving::visit;
use crate::site::{Site, View, changes, site_of};
use doll_keep::MemKeeper;
use doll_lint::checked::Checked;
use doll_records::Records;
use doll_route::Routes;
use doll_shelf::{MemShelf, ShelfSettings};
use doll_text::Memory;
use std::alloc::Global;
use std::hash::RandomState;
use std::test::Fail;

/// Settings under which nothing expires, is too old or too much.
const PLAIN: ShelfSettings = ShelfSettings {
    expires_in: None,
    race_ttl: 0,
    max_entries: None,
    max_size: None,
    max_age: None,
    batch: 1000,
};

/// Products with their games.
const MODELS: &str =
    r#"{"models":[{"name":"product","plural":"products","attributes":[{"name":"name","kind":"text"},{"name":"price","kind":"integer"}],"has_many":[{"name":"games","model":"game","inverse":"product","dependent":"destroy"}]},{"name":"game","plural":"games","attributes":[{"name":"name","kind":"text"}],"belongs_to":[{"name":"product","model":"product","touch":true}]}]}"#;

/// The page of a product and that of all games.
const ROUTES: &str =
    r#"[{"path":"/products/:id","template":"products/show","record":"product"},{"path":"/games","template":"games/index","list":"game"}]"#;

const VIEWS: [View; 4] = [
    (
        "products/show.html.erb",
        r#"<% cache product do %><h1><%= product.name %></h1><%= render partial: "games/game", collection: product.games, as: :game %><% end %>"#,
    ),
    (
        "games/_game.html.erb",
        "<% cache game do %><p><%= game.name %></p><% end %>",
    ),
    (
        "games/index.html.erb",
        r#"<%= render partial: "games/row", collection: @games, as: :game, cached: true %>"#,
    ),
    ("games/_row.html.erb", "<li><%= game.name %></li>"),
];

const PRODUCT: &str = r#"[{"create":"product","values":{"name":"A&B"}}]"#;

const GAMES: &str =
    r#"[{"create":"game","values":{"name":"X","product_id":1}},{"create":"game","values":{"name":"Y","product_id":1}},{"create":"game","values":{"name":"Z","product_id":1}}]"#;

/// A path, a commit, and what is told of the path's page: twice before the commit, and behind it.
const VISITS: [(&str, &str, &str); 2] = [
    (
        "/products/1",
        r#"[{"update":"game","id":2,"values":{"name":"W"}}]"#,
        "read absent, read absent, write, read absent, write, read absent, write, write, <h1>A&amp;B</h1><p>X</p><p>Y</p><p>Z</p>, 10 looks
read hit, <h1>A&amp;B</h1><p>X</p><p>Y</p><p>Z</p>, 2 looks
read mismatch, read hit, read mismatch, write, read hit, write, <h1>A&amp;B</h1><p>X</p><p>W</p><p>Z</p>, 8 looks
",
    ),
    (
        "/games",
        r#"[{"create":"game","values":{"name":"V","product_id":1}}]"#,
        "many absent absent absent, write, write, write, <li>X</li><li>Y</li><li>Z</li>, 7 looks
many hit hit hit, <li>X</li><li>Y</li><li>Z</li>, 4 looks
many hit hit hit absent, write, <li>X</li><li>Y</li><li>Z</li><li>V</li>, 6 looks
",
    ),
];

/// Makes a commit of these changes, in JSON, at a time; false where it isn't made.
fn commit(alloc: Global, records: &mut Records<MemKeeper>, text: &str, now: u64) -> bool
    ensures { records.new.schema ≡ records.old.schema }
{
    let serial = records.history().len() as u64;
    match changes(alloc, text) {
        Some(changes) => records.commit(alloc, 0, serial, changes, now).is_ok(),
        None => false,
    }
}

/// What is told of a path's page, twice before a commit and once behind it.
fn visits(
    alloc: Global,
    checked: &Checked,
    routes: &Routes,
    records: &mut Records<MemKeeper>,
    shelf: &mut MemShelf,
    visited: (&str, &str),
) -> Result<Vec<u8>, Memory>
    requires schema { records.old.schema ≡ checked.now.schema }
    requires few { length checked.now.set.templates ≤ 2 ^ 16 }
{
    let (path, change) = visited;
    let mut told = Vec::new(alloc);
    visit(alloc, checked, routes, records, path, shelf, &mut told)?;
    visit(alloc, checked, routes, records, path, shelf, &mut told)?;
    let _change = commit(alloc, records, change, 12);
    visit(alloc, checked, routes, records, path, shelf, &mut told)?;
    Ok(told)
}

/// The same of a shop with a product and three games.
fn shop_visits(
    alloc: Global,
    site: Site,
    shelf: &mut MemShelf,
    visited: (&str, &str),
) -> Result<Vec<u8>, Memory>
    requires schema { site.records.schema ≡ site.checked.schema }
    requires few { length site.checked.set.templates ≤ 2 ^ 16 }
{
    let Site {
        routes,
        checked,
        mut records,
    } = site;
    let _product = commit(alloc, &mut records, PRODUCT, 10);
    let _games = commit(alloc, &mut records, GAMES, 11);
    visits(alloc, &checked, &routes, &mut records, shelf, visited)
}

/// The same of a new shop, whose shelf hashes by these keys.
fn told(alloc: Global, keys: RandomState, visited: (&str, &str)) -> Option<Vec<u8>> {
    let mut shelf = MemShelf::new(PLAIN, keys);
    match site_of(alloc, MODELS, ROUTES, &VIEWS) {
        Some(site) => shop_visits(alloc, site, &mut shelf, visited).ok(),
        None => None,
    }
}

#[test]
fn a_page_asks_and_looks_only_for_what_changed(rt: HostRuntime) -> Result<(), Fail> {
    for (path, change, expected) in &VISITS {
        let told = told(rt.alloc(), RandomState::new(&rt)?, (*path, *change)).ok_or(
            "nothing told",
        )?;
        assert_eq!(rt;
            told.as_slice(),
            expected.as_bytes(),
            "in place of {expected}"
        );
    }
    Ok(())
}
