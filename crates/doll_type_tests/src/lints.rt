//! Cached blocks with the faults that a lint tells of them. Places are counted from the first byte of the text.

use crate::typing::{MODELS, lint_told};
use std::test::Fail;

/// The same models, where a change of a game doesn't touch its product.
const UNTOUCHED: &str =
    r#"{"models":[{"name":"product","plural":"products","attributes":[{"name":"name","kind":"text"},{"name":"price","kind":"integer"}],"has_many":[{"name":"games","model":"game","inverse":"product","dependent":"destroy"}]},{"name":"game","plural":"games","attributes":[{"name":"name","kind":"text"}],"belongs_to":[{"name":"product","model":"product","touch":false}]}]}"#;

/// A product's page, and one of all games.
const ROUTES: &str =
    r#"[{"path":"/products/:id","template":"products/show","record":"product"},{"path":"/games","template":"games/index","list":"game"}]"#;

/// A product's page with its games, each in a block of its own.
const SHOW: &str =
    "<% cache product do %><h1><%= product.name %></h1><%= render partial: \"games/game\", collection: product.games, as: :game %><% end %>";

const GAME: &str = "<% cache game do %><p><%= game.name %></p><% end %>";

const ROW: &str = "<li><%= game.name %></li>";

/// The files of a site with these templates for a product's page, a game and a row of the games.
fn files<'a>(show: &'a str, game: &'a str, row: &'a str) -> [(&'static str, &'a str); 5] {
    [
        (
            "games/index.html.erb",
            "<%= render partial: \"games/row\", collection: @games, as: :game, cached: true %>",
        ),
        ("products/show.html.erb", show),
        ("games/_game.html.erb", game),
        ("games/_row.html.erb", row),
        (
            "games/_pair.html.erb",
            "<% cache a do %>A<% end %><% cache b do %>B<% end %>",
        ),
    ]
}

/// Templates for a product's page, a game and a row, and what is told of them.
const SITES: [(&str, &str, &str, &str); 10] = [
    (SHOW, GAME, ROW, ""),
    // A game shows its product's name under its own key.
    (
        SHOW,
        "<% cache game do %><%= game.product.name %><% end %>",
        ROW,
        "games/_game:19: Uncovered game.product\n",
    ),
    (
        SHOW,
        "<% cache [game, game.product] do %><%= game.product.name %><% end %>",
        ROW,
        "",
    ),
    // Faults of types come first.
    (
        SHOW,
        "<% cache game do %><%= game.colour %><% end %>",
        ROW,
        "games/_game:19: UnknownStep colour\n",
    ),
    // Two blocks of one template under one key.
    (
        "<% cache product do %>A<% end %><% cache product do %>B<% end %>",
        GAME,
        ROW,
        "products/show:32: SharedKey 0\n",
    ),
    (
        "<% cache product do %>A<% end %><% cache [product, :header] do %>B<% end %>",
        GAME,
        ROW,
        "",
    ),
    // The first block of the one rendering and the second of the other have one key.
    (
        "<% product.games.each do |g| %><%= render \"games/pair\", a: product, b: g %><%= render \"games/pair\", a: g, b: product %><% end %>",
        GAME,
        ROW,
        "games/_pair:26: SharedKey 0\n",
    ),
    // The item of a cached collection has the key of a block of its partial.
    (
        SHOW,
        GAME,
        "<% cache [game, \"collection\"] do %><%= game.name %><% end %>",
        "games/_row:0: SharedKey 0\n",
    ),
    // A game of the list round the block isn't in its key.
    (
        "<% product.games.each do |g| %><% cache product do %><%= g.name %><% end %><% end %>",
        GAME,
        ROW,
        "products/show:53: OutsideVariable g\n",
    ),
    // How many games there are changes the product, not a game.
    (
        SHOW,
        "<% cache game do %><%= game.product.games.size %><% end %>",
        ROW,
        "games/_game:19: Uncovered game.product.games\n",
    ),
];

#[test]
fn sites_have_these_faults(rt: HostRuntime) -> Result<(), Fail> {
    for (show, game, row, wanted) in SITES {
        let files = files(show, game, row);
        let told = lint_told(rt.alloc(), MODELS, ROUTES, &files).ok_or("not read")?;
        assert_eq!(rt; told.as_slice(), wanted.as_bytes(), "{wanted}");
    }
    Ok(())
}

#[test]
fn children_that_dont_touch_are_told_where_they_are_rendered(rt: HostRuntime) -> Result<(), Fail> {
    let files = files(SHOW, GAME, ROW);
    let told = lint_told(rt.alloc(), UNTOUCHED, ROUTES, &files).ok_or("not read")?;
    let wanted = b"products/show:50: NoTouch games\n";
    assert_eq!(rt; told.as_slice(), wanted.as_slice());
    Ok(())
}
