//! Rows of bundles, each with the answer to a path.

use crate::answer::answer;
use doll_base::MemFolder;
use doll_views::json_of;
use serde_json::Value;
use std::alloc::Global;
use std::process::Abort;
use std::test::Fail;

/// What stands in a table's bundles in place of a word: models, and routes to them.
const WORDS: [(&str, &str); 11] = [
    (
        "PRODUCT",
        r#"{"models":[{"name":"product","plural":"products","attributes":[{"name":"name","kind":"text"}]}]}"#,
    ),
    // Products with games, which go with their product, and with notes, which keep it.
    (
        "SHOP",
        r#"{"models":[{"name":"product","plural":"products","attributes":[{"name":"name","kind":"text"}],"has_many":[{"name":"games","model":"game","inverse":"product","dependent":"destroy"},{"name":"notes","model":"note","inverse":"product","dependent":"restrict"}]},{"name":"game","plural":"games","attributes":[{"name":"name","kind":"text"}],"belongs_to":[{"name":"product","model":"product","touch":true}]},{"name":"note","plural":"notes","attributes":[],"belongs_to":[{"name":"product","model":"product"}]}]}"#,
    ),
    // Comments on comments.
    (
        "FORUM",
        r#"{"models":[{"name":"comment","plural":"comments","attributes":[{"name":"body","kind":"text"}],"belongs_to":[{"name":"parent","model":"comment","touch":true,"null":true}],"has_many":[{"name":"replies","model":"comment","inverse":"parent"}]}]}"#,
    ),
    (
        "TO_PRODUCTS",
        r#"[{"path":"/products/:id","template":"thing","record":"product"}]"#,
    ),
    (
        "TO_GAMES",
        r#"[{"path":"/games/:id","template":"thing","record":"game"}]"#,
    ),
    (
        "TO_COMMENTS",
        r#"[{"path":"/comments/:id","template":"thing","record":"comment"}]"#,
    ),
    // Products with games, a product that has three, and the pages of a product and of all games.
    (
        "STORE",
        r#"{"models":[{"name":"product","plural":"products","attributes":[{"name":"name","kind":"text"},{"name":"price","kind":"integer"}],"has_many":[{"name":"games","model":"game","inverse":"product","dependent":"destroy"}]},{"name":"game","plural":"games","attributes":[{"name":"name","kind":"text"}],"belongs_to":[{"name":"product","model":"product","touch":true}]}]}"#,
    ),
    (
        "STOCK",
        r#"[{"at":10,"changes":[{"create":"product","values":{"name":"A&B"}}]},{"at":11,"changes":[{"create":"game","values":{"name":"X","product_id":1}},{"create":"game","values":{"name":"Y","product_id":1}},{"create":"game","values":{"name":"Z","product_id":1}}]}]"#,
    ),
    (
        "TO_STORE",
        r#"[{"path":"/products/:id","template":"products/show","record":"product"},{"path":"/games","template":"games/index","list":"game"}]"#,
    ),
    // Four files, and the same with one edited.
    (
        "STORE_VIEWS",
        r#"{"products/show.html.erb":"<% cache product do %><h1><%= product.name %></h1><%= render partial: \"games/game\", collection: product.games, as: :game %><% end %>","games/_game.html.erb":"<% cache game do %><p><%= game.name %></p><% end %>","games/index.html.erb":"<%= render partial: \"games/row\", collection: @games, as: :game, cached: true %>","games/_row.html.erb":"<li><%= game.name %></li>"}"#,
    ),
    (
        "EDITED_VIEWS",
        r#"{"products/show.html.erb":"<% cache product do %><h1><%= product.name %></h1><%= render partial: \"games/game\", collection: product.games, as: :game %><% end %>","games/_game.html.erb":"<% cache game do %><b><%= game.name %></b><% end %>","games/index.html.erb":"<%= render partial: \"games/row\", collection: @games, as: :game, cached: true %>","games/_row.html.erb":"<li><%= game.name %></li>"}"#,
    ),
];

/// A text with the words in it replaced.
fn spelled_out(alloc: Global, text: &str) -> Result<String, Fail> {
    let mut text = String::from_str(alloc, text)?;
    for (word, meaning) in &WORDS {
        let word = format!(in alloc; ":{word},")?;
        let meaning = format!(in alloc; ":{meaning},")?;
        text = text
            .as_str()
            .replace(alloc, word.as_str(), meaning.as_str())?;
    }
    Ok(text)
}

/// The rows of a table in JSON.
pub fn rows(table: &Value) -> Result<&[Value], Fail> {
    let rows = table.as_array().ok_or("no table")?;
    Ok(rows.as_slice())
}

/// The text at a place of a row.
pub fn text_in(row: &Value, at: usize) -> Result<&str, Fail> {
    let text = row.get(at).ok_or("a short row")?;
    Ok(text.as_str().ok_or("no text")?)
}

/// The JSON value that a text is.
pub fn json(alloc: Global, text: &str) -> Result<Value, Fail> {
    let json = json_of(alloc, text.as_bytes()).ok().ok_or("no memory")?;
    Ok(json.ok_or("no JSON")?)
}

/// Sees that a bundle answers so.
pub fn check(
    rt: &(impl Abort + AllocGlobal),
    bundle: &Value,
    path: &str,
    wanted: &str,
) -> Result<(), Fail> {
    let alloc = rt.alloc();
    let folder = MemFolder::new(Vec::new(alloc), Vec::new(alloc));
    let found = answer(alloc, bundle, folder, path).ok().ok_or("no memory")?;
    assert_eq!(rt; found.as_slice(), wanted.as_bytes(), "in place of {wanted}");
    Ok(())
}

/// Sees that each bundle of a table in JSON answers as its row says.
pub fn check_rows(rt: &(impl Abort + AllocGlobal), table: &str) -> Result<(), Fail> {
    let text = spelled_out(rt.alloc(), table)?;
    let table = json(rt.alloc(), text.as_str())?;
    for row in rows(&table)? {
        let bundle = row.get(0).ok_or("no bundle")?;
        check(rt, bundle, text_in(row, 1)?, text_in(row, 2)?)?;
    }
    Ok(())
}
