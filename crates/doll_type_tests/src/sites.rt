//! Sites of several pages.

use crate::typing::{MODELS, told, typed};
use doll_types::Reached;
use std::test::Fail;

/// A product's page, one of all games and a comment's page.
const ROUTES: &str =
    r#"[{"path":"/products/:id","template":"products/show","record":"product"},{"path":"/games","template":"games/index","list":"game"},{"path":"/comments/:id","template":"comments/show","record":"comment"}]"#;

/// Their files in the order of their names.
const FILES: [(&str, &str); 5] = [
    (
        "comments/show.html.erb",
        "<% cache [comment, comment.parent.parent] do %><%= comment.parent.parent.body %><%= comment.replies.size %><% end %>",
    ),
    (
        "games/_game.html.erb",
        "<% cache game do %><p><%= game.name %></p><% end %>",
    ),
    ("games/_row.html.erb", "<li><%= game.name %></li>"),
    (
        "games/index.html.erb",
        "<%= render partial: \"games/row\", collection: @games, as: :game, cached: true %>",
    ),
    (
        "products/show.html.erb",
        "<% cache product do %><h1><%= product.name %></h1><%= render partial: \"games/game\", collection: product.games, as: :game %><% end %>",
    ),
];

/// How often each file's template is reached.
fn times_reached(reached: &[Reached]) -> [usize; 5] {
    let mut times = [0usize; 5];
    for one in reached {
        if let Some(count) = times.get_mut(one.template) {
            *count = count.saturating_add(1);
        }
    }
    times
}

#[test]
fn a_site_is_typed_with_what_its_pages_reach(rt: HostRuntime) -> Result<(), Fail> {
    let typed = typed(rt.alloc(), MODELS, ROUTES, &FILES).ok_or("not read")?;
    let typed = typed.ok().ok_or("not typed")?;
    assert_eq!(rt; times_reached(typed.reached()), [1; 5]);
    assert_eq!(rt; typed.calls().len(), 5);
    Ok(())
}

#[test]
fn a_route_without_its_template_is_told_at_its_start(rt: HostRuntime) -> Result<(), Fail> {
    let told = told(rt.alloc(), ROUTES, &FILES[1..4]).ok_or("not read")?;
    let wanted = b"comments/show:0: MissingTemplate\nproducts/show:0: MissingTemplate\n";
    assert_eq!(rt; told.as_slice(), wanted.as_slice());
    Ok(())
}
