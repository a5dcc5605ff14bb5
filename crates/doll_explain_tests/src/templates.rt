//! Faults of templates: what is said of each first, and the whole text of some.

use crate::texts::{first_line, of_template};
use doll_explain::Answer;
use std::test::Fail;

/// Templates of a product's page, as JSON writes them, with the first lines of their explanations.
const REFUSED: [(&str, &str); 11] = [
    (
        "<p>\\n<%= product.name",
        "products/show.html.erb:2:1: this tag isn't closed",
    ),
    (
        "é <%- 1 %>",
        "products/show.html.erb:1:3: `<%-` opens no tag here",
    ),
    (
        "\\r\\n\\t<% end %>",
        "products/show.html.erb:2:2: no open block has a place for this",
    ),
    (
        "€<% if product.name %>",
        "products/show.html.erb:1:2: this block isn't closed",
    ),
    (
        "<%= product.name ? 1 : 2 %>",
        "products/show.html.erb:1:18: the tag can't go on with this",
    ),
    (
        "😀<%= product. %>",
        "products/show.html.erb:1:15: the tag can't go on with this",
    ),
    ("<%= 'a %>", "products/show.html.erb:1:5: this isn't closed"),
    (
        "<%= 9999999999999999999 %>",
        "products/show.html.erb:1:5: this number is too large",
    ),
    (
        "<%= render \\\"row\\\" %>",
        "products/show.html.erb:1:1: the partial that this tag names isn't there",
    ),
    (
        "\",\"products/_row.html.erb\":\"<%= render \\\"row\\\" %>",
        "products/_row.html.erb: this template leads back to itself",
    ),
    (
        "\",\"A.html.erb\":\"",
        "A.html.erb: this isn't the name of a template",
    ),
];

/// Those with faults of types.
const UNTYPED: [(&str, &str); 6] = [
    (
        "<p>\\n\\t<%= prodct.name %>",
        "products/show.html.erb:2:2: `prodct` isn't a variable here",
    ),
    (
        "<%= product.colour %>",
        "products/show.html.erb:1:1: `colour` isn't something that can be asked of this value",
    ),
    (
        "<%= product.price + product.name %>",
        "products/show.html.erb:1:1: the values don't fit the operator or the question",
    ),
    (
        "<%= product %>",
        "products/show.html.erb:1:1: a record or a list can't be printed",
    ),
    (
        "<% product.each do |x| %><% end %>",
        "products/show.html.erb:1:1: this isn't a list",
    ),
    (
        "<% cache product.games do %><% end %>",
        "products/show.html.erb:1:1: this can't be a part of a key",
    ),
];

/// Those with faults of the lint.
const UNCLEAN: [(&str, &str); 4] = [
    (
        "<% product.games.each do |g| %>\\n<% cache g do %>\\n <%= g.product.name %><% end %><% end %>",
        "products/show.html.erb:3:2: `g.product` isn't covered by this block's key",
    ),
    (
        "<% cache product do %>\\n<%= product.games.size %><% end %>",
        "products/show.html.erb:2:1: `games` isn't covered by this block's key: its records don't touch the one in the key",
    ),
    (
        "<% cache product do %>a<% end %>\\n<% cache product do %>b<% end %>",
        "products/show.html.erb:2:1: this block may have the same key as another one of this template",
    ),
    (
        "<% product.games.each do |g| %><% cache product do %><%= g.name %><% end %><% end %>",
        "products/show.html.erb:1:54: `g` isn't in this block's key",
    ),
];

#[test]
fn a_refused_template_is_told_with_its_place(rt: HostRuntime) -> Result<(), Fail> {
    for (show, wanted) in REFUSED {
        let text = of_template(rt.alloc(), Answer::Refused, show)
            .ok()
            .ok_or("no memory")?;
        assert_eq!(rt; first_line(text.as_str()), wanted.as_bytes());
    }
    Ok(())
}

#[test]
fn a_fault_of_types_is_told_with_its_place(rt: HostRuntime) -> Result<(), Fail> {
    for (show, wanted) in UNTYPED {
        let text = of_template(rt.alloc(), Answer::Untyped, show)
            .ok()
            .ok_or("no memory")?;
        assert_eq!(rt; first_line(text.as_str()), wanted.as_bytes());
    }
    Ok(())
}

#[test]
fn a_fault_of_the_lint_is_told_with_its_place(rt: HostRuntime) -> Result<(), Fail> {
    for (show, wanted) in UNCLEAN {
        let text = of_template(rt.alloc(), Answer::Unclean, show)
            .ok()
            .ok_or("no memory")?;
        assert_eq!(rt; first_line(text.as_str()), wanted.as_bytes());
    }
    Ok(())
}

/// The line of the block's tag stands above that of the fault.
const NO_TOUCH: &str =
    "products/show.html.erb:3:3: `games` isn't covered by this block's key: its records don't touch the one in the key
    1 | <% cache product do %>
    3 |   <%= product.games.size %> games
      |               ^^^^^
A record that comes, changes or goes leaves the key as it is, so the fragment goes stale.
Give their `belongs_to` a `\"touch\": true`, or go over the list outside of the block, each with a key of its own.
";

/// No character of a template controls a terminal.
const HIDDEN: &str = "products/show.html.erb:1:3: `prodct` isn't a variable here
    1 | \\u{1b}\\u{202e}<%= prodct %>é
      |                   ^^^^^^
A page has the record or the list of its route and the route's `params`.
A partial has what `render` hands it: `render \"row\", product: product`.
";

#[test]
fn the_stretch_is_underlined(rt: HostRuntime) -> Result<(), Fail> {
    let show = "<% cache product do %>\\n\\n  <%= product.games.size %> games\\n<% end %>";
    let text = of_template(rt.alloc(), Answer::Unclean, show)
        .ok()
        .ok_or("no memory")?;
    assert_eq!(rt; text.as_bytes(), NO_TOUCH.as_bytes());
    Ok(())
}

#[test]
fn what_controls_a_terminal_is_escaped(rt: HostRuntime) -> Result<(), Fail> {
    let show = "\\u001b\\u202e<%= prodct %>é";
    let text = of_template(rt.alloc(), Answer::Untyped, show)
        .ok()
        .ok_or("no memory")?;
    assert_eq!(rt; text.as_bytes(), HIDDEN.as_bytes());
    Ok(())
}
