//! Small templates with the faults that they have. Places are counted from the first byte of the text.

use crate::typing::told;
use std::test::Fail;

/// A product's page, with a text q.
const ROUTE: &str =
    r#"[{"path":"/products/:id","template":"a/b","record":"product","params":["q"]}]"#;

/// Pages that render nothing, each with its faults.
const PAGES: [(&str, &str); 18] = [
    // Nil fits every type, and so do its parts and its items.
    (
        "<%= product.price + nil %><%= nil + nil %><%= nil.a.b %><% if nil < q %><% end %><% nil.each do |x| %><%= x.a %><% end %>",
        "",
    ),
    // A test and `nil?` take any type, an inner name hides an outer one, a key takes a text alone.
    (
        "<% if !product.games %><% end %><%= product.nil? %><% cache [product, q, :list] do %><% product.games.each do |q| %><%= q.product.name %><% end %><%= q + \"!\" %><% end %>",
        "",
    ),
    ("x<%= shop %>", "a/b:1: UnknownVariable shop\n"),
    ("<%== product.colour %>", "a/b:0: UnknownStep colour\n"),
    ("<%= product.name.id %>", "a/b:0: UnknownStep id\n"),
    // An expression has its first fault alone: those of its parts from left to right.
    (
        "<%= product.colour + shop %>",
        "a/b:0: UnknownStep colour\n",
    ),
    ("<%= product.price + q %>", "a/b:0: Mismatch\n"),
    ("<%= product.size %>", "a/b:0: Mismatch\n"),
    ("<%= -q %>", "a/b:0: Mismatch\n"),
    ("<%= true < false %>", "a/b:0: Mismatch\n"),
    ("<%= product == product.games %>", "a/b:0: Mismatch\n"),
    // The faults of a page by their places.
    (
        "<%= product %><%= product.games %><%= shop %>",
        "a/b:0: NotPrintable\na/b:14: NotPrintable\na/b:34: UnknownVariable shop\n",
    ),
    // The test of an `elsif` is told at the `elsif`.
    (
        "<% if product %>a<% elsif shop %>b<% end %>",
        "a/b:17: UnknownVariable shop\n",
    ),
    (
        "<% product.games.each do |g| %><%= g.colour %><% end %>",
        "a/b:31: UnknownStep colour\n",
    ),
    // What goes round a faulty list isn't typed.
    (
        "<% q.each do |x| %><%= shop %><% end %>",
        "a/b:0: NotList\n",
    ),
    // What a key with a fault goes round is typed.
    (
        "<% cache product.games do %><%= shop %><% end %>",
        "a/b:0: BadKey\na/b:28: UnknownVariable shop\n",
    ),
    (
        "<% cache [product, product.name] do %><% end %>",
        "a/b:0: BadKey\n",
    ),
    // Of one tag and kind the faults go by name; a part of a key has its expression's fault.
    (
        "<% cache [shop, aisle] do %><% end %>",
        "a/b:0: UnknownVariable aisle\na/b:0: UnknownVariable shop\n",
    ),
];

#[test]
fn pages_have_these_faults(rt: HostRuntime) -> Result<(), Fail> {
    for (page, wanted) in PAGES {
        let files = [("a/b.html.erb", page)];
        let told = told(rt.alloc(), ROUTE, &files).ok_or("not read")?;
        assert_eq!(rt; told.as_slice(), wanted.as_bytes(), "{page}");
    }
    Ok(())
}

/// Pages and the partial p, each with their faults.
const PARTIALS: [(&str, &str, &str); 7] = [
    // No page reaches the partial.
    ("<%= q %>", "<%= shop %>", ""),
    (
        "<%= render \"a/p\", n: product.price %>",
        "<%= n + 1 %>",
        "",
    ),
    // The partial is typed with the types of its locals, and with no other variable.
    (
        "<%= render \"a/p\", n: 1 %><%= render \"a/p\", n: q %>",
        "x<%= n + 1 %>",
        "a/_p:1: Mismatch\n",
    ),
    (
        "<%= render \"a/p\", n: 1 %>",
        "<%= product.name %>",
        "a/_p:0: UnknownVariable product\n",
    ),
    // A fault that stands under two typings is told once.
    (
        "<%= render \"a/p\", n: 1 %><%= render \"a/p\", n: q %>",
        "<%= n.colour %>",
        "a/_p:0: UnknownStep colour\n",
    ),
    // What is rendered with a faulty local or list isn't typed.
    (
        "<%= render \"a/p\", n: shop, m: product.size %>",
        "<%= shop %>",
        "a/b:0: UnknownVariable shop\na/b:0: Mismatch\n",
    ),
    (
        "<%= render partial: \"a/p\", collection: product %>",
        "<%= shop %>",
        "a/b:0: NotList\n",
    ),
];

#[test]
fn partials_have_these_faults(rt: HostRuntime) -> Result<(), Fail> {
    for (page, partial, wanted) in PARTIALS {
        let files = [("a/b.html.erb", page), ("a/_p.html.erb", partial)];
        let told = told(rt.alloc(), ROUTE, &files).ok_or("not read")?;
        assert_eq!(rt; told.as_slice(), wanted.as_bytes(), "{page}");
    }
    Ok(())
}
