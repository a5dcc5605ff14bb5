//! Pages and refusals of bundles with one template, worked by hand.

use crate::tables::{check, check_rows, json, rows, text_in};
use std::test::Fail;

/// A JSON array of bundles, each with a path and the answer.
const BUNDLES: &str = r##"[
[{"schema":PRODUCT,"routes":TO_PRODUCTS,"views":{"thing.html.erb":"Hello <%= product.name %>"},"commits":[{"at":10,"changes":[{"create":"product","values":{"name":"A&B"}}]}]},"/products/1?x=1","Hello A&amp;B"],
[{"schema":PRODUCT,"routes":TO_PRODUCTS,"views":{"thing.html.erb":""},"commits":[{"changes":[{"create":"product","values":{}}]}]},"/products/2","unknown"],
[{"schema":PRODUCT,"routes":TO_PRODUCTS,"views":{"thing.html.erb":""},"commits":[{"changes":[{"create":"product","values":{}}]}]},"/products/01","unknown"],
[{"schema":PRODUCT,"routes":TO_PRODUCTS,"views":{"thing.html.erb":""}},"/products/1","unknown"],
[{"schema":{"models":[{"name":"Product","plural":"products","attributes":[]}]},"routes":TO_PRODUCTS,"views":{"thing.html.erb":""}},"/","bundle schema 0: BadForm"],
[{"schema":{"models":[{"name":"product","plural":"products","attributes":[{"name":"name","kind":"float"}]}]},"routes":TO_PRODUCTS,"views":{"thing.html.erb":""}},"/","bundle schema 0: UnknownKind"],
[{"schema":{"models":[{"name":"product","plural":"products","attributes":[]},{"name":"thing","plural":"products","attributes":[]}]},"routes":TO_PRODUCTS,"views":{"thing.html.erb":""}},"/","bundle schema 1: DuplicateName"],
[{"schema":{"models":[{"name":"product","plural":"products","attributes":[]},{"name":"game","plural":"games","attributes":[],"belongs_to":[{"name":"owner","model":"shop"}]}]},"routes":TO_PRODUCTS,"views":{"thing.html.erb":""}},"/","bundle schema 1: UnknownModel"],
[{"schema":{"models":[{"name":"game","plural":"games","attributes":[],"belongs_to":[{"name":"product","model":"product"}]},{"name":"product","plural":"products","attributes":[],"has_many":[{"name":"games","model":"game","inverse":"owner"}]}]},"routes":TO_PRODUCTS,"views":{"thing.html.erb":""}},"/","bundle schema 1: BadInverse"],
[{"schema":PRODUCT,"routes":[{"path":"/products/:id","template":"thing","record":7}],"views":{"thing.html.erb":""}},"/","bundle routes 0: BadForm"],
[{"schema":PRODUCT,"routes":[{"path":"/products/:id","template":"a/b/c/d/e/f/g/h/i","record":"product"}],"views":{"a/b/c/d/e/f/g/h/i.html.erb":""}},"/","bundle routes 0: BadForm"],
[{"schema":PRODUCT,"routes":[{"path":"/a/B_1/:id","template":"a/b/c/d/e/f/g/_h","record":"product"}],"views":{"a/b/c/d/e/f/g/_h.html.erb":"h"}},"/","bundle routes 0: BadPath"],
[{"schema":PRODUCT,"routes":[{"path":"/a/b_1/:id","template":"a/b/c/d/e/f/g/_h","record":"product"}],"views":{"a/b/c/d/e/f/g/_h.html.erb":"h"},"commits":[{"changes":[{"create":"product","values":{}}]}]},"/a/b_1/1","h"],
[{"schema":PRODUCT,"routes":TO_GAMES,"views":{"thing.html.erb":""}},"/","bundle routes 0: UnknownModel"],
[{"schema":PRODUCT,"routes":TO_PRODUCTS,"views":{"thing.html.erb":7}},"/","bundle views 0: BadForm"],
[{"schema":PRODUCT,"routes":[],"views":{"thing.html.erb":""}},"/","unknown"],
[{"schema":PRODUCT,"routes":TO_PRODUCTS,"views":{"thing.html.erb":"","other.html.erb":""}},"/","unknown"],
[{"schema":PRODUCT,"routes":TO_PRODUCTS,"views":{"thing.html.erb":""},"commits":[],"settings":{},"script":[]},"/","unknown"],
[{"schema":PRODUCT,"routes":7,"script":7},"/","bundle routes 0: BadForm"],
[{"schema":PRODUCT,"routes":TO_PRODUCTS,"views":{"thing.html.erb":""},"commits":null},"/","bundle commits 0: BadForm"],
[{"schema":PRODUCT,"routes":TO_PRODUCTS,"views":{"thing.html.erb":""},"commits":[{"at":1,"changes":[]},{"at":"2","changes":[]}]},"/","bundle commits 1: BadForm"],
[{"schema":PRODUCT,"routes":TO_PRODUCTS,"views":{"thing.html.erb":""},"commits":[{"at":10,"changes":[{"create":"product","values":{"name":"A"}}]},{"at":11,"changes":[{"create":"product","values":{"name":1}}]}]},"/","bundle commits 1: WrongKind"],
[{"schema":SHOP,"routes":TO_GAMES,"views":{"thing.html.erb":""},"commits":[{"changes":[{"touch":"game","id":9}]}]},"/","bundle commits 0: MissingRow"],
[{"schema":SHOP,"routes":TO_GAMES,"views":{"thing.html.erb":""},"commits":[{"changes":[{"touch":"toy","id":9}]}]},"/","bundle commits 0: UnknownModel"],
[{"schema":SHOP,"routes":TO_GAMES,"views":{"thing.html.erb":""},"commits":[{"changes":[{"create":"game","values":{"product_id":1,"size":2}}]}]},"/","bundle commits 0: BadParent"],
[{"schema":SHOP,"routes":TO_GAMES,"views":{"thing.html.erb":""},"commits":[{"changes":[{"create":"game","values":{"aim":2,"product_id":1}}]}]},"/","bundle commits 0: UnknownAttribute"],
[{"schema":SHOP,"routes":TO_GAMES,"views":{"thing.html.erb":""},"commits":[{"changes":[{"create":"game","values":{"name":"X"}}]}]},"/","bundle commits 0: NullRefused"],
[{"schema":SHOP,"routes":TO_PRODUCTS,"views":{"thing.html.erb":""},"commits":[{"at":1,"changes":[{"create":"product","values":{}}]},{"changes":[{"destroy":"product","id":1}]},{"changes":[{"create":"game","values":{"product_id":1}}]}]},"/","bundle commits 2: BadParent"],
[{"schema":PRODUCT,"routes":TO_PRODUCTS,"views":{"thing.html.erb":"<%= product.updated_at %>"},"commits":[{"changes":[{"create":"product","values":{}}]},{"at":80,"changes":[{"create":"product","values":{}}]},{"changes":[{"create":"product","values":{}}]}]},"/products/1","77"],
[{"schema":PRODUCT,"routes":TO_PRODUCTS,"views":{"thing.html.erb":"<%= product.updated_at %>"},"commits":[{"changes":[{"create":"product","values":{}}]},{"at":77,"changes":[{"create":"product","values":{}}]},{"changes":[{"create":"product","values":{}}]}]},"/products/2","78"],
[{"schema":PRODUCT,"routes":TO_PRODUCTS,"views":{"thing.html.erb":"<%= product.updated_at %>"},"commits":[{"changes":[{"create":"product","values":{}}]},{"at":80,"changes":[{"create":"product","values":{}}]},{"changes":[{"create":"product","values":{}}]}]},"/products/3","90"],
[{"schema":SHOP,"routes":TO_PRODUCTS,"views":{"thing.html.erb":"<%= product.updated_at %><% product.games.each do |g| %> <%= g.name %> <%= g.updated_at %><% end %>"},"commits":[{"at":10,"changes":[{"create":"product","values":{}}]},{"at":11,"changes":[{"create":"game","values":{"name":"X","product_id":1}},{"create":"game","values":{"name":"Y","product_id":1}},{"create":"game","values":{"name":"Z","product_id":1}}]},{"at":13,"changes":[{"create":"product","values":{}}]},{"at":14,"changes":[{"update":"game","id":3,"values":{"product_id":2}}]}]},"/products/1","14 X 11 Y 11"],
[{"schema":FORUM,"routes":TO_COMMENTS,"views":{"thing.html.erb":"[<%= comment.parent.body %>][<%= comment.parent_id.nil? %>]"},"commits":[{"at":10,"changes":[{"create":"comment","values":{"body":"c"}}]}]},"/comments/1","[][true]"],
[{"schema":FORUM,"routes":TO_COMMENTS,"views":{"thing.html.erb":"<%= comment.updated_at %> <%= comment.parent.updated_at %>"},"commits":[{"at":10,"changes":[{"create":"comment","values":{}},{"create":"comment","values":{"parent_id":1}},{"update":"comment","id":1,"values":{"parent_id":2}}]},{"at":50,"changes":[{"touch":"comment","id":2}]}]},"/comments/1","50 50"],
[{"schema":SHOP,"routes":TO_GAMES,"views":{"thing.html.erb":"<%= game.name %>"},"commits":[{"at":1,"changes":[{"create":"product","values":{}},{"create":"game","values":{"name":"X","product_id":1}},{"create":"product","values":{}},{"create":"game","values":{"name":"Y","product_id":2}}]},{"at":2,"changes":[{"destroy":"product","id":1}]}]},"/games/1","unknown"],
[{"schema":SHOP,"routes":TO_GAMES,"views":{"thing.html.erb":"<%= game.name %>"},"commits":[{"at":1,"changes":[{"create":"product","values":{}},{"create":"game","values":{"name":"X","product_id":1}},{"create":"product","values":{}},{"create":"game","values":{"name":"Y","product_id":2}}]},{"at":2,"changes":[{"destroy":"product","id":1}]}]},"/games/2","Y"],
[{"schema":SHOP,"routes":TO_PRODUCTS,"views":{"thing.html.erb":""},"commits":[{"at":1,"changes":[{"create":"product","values":{}},{"create":"note","values":{"product_id":1}}]},{"at":2,"changes":[{"destroy":"product","id":1}]}]},"/","bundle commits 1: Restricted"],
[{"schema":FORUM,"routes":TO_COMMENTS,"views":{"thing.html.erb":""},"commits":[{"at":1,"changes":[{"create":"comment","values":{}},{"create":"comment","values":{"parent_id":1}}]},{"at":2,"changes":[{"destroy":"comment","id":1}]}]},"/","bundle commits 1: Restricted"]
]"##;

/// The bundle of the templates below, before its template: a product with two games in a shop.
const BEFORE: &str = r#"{"schema":{"models":[
{"name":"shop","plural":"shops","attributes":[{"name":"name","kind":"text"}],"has_many":[{"name":"products","model":"product","inverse":"shop"}]},
{"name":"product","plural":"products","attributes":[{"name":"name","kind":"text"},{"name":"price","kind":"integer"},{"name":"sold","kind":"boolean"}],"belongs_to":[{"name":"shop","model":"shop","touch":true,"null":true}],"has_many":[{"name":"games","model":"game","inverse":"product","dependent":"destroy"}]},
{"name":"game","plural":"games","attributes":[{"name":"name","kind":"text"}],"belongs_to":[{"name":"product","model":"product","touch":true}]}]},
"commits":[
{"at":10,"changes":[{"create":"shop","values":{"name":"S<1>"}},{"create":"product","values":{"name":"A&B","price":4,"sold":false,"shop_id":1}},{"create":"product","values":{}},{"create":"game","values":{"name":"X","product_id":1}},{"create":"game","values":{"name":"Y","product_id":1}}]},
{"at":12,"changes":[{"touch":"game","id":2}]}],
"routes":[{"path":"/products/:id","template":"thing","record":"product"}],"views":{"thing.html.erb":"#;

/// What stands behind its template.
const BEHIND: &str = "}}";

/// A JSON array of templates, each with the page of the first product.
const TEMPLATES: &str = r##"[
["<%= 2 + 3 * -4 %> <%= (2 + 3) * -4 %> <%= 1 - 2 - 3 %> <%= 3 - -2 %>", "-10 -20 -4 5"],
["<%= \"a\" < \"b\" && !nil %> <%= true || false && false %> <%= !1 == false %> <%= 1 < 2 == true %>", "true true true true"],
["[<%= nil || 7 %>][<%= 1 || 2 %>][<%= false && 1 %>][<%= nil && 1 %>][<%= 1 && 2 %>]", "[7][1][false][][2]"],
["<%= 1 == 1 %> <%= 1 != 1 %> <%= \"1\" == 1 %> <%= product == product.games.each %>", "bundle views 0: BadTemplate"],
["<%= 1 == 1 %> <%= 1 != 1 %> <%= \"1\" == 1 %> <%= product == product.shop %> <%= nil == nil %>", "true false false false true"],
["<%= 2 <= 2 %> <%= 2 < 2 %> <%= 2 >= 3 %> <%= 3 > 2 %> <%= \"b\" >= \"ab\" %> <%= nil < 3 %>", "true false false true true false"],
["[<%= 9223372036854775807 + 1 %>][<%= -9223372036854775807 - 1 %>][<%= 4611686018427387904 * 2 %>][<%= -(0 - 9223372036854775807 - 1) %>]", "[][-9223372036854775808][][]"],
["<%= \"<\" + product.name %> [<%= 1 + \"1\" %>] [<%= -nil %>]", "&lt;A&amp;B [] []"],
["<%= product.games.size %> <%= product.games.empty? %> <%= product.games.any? %> <%= product.games.nil? %>", "2 false true false"],
["<%= nil.size %> <%= nil.empty? %> <%= nil.any? %> <%= nil.nil? %> [<%= product.name.size %>]", "0 true false true []"],
["<%= product.id %> <%= product.updated_at %> <%= product.price %> <%= product.sold %> <%= product.shop_id %> <%= product.shop.name %> <%= product.shop.products.size %>", "1 12 4 false 1 S&lt;1&gt; 1"],
["[<%= product.size_ %>][<%= nothing %>][<%= nothing.name %>][<%= product.shop %>][<%= product.games %>]<%= @product.@name %>", "[][][][][]A&amp;B"],
["<%= 'a\\q\\'\\\\' %> <%== \"\\n\\t\\\"\\\\#\" %> <%= 09223372036854775807 %> [<%= nil %>] <%= true %>", "a\\q&#39;\\ \n\t\"\\# 9223372036854775807 [] true"],
["<%= \"&<>\\\"'\" %> <%== \"&<>\\\"'\" %>", "&amp;&lt;&gt;&quot;&#39; &<>\"'"],
["<% if nil %>1<% elsif product.price > 3 %>2<% elsif true %>3<% else %>4<% end %><% if product.sold %>5<% else %>6<% end %><% if false %>7<% end %>", "26"],
["<% if 0 %>a<% end %><% if \"\" %>b<% end %><% if product.games %>c<% end %>", "abc"],
["<% product.games.each do |g| %>[<%= g.name %> <%= g.product.name %> <%= g.updated_at %>]<% end %>", "[X A&amp;B 10][Y A&amp;B 12]"],
["<% product.games.each do |product| %><%= product.name %><% end %><%= product.name %>", "XYA&amp;B"],
["<% nil || product.games.each do |@g| %><%= g.name %><% end %><% 1 + 2.each do |x| %>y<% end %><% nil.each do |x| %>z<% end %>", "XY"],
["<% cache [product, :a, \"b\", 1, 2, 3, 4, 5] do %>c<% cache (\"x\") do %><%= product.id %><% end %><% end %><% cache \"x\" + a do %>d<% end %><% cache :@b do %>e<% end %>", "c1de"],
["<% if product %>x<%= 1 %><% product.games.each do |d| %>y<% cache d do %><%== d.name %><% end %><% end %><% else %>z<% end %>", "x1yXyY"],
["a<%%= b -%>|<% if true -%>\nX<% end %>", "a<%= b -%>|X"],
["<%= 1 -%>\n\n<%== 2 %><% if 1 -%>\r\n\r\n<% end %><%= 1 -%>\r3", "1\n2\r\n1\r3"],
["a<%# c %>b%><%#-%>\n\n<%%>%><% - 1.each do |x| %><% end %>", "ab%>\n<%>%>"],
["a<%# Template Dependency:  b %>", "a"],
["<%#Template Dependency: a%>", "bundle views 0: MissingPartial"],
["<% if nil %><%= render \"games/game\", a: 1, @b: c.d %><% end %>", "bundle views 0: MissingPartial"],
["<%= render partial: \"a/each\", collection: c, as: :@d, cached: true %>", "bundle views 0: MissingPartial"],
["<%= 1", "bundle views 0: BadTemplate"],
["<%- 1 %>", "bundle views 0: BadTemplate"],
["x<% end %>", "bundle views 0: BadTemplate"],
["<% if true %>", "bundle views 0: BadTemplate"],
["<% if a %><% else %><% elsif b %><% end %>", "bundle views 0: BadTemplate"],
["<% a.b.each do |c| %><% else %><% end %>", "bundle views 0: BadTemplate"],
["<% cache [1, 2, 3, 4, 5, 6, 7, 8, 9] do %><% end %>", "bundle views 0: BadTemplate"],
["<%= render \"a\", n: 1, @n: 2 %>", "bundle views 0: BadTemplate"],
["<%= render \"_a\" %>", "bundle views 0: BadTemplate"],
["<%= render partial: \"a/each\", collection: c %>", "bundle views 0: BadTemplate"]
]"##;

#[test]
fn bundles_answer_as_worked_by_hand(rt: HostRuntime) -> Result<(), Fail> {
    check_rows(&rt, BUNDLES)
}

#[test]
fn templates_give_pages_worked_by_hand(rt: HostRuntime) -> Result<(), Fail> {
    let alloc = rt.alloc();
    let table = json(alloc, TEMPLATES)?;
    for row in rows(&table)? {
        let template = row.get(0).ok_or("no template")?.to_string(alloc)?;
        let bundle = json(
            alloc,
            format!(in alloc; "{BEFORE}{template}{BEHIND}")?.as_str(),
        )?;
        check(&rt, &bundle, "/products/1", text_in(row, 1)?)?;
    }
    Ok(())
}
