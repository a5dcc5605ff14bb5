//! Sites of several templates and routes, worked by hand.

use crate::tables::check_rows;
use std::test::Fail;

/// A product and its games: bundles with a path, or the word `digests`, and the answer. The digests are by md5sum over the texts
/// that are hashed; of those of the second site the two that depend on the edited file are others.
const STORES: &str = r##"[
[{"schema":STORE,"commits":STOCK,"routes":TO_STORE,"views":STORE_VIEWS,"files":[]},"/products/1","<h1>A&amp;B</h1><p>X</p><p>Y</p><p>Z</p>"],
[{"schema":STORE,"commits":STOCK,"routes":TO_STORE,"views":STORE_VIEWS,"files":[]},"/games?product=1","<li>X</li><li>Y</li><li>Z</li>"],
[{"schema":STORE,"commits":STOCK,"routes":TO_STORE,"views":STORE_VIEWS,"files":[]},"/products/2","unknown"],
[{"schema":STORE,"commits":STOCK,"routes":TO_STORE,"views":STORE_VIEWS,"files":[]},"/games/1","unknown"],
[{"schema":STORE,"commits":STOCK,"routes":TO_STORE,"views":STORE_VIEWS,"files":[]},"digests","0304131b258356aeb92c123b08c6289e games/_game\nf5c04cf3f922a6a50d2f8861f58b31cd games/_row\n2aa6eca5eb7a76f69abecf2cfd4ffe3c games/index\ndf3186c8d8155e233f46cdc6b39c9774 products/show\n"],
[{"schema":STORE,"commits":STOCK,"routes":TO_STORE,"views":EDITED_VIEWS,"files":[]},"digests","6a1bf5b6d117ae5429486f1ed1f0d7a5 games/_game\nf5c04cf3f922a6a50d2f8861f58b31cd games/_row\n2aa6eca5eb7a76f69abecf2cfd4ffe3c games/index\n1f29d7e8e28c7a5bba24cf419d7a04ad products/show\n"],
[{"schema":STORE,"commits":STOCK,"routes":TO_STORE,"views":EDITED_VIEWS,"files":[]},"/products/1","<h1>A&amp;B</h1><b>X</b><b>Y</b><b>Z</b>"],
[{"schema":STORE,"commits":STOCK,"routes":TO_STORE,"views":{"products/show.html.erb":"Hello <%= product.name %>","games/index.html.erb":""}},"/products/1","Hello A&amp;B"],
[{"schema":STORE,"commits":STOCK,"routes":TO_STORE,"views":{"products/show.html.erb":"","games/index.html.erb":"<% games.each do |g| %><%= g.id %> <% end %><%= games.size %>"}},"/games","1 2 3 3"],
[{"schema":STORE,"commits":[],"routes":TO_STORE,"views":{"products/show.html.erb":"","games/index.html.erb":"<%= @games.size %>"}},"/games","0"],
[{"schema":STORE,"commits":STOCK,"routes":TO_STORE,"views":{"products/show.html.erb":"<%= render \"part\", a: product.name %>","products/_part.html.erb":"[<%= a %>][<%= product.name %>][<%= b %>]","games/index.html.erb":""}},"/products/1","[A&amp;B][][]"],
[{"schema":STORE,"commits":STOCK,"routes":TO_STORE,"views":{"products/show.html.erb":"<%= render \"part\", @a: @product.@name %>","products/_part.html.erb":"[<%= @a %>][<%= a %>]","games/index.html.erb":""}},"/products/1","[A&amp;B][A&amp;B]"],
[{"schema":STORE,"commits":STOCK,"routes":TO_STORE,"views":{"products/show.html.erb":"<%= render \"part\", product: 7, a: product.name %><%= product.id %>","products/_part.html.erb":"<%= product %> <%= a %> ","games/index.html.erb":""}},"/products/1","7 A&amp;B 1"],
[{"schema":STORE,"commits":STOCK,"routes":TO_STORE,"views":{"products/show.html.erb":"<%= render \"games/part\" %>","products/_cell.html.erb":"wrong","games/_part.html.erb":"(<%= render \"cell\", x: 1 %>)","games/_cell.html.erb":"<%= x %>","games/index.html.erb":""}},"/products/1","(1)"],
[{"schema":STORE,"commits":STOCK,"routes":TO_STORE,"views":{"products/show.html.erb":"<%= render partial: \"games/row\", collection: product.games %>","games/_row.html.erb":"[<%= row.name %><%= product.name %>]","games/index.html.erb":""}},"/products/1","[X][Y][Z]"],
[{"schema":STORE,"commits":STOCK,"routes":TO_STORE,"views":{"products/show.html.erb":"<%= render partial: \"games/row\", collection: product.games, as: :@g %>","games/_row.html.erb":"[<%= g.name %><%= row %>]","games/index.html.erb":""}},"/products/1","[X][Y][Z]"],
[{"schema":STORE,"commits":STOCK,"routes":TO_STORE,"views":{"products/show.html.erb":"(<%= render partial: \"games/row\", collection: product.name %>)","games/_row.html.erb":"x","games/index.html.erb":""}},"/products/1","()"]
]"##;

/// Bundles with routes of other forms, refusals, and chains of 16 and 17 templates.
const ROUTES: &str = r##"[
[{"schema":PRODUCT,"views":{"q.html.erb":"[<%= q %>][<%= q.nil? %>]"},"routes":[{"path":"/","template":"q","params":["q"]}]},"/?x=1&q=a+b&q=c","[a b][false]"],
[{"schema":PRODUCT,"views":{"q.html.erb":"[<%= q %>][<%= q.nil? %>]"},"routes":[{"path":"/","template":"q","params":["q"]}]},"/","[][true]"],
[{"schema":PRODUCT,"views":{"q.html.erb":"[<%= q %>][<%= q.nil? %>]"},"routes":[{"path":"/","template":"q","params":["q"]}]},"/?q=","[][false]"],
[{"schema":PRODUCT,"views":{"q.html.erb":"[<%= q %>][<%= q.nil? %>]"},"routes":[{"path":"/","template":"q","params":["q"]}]},"/?q=%3Cb%3E","[&lt;b&gt;][false]"],
[{"schema":PRODUCT,"commits":[{"at":1,"changes":[{"create":"product","values":{"name":"P"}}]}],"views":{"p.html.erb":"<%= product.name %> <%= b %><%= a %>"},"routes":[{"path":"/p/:id","template":"p","record":"product","params":["a","b"]}]},"/p/1?b=2&a=1","P 21"],
[{"schema":PRODUCT,"views":{"a.html.erb":""}},"/","unknown"],
[{"schema":PRODUCT,"views":{"a.html.erb":""},"routes":[{"path":"/a","template":"a"},{"path":"/commit","template":"a"}]},"/a","bundle routes 1: Reserved"],
[{"schema":PRODUCT,"views":{"a.html.erb":"","a_b.html.erb":"","a/c.html.erb":"<%= render \"x/y\" %>"}},"/","bundle views 1: MissingPartial"],
[{"schema":PRODUCT,"views":{"b.html.erb":"<%= render \"a/p\" %>","a.html.erb":"","a/_p.html.erb":"<%= render \"q\" %>","a/_q.html.erb":"<%= render \"a/p\" %>"}},"/","bundle views 1: Cycle"],
[{"schema":PRODUCT,"views":{"a.html.erb":"","b.html.erb":"<% end %>","c.html.erb":"<% end %>"}},"/","bundle views 1: BadTemplate"],
[{"schema":PRODUCT,"views":{"a.html.erb":"<% end %>","b.erb":""}},"/","bundle views 0: BadTemplate"],
[{"schema":PRODUCT,"views":{"a.html.erb":"","b.erb":"<% end %>"}},"/","bundle views 1: BadName"],
[{"schema":PRODUCT,"routes":[{"path":"/","template":"home"}],"views":{"home.html.erb":"<%= render \"p0\" %>","_p0.html.erb":"<%= render \"p1\" %>","_p1.html.erb":"<%= render \"p2\" %>","_p2.html.erb":"<%= render \"p3\" %>","_p3.html.erb":"<%= render \"p4\" %>","_p4.html.erb":"<%= render \"p5\" %>","_p5.html.erb":"<%= render \"p6\" %>","_p6.html.erb":"<%= render \"p7\" %>","_p7.html.erb":"<%= render \"p8\" %>","_p8.html.erb":"<%= render \"p9\" %>","_p9.html.erb":"<%= render \"p10\" %>","_p10.html.erb":"<%= render \"p11\" %>","_p11.html.erb":"<%= render \"p12\" %>","_p12.html.erb":"<%= render \"p13\" %>","_p13.html.erb":"<%= render \"p14\" %>","_p14.html.erb":"x"}},"/","x"],
[{"schema":PRODUCT,"routes":[{"path":"/","template":"home"}],"views":{"home.html.erb":"<%= render \"p0\" %>","_p0.html.erb":"<%= render \"p1\" %>","_p1.html.erb":"<%= render \"p2\" %>","_p2.html.erb":"<%= render \"p3\" %>","_p3.html.erb":"<%= render \"p4\" %>","_p4.html.erb":"<%= render \"p5\" %>","_p5.html.erb":"<%= render \"p6\" %>","_p6.html.erb":"<%= render \"p7\" %>","_p7.html.erb":"<%= render \"p8\" %>","_p8.html.erb":"<%= render \"p9\" %>","_p9.html.erb":"<%= render \"p10\" %>","_p10.html.erb":"<%= render \"p11\" %>","_p11.html.erb":"<%= render \"p12\" %>","_p12.html.erb":"<%= render \"p13\" %>","_p13.html.erb":"<%= render \"p14\" %>","_p14.html.erb":"<%= render \"p15\" %>","_p15.html.erb":"x"}},"/","bundle views 16: DepthOver"],
[{"schema":[]},"/","bundle schema 0: BadForm"],
[{"schema":PRODUCT,"other":1},"/","bundle json 0: BadForm"],
[{"views":{}},"/","bundle json 0: BadForm"],
[[],"/","bundle json 0: BadForm"]
]"##;

#[test]
fn sites_answer_as_worked_by_hand(rt: HostRuntime) -> Result<(), Fail> {
    check_rows(&rt, STORES)?;
    check_rows(&rt, ROUTES)
}
