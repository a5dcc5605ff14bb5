//! Sets of a few files, with their digests and their refusals.

use doll_base::ViewFile;
use doll_digest::{Md5Hash, Registry, WeakHash};
use doll_set::{SetFault, TemplateSet};
use doll_text::{Memory, Name, Text};
use std::alloc::Global;
use std::test::Fail;

/// Files, each a name and a source. The pages render a partial each.
const GAMES: [(&str, &str); 4] = [
    (
        "products/show.html.erb",
        "<% cache product do %><h1><%= product.name %></h1><%= render partial: \"games/game\", collection: product.games, as: :game %><% end %>",
    ),
    (
        "games/_game.html.erb",
        "<% cache game do %><p><%= game.name %></p><% end %>",
    ),
    (
        "games/index.html.erb",
        "<%= render partial: \"games/row\", collection: @games, as: :game, cached: true %>",
    ),
    ("games/_row.html.erb", "<li><%= game.name %></li>"),
];

/// The digests of these in the order of their names, by md5sum over the framed texts.
const DIGESTS: [&[u8; 32]; 4] = [
    b"0304131b258356aeb92c123b08c6289e",
    b"f5c04cf3f922a6a50d2f8861f58b31cd",
    b"2aa6eca5eb7a76f69abecf2cfd4ffe3c",
    b"df3186c8d8155e233f46cdc6b39c9774",
];

fn file(alloc: Global, name: &str, source: &str) -> Result<ViewFile, Memory> {
    Ok(ViewFile {
        name: Name::from_bytes(alloc, name.as_bytes())?,
        source: Text::from_bytes(alloc, source.as_bytes())?,
    })
}

fn files(alloc: Global, pairs: &[(&str, &str)]) -> Result<Vec<ViewFile>, Memory> {
    let mut files = Vec::new(alloc);
    for (name, source) in pairs {
        files.push(file(alloc, name, source)?)?;
    }
    Ok(files)
}

/// The set of these files.
fn set(alloc: Global, pairs: &[(&str, &str)]) -> Result<TemplateSet, SetFault> {
    let files = files(alloc, pairs)?;
    let mut registry = Registry::new(alloc, Md5Hash);
    TemplateSet::read(alloc, files.as_slice(), &mut registry)
}

#[test]
fn digests_are_those_worked_by_hand(rt: HostRuntime) -> Result<(), Fail> {
    let set = set(rt.alloc(), &GAMES).ok().ok_or("refused")?;
    for number in 0..4 {
        let digest = set.digest(number).ok_or("no digest")?;
        assert_eq!(rt; digest.hex(), *DIGESTS[number]);
    }
    Ok(())
}

#[test]
fn a_partial_that_is_not_there_is_told_at_its_tag(rt: HostRuntime) -> Result<(), Fail> {
    let pairs = [("a/b.html.erb", "x<%= render \"x/y\" %>")];
    match set(rt.alloc(), &pairs) {
        Err(SetFault::MissingPartial { name, at }) => {
            assert_eq!(rt; name.as_bytes(), b"a/b".as_slice());
            assert_eq!(rt; at, 1);
            Ok(())
        }
        _ => Err(Fail::from("no missing partial")),
    }
}

#[test]
fn partials_that_render_each_other_are_a_cycle(rt: HostRuntime) -> Result<(), Fail> {
    let pairs = [
        ("a/_p.html.erb", "<%= render \"q\" %>"),
        ("a/_q.html.erb", "<%= render \"a/p\" %>"),
    ];
    match set(rt.alloc(), &pairs) {
        Err(SetFault::Cycle { names }) => {
            assert_eq!(rt; names.as_slice().len(), 2);
            Ok(())
        }
        _ => Err(Fail::from("no cycle")),
    }
}

#[test]
fn a_changed_partial_changes_the_digests_above_it_alone(rt: HostRuntime) -> Result<(), Fail> {
    let mut changed = GAMES;
    changed[1].1 = "<% cache game do %><b><%= game.name %></b><% end %>";
    let set = set(rt.alloc(), &changed).ok().ok_or("refused")?;
    let same = [false, true, true, false];
    for number in 0..4 {
        let digest = set.digest(number).ok_or("no digest")?;
        assert_eq!(rt; digest.hex() == *DIGESTS[number], same[number]);
    }
    Ok(())
}

#[test]
fn two_texts_with_one_hash_are_both_told(rt: HostRuntime) -> Result<(), Fail> {
    let files = files(rt.alloc(), &[("a.html.erb", "a"), ("b.html.erb", "b")])
        .ok()
        .ok_or("no memory")?;
    let mut registry = Registry::new(rt.alloc(), WeakHash);
    match TemplateSet::read(rt.alloc(), files.as_slice(), &mut registry) {
        Err(SetFault::Clash { old, new }) => {
            assert_eq!(rt; old.as_bytes(), b"1:a,".as_slice());
            assert_eq!(rt; new.as_bytes(), b"1:b,".as_slice());
            Ok(())
        }
        _ => Err(Fail::from("no clash")),
    }
}
