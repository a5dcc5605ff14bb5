//! Calls that no page makes, once each where they find memory.

use doll_schema::{Val, Vars, escape};
use doll_text::{Bytes, Copied, Ids, Items, Memory, Name};
use std::alloc::Global;
use std::test::Fail;

fn copied<T: Copied>(alloc: Global, value: &T) -> Result<T, Memory> {
    value.copy(alloc)
}

/// One variable, which holds a list.
fn bound(alloc: Global) -> Result<Vars, Memory> {
    let mut vars = Items::new(alloc);
    let ids = Ids::from_slice(alloc, &[3, 1])?;
    vars.push((Name::from_bytes(alloc, b"a")?, Val::List { model: 0, ids }))?;
    copied(alloc, &vars)
}

/// A text escaped, and copied.
fn escaped(alloc: Global, text: &str) -> Result<Bytes, Memory> {
    let mut bytes = Vec::new(alloc);
    escape(text, &mut bytes)?;
    copied(alloc, &Bytes::from_vec(bytes))
}

#[test]
fn memory_is_found(rt: HostRuntime) -> Result<(), Fail> {
    let alloc = rt.alloc();
    let vars = bound(alloc).ok().ok_or("no memory")?;
    let Some((name, Val::List { ids, .. })) = vars.as_slice().first() else {
        return Err(Fail::from("no list"));
    };
    assert_eq!(rt; name.as_bytes(), b"a".as_slice());
    assert_eq!(rt; ids.as_slice(), [3, 1].as_slice());
    let bytes = escaped(alloc, "A&B").ok().ok_or("no memory")?;
    assert_eq!(rt; bytes.as_slice(), b"A&amp;B".as_slice());
    Ok(())
}
