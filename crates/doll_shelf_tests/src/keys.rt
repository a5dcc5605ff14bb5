//! The text of a key.

use doll_digest::Digest;
use doll_key::{Component, KeyParts, key_text, read_key};
use doll_schema::Value;
use doll_text::{Items, Memory, Name, Text};
use std::alloc::Global;
use std::test::Fail;

/// A key of a record, no record, a literal and four values.
fn parts(alloc: Global) -> Result<KeyParts, Memory> {
    let mut components = Items::new(alloc);
    components.push(Component::Record {
        plural: Name::from_bytes(alloc, b"products")?,
        id: Some(1),
    })?;
    components.push(Component::Record {
        plural: Name::from_bytes(alloc, b"games")?,
        id: None,
    })?;
    components.push(Component::Literal(Text::from_bytes(alloc, b"a b")?))?;
    components.push(Component::Scalar(Value::Int(-7)))?;
    components.push(Component::Scalar(Value::Bool(true)))?;
    components.push(Component::Scalar(Value::Nil))?;
    components.push(Component::Scalar(Value::Text(Text::from_bytes(alloc, b"x/~")?)))?;
    Ok(KeyParts {
        path: Name::from_bytes(alloc, b"products/show")?,
        digest: Digest::from_bytes([0; 16]),
        components,
    })
}

#[test]
fn a_text_has_each_component_in_its_spelling(rt: HostRuntime) -> Result<(), Fail> {
    let parts = parts(rt.alloc()).ok().ok_or("no memory")?;
    let text = key_text(rt.alloc(), &parts).ok().ok_or("no memory")?;
    assert!(rt;
        text.as_bytes()
            == b"views/products/show:00000000000000000000000000000000/products/1/games/nil/:a%20b/=-7/=true/=nil/='x%2F%7E".as_slice()
    );
    Ok(())
}

/// Whether a text is read as the parts whose text it is.
fn is_read(alloc: Global, text: &[u8]) -> Result<bool, Memory> {
    let Some(parts) = read_key(alloc, text)? else {
        return Ok(false);
    };
    Ok(key_text(alloc, &parts)?.as_bytes() == text)
}

#[test]
fn a_text_is_read_exactly_where_a_key_has_it(rt: HostRuntime) -> Result<(), Fail> {
    let rows: [(&[u8], bool); 5] = [
        (
            b"views/products/show:00000000000000000000000000000000/products/1/:a%20b",
            true,
        ),
        (
            b"views/games/_game:000102030405060708090a0b0c0d0e0f/games/nil/=-7/=nil/='x%2F",
            true,
        ),
        (b"views/x", false),
        (b"views/x:00000000000000000000000000000000/='%2f", false),
        (b"views/x:00000000000000000000000000000000/a/01", false),
    ];
    for (text, read) in rows {
        assert!(rt; is_read(rt.alloc(), text).ok() == Some(read));
    }
    Ok(())
}
