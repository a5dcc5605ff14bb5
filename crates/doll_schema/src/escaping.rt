//! Writing a text into a page of HTML.

ghost use Rattle.std.specs.Prelude.{◌≡◌, ◌++◌, length, take, option_map, OnOk, OnErr};
ghost use Rattle.doll_schema.specs.Escape.{escaped, reference};

use doll_text::Memory;

/// Appends the text with `& < > " '` as `&amp; &lt; &gt; &quot; &#39;`. A refusal changes nothing.
pub fn escape(text: &str, out: &mut Vec<u8>) -> Result<(), Memory>
    ensures ok { OnOk result (out.new.items ≡ out.old.items ++ escaped text.now) }
    ensures err { OnErr result (out.new.items ≡ out.old.items) }
{
    escape_bytes(text.as_bytes(), out)
}

/// The same for the bytes of a text.
pub fn escape_bytes(bytes: &[u8], out: &mut Vec<u8>) -> Result<(), Memory>
    ensures ok { OnOk result (out.new.items ≡ out.old.items ++ escaped bytes.now) }
    ensures err { OnErr result (out.new.items ≡ out.old.items) }
{
    let before = out.len();
    if append_escaped(bytes, out).is_err() {
        out.truncate(before);
        return Err(Memory);
    }
    Ok(())
}

/// Appends piece by piece: what needs no reference is copied as it stands.
fn append_escaped(bytes: &[u8], out: &mut Vec<u8>) -> Result<(), Memory>
    ensures ok { OnOk result (out.new.items ≡ out.old.items ++ escaped bytes.now) }
    ensures kept { take (length out.old.items) out.new.items ≡ out.old.items }
{
    let mut from = 0;
    for (at, byte) in bytes.iter().enumerate() {
        let Some(reference) = reference_of(*byte) else {
            continue;
        };
        out.extend_from_slice(&bytes[from..at])?;
        out.extend_from_slice(reference)?;
        from = at + 1;
    }
    out.extend_from_slice(&bytes[from..])?;
    Ok(())
}

fn reference_of(byte: u8) -> Option<&'static [u8]>
    ensures { option_map (λ r. r.now) result ≡ reference byte }
{
    match byte {
        b'&' => Some(b"&amp;"),
        b'<' => Some(b"&lt;"),
        b'>' => Some(b"&gt;"),
        b'"' => Some(b"&quot;"),
        b'\'' => Some(b"&#39;"),
        _ => None,
    }
}
