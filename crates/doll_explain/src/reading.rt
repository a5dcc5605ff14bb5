//! The lines of a script, read again by what refused them.

use doll_excerpt::Stretch;
use doll_script::{Order, Script, ScriptFault};
use doll_text::bytes::{ByteKind, prefix_len};
use doll_text::{Memory, Text};
use std::alloc::Global;

/// What stands between the words of a line.
const BLANK: u8 = b' ';

/// The script that a line alone is, none where it is no order.
pub(crate) fn read_line(alloc: Global, line: &[u8]) -> Result<Option<Script>, Memory> {
    let lines = [Text::from_bytes(alloc, line)?];
    match Script::read(alloc, &lines) {
        Ok(script) => Ok(Some(script)),
        Err(ScriptFault::Line { .. }) => Ok(None),
        Err(ScriptFault::Memory) => Err(Memory),
    }
}

/// Whether parts one behind another are an order.
pub(crate) fn is_order(alloc: Global, parts: &[&[u8]]) -> Result<bool, Memory> {
    let mut line = Vec::new(alloc);
    for part in parts {
        line.extend_from_slice(part)?;
    }
    Ok(read_line(alloc, line.as_slice())?.is_some())
}

/// The session that the order of a line is about, where it is about one.
pub(crate) fn session_of(script: &Script) -> Option<u32> {
    let [order] = script.lines.as_slice() else {
        return None;
    };
    match order {
        Order::Open { session, .. } | Order::Turn { session } | Order::Run { session } => {
            Some(*session)
        }
        Order::Now { .. } | Order::Commit { .. } | Order::Get { .. } | Order::Expire => None,
    }
}

/// The stretch of a line from a byte up to the next space.
pub(crate) fn word_at(line: &[u8], from: usize) -> Stretch {
    let rest = rest_of(line, from);
    Stretch {
        from,
        to: from.saturating_add(prefix_len(ByteKind::Other(BLANK), rest)),
    }
}

/// The bytes of a line from one on, none behind its end.
pub(crate) fn rest_of(line: &[u8], from: usize) -> &[u8] {
    if from < line.len() {
        &line[from..]
    } else {
        &[]
    }
}

/// The bytes of a stretch of a line.
pub(crate) fn text_in(line: &[u8], stretch: Stretch) -> &[u8] {
    let rest = rest_of(line, stretch.from);
    let count = stretch.to.saturating_sub(stretch.from);
    if count < rest.len() {
        &rest[..count]
    } else {
        rest
    }
}
