//! How many bytes a commit's changes take.

ghost use Rattle.std.specs.Prelude.{◌≡◌, ◌+◌, ◌^◌, length, min, nat_le};
ghost use Rattle.doll_journal.specs.Spelling.{text_bytes, value_bytes, pair_bytes, given_bytes, change_bytes, changes_bytes};

use crate::change::Change;
use doll_schema::Value;
use doll_text::Name;

/// The most bytes of a commit: 2^31.
pub const MOST_BYTES: u64 = 2_147_483_648;

/// Lengths are counted up to this one, which no commit reaches.
const CAP: u64 = 4_294_967_296;

/// Whether a commit may have these changes: its bytes are `2^31` at most, of which 20 stand before the changes.
pub fn have_room(changes: &[Change]) -> bool
    ensures { result ≡ nat_le (20 + length (changes_bytes changes.now)) MOST_BYTES }
{
    20 + changes_len(changes) <= MOST_BYTES
}

fn capped(a: u64, b: u64) -> u64
    ensures { result ≡ min (a + b) (2 ^ 32) }
{
    a.saturating_add(b).min(CAP)
}

fn changes_len(changes: &[Change]) -> u64
    ensures { result ≡ min (length (changes_bytes changes.now)) (2 ^ 32) }
{
    let mut len = 4;
    for change in changes {
        len = capped(len, change_len(change));
    }
    len
}

fn change_len(change: &Change) -> u64
    ensures { result ≡ min (length (change_bytes change.now)) (2 ^ 32) }
{
    match change {
        Change::Create { model, values } => {
            let len = capped(1, text_len(model.as_bytes()));
            capped(len, given_len(values.as_slice()))
        }
        Change::Update { model, values, .. } => {
            let len = capped(5, text_len(model.as_bytes()));
            capped(len, given_len(values.as_slice()))
        }
        Change::Destroy { model, .. } => capped(5, text_len(model.as_bytes())),
        Change::Touch { model, .. } => capped(5, text_len(model.as_bytes())),
    }
}

fn given_len(given: &[(Name, Value)]) -> u64
    ensures { result ≡ min (length (given_bytes given.now)) (2 ^ 32) }
{
    let mut len = 4;
    for pair in given {
        len = capped(len, pair_len(pair));
    }
    len
}

fn pair_len(pair: &(Name, Value)) -> u64
    ensures { result ≡ min (length (pair_bytes pair.now)) (2 ^ 32) }
{
    capped(text_len(pair.0.as_bytes()), value_len(&pair.1))
}

fn value_len(value: &Value) -> u64
    ensures { result ≡ min (length (value_bytes value.now)) (2 ^ 32) }
{
    match value {
        Value::Nil => 1,
        Value::Bool(_) => 1,
        Value::Int(_) => 9,
        Value::Text(text) => capped(1, text_len(text.as_bytes())),
    }
}

fn text_len(text: &[u8]) -> u64
    ensures { result ≡ min (length (text_bytes text.now)) (2 ^ 32) }
{
    capped(4, text.len() as u64)
}
