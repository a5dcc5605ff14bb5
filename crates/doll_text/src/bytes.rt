//! Kinds of bytes, and how many of a kind stand at the front of a text.

ghost use Rattle.std.specs.Prelude.{◌≡◌, ◌<◌, ◌≤◌, true, length, slice_index};
ghost use Rattle.std.specs.List.{prefix_len};
ghost use Rattle.doll_text.specs.Bytes as spec;

/// What stands between the segments of a path and of a partial's name.
pub const SLASH: u8 = b'/';

/// A kind of bytes.
#[derive(Clone, Copy)]
pub enum ByteKind {
    /// Lower-case letters, digits and `_`.
    Word,
    /// Decimal digits.
    Digit,
    /// White space: space, tab, `\r` and `\n`.
    Space,
    /// What is no white space.
    Ink,
    /// All bytes but this one.
    Other(u8),
}

impl ByteKind {
    /// Whether a byte is of the kind.
    pub fn contains(self, byte: u8) -> bool
        ensures { result ≡ spec.is_of self byte }
    {
        match self {
            ByteKind::Word => is_word_byte(byte),
            ByteKind::Digit => byte.is_ascii_digit(),
            ByteKind::Space => is_space(byte),
            ByteKind::Ink => !is_space(byte),
            ByteKind::Other(limit) => byte != limit,
        }
    }
}

/// How many bytes of the kind stand at the front.
pub fn prefix_len(kind: ByteKind, bytes: &[u8]) -> usize
    ensures value { result ≡ prefix_len (spec.is_of kind) bytes.now }
    ensures within { result ≤ length bytes.now }
    ensures moves { 0 < length bytes.now → spec.is_of kind (slice_index bytes.now 0) ≡ true → 0 < result }
{
    for (at, byte) in bytes.iter().enumerate() {
        if !kind.contains(*byte) {
            return at;
        }
    }
    bytes.len()
}

/// Whether a byte is a lower-case letter.
pub fn is_lower(byte: u8) -> bool
    ensures { result ≡ spec.is_lower byte }
{
    b'a' <= byte && byte <= b'z'
}

/// Whether a byte may stand in a word: a lower-case letter, a digit or `_`.
pub fn is_word_byte(byte: u8) -> bool
    ensures { result ≡ spec.is_word_byte byte }
{
    is_lower(byte) || byte.is_ascii_digit() || byte == b'_'
}

/// Whether a byte is white space: a space, a tab, `\r` or `\n`.
pub fn is_space(byte: u8) -> bool
    ensures { result ≡ spec.is_space byte }
{
    byte == b' ' || byte == b'\t' || byte == b'\r' || byte == b'\n'
}
