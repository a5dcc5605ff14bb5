//! The bytes by which tokens are told apart.

/// Before a name, which it doesn't change.
pub const AT_SIGN: u8 = b'@';

/// Behind the word of a question.
pub const QUESTION_MARK: u8 = b'?';

/// Around a text in which a backslash mostly stands for itself.
pub const SINGLE_QUOTE: u8 = b'\'';

/// Around a text with escapes.
pub const DOUBLE_QUOTE: u8 = b'"';

/// Before the byte that it escapes.
pub const BACKSLASH: u8 = b'\\';

/// Before a brace where other languages put an expression into a text.
pub const HASH: u8 = b'#';

/// Behind a `#` that is refused.
pub const OPEN_BRACE: u8 = b'{';

/// What is escaped as `\n`.
pub const NEW_LINE: u8 = b'\n';

/// What is escaped as `\t`.
pub const TAB: u8 = b'\t';

/// The letter of an escaped new line.
pub const LETTER_N: u8 = b'n';

/// The letter of an escaped tab.
pub const LETTER_T: u8 = b't';
