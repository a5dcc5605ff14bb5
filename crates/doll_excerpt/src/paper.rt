//! A text of bounded length that is written from its beginning to its end.

ghost use Rattle.std.specs.Prelude.{◌≡◌, ◌≤◌, ◌++◌, ◌∷◌, [], length, string_bytes, IfOk, OnErr, OnOk};
ghost use Rattle.std.specs.Fmt.{decimal};
ghost use Rattle.std.specs.Str.{IsUtf8};
ghost use Rattle.doll_excerpt.specs.Texts.{EndsLine, with_text};

use doll_text::Memory;
use itoa::Buffer;
use std::alloc::Global;
use std::marker::Model;

/// The most bytes of a paper.
pub const LONGEST_PAPER: usize = 65_536;

/// The most bytes of a character.
const WIDEST_CHARACTER: usize = 4;

/// A text that is written. What would make it longer than a paper may be is left out.
#[derive(Drop)]
pub struct Paper {
    text: String,
}

impl Model for Paper {
    ghost use Rattle.std.specs.Prelude.{ℕ, ◌<◌, List, string_bytes, string_len};
    ghost use Rattle.doll_excerpt.specs.declared.paper.TheConstants.{LONGEST_PAPER};

    ghost Value = { List ℕ };

    ghost view = { λ p. string_bytes p.text };

    ghost invariant = { λ p. string_len p.text < LONGEST_PAPER };
}

impl Paper {
    /// Nothing yet.
    pub fn new(alloc: Global) -> Paper
        ensures { result ≡ [] }
    {
        Paper {
            text: String::new(alloc),
        }
    }

    /// Appends a text.
    pub fn put(&mut self, text: &str) -> Result<(), Memory>
        ensures value { OnOk result (self.new ≡ with_text self.old text.now) }
        ensures kept { OnErr result (self.new ≡ self.old) }
    {
        if text.len() < LONGEST_PAPER - self.text.len() {
            self.text.push_str(text)?;
        }
        Ok(())
    }

    /// Appends a character.
    pub fn put_char(&mut self, one: char) -> Result<(), Memory> {
        if WIDEST_CHARACTER < LONGEST_PAPER - self.text.len() {
            self.text.push(one)?;
        }
        Ok(())
    }

    /// Appends a number in decimal.
    pub fn put_number(&mut self, number: u64) -> Result<(), Memory>
        ensures value { OnOk result (self.new ≡ with_text self.old (decimal number)) }
    {
        let mut digits = Buffer::new();
        self.put(digits.format(number))
    }

    /// Appends what another one has.
    pub fn put_paper(&mut self, other: &Paper) -> Result<(), Memory>
        ensures value { OnOk result (self.new ≡ with_text self.old other.now) }
    {
        self.put(other.text.as_str())
    }

    /// The text with a line end.
    pub fn finish(self) -> Result<String, Memory>
        ensures value { IfOk result (λ text. string_bytes text ≡ self ++ 10 ∷ []) }
        ensures bounded { IfOk result (λ text.
            length (string_bytes text) ≤ LONGEST_PAPER) }
        ensures utf8 { IfOk result (λ text. IsUtf8 (string_bytes text)) }
        ensures ended { IfOk result (λ text. EndsLine (string_bytes text)) }
    {
        let mut text = self.text;
        text.push('\n')?;
        let _bytes = text.as_str().as_bytes();
        Ok(text)
    }
}
