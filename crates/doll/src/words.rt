//! The words of the program.

ghost use Rattle.std.specs.Prelude.{◌≡◌, [], ◌∷◌, map, option_map, string_bytes};
ghost use Rattle.doll.specs.Words as spec;

/// What the words ask for.
#[derive(Clone, Copy)]
pub enum Command<'a> {
    /// The page of a path.
    Plain(&'a str),
    /// The faults of the templates.
    Lint,
    /// The digests of all templates.
    Digests,
    /// The report of the script.
    Replay,
}

/// What the words ask for, where they are one of the forms.
pub fn command_of(words: &[String]) -> Option<Command<'_>>
    ensures { option_map spec.seen_command result ≡ spec.command_of (map string_bytes words.now) }
{
    match words {
        [word] => only_word(word.as_str()),
        [word, path] => with_path(word.as_str(), path.as_str()),
        _ => None,
    }
}

/// What a word alone asks for.
fn only_word(word: &str) -> Option<Command<'_>>
    ensures { option_map spec.seen_command result ≡ spec.command_of (word.now ∷ []) }
{
    if word == "lint" {
        Some(Command::Lint)
    } else if word == "digests" {
        Some(Command::Digests)
    } else if word == "replay" {
        Some(Command::Replay)
    } else {
        None
    }
}

/// What a word and a path ask for.
fn with_path<'a>(word: &str, path: &'a str) -> Option<Command<'a>>
    ensures { option_map spec.seen_command result ≡ spec.command_of (word.now ∷ path.now ∷ []) }
{
    if word == "plain" {
        Some(Command::Plain(path))
    } else {
        None
    }
}
