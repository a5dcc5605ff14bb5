//! The names of the files that were asked for.

ghost use Rattle.std.specs.Prelude.{◌≡◌, ◌∷◌, ◌++◌, []};

use http_server::Log;
use std::marker::Model;

/// The names that a folder was asked for, in the order of the calls. It is only ever reasoned about, so it takes no
/// memory.
#[derive(Drop)]
pub struct Asked {
    names: Log<Log<u8, ()>, ()>,
}

impl Model for Asked {
    ghost use Rattle.std.specs.Prelude.{List, ℕ, map};
    ghost use Rattle.doll_base.specs.Folders.{logged_bytes};

    ghost Value = { List (List ℕ) };

    ghost view = { λ a. map (λ n. logged_bytes n.0.items) a.names.items };
}

impl Asked {
    /// No file was asked for yet.
    pub fn new() -> Asked
        ensures { result ≡ [] }
    {
        Asked { names: Log::new() }
    }

    /// Adds a name at the end.
    pub fn add(&mut self, name: &str)
        ensures { self.new ≡ self.old ++ name.now ∷ [] }
    {
        let mut bytes = Log::new();
        for byte in name.as_bytes() {
            bytes = bytes.and(byte, &());
        }
        self.names = self.names.and(&bytes, &());
    }
}
