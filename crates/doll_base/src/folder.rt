//! Folders of files.

ghost use Rattle.std.specs.Prelude.{◌≡◌, ◌≤◌, ◌∷◌, ◌++◌, [], ℕ, List, Option, vec_len, IfOk, IfSome};
ghost use Rattle.doll_base.specs.Faults.{KeepsCount, HasCause};
ghost use Rattle.doll_base.specs.declared.folder.FolderFault.TheVariants.{Failed};

use std::alloc::{AllocError, Global};

/// Why a file was not read.
#[derive(Clone, Copy, PartialEq, Eq)]
pub enum FolderFault {
    /// No such file is there.
    Missing,
    /// The file has more bytes than allowed.
    TooLong,
    /// The folder failed.
    Failed,
    /// No memory was found.
    Memory,
}

impl From<AllocError> for FolderFault {
    ghost use Rattle.std.specs.Prelude.{◌≡◌};
    ghost use Rattle.doll_base.specs.declared.folder.FolderFault.TheVariants.{Memory};

    ghost from_gives = { λ _ e. e ≡ Memory };

    fn from(_error: AllocError) -> FolderFault {
        FolderFault::Memory
    }
}

/// Reads files by their names. Reading changes none.
pub trait Folder {
    ghost use Rattle.doll_base.specs.Folders.{file_named, file_up_to, GivesFile};

    /// The files, each a name and its bytes, where the folder tells them.
    ghost files: { Self → Option (List (List ℕ × List ℕ)) };

    /// The names that were asked for so far, one for each call.
    ghost asked: { Self → List (List ℕ) };

    /// How often the folder has failed.
    ghost faults: { Self → ℕ };

    /// All the bytes of the file with this name, of which at most `most` are allowed.
    fn read_file(&mut self, alloc: Global, name: &str, most: usize) -> Result<Vec<u8>, FolderFault>
        ensures told { IfSome (files self.old) (λ files.
            GivesFile (file_up_to most (file_named name.now files)) result) }
        ensures within { IfOk result (λ bytes. vec_len bytes ≤ most) }
        ensures kept { files self.new ≡ files self.old }
        ensures asked { asked self.new ≡ asked self.old ++ name.now ∷ [] }
        ensures cause { HasCause Failed (faults self.old) (faults self.new) result }
        ensures count { KeepsCount (faults self.old) (faults self.new) };
}
