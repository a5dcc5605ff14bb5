//! A source, a folder and a clock that pass on what they are given, and keep it.

ghost use Rattle.std.specs.Prelude.{◌≡◌, ◌<◌, ◌≤◌, ◌++◌, false, length, take, IfOk, OnErr};
ghost use Rattle.doll_base.specs.Faults.{KeepsCount, Rose};
ghost use Rattle.doll_base.specs.Streams.{IsAtEnd, Took};

use doll_base::{Clock, Folder, FolderFault, ReadFault, Source, ViewFile};
use doll_text::{Memory, Name, Text};
use std::alloc::Global;

/// A source that keeps what was read of it.
#[derive(Drop)]
pub struct KeptSource<S> {
    source: S,
    bytes: Vec<u8>,
    lost: bool,
}

impl<S: Source> KeptSource<S> {
    pub fn new(alloc: Global, source: S) -> KeptSource<S>
        ensures left { ⟦<KeptSource<S> as Source>⟧.left result ≡ S.left source }
        ensures faults { ⟦<KeptSource<S> as Source>⟧.faults result ≡ S.faults source }
    {
        KeptSource {
            source,
            bytes: Vec::new(alloc),
            lost: false,
        }
    }

    /// What was read so far, none where no memory was found to keep it.
    pub fn bytes(&self) -> Option<&[u8]> {
        if self.lost {
            return None;
        }
        Some(self.bytes.as_slice())
    }
}

impl<S: Source> Source for KeptSource<S> {
    ghost left = { λ s. S.left s.source };

    ghost faults = { λ s. S.faults s.source };

    fn read(&mut self, into: &mut [u8]) -> Result<usize, ReadFault>
        ensures fits { IfOk result (λ n. n ≤ length into.old) }
        ensures bytes { IfOk result (λ n.
            Took (S.left self.old.source) (S.left self.new.source) (take n into.new)) }
        ensures end { IfOk result (λ n.
            n ≡ 0 → 0 < length into.old → IsAtEnd (S.left self.old.source)) }
        ensures kept { OnErr result (S.left self.new.source ≡ S.left self.old.source) }
        ensures cause { OnErr result
            (Rose (S.faults self.old.source) (S.faults self.new.source)) }
        ensures count { KeepsCount (S.faults self.old.source) (S.faults self.new.source) }
        // What is passed on is kept.
        ensures keeps { IfOk result (λ n. self.new.lost ≡ false →
            self.new.bytes.items ≡ self.old.bytes.items ++ take n into.new) }
    {
        let count = self.source.read(into)?;
        if self.bytes.extend_from_slice(&into[..count]).is_err() {
            self.lost = true;
        }
        Ok(count)
    }
}

/// A folder that keeps the files that it gave, and the name of the one that it didn't give.
#[derive(Drop)]
pub struct KeptFolder<F> {
    folder: F,
    files: Vec<ViewFile>,
    missed: Option<Name>,
    lost: bool,
}

impl<F: Folder> KeptFolder<F> {
    pub fn new(alloc: Global, folder: F) -> KeptFolder<F>
        ensures files { ⟦<KeptFolder<F> as Folder>⟧.files result ≡ F.files folder }
        ensures asked { ⟦<KeptFolder<F> as Folder>⟧.asked result ≡ F.asked folder }
        ensures faults { ⟦<KeptFolder<F> as Folder>⟧.faults result ≡ F.faults folder }
    {
        KeptFolder {
            folder,
            files: Vec::new(alloc),
            missed: None,
            lost: false,
        }
    }

    /// The files that it gave, none where no memory was found to keep them.
    pub fn files(&self) -> Option<&[ViewFile]> {
        if self.lost {
            return None;
        }
        Some(self.files.as_slice())
    }

    /// The name of the last file that it was asked for and didn't give.
    pub fn missed(&self) -> Option<&Name> {
        self.missed.as_ref()
    }
}

impl<F: Folder> Folder for KeptFolder<F> {
    ghost files = { λ f. F.files f.folder };

    ghost asked = { λ f. F.asked f.folder };

    ghost faults = { λ f. F.faults f.folder };

    fn read_file(
        &mut self,
        alloc: Global,
        name: &str,
        most: usize,
    ) -> Result<Vec<u8>, FolderFault> {
        let answer = self.folder.read_file(alloc, name, most);
        match &answer {
            Ok(bytes) => {
                if keep_file(alloc, &mut self.files, name, bytes.as_slice()).is_err() {
                    self.lost = true;
                }
            }
            Err(_) => match Name::from_bytes(alloc, name.as_bytes()) {
                Ok(name) => self.missed = Some(name),
                Err(_) => self.lost = true,
            },
        }
        answer
    }
}

/// Appends a file with a name and its bytes.
fn keep_file(
    alloc: Global,
    files: &mut Vec<ViewFile>,
    name: &str,
    bytes: &[u8],
) -> Result<(), Memory> {
    files.push(ViewFile {
        name: Name::from_bytes(alloc, name.as_bytes())?,
        source: Text::from_bytes(alloc, bytes)?,
    })?;
    Ok(())
}

/// A clock that keeps its readings.
#[derive(Drop)]
pub struct KeptClock<C> {
    clock: C,
    readings: Vec<u64>,
    lost: bool,
}

impl<C: Clock> KeptClock<C> {
    pub fn new(alloc: Global, clock: C) -> KeptClock<C>
        ensures { ⟦<KeptClock<C> as Clock>⟧.readings result ≡ C.readings clock }
    {
        KeptClock {
            clock,
            readings: Vec::new(alloc),
            lost: false,
        }
    }

    /// The readings so far, none where no memory was found to keep them.
    pub fn readings(&self) -> Option<&[u64]> {
        if self.lost {
            return None;
        }
        Some(self.readings.as_slice())
    }
}

impl<C: Clock> Clock for KeptClock<C> {
    ghost readings = { λ c. C.readings c.clock };

    fn now(&mut self) -> u64 {
        let reading = self.clock.now();
        if self.readings.push(reading).is_err() {
            self.lost = true;
        }
        reading
    }
}
