//! A source, a sink and a folder in memory, which tell all that they hold and fail where they are told to, and a clock
//! that was given its readings and never fails.

ghost use Rattle.std.specs.Prelude.{◌≡◌, ◌<◌, ◌≤◌, ◌↔◌, ◌∷◌, ◌++◌, [], length, take, min, Some, None, IfOk, OnOk, OnErr, IsErr, IsErrOf, IsTrue, option_map, vec_len};
ghost use Rattle.doll_base.specs.Faults.{Rose, KeepsCount, HasCause, fresh_plan, is_due, after_call, after_failure};
ghost use Rattle.doll_base.specs.Folders.{file_named, file_up_to, GivesFile, named_files};
ghost use Rattle.doll_base.specs.Memories.{given_count};
ghost use Rattle.doll_base.specs.declared.folder.FolderFault.TheVariants.{Failed};
ghost use Rattle.doll_base.specs.Readings.{reading_at};

use crate::asked::Asked;
use crate::clock::Clock;
use crate::faults::FaultPlan;
use crate::folder::{Folder, FolderFault};
use crate::sink::{Sink, WriteFault};
use crate::source::{ReadFault, Source};
use doll_text::{Name, Text};
use http_server::Log;
use std::alloc::Global;
use std::marker::Model;

/// A source over a vector.
#[derive(Drop)]
pub struct MemSource {
    bytes: Vec<u8>,
    at: usize,
    piece: usize,
    plan: FaultPlan,
}

impl Model for MemSource {
    ghost use Rattle.std.specs.Prelude.{◌≤◌, drop, length};
    ghost use Rattle.doll_base.specs.Memories.{Feed};

    ghost Value = { Feed };

    ghost view = { λ s. record { left = drop s.at s.bytes.items; piece = s.piece; plan = s.plan } };

    ghost invariant = { λ s. (s.at ≤ length s.bytes.items) × (1 ≤ s.piece) };
}

impl MemSource {
    /// Gives these bytes, at most `piece` at a call. The calls with the numbers in `failing`, from 0, fail.
    pub fn new(bytes: Vec<u8>, piece: usize, failing: Vec<u64>) -> MemSource
        requires { 1 ≤ piece }
        ensures left { ⟦<MemSource as Source>⟧.left result ≡ Some bytes.items }
        ensures faults { ⟦<MemSource as Source>⟧.faults result ≡ 0 }
        ensures piece { result.piece ≡ piece }
        ensures plan { result.plan ≡ fresh_plan failing.items None }
    {
        MemSource {
            bytes,
            at: 0,
            piece,
            plan: FaultPlan::new(failing, None),
        }
    }
}

impl Source for MemSource {
    ghost left = { λ s. Some s.left };

    ghost faults = { λ s. s.plan.faults };

    fn read(&mut self, into: &mut [u8]) -> Result<usize, ReadFault>
        ensures fits { IfOk result (λ n. n ≤ length into.old) }
        ensures bytes { IfOk result (λ n. self.old.left ≡ take n into.new ++ self.new.left) }
        ensures end { IfOk result (λ n. n ≡ 0 → 0 < length into.old → self.old.left ≡ []) }
        ensures kept { OnErr result (self.new.left ≡ self.old.left) }
        ensures cause { OnErr result (Rose self.old.plan.faults self.new.plan.faults) }
        ensures count { KeepsCount self.old.plan.faults self.new.plan.faults }
        ensures given { IfOk result (λ n. n ≡ given_count self.old (length into.old)) }
        ensures due { IsErr result ↔ IsTrue (is_due self.old.plan) }
        ensures plan { self.new.plan ≡ after_call self.old.plan }
        ensures piece { self.new.piece ≡ self.old.piece }
    {
        if self.plan.fails() {
            return Err(ReadFault);
        }
        let rest = &self.bytes[self.at..];
        let count = into.len().min(self.piece).min(rest.len());
        into[..count].copy_from_slice(&rest[..count]);
        self.at += count;
        Ok(count)
    }
}

/// A sink over a vector.
#[derive(Drop)]
pub struct MemSink {
    bytes: Vec<u8>,
    piece: usize,
    plan: FaultPlan,
}

impl Model for MemSink {
    ghost use Rattle.std.specs.Prelude.{◌≤◌};
    ghost use Rattle.doll_base.specs.Memories.{Store};

    ghost Value = { Store };

    ghost view = { λ s. record { held = s.bytes.items; piece = s.piece; plan = s.plan } };

    ghost invariant = { λ s. 1 ≤ s.piece };
}

impl MemSink {
    /// Holds nothing yet, and takes at most `piece` bytes at a call. The calls with the numbers in `failing`, from
    /// 0, fail, and so does one for which no memory is found.
    pub fn new(alloc: Global, piece: usize, failing: Vec<u64>) -> MemSink
        requires { 1 ≤ piece }
        ensures held { ⟦<MemSink as Sink>⟧.held result ≡ Some [] }
        ensures faults { ⟦<MemSink as Sink>⟧.faults result ≡ 0 }
        ensures piece { result.piece ≡ piece }
        ensures plan { result.plan ≡ fresh_plan failing.items None }
    {
        MemSink {
            bytes: Vec::new(alloc),
            piece,
            plan: FaultPlan::new(failing, None),
        }
    }

    /// The bytes that it holds.
    pub fn held(&self) -> &[u8]
        ensures { ⟦<MemSink as Sink>⟧.held self.now ≡ Some result.now }
    {
        &self.bytes
    }
}

impl Sink for MemSink {
    ghost held = { λ s. Some s.held };

    ghost faults = { λ s. s.plan.faults };

    fn write(&mut self, from: &[u8]) -> Result<usize, WriteFault>
        ensures fits { IfOk result (λ n. n ≤ length from.now) }
        ensures some { IfOk result (λ n. 0 < length from.now → 0 < n) }
        ensures bytes { IfOk result (λ n. self.new.held ≡ self.old.held ++ take n from.now) }
        ensures kept { OnErr result (self.new.held ≡ self.old.held) }
        ensures cause { OnErr result (Rose self.old.plan.faults self.new.plan.faults) }
        ensures count { KeepsCount self.old.plan.faults self.new.plan.faults }
        ensures taken { IfOk result (λ n. n ≡ min self.old.piece (length from.now)) }
        ensures due { IsTrue (is_due self.old.plan) → IsErr result }
        ensures plan { OnOk result (self.new.plan ≡ after_call self.old.plan) }
        // One call and one fault more, whether the failure was planned or no memory was found.
        ensures failure { OnErr result (self.new.plan ≡ after_failure self.old.plan) }
        ensures piece { self.new.piece ≡ self.old.piece }
    {
        if self.plan.fails() {
            // A call that fails takes nothing.
            return Err(WriteFault);
        }
        let count = self.piece.min(from.len());
        if self.bytes.extend_from_slice(&from[..count]).is_err() {
            self.plan.add_fault();
            return Err(WriteFault);
        }
        Ok(count)
    }
}

/// A file with its name. Neither is bound to a form: the name may be any text, and the bytes need not be one.
#[derive(Drop)]
pub struct ViewFile {
    pub name: Name,
    pub source: Text,
}

/// A folder over a vector of files. Of two with one name it has the first alone.
#[derive(Drop)]
pub struct MemFolder {
    files: Vec<ViewFile>,
    asked: Asked,
    plan: FaultPlan,
}

impl Model for MemFolder {
    ghost use Rattle.doll_base.specs.Folders.{named_files};
    ghost use Rattle.doll_base.specs.Memories.{Files};

    ghost Value = { Files };

    ghost view = { λ f. record { files = named_files f.files.items; asked = f.asked; plan = f.plan } };
}

impl MemFolder {
    /// Has these files. The calls with the numbers in `failing`, from 0, fail, whether or not there is such a file.
    pub fn new(files: Vec<ViewFile>, failing: Vec<u64>) -> MemFolder
        ensures told { ⟦<MemFolder as Folder>⟧.files result ≡ Some (named_files files.items) }
        ensures asked { ⟦<MemFolder as Folder>⟧.asked result ≡ [] }
        ensures faults { ⟦<MemFolder as Folder>⟧.faults result ≡ 0 }
        ensures plan { result.plan ≡ fresh_plan failing.items None }
    {
        MemFolder {
            files,
            asked: Asked::new(),
            plan: FaultPlan::new(failing, None),
        }
    }
}

impl Folder for MemFolder {
    ghost files = { λ f. Some f.files };

    ghost asked = { λ f. f.asked };

    ghost faults = { λ f. f.plan.faults };

    fn read_file(&mut self, alloc: Global, name: &str, most: usize) -> Result<Vec<u8>, FolderFault>
        ensures told { GivesFile (file_up_to most (file_named name.now self.old.files)) result }
        ensures within { IfOk result (λ bytes. vec_len bytes ≤ most) }
        ensures kept { self.new.files ≡ self.old.files }
        ensures asked { self.new.asked ≡ self.old.asked ++ name.now ∷ [] }
        ensures cause { HasCause Failed self.old.plan.faults self.new.plan.faults result }
        ensures count { KeepsCount self.old.plan.faults self.new.plan.faults }
        ensures due { IsErrOf result Failed ↔ IsTrue (is_due self.old.plan) }
        ensures plan { self.new.plan ≡ after_call self.old.plan }
    {
        self.asked.add(name);
        if self.plan.fails() {
            return Err(FolderFault::Failed);
        }
        let Some(bytes) = source_of(&self.files, name.as_bytes()) else {
            return Err(FolderFault::Missing);
        };
        if bytes.len() > most {
            return Err(FolderFault::TooLong);
        }
        Ok(Vec::from_slice(alloc, bytes)?)
    }
}

/// The bytes of the first file with this name.
fn source_of<'a>(files: &'a [ViewFile], name: &[u8]) -> Option<&'a [u8]>
    ensures { option_map (λ bytes. bytes.now) result
        ≡ file_named name.now (named_files files.now) }
{
    let mut rest = files;
    while let [file, more @ ..] = rest {
        if file.name.as_bytes() == name {
            return Some(file.source.as_bytes());
        }
        rest = more;
    }
    None
}

/// A clock that was given its readings.
#[derive(Drop)]
pub struct ListClock {
    listed: Vec<u64>,
    at: usize,
    given: Log<u64, ()>,
}

impl Model for ListClock {
    ghost use Rattle.std.specs.Prelude.{◌≡◌, ◌-◌, ℕ, length, map, min};
    ghost use Rattle.doll_base.specs.Readings.{Readings};

    ghost Value = { Readings };

    ghost view = { λ c. record { listed = c.listed.items; given = map (λ (p : ℕ × Unit {0}). p.0) c.given.items } };

    ghost invariant = { λ c. c.at ≡ min (length c.given.items) (length c.listed.items - 1) };
}

impl ListClock {
    /// Gives these readings in their order, and then the last again. Without one it gives 0.
    pub fn new(readings: Vec<u64>) -> ListClock
        ensures readings { ⟦<ListClock as Clock>⟧.readings result ≡ Some [] }
        ensures listed { result.listed ≡ readings.items }
    {
        ListClock {
            listed: readings,
            at: 0,
            given: Log::new(),
        }
    }
}

impl Clock for ListClock {
    ghost readings = { λ c. Some c.given };

    fn now(&mut self) -> u64
        ensures told { self.new.given ≡ self.old.given ++ result ∷ [] }
        ensures reading { result ≡ reading_at self.old.listed (length self.old.given) }
        ensures listed { self.new.listed ≡ self.old.listed }
    {
        let reading = match self.listed.get(self.at) {
            Some(reading) => *reading,
            None => 0,
        };
        if self.at + 1 < self.listed.len() {
            self.at += 1;
        }
        self.given = self.given.and(&reading, &());
        reading
    }
}
