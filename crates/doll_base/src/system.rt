//! The trusted edge: sources, sinks, a folder and a clock over what the runtime has. They tell no content, since no
//! contract can say what a stream, a file or a clock of the system holds. What a call does to the reader or the writer
//! inside is said where std knows its bytes.

ghost use Rattle.std.specs.Prelude.{◌≡◌, ◌-◌, ◌/◌, ◌^◌, ◌<◌, ◌≤◌, ◌∷◌, ◌++◌, [], false, length, take, min, vec_len, Err, IfOk, OnErr, None};
ghost use Rattle.std.specs.Duration.{as_nanos};
ghost use Rattle.std.specs.Io.KnownBytes.{Appends, Keeps, ReadConsumes};
ghost use Rattle.doll_base.specs.Faults.{Rose, KeepsCount, HasCause};
ghost use Rattle.doll_base.specs.Folders as spec;
ghost use Rattle.doll_base.specs.Systems.{AppendsPart};
ghost use Rattle.doll_base.specs.declared.folder.FolderFault.TheVariants.{Missing, Failed};

use crate::asked::Asked;
use crate::clock::Clock;
use crate::faults::FaultCount;
use crate::folder::{Folder, FolderFault};
use crate::input::InputFault;
use crate::sink::{Sink, WriteFault};
use crate::source::{ReadFault, Source, read_all};
use doll_text::SLASH;
use std::alloc::Global;
use std::fs::OpenFile;
use std::io::{ErrorKind, Read, Write};
use std::path::Path;
use std::rt::Files;
use std::time::{Duration, SystemTime};
use std::{fs, io, rt};

/// A reader as a source. Each error but an interruption counts as a fault.
#[derive(Drop)]
pub struct StdSource<R> {
    reader: R,
    faults: FaultCount,
}

impl<R: Read> StdSource<R> {
    pub fn new(reader: R) -> StdSource<R>
        ensures told { ⟦<StdSource<R> as Source>⟧.left result ≡ None }
        ensures faults { ⟦<StdSource<R> as Source>⟧.faults result ≡ 0 }
    {
        StdSource {
            reader,
            faults: FaultCount::new(),
        }
    }
}

impl<R: Read> Source for StdSource<R> {
    ghost left = { λ _. None };

    ghost faults = { λ s. s.faults };

    fn read(&mut self, into: &mut [u8]) -> Result<usize, ReadFault>
        ensures fits { IfOk result (λ n. n ≤ length into.old) }
        ensures cause { OnErr result (Rose self.old.faults self.new.faults) }
        ensures count { KeepsCount self.old.faults self.new.faults }
        // What the reader loses, where that is known.
        ensures reader { ReadConsumes
            (R.remaining self.old.reader) (R.remaining self.new.reader) result into.new }
    {
        match read_again(&mut self.reader, into) {
            Ok(count) => Ok(count),
            Err(_) => {
                self.faults.add();
                Err(ReadFault)
            }
        }
    }
}

/// Reads once, and again where a signal interrupted that.
fn read_again<R: Read>(reader: &mut R, into: &mut [u8]) -> io::Result<usize>
    ensures fits { IfOk result (λ n. n ≤ length into.old) }
    ensures reader { ReadConsumes
        (R.remaining reader.old) (R.remaining reader.new) result into.new }
{
    for _ in 0..u64::MAX {
        match reader.read(into) {
            Ok(count) => return Ok(count),
            Err(error) => {
                if error.kind() != ErrorKind::Interrupted {
                    return Err(error);
                }
            }
        }
    }
    Err(io::Error::from(ErrorKind::Interrupted))
}

/// A writer as a sink. Each error but an interruption counts as a fault, and so does a write that takes nothing.
/// What was taken is flushed at once, so that nothing waits in a buffer once a whole text was written.
#[derive(Drop)]
pub struct StdSink<W> {
    writer: W,
    faults: FaultCount,
}

impl<W: Write> StdSink<W> {
    pub fn new(writer: W) -> StdSink<W>
        ensures told { ⟦<StdSink<W> as Sink>⟧.held result ≡ None }
        ensures faults { ⟦<StdSink<W> as Sink>⟧.faults result ≡ 0 }
    {
        StdSink {
            writer,
            faults: FaultCount::new(),
        }
    }
}

impl<W: Write> Sink for StdSink<W> {
    ghost held = { λ _. None };

    ghost faults = { λ s. s.faults };

    fn write(&mut self, from: &[u8]) -> Result<usize, WriteFault>
        ensures fits { IfOk result (λ n. n ≤ length from.now) }
        ensures some { IfOk result (λ n. 0 < length from.now → 0 < n) }
        ensures cause { OnErr result (Rose self.old.faults self.new.faults) }
        ensures count { KeepsCount self.old.faults self.new.faults }
        // What the writer gains, where that is known; at a fault no more than one write.
        ensures writer { IfOk result (λ n.
            Appends (W.contents self.old.writer) (W.contents self.new.writer) (take n from.now)) }
        ensures part { OnErr result
            (AppendsPart (W.contents self.old.writer) (W.contents self.new.writer) from.now) }
    {
        if from.is_empty() {
            return Ok(0);
        }
        match write_again(&mut self.writer, from) {
            Ok(count) => {
                if count > 0 {
                    return Ok(count);
                }
            }
            Err(_) => {}
        }
        self.faults.add();
        Err(WriteFault)
    }
}

/// Writes once and flushes, each again where a signal interrupted it.
fn write_again<W: Write>(writer: &mut W, from: &[u8]) -> io::Result<usize>
    ensures fits { IfOk result (λ n. n ≤ length from.now) }
    ensures writer { IfOk result (λ n.
        Appends (W.contents writer.old) (W.contents writer.new) (take n from.now)) }
    ensures part { OnErr result
        (AppendsPart (W.contents writer.old) (W.contents writer.new) from.now) }
{
    for _ in 0..u64::MAX {
        match writer.write(from) {
            Ok(count) => {
                flush_again(writer)?;
                return Ok(count);
            }
            Err(error) => {
                if error.kind() != ErrorKind::Interrupted {
                    return Err(error);
                }
            }
        }
    }
    Err(io::Error::from(ErrorKind::Interrupted))
}

/// Flushes once, and again where a signal interrupted that.
fn flush_again<W: Write>(writer: &mut W) -> io::Result<()>
    ensures { Keeps (W.contents writer.old) (W.contents writer.new) }
{
    for _ in 0..u64::MAX {
        match writer.flush() {
            Ok(()) => return Ok(()),
            Err(error) => {
                if error.kind() != ErrorKind::Interrupted {
                    return Err(error);
                }
            }
        }
    }
    Err(io::Error::from(ErrorKind::Interrupted))
}

/// The files under a folder of the system. A name that is an absolute path, or that has an empty segment or one of `.`
/// and `..`, is no file's, and nothing is opened for it. Nor is a directory a file, nor does a path that the system can't
/// have name one. A link is followed, wherever it leads.
#[derive(Drop)]
pub struct DirFolder<R> {
    files: R,
    folder: String,
    asked: Asked,
    faults: FaultCount,
}

impl<R: Files> DirFolder<R> {
    /// The files under the folder with this path. The empty path is the folder that the program runs in.
    pub fn new(files: R, folder: String) -> DirFolder<R>
        ensures told { ⟦<DirFolder<R> as Folder>⟧.files result ≡ None }
        ensures asked { ⟦<DirFolder<R> as Folder>⟧.asked result ≡ [] }
        ensures faults { ⟦<DirFolder<R> as Folder>⟧.faults result ≡ 0 }
    {
        DirFolder {
            files,
            folder,
            asked: Asked::new(),
            faults: FaultCount::new(),
        }
    }
}

impl<R: Files> Folder for DirFolder<R> {
    ghost files = { λ _. None };

    ghost asked = { λ f. f.asked };

    ghost faults = { λ f. f.faults };

    fn read_file(&mut self, alloc: Global, name: &str, most: usize) -> Result<Vec<u8>, FolderFault>
        ensures within { IfOk result (λ bytes. vec_len bytes ≤ most) }
        ensures asked { self.new.asked ≡ self.old.asked ++ name.now ∷ [] }
        ensures cause { HasCause Failed self.old.faults self.new.faults result }
        ensures count { KeepsCount self.old.faults self.new.faults }
        ensures outside { spec.leads_down name.now ≡ false → result ≡ Err Missing }
    {
        self.asked.add(name);
        if !leads_down(name.as_bytes()) {
            return Err(FolderFault::Missing);
        }
        let path = Path::new(self.folder.as_str()).join(alloc, name)?;
        let fault = match open_file(&self.files, path.as_path()) {
            Ok(file) => {
                let mut source = StdSource::new(file);
                match read_all(alloc, &mut source, most) {
                    Ok(bytes) => return Ok(bytes),
                    Err(InputFault::TooLong) => FolderFault::TooLong,
                    Err(InputFault::Memory) => FolderFault::Memory,
                    Err(InputFault::Failed) => FolderFault::Failed,
                }
            }
            Err(fault) => fault,
        };
        if fault == FolderFault::Failed {
            self.faults.add();
        }
        Err(fault)
    }
}

/// Whether a name stays in the folder that it is looked up in.
fn leads_down(name: &[u8]) -> bool
    ensures { result ≡ spec.leads_down name.now }
{
    name.split(|byte| *byte == SLASH)
        .all(|segment| is_entry(segment))
}

fn is_entry(segment: &[u8]) -> bool
    ensures { result ≡ spec.is_entry segment.now }
{
    !segment.is_empty() && segment != b".".as_slice() && segment != b"..".as_slice()
}

/// Opens a file to read it.
fn open_file<R: Files>(files: &R, path: Path<'_>) -> Result<R::File, FolderFault> {
    match fs::open(files, path) {
        Ok(file) => match file.metadata() {
            Ok(metadata) => {
                if metadata.is_dir() {
                    return Err(FolderFault::Missing);
                }
                Ok(file)
            }
            Err(_) => Err(FolderFault::Failed),
        },
        Err(error) => Err(fault_of(error.kind())),
    }
}

/// What the runtime's answer says of the file.
fn fault_of(kind: ErrorKind) -> FolderFault {
    match kind {
        ErrorKind::NotFound
        | ErrorKind::NotADirectory
        | ErrorKind::IsADirectory
        | ErrorKind::InvalidInput
        | ErrorKind::InvalidFilename => FolderFault::Missing,
        ErrorKind::OutOfMemory => FolderFault::Memory,
        _ => FolderFault::Failed,
    }
}

/// The clock of the system.
#[derive(Drop)]
pub struct SysClock<R> {
    clock: R,
}

impl<R: rt::Clock> SysClock<R> {
    pub fn new(clock: R) -> SysClock<R>
        ensures { ⟦<SysClock<R> as Clock>⟧.readings result ≡ None }
    {
        SysClock { clock }
    }
}

impl<R: rt::Clock> Clock for SysClock<R> {
    ghost readings = { λ _. None };

    /// The microseconds since 1970 began, or 0 where the clock can't be read.
    fn now(&mut self) -> u64 {
        match SystemTime::now(&self.clock) {
            Ok(time) => match time.duration_since(SystemTime::UNIX_EPOCH) {
                Ok(duration) => micros_of(duration),
                Err(_) => 0,
            },
            Err(_) => 0,
        }
    }
}

/// The whole microseconds of a duration, as many as fit.
fn micros_of(duration: Duration) -> u64
    ensures { result ≡ min (as_nanos duration / 1000) (2 ^ 64 - 1) }
{
    duration
        .as_secs()
        .saturating_mul(1_000_000)
        .saturating_add(u64::from(duration.subsec_micros()))
}
