//! The outside of the program: sources and sinks in pieces, streams that are interrupted or fail, files and clocks.

use doll_base::*;
use std::alloc::Global;
use std::io::{Error, ErrorKind, Read, Result as IoResult, Write};
use std::os::unix::fs::symlink;
use std::test::Fail;
use std::time::{Duration, SystemTime};
use std::{env, fs};

const TEXT: &[u8] = b"a page of bytes";

/// A name of a file that nobody else has.
const NAME: &str = "doll_rows_reads_this_file";

/// A folder of the system. Its file `mem` opens and can't be read at its begin.
const PROCESS: &str = "/proc/self";

/// A name of a link to itself.
const LOOP: &str = "doll_rows_follows_this_link";

/// A reader and a writer whose calls are interrupted first, then serve, a byte at each, and then fail; and whose flushes are
/// interrupted first and then serve, or fail once so many bytes were served.
#[derive(Drop)]
struct Stream {
    interruptions: usize,
    serving: usize,
    flush_interruptions: usize,
    flushing: usize,
}

/// Makes one of these calls.
fn call(interruptions: &mut usize, serving: &mut usize) -> IoResult<()> {
    if *interruptions > 0 {
        *interruptions -= 1;
        return Err(Error::from(ErrorKind::Interrupted));
    }
    if *serving == 0 {
        return Err(Error::from(ErrorKind::BrokenPipe));
    }
    *serving -= 1;
    Ok(())
}

impl Read for Stream {
    fn read(&mut self, into: &mut [u8]) -> IoResult<usize> {
        call(&mut self.interruptions, &mut self.serving)?;
        Ok(into.len().min(1))
    }
}

impl Write for Stream {
    fn write(&mut self, from: &[u8]) -> IoResult<usize> {
        call(&mut self.interruptions, &mut self.serving)?;
        Ok(from.len().min(1))
    }

    fn flush(&mut self) -> IoResult<()> {
        call(&mut self.flush_interruptions, &mut self.flushing)
    }
}

/// What is read of the text at most, in pieces of 4 bytes, where these calls fail.
fn read_in_pieces(alloc: Global, most: usize, failing: &[u64]) -> Result<Vec<u8>, InputFault> {
    let text = Vec::from_slice(alloc, TEXT)?;
    let failing = Vec::from_slice(alloc, failing)?;
    read_all(alloc, &mut MemSource::new(text, 4, failing), most)
}

#[test]
fn bytes_come_in_pieces_until_a_call_fails(rt: HostRuntime) -> Result<(), Fail> {
    let alloc = rt.alloc();
    let read = read_in_pieces(alloc, 15, &[5]).ok().ok_or("not read")?;
    assert_eq!(rt; read.as_slice(), TEXT);
    let long = read_in_pieces(alloc, 14, &[]).err();
    assert!(rt; long == Some(InputFault::TooLong));
    let failed = read_in_pieces(alloc, 15, &[2]).err();
    assert!(rt; failed == Some(InputFault::Failed));
    Ok(())
}

/// Writes the text twice.
fn write_twice<K: Sink>(sink: &mut K) -> (Result<(), WriteFault>, Result<(), WriteFault>) {
    (write_whole(sink, TEXT), write_whole(sink, TEXT))
}

#[test]
fn bytes_go_in_pieces_until_a_call_fails(rt: HostRuntime) -> Result<(), Fail> {
    let alloc = rt.alloc();
    let mut sink = MemSink::new(alloc, 3, [7].to_vec(alloc)?);
    assert!(rt; write_twice(&mut sink) == (Ok(()), Err(WriteFault)));
    assert_eq!(rt; sink.held(), b"a page of bytesa page".as_slice());
    Ok(())
}

#[test]
fn a_slice_is_read_and_written_to_its_end(rt: HostRuntime) -> Result<(), Fail> {
    let read = read_all(rt.alloc(), &mut StdSource::new(TEXT), 100).ok();
    assert_eq!(rt; read.ok_or("not read")?.as_slice(), TEXT);
    let mut room = [0; 20];
    let mut full = StdSink::new(room.as_mut_slice());
    assert!(rt; write_twice(&mut full) == (Ok(()), Err(WriteFault)));
    assert_eq!(rt; room.as_slice(), b"a page of bytesa pag".as_slice());
    Ok(())
}

/// What comes of a byte that is written to a stream whose calls are interrupted twice.
fn written(serving: usize, flushing: usize) -> Result<(), WriteFault> {
    let mut sink = StdSink::new(Stream {
        interruptions: 2,
        serving,
        flush_interruptions: 2,
        flushing,
    });
    write_whole(&mut sink, b"a")
}

#[test]
fn an_interrupted_call_is_made_again_and_a_failed_one_is_a_fault(
    rt: HostRuntime,
) -> Result<(), Fail> {
    let mut source = StdSource::new(Stream {
        interruptions: 2,
        serving: 1,
        flush_interruptions: 0,
        flushing: 0,
    });
    let mut room = [7; 4];
    assert!(rt; source.read(&mut room) == Ok(1));
    assert!(rt; source.read(&mut room) == Err(ReadFault));
    assert!(rt; written(1, 1) == Ok(()));
    assert!(rt; written(0, 1) == Err(WriteFault));
    assert!(rt; written(1, 0) == Err(WriteFault));
    Ok(())
}

/// Why a file isn't read.
fn fault_of<F: Folder>(
    alloc: Global,
    folder: &mut F,
    name: &str,
    most: usize,
) -> Option<FolderFault> {
    folder.read_file(alloc, name, most).err()
}

#[test]
fn files_are_read_missed_or_too_long(rt: HostRuntime) -> Result<(), Fail> {
    let alloc = rt.alloc();
    let place = env::temp_dir(&rt)?;
    let path = place.join(alloc, NAME)?;
    let mut folder = DirFolder::new(&rt, String::from_str(alloc, place.as_path().as_str())?);
    fs::write(&rt, path.as_path(), "twelve bytes")?;
    let found = folder.read_file(alloc, NAME, 12).ok();
    let long = fault_of(alloc, &mut folder, NAME, 11);
    // Nothing stays behind, whatever was found.
    fs::remove_file(&rt, path.as_path())?;
    assert_eq!(rt;
        found.ok_or("not read")?.as_slice(),
        b"twelve bytes".as_slice()
    );
    assert!(rt; long == Some(FolderFault::TooLong));
    assert!(rt; fault_of(alloc, &mut folder, NAME, 12) == Some(FolderFault::Missing));
    Ok(())
}

#[test]
fn a_link_to_itself_fails(rt: HostRuntime) -> Result<(), Fail> {
    let alloc = rt.alloc();
    let place = env::temp_dir(&rt)?;
    let link = place.join(alloc, LOOP)?;
    let mut folder = DirFolder::new(&rt, String::from_str(alloc, place.as_path().as_str())?);
    symlink(&rt, link.as_path(), link.as_path())?;
    let looped = fault_of(alloc, &mut folder, LOOP, 12);
    fs::remove_file(&rt, link.as_path())?;
    assert!(rt; looped == Some(FolderFault::Failed));
    Ok(())
}

#[test]
fn names_that_lead_out_of_a_folder_are_missed(rt: HostRuntime) -> Result<(), Fail> {
    let alloc = rt.alloc();
    let mut folder = DirFolder::new(&rt, String::from_str(alloc, PROCESS)?);
    for (name, wanted) in [
        ("mem", FolderFault::Failed),
        ("/proc/self/mem", FolderFault::Missing),
        ("../self/mem", FolderFault::Missing),
        ("fd/../mem", FolderFault::Missing),
        ("./mem", FolderFault::Missing),
        ("fdinfo//0", FolderFault::Missing),
        ("fd", FolderFault::Missing),
        ("a\0b", FolderFault::Missing),
    ] {
        let told = fault_of(alloc, &mut folder, name, 12);
        assert!(rt; told == Some(wanted), "of {name}");
    }
    Ok(())
}

/// A folder in memory with one file, of 11 bytes, whose call 3 fails.
fn small_folder(alloc: Global) -> Result<MemFolder, Memory> {
    let mut files = Vec::new(alloc);
    files.push(ViewFile {
        name: Name::from_bytes(alloc, b"a/b")?,
        source: Text::from_bytes(alloc, b"eleven byte")?,
    })?;
    Ok(MemFolder::new(files, [3].to_vec(alloc)?))
}

#[test]
fn a_folder_in_memory_has_its_files(rt: HostRuntime) -> Result<(), Fail> {
    let alloc = rt.alloc();
    let mut folder = small_folder(alloc).ok().ok_or("no memory")?;
    for (name, most, wanted) in [
        ("a/b", 11, None),
        ("a/b", 10, Some(FolderFault::TooLong)),
        ("b", 11, Some(FolderFault::Missing)),
        ("a/b", 11, Some(FolderFault::Failed)),
    ] {
        let told = fault_of(alloc, &mut folder, name, most);
        assert!(rt; told == wanted, "of {name} and {most}");
    }
    let found = folder.read_file(alloc, "a/b", 11).ok().ok_or("not read")?;
    assert_eq!(rt; found.as_slice(), b"eleven byte".as_slice());
    Ok(())
}

#[test]
fn clocks_tell_the_time(rt: HostRuntime) -> Result<(), Fail> {
    let alloc = rt.alloc();
    let mut listed = ListClock::new([5, 8].to_vec(alloc)?);
    assert_eq!(rt; [listed.now(), listed.now(), listed.now()], [5, 8, 8]);
    let mut clock = SysClock::new(&rt);
    let before = SystemTime::now(&rt)?.duration_since(SystemTime::UNIX_EPOCH)?;
    let reading = clock.now();
    let after = SystemTime::now(&rt)?.duration_since(SystemTime::UNIX_EPOCH)?;
    // A reading has whole microseconds, so it may be less than a microsecond before its moment.
    assert!(rt; Duration::from_micros(reading.saturating_add(1)) > before);
    assert!(rt; Duration::from_micros(reading) <= after);
    Ok(())
}
