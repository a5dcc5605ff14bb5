//! What passes through a source, a folder and a clock that keep it.

use doll_base::{Clock, Folder, ListClock, MemFolder, MemSource, ViewFile, read_all};
use doll_explain::{KeptClock, KeptFolder, KeptSource};
use doll_text::{Name, Text};
use std::test::Fail;

#[test]
fn a_source_keeps_what_was_read(rt: HostRuntime) -> Result<(), Fail> {
    let bytes = Vec::from_slice(rt.alloc(), b"some bytes")
        .ok()
        .ok_or("no memory")?;
    let inner = MemSource::new(bytes, 3, Vec::new(rt.alloc()));
    let mut source = KeptSource::new(rt.alloc(), inner);
    let read = read_all(rt.alloc(), &mut source, 100)
        .ok()
        .ok_or("not read")?;
    assert_eq!(rt; read.as_slice(), b"some bytes".as_slice());
    assert_eq!(rt; source.bytes().ok_or("lost")?, b"some bytes".as_slice());
    Ok(())
}

#[test]
fn a_folder_keeps_its_files_and_the_name_that_it_lacks(rt: HostRuntime) -> Result<(), Fail> {
    let alloc = rt.alloc();
    let mut files = Vec::new(alloc);
    files.push(ViewFile {
        name: Name::from_bytes(alloc, b"a").ok().ok_or("no memory")?,
        source: Text::from_bytes(alloc, b"b").ok().ok_or("no memory")?,
    })?;
    let mut folder = KeptFolder::new(alloc, MemFolder::new(files, Vec::new(alloc)));
    assert!(rt; folder.read_file(alloc, "a", 9).is_ok());
    assert!(rt; folder.read_file(alloc, "c", 9).is_err());
    assert_eq!(rt; folder.files().ok_or("lost")?.len(), 1);
    assert_eq!(rt; folder.missed().ok_or("none")?.as_bytes(), b"c".as_slice());
    Ok(())
}

#[test]
fn a_clock_keeps_its_readings(rt: HostRuntime) -> Result<(), Fail> {
    let listed = Vec::from_slice(rt.alloc(), &[5, 7])
        .ok()
        .ok_or("no memory")?;
    let mut clock = KeptClock::new(rt.alloc(), ListClock::new(listed));
    assert_eq!(rt; clock.now(), 5);
    assert_eq!(rt; clock.now(), 7);
    assert_eq!(rt; clock.readings().ok_or("lost")?, [5u64, 7].as_slice());
    Ok(())
}
