//! Bundles whose files are in a folder, worked by hand.

use crate::answer::answer;
use crate::tables::json;
use doll_base::{MemFolder, ViewFile};
use doll_text::{Bytes, Memory, Name, Text};
use std::alloc::Global;
use std::test::Fail;

/// The files of the folder, each a name and its bytes. The second is no text, and the third has a name that is none of a file.
const FILES: [(&str, &[u8]); 4] = [
    ("home.html.erb", b"home"),
    ("games/note.html.erb", b"\xe9"),
    ("Home.html.erb", b"x"),
    ("games/_row.html.erb", b"row"),
];

/// A number that no call of the folder has.
const NONE: u64 = 0xffff_ffff_ffff_ffff;

/// What a bundle says before its files.
const BEFORE: &str = r#"{"schema":{"models":[]},"routes":[{"path":"/","template":"home"}],"#;

/// What a bundle says of its files, the number of the call of the folder that fails, and the answer to the path `/`.
const ROWS: [(&str, u64, &str); 18] = [
    (r#""files":["home.html.erb"]"#, NONE, "home"),
    (
        r#""files":["home.html.erb","games/_row.html.erb"],"views":{"a.html.erb":"<"}"#,
        NONE,
        "home",
    ),
    (
        r#""views":{"home.html.erb":"[<%= render \"games/row\" %>]"},"files":["games/_row.html.erb"]"#,
        NONE,
        "[row]",
    ),
    (
        r#""files":["home.html.erb","gone.html.erb"],"views":{"a.html.erb":"<% end %>"}"#,
        NONE,
        "bundle views 1: Missing",
    ),
    (
        r#""files":["home.html.erb","games/note.html.erb"],"views":{"a.html.erb":"<% end %>"}"#,
        NONE,
        "bundle views 1: BadForm",
    ),
    (
        r#""files":["games/note.html.erb","a.html.erb"]"#,
        NONE,
        "bundle views 0: Missing",
    ),
    (
        r#""files":["home.html.erb","home.html.erb"]"#,
        NONE,
        "bundle views 1: Duplicate",
    ),
    (
        r#""files":["home.html.erb"],"views":{"home.html.erb":"x"}"#,
        NONE,
        "bundle views 1: Duplicate",
    ),
    (
        r#""files":["home.html.erb","Home.html.erb"]"#,
        NONE,
        "bundle views 0: BadName",
    ),
    (
        r#""files":["home.html.erb","Homes.html.erb"]"#,
        NONE,
        "bundle views 0: Missing",
    ),
    (r#""files":{}"#, NONE, "bundle views 0: BadForm"),
    (
        r#""files":["gone.html.erb",7]"#,
        NONE,
        "bundle views 0: BadForm",
    ),
    (
        r#""files":["aa.html.erb"],"views":{"a.html.erb":"","b.html.erb":7}"#,
        NONE,
        "bundle views 2: BadForm",
    ),
    (r#""files":["home.html.erb"]"#, 0, "failed"),
    (r#""files":["home.html.erb"]"#, 1, "home"),
    (
        r#""files":["home.html.erb","games/_row.html.erb"]"#,
        1,
        "failed",
    ),
    (
        r#""files":["home.html.erb","gone.html.erb"]"#,
        1,
        "bundle views 0: Missing",
    ),
    (
        r#""files":["home.html.erb","home.html.erb"]"#,
        1,
        "bundle views 1: Duplicate",
    ),
];

/// A file of these bytes.
pub fn file(alloc: Global, name: &str, source: &[u8]) -> Result<ViewFile, Memory> {
    Ok(ViewFile {
        name: Name::from_bytes(alloc, name.as_bytes())?,
        source: Text::from_bytes(alloc, source)?,
    })
}

/// The folder, of whose calls that with this number fails.
fn folder(alloc: Global, failing: u64) -> Result<MemFolder, Memory> {
    let mut files = Vec::new(alloc);
    for (name, source) in &FILES {
        files.push(file(alloc, name, source)?)?;
    }
    Ok(MemFolder::new(files, Vec::from_slice(alloc, &[failing])?))
}

/// The answer of a bundle that says this of its files to the path `/`.
pub fn home(alloc: Global, says: &str, folder: MemFolder) -> Result<Bytes, Fail> {
    let text = format!(in alloc; "{BEFORE}{says}}}")?;
    let bundle = json(alloc, text.as_str())?;
    Ok(answer(alloc, &bundle, folder, "/").ok().ok_or("no memory")?)
}

#[test]
fn files_are_read_as_worked_by_hand(rt: HostRuntime) -> Result<(), Fail> {
    let alloc = rt.alloc();
    for (says, failing, wanted) in &ROWS {
        let folder = folder(alloc, *failing).ok().ok_or("no memory")?;
        let found = home(alloc, says, folder)?;
        assert!(rt; found.as_slice() == wanted.as_bytes(), "of {says}");
    }
    Ok(())
}
