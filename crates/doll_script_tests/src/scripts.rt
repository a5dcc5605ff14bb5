//! Lines that are orders and lines that are none, and a script of several.

use doll_script::{Order, Script, ScriptFault};
use doll_text::{Memory, Text};
use std::alloc::Global;
use std::test::Fail;

/// Lines, each with whether it is an order.
const LINES: [(&str, bool); 44] = [
    ("now 0", true),
    ("now 10", true),
    ("now 18446744073709551615", true),
    ("now 18446744073709551616", false),
    ("now 00", false),
    ("now 010", false),
    ("now ", false),
    ("now", false),
    ("now -1", false),
    ("now 1 ", false),
    ("now  1", false),
    ("commit []", true),
    ("commit  [] ", true),
    (
        "commit [{\"create\":\"note\",\"values\":{\"body\":\"b c\"}}]",
        true,
    ),
    (
        "commit [{\"destroy\":\"note\",\"id\":1}, {\"touch\":\"note\",\"id\":2}]",
        true,
    ),
    ("commit {}", false),
    ("commit [1]", false),
    ("commit [", false),
    ("commit", false),
    ("commit ", false),
    ("open 1 /", true),
    ("open 1000 /notes/1?a=b", true),
    ("open 1 /notes/1 seen 0", true),
    ("open 1 /notes/1 seen 18446744073709551615", true),
    ("open 0 /", false),
    ("open 1001 /", false),
    ("open 01 /", false),
    ("open 1 notes", false),
    ("open 1  /", false),
    ("open 1", false),
    ("open 1 / ", false),
    ("open 1 / seen", false),
    ("open 1 / seen ", false),
    ("open 1 / seen 1 ", false),
    ("open 1 / saw 1", false),
    ("turn 1", true),
    ("turn 0", false),
    ("run 1000", true),
    ("run 1 2", false),
    ("get /games\t\n", true),
    ("get /a b", false),
    ("expire", true),
    ("expire ", false),
    ("", false),
];

fn text(alloc: Global, line: &str) -> Result<Text, Memory> {
    Text::from_bytes(alloc, line.as_bytes())
}

/// Whether a line is an order.
fn is_order(alloc: Global, line: &str) -> Result<bool, ScriptFault> {
    let lines = [text(alloc, line)?];
    match Script::read(alloc, &lines) {
        Ok(_) => Ok(true),
        Err(ScriptFault::Line { .. }) => Ok(false),
        Err(ScriptFault::Memory) => Err(ScriptFault::Memory),
    }
}

#[test]
fn lines_are_orders_or_none(rt: HostRuntime) -> Result<(), Fail> {
    for (line, expected) in &LINES {
        let is_one = is_order(rt.alloc(), line).ok().ok_or("no memory")?;
        assert!(rt; is_one == *expected);
    }
    Ok(())
}

/// A clock told to be later than it can show, a start and a path.
fn three_orders(alloc: Global) -> Result<Script, ScriptFault> {
    let lines = [
        text(alloc, "now 5000000000000000000")?,
        text(alloc, "open 7 /notes/1 seen 12")?,
        text(alloc, "get /notes/2")?,
    ];
    Script::read(alloc, &lines)
}

#[test]
fn orders_say_what_their_lines_say(rt: HostRuntime) -> Result<(), Fail> {
    let script = three_orders(rt.alloc()).ok().ok_or("refused")?;
    let [
        Order::Now { now },
        Order::Open {
            session,
            target,
            seen,
        },
        Order::Get { target: page },
    ] = script.lines.as_slice()
    else {
        return Err(Fail::from("other orders"));
    };
    assert!(rt; *now == 4_611_686_018_427_387_904);
    assert!(rt; *session == 7);
    assert!(rt; *seen == 12);
    assert!(rt; target.as_bytes() == "/notes/1".as_bytes());
    assert!(rt; page.as_bytes() == "/notes/2".as_bytes());
    Ok(())
}

/// Two lines that are no orders, behind one that is.
fn two_bad_lines(alloc: Global) -> Result<Script, ScriptFault> {
    let lines = [
        text(alloc, "expire")?,
        text(alloc, "turn one")?,
        text(alloc, "turn")?,
    ];
    Script::read(alloc, &lines)
}

#[test]
fn the_first_line_that_is_no_order_is_told(rt: HostRuntime) -> Result<(), Fail> {
    match two_bad_lines(rt.alloc()) {
        Err(ScriptFault::Line { line }) => assert!(rt; line == 2),
        _ => return Err(Fail::from("no line is told")),
    }
    Ok(())
}
