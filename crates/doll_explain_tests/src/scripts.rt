//! Scripts that go wrong at a line: what is said of each first, and the whole text of some.

use crate::texts::{MODELS, explained, first_line};
use doll_explain::Answer;
use doll_text::Memory;
use std::alloc::Global;
use std::test::Fail;

/// Lines that are no orders, as JSON writes them, with the first lines of their explanations. They are the second of their script.
const LINES: [(&str, &str); 31] = [
    ("", "script:2:1: this line is empty"),
    (" now 1", "script:2:1: this space is one too many"),
    ("start 1 /", "script:2:1: `start` isn't an order"),
    ("GET /", "script:2:1: `GET` isn't an order"),
    ("é", "script:2:1: `é` isn't an order"),
    ("now", "script:2:4: a time is missing here"),
    ("now ", "script:2:5: a time is missing here"),
    ("now  1", "script:2:5: this space is one too many"),
    ("now 010", "script:2:5: `010` has a zero before it"),
    (
        "now 18446744073709551616",
        "script:2:5: `18446744073709551616` is too late",
    ),
    ("now -1", "script:2:5: `-1` isn't a time"),
    ("now 1 2", "script:2:7: `2` is too much"),
    ("commit", "script:2:7: the changes are missing here"),
    ("commit [}", "script:2:9: this isn't JSON"),
    ("commit {}", "script:2:8: this isn't an array"),
    (
        "commit [{\\\"touch\\\":\\\"game\\\",\\\"id\\\":1},{\\\"touch\\\":\\\"game\\\"}]",
        "script:2:33: `{\"touch\":\"game\"}` isn't a change",
    ),
    ("commit [7, 7]", "script:2:8: `7` isn't a change"),
    ("open 0 /", "script:2:6: `0` isn't the number of a session"),
    ("open 1", "script:2:7: a path is missing here"),
    ("open 1 notes", "script:2:8: `notes` isn't a path"),
    ("open 1 / ", "script:2:9: this space is one too many"),
    ("open 1 / saw 1", "script:2:10: `saw` isn't `seen`"),
    ("open 1 / seen", "script:2:14: a time is missing here"),
    ("open 1 /é seen x", "script:2:16: `x` isn't a time"),
    (
        "turn 1001",
        "script:2:6: `1001` isn't the number of a session",
    ),
    ("turn 01", "script:2:6: `01` has a zero before it"),
    ("run 1 2", "script:2:7: `2` is too much"),
    ("get games", "script:2:5: `games` isn't a path"),
    ("get /a b", "script:2:8: `b` is too much"),
    ("expire ", "script:2:7: this space is one too many"),
    ("expire now", "script:2:8: `now` is too much"),
];

/// The explanation of a script that goes wrong at a line.
fn of_script(alloc: Global, script: &[&str], line: u32) -> Result<String, Memory> {
    let [first, second, third] = script else {
        return Err(Memory);
    };
    let parts = [
        "{",
        MODELS,
        ",\"script\":[\"",
        first,
        "\",\"",
        second,
        "\",\"",
        third,
        "\"]}",
    ];
    explained(alloc, Answer::ScriptRefused { line }, parts.as_slice(), "")
}

#[test]
fn a_line_that_is_no_order_is_told_with_its_place(rt: HostRuntime) -> Result<(), Fail> {
    for (line, wanted) in LINES {
        let script = ["expire", line, "expire"];
        let text = of_script(rt.alloc(), &script, 2).ok().ok_or("no memory")?;
        assert_eq!(rt; first_line(text.as_str()), wanted.as_bytes());
    }
    Ok(())
}

/// What is told where a line isn't an order comes before what to write instead, and that before the orders.
const NEAR: &str = "script:2:1: `opne` isn't an order
    2 | opne 1 /\\u{1b}\\u{a}
      | ^^^^
An order begins with its word in lower case, and a space behind it where more follows.
The nearest order is `open SESSION PATH`.
The orders are:
  now MICROSECONDS               the clock shows this time
  commit CHANGES                 these changes are made: commit [{\"touch\": \"product\", \"id\": 1}]
  open SESSION PATH              a session begins with the page of a path
  open SESSION PATH seen MOMENT  the same for a visitor who has seen the page of this moment
  turn SESSION                   a session takes one turn
  run SESSION                    a session takes turns until its page comes
  get PATH                       the page of a path is rendered at once
  expire                         a batch of old entries is removed
";

#[test]
fn a_line_is_shown_with_the_orders(rt: HostRuntime) -> Result<(), Fail> {
    let script = ["expire", "opne 1 /\\u001b\\n", "expire"];
    let text = of_script(rt.alloc(), &script, 2).ok().ok_or("no memory")?;
    assert_eq!(rt; text.as_bytes(), NEAR.as_bytes());
    Ok(())
}

/// The last line before it that is about the session stands above it.
const OPEN: &str = "script:3:6: this session is open already
    2 | turn 1
    3 | open 1 /games
      |      ^
A session is open from its `open` until its page comes, with a `run` or the last `turn` of it.
Let it come to its page first, or give this one another number.
";

/// No line is about the session before it.
const CLOSED: &str = "script:2:5: this session isn't open
    2 | run 12
      |     ^^
A session is open from its `open` until its page comes. An `open` that is answered with a status opens none.
";

#[test]
fn a_session_is_told_with_the_line_before(rt: HostRuntime) -> Result<(), Fail> {
    let scripts = [
        (["open 1 /games", "turn 1", "open 1 /games"], 3, OPEN),
        (["open 1 /games", "run 12", "expire"], 2, CLOSED),
    ];
    for (script, line, wanted) in scripts {
        let text = of_script(rt.alloc(), &script, line)
            .ok()
            .ok_or("no memory")?;
        assert_eq!(rt; text.as_bytes(), wanted.as_bytes());
    }
    Ok(())
}
