//! Lines and columns, counted by hand.

use doll_excerpt::{Place, place_of};
use std::test::Fail;

/// Texts, bytes of them, and the lines and columns of these.
const PLACES: [(&str, usize, usize, usize); 14] = [
    ("", 0, 1, 1),
    ("", 5, 1, 1),
    ("abc", 0, 1, 1),
    ("abc", 3, 1, 4),
    ("abc", 9, 1, 4),
    ("a\nb", 1, 1, 2),
    ("a\nb", 2, 2, 1),
    ("a\r\nb", 3, 2, 1),
    ("\t\tx", 2, 1, 3),
    ("é<", 2, 1, 2),
    ("€<", 3, 1, 2),
    ("😀<", 4, 1, 2),
    ("é\n\n😀€<", 11, 3, 3),
    ("a\n", 2, 2, 1),
];

#[test]
fn lines_and_columns_are_counted_in_characters(rt: HostRuntime) -> Result<(), Fail> {
    for (text, at, line, column) in PLACES {
        let place = place_of(text.as_bytes(), at);
        assert_eq!(rt; place.line, line);
        assert_eq!(rt; place.column, column);
    }
    Ok(())
}
