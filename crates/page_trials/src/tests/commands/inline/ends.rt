//! The ends of the active range, at which texts are split.

use crate::tests::fixtures::{Act, Row, check_rows, point};
use inline_value::doc::{Doc, Pair};
use inline_value::split_ends;
use std::alloc::Global;
use std::test::Fail;

// The anchor and the focus, and those once both ends are split; and the label that then comes next,
// which tells how many texts were split.
struct Ends(((u32, u32), (u32, u32)), ((u32, u32), (u32, u32)), u32);

impl Act for Ends {
    fn act(&self, alloc: Global, doc: &mut Doc) -> Result<bool, Fail> {
        let Ends(before, after, next) = self;
        doc.select(point(before.0), point(before.1));
        split_ends(alloc, doc)?;
        let wanted = Pair {
            anchor: point(after.0),
            focus: point(after.1),
        };
        let selected = doc.points().selection() == Some(wanted);
        Ok(selected && doc.arena().next_label() == *next)
    }
}

static ENDS: [Row<Ends>; 17] = [
    // inside the text, at offset 0, and at its length
    Row(
        "foobar",
        Ends(((2, 1), (2, 4)), ((3, 0), (3, 3)), 5),
        "foobar",
    ),
    Row(
        "foobar",
        Ends(((2, 0), (2, 4)), ((2, 0), (2, 4)), 4),
        "foobar",
    ),
    Row(
        "foobar",
        Ends(((2, 2), (2, 6)), ((3, 0), (3, 4)), 4),
        "foobar",
    ),
    Row(
        "foobar",
        Ends(((2, 0), (2, 6)), ((2, 0), (2, 6)), 3),
        "foobar",
    ),
    // equal ends, of which the start goes on and the end along
    Row(
        "foobar",
        Ends(((2, 3), (2, 3)), ((3, 0), (3, 0)), 4),
        "foobar",
    ),
    Row(
        "foobar",
        Ends(((2, 0), (2, 0)), ((2, 0), (2, 0)), 3),
        "foobar",
    ),
    Row(
        "foobar",
        Ends(((2, 6), (2, 6)), ((2, 6), (2, 6)), 3),
        "foobar",
    ),
    // backward
    Row(
        "foobar",
        Ends(((2, 4), (2, 1)), ((3, 3), (3, 0)), 5),
        "foobar",
    ),
    Row(
        "foobar",
        Ends(((2, 6), (2, 2)), ((3, 4), (3, 0)), 4),
        "foobar",
    ),
    Row(
        "ab<b>cd</b>",
        Ends(((4, 1), (2, 1)), ((4, 1), (5, 0)), 7),
        "ab<b>cd</b>",
    ),
    // in two texts, in a text and an element, and in elements
    Row(
        "ab<b>cd</b>",
        Ends(((2, 1), (4, 1)), ((5, 0), (4, 1)), 7),
        "ab<b>cd</b>",
    ),
    Row(
        "ab<b>cd</b>",
        Ends(((1, 0), (4, 1)), ((1, 0), (4, 1)), 6),
        "ab<b>cd</b>",
    ),
    Row(
        "ab<b>cd</b>",
        Ends(((2, 1), (1, 2)), ((5, 0), (1, 3)), 6),
        "ab<b>cd</b>",
    ),
    Row(
        "ab<b>cd</b>",
        Ends(((3, 0), (3, 1)), ((3, 0), (3, 1)), 5),
        "ab<b>cd</b>",
    ),
    // a text that isn't editable, and a comment
    Row(
        "<span contenteditable=\"false\">ab</span>cd",
        Ends(((3, 1), (4, 1)), ((3, 1), (4, 1)), 6),
        "<span contenteditable=\"false\">ab</span>cd",
    ),
    Row(
        "ab<span contenteditable=\"true\">cd</span>",
        Ends(((2, 1), (4, 1)), ((5, 0), (4, 1)), 6),
        "ab<span contenteditable=\"true\">cd</span>",
    ),
    Row(
        "<!--ab-->cd",
        Ends(((2, 1), (3, 1)), ((2, 1), (3, 1)), 5),
        "<!--ab-->cd",
    ),
];

#[test]
fn ends_are_split(rt: HostRuntime) -> Result<(), Fail> {
    check_rows(rt.alloc(), &ENDS)
}
