//! Steps of deleting: each row of a table is what an editing host holds, where the caret or the ends
//! of a range stand by labels (1 is the host), where they stand after it, and what the host then
//! holds.

use crate::tests::fixtures::{Act, At, Row, check_rows, point, selects};
use delete_core::{
    Manner, canonical_spaces, canonicalize, delete_selection, first_equivalent, last_equivalent,
};
use inline_value::doc::Doc;
use std::alloc::Global;
use std::test::Fail;

// A deletion of the selection, with its flags.
struct Cut {
    manner: Manner,
    from: At,
    to: At,
    left: At,
}

impl Act for Cut {
    fn act(&self, alloc: Global, doc: &mut Doc) -> Result<bool, Fail> {
        doc.select(point(self.from), point(self.to));
        delete_selection(alloc, doc, self.manner)?;
        Ok(selects(doc, self.left, self.left))
    }
}

static CUT: [Row<Cut>; 4] = [
    // 2 p (3 "foo"), 4 p (5 "bar")
    Row(
        "<p>foo</p><p>bar</p>",
        Cut {
            manner: Manner::KEEP_BLOCKS,
            from: (3, 1),
            to: (5, 2),
            left: (3, 1),
        },
        "<p>f</p><p>r</p>",
    ),
    Row(
        "<p>foo</p><p>bar</p>",
        Cut {
            manner: Manner {
                backward: true,
                ..Manner::KEEP_BLOCKS
            },
            from: (3, 1),
            to: (5, 2),
            left: (5, 0),
        },
        "<p>f</p><p>r</p>",
    ),
    // 2 p (3 "a", 4 b (5 "b"), 6 "c")
    Row(
        "<p>a<b>b</b>c</p>",
        Cut {
            manner: Manner::KEEP_WRAPPERS,
            from: (5, 0),
            to: (5, 1),
            left: (4, 0),
        },
        "<p>a<b></b>c</p>",
    ),
    Row(
        "<p>a<b>b</b>c</p>",
        Cut {
            manner: Manner::BACKWARD,
            from: (3, 0),
            to: (6, 1),
            left: (2, 0),
        },
        "<p><br></p>",
    ),
];

#[test]
fn selections_go_by_their_flags(rt: HostRuntime) -> Result<(), Fail> {
    check_rows(rt.alloc(), &CUT)
}

// Whitespace made canonical at a point, with the flag to drop what shows nothing.
struct Canonical(At, bool);

impl Act for Canonical {
    fn act(&self, alloc: Global, doc: &mut Doc) -> Result<bool, Fail> {
        canonicalize(alloc, doc, point(self.0), self.1)?;
        Ok(true)
    }
}

static CANONICAL: [Row<Canonical>; 17] = [
    // 2 p (3 "a b")
    Row("<p>a b</p>", Canonical((3, 1), true), "<p>a b</p>"),
    Row("<p>a  b</p>", Canonical((3, 2), true), "<p>a b</p>"),
    Row("<p>a  b</p>", Canonical((3, 2), false), "<p>a&nbsp; b</p>"),
    Row(
        "<p>a   b</p>",
        Canonical((3, 2), false),
        "<p>a &nbsp; b</p>",
    ),
    Row(
        "<p>a    b</p>",
        Canonical((3, 2), false),
        "<p>a &nbsp;&nbsp; b</p>",
    ),
    Row("<p>  b</p>", Canonical((3, 1), false), "<p>&nbsp; b</p>"),
    Row("<p>a  </p>", Canonical((3, 2), false), "<p>a &nbsp;</p>"),
    Row("<p>  </p>", Canonical((3, 1), false), "<p>&nbsp;&nbsp;</p>"),
    Row("<p>a </p>", Canonical((3, 1), true), "<p>a</p>"),
    Row("<p> b</p>", Canonical((3, 0), true), "<p>b</p>"),
    Row("<p>a&nbsp;b</p>", Canonical((3, 1), true), "<p>a b</p>"),
    Row(
        "<pre>a  b</pre>",
        Canonical((3, 2), true),
        "<pre>a  b</pre>",
    ),
    Row(
        "<p style=\"white-space: pre-wrap\">a  b</p>",
        Canonical((3, 2), true),
        "<p style=\"white-space: pre-wrap\">a  b</p>",
    ),
    // 2 "a ", 3 b (4 " b")
    Row("a <b> b</b>", Canonical((2, 2), true), "a <b>b</b>"),
    Row("a <b> b</b>", Canonical((2, 2), false), "a&nbsp;<b> b</b>"),
    // 2 "a ", 3 br, 4 " b"
    Row("a <br> b", Canonical((4, 0), true), "a <br>b"),
    // 2 p (3 span (4 "a  b"))
    Row(
        "<p><span contenteditable=\"false\">a  b</span></p>",
        Canonical((4, 2), true),
        "<p><span contenteditable=\"false\">a  b</span></p>",
    ),
];

#[test]
fn whitespace_becomes_canonical(rt: HostRuntime) -> Result<(), Fail> {
    check_rows(rt.alloc(), &CANONICAL)
}

#[test]
fn spaces_in_a_row(rt: HostRuntime) -> Result<(), Fail> {
    let spaces = canonical_spaces(rt.alloc(), 5, false, true)?;
    assert_eq!(rt;
        spaces.as_slice(),
        [' ', '\u{a0}', ' ', '\u{a0}', '\u{a0}'].as_slice()
    );
    Ok(())
}

// A point, and the last and the first one that are equivalent to it.
struct Equivalent(At, At, At);

impl Act for Equivalent {
    fn act(&self, alloc: Global, doc: &mut Doc) -> Result<bool, Fail> {
        let at = point(self.0);
        Ok(last_equivalent(doc, at) == point(self.1) && first_equivalent(doc, at) == point(self.2))
    }
}

static EQUIVALENT: [Row<Equivalent>; 3] = [
    // 2 p (3 "a", 4 b (5 "b"))
    Row(
        "<p>a<b>b</b></p>",
        Equivalent((5, 1), (2, 2), (5, 1)),
        "<p>a<b>b</b></p>",
    ),
    Row(
        "<p>a<b>b</b></p>",
        Equivalent((5, 0), (5, 0), (3, 1)),
        "<p>a<b>b</b></p>",
    ),
    Row(
        "<p>a<b>b</b></p>",
        Equivalent((3, 1), (5, 0), (3, 1)),
        "<p>a<b>b</b></p>",
    ),
];

#[test]
fn points_are_equivalent(rt: HostRuntime) -> Result<(), Fail> {
    check_rows(rt.alloc(), &EQUIVALENT)
}
