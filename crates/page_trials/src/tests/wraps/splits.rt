//! Parents that are split.

ghost use Rattle.std.specs.Prelude.{IfOk};
ghost use Rattle.inline_value.specs.EditDoc.Whole.{IsOpen};

use super::listed;
use crate::tests::fixtures::{Act, Row, check_rows};
use inline_value::wrap::{Doc, split_parent};
use std::alloc::{AllocError, Global};
use std::test::Fail;

static SPLITS: [Row<Split>; 21] = [
    // in the middle, at the start and at the end; the id stays on the first half
    Row(
        "<p id=\"x\">a<b>b</b>c</p>",
        Split(4, 4),
        "<p id=\"x\">a</p><b>b</b><p>c</p>",
    ),
    Row("<p>a<b>b</b></p>", Split(3, 3), "a<p><b>b</b></p>"),
    Row("<p>a<b>b</b></p>", Split(4, 4), "<p>a</p><b>b</b>"),
    Row("<p>a<b>b</b>c</p>", Split(3, 4), "a<b>b</b><p>c</p>"),
    Row(
        "<p>a<b>b</b><i>c</i></p>",
        Split(4, 6),
        "<p>a</p><b>b</b><i>c</i>",
    ),
    // line breaks that the block made
    Row("<p>a<b>b</b></p>c", Split(4, 4), "<p>a</p><b>b</b><br>c"),
    Row("<p>a</p>b", Split(3, 3), "a<br>b"),
    Row("c<p>a</p>", Split(4, 4), "c<br>a"),
    Row(
        "a<p><b>x</b><br>y</p>",
        Split(4, 4),
        "a<br><b>x</b><p>y</p>",
    ),
    // a line break before the parent goes, also with an invisible node between them
    Row("a<br><p>b</p>", Split(5, 5), "a<br>b"),
    Row("a<br><i></i><p>b</p>", Split(6, 6), "a<i></i><br>b"),
    // members of other parents are left out, and so are those without a parent
    Row("<p>a</p><p>b</p>", Split(3, 5), "a<p>b</p>"),
    Row("<p>a</p>", Split(0, 3), "a"),
    Row("<p>a<b>b</b></p>", Split(99, 99), "<p>a<b>b</b></p>"),
    // the host stays, and so do the Document, an island and a nested host
    Row("<p>a</p>", Split(2, 2), "<p>a</p>"),
    Row("<p>a</p>", Split(1, 1), "<p>a</p>"),
    Row(
        "<p contenteditable=\"false\">a</p>",
        Split(3, 3),
        "<p contenteditable=\"false\">a</p>",
    ),
    Row(
        "<div contenteditable=\"true\"><p>a</p></div>",
        Split(3, 3),
        "<div contenteditable=\"true\"><p>a</p></div>",
    ),
    Row(
        "<div contenteditable=\"true\"><p>a</p></div>",
        Split(4, 4),
        "<div contenteditable=\"true\"><p>a</p></div>",
    ),
    // but they may be members
    Row(
        "<p>a<b contenteditable=\"false\">b</b></p>",
        Split(4, 4),
        "<p>a</p><b contenteditable=\"false\">b</b>",
    ),
    Row(
        "<div><p>a</p><div contenteditable=\"true\">b</div></div>",
        Split(5, 5),
        "<div><p>a</p></div><div contenteditable=\"true\">b</div>",
    ),
];

fn splits(alloc: Global, doc: &mut Doc, labels: (u32, u32)) -> Result<bool, AllocError>
    requires { IsOpen doc.old }
    ensures { IfOk result (λ _. IsOpen doc.new) }
{
    let list = listed(alloc, doc, labels)?;
    Ok(split_parent(alloc, doc, &list).is_ok())
}

// Splits the parent of the list of two labels.
struct Split(u32, u32);

impl Act for Split {
    fn act(&self, alloc: Global, doc: &mut Doc) -> Result<bool, Fail> {
        Ok(splits(alloc, doc, (self.0, self.1))?)
    }
}

#[test]
fn parents_are_split(rt: HostRuntime) -> Result<(), Fail> {
    check_rows(rt.alloc(), &SPLITS)
}
