//! Lists that are wrapped.

use super::listed;
use crate::tests::fixtures::{Act, Row, check_rows};
use edit_model::dom::{Attributes, Name};
use inline_value::wrap::{Blank, CopyMade, Doc, NoSibling, WrapRule, wrap};
use std::alloc::{AllocError, Global};
use std::test::Fail;

static WRAPS: [Row<Wrap>; 11] = [
    Row("a<b>b</b>c", Wrap(3, 3), "a<div><b>b</b></div>c"),
    // with the br after it, and invisible neighbours
    Row("a<b>b</b><br>c", Wrap(3, 3), "a<div><b>b</b></div>c"),
    Row(
        "a<i></i><b>b</b>",
        Wrap(4, 4),
        "a<div><i></i><b>b</b></div>",
    ),
    Row(" a<p>b</p>", Wrap(2, 2), "<div> a</div><p>b</p>"),
    // nothing shows, but for a br
    Row("<p> </p>", Wrap(3, 3), "<p> </p>"),
    Row("<p><br></p>", Wrap(3, 3), "<p><div><br></div></p>"),
    // islands and nested hosts go into the div, which goes into none of them
    Row(
        "a<div contenteditable=\"true\">b</div>",
        Wrap(3, 3),
        "a<div><div contenteditable=\"true\">b</div></div>",
    ),
    Row(
        "<p contenteditable=\"false\">a</p>",
        Wrap(3, 3),
        "<p contenteditable=\"false\">a</p>",
    ),
    Row(
        "<div contenteditable=\"true\">a</div>",
        Wrap(3, 3),
        "<div contenteditable=\"true\">a</div>",
    ),
    // no parent, and one that is closed
    Row("a", Wrap(0, 0), "a"),
    Row("a", Wrap(1, 1), "a"),
];

fn blank_div(alloc: Global) -> Result<Blank, AllocError> {
    Ok(Blank {
        name: Name::from_slice(alloc, b"div")?,
        attributes: Attributes::new(alloc),
    })
}

// Wraps the list of two labels in a new div.
struct Wrap(u32, u32);

impl Act for Wrap {
    fn act(&self, alloc: Global, doc: &mut Doc) -> Result<bool, Fail> {
        let list = listed(alloc, doc, (self.0, self.1))?;
        let blank = blank_div(alloc)?;
        let rule = WrapRule::new(NoSibling, CopyMade { blank });
        Ok(wrap(alloc, doc, list, &rule).is_ok())
    }
}

#[test]
fn lists_are_wrapped(rt: HostRuntime) -> Result<(), Fail> {
    check_rows(rt.alloc(), &WRAPS)
}
