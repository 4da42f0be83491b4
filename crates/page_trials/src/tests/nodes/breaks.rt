//! Which nodes follow and precede line breaks.

use crate::tests::fixtures::{Look, Page, check_pages, node_of};
use edit_model::arena::Arena;
use inline_value::questions::{follows_break, precedes_break};
use std::alloc::Global;
use std::test::Fail;

// Nodes by their labels, with whether each follows and precedes a line break.
struct Beside(&'static [(u32, bool, bool)]);

impl Look for Beside {
    fn meets(&self, _alloc: Global, arena: &Arena) -> Result<bool, Fail> {
        for (label, follows, precedes) in self.0 {
            let node = node_of(arena, *label)?;
            if follows_break(arena, node) != *follows || precedes_break(arena, node) != *precedes {
                return Ok(false);
            }
        }
        Ok(true)
    }
}

static BREAKS: [Page<Beside>; 12] = [
    Page(
        "<p>a<br>b</p>",
        Beside(&[(2, true, false), (3, false, true), (4, true, true)]),
    ),
    Page(
        "<p>a<b>b</b></p>",
        Beside(&[(2, true, false), (3, false, true), (4, false, true)]),
    ),
    Page("<p>a</p>b", Beside(&[(1, true, true), (3, true, true)])),
    Page(
        "<p> <b>b</b></p>",
        Beside(&[(2, true, false), (3, true, true), (4, true, true)]),
    ),
    Page(
        "<i></i><b></b>c",
        Beside(&[(2, true, false), (3, true, true)]),
    ),
    Page(
        "a<i> </i><p>b</p>",
        Beside(&[(1, true, true), (2, false, true), (4, true, true)]),
    ),
    Page(
        "<img><!-- c -->b",
        Beside(&[(1, true, false), (3, false, true)]),
    ),
    Page(
        "<b>a<br></b>c",
        Beside(&[(3, false, true), (4, false, true)]),
    ),
    Page(
        "a<p style=\"display: none\">b</p>c",
        Beside(&[(1, true, false), (4, false, true)]),
    ),
    Page(
        "<p>a</p><p><b></b>c</p>d",
        Beside(&[
            (0, true, true),
            (2, true, true),
            (4, true, false),
            (5, true, true),
            (6, true, true),
        ]),
    ),
    Page(
        "a<br>b<i>c</i>",
        Beside(&[
            (1, true, false),
            (2, false, true),
            (3, true, false),
            (4, false, true),
            (5, false, true),
        ]),
    ),
    Page(
        "<p style=\"display: none\">a</p>b",
        Beside(&[(3, true, true)]),
    ),
];

#[test]
fn nodes_stand_beside_line_breaks(rt: HostRuntime) -> Result<(), Fail> {
    check_pages(rt.alloc(), &BREAKS)
}
