//! Values that are cleared, forced, pushed down, restored and set on the selection: each row of a
//! table is what an editing host holds, what is done to a node of it by its label (1 is the host),
//! and what the host then holds.

mod ends;

ghost use Rattle.std.specs.Prelude.{IfOk};
ghost use Rattle.inline_value.specs.EditDoc.Held.{EachHeld, Holds};
ghost use Rattle.inline_value.specs.EditDoc.Whole.{IsOpen};

use crate::tests::fixtures::{Act, Row, chars, check_rows, node_of, point};
use edit_model::element_names::Command;
use inline_value::doc::{Doc, EditFault, NodeRef};
use inline_value::wrap::remove_keeping_children;
use inline_value::{
    clear_value, fix_ancestors, force, push_down, record_values, reorder, restore_values, set_value,
};
use std::alloc::{AllocError, Global};
use std::test::Fail;

// What is done to a node.
#[derive(Clone, Copy)]
enum How {
    Clear,
    Force,
    Push,
    Reorder,
    // its values are recorded, its parent gives way to its children, and its values are restored
    Restore,
    // the same where it goes into the node before it
    Adopt,
    FixAncestors,
    // a part of it is selected, and what is selected gets the value
    Set { from: u32, to: u32 },
}

// A change of the node of a label, for a command and a value, None where it is null.
struct Change(How, u32, Command, Option<&'static str>);

static ROWS: [Row<Change>; 43] = [
    // an element that does nothing else gives way, another one loses what it says, or becomes a
    // span
    Row(
        "<font color=\"red\" size=\"5\">a</font>",
        Change(How::Clear, 2, Command::ForeColor, None),
        "<font size=\"5\">a</font>",
    ),
    Row(
        "<a href=\"u\" class=\"c\">a</a>",
        Change(How::Clear, 2, Command::CreateLink, None),
        "<a class=\"c\">a</a>",
    ),
    // an island keeps its value, and so does an element that gives none
    Row(
        "<b contenteditable=\"false\">a</b>",
        Change(How::Clear, 2, Command::Bold, None),
        "<b contenteditable=\"false\">a</b>",
    ),
    Row(
        "<b><i>a</i></b>",
        Change(How::Clear, 2, Command::Italic, None),
        "<b><i>a</i></b>",
    ),
    // values of ancestors go to the other children
    Row(
        "<font color=\"red\">a<b>b</b></font>",
        Change(How::Push, 5, Command::ForeColor, None),
        "<font color=\"#ff0000\">a</font><b>b</b>",
    ),
    Row(
        "<b contenteditable=\"false\">a</b>",
        Change(How::Push, 3, Command::Bold, None),
        "<b contenteditable=\"false\">a</b>",
    ),
    // a modifiable element with the value comes to the outside of a chain
    Row(
        "<i><b>x</b>y</i>",
        Change(How::Reorder, 2, Command::Bold, Some("bold")),
        "<i><b>x</b>y</i>",
    ),
    Row(
        "<i class=\"c\"><b>x</b></i>",
        Change(How::Reorder, 2, Command::Bold, Some("bold")),
        "<i class=\"c\"><b>x</b></i>",
    ),
    // a value is forced by a sibling that has it, or by a new element
    Row(
        "x",
        Change(How::Force, 2, Command::FontSize, Some("20px")),
        "<span style=\"font-size: 20px;\">x</span>",
    ),
    Row(
        "<a href=\"u\">x</a>",
        Change(How::Force, 3, Command::CreateLink, Some("v")),
        "<span href=\"u\"><a href=\"v\">x</a></span>",
    ),
    // a block hands it to its children, and so does an element that keeps another value
    Row(
        "<b style=\"font-weight: normal\">x</b>",
        Change(How::Force, 2, Command::Bold, Some("bold")),
        "<b style=\"font-weight: normal\"><b>x</b></b>",
    ),
    Row(
        "<p>a<i style=\"font-weight: normal\">b</i></p>",
        Change(How::Force, 2, Command::Bold, Some("bold")),
        "<p><b>a</b><i style=\"font-weight: normal\">b</i></p>",
    ),
    // nothing is done inside an island, to what has the value, or to what doesn't show
    Row(
        "<div contenteditable=\"false\">x</div>",
        Change(How::Force, 2, Command::Bold, Some("bold")),
        "<div contenteditable=\"false\">x</div>",
    ),
    Row(
        "<span contenteditable=\"false\">x</span>",
        Change(How::Force, 2, Command::Bold, Some("bold")),
        "<b><span contenteditable=\"false\">x</span></b>",
    ),
    // recorded values come back where the parent is gone
    Row(
        "<b>x</b>",
        Change(How::Restore, 3, Command::Bold, None),
        "<b>x</b>",
    ),
    Row(
        "<font color=\"red\" size=\"5\">x</font>",
        Change(How::Restore, 3, Command::Bold, None),
        "<font size=\"5\"><font color=\"#ff0000\">x</font></font>",
    ),
    Row(
        "<b><i>x</i></b>",
        Change(How::Restore, 4, Command::Bold, None),
        "<b><i>x</i></b>",
    ),
    Row(
        "<p>x</p>",
        Change(How::Restore, 3, Command::Bold, None),
        "x",
    ),
    // a node leaves ancestors in which it may not stand, or is renamed
    Row(
        "<p>a<p>b</p>c</p>",
        Change(How::FixAncestors, 4, Command::Bold, None),
        "<p>a</p><p>b</p><p>c</p>",
    ),
    Row(
        "<b>a<p>b</p></b>",
        Change(How::FixAncestors, 4, Command::Bold, None),
        "<b>a</b><p><b>b</b></p>",
    ),
    Row(
        "<dd>x</dd>",
        Change(How::FixAncestors, 2, Command::Bold, None),
        "<dl><dd>x</dd></dl>",
    ),
    Row(
        "<li>x</li>",
        Change(How::FixAncestors, 2, Command::Bold, None),
        "<div>x</div>",
    ),
    Row(
        "<li>x<p>y</p></li>",
        Change(How::FixAncestors, 2, Command::Bold, None),
        "<div>x</div><p>y</p>",
    ),
    // what is selected gets the value
    Row(
        "<span contenteditable=\"false\">foobar</span>",
        Change(How::Set { from: 1, to: 4 }, 3, Command::Bold, Some("bold")),
        "<span contenteditable=\"false\">foobar</span>",
    ),
    // but a block that is locked can't get it
    Row(
        "<p>a<span contenteditable=\"false\">b</span><div contenteditable=\"true\">c</div></p>",
        Change(How::Force, 2, Command::Bold, Some("bold")),
        "<p><b>a<span contenteditable=\"false\">b</span></b><div contenteditable=\"true\">c</div></p>",
    ),
    // nothing is done to them, and nothing in them
    Row(
        "<div contenteditable=\"true\"><b>x</b></div>",
        Change(How::Clear, 3, Command::Bold, None),
        "<div contenteditable=\"true\"><b>x</b></div>",
    ),
    Row(
        "<span contenteditable=\"true\">x</span>",
        Change(How::Force, 2, Command::Bold, Some("bold")),
        "<b><span contenteditable=\"true\">x</span></b>",
    ),
    // values come back to them where they may be wrapped
    Row(
        "<b><span contenteditable=\"false\">x</span>y</b>",
        Change(How::Restore, 3, Command::Bold, None),
        "<b><span contenteditable=\"false\">x</span></b>y",
    ),
    Row(
        "<b><div contenteditable=\"true\">x</div>y</b>",
        Change(How::Restore, 3, Command::Bold, None),
        "<div contenteditable=\"true\">x</div>y",
    ),
    // values of the pages at which values are told
    Row(
        "<sub>a<sup>b</sup></sub>",
        Change(How::Clear, 2, Command::Subscript, None),
        "a<sup>b</sup>",
    ),
    Row(
        "<sub>a<sup>b</sup></sub>",
        Change(How::Clear, 4, Command::Superscript, None),
        "<sub>ab</sub>",
    ),
    Row(
        "<sub>a<sup>b</sup></sub>",
        Change(How::Force, 5, Command::Subscript, Some("subscript")),
        "<sub>a<sup><sub>b</sub></sup></sub>",
    ),
    Row(
        "<sub>a<sup>b</sup></sub>",
        Change(How::Force, 3, Command::Superscript, Some("superscript")),
        "<sub><sup>a</sup><sup>b</sup></sub>",
    ),
    Row(
        "<font size=\"+1\">x<i>y</i></font>",
        Change(How::Push, 3, Command::FontSize, None),
        "x<font size=\"4\"><i>y</i></font>",
    ),
    Row(
        "<font size=\"+1\">x</font>",
        Change(How::Force, 3, Command::FontSize, Some("18px")),
        "<font size=\"+1\">x</font>",
    ),
    Row(
        "<font size=\"+1\">x</font>",
        Change(How::Force, 3, Command::FontSize, Some("x-large")),
        "<font size=\"+1\"><font size=\"5\">x</font></font>",
    ),
    // styles and hints against names
    Row(
        "<span style=\"font-weight: 600; color: red\"><b>x</b></span>",
        Change(How::Clear, 2, Command::Bold, None),
        "<span style=\"color: red;\"><b>x</b></span>",
    ),
    Row(
        "<font size=\"+1\" style=\"font-size: 9px\">x</font>",
        Change(How::Clear, 2, Command::FontSize, None),
        "<font>x</font>",
    ),
    Row(
        "<b>a<i style=\"font-weight: normal\">b</i></b>",
        Change(How::Push, 5, Command::Bold, None),
        "<b>a</b><i>b</i>",
    ),
    // a link in a link
    Row(
        "<a href=\"u\"><a href=\"v\">x</a></a>",
        Change(How::Clear, 3, Command::CreateLink, None),
        "<a href=\"u\">x</a>",
    ),
    Row(
        "<a href=\"u\"><a href=\"v\">x</a></a>",
        Change(How::Force, 4, Command::CreateLink, Some("w")),
        "<span href=\"u\"><span href=\"v\"><a href=\"w\">x</a></span></span>",
    ),
    // the value of the nearest element comes back, and none where there was none
    Row(
        "<b><i style=\"font-weight: normal\">x</i></b>",
        Change(How::Restore, 4, Command::Bold, None),
        "<b><span style=\"font-weight: normal;\"><i>x</i></span></b>",
    ),
    Row(
        "<font color=\"red\"><i>a</i></font><u>x</u>",
        Change(How::Adopt, 5, Command::ForeColor, None),
        "<font color=\"#ff0000\"><i>a</i></font><u>x</u>",
    ),
];

fn text_of(alloc: Global, value: Option<&str>) -> Result<Option<Vec<char>>, AllocError> {
    match value {
        Some(text) => Ok(Some(chars(alloc, text)?)),
        None => Ok(None),
    }
}

fn slice(value: &Option<Vec<char>>) -> Option<&[char]> {
    match value {
        Some(text) => Some(text.as_slice()),
        None => None,
    }
}

#[tactic(auto, using(crate::proofs::Below::pushed_held, crate::proofs::Below::none_held))]
fn listed(alloc: Global, doc: &Doc, node: NodeRef) -> Result<Vec<NodeRef>, AllocError>
    requires { Holds doc.now node }
    ensures { IfOk result (λ list. EachHeld doc.now list.items) }
{
    let mut list = Vec::new(alloc);
    list.push(node)?;
    Ok(list)
}

// Records the values of a node, takes its parent out, and restores the values.
fn restores(alloc: Global, doc: &mut Doc, node: NodeRef) -> Result<(), EditFault>
    requires open { IsOpen doc.old }
    requires held { Holds doc.old node }
{
    let list = listed(alloc, doc, node)?;
    let values = record_values(alloc, doc, &list)?;
    if let Some(parent) = doc.parent(node) {
        remove_keeping_children(alloc, doc, parent)?;
    }
    restore_values(alloc, doc, &values)
}

// Records the values of a node, moves it into the node before it, and restores the values.
fn adopts(alloc: Global, doc: &mut Doc, node: NodeRef) -> Result<(), EditFault>
    requires open { IsOpen doc.old }
    requires held { Holds doc.old node }
{
    let list = listed(alloc, doc, node)?;
    let values = record_values(alloc, doc, &list)?;
    if let Some(before) = doc.prev(node) {
        doc.move_keeping(node, before, None)?;
    }
    restore_values(alloc, doc, &values)
}

impl Act for Change {
    fn act(&self, alloc: Global, doc: &mut Doc) -> Result<bool, Fail> {
        let Change(how, label, command, value) = self;
        let node = node_of(doc, *label)?;
        let text = text_of(alloc, *value)?;
        Ok(changes(alloc, doc, *how, node, *command, slice(&text)).is_ok())
    }
}

fn changes(
    alloc: Global,
    doc: &mut Doc,
    how: How,
    node: NodeRef,
    command: Command,
    value: Option<&[char]>,
) -> Result<(), EditFault>
    requires open { IsOpen doc.old }
    requires held { Holds doc.old node }
{
    match how {
        How::Clear => {
            clear_value(alloc, doc, node, command)?;
            Ok(())
        }
        How::Force => force(alloc, doc, value, node, command),
        How::Push => push_down(alloc, doc, value, node, command),
        How::Reorder => match value {
            Some(text) => reorder(doc, node, text, command),
            None => Ok(()),
        },
        How::Restore => restores(alloc, doc, node),
        How::Adopt => adopts(alloc, doc, node),
        How::FixAncestors => fix_ancestors(alloc, doc, node),
        How::Set { from, to } => {
            doc.select(point((node.label, from)), point((node.label, to)));
            set_value(alloc, doc, value, command)
        }
    }
}

#[test]
fn values_are_changed(rt: HostRuntime) -> Result<(), Fail> {
    check_rows(rt.alloc(), &ROWS)
}
