//! Command values.

use crate::tests::fixtures::{Look, Page, chars, check_pages, node_of};
use edit_model::arena::Arena;
use edit_model::dom::Chars;
use edit_model::element_names::Command;
use inline_value::values::{
    alike, equivalent, is_modifiable_element, is_simple_modifiable_element, meets_value,
};
use std::alloc::{AllocError, Global};
use std::test::Fail;

// A command, two values, whether they are equivalent, and whether they are alike.
static PAIRS: [(Command, Option<&str>, Option<&str>, bool, bool); 24] = [
    (Command::Bold, None, None, true, true),
    (Command::Bold, Some("bold"), None, false, false),
    (Command::Bold, None, Some("bold"), false, false),
    (Command::Bold, Some("bold"), Some("700"), true, true),
    (Command::Bold, Some("400"), Some("normal"), true, true),
    (Command::Bold, Some("bold"), Some("800"), false, false),
    (Command::Bold, Some("bold"), Some("normal"), false, false),
    (Command::Italic, Some("bold"), Some("700"), false, false),
    (Command::Italic, Some("italic"), Some("italic"), true, true),
    (
        Command::Italic,
        Some("italic"),
        Some("oblique"),
        false,
        false,
    ),
    (Command::ForeColor, Some("red"), Some("#f00"), true, true),
    (Command::ForeColor, Some("red"), Some("#f01"), false, false),
    (
        Command::BackColor,
        Some("transparent"),
        Some("rgba(0, 0, 0, 0)"),
        true,
        true,
    ),
    (
        Command::BackColor,
        Some("black"),
        Some("rgba(0, 0, 0, 0)"),
        false,
        false,
    ),
    (
        Command::HiliteColor,
        Some("reddish"),
        Some("reddish"),
        true,
        true,
    ),
    (
        Command::HiliteColor,
        Some("reddish"),
        Some("REDDISH"),
        false,
        false,
    ),
    (Command::FontName, Some("red"), Some("#f00"), false, false),
    (Command::FontSize, Some("large"), Some("18px"), false, true),
    (Command::FontSize, Some("18px"), Some("large"), false, true),
    (Command::FontSize, Some("large"), Some("large"), true, true),
    (Command::FontSize, Some("large"), Some("19px"), false, false),
    (Command::FontSize, Some("018px"), Some("18px"), false, false),
    (
        Command::FontSize,
        Some("medium"),
        Some("small"),
        false,
        false,
    ),
    (Command::FontName, Some("large"), Some("18px"), false, false),
];

#[test]
fn values_that_are_the_same(rt: HostRuntime) -> Result<(), Fail> {
    let alloc = rt.alloc();
    for (command, a, b, are_equivalent, are_alike) in &PAIRS {
        let first = optional(alloc, *a)?;
        let second = optional(alloc, *b)?;
        assert_eq!(rt;
            equivalent(*command, first.as_ref(), second.as_ref()),
            *are_equivalent
        );
        assert_eq!(rt;
            alike(*command, first.as_ref(), second.as_ref()),
            *are_alike
        );
    }
    Ok(())
}

fn optional(alloc: Global, text: Option<&str>) -> Result<Option<Chars>, AllocError> {
    match text {
        Some(text) => Ok(Some(Chars::from_vec(chars(alloc, text)?)?)),
        None => Ok(None),
    }
}

// Whether the node of the label 1 is a modifiable element, and whether it is a simple one.
struct Modifiable(bool, bool);

impl Look for Modifiable {
    fn meets(&self, _alloc: Global, arena: &Arena) -> Result<bool, Fail> {
        let node = node_of(arena, 1)?;
        let is_so = is_modifiable_element(arena, node) == self.0;
        Ok(is_so && is_simple_modifiable_element(arena, node) == self.1)
    }
}

static ELEMENTS: [Page<Modifiable>; 31] = [
    Page("<b>x</b>", Modifiable(true, true)),
    Page("<span style=\"\">x</span>", Modifiable(true, true)),
    Page("<a>x</a>", Modifiable(true, true)),
    Page("<ins>x</ins>", Modifiable(false, false)),
    Page("<b class=\"c\">x</b>", Modifiable(false, false)),
    Page(
        "<b style=\"font-weight: bold\">x</b>",
        Modifiable(true, true),
    ),
    Page(
        "<b style=\"font-style: italic\">x</b>",
        Modifiable(true, false),
    ),
    Page(
        "<b style=\"font-weight: bold; color: red\">x</b>",
        Modifiable(true, false),
    ),
    Page(
        "<strong style=\"font-weight: bolder\">x</strong>",
        Modifiable(true, true),
    ),
    Page(
        "<em style=\"font-style: normal\">x</em>",
        Modifiable(true, true),
    ),
    Page(
        "<em style=\"font-weight: bold\">x</em>",
        Modifiable(true, false),
    ),
    Page("<a href=\"u\">x</a>", Modifiable(true, true)),
    Page(
        "<a href=\"u\" style=\"color: red\">x</a>",
        Modifiable(true, false),
    ),
    Page("<a href=\"u\" title=\"t\">x</a>", Modifiable(false, false)),
    Page("<a name=\"u\">x</a>", Modifiable(false, false)),
    Page("<font color=\"red\">x</font>", Modifiable(true, true)),
    Page("<font face=\"f\">x</font>", Modifiable(true, true)),
    Page("<font size=\"1\">x</font>", Modifiable(true, true)),
    Page(
        "<font size=\"1\" face=\"f\">x</font>",
        Modifiable(true, false),
    ),
    Page(
        "<font style=\"color: red\">x</font>",
        Modifiable(true, true),
    ),
    Page(
        "<span style=\"color: red\">x</span>",
        Modifiable(true, true),
    ),
    Page(
        "<span style=\"color: red; color: blue\">x</span>",
        Modifiable(true, true),
    ),
    Page("<u style=\"color: red\">x</u>", Modifiable(true, false)),
    Page(
        "<span style=\"text-decoration: underline\">x</span>",
        Modifiable(true, true),
    ),
    Page(
        "<u style=\"text-decoration: none\">x</u>",
        Modifiable(true, true),
    ),
    Page(
        "<s style=\"text-decoration: underline line-through\">x</s>",
        Modifiable(true, false),
    ),
    Page(
        "<sub style=\"text-decoration: none\">x</sub>",
        Modifiable(true, false),
    ),
    Page("<sub style=\"x\">x</sub>", Modifiable(true, true)),
    Page("<p style=\"color: red\">x</p>", Modifiable(false, false)),
    Page("<span size=\"1\">x</span>", Modifiable(false, false)),
    Page("x", Modifiable(false, false)),
];

#[test]
fn elements_that_may_be_changed(rt: HostRuntime) -> Result<(), Fail> {
    check_pages(rt.alloc(), &ELEMENTS)
}

// A command, a value, and whether the element of the label 1 gives the command that value and has
// it.
struct Meets(Command, &'static str, bool);

impl Look for Meets {
    fn meets(&self, alloc: Global, arena: &Arena) -> Result<bool, Fail> {
        let node = node_of(arena, 1)?;
        let value = chars(alloc, self.1)?;
        Ok(meets_value(arena, node, self.0, value.as_slice()) == self.2)
    }
}

static GIVEN: [Page<Meets>; 10] = [
    Page("<b>x</b>", Meets(Command::Bold, "700", true)),
    Page("<b>x</b>", Meets(Command::Bold, "bold", true)),
    Page("<b>x</b>", Meets(Command::Bold, "800", false)),
    Page("<b class=\"c\">x</b>", Meets(Command::Bold, "bold", false)),
    Page(
        "<font size=\"4\">x</font>",
        Meets(Command::FontSize, "large", true),
    ),
    Page(
        "<font size=\"4\">x</font>",
        Meets(Command::FontSize, "18px", false),
    ),
    Page(
        "<font color=\"red\">x</font>",
        Meets(Command::ForeColor, "#f00", true),
    ),
    Page("<span>x</span>", Meets(Command::Bold, "400", false)),
    Page("<a href=\"u\">x</a>", Meets(Command::CreateLink, "u", true)),
    Page(
        "<sub style=\"display: block\">x</sub>",
        Meets(Command::Subscript, "subscript", false),
    ),
];

#[test]
fn elements_that_meet_a_value(rt: HostRuntime) -> Result<(), Fail> {
    check_pages(rt.alloc(), &GIVEN)
}
