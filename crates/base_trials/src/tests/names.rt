//! Names of elements and of boxes, by the tables.

use super::rows::assert_row;
use edit_model::element_names::{
    allowed_child, box_names, has_inline_contents, is_box_name, is_formattable_block, is_heading,
    is_margin_name, is_non_list_single_line_container, is_prohibited_child,
    is_remove_format_candidate, is_single_line_container, is_supported, is_void,
};
use std::test::Fail;

// What is asked of a name.
#[derive(Clone, Copy)]
enum Question {
    Void,
    Supported,
    ProhibitedChild,
    InlineContents,
    Heading,
    NonListSingleLineContainer,
    SingleLineContainer,
    FormattableBlock,
    RemoveFormatCandidate,
    Margin,
    Box,
}

fn answer(question: Question, name: &[u8]) -> bool {
    match question {
        Question::Void => is_void(name),
        Question::Supported => is_supported(name),
        Question::ProhibitedChild => is_prohibited_child(name),
        Question::InlineContents => has_inline_contents(name),
        Question::Heading => is_heading(name),
        Question::NonListSingleLineContainer => is_non_list_single_line_container(name),
        Question::SingleLineContainer => is_single_line_container(name),
        Question::FormattableBlock => is_formattable_block(name),
        Question::RemoveFormatCandidate => is_remove_format_candidate(name),
        Question::Margin => is_margin_name(name),
        Question::Box => is_box_name(name),
    }
}

static NAMES: [(Question, &str, bool); 26] = [
    (Question::Void, "br", true),
    (Question::Void, "track", true),
    (Question::Void, "b", false),
    (Question::Void, "BR", false),
    (Question::Supported, "p", true),
    (Question::Supported, "scripts", true),
    (Question::Supported, "script", false),
    (Question::Supported, "math", false),
    (Question::ProhibitedChild, "table", true),
    (Question::ProhibitedChild, "span", false),
    (Question::InlineContents, "p", true),
    (Question::InlineContents, "div", false),
    (Question::Heading, "h6", true),
    (Question::Heading, "h7", false),
    (Question::NonListSingleLineContainer, "pre", true),
    (Question::NonListSingleLineContainer, "li", false),
    (Question::SingleLineContainer, "li", true),
    (Question::SingleLineContainer, "ul", false),
    (Question::FormattableBlock, "dt", true),
    (Question::FormattableBlock, "li", false),
    (Question::RemoveFormatCandidate, "ins", true),
    (Question::RemoveFormatCandidate, "a", false),
    (Question::Margin, "margin-left", true),
    (Question::Margin, "padding", false),
    (Question::Box, "border-top-style", true),
    (Question::Box, "color", false),
];

// A child, a parent, and whether the child may stand in it.
static CHILDREN: [(&str, &str, bool); 9] = [
    ("td", "tr", true),
    ("a", "tr", false),
    ("ul", "ol", true),
    ("li", "div", false),
    ("a", "a", false),
    ("h1", "h2", false),
    ("h1", "hgroup", true),
    ("div", "p", false),
    ("p", "div", true),
];

#[test]
fn elements_and_boxes(rt: HostRuntime) -> Result<(), Fail> {
    for (question, name, want) in &NAMES {
        assert_row(&rt, answer(*question, name.as_bytes()) == *want, name);
    }
    for (child, parent, want) in &CHILDREN {
        let allowed = allowed_child(child.as_bytes(), parent.as_bytes());
        assert_row(&rt, allowed == *want, child);
    }
    assert_row(&rt, box_names().len() == 30, "how many boxes");
    Ok(())
}
