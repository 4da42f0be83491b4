//! What is known of each command.

ghost use Rattle.std.specs.Prelude.{◌≡◌};
ghost use Rattle.std.specs.Char.{to_ascii_lowercase};
ghost use Rattle.edit_engine.specs.Commands.{facts, row_of, types_text, is_value};

use edit_model::element_names::Command;
use std::marker::Copy;

/// What is known of a command, whatever it does.
#[derive(Clone, Copy, PartialEq, Eq, Debug)]
pub(crate) struct Row {
    /// Whether it keeps images, rules and characters other than tab, LF, CR and space.
    pub(crate) keeping: bool,
    /// Whether it is enabled only where there is an affected editing host.
    pub(crate) needs_host: bool,
    /// Whether it records the overrides before its action, and restores them where the range is
    /// collapsed after it.
    pub(crate) recording: bool,
}

fn facts(keeping: bool, needs_host: bool, recording: bool) -> Row
    ensures { result ≡ facts keeping needs_host recording }
{
    Row {
        keeping,
        needs_host,
        recording,
    }
}

pub(crate) fn row_of(command: Command) -> Row
    ensures { result ≡ row_of command }
{
    match command {
        Command::Bold
        | Command::Italic
        | Command::Underline
        | Command::Strikethrough
        | Command::Subscript
        | Command::Superscript
        | Command::CreateLink
        | Command::Unlink
        | Command::FontName
        | Command::FontSize
        | Command::ForeColor
        | Command::BackColor
        | Command::HiliteColor
        | Command::RemoveFormat => facts(true, true, false),
        Command::FormatBlock
        | Command::JustifyLeft
        | Command::JustifyCenter
        | Command::JustifyRight
        | Command::JustifyFull
        | Command::Indent
        | Command::Outdent
        | Command::InsertOrderedList
        | Command::InsertUnorderedList => facts(true, true, true),
        Command::Delete
        | Command::InsertParagraph
        | Command::InsertLineBreak
        | Command::InsertHorizontalRule => facts(false, true, true),
        Command::StyleWithCss | Command::UseCss | Command::DefaultParagraphSeparator => {
            facts(false, false, false)
        }
        Command::InsertText | Command::InsertImage => facts(false, true, false),
    }
}

/// Whether it is the command that types.
pub(crate) fn types_text(command: Command) -> bool
    ensures { result ≡ types_text command }
{
    matches!(command, Command::InsertText)
}

// Whether a value is a word, in any case.
pub(crate) fn is_value(value: &[char], word: &[u8]) -> bool
    ensures { result ≡ is_value value.now word.now }
{
    match (value, word) {
        ([], []) => true,
        ([first, value @ ..], [byte, word @ ..]) => {
            first.to_ascii_lowercase() as u32 == *byte as u32 && is_value(value, word)
        }
        _ => false,
    }
}
