//! What the values of an inline command are about.

ghost use Rattle.std.specs.Prelude.{◌≡◌};
ghost use Rattle.command_value.specs.Subjects as subjects;

use node_styles::css::DecorationLine;
use node_styles::element_names::Command;
use node_styles::properties::Property;

/// What the values of a command are about.
#[derive(Clone, Copy)]
pub enum Subject {
    Link,
    Background,
    /// Subscript and superscript.
    Script,
    /// A line that is drawn along the text.
    Line(DecorationLine),
    Weight,
    Slant,
    Family,
    Size,
    /// The colour of the text.
    Foreground,
    /// The command has no values.
    Nothing,
}

/// What the values of a command are about.
pub fn subject_of(command: Command) -> Subject
    ensures { result ≡ subjects.subject command }
{
    match command {
        Command::Bold => Subject::Weight,
        Command::Italic => Subject::Slant,
        Command::Underline => Subject::Line(DecorationLine::Underline),
        Command::Strikethrough => Subject::Line(DecorationLine::LineThrough),
        Command::Subscript | Command::Superscript => Subject::Script,
        Command::CreateLink | Command::Unlink => Subject::Link,
        Command::FontName => Subject::Family,
        Command::FontSize => Subject::Size,
        Command::ForeColor => Subject::Foreground,
        Command::BackColor | Command::HiliteColor => Subject::Background,
        _ => Subject::Nothing,
    }
}

/// The relevant property of a command: the one that styles what its values are about.
#[tactic(auto, unfolding(crate::specs::Subjects::relevant))]
pub fn relevant_property(command: Command) -> Option<Property>
    ensures { result ≡ subjects.relevant command }
{
    match subject_of(command) {
        Subject::Weight => Some(Property::FontWeight),
        Subject::Slant => Some(Property::FontStyle),
        Subject::Family => Some(Property::FontFamily),
        Subject::Size => Some(Property::FontSize),
        Subject::Foreground => Some(Property::Color),
        Subject::Background => Some(Property::BackgroundColor),
        _ => None,
    }
}
