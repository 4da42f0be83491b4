//! The editing commands and their names.
ghost use Rattle.std.specs.Prelude.{◌≡◌, Some, IfSome, IsTrue};
ghost use Rattle.std.specs.Str.{str_eq_ignore_ascii_case};
ghost use Rattle.std.specs.Array.Iter.{array_into_iter_items};
ghost use Rattle.html_names.specs.Commands as commands;

use std::array;

/// A command of HTML Editing APIs.
#[derive(Clone, Copy, Debug, PartialEq, Eq)]
pub enum Command {
    Bold,
    Italic,
    Underline,
    Strikethrough,
    Subscript,
    Superscript,
    CreateLink,
    Unlink,
    FontName,
    FontSize,
    ForeColor,
    BackColor,
    HiliteColor,
    RemoveFormat,
    FormatBlock,
    JustifyLeft,
    JustifyCenter,
    JustifyRight,
    JustifyFull,
    Indent,
    Outdent,
    Delete,
    InsertText,
    InsertParagraph,
    StyleWithCss,
    UseCss,
    DefaultParagraphSeparator,
    InsertOrderedList,
    InsertUnorderedList,
    InsertLineBreak,
    InsertHorizontalRule,
    InsertImage,
}

impl Command {
    /// The commands, each once.
    #[tactic(auto, unfolding(crate::specs::Commands::all_commands))]
    pub fn all() -> array::IntoIter<Command, 32>
        ensures { array_into_iter_items result ≡ commands.all_commands }
    {
        [
            Command::Bold,
            Command::Italic,
            Command::Underline,
            Command::Strikethrough,
            Command::Subscript,
            Command::Superscript,
            Command::CreateLink,
            Command::Unlink,
            Command::FontName,
            Command::FontSize,
            Command::ForeColor,
            Command::BackColor,
            Command::HiliteColor,
            Command::RemoveFormat,
            Command::FormatBlock,
            Command::JustifyLeft,
            Command::JustifyCenter,
            Command::JustifyRight,
            Command::JustifyFull,
            Command::Indent,
            Command::Outdent,
            Command::Delete,
            Command::InsertText,
            Command::InsertParagraph,
            Command::StyleWithCss,
            Command::UseCss,
            Command::DefaultParagraphSeparator,
            Command::InsertOrderedList,
            Command::InsertUnorderedList,
            Command::InsertLineBreak,
            Command::InsertHorizontalRule,
            Command::InsertImage,
        ]
        .into_iter()
    }

    /// The name of the command, in lower case. It names this command and no other.
    #[tactic(auto, unfolding(crate::specs::Commands::command_name, crate::specs::Commands::command_named, crate::specs::Commands::all_commands))]
    pub fn name(self) -> &'static str
        ensures name { result.now ≡ commands.command_name self }
        ensures read_back { commands.command_named result.now ≡ Some self }
    {
        match self {
            Command::Bold => "bold",
            Command::Italic => "italic",
            Command::Underline => "underline",
            Command::Strikethrough => "strikethrough",
            Command::Subscript => "subscript",
            Command::Superscript => "superscript",
            Command::CreateLink => "createlink",
            Command::Unlink => "unlink",
            Command::FontName => "fontname",
            Command::FontSize => "fontsize",
            Command::ForeColor => "forecolor",
            Command::BackColor => "backcolor",
            Command::HiliteColor => "hilitecolor",
            Command::RemoveFormat => "removeformat",
            Command::FormatBlock => "formatblock",
            Command::JustifyLeft => "justifyleft",
            Command::JustifyCenter => "justifycenter",
            Command::JustifyRight => "justifyright",
            Command::JustifyFull => "justifyfull",
            Command::Indent => "indent",
            Command::Outdent => "outdent",
            Command::Delete => "delete",
            Command::InsertText => "inserttext",
            Command::InsertParagraph => "insertparagraph",
            Command::StyleWithCss => "stylewithcss",
            Command::UseCss => "usecss",
            Command::DefaultParagraphSeparator => "defaultparagraphseparator",
            Command::InsertOrderedList => "insertorderedlist",
            Command::InsertUnorderedList => "insertunorderedlist",
            Command::InsertLineBreak => "insertlinebreak",
            Command::InsertHorizontalRule => "inserthorizontalrule",
            Command::InsertImage => "insertimage",
        }
    }

    /// The command that a text names, without regard to ASCII case; `None` where it names none.
    #[tactic(auto, unfolding(crate::specs::Commands::command_named))]
    pub fn named(text: &str) -> Option<Command>
        ensures value { result ≡ commands.command_named text.now }
        ensures its_name { IfSome result (λ command. IsTrue (str_eq_ignore_ascii_case
            (commands.command_name command) text.now)) }
    {
        for command in Command::all() {
            if command.name().eq_ignore_ascii_case(text) {
                return Some(command);
            }
        }
        None
    }
}
