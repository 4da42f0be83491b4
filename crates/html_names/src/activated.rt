//! The values at which an inline command counts as on.

ghost use Rattle.std.specs.Prelude.{◌≡◌, map};
ghost use Rattle.html_names.specs.ActivatedValues as activated;

use crate::commands::Command;

/// The values at which a command counts as on. They are none for a command that has no state.
pub fn activated_values(command: Command) -> &'static [&'static [u8]]
    ensures { map (λ value. value.now) result.now ≡ activated.activated_values command }
{
    match command {
        Command::Bold => &[b"bold", b"600", b"700", b"800", b"900"],
        Command::Italic => &[b"italic", b"oblique"],
        Command::Strikethrough => &[b"line-through"],
        Command::Underline => &[b"underline"],
        Command::Subscript => &[b"subscript"],
        Command::Superscript => &[b"superscript"],
        _ => &[],
    }
}
