//! What goes on from one command to the next: whose edits may join the last entry.

ghost use Rattle.std.specs.Prelude.{◌≡◌};
ghost use Rattle.edit_engine.specs.Going.{is_typing, goes_on, joins_by, going_after, going_turned};
ghost use Rattle.edit_engine.specs.Running.{has_entry};

use crate::commands::types_text;
use edit_model::element_names::Command;
use inline_value::doc::Committed;

/// The undo step that the next command may extend.
#[derive(Clone, Copy, PartialEq, Eq, Debug)]
pub enum Going {
    /// None: no command made a step, or something has intervened.
    Over,
    /// The last step.
    Step,
    /// The last step, while text is being typed.
    Typing,
}

fn is_typing(going: Going) -> bool
    ensures { result ≡ is_typing going }
{
    match going {
        Going::Over | Going::Step => false,
        Going::Typing => true,
    }
}

fn goes_on(going: Going) -> bool
    ensures { result ≡ goes_on going }
{
    match going {
        Going::Over => false,
        Going::Step | Going::Typing => true,
    }
}

fn has_entry(committed: Committed) -> bool
    ensures { result ≡ has_entry committed }
{
    match committed {
        Committed::Nothing => false,
        Committed::Entry => true,
    }
}

/// Whether the edits of a command join the last entry: of a joined one wherever there is one to go
/// on with, otherwise those of typing alone.
pub(crate) fn joins_by(joined: bool, going: Going, command: Command) -> bool
    ensures { result ≡ joins_by joined going command }
{
    if joined {
        goes_on(going)
    } else {
        is_typing(going) && types_text(command)
    }
}

/// What goes on after a command.
pub(crate) fn going_after(
    going: Going,
    joining: bool,
    command: Command,
    committed: Committed,
) -> Going
    ensures { result ≡ going_after going joining command (has_entry committed) }
{
    let edited = has_entry(committed);
    if types_text(command) && (edited || is_typing(going)) {
        Going::Typing
    } else if edited || joining {
        Going::Step
    } else {
        Going::Over
    }
}

/// What goes on after undo or redo, which took an entry or didn't.
pub(crate) fn going_turned(going: Going, taken: bool) -> Going
    ensures { result ≡ going_turned taken going }
{
    if taken { Going::Over } else { going }
}
