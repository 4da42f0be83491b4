//! The laws of actions and of the commands' runs.

ghost use Rattle.independence_laws.specs.Laws.{ActionsIgnoreMarks, CommandsIgnoreMarks};

/// What an action makes of a state without marks and cap is what it makes of the state, without
/// them.
pub fn actions_ignore_marks()
    ensures { ActionsIgnoreMarks }
{}

/// So it is with the run of each command, whatever the value, and it answers the same.
pub fn commands_ignore_marks()
    ensures { CommandsIgnoreMarks }
{}
