//! What runs of the grammar keep, and that those of commands are such.

ghost use Rattle.grammar_laws.specs.Laws.{StayProper, InlineIsProper, BlocksAreProper, InsertionIsProper};

/// Where all nodes of a document are of the grammar, a run whose actions are leaves them so, and so
/// are the nodes that it makes, its edits, and the overrides.
pub fn runs_stay_proper()
    ensures { StayProper }
{}

/// The runs of the inline commands are such.
pub fn inline_runs_are_proper()
    ensures { InlineIsProper }
{}

/// So are those of the commands for blocks and lists.
pub fn block_runs_are_proper()
    ensures { BlocksAreProper }
{}

/// So are those that delete and insert.
pub fn insertion_runs_are_proper()
    ensures { InsertionIsProper }
{}
