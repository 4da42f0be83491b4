//! What a question is answered.

ghost use Rattle.std.specs.Prelude.{◌≡◌};
ghost use Rattle.edit_query.specs.Replies.{no_reply};

use edit_model::dom::Chars;
use edit_model::element_names::QueryKind;
use std::alloc::Global;

/// What a question about a command is answered (HTML Editing APIs, "methods to query and execute
/// commands").
#[derive(Drop)]
pub enum Reply {
    /// Whether it is so: of every kind of question but `value`.
    Flag(bool),
    /// The command's value.
    Wording(Chars),
}

/// The reply where the command isn't supported or isn't enabled: false, or the empty text.
pub fn no_reply(alloc: Global, kind: QueryKind) -> Reply
    ensures { result ≡ no_reply kind }
{
    match kind {
        QueryKind::Value => Reply::Wording(Chars::new(alloc)),
        _ => Reply::Flag(false),
    }
}
