//! The questions that can be asked of an editing command.

ghost use Rattle.std.specs.Prelude.{◌≡◌, Some};
ghost use Rattle.std.specs.List.{find};
ghost use Rattle.std.specs.Str.{bytes_eq};
ghost use Rattle.html_names.specs.Queries.{query_word, query_kind_of};

use std::marker::Copy;

/// What is asked of an editing command (execCommand, "Methods to query and execute commands").
#[derive(Clone, Copy, PartialEq, Eq, Debug)]
pub enum QueryKind {
    Enabled,
    Indeterm,
    State,
    Supported,
    Value,
}

static KINDS: [QueryKind; 5] = [
    QueryKind::Enabled,
    QueryKind::Indeterm,
    QueryKind::State,
    QueryKind::Supported,
    QueryKind::Value,
];

impl QueryKind {
    /// The word that names the question, and no other.
    pub fn word(self) -> &'static [u8]
        ensures word { result.now ≡ query_word self }
        ensures read_back { query_kind_of result.now ≡ Some self }
    {
        match self {
            QueryKind::Enabled => b"enabled",
            QueryKind::Indeterm => b"indeterm",
            QueryKind::State => b"state",
            QueryKind::Supported => b"supported",
            QueryKind::Value => b"value",
        }
    }

    /// The question that a word names, in lower case: `enabled`, `indeterm`, `state`, `supported`
    /// or `value`.
    pub fn from_word(word: &[u8]) -> Option<QueryKind>
        ensures { result ≡ query_kind_of word.now }
    {
        find_kind(&KINDS, word)
    }
}

fn find_kind(table: &[QueryKind], word: &[u8]) -> Option<QueryKind>
    ensures { result ≡ find (λ kind. bytes_eq (query_word kind) word.now) table.now }
{
    for kind in table {
        if kind.word() == word {
            return Some(*kind);
        }
    }
    None
}
