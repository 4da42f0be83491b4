//! The first words of acts.

ghost use Rattle.std.specs.Prelude.{◌≡◌};
ghost use Rattle.std.specs.List.{find};
ghost use Rattle.std.specs.Str.{bytes_eq};
ghost use Rattle.script_read.specs.Acts.{word_of};
ghost use Rattle.script_read.specs.Reading.{verb_of};

use std::marker::Copy;

/// The first word of an act.
#[derive(Clone, Copy, PartialEq, Eq, Debug)]
pub enum Verb {
    Select,
    Unselect,
    Mark,
    Unmark,
    Exec,
    Query,
    Undo,
    Redo,
    Probe,
    Html,
    Tree,
    Points,
    Stat,
    Log,
}

static VERBS: [Verb; 14] = [
    Verb::Select,
    Verb::Unselect,
    Verb::Mark,
    Verb::Unmark,
    Verb::Exec,
    Verb::Query,
    Verb::Undo,
    Verb::Redo,
    Verb::Probe,
    Verb::Html,
    Verb::Tree,
    Verb::Points,
    Verb::Stat,
    Verb::Log,
];

impl Verb {
    /// How the word is written.
    pub fn word(self) -> &'static [u8]
        ensures { result.now ≡ word_of self }
    {
        match self {
            Verb::Select => b"select",
            Verb::Unselect => b"unselect",
            Verb::Mark => b"mark",
            Verb::Unmark => b"unmark",
            Verb::Exec => b"exec",
            Verb::Query => b"query",
            Verb::Undo => b"undo",
            Verb::Redo => b"redo",
            Verb::Probe => b"probe",
            Verb::Html => b"html",
            Verb::Tree => b"tree",
            Verb::Points => b"points",
            Verb::Stat => b"stat",
            Verb::Log => b"log",
        }
    }

    /// The act's first word that is written so.
    pub fn from_word(word: &[u8]) -> Option<Verb>
        ensures { result ≡ verb_of word.now }
    {
        find_verb(&VERBS, word)
    }
}

fn find_verb(table: &[Verb], word: &[u8]) -> Option<Verb>
    ensures { result ≡ find (λ verb. bytes_eq (word_of verb) word.now) table.now }
{
    for verb in table {
        if verb.word() == word {
            return Some(*verb);
        }
    }
    None
}
