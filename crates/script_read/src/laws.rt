//! Laws of printing and reading.

ghost use Rattle.script_read.specs.Printing.{TextsReadBack, ValuesReadBack};

/// A text that was printed on one line, with its escapes, spells the characters that were printed
/// and no others; so it does as the value of an act where none of them is a `"` or a CR, whose
/// escapes a value doesn't have.
pub fn printed_texts_are_read_back()
    ensures texts { TextsReadBack }
    ensures values { ValuesReadBack }
{}
