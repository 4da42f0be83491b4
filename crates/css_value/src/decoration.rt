//! The values of `text-decoration`.

ghost use Rattle.std.specs.Prelude.{◌≡◌, ◌<◌, [], ◌∷◌, ◌++◌, length, false, not, filter, bytes_eq, IfOk, IfSome, OnOk, MatchOption};
ghost use Rattle.std.specs.List.{list_all};
ghost use Rattle.css_value.specs.StyleText.{is_empty};
ghost use Rattle.css_value.specs.DeclarationList.{gap};
ghost use Rattle.css_value.specs.TextDecoration as spec;

use crate::style_text::{has_codes, is_space, trim_start};
use crate::value_text::chars_of;
use std::alloc::{AllocError, Global};

/// A line that `text-decoration` draws.
#[derive(Clone, Copy, PartialEq, Eq, Debug)]
pub enum DecorationLine {
    Underline,
    Overline,
    LineThrough,
}

/// A valid value of `text-decoration`: the lines that it draws. `none` draws none.
#[derive(Clone, Copy, PartialEq, Eq, Debug)]
pub struct TextDecoration {
    pub underline: bool,
    pub overline: bool,
    pub line_through: bool,
}

impl DecorationLine {
    /// The word that names the line.
    pub fn word(self) -> &'static [u8]
        ensures { result.now ≡ spec.line_word self }
    {
        match self {
            DecorationLine::Underline => b"underline",
            DecorationLine::Overline => b"overline",
            DecorationLine::LineThrough => b"line-through",
        }
    }
}

impl TextDecoration {
    /// The words of the lines that are drawn, in this order and joined by one space, or `none`.
    #[tactic(auto, unfolding(crate::specs::TextDecoration::text_decoration_text, crate::specs::TextDecoration::text_decoration_of, crate::specs::TextDecoration::lines_in, crate::specs::TextDecoration::are_lines, crate::specs::TextDecoration::has_line, crate::specs::TextDecoration::words))]
    pub fn keywords(self) -> &'static [u8]
        ensures keywords { result.now ≡ spec.text_decoration_text self }
        ensures read_back { spec.text_decoration_of result.now ≡ Some self }
    {
        match (self.underline, self.overline, self.line_through) {
            (false, false, false) => b"none",
            (true, false, false) => b"underline",
            (false, true, false) => b"overline",
            (true, true, false) => b"underline overline",
            (false, false, true) => b"line-through",
            (true, false, true) => b"underline line-through",
            (false, true, true) => b"overline line-through",
            (true, true, true) => b"underline overline line-through",
        }
    }

    /// The characters of the keywords.
    pub fn print(self, alloc: Global) -> Result<Vec<char>, AllocError>
        ensures text { IfOk result (λ text. text.items ≡ spec.text_decoration_text self) }
        ensures read_back { IfOk result (λ text. spec.text_decoration_of text.items ≡ Some self) }
    {
        chars_of(alloc, self.keywords())
    }
}

// What stands before the first space of a text, and the rest of the text.
fn split_word(text: &[char]) -> (&[char], &[char])
    ensures word { result.0.now ≡ spec.before_space text.now }
    ensures rest { result.1.now ≡ spec.from_space text.now }
{
    for (i, c) in text.iter().enumerate() {
        if is_space(*c) {
            return (&text[..i], &text[i..]);
        }
    }
    (text, &[])
}

// The first word of a text, and the text after it.
fn first_word(text: &[char]) -> Option<(&[char], &[char])>
    ensures words { MatchOption result (spec.words text.now ≡ [])
        (λ r. spec.words text.now ≡ r.0.now ∷ spec.words r.1.now) }
    ensures nonempty { IfSome result (λ r. is_empty r.0.now ≡ false) }
    ensures shorter { IfSome result (λ r. length r.1.now < length text.now) }
{
    let rest = trim_start(text);
    if rest.is_empty() {
        return None;
    }
    Some(split_word(rest))
}

/// Whether a line's word is among the words of a value of `text-decoration`, whether that is valid
/// or not.
#[tactic(auto, unfolding(crate::specs::TextDecoration::has_line))]
pub fn has_line(text: &[char], line: DecorationLine) -> bool
    ensures { result ≡ spec.has_line text.now line }
{
    let mut rest = text;
    while let Some((word, after)) = first_word(rest) {
        if has_codes(word, line.word()) {
            return true;
        }
        rest = after;
    }
    false
}

// Whether a word names a line.
fn names_line(word: &[char]) -> bool
    ensures { result ≡ spec.names_line word.now }
{
    has_codes(word, DecorationLine::Underline.word())
        || has_codes(word, DecorationLine::Overline.word())
        || has_codes(word, DecorationLine::LineThrough.word())
}

// Whether each word of a text names a line.
fn all_name_lines(text: &[char]) -> bool
    ensures { result ≡ list_all spec.names_line (spec.words text.now) }
{
    let mut rest = text;
    while let Some((word, after)) = first_word(rest) {
        if !names_line(word) {
            return false;
        }
        rest = after;
    }
    true
}

// Whether there are words, and each names a line.
#[tactic(auto, unfolding(crate::specs::TextDecoration::are_lines))]
fn are_lines(text: &[char]) -> bool
    ensures { result ≡ spec.are_lines (spec.words text.now) }
{
    match first_word(text) {
        None => false,
        Some((word, after)) => names_line(word) && all_name_lines(after),
    }
}

/// The value of `text-decoration` that a text is: `none`, or one or more of the words `underline`,
/// `overline` and `line-through`, in any order and as often as they come, parted by spaces.
#[tactic(auto, unfolding(crate::specs::TextDecoration::text_decoration_of, crate::specs::TextDecoration::lines_in))]
pub fn read_text_decoration(text: &[char]) -> Option<TextDecoration>
    ensures { result ≡ spec.text_decoration_of text.now }
{
    if has_codes(text, b"none") {
        return Some(TextDecoration {
            underline: false,
            overline: false,
            line_through: false,
        });
    }
    if !are_lines(text) {
        return None;
    }
    Some(TextDecoration {
        underline: has_line(text, DecorationLine::Underline),
        overline: has_line(text, DecorationLine::Overline),
        line_through: has_line(text, DecorationLine::LineThrough),
    })
}

// Appends a word, after a space unless it is the first.
fn push_word(text: &mut Vec<char>, word: &[char]) -> Result<(), AllocError>
    ensures { OnOk result (text.new.items ≡ text.old.items
        ++ (gap (is_empty text.old.items) ++ word.now)) }
{
    if !text.is_empty() {
        text.push(' ')?;
    }
    text.extend_from_slice(word)?;
    Ok(())
}

/// A value of `text-decoration`, valid or not, without a line's word: the other words in their
/// order, joined by one space. It is empty exactly where no other word is there.
#[tactic(auto, unfolding(crate::specs::TextDecoration::without_line))]
pub fn without_line(
    alloc: Global,
    text: &[char],
    line: DecorationLine,
) -> Result<Vec<char>, AllocError>
    ensures text { IfOk result (λ left. left.items ≡ spec.without_line text.now line) }
    ensures others { IfOk result (λ left. spec.words left.items
        ≡ filter (λ word. not (bytes_eq (spec.line_word line) word)) (spec.words text.now)) }
{
    let mut left = Vec::new(alloc);
    let mut rest = text;
    while let Some((word, after)) = first_word(rest) {
        if !has_codes(word, line.word()) {
            push_word(&mut left, word)?;
        }
        rest = after;
    }
    Ok(left)
}
