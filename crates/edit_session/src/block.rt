//! The page block that opens a session.

ghost use Rattle.std.specs.Prelude.{◌≡◌, ◌↔◌, ◌==◌, IfSome, position, ◌<◌, ◌≤◌, ◌+◌, ◌∷◌, length, take, drop};
ghost use Rattle.std.specs.Option.{option_map};
ghost use Rattle.std.specs.Char.{is_ascii_alphanumeric};
ghost use Rattle.std.specs.List.{list_all};
ghost use Rattle.edit_session.specs.Block.{lines_of, end_of, is_word, opening_word, cut_at, block_cut, block_of, Block, IsBlock, ActsWithin, shown_block};

use std::marker::Copy;

/// What an input begins with.
#[derive(Clone, Copy, Debug)]
pub enum PageBlock<'a> {
    /// Its first line doesn't open a page.
    NoOpening,
    /// No line closes the page.
    NoClosing,
    /// The text of the page, and what follows the closing line.
    Whole { page: &'a [u8], acts: &'a [u8] },
}

fn first_newline(text: &[u8]) -> Option<usize>
    ensures value { result ≡ position (λ b. b == 10) text.now }
    ensures within { IfSome result (λ at. at < length text.now) }
{
    text.iter().position(|b| *b == b'\n')
}

/// Where the first line ends: before its LF, or at the end of the text.
pub fn line_end(text: &[u8]) -> usize
    ensures value { result ≡ end_of text.now }
    ensures within { result ≤ length text.now }
    ensures line { 0 < length text.now → lines_of text.now ≡ take result text.now ∷ lines_of
        (drop (result + 1) text.now) }
{
    match first_newline(text) {
        Some(at) => at,
        None => text.len(),
    }
}

/// What follows the first line, whose end is given.
pub fn after_line(text: &[u8], end: usize) -> &[u8]
    ensures value { result.now ≡ drop (end + 1) text.now }
    ensures shorter { 0 < length text.now → length result.now < length text.now }
    ensures within { length result.now ≤ length text.now }
{
    if end < text.len() {
        &text[end + 1..]
    } else {
        &text[text.len()..]
    }
}

fn all_alphanumeric(text: &[u8]) -> bool
    ensures { result ≡ list_all is_ascii_alphanumeric text.now }
{
    text.iter().all(|b| b.is_ascii_alphanumeric())
}

fn is_word(text: &[u8]) -> bool
    ensures { result ≡ is_word text.now }
{
    !text.is_empty() && text.len() <= 32 && all_alphanumeric(text)
}

// The word of an opening line.
fn read_opening(line: &[u8]) -> Option<&[u8]>
    ensures { option_map (λ word. word.now) result ≡ opening_word line.now }
{
    let word = line.strip_prefix(b"page <<")?;
    if is_word(word) { Some(word) } else { None }
}

// Parts the lines after the opening one at the first that equals the word.
fn part_lines<'a>(lines: &'a [u8], word: &[u8]) -> PageBlock<'a>
    ensures shown { shown_block result ≡ block_cut (cut_at word.now (lines_of lines.now)) }
    ensures within { ActsWithin (length lines.now) result }
{
    let mut at = 0;
    while at < lines.len() {
        let rest = &lines[at..];
        let end = line_end(rest);
        let next = after_line(rest, end);
        if &rest[..end] == word {
            return PageBlock::Whole {
                page: &lines[..at.saturating_sub(1)],
                acts: next,
            };
        }
        at = lines.len() - next.len();
    }
    PageBlock::NoClosing
}

/// Parts an input into the page and the acts.
pub fn read_block(input: &[u8]) -> PageBlock<'_>
    ensures computed { shown_block result ≡ block_of input.now }
    ensures grammar { (block : Block) → (shown_block result ≡ block)
        ↔ IsBlock (lines_of input.now) block }
    ensures within { ActsWithin (length input.now) result }
{
    let end = line_end(input);
    match read_opening(&input[..end]) {
        Some(word) => part_lines(after_line(input, end), word),
        None => PageBlock::NoOpening,
    }
}
