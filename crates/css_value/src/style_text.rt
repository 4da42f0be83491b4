//! The cutting of a style text into declarations.

ghost use Rattle.std.specs.Prelude.{◌≡◌, ◌+◌, ◌<◌, ◌≤◌, [], ◌∷◌, length, drop, take, Some, None, MatchOption, IfSome, bytes_eq};
ghost use Rattle.std.specs.Option.{option_map};
ghost use Rattle.std.specs.List.{cons_option};
ghost use Rattle.css_value.specs.StyleText as spec;

use std::marker::Model;

// The quote that is open, and how many parentheses are.
#[derive(Drop)]
struct Nesting {
    quote: Option<char>,
    depth: usize,
}

impl Model for Nesting {
    ghost Value = { Rattle.css_value.specs.StyleText.Nesting };

    ghost view = { λ n. record { quote = n.quote; depth = n.depth } };
}

impl Nesting {
    // Neither in quotes nor in parentheses.
    fn outside() -> Nesting
        ensures { result ≡ spec.outside }
    {
        Nesting {
            quote: None,
            depth: 0,
        }
    }

    fn is_outside(&self) -> bool
        ensures { result ≡ spec.is_outside self.now }
    {
        self.quote.is_none() && self.depth == 0
    }

    // Whether a piece ends at this character.
    #[tactic(auto, unfolding(crate::specs::StyleText::is_cut))]
    fn is_cut(&self, c: char) -> bool
        ensures { result ≡ spec.is_cut self.now c }
    {
        c == ';' && self.is_outside()
    }

    // Goes past a character.
    #[tactic(auto, unfolding(crate::specs::StyleText::after))]
    fn pass(&mut self, c: char)
        requires { self.old.depth < usize.MAX }
        ensures after { self.new ≡ spec.after self.old c }
        ensures deeper { self.new.depth ≤ self.old.depth + 1 }
    {
        match c {
            '"' | '\'' => {
                self.quote = match self.quote {
                    None => Some(c),
                    Some(quote) => { if c == quote { None } else { Some(quote) } }
                }
            }
            '(' if self.quote.is_none() => self.depth += 1,
            ')' if self.quote.is_none() => self.depth = self.depth.saturating_sub(1),
            _ => {}
        }
    }
}

// Tab, LF, FF, CR and space.
pub(crate) fn is_space(c: char) -> bool
    ensures { result ≡ spec.is_space c }
{
    matches!(c, '\t' | '\n' | '\u{c}' | '\r' | ' ')
}

// The text without the spaces at its front.
pub(crate) fn trim_start(text: &[char]) -> &[char]
    ensures { result.now ≡ spec.trim_start text.now }
{
    let mut rest = text;
    while let [first, tail @ ..] = rest {
        if !is_space(*first) {
            break;
        }
        rest = tail;
    }
    rest
}

// The text without the spaces at its end.
fn trim_end(text: &[char]) -> &[char]
    ensures { result.now ≡ spec.trim_end text.now }
{
    let mut end = text.len();
    while end > 0 {
        if !is_space(text[end - 1]) {
            return &text[..end];
        }
        end -= 1;
    }
    &[]
}

/// The text without the spaces at both ends: tab, LF, FF, CR and space.
#[tactic(auto, unfolding(crate::specs::StyleText::trimmed))]
pub fn trimmed(text: &[char]) -> &[char]
    ensures { result.now ≡ spec.trimmed text.now }
{
    trim_end(trim_start(text))
}

// Whether two texts are the same in lower case.
pub(crate) fn is_same_name(left: &[char], right: &[char]) -> bool
    ensures { result ≡ bytes_eq (spec.lowered right.now) (spec.lowered left.now) }
{
    if left.len() != right.len() {
        return false;
    }
    for (i, c) in left.iter().enumerate() {
        if c.to_ascii_lowercase() != right[i].to_ascii_lowercase() {
            return false;
        }
    }
    true
}

/// Whether a text is these characters of ASCII.
pub fn has_codes(text: &[char], codes: &[u8]) -> bool
    ensures { result ≡ bytes_eq codes.now text.now }
{
    if text.len() != codes.len() {
        return false;
    }
    for (i, c) in text.iter().enumerate() {
        if *c as u32 != codes[i] as u32 {
            return false;
        }
    }
    true
}

// Whether a text is in lower case this name.
pub(crate) fn is_named(text: &[char], name: &[u8]) -> bool
    ensures { result ≡ bytes_eq name.now (spec.lowered text.now) }
{
    if text.len() != name.len() {
        return false;
    }
    for (i, c) in text.iter().enumerate() {
        if c.to_ascii_lowercase() as u32 != name[i] as u32 {
            return false;
        }
    }
    true
}

// The length of the first piece of a text: up to its first `;` outside quotes and parentheses.
pub(crate) fn piece_len(text: &[char]) -> usize
    ensures within { result ≤ length text.now }
    ensures cut { result < length text.now → spec.pieces spec.outside text.now
        ≡ take result text.now ∷ spec.pieces spec.outside (drop (result + 1) text.now) }
    ensures whole { length text.now ≤ result → spec.pieces spec.outside text.now ≡ text.now ∷ [] }
{
    let mut nesting = Nesting::outside();
    for (i, c) in text.iter().enumerate() {
        if nesting.is_cut(*c) {
            return i;
        }
        nesting.pass(*c);
    }
    text.len()
}

// Whether each quote and each parenthesis of a piece is closed in it.
#[tactic(auto, unfolding(crate::specs::StyleText::is_closed))]
fn is_closed(piece: &[char]) -> bool
    ensures { result ≡ spec.is_closed piece.now }
{
    let mut nesting = Nesting::outside();
    for c in piece {
        nesting.pass(*c);
    }
    nesting.is_outside()
}

// What stands before and after the first colon of a piece.
fn around_colon(piece: &[char]) -> (&[char], &[char])
    ensures before { result.0.now ≡ spec.before_colon piece.now }
    ensures after { result.1.now ≡ spec.after_colon piece.now }
{
    for (i, c) in piece.iter().enumerate() {
        if *c == ':' {
            return (&piece[..i], &piece[i + 1..]);
        }
    }
    (piece, &[])
}

// A name as it stands in a text, and its value.
#[derive(Clone, Copy)]
pub(crate) struct Stated<'a> {
    pub name: &'a [char],
    pub value: &'a [char],
}

// What a piece declares.
#[tactic(auto, unfolding(crate::specs::StyleText::declaration_of, crate::specs::StyleText::named))]
pub(crate) fn declared_in(piece: &[char]) -> Option<Stated<'_>>
    ensures { option_map (λ d. record {
      name = spec.lowered d.name.now;
      value = d.value.now;
    }) result ≡ spec.declaration_of piece.now }
{
    if !is_closed(piece) {
        return None;
    }
    let (before, after) = around_colon(piece);
    let name = trimmed(before);
    let value = trimmed(after);
    if name.is_empty() || value.is_empty() {
        None
    } else {
        Some(Stated { name, value })
    }
}

// The first piece of a text, and the text after it.
fn split_piece(text: &[char]) -> (&[char], &[char])
    requires { 0 < length text.now }
    ensures stated { spec.stated text.now
        ≡ cons_option (spec.declaration_of result.0.now) (spec.stated result.1.now) }
    ensures shorter { length result.1.now < length text.now }
{
    let end = piece_len(text);
    if end < text.len() {
        (&text[..end], &text[end + 1..])
    } else {
        (text, &[])
    }
}

// The first declaration of a text, and the text after its piece.
pub(crate) fn first_stated(text: &[char]) -> Option<(Stated<'_>, &[char])>
    ensures stated { MatchOption result (spec.stated text.now ≡ []) (λ r. spec.stated text.now
        ≡ record {
          name = spec.lowered r.0.name.now;
          value = r.0.value.now;
        } ∷ spec.stated r.1.now) }
    ensures shorter { IfSome result (λ r. length r.1.now < length text.now) }
{
    let mut rest = text;
    while !rest.is_empty() {
        let (piece, after) = split_piece(rest);
        rest = after;
        if let Some(found) = declared_in(piece) {
            return Some((found, rest));
        }
    }
    None
}
