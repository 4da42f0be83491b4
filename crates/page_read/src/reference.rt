//! Character references: how far one is read, and what the next character makes of it.

ghost use Rattle.std.specs.Prelude.{◌≡◌, ◌≤◌, ◌<◌, ◌*◌, ◌+◌, length, true};
ghost use Rattle.page_grammar.specs.Chars.{digit_of, is_hex};
ghost use Rattle.page_grammar.specs.Machine.{ref_step, dec, hex, done};
ghost use Rattle.page_read.specs.References.{name_of, char_of, reference_of, turn_of, IsSmall, IsSmallTurn};

use page_grammar::classes::{is_digit, is_hex, lower};

/// A reference that has a name.
#[derive(Drop, Clone, Copy)]
pub(crate) enum Entity {
    Ampersand,
    Less,
    Greater,
    Quote,
    Apostrophe,
    NoBreakSpace,
}

/// How far a reference is read.
#[derive(Drop, Clone, Copy)]
pub(crate) enum Reference {
    /// `&`
    Begun,
    /// `&a`, which begins two names.
    LetterA,
    /// `&` and so many characters of a name.
    Named(Entity, usize),
    /// `&#`
    Number,
    /// `&#` and digits of this number.
    Decimal(u32),
    /// `&#x`
    HexMark,
    /// `&#x` and digits of this number.
    Hexadecimal(u32),
}

/// What the next character makes of a reference.
#[derive(Drop, Clone, Copy)]
pub(crate) enum Turn {
    /// No reference goes on so.
    Stop,
    More(Reference),
    /// The reference stands for this character.
    Done(char),
}

impl Entity {
    fn name(self) -> &'static [u8]
        ensures { result.now ≡ name_of self }
    {
        match self {
            Entity::Ampersand => b"amp",
            Entity::Less => b"lt",
            Entity::Greater => b"gt",
            Entity::Quote => b"quot",
            Entity::Apostrophe => b"apos",
            Entity::NoBreakSpace => b"nbsp",
        }
    }

    fn character(self) -> char
        ensures { result ≡ char_of self }
    {
        match self {
            Entity::Ampersand => '&',
            Entity::Less => '<',
            Entity::Greater => '>',
            Entity::Quote => '"',
            Entity::Apostrophe => '\'',
            Entity::NoBreakSpace => '\u{a0}',
        }
    }
}

fn more(entity: Entity, read: usize) -> Turn
    ensures { result ≡ Turn.More (Reference.Named entity read) }
{
    Turn::More(Reference::Named(entity, read))
}

fn after_ampersand(c: char) -> Turn
    ensures value { turn_of result ≡ ref_step (reference_of Reference.Begun) c }
    ensures small { IsSmallTurn result }
{
    match c {
        '#' => Turn::More(Reference::Number),
        'a' => Turn::More(Reference::LetterA),
        'l' => more(Entity::Less, 1),
        'g' => more(Entity::Greater, 1),
        'q' => more(Entity::Quote, 1),
        'n' => more(Entity::NoBreakSpace, 1),
        _ => Turn::Stop,
    }
}

fn after_letter_a(c: char) -> Turn
    ensures value { turn_of result ≡ ref_step (reference_of Reference.LetterA) c }
    ensures small { IsSmallTurn result }
{
    match c {
        'm' => more(Entity::Ampersand, 2),
        'p' => more(Entity::Apostrophe, 2),
        _ => Turn::Stop,
    }
}

#[tactic(auto, using(std::proofs::lemmas::List::drop_all))]
fn after_named(entity: Entity, read: usize, c: char) -> Turn
    requires { read ≤ length (name_of entity) }
    ensures value { turn_of result ≡ ref_step (reference_of (Reference.Named entity read)) c }
    ensures small { IsSmallTurn result }
{
    let name = entity.name();
    if c == ';' {
        return if read == name.len() {
            Turn::Done(entity.character())
        } else {
            Turn::Stop
        };
    }
    if read < name.len() && c == name[read] as char {
        return more(entity, read + 1);
    }
    Turn::Stop
}

/// The value of a digit.
#[tactic(auto, unfolding(page_grammar::specs::Chars::digit_of, page_grammar::specs::Chars::is_digit, page_grammar::specs::Chars::is_hex, page_grammar::specs::Chars::lower))]
fn digit(c: char) -> u32
    requires { is_hex c ≡ true }
    ensures value { result ≡ digit_of c }
    ensures small { result < 16 }
{
    if is_digit(c) {
        c as u32 - '0' as u32
    } else {
        lower(c) as u32 - 87
    }
}

#[tactic(auto, unfolding(page_grammar::specs::Chars::is_referable))]
fn ended(value: u32, c: char) -> Turn
    ensures value { turn_of result ≡ done value c }
    ensures small { IsSmallTurn result }
{
    if c != ';' || value == 0 {
        return Turn::Stop;
    }
    match char::from_u32(value) {
        Some(character) => Turn::Done(character),
        None => Turn::Stop,
    }
}

fn decimal(value: u32) -> Turn
    ensures value { turn_of result ≡ dec value }
    ensures small { IsSmallTurn result }
{
    if value <= 1114111 {
        Turn::More(Reference::Decimal(value))
    } else {
        Turn::Stop
    }
}

fn hexadecimal(value: u32) -> Turn
    ensures value { turn_of result ≡ hex value }
    ensures small { IsSmallTurn result }
{
    if value <= 1114111 {
        Turn::More(Reference::Hexadecimal(value))
    } else {
        Turn::Stop
    }
}

#[tactic(auto, unfolding(page_grammar::specs::Chars::is_hex))]
fn after_number_sign(c: char) -> Turn
    ensures value { turn_of result ≡ ref_step (reference_of Reference.Number) c }
    ensures small { IsSmallTurn result }
{
    if is_digit(c) {
        return decimal(digit(c));
    }
    if lower(c) == 'x' {
        return Turn::More(Reference::HexMark);
    }
    Turn::Stop
}

#[tactic(auto, unfolding(page_grammar::specs::Chars::is_hex))]
fn after_decimal(value: u32, c: char) -> Turn
    requires { value ≤ 1114111 }
    ensures value { turn_of result ≡ ref_step (reference_of (Reference.Decimal value)) c }
    ensures small { IsSmallTurn result }
{
    if is_digit(c) {
        return decimal(value * 10 + digit(c));
    }
    ended(value, c)
}

fn after_hex_mark(c: char) -> Turn
    ensures value { turn_of result ≡ ref_step (reference_of Reference.HexMark) c }
    ensures small { IsSmallTurn result }
{
    if is_hex(c) {
        return hexadecimal(digit(c));
    }
    Turn::Stop
}

fn after_hexadecimal(value: u32, c: char) -> Turn
    requires { value ≤ 1114111 }
    ensures value { turn_of result ≡ ref_step (reference_of (Reference.Hexadecimal value)) c }
    ensures small { IsSmallTurn result }
{
    if is_hex(c) {
        return hexadecimal(value * 16 + digit(c));
    }
    ended(value, c)
}

impl Reference {
    /// The next character.
    pub(crate) fn step(self, c: char) -> Turn
        requires { IsSmall self }
        ensures value { turn_of result ≡ ref_step (reference_of self) c }
        ensures small { IsSmallTurn result }
    {
        match self {
            Reference::Begun => after_ampersand(c),
            Reference::LetterA => after_letter_a(c),
            Reference::Named(entity, read) => after_named(entity, read, c),
            Reference::Number => after_number_sign(c),
            Reference::Decimal(value) => after_decimal(value, c),
            Reference::HexMark => after_hex_mark(c),
            Reference::Hexadecimal(value) => after_hexadecimal(value, c),
        }
    }
}
