//! Kinds of characters in the grammar of pages.

ghost use Rattle.std.specs.Prelude.{◌≡◌};
ghost use Rattle.page_grammar.specs.Chars as classes;

/// The character in lower case, if it is an ASCII letter.
#[tactic(auto, unfolding(crate::specs::Chars::lower))]
pub fn lower(c: char) -> char
    ensures { result ≡ classes.lower c }
{
    c.to_ascii_lowercase()
}

/// ASCII white space.
#[tactic(auto, unfolding(crate::specs::Chars::is_space))]
pub fn is_space(c: char) -> bool
    ensures { result ≡ classes.is_space c }
{
    c == '\t' || c == '\n' || c == '\x0C' || c == '\r' || c == ' '
}

/// An ASCII letter.
#[tactic(auto, unfolding(crate::specs::Chars::is_letter, crate::specs::Chars::lower))]
pub fn is_letter(c: char) -> bool
    ensures { result ≡ classes.is_letter c }
{
    let low = lower(c);
    'a' <= low && low <= 'z'
}

/// An ASCII digit.
#[tactic(auto, unfolding(crate::specs::Chars::is_digit))]
pub fn is_digit(c: char) -> bool
    ensures { result ≡ classes.is_digit c }
{
    '0' <= c && c <= '9'
}

/// A hexadecimal digit.
#[tactic(auto, unfolding(crate::specs::Chars::is_hex))]
pub fn is_hex(c: char) -> bool
    ensures { result ≡ classes.is_hex c }
{
    let low = lower(c);
    is_digit(c) || 'a' <= low && low <= 'f'
}

/// A character of an element's name after its first letter.
#[tactic(auto, unfolding(crate::specs::Chars::is_name_char))]
pub fn is_name_char(c: char) -> bool
    ensures { result ≡ classes.is_name_char c }
{
    is_letter(c) || is_digit(c) || c == '-'
}

#[tactic(auto, unfolding(crate::specs::Chars::is_control))]
fn is_control(c: char) -> bool
    ensures { result ≡ classes.is_control c }
{
    c < ' ' || '\x7F' <= c && c < '\u{a0}'
}

/// A character of an attribute's name.
#[tactic(auto, unfolding(crate::specs::Chars::is_attribute_name_char))]
pub fn is_attribute_name_char(c: char) -> bool
    ensures { result ≡ classes.is_attribute_name_char c }
{
    !(is_space(c)
        || is_control(c)
        || c == '"'
        || c == '\''
        || c == '<'
        || c == '>'
        || c == '/'
        || c == '=')
}

/// A character that opens an attribute's value, and closes it.
#[tactic(auto, unfolding(crate::specs::Chars::is_quote))]
pub fn is_quote(c: char) -> bool
    ensures { result ≡ classes.is_quote c }
{
    c == '"' || c == '\''
}
