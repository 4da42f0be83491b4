//! The small parts of a line: what stands round a separator, names and numbers.

ghost use Rattle.std.specs.Prelude.{◌≡◌, ◌==◌, IfSome, length, ◌<◌, position, true};
ghost use Rattle.std.specs.Option.{option_map};
ghost use Rattle.std.specs.List.{list_all};
ghost use Rattle.std.specs.Char.{is_ascii_digit};
ghost use Rattle.script_read.specs.Acts.{is_name, is_name_byte, is_number};
ghost use Rattle.script_read.specs.Reading.{cut, both, number_of};

fn first_separator(text: &[u8], separator: u8) -> Option<usize>
    ensures value { result ≡ position (λ b. b == separator) text.now }
    ensures within { IfSome result (λ at. at < length text.now) }
{
    text.iter().position(|b| *b == separator)
}

/// What stands before the first separator, and what stands after it.
pub fn cut(text: &[u8], separator: u8) -> Option<(&[u8], &[u8])>
    ensures { option_map both result ≡ cut separator text.now }
{
    match first_separator(text, separator) {
        Some(at) => Some((&text[..at], &text[at + 1..])),
        None => None,
    }
}

fn all_name_bytes(text: &[u8]) -> bool
    ensures { result ≡ list_all is_name_byte text.now }
{
    text.iter().all(|b| b.is_ascii_alphanumeric() || *b == b'-')
}

/// Whether a text is a name: 1 to 64 ASCII letters, digits and `-`.
pub fn is_name(text: &[u8]) -> bool
    ensures { result ≡ is_name text.now }
{
    !text.is_empty() && text.len() <= 64 && all_name_bytes(text)
}

fn all_digits(text: &[u8]) -> bool
    ensures { result ≡ list_all is_ascii_digit text.now }
{
    text.iter().all(|b| b.is_ascii_digit())
}

fn is_number(text: &[u8]) -> bool
    ensures { result ≡ is_number text.now }
{
    !text.is_empty() && text.len() <= 9 && all_digits(text)
}

fn parse_digits(text: &[u8]) -> Option<u32>
    requires { is_number text.now ≡ true }
    ensures { result ≡ number_of text.now }
{
    match str::from_utf8(text) {
        Ok(digits) => digits.parse::<u32>().ok(),
        Err(_) => None,
    }
}

/// The number that 1 to 9 decimal digits write. Leading zeros count as digits.
pub fn read_number(text: &[u8]) -> Option<u32>
    ensures { result ≡ number_of text.now }
{
    if is_number(text) {
        parse_digits(text)
    } else {
        None
    }
}
