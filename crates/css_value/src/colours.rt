//! Colours.

ghost use Rattle.std.specs.Prelude.{◌≡◌, ◌<◌, IfOk, IsTrue, Some, false, map};
ghost use Rattle.std.specs.Option.{option_map};
ghost use Rattle.std.specs.List.{list_all};
ghost use Rattle.std.specs.Char.{is_ascii_hexdigit};
ghost use Rattle.css_value.specs.StyleText.{lowered};
ghost use Rattle.css_value.specs.Colours as spec;

use crate::sizes::number;
use crate::style_text::{has_codes, is_named};
use crate::value_text::chars_of;
use std::alloc::{AllocError, Global};

/// A colour by its components; `clear` is that of `transparent`.
#[derive(Clone, Copy, PartialEq, Eq, Debug)]
pub struct Colour {
    pub red: u8,
    pub green: u8,
    pub blue: u8,
    pub clear: bool,
}

// A colour keyword.
#[derive(Clone, Copy)]
struct NamedColour {
    name: &'static [u8],
    red: u8,
    green: u8,
    blue: u8,
}

static NAMED_COLOURS: [NamedColour; 17] = [
    NamedColour {
        name: b"aqua",
        red: 0,
        green: 255,
        blue: 255,
    },
    NamedColour {
        name: b"black",
        red: 0,
        green: 0,
        blue: 0,
    },
    NamedColour {
        name: b"blue",
        red: 0,
        green: 0,
        blue: 255,
    },
    NamedColour {
        name: b"fuchsia",
        red: 255,
        green: 0,
        blue: 255,
    },
    NamedColour {
        name: b"gray",
        red: 128,
        green: 128,
        blue: 128,
    },
    NamedColour {
        name: b"green",
        red: 0,
        green: 128,
        blue: 0,
    },
    NamedColour {
        name: b"lime",
        red: 0,
        green: 255,
        blue: 0,
    },
    NamedColour {
        name: b"maroon",
        red: 128,
        green: 0,
        blue: 0,
    },
    NamedColour {
        name: b"navy",
        red: 0,
        green: 0,
        blue: 128,
    },
    NamedColour {
        name: b"olive",
        red: 128,
        green: 128,
        blue: 0,
    },
    NamedColour {
        name: b"orange",
        red: 255,
        green: 165,
        blue: 0,
    },
    NamedColour {
        name: b"purple",
        red: 128,
        green: 0,
        blue: 128,
    },
    NamedColour {
        name: b"red",
        red: 255,
        green: 0,
        blue: 0,
    },
    NamedColour {
        name: b"silver",
        red: 192,
        green: 192,
        blue: 192,
    },
    NamedColour {
        name: b"teal",
        red: 0,
        green: 128,
        blue: 128,
    },
    NamedColour {
        name: b"white",
        red: 255,
        green: 255,
        blue: 255,
    },
    NamedColour {
        name: b"yellow",
        red: 255,
        green: 255,
        blue: 0,
    },
];

// The colour of a keyword of a table, in any case.
fn named_in(table: &[NamedColour], text: &[char]) -> Option<Colour>
    ensures { result
        ≡ spec.colour_in
        (map (λ row. (row.name.now, spec.opaque_colour row.red row.green row.blue)) table.now)
        (lowered text.now) }
{
    for row in table {
        if is_named(text, row.name) {
            return Some(Colour {
                red: row.red,
                green: row.green,
                blue: row.blue,
                clear: false,
            });
        }
    }
    None
}

// The colour of a keyword, in any case.
#[tactic(auto, unfolding(crate::specs::Colours::named_colour))]
fn named_colour(text: &[char]) -> Option<Colour>
    ensures { result ≡ spec.named_colour text.now }
{
    named_in(&NAMED_COLOURS, text)
}

// The value of a hexadecimal digit, in any case.
fn hex_value(c: char) -> u8
    requires { IsTrue (is_ascii_hexdigit c) }
    ensures value { result ≡ spec.hex_value c }
    ensures small { result < 16 }
{
    if c.is_ascii_digit() {
        (c as u32 - '0' as u32) as u8
    } else {
        (c.to_ascii_lowercase() as u32 - 87) as u8
    }
}

// The colour of three or six digits.
fn of_digits(digits: &[char]) -> Option<Colour>
    requires { IsTrue (list_all is_ascii_hexdigit digits.now) }
    ensures { result ≡ spec.of_digits digits.now }
{
    match digits {
        [r, g, b] => Some(Colour {
            red: hex_value(*r) * 17,
            green: hex_value(*g) * 17,
            blue: hex_value(*b) * 17,
            clear: false,
        }),
        [r, s, g, h, b, c] => Some(Colour {
            red: hex_value(*r) * 16 + hex_value(*s),
            green: hex_value(*g) * 16 + hex_value(*h),
            blue: hex_value(*b) * 16 + hex_value(*c),
            clear: false,
        }),
        _ => None,
    }
}

// Whether all are hexadecimal digits.
fn are_digits(text: &[char]) -> bool
    ensures { result ≡ list_all is_ascii_hexdigit text.now }
{
    text.iter().all(|c| c.is_ascii_hexdigit())
}

// The colour of the digits after a `#`.
#[tactic(auto, unfolding(crate::specs::Colours::hex_colour))]
fn hex_colour(digits: &[char]) -> Option<Colour>
    ensures { result ≡ spec.hex_colour digits.now }
{
    if are_digits(digits) {
        of_digits(digits)
    } else {
        None
    }
}

// What stands before and after the first character of this code.
fn split_first(text: &[char], stop: char) -> Option<(&[char], &[char])>
    ensures { option_map (λ p. (p.0.now, p.1.now)) result ≡ spec.split_first stop text.now }
{
    for (i, c) in text.iter().enumerate() {
        if *c == stop {
            return Some((&text[..i], &text[i + 1..]));
        }
    }
    None
}

// The number to 255 before the first character of this code, and the text after it.
#[tactic(auto, unfolding(crate::specs::Colours::channel))]
fn channel(text: &[char], stop: char) -> Option<(u8, &[char])>
    ensures { option_map (λ p. (p.0, p.1.now)) result ≡ spec.channel stop text.now }
{
    match split_first(text, stop) {
        None => None,
        Some((digits, rest)) => match number(digits, 255) {
            None => None,
            Some(value) => Some((value as u8, rest)),
        },
    }
}

// The text after a space, or nothing where there is none.
fn after_space(text: &[char]) -> &[char]
    ensures { result.now ≡ spec.after_space text.now }
{
    match text {
        [' ', rest @ ..] => rest,
        _ => &[],
    }
}

// The colour of `r, g, b)`.
#[tactic(auto, unfolding(crate::specs::Colours::rgb_colour))]
fn rgb_colour(text: &[char]) -> Option<Colour>
    ensures { result ≡ spec.rgb_colour text.now }
{
    let (red, rest) = channel(text, ',')?;
    let (green, rest) = channel(after_space(rest), ',')?;
    let (blue, rest) = channel(after_space(rest), ')')?;
    if rest.is_empty() {
        Some(Colour {
            red,
            green,
            blue,
            clear: false,
        })
    } else {
        None
    }
}

// The colour of `#` and digits.
fn marked_colour(text: &[char]) -> Option<Colour>
    ensures { result ≡ spec.marked_colour text.now }
{
    match text {
        ['#', digits @ ..] => hex_colour(digits),
        _ => None,
    }
}

// The colour of `rgb(r, g, b)`.
fn functional_colour(text: &[char]) -> Option<Colour>
    ensures { result ≡ spec.functional_colour text.now }
{
    if text.len() < 4 || !has_codes(&text[..4], b"rgb(") {
        return None;
    }
    rgb_colour(&text[4..])
}

impl Colour {
    /// The colour that a text is: `transparent`, a keyword in any case, `#rgb` or `#rrggbb` with
    /// digits in any case, or `rgb(r, g, b)` with whole numbers to 255 without leading zeros and
    /// one space after each comma.
    #[tactic(auto, unfolding(crate::specs::Colours::colour_of))]
    pub fn read(text: &[char]) -> Option<Colour>
        ensures { result ≡ spec.colour_of text.now }
    {
        if has_codes(text, b"transparent") {
            return Some(Colour {
                red: 0,
                green: 0,
                blue: 0,
                clear: true,
            });
        }
        if let Some(colour) = named_colour(text) {
            return Some(colour);
        }
        if let Some(colour) = marked_colour(text) {
            return Some(colour);
        }
        functional_colour(text)
    }

    /// The colour as `rgb(r, g, b)`, and that of `transparent` as `rgba(0, 0, 0, 0)`. All but that
    /// one are read back.
    #[tactic(auto, unfolding(crate::specs::Colours::colour_text))]
    pub fn print(self, alloc: Global) -> Result<Vec<char>, AllocError>
        ensures text { IfOk result (λ text. text.items ≡ spec.colour_text self) }
        ensures read_back { self.clear ≡ false
            → IfOk result (λ text. spec.colour_of text.items ≡ Some self) }
    {
        if self.clear {
            return chars_of(alloc, b"rgba(0, 0, 0, 0)");
        }
        let red = self.red;
        let green = self.green;
        let blue = self.blue;
        let text = format!(in alloc; "rgb({red}, {green}, {blue})")?;
        chars_of(alloc, text.as_bytes())
    }
}
