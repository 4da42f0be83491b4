//! Whether a text is the one that a value prints.

ghost use Rattle.std.specs.Prelude.{◌≡◌, bytes_eq, decimal};
ghost use Rattle.css_value.specs.Values.{pixels_text};

use crate::sizes::number;
use crate::style_text::has_codes;

/// Whether a text is a number, in decimal digits without needless zeros.
pub fn is_decimal(text: &[char], number_wanted: u16) -> bool
    ensures { result ≡ bytes_eq (decimal number_wanted) text.now }
{
    match number(text, 65535) {
        Some(found) => found == number_wanted,
        None => false,
    }
}

/// Whether a text is a size in pixels, as `Npx`.
#[tactic(auto, unfolding(crate::specs::Values::pixels_text))]
pub fn is_pixels(text: &[char], px: u16) -> bool
    ensures { result ≡ bytes_eq (pixels_text px) text.now }
{
    let (digits, unit) = text.split_at(text.len().saturating_sub(2));
    has_codes(unit, b"px") && is_decimal(digits, px)
}
