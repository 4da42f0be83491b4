//! How values of properties print.

ghost use Rattle.std.specs.Prelude.{◌≡◌, ◌≤◌, IfOk, IsTrue, Some, decimal};
ghost use Rattle.css_value.specs.Values as spec;

use std::alloc::{AllocError, Global};

// The characters that have the codes of these bytes.
pub(crate) fn chars_of(alloc: Global, name: &[u8]) -> Result<Vec<char>, AllocError>
    ensures { IfOk result (λ chars. chars.items ≡ name.now) }
{
    name.iter().map(|b| *b as char).collect(alloc)
}

/// A weight as a number. One from 100 to 900 by hundreds is read back.
pub fn print_font_weight(alloc: Global, weight: u16) -> Result<Vec<char>, AllocError>
    ensures text { IfOk result (λ text. text.items ≡ decimal weight) }
    ensures read_back { IsTrue (spec.is_weight weight) → IfOk result
        (λ text. spec.font_weight_of text.items ≡ Some weight) }
{
    let text = format!(in alloc; "{weight}")?;
    chars_of(alloc, text.as_bytes())
}

/// A size in pixels as `Npx`. One to 9999 is read back.
#[tactic(auto, unfolding(crate::specs::Values::pixels_text))]
pub fn print_font_size(alloc: Global, px: u16) -> Result<Vec<char>, AllocError>
    ensures text { IfOk result (λ text. text.items ≡ spec.pixels_text px) }
    ensures read_back { px ≤ 9999 → IfOk result (λ text. spec.font_size_of text.items ≡ Some px) }
{
    let text = format!(in alloc; "{px}px")?;
    chars_of(alloc, text.as_bytes())
}
