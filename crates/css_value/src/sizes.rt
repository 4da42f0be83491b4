//! Decimal numbers and sizes of fonts.

ghost use Rattle.std.specs.Prelude.{◌≡◌, ◌≤◌, IfSome};
ghost use Rattle.css_value.specs.Numbers as spec;

/// The legacy font size, 1 to 7, of a size in pixels: the sizes are 10, 13, 16, 18, 24, 32 and 48
/// pixels, and a size in the middle between two belongs to the greater (the editing APIs' "legacy
/// font size for").
#[tactic(auto, unfolding(crate::specs::Numbers::legacy_size))]
pub fn legacy_size(px: u32) -> u8
    ensures { result ≡ spec.legacy_size px }
{
    let double = px as u64 * 2;
    if double < 23 {
        1
    } else if double < 29 {
        2
    } else if double < 34 {
        3
    } else if double < 42 {
        4
    } else if double < 56 {
        5
    } else if double < 80 {
        6
    } else {
        7
    }
}

// Whether there are digits, and the first isn't a needless zero.
fn is_trim(text: &[char]) -> bool
    ensures { result ≡ spec.is_trim text.now }
{
    match text {
        [] => false,
        [_] => true,
        [first, ..] => *first != '0',
    }
}

// The number of a text of digits without leading zeros, where it is at most this.
#[tactic(auto, unfolding(crate::specs::Numbers::number_up_to))]
pub(crate) fn number(text: &[char], most: u16) -> Option<u16>
    ensures number { result ≡ spec.number_up_to most text.now }
    ensures small { IfSome result (λ n. n ≤ most) }
{
    if !is_trim(text) {
        return None;
    }
    let mut value: u32 = 0;
    for c in text {
        if !c.is_ascii_digit() {
            return None;
        }
        value = value * 10 + (*c as u32 - '0' as u32);
        if value > most as u32 {
            return None;
        }
    }
    Some(value as u16)
}
