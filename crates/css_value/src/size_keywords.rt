//! The keywords of `font-size`.

ghost use Rattle.std.specs.Prelude.{◌≡◌};
ghost use Rattle.css_value.specs.SizeKeywords.{size_keyword};

/// The keyword of a size from 1 to 7.
#[tactic(auto, unfolding(crate::specs::SizeKeywords::size_keyword))]
pub fn size_keyword(size: u8) -> &'static [char]
    ensures { result.now ≡ size_keyword size }
{
    match size {
        1 => &['x', '-', 's', 'm', 'a', 'l', 'l'],
        2 => &['s', 'm', 'a', 'l', 'l'],
        3 => &['m', 'e', 'd', 'i', 'u', 'm'],
        4 => &['l', 'a', 'r', 'g', 'e'],
        5 => &['x', '-', 'l', 'a', 'r', 'g', 'e'],
        6 => &['x', 'x', '-', 'l', 'a', 'r', 'g', 'e'],
        _ => &['x', 'x', 'x', '-', 'l', 'a', 'r', 'g', 'e'],
    }
}
