//! A command's value before it is printed.

ghost use Rattle.std.specs.Prelude.{◌≡◌, IfOk, is_none};
ghost use Rattle.command_value.specs.ValueTexts.{value_text};

use node_styles::css::{Colour, FontStyle, print_font_size, print_font_weight};
use node_styles::dom::Chars;
use std::alloc::{AllocError, Global};

/// A command's value: null, a text as it is written, or what its text stands for.
#[derive(Clone, Copy)]
pub enum Value<'a> {
    Null,
    Text(&'a [char]),
    Weight(u16),
    Slant(FontStyle),
    Pixels(u16),
    Shade(Colour),
}

impl Value<'_> {
    /// Whether the value is null.
    pub fn is_null(self) -> bool
        ensures { result ≡ is_none (value_text self.entry) }
    {
        matches!(self, Value::Null)
    }

    /// The text of the value; `None` is null.
    pub fn print(self, alloc: Global) -> Result<Option<Chars>, AllocError>
        ensures { IfOk result (λ text. text ≡ value_text self.entry) }
    {
        let text = match self {
            Value::Null => return Ok(None),
            Value::Text(text) => text.to_vec(alloc),
            Value::Weight(weight) => print_font_weight(alloc, weight),
            Value::Slant(slant) => slant.print(alloc),
            Value::Pixels(px) => print_font_size(alloc, px),
            Value::Shade(colour) => colour.print(alloc),
        };
        Ok(Some(Chars::from_vec(text?)?))
    }
}
