//! The value of one property in a style text.

ghost use Rattle.std.specs.Prelude.{◌≡◌};
ghost use Rattle.std.specs.Option.{option_copied};
ghost use Rattle.css_value.specs.DeclarationList.{declarations_in, value_of};

use crate::style_text::{first_stated, is_named};

/// The value of a property in a style text, by a name in ASCII and in lower case: what reading the
/// text and then asking for the name gives. It takes no memory.
pub fn find<'a>(text: &'a [char], name: &[u8]) -> Option<&'a [char]>
    ensures { option_copied result ≡ value_of (declarations_in text.now) name.now }
{
    let mut found = None;
    let mut rest = text;
    while let Some((stated, after)) = first_stated(rest) {
        if is_named(stated.name, name) {
            found = Some(stated.value);
        }
        rest = after;
    }
    found
}
