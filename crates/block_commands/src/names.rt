//! The name of a block that a value gives.

ghost use Rattle.std.specs.Prelude.{◌≡◌, false, true, IfOk, MatchOption, map};
ghost use Rattle.std.specs.Char.{to_ascii_lowercase};
ghost use Rattle.edit_model.specs.HtmlNames.ElementNames.{is_formattable_block};
ghost use Rattle.block_commands.specs.FormatBlock.{block_name, unbracketed};

use edit_model::dom::Name;
use edit_model::element_names::is_formattable_block;
use std::alloc::{AllocError, Global};

// A value without a `<` and `>` around it.
#[tactic(auto, unfolding(crate::specs::FormatBlock::unbracketed))]
fn unbracketed(value: &[char]) -> &[char]
    ensures { result.now ≡ unbracketed value.now }
{
    let count = value.len();
    if count >= 2 && value[0] == '<' && value[count - 1] == '>' {
        &value[1..count - 1]
    } else {
        value
    }
}

// A text in lower case as bytes, where it has ASCII alone.
fn lowered(alloc: Global, text: &[char]) -> Result<Option<Vec<u8>>, AllocError>
    ensures { IfOk result (λ read.
        MatchOption read (is_formattable_block (map to_ascii_lowercase text.now) ≡ false)
        (λ bytes. bytes.items ≡ map to_ascii_lowercase text.now)) }
{
    let mut bytes = Vec::new(alloc);
    for c in text {
        if !c.is_ascii() {
            return Ok(None);
        }
        bytes.push(c.to_ascii_lowercase() as u8)?;
    }
    Ok(Some(bytes))
}

/// The formattable block name that a value gives, without regard to ASCII case and to a `<` and `>`
/// around it.
#[tactic(auto, unfolding(crate::specs::FormatBlock::block_name))]
pub(crate) fn block_name(alloc: Global, value: &[char]) -> Result<Option<Name>, AllocError>
    ensures { IfOk result (λ read.
        MatchOption read (is_formattable_block (block_name value.now) ≡ false)
        (λ name. (name ≡ block_name value.now) × (is_formattable_block name ≡ true))) }
{
    match lowered(alloc, unbracketed(value))? {
        Some(bytes) if is_formattable_block(&bytes) => Ok(Some(Name::from_vec(bytes))),
        _ => Ok(None),
    }
}
