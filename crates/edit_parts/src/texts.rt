//! What edits replace of contents.

ghost use Rattle.std.specs.Prelude.{◌≡◌, ◌<◌, ◌+◌, ◌-◌, ◌^◌, [], length, take, drop, Some, IfOk, IfSome, is_some, unwrap_or};
ghost use Rattle.edit_model.specs.DomModel.Contents.{chars_in};
ghost use Rattle.edit_model.specs.Confined.{has_value, may_change};

use edit_model::EditFault;
use edit_model::arena::{Attributes, Chars, Content, MakeFault, Name};
use std::alloc::{AllocError, Global};

const MOST_CHARS: usize = 4_294_967_295;

/// Whether an attribute of the name has the value.
pub fn has_value(list: &Attributes, name: &Name, value: &Chars) -> bool
    ensures { result ≡ has_value list.now name.now value.now }
{
    match list.get(name.as_slice()) {
        Some(own) => own.as_slice() == value.as_slice(),
        None => false,
    }
}

/// The fault of an edit for which no node was made.
pub fn fault_of(fault: MakeFault) -> EditFault
    ensures full { fault ≡ MakeFault.Full → result ≡ EditFault.Full }
    ensures memory { fault ≡ MakeFault.Memory → result ≡ EditFault.Memory }
{
    match fault {
        MakeFault::Full => EditFault::Full,
        MakeFault::Memory => EditFault::Memory,
    }
}

/// Characters of a text that give way to others, and how many stand behind them.
#[derive(Clone, Copy)]
pub struct TextPart<'a> {
    pub taken: &'a [char],
    pub rest: u32,
}

/// The part of a text that others replace: `count` characters from the offset `at` on. `None` where
/// there are not as many, where they would stay the same, and where the text would have more than
/// 4,294,967,295.
pub fn replaced_part<'a>(
    content: &'a Content,
    at: u32,
    count: u32,
    put: &[char],
) -> Option<TextPart<'a>>
    ensures changes { is_some result ≡ may_change (Some content.now) at count put.now }
    ensures taken { IfSome result (λ part. part.taken.now
        ≡ take count (drop at (unwrap_or (chars_in content.now) []))) }
    ensures rest { IfSome result (λ part. part.rest
        ≡ length (unwrap_or (chars_in content.now) []) - (at + count)) }
{
    let Content::Words(chars) = content else {
        return None;
    };
    let chars = chars.as_slice();
    let at = at as usize;
    let count = count as usize;
    let end = at + count;
    if end > chars.len() {
        return None;
    }
    let kept = chars.len() - count;
    if kept > MOST_CHARS || put.len() > MOST_CHARS - kept {
        return None;
    }
    let taken = &chars[at..end];
    if taken == put {
        return None;
    }
    Some(TextPart {
        taken,
        rest: (chars.len() - end) as u32,
    })
}

/// A copy of the characters of a node past an offset, and how many they are.
pub fn tail_of(alloc: Global, content: &Content, at: u32) -> Result<(Chars, u32), AllocError>
    requires { length (unwrap_or (chars_in content.now) []) < 2 ^ 32 }
    ensures tail { IfOk result (λ r. r.0 ≡ drop at (unwrap_or (chars_in content.now) [])) }
    ensures count { IfOk result (λ r. r.1 ≡ length (unwrap_or (chars_in content.now) []) - at) }
{
    let chars: &[char] = match content {
        Content::Words(chars) => chars.as_slice(),
        Content::Remark(chars) => chars.as_slice(),
        _ => &[],
    };
    let at = (at as usize).min(chars.len());
    let tail = Chars::from_slice(alloc, &chars[at..])?;
    let count = tail.len() as u32;
    Ok((tail, count))
}
