//! Texts printed on one line: line feeds, tabs, quotes and the like as escapes, everything else as
//! itself, in UTF-8.
#![tactic(auto)]

ghost use Rattle.std.specs.Prelude.{◌≡◌, ◌++◌, OnOk, OnErr, encode_utf8, encode_utf8_all};
ghost use Rattle.escaped_text.specs.Escaped.{HasPart, escape_of, escaped_bytes};

use std::alloc::AllocError;

/// Appends a character in UTF-8. After an `Err` the bytes are as before.
pub fn push_char(bytes: &mut Vec<u8>, c: char) -> Result<(), AllocError>
    ensures ok { OnOk result (bytes.new.items ≡ bytes.old.items ++ encode_utf8 c) }
    ensures err { OnErr result (bytes.new.items ≡ bytes.old.items) }
{
    if c.is_ascii() {
        bytes.push(c as u8)?;
    } else {
        let mut buffer = [0; 4];
        bytes.extend_from_slice(c.encode_utf8(&mut buffer).as_bytes())?;
    }
    Ok(())
}

/// Appends characters in UTF-8. After an `Err` the first of them stand in the bytes.
pub fn push_chars(bytes: &mut Vec<u8>, text: &[char]) -> Result<(), AllocError>
    ensures ok { OnOk result (bytes.new.items ≡ bytes.old.items ++ encode_utf8_all text.now) }
    ensures err { OnErr result (HasPart encode_utf8_all bytes.old.items text.now bytes.new.items) }
{
    for c in text {
        push_char(bytes, *c)?;
    }
    Ok(())
}

// Appends what is printed for one character.
fn push_escape(bytes: &mut Vec<u8>, c: char) -> Result<(), AllocError>
    ensures ok { OnOk result (bytes.new.items ≡ bytes.old.items ++ encode_utf8_all (escape_of c)) }
    ensures err { OnErr result (bytes.new.items ≡ bytes.old.items) }
{
    match c {
        '\n' => bytes.extend_from_slice(b"\\n")?,
        '\t' => bytes.extend_from_slice(b"\\t")?,
        '\\' => bytes.extend_from_slice(b"\\\\")?,
        '"' => bytes.extend_from_slice(b"\\\"")?,
        '\r' => bytes.extend_from_slice(b"\\r")?,
        '\u{a0}' => bytes.extend_from_slice(b"\\u{a0}")?,
        _ => push_char(bytes, c)?,
    }
    Ok(())
}

/// Appends a text on one line: LF as `\n`, tab as `\t`, `\` as `\\`, `"` as `\"`, CR as `\r` and
/// U+00A0 as `\u{a0}`. After an `Err` the first characters stand in the bytes.
pub fn push_escaped(bytes: &mut Vec<u8>, text: &[char]) -> Result<(), AllocError>
    ensures ok { OnOk result (bytes.new.items ≡ bytes.old.items ++ escaped_bytes text.now) }
    ensures err { OnErr result (HasPart escaped_bytes bytes.old.items text.now bytes.new.items) }
{
    for c in text {
        push_escape(bytes, *c)?;
    }
    Ok(())
}
