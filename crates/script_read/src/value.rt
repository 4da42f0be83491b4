//! Values and printed texts, in which escapes stand for characters.

ghost use Rattle.std.specs.Prelude.{◌≡◌, ◌++◌, ◌<◌, IfSome, OnOk, option_to_list};
ghost use Rattle.std.specs.Str.{chars};
ghost use Rattle.script_read.specs.Answers.{Reads};
ghost use Rattle.script_read.specs.Reading.{Fits, letter_read, closed, digit_read, stepped, value_from, text_of, value_of, printed_of};

use crate::act::LineFault;
use dom_model::Chars;
use std::alloc::{AllocError, Global};
use std::marker::Copy;

/// Where a reader stands between two characters of a text.
#[derive(Clone, Copy, PartialEq, Eq, Debug)]
pub enum Escape {
    /// In no escape.
    Outside,
    /// After `\`.
    Backslash,
    /// After `\u`.
    Letter,
    /// After `\u{` and so many hexadecimal digits, which write the number.
    Digits { count: u32, number: u32 },
}

/// A state, and the character that is read as it is reached.
type Step = (Escape, Option<char>);

// The letter of an escape, of which a printed text has two more than a value.
fn read_letter(printed: bool, c: char) -> Option<Step>
    ensures { result ≡ letter_read printed c }
{
    match c {
        'n' => Some((Escape::Outside, Some('\n'))),
        't' => Some((Escape::Outside, Some('\t'))),
        '\\' => Some((Escape::Outside, Some('\\'))),
        'u' => Some((Escape::Letter, None)),
        '"' if printed => Some((Escape::Outside, Some('"'))),
        'r' if printed => Some((Escape::Outside, Some('\r'))),
        _ => None,
    }
}

// The end of `\u{` and its digits.
fn close(count: u32, number: u32) -> Option<Step>
    ensures { result ≡ closed count number }
{
    if count == 0 {
        return None;
    }
    let c = char::from_u32(number)?;
    Some((Escape::Outside, Some(c)))
}

// One more hexadecimal digit, of six at most.
fn read_digit(count: u32, number: u32, c: char) -> Option<Step>
    requires { Fits (Escape.Digits count number) }
    ensures step { result ≡ digit_read count number c }
    ensures fits { IfSome result (λ step. Fits step.0) }
{
    if count == 6 {
        return None;
    }
    let digit = c.to_digit(16)?;
    Some((
        Escape::Digits {
            count: count + 1,
            number: number * 16 + digit,
        },
        None,
    ))
}

fn step(printed: bool, state: Escape, c: char) -> Option<Step>
    requires { Fits state }
    ensures step { result ≡ stepped printed state c }
    ensures fits { IfSome result (λ step. Fits step.0) }
{
    match state {
        Escape::Outside if c == '\\' => Some((Escape::Backslash, None)),
        Escape::Outside => Some((Escape::Outside, Some(c))),
        Escape::Backslash => read_letter(printed, c),
        Escape::Letter if c == '{' => Some((
            Escape::Digits {
                count: 0,
                number: 0,
            },
            None,
        )),
        Escape::Letter => None,
        Escape::Digits { count, number } if c == '}' => close(count, number),
        Escape::Digits { count, number } => read_digit(count, number, c),
    }
}

fn push_read(value: &mut Vec<char>, c: Option<char>) -> Result<(), AllocError>
    ensures { OnOk result (value.new.items ≡ value.old.items ++ option_to_list c) }
{
    if let Some(c) = c {
        value.push(c)?;
    }
    Ok(())
}

fn read_escapes(alloc: Global, printed: bool, text: &str) -> Result<Chars, LineFault>
    ensures { Reads result (value_from printed Escape.Outside (chars text.now)) }
{
    let mut value = Vec::new(alloc);
    let mut state = Escape::Outside;
    for c in text.chars() {
        let Some((next, read)) = step(printed, state, c) else {
            return Err(LineFault::Syntax);
        };
        push_read(&mut value, read)?;
        state = next;
    }
    match state {
        Escape::Outside => Ok(Chars::from_vec(value)?),
        _ => Err(LineFault::Syntax),
    }
}

fn read_text(alloc: Global, printed: bool, text: &[u8]) -> Result<Chars, LineFault>
    ensures { Reads result (text_of printed text.now) }
{
    match str::from_utf8(text) {
        Ok(text) => read_escapes(alloc, printed, text),
        Err(_) => Err(LineFault::Syntax),
    }
}

/// A value: UTF-8 text with the escapes `\n`, `\t`, `\\` and `\u{h}`, h being 1 to 6 hexadecimal
/// digits of a scalar value. Every other character stands for itself.
pub fn read_value(alloc: Global, text: &[u8]) -> Result<Chars, LineFault>
    ensures { Reads result (value_of text.now) }
{
    read_text(alloc, false, text)
}

/// A printed text: UTF-8 text with the escapes of a value, and `\"` and `\r`. Every other character
/// stands for itself.
pub fn read_printed(alloc: Global, text: &[u8]) -> Result<Chars, LineFault>
    ensures { Reads result (printed_of text.now) }
{
    read_text(alloc, true, text)
}
