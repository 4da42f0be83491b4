//! The words of the command line, after the program's name.

ghost use Rattle.std.specs.Prelude.{◌≡◌, ◌↔◌, map, string_bytes, Some};
ghost use Rattle.std.specs.Option.{option_map};
ghost use Rattle.edit_session.specs.Denials.{names_in, names_of};
ghost use Rattle.edit_session.specs.Words as grammar;
ghost use Rattle.edit_session.specs.Words.{reads_input, amount_of, is_given, given_in, limits_of, limits_in, order_in, bulk_count_of, usual_limits, none_given, lone_order, bulk_order, plain_order, choice_of, with_choice, setting_named, setting_read, joined_read, options_read, order_of, IsOrder};

use crate::denials::are_names;
use script_read::read_number;
use std::marker::Copy;

/// What the program is asked to do.
#[derive(Clone, Copy, PartialEq, Eq, Debug)]
pub enum Order<'a> {
    /// To run a session.
    Run(Limits<'a>),
    /// To read a page and write its numbers.
    Check,
    /// To apply step lines to a page.
    Replay,
    /// To run a session on a page of so many paragraphs, which isn't read.
    Bulk(u32),
}

/// What bounds a session: labels stay below `cap`, `undo` entries are kept for undo, and the
/// commands are denied whose names `denied` lists, with a comma between.
#[derive(Clone, Copy, PartialEq, Eq, Debug)]
pub struct Limits<'a> {
    pub cap: u32,
    pub undo: u32,
    pub denied: Option<&'a str>,
}

/// An option of `run`.
#[derive(Clone, Copy, PartialEq, Eq, Debug)]
pub enum Setting {
    Cap,
    Undo,
    Deny,
}

/// The options that are given so far.
#[derive(Clone, Copy, PartialEq, Eq, Debug)]
pub struct Options<'a> {
    pub cap: Option<u32>,
    pub undo: Option<u32>,
    pub deny: Option<&'a str>,
}

// The cap of labels where none is given, and the greatest.
pub(crate) const GREATEST_CAP: u32 = 2_000_000;

const GREATEST_UNDO: u32 = 1000;

const USUAL_UNDO: u32 = 100;

const GREATEST_BULK: u32 = 5000;

impl Order<'_> {
    /// Whether it reads the input.
    pub fn reads_input(self) -> bool
        ensures { result ≡ reads_input (order_in self.entry) }
    {
        match self {
            Order::Run(_) | Order::Check | Order::Replay => true,
            Order::Bulk(_) => false,
        }
    }
}

/// The limits of a session without options.
pub(crate) fn usual_limits() -> Limits<'static>
    ensures { limits_in result ≡ usual_limits }
{
    Options::none().limits()
}

impl<'a> Options<'a> {
    fn has(&self, setting: Setting) -> bool
        ensures { result ≡ is_given (given_in self.now) setting }
    {
        match setting {
            Setting::Cap => self.cap.is_some(),
            Setting::Undo => self.undo.is_some(),
            Setting::Deny => self.deny.is_some(),
        }
    }

    fn none() -> Options<'a>
        ensures { given_in result ≡ none_given }
    {
        Options {
            cap: None,
            undo: None,
            deny: None,
        }
    }

    fn limits(self) -> Limits<'a>
        ensures { limits_in result ≡ limits_of (given_in self.entry) }
    {
        Limits {
            cap: self.cap.unwrap_or(GREATEST_CAP),
            undo: self.undo.unwrap_or(USUAL_UNDO),
            denied: self.deny,
        }
    }
}

fn read_amount(text: &str, greatest: u32) -> Option<u32>
    ensures { result ≡ amount_of greatest text.now }
{
    let amount = read_number(text.as_bytes())?;
    if 0 < amount && amount <= greatest {
        Some(amount)
    } else {
        None
    }
}

// Names of commands, if the text lists some.
fn read_names(text: &str) -> Option<&str>
    ensures { option_map (λ names. names_in names.now) result ≡ names_of text.now }
{
    if are_names(text.as_bytes()) {
        Some(text)
    } else {
        None
    }
}

fn setting_named(word: &str) -> Option<Setting>
    ensures { result ≡ setting_named word.now }
{
    match word {
        "--cap" => Some(Setting::Cap),
        "--undo" => Some(Setting::Undo),
        "--deny" => Some(Setting::Deny),
        _ => None,
    }
}

// The options with what the text of its value chooses for one of them.
fn choose<'a>(options: Options<'a>, setting: Setting, text: &'a str) -> Option<Options<'a>>
    ensures { option_map given_in result ≡ option_map (with_choice (given_in options.entry))
        (choice_of setting text.now) }
{
    match setting {
        Setting::Cap => Some(Options {
            cap: Some(read_amount(text, GREATEST_CAP)?),
            ..options
        }),
        Setting::Undo => Some(Options {
            undo: Some(read_amount(text, GREATEST_UNDO)?),
            ..options
        }),
        Setting::Deny => Some(Options {
            deny: Some(read_names(text)?),
            ..options
        }),
    }
}

fn read_setting<'a>(options: Options<'a>, setting: Setting, text: &'a str) -> Option<Options<'a>>
    ensures { option_map given_in result ≡ setting_read (given_in options.entry) setting text.now }
{
    if options.has(setting) {
        return None;
    }
    choose(options, setting, text)
}

// An option and its value in one word.
fn read_joined<'a>(options: Options<'a>, word: &'a str) -> Option<Options<'a>>
    ensures { option_map given_in result ≡ joined_read (given_in options.entry) word.now }
{
    if let Some(text) = word.strip_prefix("--cap=") {
        return read_setting(options, Setting::Cap, text);
    }
    if let Some(text) = word.strip_prefix("--undo=") {
        return read_setting(options, Setting::Undo, text);
    }
    if let Some(text) = word.strip_prefix("--deny=") {
        return read_setting(options, Setting::Deny, text);
    }
    None
}

// Each option is given at most once, so this goes at most four calls deep.
fn read_options<'a>(options: Options<'a>, words: &'a [String]) -> Option<Options<'a>>
    ensures { option_map given_in result
        ≡ options_read (given_in options.entry) (map string_bytes words.now) }
{
    match words {
        [] => Some(options),
        [word] => read_joined(options, word.as_str()),
        [word, text, rest @ ..] => match setting_named(word.as_str()) {
            Some(setting) => read_options(read_setting(options, setting, text.as_str())?, rest),
            None => read_options(read_joined(options, word.as_str())?, &words[1..]),
        },
    }
}

// How many paragraphs a text asks for.
fn read_bulk_count(text: &str) -> Option<u32>
    ensures { result ≡ bulk_count_of text.now }
{
    if text.len() <= 4 {
        read_amount(text, GREATEST_BULK)
    } else {
        None
    }
}

// The order of one word.
fn lone_order<'a>(word: &str) -> Option<Order<'a>>
    ensures { option_map order_in result ≡ lone_order word.now }
{
    match word {
        "check" => Some(Order::Check),
        "replay" => Some(Order::Replay),
        _ => None,
    }
}

fn bulk_order<'a>(word: &str, text: &str) -> Option<Order<'a>>
    ensures { option_map order_in result ≡ bulk_order word.now text.now }
{
    if word != "bulk" {
        return None;
    }
    Some(Order::Bulk(read_bulk_count(text)?))
}

// The order of a first word that takes no options, and the words after it.
fn plain_order<'a>(word: &str, words: &'a [String]) -> Option<Order<'a>>
    ensures { option_map order_in result ≡ plain_order word.now (map string_bytes words.now) }
{
    match words {
        [] => lone_order(word),
        [text] => bulk_order(word, text.as_str()),
        _ => None,
    }
}

/// The order that the words ask for, or None where they are not in the grammar. It takes no memory.
#[tactic(auto, using(crate::proofs::WordsLemmas::grammar_of, crate::proofs::WordsLemmas::one_order))]
pub fn read_words(words: &[String]) -> Option<Order<'_>>
    ensures computed { option_map order_in result ≡ order_of (map string_bytes words.now) }
    ensures grammar { (o : grammar.Order) → (option_map order_in result ≡ Some o)
        ↔ IsOrder (map string_bytes words.now) o }
    ensures one_order { (o p : grammar.Order) → IsOrder (map string_bytes words.now) o
        → IsOrder (map string_bytes words.now) p → o ≡ p }
{
    match words {
        [first, rest @ ..] if first.as_str() == "run" => {
            let options = read_options(Options::none(), rest)?;
            Some(Order::Run(options.limits()))
        }
        [first, rest @ ..] => plain_order(first.as_str(), rest),
        [] => None,
    }
}
