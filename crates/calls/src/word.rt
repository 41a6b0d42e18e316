//! The words of a job's line: bytes as hexadecimal digits, `-` for none, or text in double quotes. The heap is no part of
//! a line, and stands beside it where bytes are made.

ghost use Rattle.std.specs.Prelude.{◌<◌, ◌≡◌, IfSome, Some, vec_items};
ghost use Rattle.calls.specs.BadLines.{bad_words};
ghost use Rattle.calls.specs.declared.word.Failure.TheVariants.{Bad, Memory};
ghost use Rattle.calls.specs.Words.{NextDigit, NextQuoted, Told, digit, hex, unescaped, unquote, word};
ghost use Rattle.calls.specs.Options.{same_option};

use std::alloc::{AllocError, AllocFailed, Global};
use std::fmt::{self, Display, Formatter};

/// Why a line is no call.
#[derive(Clone, Copy)]
pub enum BadLine {
    /// It begins with no call that is known.
    NoCall,
    MissingWord,
    /// A word is neither hexadecimal digits, `-`, nor text in double quotes.
    NotHex,
    /// A word has an odd number of hexadecimal digits.
    OddDigits,
    /// A backslash stands before a byte that it cannot stand before.
    BadEscape,
    /// A text has no closing quote.
    OpenQuote,
    /// Something else than one space stands behind a word.
    NoSpace,
    MoreWords,
    /// A number is not written in decimal digits.
    NotDecimal,
    /// A number does not fit 64 bits.
    TooLarge,
    /// No formatter has that name.
    NoFormatter,
}

impl BadLine {
    /// Why the line is no call.
    fn words(self) -> &'static str
        ensures { result.now ≡ bad_words self }
    {
        match self {
            BadLine::NoCall => "it begins with no call that is known",
            BadLine::MissingWord => "a word is missing",
            BadLine::NotHex => "a word is neither hexadecimal digits, -, nor text in double quotes",
            BadLine::OddDigits => "a word has an odd number of hexadecimal digits",
            BadLine::BadEscape => "a backslash stands before a byte that it cannot stand before",
            BadLine::OpenQuote => "a text has no closing quote",
            BadLine::NoSpace => "words are separated by one space",
            BadLine::MoreWords => "there are more words than the call takes",
            BadLine::NotDecimal => "a number is not written in decimal digits",
            BadLine::TooLarge => "a number is above 18446744073709551615",
            BadLine::NoFormatter => "no formatter of that name is known",
        }
    }
}

/// Why a line is no call, in words. It cannot fail, as a `Display` can where its writer does.
pub fn words_of_bad(bad: BadLine) -> &'static [u8]
    ensures { result.now ≡ bad_words bad }
{
    bad.words().as_bytes()
}

impl Display for BadLine {
    ghost output = { λ bad. Some (bad_words bad) };

    fn fmt<W: fmt::Write>(&self, f: &mut Formatter<W>) -> fmt::Result {
        f.write_str(self.words())
    }
}

/// Why a line could not be read.
#[derive(Drop)]
pub enum Failure {
    Memory,
    Bad(BadLine),
}

impl From<AllocError> for Failure {
    ghost from_gives = { λ _ r. r ≡ Memory };

    fn from(_e: AllocError) -> Failure {
        Failure::Memory
    }
}

impl<T: Drop> From<AllocFailed<T>> for Failure {
    ghost from_gives = { λ _ r. r ≡ Memory };

    fn from(_e: AllocFailed<T>) -> Failure {
        Failure::Memory
    }
}

impl From<BadLine> for Failure {
    ghost from_gives = { λ bad r. r ≡ Bad bad };

    fn from(bad: BadLine) -> Failure {
        Failure::Bad(bad)
    }
}

/// The number of a hexadecimal digit.
fn digit_of(byte: u8) -> Option<u8>
    ensures number { same_option result ≡ digit byte }
    ensures small { IfSome result (λ number. number < 16) }
{
    match byte {
        b'0'..=b'9' => Some(byte - b'0'),
        b'a'..=b'f' => Some(byte - b'a' + 10),
        b'A'..=b'F' => Some(byte - b'A' + 10),
        _ => None,
    }
}

/// What stands for the byte behind a backslash.
fn unescape(byte: u8) -> Option<u8>
    ensures { same_option result ≡ unescaped byte }
{
    match byte {
        b'"' => Some(b'"'),
        b'\\' => Some(b'\\'),
        b'n' => Some(b'\n'),
        b't' => Some(b'\t'),
        _ => None,
    }
}

/// The next digit of a word, and what is behind it; none at a space or the end of the line.
#[tactic(auto, using(crate::proofs::Wording::digits))]
fn next_digit(line: &[u8]) -> Result<Option<(u8, &[u8])>, BadLine>
    ensures { NextDigit line.now result }
{
    match line {
        [] => Ok(None),
        [b' ', ..] => Ok(None),
        [byte, rest @ ..] => {
            let digit = digit_of(*byte).ok_or(BadLine::NotHex)?;
            Ok(Some((digit, rest)))
        }
    }
}

/// The next byte of a text in double quotes, none at its closing quote; and what is behind it.
#[tactic(auto, using(crate::proofs::Wording::texts))]
fn next_quoted(line: &[u8]) -> Result<(Option<u8>, &[u8]), BadLine>
    ensures { NextQuoted line.now result }
{
    let [byte, rest @ ..] = line else {
        return Err(BadLine::OpenQuote);
    };
    match *byte {
        b'"' => Ok((None, rest)),
        b'\\' => {
            let [escaped, behind @ ..] = rest else {
                return Err(BadLine::OpenQuote);
            };
            let byte = unescape(*escaped).ok_or(BadLine::BadEscape)?;
            Ok((Some(byte), behind))
        }
        byte => Ok((Some(byte), rest)),
    }
}

/// Hexadecimal digits, two for each byte, up to a space or the end of the line.
fn read_hex(heap: Global, line: &[u8]) -> Result<(Vec<u8>, &[u8]), Failure>
    ensures { Told vec_items line.now hex result }
{
    let mut bytes = Vec::new(heap);
    let mut rest = line;
    while let Some((high, behind)) = next_digit(rest)? {
        let (low, after) = next_digit(behind)?.ok_or(BadLine::OddDigits)?;
        bytes.push(high * 16 + low)?;
        rest = after;
    }
    Ok((bytes, rest))
}

/// Text up to its closing quote, from behind the opening one on.
fn read_quoted(heap: Global, line: &[u8]) -> Result<(Vec<u8>, &[u8]), Failure>
    ensures { Told vec_items line.now unquote result }
{
    let mut bytes = Vec::new(heap);
    let mut rest = line;
    loop {
        let (byte, behind) = next_quoted(rest)?;
        let Some(byte) = byte else {
            return Ok((bytes, behind));
        };
        bytes.push(byte)?;
        rest = behind;
    }
}

/// The word at the front of a line, and what is behind it.
#[tactic(auto, using(crate::proofs::Wording::words))]
pub(crate) fn read_word(heap: Global, line: &[u8]) -> Result<(Vec<u8>, &[u8]), Failure>
    ensures { Told vec_items line.now word result }
{
    match line {
        [] => Err(BadLine::MissingWord.into()),
        [b' ', ..] => Err(BadLine::MissingWord.into()),
        [b'-', rest @ ..] => Ok((Vec::new(heap), rest)),
        [b'"', rest @ ..] => read_quoted(heap, rest),
        _ => read_hex(heap, line),
    }
}
