//! The numbers of a job's line, in decimal digits.

ghost use Rattle.std.specs.Prelude.{◌≡◌};
ghost use Rattle.calls.specs.Numbers.{Appended, Counts, NextDecimal, decimal_digit, digits, number as the_number};
ghost use Rattle.calls.specs.Options.{same_option};

use crate::word::BadLine;

/// The number of a decimal digit.
fn digit_of(byte: u8) -> Option<u8>
    ensures { same_option result ≡ decimal_digit byte }
{
    match byte {
        b'0'..=b'9' => Some(byte - b'0'),
        _ => None,
    }
}

/// The next digit of a number, and what is behind it; none at a space or the end of the line.
#[tactic(auto, using(crate::proofs::Numbers::decimals))]
fn next_decimal(line: &[u8]) -> Result<Option<(u8, &[u8])>, BadLine>
    ensures { NextDecimal line.now result }
{
    match line {
        [] => Ok(None),
        [b' ', ..] => Ok(None),
        [byte, rest @ ..] => {
            let digit = digit_of(*byte).ok_or(BadLine::NotDecimal)?;
            Ok(Some((digit, rest)))
        }
    }
}

/// A number with one digit more.
fn with_digit(number: usize, digit: u8) -> Result<usize, BadLine>
    ensures { Appended number digit result }
{
    let tens = number.checked_mul(10).ok_or(BadLine::TooLarge)?;
    tens.checked_add(digit as usize).ok_or(BadLine::TooLarge)
}

/// Decimal digits, up to a space or the end of the line.
fn read_digits(line: &[u8]) -> Result<(usize, &[u8]), BadLine>
    ensures { Counts line.now (digits 0) result }
{
    let mut number = 0;
    let mut rest = line;
    while let Some((digit, behind)) = next_decimal(rest)? {
        number = with_digit(number, digit)?;
        rest = behind;
    }
    Ok((number, rest))
}

/// The number at the front of a line, and what is behind it.
#[tactic(auto, using(crate::proofs::Numbers::numbers))]
pub(crate) fn read_number(line: &[u8]) -> Result<(usize, &[u8]), BadLine>
    ensures { Counts line.now the_number result }
{
    match line {
        [] => Err(BadLine::MissingWord),
        [b' ', ..] => Err(BadLine::MissingWord),
        _ => read_digits(line),
    }
}
