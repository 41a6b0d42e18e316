//! The lines of a job: what each asks for.

ghost use Rattle.std.specs.Prelude.{◌≡◌};
ghost use Rattle.calls.specs.Calls.{Asks, Called, CalledAtOnce, NamesFormatter, Skips, added, formatted, loaded, named, read_off, supplied, without_last};

use crate::number::read_number;
use crate::word::{BadLine, Failure, read_word};
use std::alloc::Global;

/// A formatter, by its word.
#[derive(Clone, Copy)]
pub enum FormatterName {
    Plain,
    Lat,
    Lon,
}

/// What a line asks for.
#[derive(Drop)]
pub enum Line {
    /// A template of a name, by its source and its packed tree.
    Add {
        name: Vec<u8>,
        source: Vec<u8>,
        tree: Vec<u8>,
    },
    /// A new, empty store of so many cells and bytes.
    Supply {
        cells: usize,
        bytes: usize,
    },
    /// A packed value, to be loaded.
    Load {
        packed: Vec<u8>,
    },
    /// A packed value, to be written as text.
    Format {
        formatter: FormatterName,
        packed: Vec<u8>,
    },
}

/// What is behind the one space at the front of a line.
#[tactic(auto, using(crate::proofs::Wording::spaces))]
fn skip_space(line: &[u8]) -> Result<&[u8], BadLine>
    ensures { Skips line.now result }
{
    match line {
        [] => Err(BadLine::MissingWord),
        [b' ', rest @ ..] => Ok(rest),
        _ => Err(BadLine::NoSpace),
    }
}

/// A template that is to be added: its name, source and tree, and nothing behind them.
#[tactic(auto, unfolding(crate::specs::Calls::added), using(crate::proofs::Wording::additions))]
fn read_add(heap: Global, words: &[u8]) -> Result<Line, Failure>
    ensures { Called (read_off (added words.now)) result }
{
    let (name, name_rest) = read_word(heap, words)?;
    let source_word = skip_space(name_rest)?;
    let (source, source_rest) = read_word(heap, source_word)?;
    let tree_word = skip_space(source_rest)?;
    let (tree, tree_rest) = read_word(heap, tree_word)?;
    match tree_rest {
        [] => Ok(Line::Add { name, source, tree }),
        _ => Err(BadLine::MoreWords.into()),
    }
}

/// How many cells and bytes are supplied, and nothing behind them.
#[tactic(auto, unfolding(crate::specs::Calls::supplied), using(crate::proofs::Wording::supplies))]
fn read_supply(words: &[u8]) -> Result<Line, BadLine>
    ensures { CalledAtOnce (read_off (supplied words.now)) result }
{
    let (cells, cells_rest) = read_number(words)?;
    let bytes_word = skip_space(cells_rest)?;
    let (bytes, bytes_rest) = read_number(bytes_word)?;
    match bytes_rest {
        [] => Ok(Line::Supply { cells, bytes }),
        _ => Err(BadLine::MoreWords),
    }
}

/// A packed value that is to be loaded, and nothing behind it.
#[tactic(auto, unfolding(crate::specs::Calls::loaded), using(crate::proofs::Wording::loads))]
fn read_load(heap: Global, words: &[u8]) -> Result<Line, Failure>
    ensures { Called (read_off (loaded words.now)) result }
{
    let (packed, rest) = read_word(heap, words)?;
    match rest {
        [] => Ok(Line::Load { packed }),
        _ => Err(BadLine::MoreWords.into()),
    }
}

/// The formatter that is named at the front, and what is behind its name.
#[tactic(auto, using(crate::proofs::Wording::formatters))]
fn read_formatter(words: &[u8]) -> Result<(FormatterName, &[u8]), BadLine>
    ensures { NamesFormatter words.now result }
{
    if let Some(rest) = words.strip_prefix(b"plain") {
        Ok((FormatterName::Plain, rest))
    } else if let Some(rest) = words.strip_prefix(b"lat") {
        Ok((FormatterName::Lat, rest))
    } else if let Some(rest) = words.strip_prefix(b"lon") {
        Ok((FormatterName::Lon, rest))
    } else {
        Err(BadLine::NoFormatter)
    }
}

/// A packed value that is to be written by a formatter, and nothing behind it.
#[tactic(auto, unfolding(crate::specs::Calls::formatted), using(crate::proofs::Wording::formats))]
fn read_format(heap: Global, words: &[u8]) -> Result<Line, Failure>
    ensures { Called (read_off (formatted words.now)) result }
{
    let (formatter, name_rest) = read_formatter(words)?;
    let value_word = skip_space(name_rest)?;
    let (packed, rest) = read_word(heap, value_word)?;
    match rest {
        [] => Ok(Line::Format { formatter, packed }),
        _ => Err(BadLine::MoreWords.into()),
    }
}

/// The call whose name the line begins with.
#[tactic(auto, using(crate::proofs::Wording::names))]
fn read_call(heap: Global, line: &[u8]) -> Result<Line, Failure>
    ensures { Called (named line.now) result }
{
    if let Some(words) = line.strip_prefix(b"add ") {
        read_add(heap, words)
    } else if let Some(words) = line.strip_prefix(b"supply ") {
        Ok(read_supply(words)?)
    } else if let Some(words) = line.strip_prefix(b"load ") {
        read_load(heap, words)
    } else if let Some(words) = line.strip_prefix(b"format ") {
        read_format(heap, words)
    } else {
        Err(BadLine::NoCall.into())
    }
}

/// What the line asks for, nothing if it is empty or a comment; or why it is no call.
#[tactic(auto, using(crate::proofs::Wording::lines))]
pub fn read_line(heap: Global, line: &[u8]) -> Result<Option<Line>, Failure>
    ensures { Asks line.now result }
{
    match line {
        [] => Ok(None),
        [b'#', ..] => Ok(None),
        _ => Ok(Some(read_call(heap, line)?)),
    }
}

/// The bytes without the last one, if it is the given one.
fn without_last(bytes: &[u8], last: u8) -> &[u8]
    ensures { result.now ≡ without_last bytes.now last }
{
    match bytes {
        [rest @ .., byte] if *byte == last => rest,
        _ => bytes,
    }
}

/// A line without what ends it: a line feed, perhaps with a carriage return before it.
pub fn content(line: &[u8]) -> &[u8]
    ensures { result.now ≡ without_last (without_last line.now 10) 13 }
{
    without_last(without_last(line, b'\n'), b'\r')
}
