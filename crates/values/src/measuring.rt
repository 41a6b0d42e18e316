//! The measure: goes through a packed value from left to right, and adds up what it costs, or answers
//! the first fault that it meets. What is measured in place answers its cost and the position after it. Positions
//! stand beside the bytes, as in the reader: a fault keeps that of its value, or of the map whose key it lies in.

ghost use Rattle.std.specs.Prelude.{◌≡◌, ◌-◌, ◌<◌, ◌≤◌, true, false, length, drop, Err};
ghost use Rattle.meaning.specs.Charge.{cost, cost_entries, cost_items};
ghost use Rattle.packing.specs.Commands.{list_byte, map_byte};
ghost use Rattle.packing.specs.Limits.{no_key};
ghost use Rattle.packing.specs.Unpacking.{entries, items, nothing_below, unpack_value, value_within};
ghost use Rattle.reader.specs.Refusals.{offset_of};
ghost use Rattle.reader.specs.Verdicts.{heard};
ghost use Rattle.values.specs.Costs.{charge_of};
ghost use Rattle.values.specs.Measures.{PartsMove, ValueMoves, answered, judged, plain_within, priced, rest_within, weigh};

use crate::cost::Cost;
use crate::key::read_key;
use meaning::fault::Fault;
use reader::field::{read_byte, read_text, read_u16};
use reader::literal::plain_value;
use reader::refusal::Refusal;

/// The most levels of a value.
const LEVELS: usize = 16;

/// The value at `pos`, which has no parts.
fn measure_plain(bytes: &[u8], pos: usize, levels: usize) -> Result<(Cost, usize), Refusal>
    requires { pos ≤ length bytes.now }
    ensures same { heard charge_of bytes.now result ≡ weigh cost (plain_within levels (drop pos bytes.now)) }
    ensures moves { ValueMoves bytes.now pos result }
{
    let (value, next) = plain_value(bytes, pos).ok_or(Refusal::Malformed(pos))?;
    if levels == 0 {
        return Err(Refusal::TooDeep(pos));
    }
    Ok((Cost::of_plain(value), next))
}

/// Why a map is refused for which no level is left: its first key is read before its nesting is tested.
fn refuse_map(bytes: &[u8], start: usize, pos: usize, count: u16) -> Refusal
    requires { start ≤ length bytes.now }
    ensures same { heard charge_of bytes.now (Err result) ≡ weigh cost_entries (entries (length bytes.now - start) false nothing_below count no_key (drop pos bytes.now)) }
    ensures moves { offset_of result ≤ length bytes.now }
{
    if count == 0 {
        return Refusal::TooDeep(start);
    }
    match read_text(bytes, pos) {
        Some(_) => Refusal::TooDeep(start),
        None => Refusal::Malformed(start),
    }
}

/// The value at `pos`, which may have so many levels.
#[cycle(parts)]
pub fn measure_value(bytes: &[u8], pos: usize, levels: usize) -> Result<(Cost, usize), Refusal>
    requires { pos ≤ length bytes.now }
    ensures same { heard charge_of bytes.now result ≡ weigh cost (value_within levels (drop pos bytes.now)) }
    ensures moves { ValueMoves bytes.now pos result }
{
    let (byte, next) = read_byte(bytes, pos).ok_or(Refusal::Malformed(pos))?;
    match byte {
        0x26 => measure_list(bytes, pos, next, levels),
        0x27 => measure_map(bytes, pos, next, levels),
        _ => measure_plain(bytes, pos, levels),
    }
}

/// The list at `start`, whose count stands at `pos`.
#[cycle(parts)]
fn measure_list(
    bytes: &[u8],
    start: usize,
    pos: usize,
    levels: usize,
) -> Result<(Cost, usize), Refusal>
    requires { (start < pos) × (pos ≤ length bytes.now) }
    ensures same { heard charge_of bytes.now result ≡ weigh cost (rest_within levels (length bytes.now - start) list_byte (drop pos bytes.now)) }
    ensures moves { ValueMoves bytes.now start result }
{
    let (count, next) = read_u16(bytes, pos).ok_or(Refusal::Malformed(start))?;
    let below = levels.checked_sub(1).ok_or(Refusal::TooDeep(start))?;
    let (mut cost, end) = measure_items(bytes, next, below, count)?;
    cost.values += 1;
    Ok((cost, end))
}

/// So many items of a list.
#[cycle(parts)]
fn measure_items(
    bytes: &[u8],
    pos: usize,
    levels: usize,
    count: u16,
) -> Result<(Cost, usize), Refusal>
    requires { pos ≤ length bytes.now }
    ensures same { heard charge_of bytes.now result ≡ weigh cost_items (items (value_within levels) count (drop pos bytes.now)) }
    ensures moves { PartsMove bytes.now pos result }
{
    let mut cost = Cost::NOTHING;
    let mut next = pos;
    for _item in 0..count {
        let (part, end) = measure_value(bytes, next, levels)?;
        cost = cost.with_part(part, 0);
        next = end;
    }
    Ok((cost, next))
}

/// The map at `start`, whose count stands at `pos`. Lists and maps are measured apart, since their parts are read and
/// refused otherwise.
#[cycle(parts)]
fn measure_map(
    bytes: &[u8],
    start: usize,
    pos: usize,
    levels: usize,
) -> Result<(Cost, usize), Refusal>
    requires { (start < pos) × (pos ≤ length bytes.now) }
    ensures same { heard charge_of bytes.now result ≡ weigh cost (rest_within levels (length bytes.now - start) map_byte (drop pos bytes.now)) }
    ensures moves { ValueMoves bytes.now start result }
{
    let (count, next) = read_u16(bytes, pos).ok_or(Refusal::Malformed(start))?;
    let Some(below) = levels.checked_sub(1) else {
        return Err(refuse_map(bytes, start, next, count));
    };
    let (mut cost, end) = measure_entries(bytes, start, next, below, count)?;
    cost.values += 1;
    Ok((cost, end))
}

/// So many entries of the map at `start`. A fault in a key is the map's.
#[cycle(parts)]
fn measure_entries(
    bytes: &[u8],
    start: usize,
    pos: usize,
    levels: usize,
    count: u16,
) -> Result<(Cost, usize), Refusal>
    requires { (start ≤ length bytes.now) × (pos ≤ length bytes.now) }
    ensures same { heard charge_of bytes.now result ≡ weigh cost_entries (entries (length bytes.now - start) true (value_within levels) count no_key (drop pos bytes.now)) }
    ensures moves { PartsMove bytes.now pos result }
{
    let mut cost = Cost::NOTHING;
    let mut next = pos;
    let mut before = None;
    for _entry in 0..count {
        let (key, value) = read_key(bytes, next, before).ok_or(Refusal::Malformed(start))?;
        let (part, end) = measure_value(bytes, value, levels)?;
        cost = cost.with_part(part, key.len());
        next = end;
        before = Some(key);
    }
    Ok((cost, next))
}

/// What the packed value costs, or why its bytes are refused.
fn measure_whole(bytes: &[u8]) -> Result<Cost, Refusal>
    ensures { judged result ≡ priced (unpack_value bytes.now) }
{
    let (cost, end) = measure_value(bytes, 0, LEVELS)?;
    if end == bytes.len() {
        Ok(cost)
    } else {
        Err(Refusal::Malformed(end))
    }
}

/// What the packed value costs, or the first fault in its bytes.
pub fn measure(bytes: &[u8]) -> Result<Cost, Fault>
    ensures { answered result ≡ priced (unpack_value bytes.now) }
{
    Ok(measure_whole(bytes)?)
}
