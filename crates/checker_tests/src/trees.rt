//! Packed trees over the source `ab`.

use checker::template::Template;
use meaning::fault::Cause;
use std::alloc::{AllocError, Global};
use std::iter::repeat_n;

/// The span of `a`.
const SPAN: [u8; 4] = [0, 0, 1, 0];

/// What the checker says of a source and a tree: nothing if they are taken, else the cause and the offset.
pub fn said<'x>(source: &'x [u8], tree: &'x [u8]) -> Option<(Cause, usize)> {
    let mut template = Template::empty();
    let fault = template.set(source, tree).err()?;
    Some((fault.cause, fault.detail))
}

fn put_span(tree: &mut Vec<u8>) -> Result<(), AllocError> {
    tree.extend_from_slice(&SPAN)
}

/// The variable `a`, by key.
fn put_variable(tree: &mut Vec<u8>) -> Result<(), AllocError> {
    tree.extend_from_slice(&[0x10, 1, 0, 1])?;
    put_span(tree)?;
    put_span(tree)
}

/// So many ifs, each in the one before.
pub fn nested_ifs(heap: Global, count: usize) -> Result<Vec<u8>, AllocError> {
    let mut tree = Vec::new(heap);
    for _ in 0..count {
        tree.extend_from_slice(&[0x05, 0])?;
        put_variable(&mut tree)?;
    }
    tree.extend(repeat_n(0x0A, count))?;
    tree.push(0x0A)?;
    Ok(tree)
}

/// A good tree of so many bytes, but for its length: raws of 5 bytes, and an include that fills it up.
pub fn of_length(heap: Global, length: usize) -> Result<Vec<u8>, AllocError> {
    let mut tree = Vec::new(heap);
    let raws = length.saturating_sub(12) / 5;
    for _ in 0..raws {
        tree.push(0x01)?;
        put_span(&mut tree)?;
    }
    let text = length.saturating_sub(tree.len()).saturating_sub(8) % 256;
    tree.push(0x03)?;
    put_span(&mut tree)?;
    tree.extend_from_slice(&[text as u8, 0])?;
    tree.extend(repeat_n(b'n', text))?;
    tree.push(0x0A)?;
    Ok(tree)
}

/// Every command once, and every value of a literal.
pub fn all_commands(heap: Global) -> Result<Vec<u8>, AllocError> {
    let mut tree = Vec::new(heap);
    put_simple_statements(&mut tree)?;
    put_blocks(&mut tree)?;
    put_literals(&mut tree)?;
    tree.push(0x0A)?;
    Ok(tree)
}

fn put_simple_statements(tree: &mut Vec<u8>) -> Result<(), AllocError> {
    tree.push(0x01)?;
    put_span(tree)?;
    tree.push(0x03)?;
    put_span(tree)?;
    tree.extend_from_slice(&[1, 0, b'n'])?;
    tree.push(0x04)?;
    put_span(tree)?;
    tree.extend_from_slice(&[0, 0])?;
    put_filter(tree)
}

/// A filter whose receiver is a call in parens, with a list as its argument.
fn put_filter(tree: &mut Vec<u8>) -> Result<(), AllocError> {
    tree.push(0x16)?;
    put_span(tree)?;
    put_span(tree)?;
    tree.push(1)?;
    tree.push(0x14)?;
    put_span(tree)?;
    tree.push(0x15)?;
    put_span(tree)?;
    put_span(tree)?;
    tree.push(0)?;
    tree.push(0x12)?;
    put_span(tree)?;
    tree.extend_from_slice(&[0])
}

/// An if, an if with else, both loops and a with, each over the variable or a map.
fn put_blocks(tree: &mut Vec<u8>) -> Result<(), AllocError> {
    tree.extend_from_slice(&[0x05, 0])?;
    put_variable(tree)?;
    tree.extend_from_slice(&[0x0A, 0x06, 1])?;
    put_variable(tree)?;
    tree.extend_from_slice(&[0x0A, 0x0A, 0x07])?;
    put_span(tree)?;
    put_variable(tree)?;
    tree.extend_from_slice(&[0x0A, 0x08])?;
    put_span(tree)?;
    put_span(tree)?;
    put_span(tree)?;
    put_map(tree)?;
    tree.extend_from_slice(&[0x0A, 0x09])?;
    put_span(tree)?;
    put_variable(tree)?;
    tree.extend_from_slice(&[0x0A])
}

/// A map of the one key `k`, under an optional member by index.
fn put_map(tree: &mut Vec<u8>) -> Result<(), AllocError> {
    tree.push(0x13)?;
    put_span(tree)?;
    tree.push(1)?;
    put_span(tree)?;
    tree.extend_from_slice(&[1, 0, b'k', 0x10, 1, 1, 0, 7, 0, 0, 0])?;
    put_span(tree)?;
    put_span(tree)
}

/// An inline expression of each value without parts.
fn put_literals(tree: &mut Vec<u8>) -> Result<(), AllocError> {
    for byte in 0x20..=0x25u8 {
        tree.extend_from_slice(&[0x02, 0x11])?;
        put_span(tree)?;
        tree.push(byte)?;
        match byte {
            0x23 | 0x24 => tree.extend_from_slice(&[0, 0, 0, 0, 0, 0, 0, 0x80])?,
            0x25 => tree.extend_from_slice(&[2, 0, 0xC3, 0xA9])?,
            _ => {}
        }
    }
    Ok(())
}
