//! Packed values of any size.

use std::alloc::{AllocError, Global};

/// The key of a number: four decimal digits, so that keys ascend as the numbers do.
pub fn key_of(number: u16) -> [u8; 4] {
    [
        b'0' + (number / 1000 % 10) as u8,
        b'0' + (number / 100 % 10) as u8,
        b'0' + (number / 10 % 10) as u8,
        b'0' + (number % 10) as u8,
    ]
}

fn push_integer(packed: &mut Vec<u8>, number: u16) -> Result<(), AllocError> {
    packed.push(0x23)?;
    packed.extend_from_slice(&i64::from(number).to_le_bytes())
}

/// The list of the integers below `count`.
pub fn packed_list(heap: Global, count: u16) -> Result<Vec<u8>, AllocError> {
    let mut packed = Vec::new(heap);
    packed.push(0x26)?;
    packed.extend_from_slice(&count.to_le_bytes())?;
    for number in 0..count {
        push_integer(&mut packed, number)?;
    }
    Ok(packed)
}

/// The map of the integers below `count`, each under its key.
pub fn packed_map(heap: Global, count: u16) -> Result<Vec<u8>, AllocError> {
    let mut packed = Vec::new(heap);
    packed.push(0x27)?;
    packed.extend_from_slice(&count.to_le_bytes())?;
    for number in 0..count {
        packed.extend_from_slice(&4u16.to_le_bytes())?;
        packed.extend_from_slice(&key_of(number))?;
        push_integer(&mut packed, number)?;
    }
    Ok(packed)
}
