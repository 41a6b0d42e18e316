//! The name of a template, held by value.

ghost use Rattle.std.specs.Prelude.{◌≤◌};

pub mod making;

/// One to 32 bytes; what stands behind them in the array is no part of the name. The array is of fixed size, since
/// names are copied and nothing here has a heap.
#[derive(Clone, Copy)]
pub struct Name {
    bytes: [u8; 32],
    len: usize,
    ghost some: { 1 ≤ len },
    ghost short: { len ≤ 32 },
}
