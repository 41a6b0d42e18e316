//! The renderer: what it asks of those outside, and what stays the same throughout a rendering.

pub mod calling;
pub mod emitting;
pub mod executing;
pub mod rendering;
pub mod stepping;

/// Whom a rendering asks, and how many templates may be open.
#[derive(Clone, Copy)]
pub struct RendererImpl<'r, S, C, F> {
    pub source: &'r S,
    pub callables: &'r C,
    pub default_formatter: &'r F,
    pub max_include_depth: usize,
}
