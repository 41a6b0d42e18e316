//! The reasons for which the formatters and functions at hand refuse.

use hosts::answer::Refusal;

/// The name stands for no formatter.
pub const NO_FORMATTER: u16 = 0;

/// The name stands for no function.
pub const NO_FUNCTION: Refusal = Refusal {
    reason: 0,
    argument: None,
};

pub const WRONG_KIND: u16 = 1;

pub const OUT_OF_RANGE: u16 = 2;

pub const WRONG_COUNT: u16 = 3;

pub const NO_FLOATS: u16 = 4;
