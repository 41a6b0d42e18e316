//! Tests of the formatters and callables at hand. What is expected is worked out by hand from the definitions: a degree is
//! 600,000 ten-thousandths of a minute, and a minute 10,000.

#![tactic(auto)]

#[cfg(test)]
mod plain;
#[cfg(test)]
mod positions;
#[cfg(test)]
mod sizes;
