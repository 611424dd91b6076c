//! Bounded numbers: the ranges that variables of a design have, and arithmetic on integers that
//! says where a result leaves `i128`. Each call answers exactly the integer that MyHDL and Python
//! compute, or nothing where there is none; no call takes memory.
#![tactic(auto)]

mod arithmetic;
mod bits;
mod bounds;

pub use arithmetic::{add, mul, quot, rem, shl, shr, sub};
pub use bits::{and, bit, not, or, signed_of, slice, xor};
pub use bounds::{Bounds, OutOfBounds, fit, width};

#[cfg(test)]
mod tests;
