// Ranges of numbers, their width, and what becomes of a number that is put into one.
ghost use Rattle.std.specs.Prelude.{◌≡◌, ◌<◌, ◌≤◌, ◌≤ℤ◌, ◌-ℤ◌, ◌↔◌, IsTrue, IsSome, IfSome, IfOk, ◌^◌};
ghost use Rattle.mh_codes.specs.Ranges.{size_of, wrap_of};
ghost use Rattle.mh_codes.specs.Integers.{floor_mod};
ghost use Rattle.mh_codes.specs.Widths.{bit_length, magnitude_of, width_of, IsWidth};
ghost use Rattle.mh_num.specs.Fit.{fit_of};

use thiserror::Error;

/// The range of a variable: its values are `lo` to `top`, both included. With `wraps` a number
/// outside is taken to the one of the range that differs by a multiple of the range's size
/// (`modbv`); without, it is an error (`intbv`).
#[derive(Clone, Copy, Debug, PartialEq, Eq)]
pub struct Bounds {
    pub lo: i128,
    pub top: i128,
    pub wraps: bool,
    pub ghost ordered: { lo ≤ℤ top },
    pub ghost in_127_bits: { width_of lo top ≤ 127 },
}

const LEAST_OF_127_BITS: i128 = i128::MIN / 2;

const GREATEST_OF_127_BITS: i128 = i128::MAX / 2;

impl Bounds {
    /// The range `lo` to `top`, or `None` where it is empty or needs more than 127 bits.
    pub fn new(lo: i128, top: i128, wraps: bool) -> Option<Bounds>
        ensures some { IsSome result ↔ ((lo ≤ℤ top) × (width_of lo top ≤ 127)) }
        ensures fields { IfSome result (λ b. (b.lo ≡ lo) × (b.top ≡ top) × (b.wraps ≡ wraps)) }
    {
        if lo <= top && is_in_127_bits(lo, top) {
            Some(Bounds { lo, top, wraps })
        } else {
            None
        }
    }

    /// How many numbers the range has.
    fn size(&self) -> u128
        ensures size { result ≡ size_of self.now.lo self.now.top }
        ensures at_most { result ≤ 2 ^ 127 }
    {
        self.top.abs_diff(self.lo) + 1
    }

    /// The number of the range that differs from `v` by a multiple of the range's size.
    fn wrap(&self, v: i128) -> i128
        ensures { result ≡ wrap_of self.now.lo self.now.top v }
    {
        self.lo + offset(v, self.lo, self.size()) as i128
    }
}

/// The range `lo` to `top` needs at most 127 bits.
fn is_in_127_bits(lo: i128, top: i128) -> bool
    requires { lo ≤ℤ top }
    ensures { IsTrue result ↔ (width_of lo top ≤ 127) }
{
    lo >= 0 || LEAST_OF_127_BITS <= lo && top <= GREATEST_OF_127_BITS
}

/// A number that is outside the bounds that it was put into.
#[derive(Clone, Copy, Debug, PartialEq, Eq, Error)]
#[error("{value} is outside {low} to {high}")]
pub struct OutOfBounds {
    pub value: i128,
    pub low: i128,
    pub high: i128,
}

/// The number of bits of `v`, or of `-1 - v` where `v` is negative, without leading zeros.
fn magnitude_bits(v: i128) -> u8
    ensures { result ≡ bit_length (magnitude_of v) }
{
    let magnitude = if v < 0 { !v } else { v };
    (128 - magnitude.leading_zeros()) as u8
}

/// The least number of bits, at least 1, that holds both ends of the range: as an unsigned number
/// where `lo` is 0 or more, and else in two's complement.
pub fn width(b: &Bounds) -> u8
    ensures exact { result ≡ width_of b.now.lo b.now.top }
    ensures least { IsWidth b.now.lo b.now.top result }
    ensures at_most { result ≤ 127 }
{
    if b.lo >= 0 {
        magnitude_bits(b.top).max(1)
    } else {
        1 + magnitude_bits(b.lo).max(magnitude_bits(b.top))
    }
}

/// How far `v` is above `lo`, up to a multiple of `size`.
fn offset(v: i128, lo: i128, size: u128) -> u128
    requires { 0 < size }
    ensures value { result ≡ floor_mod (v -ℤ lo) size }
    ensures below { result < size }
{
    let apart = v.abs_diff(lo);
    if v < lo {
        size - 1 - (apart - 1) % size
    } else {
        apart % size
    }
}

/// `v` where it is in the range; outside, the number of the range that differs from `v` by a
/// multiple of the range's size where the bounds wrap, and else `OutOfBounds`.
pub fn fit(v: i128, b: &Bounds) -> Result<i128, OutOfBounds>
    ensures exact { result ≡ fit_of b.now.lo b.now.top b.now.wraps v }
    ensures inside { IfOk result (λ z. (b.now.lo ≤ℤ z) × (z ≤ℤ b.now.top)) }
{
    if b.lo <= v && v <= b.top {
        Ok(v)
    } else if b.wraps {
        Ok(b.wrap(v))
    } else {
        Err(OutOfBounds {
            value: v,
            low: b.lo,
            high: b.top,
        })
    }
}
