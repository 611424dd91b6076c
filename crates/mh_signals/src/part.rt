// Parts of numbers.
ghost use Rattle.std.specs.Prelude.{◌≡◌, ◌≤◌, ◌<◌, ◌≤ℤ◌, ◌-◌, ◌^◌, pos};
ghost use Rattle.mh_design.specs.Assignments as spec;
ghost use Rattle.mh_signals.specs.Seen.{limits_seen};

use crate::limits::Limits;
use mh_num::{OutOfBounds, slice};

/// `2 ** exponent`.
fn power(exponent: u8) -> i128
    requires { exponent ≤ 126 }
    ensures { result ≡ pos (2 ^ exponent) }
{
    1 << exponent
}

/// The number `z` with its bits `i - 1` down to `j` replaced by those of `v`.
fn replaced(i: u8, j: u8, z: i128, v: i128) -> i128
    requires some { j < i }
    requires places { i ≤ 127 }
    requires least { pos 0 ≤ℤ v }
    requires greatest { v ≤ℤ pos (2 ^ (i - j) - 1) }
    ensures { result ≡ spec.replaced i j z v }
{
    let step = power(j);
    let before = slice(z, i, j) * step;
    let part = v * step;
    z - before + part
}

/// What becomes of `z` with these limits where its bits `i - 1` down to `j` are given `v`.
pub fn part_taken(limits: &Limits, i: u8, j: u8, z: i128, v: i128) -> Result<i128, OutOfBounds>
    requires some { j < i }
    requires places { i ≤ 127 }
    ensures { result ≡ spec.part_taken (limits_seen limits.now) i j z v }
{
    let high = slice(-1, i, j);
    if 0 <= v && v <= high {
        limits.take(replaced(i, j, z, v))
    } else {
        Err(OutOfBounds {
            value: v,
            low: 0,
            high,
        })
    }
}
