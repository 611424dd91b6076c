// Indices and slices.
ghost use Rattle.std.specs.Prelude.{◌≡◌, ◌≤◌, ◌<◌, ◌≤ℤ◌, ◌-◌, ◌^◌, ◌+ℤ◌, pos, Ok, IfOk, unsigned_abs};
ghost use Rattle.mh_codes.specs.Integers.{bit_of, slice_of, floor_div};
ghost use Rattle.mh_codes.specs.Ranges as range;
ghost use Rattle.mh_design.specs.Values as spec;

use crate::fault::Fault;
use crate::form::Form;
use crate::operand::Operand;
use mh_num::{rem, shr, slice};

/// `z` lies in `low` to `high`.
fn is_inside(low: i128, high: i128, z: i128) -> bool
    ensures { result ≡ range.is_inside low high z }
{
    low <= z && z <= high
}

/// `z` as a place below `count`.
pub fn index_below(z: i128, count: usize) -> Result<usize, Fault>
    ensures exact { result ≡ spec.indexed z count (Ok (unsigned_abs z)) }
    ensures below { IfOk result (λ k. k < count) }
    ensures same { IfOk result (λ k. pos k ≡ z) }
{
    let high = count as i128 - 1;
    if is_inside(0, high, z) {
        Ok(z as usize)
    } else {
        Err(Fault::index(z, 0, high))
    }
}

/// The ends of a slice: the bits `upper - 1` down to `lower`.
#[derive(Clone, Copy)]
pub struct Ends {
    pub upper: u8,
    pub lower: u8,
}

/// The upper end of a slice of `width` bits.
fn upper_end(i: i128, lower: u8, width: u8) -> Result<u8, Fault>
    ensures exact { result ≡ spec.inside i (pos lower +ℤ pos 1) (pos width) (Ok (unsigned_abs i)) }
    ensures above { IfOk result (λ k. lower < k) }
    ensures narrow { IfOk result (λ k. k ≤ width) }
    ensures same { IfOk result (λ k. pos k ≡ i) }
{
    let low = lower as i128 + 1;
    let high = width as i128;
    if is_inside(low, high, i) {
        Ok(i as u8)
    } else {
        Err(Fault::index(i, low, high))
    }
}

/// The ends of a slice of `width` bits. The lower end is looked at first.
#[tactic(auto, using(crate::proofs::Ends::ends_laws))]
pub fn slice_ends(i: i128, j: i128, width: u8) -> Result<Ends, Fault>
    ensures exact { result ≡ spec.with_ends i j width (Ok (record { upper = unsigned_abs i; lower = unsigned_abs j })) }
    ensures order { IfOk result (λ e. (e.lower < e.upper) × (e.upper ≤ width)) }
    ensures same { IfOk result (λ e. (pos e.upper ≡ i) × (pos e.lower ≡ j)) }
{
    let lower = index_below(j, width as usize)? as u8;
    let upper = upper_end(i, lower, width)?;
    Ok(Ends { upper, lower })
}

/// `z >> j`
fn above(z: i128, j: u8) -> i128
    requires { j ≤ 127 }
    ensures { result ≡ floor_div z (2 ^ j) }
{
    match shr(z, j as i128) {
        Some(above) => above,
        None => 0,
    }
}

/// Bit `i` of `z`, 0 or 1.
fn bit_number(z: i128, i: u8) -> i128
    requires { i ≤ 127 }
    ensures { result ≡ pos (bit_of i z) }
{
    match shr(z, i as i128) {
        Some(above) => match rem(above, 2) {
            Some(bit) => bit,
            None => 0,
        },
        None => 0,
    }
}

/// The bits of `z` from `j` up to and without `i`. Only a number of 128 bits, which isn't negative, has
/// an upper end above 127.
#[tactic(auto, using(crate::proofs::Ends::slice_top))]
fn slice_number(z: i128, i: u8, j: u8) -> i128
    requires some { j < i }
    requires narrow { i ≤ 128 }
    requires wide { i ≡ 128 → pos 0 ≤ℤ z }
    ensures { result ≡ pos (slice_of i j z) }
{
    if i == 128 {
        above(z, j)
    } else {
        slice(z, i, j)
    }
}

/// `a[i]`
pub fn bit_at(a: &Operand, i: i128) -> Result<Operand, Fault>
    ensures { result ≡ spec.bit_at a.now i }
{
    let place = index_below(i, a.width() as usize)?;
    Ok(Operand::read(bit_number(a.value(), place as u8), Form::Truth))
}

/// `a[i:j]`
#[tactic(auto, using(crate::proofs::Ends::ends_laws))]
pub fn slice_at(a: &Operand, i: i128, j: i128) -> Result<Operand, Fault>
    ensures { result ≡ spec.slice_at a.now i j }
{
    match slice_ends(i, j, a.width()) {
        Ok(e) => Ok(Operand::bits(slice_number(a.value(), e.upper, e.lower), e.upper - e.lower)),
        Err(fault) => Err(fault),
    }
}
