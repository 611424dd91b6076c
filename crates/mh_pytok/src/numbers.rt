ghost use Rattle.std.specs.Prelude.{◌≡◌, ◌+◌, ◌<◌, ◌≤◌, ◌^◌, ◌*◌, ◌==◌, ◌&&◌, SomeIff, false, pos, IsSome};
ghost use Rattle.mh_pytok.specs.Numbers as spec;
ghost use Rattle.mh_pytok.specs.Limited.{limited};

use crate::scan::{behind, byte_at};

/// One more than the greatest number of a source.
const LIMIT: u128 = 1 << 127;

/// The value of a digit, of any base up to 36; 36 for a byte that is no digit.
#[tactic(auto, unfolding(crate::specs::Numbers::digit_value))]
fn digit_value(b: u8) -> u8
    ensures { result ≡ spec.digit_value b }
{
    if 48 <= b && b <= 57 {
        b - 48
    } else if 65 <= b && b <= 90 {
        b - 55
    } else if 97 <= b && b <= 122 {
        b - 87
    } else {
        36
    }
}

/// A `_` that may stand here, directly behind a digit.
fn is_gap(last: bool, b: u8) -> bool
    ensures { result ≡ (last && b == 95) }
{
    last && b == b'_'
}

/// The number with one digit more; `None` where it exceeds the type.
fn with_digit(n: u128, base: u8, digit: u8) -> Option<u128>
    ensures { SomeIff result (base * n + digit < 2 ^ 128) (base * n + digit) }
{
    (base as u128).checked_mul(n)?.checked_add(digit as u128)
}

/// The number that digits of the base stand for, with single `_` between two; `None` where they are malformed
/// or stand for more than the limit.
fn digits_value(base: u8, text: &[u8]) -> Option<u128>
    requires { 0 < base }
    ensures { result ≡ limited (spec.digits_value base 0 false text.now) }
{
    let mut n = 0u128;
    let mut last = false;
    for b in text {
        if is_gap(last, *b) {
            last = false;
            continue;
        }
        let digit = digit_value(*b);
        if base <= digit {
            return None;
        }
        n = with_digit(n, base, digit)?;
        last = true;
    }
    if last && n < LIMIT { Some(n) } else { None }
}

/// The base that a letter behind a leading 0 stands for; 10 for any other byte.
#[tactic(auto, unfolding(crate::specs::Numbers::base_of))]
fn base_of(c: u8) -> u8
    ensures base { result ≡ spec.base_of c }
    ensures some { 0 < result }
{
    match c {
        b'x' | b'X' => 16,
        b'o' | b'O' => 8,
        b'b' | b'B' => 2,
        _ => 10,
    }
}

/// The base of a number's text.
#[tactic(auto, unfolding(crate::specs::Numbers::number_base))]
fn number_base(text: &[u8]) -> u8
    ensures base { result ≡ spec.number_base text.now }
    ensures some { 0 < result }
{
    if byte_at(text, 0) == b'0' {
        base_of(byte_at(text, 1))
    } else {
        10
    }
}

/// The value of digits without a base.
#[tactic(auto, unfolding(crate::specs::Numbers::decimal_value))]
fn decimal_value(text: &[u8]) -> Option<u128>
    ensures { result ≡ limited (spec.decimal_value text.now) }
{
    let n = digits_value(10, text)?;
    if byte_at(text, 0) == b'0' && n != 0 {
        None
    } else {
        Some(n)
    }
}

/// The value of a number's text; `None` where the text is no number, or exceeds the greatest of a source.
#[tactic(auto, unfolding(crate::specs::Numbers::number_of))]
pub(crate) fn number_of(text: &[u8]) -> Option<u128>
    ensures { result ≡ limited (spec.number_of text.now) }
{
    let base = number_base(text);
    if base == 10 {
        decimal_value(text)
    } else {
        digits_value(base, behind(text, 2))
    }
}

/// The value of a number's text.
pub fn number(text: &[u8]) -> i128
    requires number { spec.IsNumber text.now }
    requires at_most { spec.number_value text.now < 2 ^ 127 }
    ensures { result ≡ pos (spec.number_value text.now) }
{
    match number_of(text) {
        Some(n) => n as i128,
        None => unreachable!(),
    }
}
