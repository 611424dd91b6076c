// The codes of the items of enums.
ghost use Rattle.std.specs.Prelude.{◌≡◌, ◌<◌, ◌≤◌, ◌^◌, ◌&&◌, pos, length, int_le, int_lt};
ghost use Rattle.std.specs.Ordering.{int_eq};
ghost use Rattle.mh_design.specs.Enums as spec;

use crate::design::{Encoding, EnumDecl};

/// `2 ** exponent`.
fn power(exponent: usize) -> u128
    requires { exponent ≤ 127 }
    ensures { result ≡ 2 ^ exponent }
{
    1 << exponent
}

/// A code as a number.
fn number(code: u128) -> i128
    requires { code < 2 ^ 127 }
    ensures { result ≡ pos code }
{
    code as i128
}

/// The encoding is at most 127 bits wide.
pub fn enum_fits(x: &EnumDecl) -> bool
    ensures { result ≡ spec.is_narrow x.now.encoding (length x.now.names) }
{
    let count = x.names.len();
    match x.encoding {
        Encoding::Binary => true,
        Encoding::OneHot => count <= 127,
        Encoding::OneCold => count <= 127,
    }
}

/// The code of the item at a place among `count`, which is the value that stands for it.
pub fn item_code(encoding: Encoding, count: usize, place: usize) -> i128
    requires there { place < count }
    requires narrow { spec.encoding_width encoding count ≤ 127 }
    ensures { result ≡ pos (spec.item_code encoding count place) }
{
    match encoding {
        Encoding::Binary => place as i128,
        Encoding::OneHot => number(power(place)),
        Encoding::OneCold => {
            let all = power(count) - 1;
            let code = all - power(place);
            number(code)
        }
    }
}

/// `z` is one of the numbers below `n`.
fn is_below(z: i128, n: usize) -> bool
    ensures { result ≡ (int_le (pos 0) z && int_lt z (pos n)) }
{
    0 <= z && z < n as i128
}

/// `z` is the code of one of `count` items.
pub fn is_item_code(encoding: Encoding, count: usize, z: i128) -> bool
    requires { spec.encoding_width encoding count ≤ 127 }
    ensures { result ≡ spec.is_item_code encoding count z }
{
    match encoding {
        Encoding::Binary => is_below(z, count),
        Encoding::OneHot => is_listed_code(Encoding::OneHot, count, z),
        Encoding::OneCold => is_listed_code(Encoding::OneCold, count, z),
    }
}

/// Two numbers are equal.
fn is_same(a: i128, b: i128) -> bool
    ensures { result ≡ int_eq a b }
{
    a == b
}

/// `z` is the code of one of `count` items, which are few.
#[tactic(auto, using(crate::proofs::Below::below_laws))]
fn is_listed_code(encoding: Encoding, count: usize, z: i128) -> bool
    requires { spec.encoding_width encoding count ≤ 127 }
    ensures { result ≡ spec.is_item_code encoding count z }
{
    for place in 0..count {
        if is_same(z, item_code(encoding, count, place)) {
            return true;
        }
    }
    false
}
