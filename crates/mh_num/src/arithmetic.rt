// Sums, differences, products, quotients and shifts.
ghost use Rattle.std.specs.Prelude.{◌≡◌, ◌≤◌, ◌^◌, pos, ◌+ℤ◌, ◌-ℤ◌, ◌*ℤ◌};
ghost use Rattle.mh_num.specs.Results.{in_i128, amount_of, left_shift_of, right_shift_of, quotient_of, remainder_of};

/// `a + b`, or `None` where it leaves `i128`.
pub fn add(a: i128, b: i128) -> Option<i128>
    ensures { result ≡ in_i128 (a +ℤ b) }
{
    a.checked_add(b)
}

/// `a - b`, or `None` where it leaves `i128`.
pub fn sub(a: i128, b: i128) -> Option<i128>
    ensures { result ≡ in_i128 (a -ℤ b) }
{
    a.checked_sub(b)
}

/// `a * b`, or `None` where it leaves `i128`.
pub fn mul(a: i128, b: i128) -> Option<i128>
    ensures { result ≡ in_i128 (a *ℤ b) }
{
    a.checked_mul(b)
}

/// `2 ** exponent`.
pub(crate) fn power(exponent: u8) -> i128
    requires { exponent ≤ 126 }
    ensures { result ≡ pos (2 ^ exponent) }
{
    1 << exponent
}

/// `b` as the amount of a shift.
fn amount(b: i128) -> Option<u8>
    ensures { result ≡ amount_of b }
{
    if b < 0 || b > 127 {
        None
    } else {
        Some(b as u8)
    }
}

/// `a << b`, which is `a * 2 ** b`, or `None` where `b` is outside 0 to 127 or the result leaves
/// `i128`.
pub fn shl(a: i128, b: i128) -> Option<i128>
    ensures { result ≡ left_shift_of a b }
{
    // In two steps, since `2 ** 127` is no `i128`.
    let amount = amount(b)?;
    let first = amount / 2;
    let part = mul(a, power(first))?;
    mul(part, power(amount - first))
}

/// `a >> b`, which is `a // 2 ** b` and so rounds down, or `None` where `b` is outside 0 to 127.
pub fn shr(a: i128, b: i128) -> Option<i128>
    ensures { result ≡ right_shift_of a b }
{
    let amount = amount(b)?;
    Some(a >> amount)
}

/// `a // b` of MyHDL 0.11, which rounds down, or `None` where `b` is not positive (the project's own
/// rule: designs divide by positive numbers only).
pub fn quot(a: i128, b: i128) -> Option<i128>
    ensures { result ≡ quotient_of a b }
{
    if b > 0 { Some(a.div_euclid(b)) } else { None }
}

/// `a % b` of MyHDL 0.11, which lies in 0 to `b - 1`, or `None` where `b` is not positive.
pub fn rem(a: i128, b: i128) -> Option<i128>
    ensures { result ≡ remainder_of a b }
{
    if b > 0 { Some(a.rem_euclid(b)) } else { None }
}
