//! Words of up to 128 bits.
ghost use Rattle.std.specs.Prelude.{◌≡◌, ℕ, ◌+◌, ◌-◌, ◌*◌, ◌/◌, ◌%◌, ◌^◌, ◌<◌, ◌≤◌, ◌+ℤ◌, ◌-ℤ◌, ◌*ℤ◌, neg_ℤ, pos, Bool, int_div, int_rem, int_lt, unsigned_abs, nat_lt, if◌then◌else◌};
ghost use Rattle.std.specs.Int.{bit_at, from_bool, is_negative};
ghost use Rattle.mh_codes.specs.Codes.{code, number};
ghost use Rattle.mh_bits.specs.Vector.{word};

/// The low bits of a word, all 1.
pub fn mask(width: u8) -> u128
    requires { width ≤ 128 }
    ensures { result ≡ 2 ^ width - 1 }
{
    if width == 128 {
        u128::MAX
    } else {
        (1 << width) - 1
    }
}

/// The low bits of a word.
pub fn low_bits(n: u128, width: u8) -> u128
    requires { width ≤ 128 }
    ensures value { result ≡ n % 2 ^ width }
    ensures within { result < 2 ^ width }
{
    n & mask(width)
}

/// Whether a word of `width` bits stands for a negative number: its top bit, where it is `signed`.
pub fn is_below_zero(n: u128, width: u8, signed: bool) -> bool
    requires some { 1 ≤ width }
    requires most { width ≤ 128 }
    requires within { n < 2 ^ width }
    ensures number { result ≡ is_negative (number signed width n) }
    ensures top { from_bool result ≡ (if signed then bit_at n (width - 1) else 0) }
{
    signed && n > mask(width - 1)
}

// ---- arithmetic

/// The number's magnitude.
pub fn magnitude(n: u128, width: u8, signed: bool) -> u128
    requires some { 1 ≤ width }
    requires most { width ≤ 128 }
    requires within { n < 2 ^ width }
    ensures { result ≡ unsigned_abs (number signed width n) }
{
    if is_below_zero(n, width, signed) {
        mask(width) - n + 1
    } else {
        n
    }
}

/// The word for a magnitude or for its negation.
pub fn with_sign(n: u128, negative: bool, width: u8) -> u128
    requires { width ≤ 128 }
    ensures { result ≡ code width (if negative then neg_ℤ (pos n) else pos n) }
{
    if negative {
        low_bits(0u128.wrapping_sub(n), width)
    } else {
        low_bits(n, width)
    }
}

/// The word of a sum, however the two words are read.
pub fn sum(m: u128, n: u128, width: u8) -> u128
    requires most { width ≤ 128 }
    requires left { m < 2 ^ width }
    requires right { n < 2 ^ width }
    ensures value { (s : Bool) → result ≡ code width (number s width m +ℤ number s width n) }
    ensures within { result < 2 ^ width }
{
    low_bits(m.wrapping_add(n), width)
}

/// The word of a difference, however the two words are read.
pub fn difference(m: u128, n: u128, width: u8) -> u128
    requires most { width ≤ 128 }
    requires left { m < 2 ^ width }
    requires right { n < 2 ^ width }
    ensures value { (s : Bool) → result ≡ code width (number s width m -ℤ number s width n) }
    ensures within { result < 2 ^ width }
{
    low_bits(m.wrapping_sub(n), width)
}

/// The word of a product, however the two words are read.
pub fn product(m: u128, n: u128, width: u8) -> u128
    requires most { width ≤ 128 }
    requires left { m < 2 ^ width }
    requires right { n < 2 ^ width }
    ensures value { (s : Bool) → result ≡ code width (number s width m *ℤ number s width n) }
    ensures within { result < 2 ^ width }
{
    low_bits(m.wrapping_mul(n), width)
}

/// The word of a quotient that drops its fraction towards 0.
pub fn quotient(m: u128, n: u128, width: u8, signed: bool) -> u128
    requires some { 1 ≤ width }
    requires most { width ≤ 128 }
    requires left { m < 2 ^ width }
    requires right { n < 2 ^ width }
    requires divisor { 0 < n }
    ensures { result ≡ code width (int_div (number signed width m) (number signed width n)) }
{
    let whole = magnitude(m, width, signed) / magnitude(n, width, signed);
    let negative = is_below_zero(m, width, signed) != is_below_zero(n, width, signed);
    with_sign(whole, negative, width)
}

/// The word of the remainder that such a quotient leaves.
pub fn remainder(m: u128, n: u128, width: u8, signed: bool) -> u128
    requires some { 1 ≤ width }
    requires most { width ≤ 128 }
    requires left { m < 2 ^ width }
    requires right { n < 2 ^ width }
    requires divisor { 0 < n }
    ensures { result ≡ code width (int_rem (number signed width m) (number signed width n)) }
{
    let rest = magnitude(m, width, signed) % magnitude(n, width, signed);
    with_sign(rest, is_below_zero(m, width, signed), width)
}

/// Whether the first number is below the second.
pub fn is_less(m: u128, n: u128, width: u8, signed: bool) -> bool
    requires some { 1 ≤ width }
    requires most { width ≤ 128 }
    requires left { m < 2 ^ width }
    requires right { n < 2 ^ width }
    ensures { result ≡ int_lt (number signed width m) (number signed width n) }
{
    let below = is_below_zero(m, width, signed);
    if below == is_below_zero(n, width, signed) {
        m < n
    } else {
        below
    }
}

// ---- moving bits

/// The word's bits in a wider word, with the bit `fill` above them.
pub fn extended(n: u128, width: u8, to: u8, fill: bool) -> u128
    requires upto { width ≤ to }
    requires most { to ≤ 128 }
    requires within { n < 2 ^ width }
    ensures { result ≡ word (λ k. if nat_lt k width then bit_at n k else from_bool fill) to }
{
    if fill {
        n + (mask(to) - mask(width))
    } else {
        n
    }
}

/// The bits moved up by any amount, with 0 in the vacated places.
pub fn shifted_left(n: u128, amount: u128, width: u8) -> u128
    requires { width ≤ 128 }
    ensures { result ≡ word (λ k. if nat_lt k amount then 0 else bit_at n (k - amount)) width }
{
    if amount < u128::from(width) {
        low_bits(n << amount, width)
    } else {
        0
    }
}

/// The bits moved down by any amount, with the bit `fill` in the vacated places.
pub fn shifted_right(n: u128, amount: u128, width: u8, fill: bool) -> u128
    requires most { width ≤ 128 }
    requires within { n < 2 ^ width }
    ensures { result ≡ word
        (λ k. if nat_lt (k + amount) width then bit_at n (k + amount) else from_bool fill)
        width }
{
    if amount < u128::from(width) {
        extended(n >> amount, width - amount as u8, width, fill)
    } else {
        extended(0, 0, width, fill)
    }
}

/// The `width` bits from bit `low` up.
pub fn part(n: u128, low: u8, width: u8) -> u128
    requires some { low < 128 }
    requires most { low + width ≤ 128 }
    ensures { result ≡ word (λ k. bit_at n (low + k)) width }
{
    low_bits(n >> low, width)
}

/// The bits of `high` above those of `low`, which has `width` bits.
pub fn joined(high: u128, low: u128, width: u8, above: u8) -> u128
    requires most { width + above ≤ 128 }
    requires some { 1 ≤ above }
    requires high_within { high < 2 ^ above }
    requires low_within { low < 2 ^ width }
    ensures { result ≡ word (λ k. if nat_lt k width then bit_at low k else bit_at high (k - width))
        (above + width) }
{
    (high << width) | low
}
