//! Integers as vectors of bits: the code of an integer at a width, the integer that a code stands
//! for, what fits, the least width of a range, and the bitwise operators on integers of any size.
//! The definitions stand in `specs/`. The calls do nothing at run time: the contract of each is a
//! law that shows one of them right.
#![tactic(auto)]

ghost use Rattle.std.specs.Prelude.{◌≡◌, ◌≤◌, ◌<◌, ◌≤ℤ◌, ◌↔◌, ℕ, ℤ, pos, negsuc, true, false, ◌+◌, ◌-◌, ◌*◌, ◌/◌, ◌%◌, ◌^◌, ◌+ℤ◌, ◌-ℤ◌, ◌*ℤ◌, Bool, min, max, bit_and, bit_or, bit_xor};
ghost use Rattle.std.specs.Int.{bit_at};
ghost use Rattle.mh_codes.specs.Integers.{floor_div, floor_mod, bit_of, integer_and, integer_or, integer_xor, inverse_of, slice_of};
ghost use Rattle.mh_codes.specs.Codes.{code, number, Fits, Holds};
ghost use Rattle.mh_codes.specs.Ranges.{size_of, wrap_of};
ghost use Rattle.mh_codes.specs.Widths.{width_of, IsWidth};

/// Floor division keeps its law, and nothing else does.
pub fn floor_division_laws()
    ensures law { (z : ℤ) (d : ℕ) → 0 < d → z ≡ (floor_div z d *ℤ pos d) +ℤ pos (floor_mod z d) }
    ensures below { (z : ℤ) (d : ℕ) → 0 < d → floor_mod z d < d }
    ensures only { (z q : ℤ) (d r : ℕ) → r < d → z ≡ (q *ℤ pos d) +ℤ pos r →
        (q ≡ floor_div z d) × (r ≡ floor_mod z d) }
{}

/// `&`, `|` and `^` work bit by bit, and the bits say which integer it is.
pub fn bitwise_laws()
    ensures and { (k : ℕ) (a b : ℤ) → bit_of k (integer_and a b) ≡ min (bit_of k a) (bit_of k b) }
    ensures or { (k : ℕ) (a b : ℤ) → bit_of k (integer_or a b) ≡ max (bit_of k a) (bit_of k b) }
    ensures xor { (k : ℕ) (a b : ℤ) → bit_of k (integer_xor a b) ≡ (bit_of k a + bit_of k b) % 2 }
    ensures inverse { (w k : ℕ) (z : ℤ) → k < w → bit_of k (inverse_of w z) ≡ 1 - bit_of k z }
    ensures bit { (k : ℕ) (z : ℤ) → bit_of k z < 2 }
    ensures determined { (a b : ℤ) → ((k : ℕ) → bit_of k a ≡ bit_of k b) → a ≡ b }
{}

/// A slice holds the bits that its places name, and adjacent slices join.
pub fn slice_laws()
    ensures below { (i j : ℕ) (z : ℤ) → slice_of i j z < 2 ^ (i - j) }
    ensures bits { (i j k : ℕ) (z : ℤ) → j + k < i →
        bit_of k (pos (slice_of i j z)) ≡ bit_of (j + k) z }
    ensures joined { (i j k : ℕ) (z : ℤ) → k ≤ j → j ≤ i →
        slice_of i k z ≡ slice_of i j z * 2 ^ (j - k) + slice_of j k z }
{}

/// Codes and numbers are each other's inverse, and `Fits` is the interval that its name says.
pub fn code_laws()
    ensures below { (w : ℕ) (z : ℤ) → code w z < 2 ^ w }
    ensures bits { (w k : ℕ) (z : ℤ) → k < w → bit_at (code w z) k ≡ bit_of k z }
    ensures number { (s : Bool) (w : ℕ) (z : ℤ) → Fits s w z → number s w (code w z) ≡ z }
    ensures code { (s : Bool) (w n : ℕ) → n < 2 ^ w → code w (number s w n) ≡ n }
    ensures fits { (s : Bool) (w n : ℕ) → n < 2 ^ w → Fits s w (number s w n) }
    ensures unsigned { (w : ℕ) (z : ℤ) →
        Fits false w z ↔ ((pos 0 ≤ℤ z) × (z ≤ℤ pos (2 ^ w - 1))) }
    ensures signed { (w : ℕ) (z : ℤ) →
        Fits true (w + 1) z ↔ ((negsuc (2 ^ w - 1) ≤ℤ z) × (z ≤ℤ pos (2 ^ w - 1))) }
    ensures held { (s : Bool) (w : ℕ) (t : Bool) (v : ℕ) (z : ℤ) →
        Holds s w t v → Fits s w z → Fits t v z }
{}

/// The operators on integers, seen through codes.
pub fn arithmetic_laws()
    ensures sum { (w : ℕ) (a b : ℤ) → code w (a +ℤ b) ≡ (code w a + code w b) % 2 ^ w }
    ensures difference { (w : ℕ) (a b : ℤ) →
        code w (a -ℤ b) ≡ (code w a + (2 ^ w - code w b)) % 2 ^ w }
    ensures product { (w : ℕ) (a b : ℤ) → code w (a *ℤ b) ≡ (code w a * code w b) % 2 ^ w }
    ensures and { (w : ℕ) (a b : ℤ) → code w (integer_and a b) ≡ bit_and (code w a) (code w b) }
    ensures or { (w : ℕ) (a b : ℤ) → code w (integer_or a b) ≡ bit_or (code w a) (code w b) }
    ensures xor { (w : ℕ) (a b : ℤ) → code w (integer_xor a b) ≡ bit_xor (code w a) (code w b) }
    ensures part { (w i j : ℕ) (z : ℤ) → j ≤ i → i ≤ w →
        code w z / 2 ^ j % 2 ^ (i - j) ≡ code (i - j) (floor_div z (2 ^ j)) }
{}

/// The width of a range is the least that holds both of its ends.
pub fn width_laws()
    ensures { (lo top : ℤ) → lo ≤ℤ top → IsWidth lo top (width_of lo top) }
{}

/// Wrapping gives the one integer of the range that differs by a multiple of the range's size.
pub fn wrapping_laws()
    ensures inside { (lo top v : ℤ) → lo ≤ℤ top →
        (lo ≤ℤ wrap_of lo top v) × (wrap_of lo top v ≤ℤ top) }
    ensures congruent { (lo top v : ℤ) → lo ≤ℤ top →
        (k : ℤ) × (v ≡ wrap_of lo top v +ℤ (k *ℤ pos (size_of lo top))) }
    ensures only { (lo top : ℤ) → lo ≤ℤ top →
        (v x k : ℤ) → lo ≤ℤ x → x ≤ℤ top → v ≡ x +ℤ (k *ℤ pos (size_of lo top)) →
        x ≡ wrap_of lo top v }
{}
