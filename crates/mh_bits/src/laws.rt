//! What holds of all vectors, for proofs above: each call does nothing, and its contract is a law.
ghost use Rattle.std.specs.Prelude.{◌≡◌, ◌≢◌, ◌≤◌, ◌<◌, ◌+◌, ◌-◌, ◌*◌, ◌/◌, ◌%◌, ◌^◌, ◌+ℤ◌, ◌-ℤ◌, ◌*ℤ◌, neg_ℤ, ℕ, ℤ, pos, Bool, true, false, not, ◌↔◌, ◌==◌, bit_and, bit_or, bit_xor, int_div, int_rem, int_lt, int_le};
ghost use Rattle.mh_codes.specs.Integers.{floor_div, integer_and, integer_or, integer_xor};
ghost use Rattle.mh_codes.specs.Codes.{number, Fits};
ghost use Rattle.mh_bits.specs.declared.values.Bits.{Bits};
ghost use Rattle.mh_bits.specs.declared.values.BinOp.{BinOp};
ghost use Rattle.mh_bits.specs.declared.values.UnOp.{UnOp};
ghost use Rattle.mh_bits.specs.Vector.{Bit, low, high, Vector, IsVector, bit, gathered, known};
ghost use Rattle.mh_bits.specs.Operators.{binary_of, unary_of, result_width, WidthsFit, bitwise, and_bit, or_bit, xor_bit, inverted, equality, tested, coded, divided, number_of, shifted_left, shifted_right, fill, extended, selected, joined, truth_of};
ghost use Rattle.mh_bits.specs.View.{vector_of};

/// A vector is its width and its bits, and every bit may be chosen.
pub fn bit_laws()
    ensures same { (u v : Vector) → IsVector u → IsVector v → u.width ≡ v.width →
        ((k : ℕ) → k < u.width → bit u k ≡ bit v k) → u ≡ v }
    ensures same_bits { (a b : Bits) → vector_of a ≡ vector_of b → a ≡ b }
    ensures gathered { (v : Vector) (f : ℕ → Bit) → IsVector v →
        ((k : ℕ) → k < v.width → bit v k ≡ f k) → v ≡ gathered v.width f }
    ensures chosen { (w : ℕ) (f : ℕ → Bit) (k : ℕ) → k < w → bit (gathered w f) k ≡ f k }
    ensures valid { (w : ℕ) (f : ℕ → Bit) → 1 ≤ w → w ≤ 128 → IsVector (gathered w f) }
{}

/// Every operator gives a vector, of the width that it says; operands of one width fit all of them.
pub fn width_laws()
    ensures binary { (op : BinOp) (a b : Vector) (s : Bool) → 1 ≤ a.width → a.width ≤ 128 →
        IsVector (binary_of op a b s) }
    ensures binary_width { (op : BinOp) (a b : Vector) (s : Bool) →
        (binary_of op a b s).width ≡ result_width op a.width }
    ensures unary { (op : UnOp) (a : Vector) → 1 ≤ a.width → a.width ≤ 128 →
        IsVector (unary_of op a) }
    ensures unary_width { (op : UnOp) (a : Vector) → (unary_of op a).width ≡ a.width }
    ensures fit { (op : BinOp) (v w : ℕ) → v ≡ w → WidthsFit op v w }
{}

/// A part of an extension or of a concatenation is a part of what it was made from.
pub fn part_laws()
    ensures whole { (a : Vector) → IsVector a → selected a (a.width - 1) 0 ≡ a }
    ensures extension { (a : Vector) (w : ℕ) (s : Bool) (hi lo : ℕ) → a.width ≤ w → hi < a.width →
        selected (extended a w s) hi lo ≡ selected a hi lo }
    ensures extended_back { (a : Vector) (w : ℕ) (s : Bool) → IsVector a → a.width ≤ w →
        selected (extended a w s) (a.width - 1) 0 ≡ a }
    ensures extended_same { (a : Vector) (s : Bool) → IsVector a → extended a a.width s ≡ a }
    ensures lower { (a b : Vector) (hi lo : ℕ) → hi < b.width →
        selected (joined a b) hi lo ≡ selected b hi lo }
    ensures upper { (a b : Vector) (hi lo : ℕ) → b.width ≤ lo → lo ≤ hi → hi < a.width + b.width →
        selected (joined a b) hi lo ≡ selected a (hi - b.width) (lo - b.width) }
    ensures second { (a b : Vector) → IsVector b → selected (joined a b) (b.width - 1) 0 ≡ b }
    ensures first { (a b : Vector) → IsVector a →
        selected (joined a b) (a.width + b.width - 1) b.width ≡ a }
{}

/// In `&` a bit 0 absorbs every bit, also x, and in `|` a bit 1.
pub fn absorption_laws()
    ensures and_first { (a b : Vector) (s : Bool) (k : ℕ) → k < a.width → bit a k ≡ low →
        bit (binary_of BinOp.And a b s) k ≡ low }
    ensures and_second { (a b : Vector) (s : Bool) (k : ℕ) → k < a.width → bit b k ≡ low →
        bit (binary_of BinOp.And a b s) k ≡ low }
    ensures or_first { (a b : Vector) (s : Bool) (k : ℕ) → k < a.width → bit a k ≡ high →
        bit (binary_of BinOp.Or a b s) k ≡ high }
    ensures or_second { (a b : Vector) (s : Bool) (k : ℕ) → k < a.width → bit b k ≡ high →
        bit (binary_of BinOp.Or a b s) k ≡ high }
{}

/// Vectors without x add, subtract, multiply and negate as integers modulo 2 ^ w do, whatever sign
/// they are read with.
pub fn arithmetic_laws()
    ensures sum { (s : Bool) (w : ℕ) (x y : ℤ) →
        binary_of BinOp.Add (coded w x) (coded w y) s ≡ coded w (x +ℤ y) }
    ensures difference { (s : Bool) (w : ℕ) (x y : ℤ) →
        binary_of BinOp.Sub (coded w x) (coded w y) s ≡ coded w (x -ℤ y) }
    ensures product { (s : Bool) (w : ℕ) (x y : ℤ) →
        binary_of BinOp.Mul (coded w x) (coded w y) s ≡ coded w (x *ℤ y) }
    ensures negation { (w : ℕ) (x : ℤ) → unary_of UnOp.Neg (coded w x) ≡ coded w (neg_ℤ x) }
    ensures sum_sign { (a b : Vector) → IsVector a → IsVector b → a.width ≡ b.width → (s : Bool) →
        binary_of BinOp.Add a b s ≡ binary_of BinOp.Add a b false }
    ensures difference_sign { (a b : Vector) → IsVector a → IsVector b → a.width ≡ b.width →
        (s : Bool) → binary_of BinOp.Sub a b s ≡ binary_of BinOp.Sub a b false }
    ensures product_sign { (a b : Vector) → IsVector a → IsVector b → a.width ≡ b.width →
        (s : Bool) → binary_of BinOp.Mul a b s ≡ binary_of BinOp.Mul a b false }
{}

/// At sufficient width the result stands for the integer itself.
pub fn number_laws()
    ensures sum { (s : Bool) (w : ℕ) (x y : ℤ) → Fits s w (x +ℤ y) →
        number_of s (binary_of BinOp.Add (coded w x) (coded w y) s) ≡ x +ℤ y }
    ensures difference { (s : Bool) (w : ℕ) (x y : ℤ) → Fits s w (x -ℤ y) →
        number_of s (binary_of BinOp.Sub (coded w x) (coded w y) s) ≡ x -ℤ y }
    ensures product { (s : Bool) (w : ℕ) (x y : ℤ) → Fits s w (x *ℤ y) →
        number_of s (binary_of BinOp.Mul (coded w x) (coded w y) s) ≡ x *ℤ y }
    ensures part { (w n hi lo : ℕ) → number_of false (selected (known w n) hi lo)
        ≡ pos (n / 2 ^ lo % 2 ^ (hi + 1 - lo)) }
    ensures concatenation { (v m w n : ℕ) → m < 2 ^ v → n < 2 ^ w →
        number_of false (joined (known v m) (known w n)) ≡ pos (m * 2 ^ w + n) }
    ensures extension { (s : Bool) (w v : ℕ) (z : ℤ) → 1 ≤ w → w ≤ v → Fits s w z →
        number_of s (extended (coded w z) v s) ≡ z }
{}

/// On integers that fit their width, the other operators give what their names say.
pub fn known_laws()
    ensures quotient { (s : Bool) (w : ℕ) (x y : ℤ) → Fits s w x → Fits s w y →
        binary_of BinOp.Div (coded w x) (coded w y) s ≡ divided int_div w x y }
    ensures remainder { (s : Bool) (w : ℕ) (x y : ℤ) → Fits s w x → Fits s w y →
        binary_of BinOp.Rem (coded w x) (coded w y) s ≡ divided int_rem w x y }
    ensures less { (s : Bool) (w : ℕ) (x y : ℤ) → Fits s w x → Fits s w y →
        binary_of BinOp.Lt (coded w x) (coded w y) s ≡ tested (int_lt x y) }
    ensures less_or_equal { (s : Bool) (w : ℕ) (x y : ℤ) → Fits s w x → Fits s w y →
        binary_of BinOp.Le (coded w x) (coded w y) s ≡ tested (int_le x y) }
    ensures greater { (s : Bool) (w : ℕ) (x y : ℤ) → Fits s w x → Fits s w y →
        binary_of BinOp.Gt (coded w x) (coded w y) s ≡ tested (int_lt y x) }
    ensures greater_or_equal { (s : Bool) (w : ℕ) (x y : ℤ) → Fits s w x → Fits s w y →
        binary_of BinOp.Ge (coded w x) (coded w y) s ≡ tested (int_le y x) }
    ensures and { (w : ℕ) → 1 ≤ w → w ≤ 128 → (x y : ℤ) →
        bitwise and_bit (coded w x) (coded w y) ≡ coded w (integer_and x y) }
    ensures or { (w : ℕ) → 1 ≤ w → w ≤ 128 → (x y : ℤ) →
        bitwise or_bit (coded w x) (coded w y) ≡ coded w (integer_or x y) }
    ensures xor { (w : ℕ) → 1 ≤ w → w ≤ 128 → (x y : ℤ) →
        bitwise xor_bit (coded w x) (coded w y) ≡ coded w (integer_xor x y) }
    ensures not { (w : ℕ) → 1 ≤ w → w ≤ 128 → (n : ℕ) → n < 2 ^ w →
        inverted (known w n) ≡ known w (2 ^ w - 1 - n) }
    ensures equal { (w : ℕ) → 1 ≤ w → w ≤ 128 → (m n : ℕ) → m < 2 ^ w → n < 2 ^ w →
        m ≡ n → equality (known w m) (known w n) ≡ high }
    ensures unequal { (w : ℕ) → 1 ≤ w → w ≤ 128 → (m n : ℕ) → m < 2 ^ w → n < 2 ^ w →
        m ≢ n → equality (known w m) (known w n) ≡ low }
    ensures left { (w : ℕ) (z : ℤ) (k : ℕ) →
        shifted_left (coded w z) k ≡ coded w (z *ℤ pos (2 ^ k)) }
    ensures right { (s : Bool) (w : ℕ) (z : ℤ) (k : ℕ) → 1 ≤ w → Fits s w z →
        shifted_right (fill s (coded w z)) (coded w z) k ≡ coded w (floor_div z (2 ^ k)) }
    ensures extension { (s : Bool) (w v : ℕ) (z : ℤ) → 1 ≤ w → w ≤ v → Fits s w z →
        extended (coded w z) v s ≡ coded v z }
    ensures part { (w : ℕ) (z : ℤ) (hi lo : ℕ) → lo ≤ hi → hi < w →
        selected (coded w z) hi lo ≡ coded (hi + 1 - lo) (floor_div z (2 ^ lo)) }
    ensures concatenation { (v m w n : ℕ) → m < 2 ^ v → n < 2 ^ w →
        joined (known v m) (known w n) ≡ known (v + w) (m * 2 ^ w + n) }
{}

/// A vector is true exactly where one of its bits is 1, which its word of 1 bits shows.
pub fn truth_laws()
    ensures one { (a : Vector) →
        (truth_of a ≡ true) ↔ ((k : ℕ) × (k < a.width) × (bit a k ≡ high)) }
    ensures word { (a : Vector) → IsVector a → truth_of a ≡ not (a.val == 0) }
{}
