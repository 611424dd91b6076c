ghost use Rattle.std.specs.Prelude.{◌≡◌, length, slice_index_or, false};
ghost use Rattle.mh_gate.specs.Value.{value, number_of, ReadsBelow};

/// An expression of a generator over signals of truth values, which it names by their numbers.
#[derive(Clone, Copy, Debug, PartialEq, Eq)]
pub enum GExpr {
    /// `a`
    Signal(u32),
    /// `not a`
    Not(u32),
    /// `a & b`
    And(u32, u32),
    /// `a | b`
    Or(u32, u32),
    /// `a ^ b`
    Xor(u32, u32),
}

impl GExpr {
    /// The value of the expression where the signals have these truth values. Takes no memory.
    pub fn value(self, signals: &[bool]) -> bool
        requires { ReadsBelow (length signals.now) self }
        ensures { number_of result ≡ value self (λ signal. number_of (slice_index_or signals.now signal false)) }
    {
        match self {
            GExpr::Signal(a) => signals[a as usize],
            GExpr::Not(a) => !signals[a as usize],
            GExpr::And(a, b) => signals[a as usize] & signals[b as usize],
            GExpr::Or(a, b) => signals[a as usize] | signals[b as usize],
            GExpr::Xor(a, b) => signals[a as usize] ^ signals[b as usize],
        }
    }
}
