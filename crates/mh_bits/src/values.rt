//! The types of values and operators.
ghost use Rattle.mh_bits.specs.Vector.{IsVector, vector_from};

/// A vector of bits 0, 1 or x (IEEE 1364-2005, 4.1 and 4.3.1). Bit 0 is the least significant one.
#[derive(Clone, Copy, PartialEq, Eq, Debug)]
pub struct Bits {
    /// How many bits it has, 1 to 128.
    pub width: u8,
    /// Its 1 bits. A bit that is x is 0 here.
    pub val: u128,
    /// Its x bits.
    pub unk: u128,
    pub ghost valid: { IsVector (vector_from width val unk) },
}

/// The operators of two operands (IEEE 1364-2005, 5.1).
#[derive(Clone, Copy, PartialEq, Eq, Debug)]
pub enum BinOp {
    /// `+`
    Add,
    /// `-`
    Sub,
    /// `*`
    Mul,
    /// `/`, with the fraction dropped towards 0
    Div,
    /// `%`, with the sign of the dividend
    Rem,
    /// `&`
    And,
    /// `|`
    Or,
    /// `^`
    Xor,
    /// `<<`
    Shl,
    /// `>>`
    Shr,
    /// `>>>`
    Sar,
    /// `==`
    Eq,
    /// `!=`
    Ne,
    /// `<`
    Lt,
    /// `<=`
    Le,
    /// `>`
    Gt,
    /// `>=`
    Ge,
}

/// The operators of one operand (IEEE 1364-2005, 5.1).
#[derive(Clone, Copy, PartialEq, Eq, Debug)]
pub enum UnOp {
    /// `-`
    Neg,
    /// `~`
    Not,
}
