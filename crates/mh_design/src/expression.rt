use mh_num::Bounds;
use sqlite_items::{Boxed, Items};

/// An operator with one operand.
#[derive(Clone, Copy, Debug, PartialEq, Eq)]
pub enum UnaryOp {
    /// `-a`
    Minus,
    /// `+a`
    Plus,
    /// `~a`
    Invert,
    /// `not a`
    Not,
}

/// An operator with two operands, both of which have a value before it has one.
#[derive(Clone, Copy, Debug, PartialEq, Eq)]
pub enum BinaryOp {
    /// `a + b`
    Add,
    /// `a - b`
    Subtract,
    /// `a * b`
    Multiply,
    /// `a // b`, rounded down
    Divide,
    /// `a % b`
    Remainder,
    /// `a << b`
    ShiftLeft,
    /// `a >> b`
    ShiftRight,
    /// `a & b`
    BitAnd,
    /// `a | b`
    BitOr,
    /// `a ^ b`
    BitXor,
    /// `a == b`
    Equal,
    /// `a != b`
    NotEqual,
    /// `a < b`
    Less,
    /// `a <= b`
    LessEqual,
    /// `a > b`
    Greater,
    /// `a >= b`
    GreaterEqual,
}

/// An expression of a generator. Signals, memories, tables, enums and their items are named by their
/// numbers in the design, locals by their numbers in the generator.
#[derive(Drop)]
pub enum GExpr {
    /// A constant integer.
    Integer(i128),
    /// A constant truth value.
    Truth(bool),
    /// An item of an enum, by the number of the enum and its place among the items.
    Item(u32, u32),
    /// A constant bounded number that keeps its declared bounds, since it stands in `concat`, under
    /// `~`, or as the base of an index or slice.
    Fixed(i128, Bounds),
    /// The current value of a signal.
    Signal(u32),
    /// The value of a local.
    Local(u32),
    /// `mem[i]`: the current value of an element of a memory.
    Element(u32, Boxed<GExpr>),
    /// `table[i]`: an element of a table.
    TableElement(u32, Boxed<GExpr>),
    /// `a[i]`: one bit of a base.
    Bit(Boxed<GExpr>, Boxed<GExpr>),
    /// `a[i:j]`: the bits `i - 1` down to `j` of a base. For `a[i:]` the lower end is the constant 0.
    Slice(Boxed<GExpr>, Boxed<GExpr>, Boxed<GExpr>),
    /// An operator with one operand.
    Unary(UnaryOp, Boxed<GExpr>),
    /// An operator with two operands.
    Binary(BinaryOp, Boxed<GExpr>, Boxed<GExpr>),
    /// `a and b`: the right side has a value only where it is needed.
    And(Boxed<GExpr>, Boxed<GExpr>),
    /// `a or b`: the right side has a value only where it is needed.
    Or(Boxed<GExpr>, Boxed<GExpr>),
    /// `concat(a, b, ..)`, the highest part first.
    Concat(Items<GExpr>),
    /// `a.signed()`
    Signed(Boxed<GExpr>),
    /// `int(a)`
    Int(Boxed<GExpr>),
    /// `bool(a)`
    Bool(Boxed<GExpr>),
    /// `now()`: the time of the run.
    Now,
}
