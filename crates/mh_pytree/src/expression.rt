use mh_text::Text;
use sqlite_items::{Boxed, Items};

/// An operator between two operands.
#[derive(Clone, Copy, Debug, PartialEq, Eq)]
pub enum Operator {
    /// `or`
    Or,
    /// `and`
    And,
    /// `==`
    Equal,
    /// `!=`
    NotEqual,
    /// `<`
    Less,
    /// `<=`
    LessEqual,
    /// `>`
    Greater,
    /// `>=`
    GreaterEqual,
    /// `|`
    BitOr,
    /// `^`
    BitXor,
    /// `&`
    BitAnd,
    /// `<<`
    ShiftLeft,
    /// `>>`
    ShiftRight,
    /// `+`
    Add,
    /// `-`
    Subtract,
    /// `*`
    Multiply,
    /// `//`
    Divide,
    /// `%`
    Remainder,
}

/// An operator before its operand, other than `not`.
#[derive(Clone, Copy, Debug, PartialEq, Eq)]
pub enum Sign {
    /// `-`
    Minus,
    /// `+`
    Plus,
    /// `~`
    Invert,
}

/// An expression.
#[cycle(expression)]
#[derive(Drop)]
pub enum PyExpr {
    /// A name.
    Name(Text),
    /// A number, 0 to 2^127 - 1.
    Number(i128),
    /// A string: the bytes that it stands for.
    Str(Text),
    /// `True`
    True,
    /// `False`
    False,
    /// `None`
    None,
    /// `(e)`
    Group(Boxed<PyExpr>),
    /// A tuple in round brackets: `()`, `(a,)`, `(a, b)`.
    Bracketed(Items<PyExpr>),
    /// A tuple without brackets, which has at least one comma: `a,`, `a, b`.
    Tuple(Items<PyExpr>),
    /// `[a, b]`
    List(Items<PyExpr>),
    /// `[item for name in over]`: the item, the name, and what it goes over.
    Comprehension(Boxed<PyExpr>, Text, Boxed<PyExpr>),
    /// `not a`
    Not(Boxed<PyExpr>),
    /// `-a`, `+a`, `~a`
    Unary(Sign, Boxed<PyExpr>),
    /// `a + b` and the like.
    Binary(Operator, Boxed<PyExpr>, Boxed<PyExpr>),
    /// `a.name`
    Attribute(Boxed<PyExpr>, Text),
    /// `f(a, name=b)`
    Call(Boxed<PyExpr>, Items<Argument>),
    /// `base[place]`
    Index(Boxed<PyExpr>, Boxed<PyExpr>),
    /// `base[upper:lower]`, or `base[upper:]` without the last.
    Slice(Boxed<PyExpr>, Boxed<PyExpr>, Option<Boxed<PyExpr>>),
    /// `base[:]`
    Whole(Boxed<PyExpr>),
}

/// An argument of a call.
#[cycle(expression)]
#[derive(Drop)]
pub struct Argument {
    /// The name of a keyword argument, `name=value`.
    pub name: Option<Text>,
    pub value: PyExpr,
}
