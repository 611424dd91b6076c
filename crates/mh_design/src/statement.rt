use crate::design::Wait;
use crate::expression::GExpr;
use mh_num::Bounds;
use mh_text::Text;
use sqlite_items::Items;

/// What a statement assigns, or a part of which it assigns.
#[derive(Drop)]
pub enum Place {
    /// The pending value of a signal.
    Signal(u32),
    /// The pending value of the element of a memory at an index.
    Element(u32, GExpr),
    /// A local, at once.
    Local(u32),
}

/// How `v = e` gives a local its value. A local that is a bounded number has from then on the bounds
/// of this assignment.
#[derive(Clone, Copy, Debug, PartialEq, Eq)]
pub enum Binding {
    /// `v = e`: a truth value, an integer or an item of an enum.
    Plain,
    /// `v = intbv(e, min=a, max=b)`, `v = modbv(..)`, or a constant bounded number: the value is
    /// tested against these bounds, or wraps into them.
    Bounded(Bounds),
    /// `v = intbv(e)[n:]` or, where true, `v = modbv(e)[n:]`: the `n` low bits of the value, as a
    /// number of 0 to `2^n - 1`, which are the bounds.
    LowBits(u8, bool),
}

/// The left side of an assignment.
#[derive(Drop)]
pub enum Target {
    /// `s.next = e`, `mem[i].next = e` or `v[:] = e`: the value is tested against the bounds.
    Whole(Place),
    /// `s.next[i] = e`, `mem[k].next[i] = e` or `v[i] = e`: one bit.
    Bit(Place, GExpr),
    /// `s.next[i:j] = e` and likewise: the bits `i - 1` down to `j`. A lower end that is left out is
    /// the constant 0.
    Slice(Place, GExpr, GExpr),
    /// `v = e`: makes the local, or gives it a new value.
    Bind(u32, Binding),
}

/// A part of what a `print` prints.
#[derive(Drop)]
pub enum PrintPart {
    /// A string.
    Text(Text),
    /// The value of an integer expression, in decimal.
    Number(GExpr),
}

/// A condition of an `if` or `elif`, and what is executed where it is the first that holds.
#[cycle(statement)]
#[derive(Drop)]
pub struct Branch {
    pub test: GExpr,
    pub body: Items<GStmt>,
}

/// A statement of a generator, with the line of its first token. An augmented assignment is the
/// assignment of its operation; `pass` and docstrings aren't statements here.
#[cycle(statement)]
#[derive(Drop)]
pub enum GStmt {
    /// An assignment. The right side has its value before the indices on the left.
    Set {
        line: u32,
        target: Target,
        value: GExpr,
    },
    /// An `if` with its `elif`s, in order, and its `else`.
    If {
        line: u32,
        branches: Items<Branch>,
        other: Items<GStmt>,
    },
    /// A `while`.
    While {
        line: u32,
        test: GExpr,
        body: Items<GStmt>,
    },
    /// `for v in range(from, to, step)`, or where `down`, `for v in downrange(from, to, step)`.
    For {
        line: u32,
        variable: u32,
        down: bool,
        from: GExpr,
        to: GExpr,
        step: i128,
        body: Items<GStmt>,
    },
    /// `break`
    Break {
        line: u32,
    },
    /// `continue`
    Continue {
        line: u32,
    },
    /// `yield`: waits until one of these happens.
    Yield {
        line: u32,
        waits: Items<Wait>,
    },
    /// `print(..)`
    Print {
        line: u32,
        parts: Items<PrintPart>,
    },
    /// `assert`
    Assert {
        line: u32,
        test: GExpr,
    },
    /// `raise StopSimulation()`
    Stop {
        line: u32,
    },
}
