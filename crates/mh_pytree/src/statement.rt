ghost use Rattle.std.specs.Prelude.{◌≡◌};
ghost use Rattle.mh_pytree.specs.Lines.{line_of};

use crate::expression::{Operator, PyExpr};
use mh_text::Text;
use sqlite_items::Items;

/// A parameter of a function.
#[derive(Drop)]
pub struct Param {
    pub name: Text,
    /// The default value.
    pub value: Option<PyExpr>,
}

/// A definition of a function.
#[cycle(statement)]
#[derive(Drop)]
pub struct FuncDef {
    /// The expressions after each `@`, in order.
    pub marks: Items<PyExpr>,
    pub name: Text,
    pub params: Items<Param>,
    pub body: Items<PyStmt>,
    /// The line of the word `def`.
    pub line: u32,
}

/// A condition of an `if`, the `if`'s own or an `elif`'s, with what it leads to.
#[cycle(statement)]
#[derive(Drop)]
pub struct Branch {
    pub test: PyExpr,
    pub body: Items<PyStmt>,
}

/// A statement. The first number of each is the line of its first token.
#[cycle(statement)]
#[derive(Drop)]
pub enum PyStmt {
    /// An expression by itself.
    Value(u32, PyExpr),
    /// `target = value`
    Assign(u32, PyExpr, PyExpr),
    /// `target += value` and the like.
    Augment(u32, Operator, PyExpr, PyExpr),
    /// `pass`
    Pass(u32),
    /// `break`
    Break(u32),
    /// `continue`
    Continue(u32),
    /// `return`, with or without a value.
    Return(u32, Option<PyExpr>),
    /// `yield a`
    Yield(u32, PyExpr),
    /// `raise a`
    Raise(u32, PyExpr),
    /// `assert test`, with or without a message.
    Assert(u32, PyExpr, Option<Text>),
    /// `from myhdl import *`
    ImportAll(u32),
    /// `from myhdl import a, b`
    Import(u32, Items<Text>),
    /// `def`, with its marks.
    Def(FuncDef),
    /// `if` with its `elif`s, and the body of its `else`. One node, however many branches it has.
    If(u32, Items<Branch>, Option<Items<PyStmt>>),
    /// `for name in over`
    For(u32, Text, PyExpr, Items<PyStmt>),
    /// `while test`
    While(u32, PyExpr, Items<PyStmt>),
}

impl PyStmt {
    /// The line of the statement's first token; of a definition that of its word `def`. Takes no
    /// memory.
    #[tactic(auto, using(crate::proofs::LineLaws::lines))]
    pub fn line(&self) -> u32
        ensures { result ≡ line_of self.now }
    {
        match self {
            PyStmt::Value(line, _) => *line,
            PyStmt::Assign(line, _, _) => *line,
            PyStmt::Augment(line, _, _, _) => *line,
            PyStmt::Pass(line) => *line,
            PyStmt::Break(line) => *line,
            PyStmt::Continue(line) => *line,
            PyStmt::Return(line, _) => *line,
            PyStmt::Yield(line, _) => *line,
            PyStmt::Raise(line, _) => *line,
            PyStmt::Assert(line, _, _) => *line,
            PyStmt::ImportAll(line) => *line,
            PyStmt::Import(line, _) => *line,
            PyStmt::Def(def) => def.line,
            PyStmt::If(line, _, _) => *line,
            PyStmt::For(line, _, _, _) => *line,
            PyStmt::While(line, _, _) => *line,
        }
    }
}

/// A source: its statements in order.
#[derive(Drop)]
pub struct Module {
    pub stmts: Items<PyStmt>,
}
