//! The trees of the Python subset that `myhdl` reads: expressions, statements and the module that
//! holds them, as plain data for contracts, with the depth that the grammar limits and the names
//! that stand in them. Its main promise: `PyStmt::line` is the line at which a statement is refused.
#![tactic(auto)]

mod expression;
mod statement;

pub use expression::{Argument, Operator, PyExpr, Sign};
pub use statement::{Branch, FuncDef, Module, Param, PyStmt};
