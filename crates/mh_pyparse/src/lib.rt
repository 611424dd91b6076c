//! The parser of the Python subset: from tokens to trees. Its main promise: it answers the one tree that
//! the grammar gives to the tokens, where they have one at most 200 levels deep, and else the line of a
//! token with which no such text goes on.
#![tactic(auto)]

mod cursor;
mod expr;
mod infix;
mod laws;
mod signs;
mod small;
mod stmt;
mod text;

pub use laws::{levels_are_of_rows, one_tree, signs_are_spelled};
pub use text::parse;
