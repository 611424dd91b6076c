//! Bodies of statements that stop and resume, as a meaning: what a language of expressions, places and stores is, the
//! rewriting of what is left of a body, and what an evaluation answers. Its main promise: the definition `Evaluates`, by
//! which every body runs, whatever its language.
#![tactic(auto)]

mod lang;
mod resumed;

pub use lang::Lang;
pub use resumed::Resumed;
