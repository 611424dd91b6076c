//! What executing a source has made so far: names in frames, lists, functions, instances of blocks,
//! generators and a growing design, and the single things that a source does with them. Its main
//! promise: each call does exactly what its definition says, or answers the rule that it breaks, with
//! the line.
#![tactic(auto)]

mod arguments;
mod blocks;
mod calls;
mod fault;
mod frames;
mod frozen;
mod function;
mod functions;
mod heads;
mod kinds;
mod lists;
mod marks;
mod names;
mod pool;
mod requests;
mod signals;
mod state;

pub use fault::{at_line, refuse};
pub use function::{Called, Function, Made};
pub use functions::parameters_fit;
pub use kinds::{Asked, Flow, Frame, Instance, Label, ListNote, Mark, Marks, Verb};
pub use pool::Pool;
pub use state::State;
