//! The bodies of generators: reads the definition of a generator, with its decorator, into the
//! statements and expressions of the flat design, with the kinds of its locals. Its main promise:
//! `lower` answers exactly the generator, or the first broken rule in order of text, that the
//! definition of bodies gives.
#![tactic(auto)]

mod bindings;
mod bodies;
mod generators;
mod given;
mod names;
mod paths;
mod statements;
mod targets;
mod typed;
mod waits;

pub use generators::lower;
pub use names::{collect_all, no_locals};
pub use typed::{Bound, Ends, Left};
