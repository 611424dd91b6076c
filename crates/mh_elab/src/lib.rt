//! Elaboration: executes the statements of a source and gives the flat designs that it asks for. Its
//! main promise: `elaborate` answers exactly the designs and requests, or the first broken rule with its
//! line, that the definition of execution gives.
#![tactic(auto)]

mod calls;
mod definitions;
mod execution;
mod imports;
mod kids;
mod machine;
mod naming;
mod statements;
mod targets;
mod waiting;

pub use execution::{elaborate, elaborate_within};
pub use mh_plans::{Elaborated, Request};
pub use mh_world::Verb;
