//! The flat designs that a source asks for, made of what executing it has left: which generators a top
//! instance leads to, which signals, memories and tables these use, and what all of them are called.
//! Its main promise: `plans` answers exactly the designs and requests of the definition, or that the
//! first design that is too large is refused.
#![tactic(auto)]

mod chosen;
mod designs;
mod drawn;
mod marks;
mod numbers;
mod order;
mod paths;
mod renumbered;
mod sizes;
mod used;

pub use designs::{Elaborated, Request, plans};
