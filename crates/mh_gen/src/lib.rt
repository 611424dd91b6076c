//! The language of MyHDL's generators: what an expression gives, what an assignment does, and the
//! body of each generator as code that stops and resumes.
//! Its main promise: values, faults and assignments are exactly those of the definitions, and the
//! code of a generator is that of its body.
#![tactic(auto)]

mod body_code;
mod eval;
mod fault;
mod form;
mod generators;
mod held;
mod indices;
mod language;
mod laws;
mod locals;
mod operand;
mod operators;
mod spot;
mod steps;
mod store;
mod written;

pub use body_code::BodyCode;
pub use fault::{Fault, FaultNumbers};
pub use generators::{code, driven, signal_count};
pub use held::Held;
pub use language::{Expression, LeftSide, MyHdl};
pub use laws::body_laws;
pub use locals::first_locals;
pub use store::Store;
