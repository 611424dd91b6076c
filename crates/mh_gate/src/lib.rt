//! The design of a single gate, which is what `convert` takes today: its signals, its ports, and its
//! one generator with its body, and what an expression there means in MyHDL.
//! Its main promise: `GExpr::value` is the value of the definition, for every expression, and that is the
//! value which the flat design's expression has in a run.
#![tactic(auto)]

mod design;
mod expression;
mod gate;
mod laws;
mod names;

pub use design::{Design, GStmt, GenKind, Generator, Kind, SignalDecl};
pub use expression::GExpr;
pub use gate::gate_of;
pub use laws::gate_laws;
