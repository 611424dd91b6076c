//! The run of a design: deltas, times, inputs that are given from outside, and printed lines.
//! Its main promise: a run up to a time has exactly one outcome, and calls of deltas, prints and
//! steps of time do that run.
#![tactic(auto)]

mod answer;
mod due;
mod fault;
mod laws;
mod line;
mod plan;
mod process;
mod run;
mod sim;
mod statements;

pub use answer::{Delta, End};
pub use due::{earliest_end, some_is_over};
pub use fault::SimFault;
pub use laws::{call_laws, delta_always, delta_once, next_laws, runs_always, runs_once};
pub use sim::Sim;
