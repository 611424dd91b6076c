//! The commands of `myhdl`. Its main promise is the contract of the one public call `run`: what each
//! status means and when it comes, what every name holds afterwards, and that a converted text means
//! what its source means.
#![tactic(auto)]

mod command;
mod commands;
mod complaint;
mod convert;
mod lines;
mod sim;
mod source;
mod status;
pub mod vlog;
mod writing;

pub use commands::run;
pub use status::Status;
