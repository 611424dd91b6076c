//! The signals of a run: their values, the values that are pending for the end of the delta, and
//! what each generator waits for.
//! Its main promise: each call does exactly what the definition of the delta step says of it, and
//! only `new` takes memory.
#![tactic(auto)]

mod codes;
mod limits;
mod part;
mod room;
mod signals;
mod start;
mod waiter;

pub use codes::Codes;
pub use limits::Limits;
pub use part::part_taken;
pub use signals::Signals;
pub use start::limits_of;
