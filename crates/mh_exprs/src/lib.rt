//! The expressions of generators: reads an expression of a body into one of the flat design with its
//! kind, and meets the memories and tables that it indexes. Its main promise: `read` answers exactly the
//! expression and the design after it, or the first broken rule from left to right, that the definition
//! of reading gives.
#![tactic(auto)]

mod calls;
mod constant;
mod expression;
mod leaves;
mod locals;
mod memories;
mod names;
mod operations;
mod typed;

pub use calls::{callee_named, callee_of, form_of, is_maker, is_named_call, outside_in};
pub use constant::{folds, is_local, known, names_local, outside};
pub use expression::{part, read};
pub use leaves::{integer, is_assigned, kind_at, leaf, local};
pub use locals::Locals;
pub use memories::{cell, place_in};
pub use names::{Callee, Form, Plan};
pub use operations::{bit_fits, bounds_in, is_word, operated, slice_fits, zero_end};
pub use typed::{Row, Typed, Work};
