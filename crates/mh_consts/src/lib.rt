//! Constant values: what elaboration computes with. A value, the names and lists in scope, and the
//! value of an expression there. Its main promise: `value` and `operate` answer exactly the value, or
//! the first broken rule, that the definition of constant expressions gives.
#![tactic(auto)]

mod builtins;
mod evaluate;
mod key;
mod kinds;
mod laws;
mod names;
mod numbers;
mod operators;
mod places;
mod plain;
mod scope;
mod shared;

pub use builtins::{all_positional, key_at};
pub use evaluate::{attribute_in, is_method, maker, name_in, operate, value};
pub use kinds::{Builtin, Const, SignalKind};
pub use laws::{binding_law, value_law};
pub use names::Names;
pub use numbers::{content, operand, truth};
pub use operators::operated;
pub use places::place;
pub use plain::is_plain;
pub use scope::{Lists, Scope};
pub use shared::Shared;
