//! The flat design that every later stage reads: its signals, memories, tables and enums, and its
//! generators with the trees of their bodies.
//! Its main promise: `well_formed` answers yes exactly where the design is one by the definition.
#![tactic(auto)]

mod assigned;
mod combs;
mod constants;
mod depth;
mod design;
mod enums;
mod exits;
mod expression;
mod kinds;
mod laws;
mod sizes;
mod statement;
mod statements;
mod uses;
mod validity;

pub use assigned::{Flow, ends_give_turn, is_assigned_first, rises};
pub use combs::inout;
pub use constants::{constant_of, ends_keep, index_keeps};
pub use design::{
    Design, Encoding, EnumDecl, GenKind, Generator, Kind, Local, MemDecl, ResetDecl, SignalDecl,
    TableDecl, Wait,
};
pub use enums::{enum_fits, is_item_code, item_code};
pub use expression::{BinaryOp, GExpr, UnaryOp};
pub use kinds::{
    ValueKind, binary_kind, bitwise, equality, given, is_bits, is_number, is_part, item_count,
    kind_of, local_kind, mem_kind, numeric, read_as, signal_kind, unary_kind,
};
pub use laws::assigned_laws;
pub use statement::{Binding, Branch, GStmt, Place, PrintPart, Target};
pub use statements::{binding_takes, bound_takes, is_bits_kind, is_int_kind, takes};
pub use uses::{drives, reads, waits};
pub use validity::{cells_kind, is_edge, is_reset, met, met_all, met_next, well_formed};
