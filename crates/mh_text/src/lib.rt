//! The small types that every layer of `myhdl` shares: a text, a place in a source and a cursor over one, tables
//! of spellings, decimal numbers, the codes of the refusals and faults, a refusal with its place, and want of
//! memory as an error of its own. Its main promise: a `Text` is the list of its bytes, a table finds a row by its
//! spelling exactly where it has one, and a code's words are those of one table.
#![tactic(auto)]

mod code;
mod cursor;
mod fault;
mod laws;
mod memory;
mod number;
mod refusal;
mod row;
mod span;
mod table;
#[cfg(test)]
mod tests;
mod text;

pub use code::Code;
pub use cursor::Cursor;
pub use fault::{CodeAt, Fault};
pub use laws::{found_has_its_spelling, nothing_has_the_spelling, spelling_finds_its_row};
pub use memory::Memory;
pub use number::put_number;
pub use refusal::Refusal;
pub use row::Row;
pub use span::Span;
pub use table::Table;
pub use text::Text;
