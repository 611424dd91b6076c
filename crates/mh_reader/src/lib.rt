//! What serves the parser of any grammar: readers on lists of tokens, a step that is repeated, a
//! cursor over tokens that contracts see with their texts, and the fault of a function that reads.
//! Its main promise: a reader that looks no further than the next token refuses a text at a token
//! such that no text that is read begins with the tokens up to it.
#![tactic(auto)]

mod cursor;
mod fault;
mod laws;
mod token;

pub use cursor::{Kind, Tokens};
pub use fault::Fault;
pub use laws::{locality_laws, refusal_laws, repetition_laws};
pub use token::Token;
