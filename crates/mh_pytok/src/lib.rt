//! The tokens of a source in the Python subset, and the values of its numbers and strings. The main promise, of
//! `tokens`: what it answers are the source's tokens as `specs/Tokens.antt` defines them, or the source's one refusal
//! with its rule and line; a source has one or the other, and memory aside it is answered.
#![tactic(auto)]

mod indents;
mod laws;
mod lex;
mod numbers;
mod piece;
mod scan;
mod shape;
mod state;
mod steps;
mod strings;
mod token;
mod words;

pub use laws::{longest_sign_wins, one_refusal, one_token_list, tokens_always, tokens_or_refusal};
pub use lex::tokens;
pub use numbers::number;
pub use strings::string;
pub use token::{Tok, Token};
pub use words::{KEYWORDS, SIGNS, level_of};
