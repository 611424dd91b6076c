//! Unit tests of the shelves and of the commands: what no case of `mh_cases` can show, since the cases run over a shelf in
//! memory, or since it is a size. Each test says which.
#![tactic(auto)]

#[cfg(test)]
mod commands;
#[cfg(test)]
mod shelves;
