//! Unit tests of the front half, from the parser to the run of a design: what no case of `mh_cases` can show, since no
//! command reaches the call, or since it is a limit, a depth or a size. Each test says which.
#![tactic(auto)]

#[cfg(test)]
mod declarations;
#[cfg(test)]
mod depths;
#[cfg(test)]
mod designs;
#[cfg(test)]
mod limits;
#[cfg(test)]
mod running;
#[cfg(test)]
mod sources;
