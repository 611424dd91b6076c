// What names stand for in a generator.
use mh_consts::{Builtin, Const};
use mh_text::Code;

/// What is called.
#[derive(Clone, Copy, Debug, PartialEq, Eq)]
pub enum Callee {
    /// A function, or a word, that MyHDL or Python has.
    Known(Builtin),
    /// What may not be called in a generator, with the rule that the call breaks.
    Refused(Code),
}

/// How the arguments of a call are given.
#[derive(Clone, Copy, Debug, PartialEq, Eq)]
pub enum Form {
    /// One by position.
    Single,
    /// One by position, then `min=`, then `max=`.
    LowHigh,
    /// One by position, then `max=`, then `min=`.
    HighLow,
    /// Otherwise.
    Other,
}

/// What a call reads.
#[derive(Clone, Copy, Debug, PartialEq, Eq)]
pub enum Plan {
    /// Nothing: it breaks this rule.
    Refused(Code),
    /// Nothing: it is `now()`.
    Now,
    /// Its argument, for `len`.
    Length,
    /// Its argument, for `int`.
    Integer,
    /// Its argument, for `bool`.
    Truth,
    /// Its argument, for `intbv` or `modbv` without bounds.
    Unbounded,
    /// Its arguments, as the parts of a `concat`.
    Row,
    /// Its arguments, which don't fit.
    Misfit,
}

/// What an indexed expression is.
pub(crate) enum Found<'a> {
    /// A list from outside, by its number.
    List(u32),
    /// A tuple from outside, with its items.
    Tuple(&'a [Const]),
    /// Anything else.
    Neither,
}
