/// A place in a source: the bytes from `start` up to and without `end`, counted from 0, and the
/// number of the line that `start` stands on, counted from 1.
#[derive(Clone, Copy, Debug, PartialEq, Eq)]
pub struct Span {
    pub start: u32,
    pub end: u32,
    pub line: u32,
}
