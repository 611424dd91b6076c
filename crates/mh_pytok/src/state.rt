use crate::shape::Line;
use sqlite_items::Items;

/// How far a source is read.
#[derive(Drop)]
pub struct State {
    /// How many bytes are read.
    pub at: u32,
    /// The number of the line, counted from 1.
    pub number: u32,
    /// The columns at which the open blocks begin, the innermost last.
    pub indents: Items<u32>,
    /// How many brackets are open.
    pub brackets: u32,
    pub line: Line,
}
