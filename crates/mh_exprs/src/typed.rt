// Expressions with their kinds.
use mh_design::{GExpr, Kind, ValueKind};
use sqlite_items::Items;

/// An expression that was read.
#[derive(Drop)]
pub struct Typed {
    /// The expression.
    pub expr: GExpr,
    /// What its values are.
    pub kind: ValueKind,
    /// The width, where it is known before the run.
    pub width: Option<i128>,
    /// The declared kind, where an index or a slice of it may be taken by its kind: of a signal, a
    /// local, an element of a memory, or a constant bounded number.
    pub base: Option<Kind>,
}

/// The parts of a `concat` so far.
#[derive(Drop)]
pub struct Row {
    /// The parts, from the highest bits on.
    pub parts: Items<GExpr>,
    /// The width of all, where it is known before the run.
    pub width: Option<i128>,
}

/// What is known of the locals at a place of a body. A list of truth values says for each local
/// whether every path that leads there has assigned it; nothing stands where no path leads there.
#[derive(Drop)]
pub struct Work {
    /// The kind of each local, once it was assigned in the text.
    pub kinds: Items<Option<Kind>>,
    /// The paths that lead here.
    pub here: Option<Items<bool>>,
    /// The paths that leave the loop around by `break`.
    pub breaks: Option<Items<bool>>,
    /// The paths that go to the next turn of the loop around by `continue`.
    pub continues: Option<Items<bool>>,
}
