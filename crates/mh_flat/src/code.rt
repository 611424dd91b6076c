use mh_flow::Lang;

/// A position in the code: the statement there, or the loop there once it has begun.
#[derive(Clone, Copy)]
pub struct Position {
    pub(crate) at: usize,
    pub(crate) begun: bool,
}

/// The positions where a statement may lead: what follows it, and where a `Break` and a `Continue` in
/// it go on.
#[derive(Clone, Copy)]
pub struct Exits {
    pub(crate) after: Position,
    pub(crate) leave: Position,
    pub(crate) again: Position,
}

/// What an instruction does, with the positions where it may lead besides what follows it.
#[derive(Drop)]
pub enum Operation<L: Lang> {
    /// Assigns the value of an expression to a place.
    Assign(L::Place, L::Expr),
    /// Goes to the first position where the test holds, and else to the second.
    Branch(L::Expr, Position, Position),
    /// Goes to the position where the test holds: a loop over a condition.
    Repeat(L::Expr, Position),
    /// A loop over numbers: the place of its number, the expressions from, to and step, the depth
    /// of its counter, and where its body begins.
    Iterate(L::Place, L::Expr, L::Expr, L::Expr, usize, Position),
    /// Waits, with the number of the wait.
    Suspend(u32),
    /// Says a number.
    Report(u32),
    /// Checks that the test holds.
    Assert(L::Expr),
    /// Stops.
    Finish,
    /// Goes on to what follows, which need not be the next statement of the text.
    Jump,
}

/// A statement of the code, and the position that follows it.
#[derive(Drop)]
pub struct Instruction<L: Lang> {
    pub(crate) operation: Operation<L>,
    pub(crate) after: Position,
}

/// How many statements a statement is without its `else` part (`front`), and in all (`whole`),
/// those that it holds included.
#[derive(Clone, Copy)]
pub struct Extent {
    pub(crate) front: usize,
    pub(crate) whole: usize,
}

/// A body's code, an instruction for each statement in order of text. `flatten` makes it.
#[derive(Drop)]
pub struct Code<L: Lang> {
    pub(crate) instructions: Vec<Instruction<L>>,
    pub(crate) depth: usize,
}

/// The numbers of a counted loop that has begun: the next one, if there is one that fits 128 signed
/// bits, the limit that it has to stand before, and the step.
#[derive(Clone, Copy)]
pub struct Counter {
    pub(crate) next: Option<i128>,
    pub(crate) to: i128,
    pub(crate) step: i128,
}

/// Where a body stands: a position, the counters of the loops around it, and how many statements
/// were executed since the start or the last wait. `start` makes it, and `resume` moves it.
#[derive(Drop)]
pub struct State {
    pub(crate) position: Position,
    pub(crate) counters: Vec<Counter>,
    pub(crate) count: u64,
}
