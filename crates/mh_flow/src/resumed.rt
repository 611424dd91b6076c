// What an evaluation answers.

/// Why `resume` has stopped. After `Waits`, `Says`, `Stopped` and `CheckFailed` the statement that
/// was met is taken away; after `Fault` and `TurnLimit` it is still the first of what is left.
#[derive(Drop)]
pub enum Resumed<F> {
    /// A `Wait`, with its number. The count of executed statements is set back to 0.
    Waits(u32),
    /// A `Say`, with its number. The count goes on.
    Says(u32),
    /// A `Stop`.
    Stopped,
    /// Nothing is left.
    Ended,
    /// A `Check` whose expression is not true, with its place in order of text, from 0, where a
    /// statement stands before those that it holds.
    CheckFailed(u32),
    /// A fault of the language, with the place of the statement in order of text.
    Fault(u32, F),
    /// The count has reached the budget, and another statement that counts comes.
    TurnLimit,
}
