use mh_flow::Lang;

/// A statement of a body, over the expressions and places of a language. Statements may hold others,
/// at most 2,000 deep; an `else` part of exactly one statement adds no depth.
pub enum Step<L: Lang> {
    /// Assigns the value of the expression to the place.
    Set(L::Place, L::Expr),
    /// The first part where the expression is true, and else the second.
    If(L::Expr, Vec<Step<L>>, Vec<Step<L>>),
    /// The body again and again, as long as the expression is true.
    While(L::Expr, Vec<Step<L>>),
    /// The body once for each of the numbers from, from + step, from + 2 * step and so on that stand
    /// before `to` in the direction of the step, each given to the place first. The three
    /// expressions are from, to and step, in this order, and are evaluated once. With step 0 there
    /// are no numbers.
    Count(L::Place, L::Expr, L::Expr, L::Expr, Vec<Step<L>>),
    /// Stops with `Resumed::Waits` and this number, and counts nothing.
    Wait(u32),
    /// Stops with `Resumed::Says` and this number.
    Say(u32),
    /// Stops with `Resumed::CheckFailed` where the expression is not true.
    Check(L::Expr),
    /// Stops with `Resumed::Stopped`.
    Stop,
    /// Leaves the innermost loop, or the body where no loop is around.
    Break,
    /// Goes on with the innermost loop's next turn, or leaves the body where no loop is around.
    Continue,
}

impl<L: Lang> Drop for Step<L> {
    /// The loop goes into the last statement of an `else` part, so that a chain of `If`s, each in
    /// the `else` part of the one before, is let go without recursion, however long it is.
    fn drop(mut self) {
        loop {
            match self {
                Step::If(_, _, mut else_part) => match else_part.pop() {
                    Some(last) => self = last,
                    None => return,
                },
                Step::Set(_, _) => return,
                Step::While(_, _) => return,
                Step::Count(_, _, _, _, _) => return,
                Step::Wait(_) => return,
                Step::Say(_) => return,
                Step::Check(_) => return,
                Step::Stop => return,
                Step::Break => return,
                Step::Continue => return,
            }
        }
    }
}

/// A statement taken apart: the same variants, whose parts can be moved out.
#[derive(Drop)]
pub enum Parts<L: Lang> {
    Set(L::Place, L::Expr),
    If(L::Expr, Vec<Step<L>>, Vec<Step<L>>),
    While(L::Expr, Vec<Step<L>>),
    Count(L::Place, L::Expr, L::Expr, L::Expr, Vec<Step<L>>),
    Wait(u32),
    Say(u32),
    Check(L::Expr),
    Stop,
    Break,
    Continue,
}

impl<L: Lang> Step<L> {
    ghost use Rattle.std.specs.Prelude.{◌≡◌};
    ghost use Rattle.mh_flat.specs.Body.{statement_of};
    ghost use Rattle.mh_flat.specs.Parts.{statement_of_parts};

    /// Takes a statement apart. The statement is the same.
    pub(crate) fn into_parts(self) -> Parts<L>
        ensures { statement_of_parts result ≡ statement_of self }
    {
        match self {
            Step::Set(place, value) => Parts::Set(place, value),
            Step::If(test, then_part, else_part) => Parts::If(test, then_part, else_part),
            Step::While(test, body) => Parts::While(test, body),
            Step::Count(place, from, to, by, body) => Parts::Count(place, from, to, by, body),
            Step::Wait(what) => Parts::Wait(what),
            Step::Say(what) => Parts::Say(what),
            Step::Check(test) => Parts::Check(test),
            Step::Stop => Parts::Stop,
            Step::Break => Parts::Break,
            Step::Continue => Parts::Continue,
        }
    }
}
