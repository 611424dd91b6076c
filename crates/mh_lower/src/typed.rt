// What parts of statements come to.
use mh_design::{Binding, GExpr, Kind, Target};
use mh_exprs::Typed;

/// The left side of an assignment other than `v = ..`.
#[derive(Drop)]
pub struct Left {
    /// What is assigned.
    pub target: Target,
    /// The declared kind of what is assigned as a whole; a part takes any number.
    pub kind: Option<Kind>,
}

/// The right side of `v = ..`.
#[derive(Drop)]
pub struct Bound {
    /// The expression.
    pub value: Typed,
    /// How it gives the local its value.
    pub binding: Binding,
}

/// What a `for` goes over.
#[derive(Drop)]
pub struct Ends {
    /// Whether it is a `downrange` and no `range`.
    pub down: bool,
    /// The first argument, or 0 where a `range` has only one.
    pub from: GExpr,
    /// The second argument, or 0 where a `downrange` has only one.
    pub to: GExpr,
    /// The step, which isn't 0.
    pub step: i128,
}
