use crate::expression::GExpr;
use mh_text::Text;
use sqlite_items::Items;

/// What a signal's values are.
#[derive(Clone, Copy, Debug, PartialEq, Eq)]
pub enum Kind {
    /// A truth value, 0 or 1; one bit in the converted texts.
    Bool,
}

/// A signal of a design. Its number is its place in `Design::signals`.
#[derive(Debug, Drop)]
pub struct SignalDecl {
    /// The name that its path in the source gives it.
    pub path: Text,
    pub kind: Kind,
}

/// When a generator runs.
#[derive(Clone, Copy, Debug, PartialEq, Eq)]
pub enum GenKind {
    /// `@always_comb`: at the start, and after any change of a signal that it reads.
    Comb,
}

/// A statement of a generator.
#[derive(Debug, Drop)]
pub enum GStmt {
    /// `target.next = value`, where `target` is the number of a signal.
    Assign { target: u32, value: GExpr },
}

/// A generator of a design.
#[derive(Debug, Drop)]
pub struct Generator {
    /// The name that its path in the source gives it.
    pub path: Text,
    pub kind: GenKind,
    pub body: Items<GStmt>,
}

/// A flat design: one top block with all that it leads to.
#[derive(Debug, Drop)]
pub struct Design {
    /// The name of the top block.
    pub name: Text,
    /// The numbers of the signals that are ports, in the order of the block's parameters.
    pub ports: Items<u32>,
    /// The signals, the ports first.
    pub signals: Items<SignalDecl>,
    /// The generators, in order of elaboration.
    pub generators: Items<Generator>,
}
