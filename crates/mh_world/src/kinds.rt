use mh_consts::{Const, Names};
use mh_text::Text;
use sqlite_items::Items;

/// What a source asks of an instance.
#[derive(Clone, Copy, Debug, PartialEq, Eq)]
pub enum Verb {
    /// `x.convert(..)`
    Convert,
    /// `x.run_sim(..)`
    RunSim,
}

/// A request, in order of execution.
#[derive(Clone, Copy, Debug, PartialEq, Eq)]
pub struct Asked {
    pub verb: Verb,
    /// The number of the instance.
    pub instance: u32,
    /// The time up to which a run goes; 0 for a conversion.
    pub n: u32,
    /// The line of the statement.
    pub line: u32,
}

/// The names of the module, or of one call of a function.
#[derive(Drop)]
pub struct Frame {
    pub names: Names<Const>,
    /// The variables of the lists with `for` that are being made, the innermost last.
    pub inner: Items<(Text, Const)>,
    /// The frame in which the function was defined.
    pub parent: Option<u32>,
    /// The instance whose block is being executed.
    pub inside: Option<u32>,
    /// The names that a generator has read.
    pub frozen: Names<bool>,
}

/// The first name that leads to something.
#[derive(Drop)]
pub struct Label {
    /// The name, and for an element of a list its places.
    pub words: Text,
    /// The instance whose block bound it.
    pub inside: Option<u32>,
}

/// What is known of a list besides its items.
#[derive(Drop)]
pub struct ListNote {
    /// The line of the statement that made it.
    pub line: u32,
    pub label: Option<Label>,
    /// A generator has read a name of it.
    pub frozen: bool,
}

/// The first names of signals, and what is known of lists, each by its number.
#[derive(Drop)]
pub struct Marks {
    pub signals: Items<Option<Label>>,
    pub lists: Items<ListNote>,
}

/// An instance of a block.
#[derive(Drop)]
pub struct Instance {
    /// The name of the block.
    pub name: Text,
    /// The line of the word `def` of the block.
    pub line: u32,
    /// The argument of each parameter.
    pub arguments: Items<(Text, Const)>,
    /// The instance in whose block it was made.
    pub outer: Option<u32>,
    /// The first name bound to it.
    pub called: Option<Text>,
    /// The instances and generators that it returned, each once.
    pub parts: Items<Const>,
}

/// What a decorator makes of a definition.
#[derive(Clone, Copy, Debug, PartialEq, Eq)]
pub enum Mark {
    /// There is none: a plain function.
    Plain,
    /// `@block`
    Blocked,
    /// Another, which makes a generator.
    Generates,
}

/// What a statement leads to.
#[derive(Drop)]
pub enum Flow {
    /// On.
    Goes,
    /// Out of the loop.
    Leaves,
    /// To the next turn of the loop.
    Again,
    /// Out of the function: the line of the `return`, and its value.
    Returns(u32, Const),
}
