use crate::statement::GStmt;
use mh_num::Bounds;
use mh_text::Text;
use sqlite_items::Items;

/// What the values of a signal, an element or a local are.
#[derive(Clone, Copy, Debug, PartialEq, Eq)]
pub enum Kind {
    /// Truth values, 0 and 1.
    Bool,
    /// Integers without bounds.
    Int,
    /// The numbers within bounds.
    Bits(Bounds),
    /// The items of an enum, by its number. The value of an item is its code.
    Item(u32),
}

/// What a `ResetSignal` declares.
#[derive(Clone, Copy, Debug, PartialEq, Eq)]
pub struct ResetDecl {
    /// The value at which the reset is active.
    pub active: bool,
    /// The reset acts by itself, without an edge of the clock.
    pub asynchronous: bool,
}

/// A signal of a design, an element of a memory included. Its number is its place in
/// `Design::signals`.
#[derive(Drop)]
pub struct SignalDecl {
    /// The name that its path in the source gives it.
    pub path: Text,
    pub kind: Kind,
    /// The value at the start.
    pub init: i128,
    pub reset: Option<ResetDecl>,
    /// The line of its declaration.
    pub line: u32,
}

/// A list of signals that a generator indexes.
#[derive(Drop)]
pub struct MemDecl {
    /// The number of the list in the elaboration.
    pub list: u32,
    pub path: Text,
    /// The kind as which its elements are read: that of the first where all are truth values, all
    /// integers, all bounded numbers or all items of one enum, and integers where these three mix.
    pub kind: Kind,
    /// The numbers of the signals that are its elements, in order.
    pub cells: Items<u32>,
    /// The line of the list.
    pub line: u32,
}

/// A tuple of integers that a generator indexes.
#[derive(Drop)]
pub struct TableDecl {
    pub path: Text,
    pub values: Items<i128>,
}

/// How the items of an enum are coded.
#[derive(Clone, Copy, Debug, PartialEq, Eq)]
pub enum Encoding {
    /// The place of the item, in the least width of at least one bit.
    Binary,
    /// The bit at the item's place is 1, all others are 0.
    OneHot,
    /// The bit at the item's place is 0, all others are 1.
    OneCold,
}

/// An enum type.
#[derive(Drop)]
pub struct EnumDecl {
    /// Its items, in order of declaration.
    pub names: Items<Text>,
    pub encoding: Encoding,
}

/// A local variable of a generator, with the kind of its first assignment in order of text. Its
/// number is its place in `Generator::locals`.
#[derive(Drop)]
pub struct Local {
    pub name: Text,
    pub kind: Kind,
}

/// What a generator may wait for. Signals are named by their numbers.
#[derive(Clone, Copy, Debug, PartialEq, Eq)]
pub enum Wait {
    /// A change of a signal.
    Change(u32),
    /// A change of a signal of truth values to 1 (true) or to 0 (false).
    Edge(u32, bool),
    /// A number of time steps.
    Delay(u32),
}

/// When a generator runs.
#[derive(Drop)]
pub enum GenKind {
    /// `@always_comb`: at the start, and after any change of what it reads.
    Comb,
    /// `@always(..)`: after each of these.
    Always(Items<Wait>),
    /// `@always_seq(edge, reset=..)`: after the edge, and, where the reset is asynchronous, as it gets
    /// active. The reset is named by its number.
    Seq(Wait, Option<u32>),
    /// `@instance`: from the start on, up to each `yield`.
    Instance,
}

/// A generator of a design.
#[derive(Drop)]
pub struct Generator {
    /// The name that its path in the source gives it.
    pub path: Text,
    /// The line of the word `def`.
    pub line: u32,
    pub kind: GenKind,
    pub locals: Items<Local>,
    pub body: Items<GStmt>,
}

/// A flat design: one top block with all that it leads to.
#[derive(Drop)]
pub struct Design {
    /// The name of the top block.
    pub name: Text,
    /// The numbers of the signals that are ports, in the order of the block's parameters.
    pub ports: Items<u32>,
    /// The signals: the ports, the others in order of creation, and elements of memories.
    pub signals: Items<SignalDecl>,
    pub mems: Items<MemDecl>,
    pub tables: Items<TableDecl>,
    pub enums: Items<EnumDecl>,
    /// The generators, in order of elaboration.
    pub generators: Items<Generator>,
    /// The parameters of the top block whose argument is a list that holds signals.
    pub listed: Items<Text>,
    /// The line of the top block's `def`.
    pub line: u32,
}
