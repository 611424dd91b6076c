ghost use Rattle.std.specs.Prelude.{◌≡◌, IfOk};

use crate::shared::Shared;
use mh_num::Bounds;
use mh_text::{Memory, Text};
use sqlite_items::Items;
use std::alloc::Global;

/// A name that an import binds, or that is always bound.
#[derive(Clone, Copy, Debug, PartialEq, Eq)]
pub enum Builtin {
    /// `block`
    Block,
    /// `instance`
    Instance,
    /// `instances`
    Instances,
    /// `always`
    Always,
    /// `always_comb`
    AlwaysComb,
    /// `always_seq`
    AlwaysSeq,
    /// `Signal`
    Signal,
    /// `ResetSignal`
    ResetSignal,
    /// `intbv`
    Intbv,
    /// `modbv`
    Modbv,
    /// `enum`
    Enum,
    /// `concat`
    Concat,
    /// `delay`
    Delay,
    /// `now`
    Now,
    /// `downrange`
    Downrange,
    /// `StopSimulation`
    StopSimulation,
    /// `range`
    Range,
    /// `len`
    Len,
    /// `int`
    Int,
    /// `bool`
    Bool,
    /// `print`
    Print,
}

/// What the values of a signal are.
#[derive(Clone, Copy, Debug, PartialEq, Eq)]
pub enum SignalKind {
    /// Truth values.
    Truth,
    /// Integers without bounds.
    Integer,
    /// Numbers within bounds.
    Bounded(Bounds),
    /// Items of the enum of this number.
    Item(u32),
}

/// A value of elaboration. Lists, functions, signals and the like are known by their numbers, so that
/// two names may share one.
#[derive(Drop)]
pub enum Const {
    /// `None`
    None,
    /// An integer; `intbv(v)` without bounds is one too.
    Int(i128),
    /// `True` or `False`
    Truth(bool),
    /// A string: its bytes.
    Str(Text),
    /// `delay(n)`
    Delay(u32),
    /// An enum: its number, and the names of its items in order.
    EnumType(u32, Shared<Items<Text>>),
    /// An item of an enum: the enum's number, and the item's place.
    Item(u32, u32),
    /// A number within bounds: `intbv`, or `modbv` where the bounds wrap.
    Bounded(i128, Bounds),
    /// A signal: its number, and what its values are.
    Signal(u32, SignalKind),
    /// An edge: the number of a signal of truth values, and whether the edge is rising.
    Edge(u32, bool),
    /// `range(from, to, step)`, and `downrange` as the range that it means. The step isn't 0.
    Range(i128, i128, i128),
    /// A list: its number.
    List(u32),
    /// A tuple. A copy of the value is a handle on the same items.
    Tuple(Shared<Items<Const>>),
    /// A function of the source: its number.
    Function(u32),
    /// An instance of a block: its number.
    Instance(u32),
    /// A generator: its number.
    Generator(u32),
    /// A function, or a word, that MyHDL or Python has.
    Builtin(Builtin),
}

impl Const {
    /// The same value once more. Of a tuple and of an enum it is a handle on what they hold, which
    /// takes no memory.
    pub fn copy(&self, alloc: Global) -> Result<Const, Memory>
        ensures { IfOk result (λ c. c ≡ self.now) }
    {
        Ok(match self {
            Const::None => Const::None,
            Const::Int(n) => Const::Int(*n),
            Const::Truth(b) => Const::Truth(*b),
            Const::Str(bytes) => Const::Str(bytes.copy(alloc)?),
            Const::Delay(n) => Const::Delay(*n),
            Const::EnumType(n, names) => Const::EnumType(*n, names.share()?),
            Const::Item(n, place) => Const::Item(*n, *place),
            Const::Bounded(v, bounds) => Const::Bounded(*v, *bounds),
            Const::Signal(n, kind) => Const::Signal(*n, *kind),
            Const::Edge(n, rising) => Const::Edge(*n, *rising),
            Const::Range(from, to, step) => Const::Range(*from, *to, *step),
            Const::List(n) => Const::List(*n),
            Const::Tuple(items) => Const::Tuple(items.share()?),
            Const::Function(n) => Const::Function(*n),
            Const::Instance(n) => Const::Instance(*n),
            Const::Generator(n) => Const::Generator(*n),
            Const::Builtin(b) => Const::Builtin(*b),
        })
    }
}
