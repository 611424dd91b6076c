// What executing a source has made so far.
ghost use Rattle.std.specs.Prelude.{◌≡◌, ◌+◌, IfOk, OnOk};
ghost use Rattle.mh_world.specs.View.{world, Does, same};
ghost use Rattle.mh_world.specs.World as spec;

use crate::fault::refuse;
use crate::function::{Function, Made};
use crate::kinds::{Asked, Frame, Instance, Label, Marks};
use crate::pool::Pool;
use mh_consts::{Builtin, Const, Lists, Names, Scope, Shared};
use mh_design::Design;
use mh_text::{Code, CodeAt, Fault, Memory, Text};
use sqlite_items::Items;
use std::alloc::Global;

/// What executing a source has made so far, and how many statements may still be executed.
#[derive(Drop)]
pub struct State<'a> {
    pub frames: Vec<Frame>,
    pub current: u32,
    /// All lists. The names are those that the latest operation or definition may speak of.
    pub scope: Scope,
    pub marks: Marks,
    /// All signals, memories, tables and enums so far.
    pub design: Design,
    /// Each name that was bound to a tuple, in order.
    pub tuples: Items<(Shared<Items<Const>>, Label)>,
    pub functions: Vec<Function<'a>>,
    /// Of each function, whether the module has bound it to a name.
    pub known: Items<bool>,
    pub instances: Vec<Instance>,
    pub generators: Vec<Made>,
    pub requests: Items<Asked>,
    pub left: u32,
    /// The tuples that were made. It is dropped last.
    pub pool: Pool,
}

impl<'a> State<'a> {
    /// A statement is reached, or an item of a list with `for`.
    pub fn counted(&mut self, line: u32) -> Result<(), Fault<CodeAt>>
        ensures { Does same (spec.counted line (world self.old)) result (world self.new) }
    {
        if self.left == 0 {
            return refuse(Code::E7ElabLimit, line);
        }
        self.left -= 1;
        Ok(())
    }

    /// One turn more than there are statements left to execute.
    pub fn turns(&self) -> u64
        ensures { result ≡ self.now.left + 1 }
    {
        self.left as u64 + 1
    }

    /// A source of which nothing was executed yet, where so many statements may be.
    pub fn new(alloc: Global, limit: u32) -> Result<State<'a>, Memory>
        ensures { IfOk result (λ s. world s ≡ spec.begins limit) }
    {
        let mut frames = Vec::new(alloc);
        frames.push(module_frame(alloc)?)?;
        Ok(State {
            frames,
            current: 0,
            scope: Scope {
                names: Names::new(alloc),
                lists: Lists::new(alloc),
            },
            marks: Marks {
                signals: Items::new(alloc),
                lists: Items::new(alloc),
            },
            design: no_design(alloc)?,
            tuples: Items::new(alloc),
            functions: Vec::new(alloc),
            known: Items::new(alloc),
            instances: Vec::new(alloc),
            generators: Vec::new(alloc),
            requests: Items::new(alloc),
            left: limit,
            pool: Pool::new(alloc),
        })
    }
}

/// A design with nothing in it.
fn no_design(alloc: Global) -> Result<Design, Memory>
    ensures { IfOk result (λ d. d ≡ spec.no_design) }
{
    Ok(Design {
        name: Text::new(alloc, b"")?,
        ports: Items::new(alloc),
        signals: Items::new(alloc),
        mems: Items::new(alloc),
        tables: Items::new(alloc),
        enums: Items::new(alloc),
        generators: Items::new(alloc),
        listed: Items::new(alloc),
        line: 0,
    })
}

/// Binds the functions that are always bound.
fn bind_functions(alloc: Global, names: &mut Names<Const>) -> Result<(), Memory>
    ensures { OnOk result (names.new ≡ spec.functions_onto names.old) }
{
    names.bind(Text::new(alloc, b"range")?, Const::Builtin(Builtin::Range))?;
    names.bind(Text::new(alloc, b"len")?, Const::Builtin(Builtin::Len))?;
    names.bind(Text::new(alloc, b"int")?, Const::Builtin(Builtin::Int))?;
    names.bind(Text::new(alloc, b"bool")?, Const::Builtin(Builtin::Bool))?;
    names.bind(Text::new(alloc, b"print")?, Const::Builtin(Builtin::Print))
}

/// The names that are always bound.
fn always_bound(alloc: Global) -> Result<Names<Const>, Memory>
    ensures { IfOk result (λ names. names ≡ spec.always_bound) }
{
    let mut names = Names::new(alloc);
    bind_functions(alloc, &mut names)?;
    let word = Text::new(alloc, b"__main__")?;
    names.bind(Text::new(alloc, b"__name__")?, Const::Str(word))?;
    Ok(names)
}

/// The frame of the module.
fn module_frame(alloc: Global) -> Result<Frame, Memory>
    ensures { IfOk result (λ frame. frame ≡ spec.module_frame) }
{
    Ok(Frame {
        names: always_bound(alloc)?,
        inner: Items::new(alloc),
        parent: None,
        inside: None,
        frozen: Names::new(alloc),
    })
}
