// What is kept of what waits, and what is done next.
ghost use Rattle.std.specs.Prelude.{◌≡◌, ◌∷◌, [], OnOk, MatchOption};
ghost use Rattle.mh_elab.specs.Frames.{frame_of, frames_of};

use crate::kids::Kids;
use mh_consts::Const;
use mh_pytree::{Branch, FuncDef, Operator, PyExpr, PyStmt};
use mh_text::{Memory, Text};
use mh_world::{Flow, Mark, State};
use sqlite_items::Items;

/// What is done once parts have their values.
#[derive(Drop)]
pub(crate) enum Job<'a> {
    /// The operation.
    Operates(&'a PyExpr),
    /// A value gets to a target.
    Puts(&'a PyExpr, Const),
    /// A target is read, before the right side of an augmented assignment.
    Reads(Operator, &'a PyExpr, &'a PyExpr),
    /// A function has its default values.
    Defines(Mark, &'a FuncDef),
}

/// What waits for a value, or for statements to end, and holds statements. The first number of a loop is
/// how many turns it may still have, the second its line.
#[derive(Drop)]
pub(crate) enum Around<'a> {
    /// A condition of an `if`: whether a loop is around, the other branches, and the rest.
    Chooses(bool, &'a [Branch], &'a [PyStmt]),
    /// A `for`, which waits for what it goes over.
    Begins(&'a Text),
    /// A `while`, which waits for its condition.
    Tests(u64, u32, &'a PyExpr),
    /// A `while` in a turn.
    Turns(u64, u32, &'a PyExpr),
    /// A `for` in a turn, with what it goes over and the next place.
    GoesOver(u64, u32, &'a Text, Const, u64),
    /// A statement before others, and whether a loop is around.
    Rest(bool),
}

/// What waits for a value, or for statements to end.
#[derive(Drop)]
pub(crate) enum Waiting<'a> {
    Parts(Job<'a>, Kids<'a>, Items<Const>),
    AndRight(&'a PyExpr),
    OrRight(&'a PyExpr),
    AsTruth,
    /// The item and the name of a list with `for`, which waits for what it goes over.
    Collecting(&'a PyExpr, &'a Text),
    /// The same with how many turns it may still have, what it goes over, the next place, and the items
    /// so far.
    Collects(u64, &'a PyExpr, &'a Text, Const, u64, Items<Const>),
    /// An expression by itself.
    Drops,
    Assigns(&'a PyExpr),
    /// The target, the values of its parts, and what it held.
    Updates(Operator, &'a PyExpr, Items<Const>, Const),
    Returning,
    /// Statements, and what waits around them.
    Statements(Around<'a>, &'a [PyStmt]),
    /// A caller: the line of the definition, where it goes on, its line, and how many calls may be open.
    Back(u32, (u32, Option<u32>), u32, u32),
}

/// What is done next.
#[derive(Drop)]
pub(crate) enum Control<'a> {
    Eval(&'a PyExpr),
    /// `None`, where no expression stands.
    Nothing,
    Give(Const),
    Exec(bool, &'a [PyStmt]),
    Ends(Flow),
}

/// A source in the middle of its execution.
#[derive(Drop)]
pub(crate) struct Machine<'a> {
    /// What waits, the innermost last.
    pub frames: Vec<Waiting<'a>>,
    /// The line of the statement that is being executed.
    pub line: u32,
    /// So many more calls may be opened.
    pub calls: u32,
    pub state: State<'a>,
}

/// Something waits.
pub(crate) fn push<'a>(frames: &mut Vec<Waiting<'a>>, f: Waiting<'a>) -> Result<(), Memory>
    ensures { OnOk result (frames_of frames.new.items ≡ frame_of f.entry ∷ frames_of frames.old.items) }
{
    frames.push(f)?;
    Ok(())
}

/// What waits goes on.
pub(crate) fn pop<'a>(frames: &mut Vec<Waiting<'a>>) -> Option<Waiting<'a>>
    ensures { MatchOption result (frames_of frames.old.items ≡ []) (λ f. frames_of frames.old.items ≡ frame_of f ∷ frames_of frames.new.items) }
{
    frames.pop()
}
