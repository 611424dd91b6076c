// What a generator has read.
ghost use Rattle.std.specs.Prelude.{◌≡◌, IfOk, OnOk, option_copied, map};
ghost use Rattle.mh_world.specs.Frozen as frozen;
ghost use Rattle.mh_world.specs.View.{world};

use crate::frames::freeze_from;
use crate::kinds::{Label, ListNote, Marks};
use crate::state::State;
use mh_consts::Const;
use mh_design::MemDecl;
use mh_text::{Memory, Text};
use std::alloc::Global;

/// The list that a value is.
#[tactic(auto, using(mh_consts::proofs::Values::values))]
fn list_held(v: Option<&Const>) -> Option<u32>
    ensures { result ≡ frozen.list_held (option_copied v.entry) }
{
    match v {
        None => None,
        Some(v) => match v {
            Const::List(n) => Some(*n),
            _ => None,
        },
    }
}

/// A label once more, where there is one.
fn copied(alloc: Global, label: &Option<Label>) -> Result<Option<Label>, Memory>
    ensures { IfOk result (λ x. x ≡ label.now) }
{
    match label {
        Some(p) => Ok(Some(p.copy(alloc)?)),
        None => Ok(None),
    }
}

/// A list isn't changed any more.
fn fix_list(alloc: Global, marks: &mut Marks, n: Option<u32>) -> Result<(), Memory>
    ensures { OnOk result (marks.new ≡ frozen.fix_list marks.old n) }
{
    let Some(n) = n else {
        return Ok(());
    };
    match marks.lists.get(n as usize) {
        Some(note) => {
            let next = ListNote {
                line: note.line,
                label: copied(alloc, &note.label)?,
                frozen: true,
            };
            marks.lists.set(n as usize, next);
            Ok(())
        }
        None => Ok(()),
    }
}

/// The lists of these memories aren't changed any more.
fn fix_lists(alloc: Global, marks: &mut Marks, mems: &[MemDecl]) -> Result<(), Memory>
    ensures { OnOk result (marks.new ≡ frozen.fix_lists marks.old mems.now) }
{
    for mem in mems {
        fix_list(alloc, marks, Some(mem.list))?;
    }
    Ok(())
}

impl<'a> State<'a> {
    /// The lists of the memories from this number on aren't changed any more.
    pub fn freeze_mems(&mut self, alloc: Global, from: usize) -> Result<(), Memory>
        ensures { OnOk result (world self.new ≡ frozen.freeze_mems from (world self.old)) }
    {
        let mems = self.design.mems.as_slice();
        if from >= mems.len() {
            return Ok(());
        }
        fix_lists(alloc, &mut self.marks, &mems[from..])
    }

    /// A generator has read a name from outside.
    pub fn freeze_one(&mut self, alloc: Global, t: &Text) -> Result<(), Memory>
        ensures { OnOk result (world self.new ≡ frozen.freeze_one t.now (world self.old)) }
    {
        let list = list_held(self.find(t));
        let n = self.frames.len();
        freeze_from(alloc, &mut self.frames, n, t, Some(self.current))?;
        fix_list(alloc, &mut self.marks, list)
    }

    /// A generator has read these names from outside.
    pub fn freeze(&mut self, alloc: Global, ts: &[&Text]) -> Result<(), Memory>
        ensures { OnOk result (world self.new ≡ frozen.freeze (map (λ t. t.now) ts.now) (world self.old)) }
    {
        for t in ts {
            self.freeze_one(alloc, t)?;
        }
        Ok(())
    }
}
