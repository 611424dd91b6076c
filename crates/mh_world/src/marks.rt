// The first names of signals and lists.
ghost use Rattle.std.specs.Prelude.{◌≡◌, ◌+◌, ◌*◌, ◌^◌, ◌<◌, ◌≤◌, IfOk, OnOk, length, option_copied, slice_get};
ghost use Rattle.mh_world.specs.Labels as labels;
ghost use Rattle.mh_world.specs.Named as spec;

use crate::arguments::behind;
use crate::kinds::{Label, ListNote, Marks};
use mh_consts::{Const, Lists};
use mh_text::{Memory, Text, put_number};
use sqlite_items::at;
use std::alloc::Global;

impl Label {
    /// An equal label with memory of its own.
    pub fn copy(&self, alloc: Global) -> Result<Label, Memory>
        ensures { IfOk result (λ label. label ≡ self.now) }
    {
        Ok(Label {
            words: self.words.copy(alloc)?,
            inside: self.inside,
        })
    }
}

/// The label of the element at a place of a list.
#[tactic(auto, using(std::proofs::lemmas::List::append_assoc))]
pub(crate) fn element(alloc: Global, label: &Label, place: usize) -> Result<Label, Memory>
    ensures { IfOk result (λ x. x ≡ spec.element label.now place) }
{
    let mut words = Vec::from_slice(alloc, label.words.bytes())?;
    words.push(b'_')?;
    put_number(&mut words, place as i128)?;
    Ok(Label {
        words: Text::new(alloc, words.as_slice())?,
        inside: label.inside,
    })
}

/// Gives a signal its label, unless it has one.
pub(crate) fn label_signal(
    alloc: Global,
    label: &Label,
    n: u32,
    marks: &mut Marks,
) -> Result<(), Memory>
    ensures { OnOk result (marks.new ≡ spec.label_signal label.now n marks.old) }
{
    match marks.signals.get(n as usize) {
        Some(None) => {
            let own = label.copy(alloc)?;
            marks.signals.set(n as usize, Some(own));
            Ok(())
        }
        Some(Some(_)) => Ok(()),
        None => Ok(()),
    }
}

/// The label of a list, lent.
pub(crate) fn label_of_list(marks: &Marks, n: u32) -> Option<&Label>
    ensures { option_copied result ≡ spec.label_of_list marks.now n }
{
    match marks.lists.get(n as usize) {
        Some(note) => note.label.as_ref(),
        None => None,
    }
}

/// Gives a list its label.
fn put_label(alloc: Global, label: &Label, n: u32, marks: &mut Marks) -> Result<(), Memory>
    ensures { OnOk result (marks.new ≡ spec.with_label label.now n marks.old) }
{
    match marks.lists.get(n as usize) {
        Some(note) => {
            let next = ListNote {
                line: note.line,
                label: Some(label.copy(alloc)?),
                frozen: note.frozen,
            };
            marks.lists.set(n as usize, next);
            Ok(())
        }
        None => Ok(()),
    }
}

/// Elements that are still to be labelled: the label of their list, the place of the first of them, and
/// through how many lists what they lead to is labelled.
#[derive(Drop)]
struct Rest<'l> {
    label: Label,
    elements: &'l [Const],
    place: usize,
    depth: usize,
}

/// Gives a list its label, unless it has one; then its elements are to be labelled.
#[tactic(auto, using(crate::proofs::Labels::pushes))]
fn go_into<'l>(
    alloc: Global,
    lists: &'l Lists,
    depth: usize,
    label: &Label,
    n: u32,
    marks: &mut Marks,
    stack: &mut Vec<Rest<'l>>,
) -> Result<(), Memory>
    ensures same { OnOk result (labels.all_rest lists.now stack.new.items marks.new ≡ labels.all_rest lists.now stack.old.items (spec.label_list (spec.label_through lists.now depth) (spec.items_of (slice_get lists.now n)) (spec.label_of_list marks.old n) label.now n marks.old)) }
    ensures work { OnOk result (labels.all_work lists.now stack.new.items ≤ labels.all_work lists.now stack.old.items + (length (spec.items_of (slice_get lists.now n)) * labels.base lists.now ^ depth + 1)) }
{
    if label_of_list(marks, n).is_some() {
        return Ok(());
    }
    put_label(alloc, label, n, marks)?;
    match lists.get(n) {
        Some(items) => {
            let own = label.copy(alloc)?;
            stack.push(Rest {
                label: own,
                elements: items.as_slice(),
                place: 0,
                depth,
            })?;
            Ok(())
        }
        None => Ok(()),
    }
}

/// Gives a signal or a list its label, unless it has one; then the elements of a list are to be
/// labelled.
#[tactic(auto, using(mh_consts::proofs::Values::values, crate::proofs::Numbers::numbers, crate::proofs::Labels::powers))]
fn reach<'l>(
    alloc: Global,
    lists: &'l Lists,
    depth: usize,
    label: &Label,
    v: &Const,
    marks: &mut Marks,
    stack: &mut Vec<Rest<'l>>,
) -> Result<(), Memory>
    ensures same { OnOk result (labels.all_rest lists.now stack.new.items marks.new ≡ labels.all_rest lists.now stack.old.items (spec.label_through lists.now depth label.now v.now marks.old)) }
    ensures work { OnOk result (labels.all_work lists.now stack.new.items < labels.all_work lists.now stack.old.items + labels.base lists.now ^ depth) }
{
    if depth == 0 {
        return Ok(());
    }
    match v {
        Const::Signal(n, _) => label_signal(alloc, label, *n, marks),
        Const::List(n) => go_into(alloc, lists, depth - 1, label, *n, marks, stack),
        _ => Ok(()),
    }
}

/// Labels the first of these elements; the others are still to be labelled.
#[tactic(auto, using(crate::proofs::Labels::steps))]
fn go_on<'l>(
    alloc: Global,
    lists: &'l Lists,
    top: Rest<'l>,
    marks: &mut Marks,
    stack: &mut Vec<Rest<'l>>,
) -> Result<(), Memory>
    ensures same { OnOk result (labels.all_rest lists.now stack.new.items marks.new ≡ labels.all_rest lists.now stack.old.items (labels.rest lists.now top.entry marks.old)) }
    ensures work { OnOk result (labels.all_work lists.now stack.new.items < labels.all_work lists.now stack.old.items + labels.work lists.now top.entry) }
{
    let Rest {
        label,
        elements,
        place,
        depth,
    } = top;
    let Some(v) = at(elements, 0) else {
        return Ok(());
    };
    let Some(next) = place.checked_add(1) else {
        return Err(Memory);
    };
    let own = element(alloc, &label, place)?;
    stack.push(Rest {
        label,
        elements: behind(elements),
        place: next,
        depth,
    })?;
    reach(alloc, lists, depth, &own, v, marks, stack)
}

/// Gives all that a value leads to through at most so many lists its label, unless it has one.
#[tactic(auto, using(crate::proofs::Labels::pushes))]
pub(crate) fn label_value(
    alloc: Global,
    lists: &Lists,
    depth: usize,
    label: &Label,
    v: &Const,
    marks: &mut Marks,
) -> Result<(), Memory>
    ensures { OnOk result (marks.new ≡ spec.label_through lists.now depth label.now v.now marks.old) }
{
    let mut stack = Vec::new(alloc);
    reach(alloc, lists, depth, label, v, marks, &mut stack)?;
    while let Some(top) = stack.pop() {
        go_on(alloc, lists, top, marks, &mut stack)?;
    }
    Ok(())
}
