// Lists.
ghost use Rattle.std.specs.Prelude.{◌≡◌, ◌<◌, ◌+ℤ◌, ◌*ℤ◌, pos, List, Some, IfOk, OnOk, length, slice_get};
ghost use Rattle.mh_consts.specs.declared.kinds.Const.{Const};
ghost use Rattle.mh_num.specs.Results.{in_i128};
ghost use Rattle.mh_world.specs.Lists as lists;
ghost use Rattle.mh_world.specs.Named as named;
ghost use Rattle.mh_world.specs.View.{world, Does, same};
ghost use Rattle.mh_world.specs.World as spec;

use crate::fault::{at_line, refuse};
use crate::kinds::ListNote;
use crate::marks::{element, label_of_list};
use crate::state::State;
use mh_consts::{Const, place};
use mh_num::{add, mul};
use mh_text::{Code, CodeAt, Fault, Memory};
use sqlite_items::Items;
use std::alloc::Global;

impl<'a> State<'a> {
    /// Makes a list, by the statement at a line.
    pub fn new_list(&mut self, line: u32, items: Items<Const>) -> Result<Const, Fault<CodeAt>>
        ensures { Does same (lists.new_list line items (world self.old)) result (world self.new) }
    {
        let n = self.scope.lists.len();
        if n > 4294967295 {
            return Err(Fault::Memory);
        }
        self.scope.lists.add(items)?;
        self.marks.lists.push(ListNote {
            line,
            label: None,
            frozen: false,
        })?;
        Ok(Const::List(n as u32))
    }

    /// Whether a generator has read a name of this list.
    fn is_fixed(&self, n: u32) -> bool
        ensures { result ≡ lists.is_fixed (world self.now) n }
    {
        match self.marks.lists.get(n as usize) {
            Some(note) => note.frozen,
            None => false,
        }
    }

    /// Labels what gets into a list that has a name.
    fn label_in(&mut self, alloc: Global, n: u32, place: usize, v: &Const) -> Result<(), Memory>
        ensures { OnOk result (world self.new ≡ lists.label_in (named.label_of_list (world self.old).marks n) place v.now (world self.old)) }
    {
        match label_of_list(&self.marks, n) {
            None => Ok(()),
            Some(p) => {
                let own = element(alloc, p, place)?;
                self.label(alloc, &own, v)
            }
        }
    }

    /// `list.append(v)`
    #[tactic(auto, using(std::proofs::lemmas::Option::slice_get_within))]
    pub fn append(
        &mut self,
        alloc: Global,
        line: u32,
        n: u32,
        v: Const,
    ) -> Result<Const, Fault<CodeAt>>
        ensures { Does same (lists.append line n v (world self.old)) result (world self.new) }
    {
        let Some(items) = self.scope.lists.get(n) else {
            return refuse(Code::E10KindClash, line);
        };
        let place = items.len();
        if self.is_fixed(n) {
            return refuse(Code::E2NotElaborable, line);
        }
        let own = v.copy(alloc)?;
        self.scope.lists.append(n, own)?;
        self.label_in(alloc, n, place, &v)?;
        Ok(Const::None)
    }

    /// Puts a value at a place of a list that isn't fixed, and labels it.
    fn put_item(&mut self, alloc: Global, n: u32, place: usize, v: Const) -> Result<(), Memory>
        requires list { n < length (world self.old).lists }
        requires within { (vs : List Const) → slice_get (world self.old).lists n ≡ Some vs → place < length vs }
        ensures { OnOk result ((vs : List Const) → slice_get (world self.old).lists n ≡ Some vs → world self.new ≡ lists.put_item n place v vs (world self.old)) }
    {
        let own = v.copy(alloc)?;
        self.scope.lists.set(n, place, own);
        self.label_in(alloc, n, place, &v)
    }

    /// `list[place] = v`, where only lists take one.
    #[tactic(auto, using(mh_consts::proofs::Values::values))]
    pub fn set_item(
        &mut self,
        alloc: Global,
        line: u32,
        base: &Const,
        at: &Const,
        v: Const,
    ) -> Result<(), Fault<CodeAt>>
        ensures { Does same (lists.set_item line base.now at.now v (world self.old)) result (world self.new) }
    {
        let Const::List(n) = base else {
            return refuse(Code::E2NotElaborable, line);
        };
        let Some(items) = self.scope.lists.get(*n) else {
            return refuse(Code::E10KindClash, line);
        };
        let place = at_line(place(items.len(), at), line)?;
        if self.is_fixed(*n) {
            return refuse(Code::E2NotElaborable, line);
        }
        self.put_item(alloc, *n, place, v)?;
        Ok(())
    }

    /// The item at a place of what a loop goes over, or none.
    #[tactic(auto, using(mh_consts::proofs::Values::values))]
    pub fn item(
        &self,
        alloc: Global,
        line: u32,
        over: &Const,
        place: u64,
    ) -> Result<Option<Const>, Fault<CodeAt>>
        ensures { Does same (lists.item line over.now place (world self.now)) result (world self.now) }
    {
        match over {
            Const::Range(from, to, step) => Ok(range_item(*from, *to, *step, place)),
            Const::Tuple(items) => Ok(item_at(alloc, items.get().as_slice(), place)?),
            Const::List(n) => match self.scope.lists.get(*n) {
                Some(items) => Ok(item_at(alloc, items.as_slice(), place)?),
                None => refuse(Code::E10KindClash, line),
            },
            _ => refuse(Code::E2NotElaborable, line),
        }
    }

    /// The items of a tuple or a list.
    #[tactic(auto, using(mh_consts::proofs::Values::values))]
    pub fn items_of(
        &self,
        alloc: Global,
        line: u32,
        v: &Const,
    ) -> Result<Items<Const>, Fault<CodeAt>>
        ensures { Does same (spec.seeing line (lists.items_of v.now) (world self.now)) result (world self.now) }
    {
        match v {
            Const::Tuple(items) => Ok(copy_all(alloc, items.get().as_slice())?),
            Const::List(n) => match self.scope.lists.get(*n) {
                Some(items) => Ok(copy_all(alloc, items.as_slice())?),
                None => refuse(Code::E10KindClash, line),
            },
            _ => refuse(Code::E2NotElaborable, line),
        }
    }
}

/// A number, where a loop that goes up or down to another comes before it.
fn number_before(n: i128, to: i128, step: i128) -> Option<Const>
    ensures { result ≡ lists.number_before n to step }
{
    let before = if 0 < step { n < to } else { to < n };
    if before { Some(Const::Int(n)) } else { None }
}

/// The number at a place of a range that has no end. It goes by half of the way at a time, so that no
/// number on the way is outside where the last one isn't.
fn number_at(from: i128, step: i128, place: u64) -> Option<i128>
    ensures { result ≡ in_i128 (from +ℤ pos place *ℤ step) }
{
    let half = mul((place / 2) as i128, step)?;
    let middle = add(from, half)?;
    let even = add(middle, half)?;
    if place % 2 == 0 {
        Some(even)
    } else {
        add(even, step)
    }
}

/// The number of a turn of a loop over a range.
fn range_item(from: i128, to: i128, step: i128, place: u64) -> Option<Const>
    ensures { result ≡ lists.range_item from to step place }
{
    match number_at(from, step, place) {
        None => None,
        Some(n) => number_before(n, to, step),
    }
}

/// The item at a place, if there is one.
fn item_at(alloc: Global, items: &[Const], place: u64) -> Result<Option<Const>, Memory>
    ensures { IfOk result (λ v. v ≡ slice_get items.now place) }
{
    match items.get(place as usize) {
        Some(v) => Ok(Some(v.copy(alloc)?)),
        None => Ok(None),
    }
}

/// Values once more.
pub(crate) fn copy_all(alloc: Global, vs: &[Const]) -> Result<Items<Const>, Memory>
    ensures { IfOk result (λ all. all ≡ vs.now) }
{
    let mut all = Items::new(alloc);
    for v in vs {
        all.push(v.copy(alloc)?)?;
    }
    Ok(all)
}
