ghost use Rattle.std.specs.Prelude.{◌≡◌, ◌≤◌, ◌<◌, IsTrue, length, map, pos, slice_index_or, slice_set, Ok, Err, IfOk, IfErr};
ghost use Rattle.mh_design.specs.Values.{Signals as Seen, limits_of};
ghost use Rattle.mh_design.specs.WellFormed.{is_well_formed};
ghost use Rattle.mh_design.specs.Assignments.{next_set, part_set};
ghost use Rattle.mh_design.specs.Deltas as spec;
ghost use Rattle.mh_signals.specs.Holding.{held};
ghost use Rattle.mh_signals.specs.Seen.{limits_seen};
ghost use Rattle.mh_signals.specs.Woken.{woken_with};

use crate::limits::Limits;
use crate::part::part_taken;
use crate::room::rooms;
use crate::start::{all_limits, initial_values, woken_waiters};
use crate::waiter::Waiter;
use mh_design::{Design, Wait};
use mh_num::OutOfBounds;
use mh_text::Memory;
use std::alloc::Global;
use std::marker::Model;

/// The signals of a run, elements of memories included, by their numbers, and what each generator
/// waits for. The value of an item of an enum is its code.
#[derive(Drop)]
pub struct Signals {
    limits: Vec<Limits>,
    values: Vec<i128>,
    pending: Vec<i128>,
    waiters: Vec<Waiter>,
}

impl Model for Signals {
    ghost Value = { Seen };

    ghost view = { λ s. record { limits = map limits_seen s.limits.items; values = s.values.items; pending = s.pending.items; waiters = s.waiters.items } };

    ghost invariant = { λ s. (length s.limits.items ≡ length s.values.items) × (length s.pending.items ≡ length s.values.items) };
}

/// Gives one of the values another value.
fn put(values: &mut Vec<i128>, at: usize, value: i128)
    requires { at < length values.old.items }
    ensures { values.new.items ≡ slice_set values.old.items at value }
{
    values[at] = value;
}

/// All generators look whether one of their waits has happened.
fn wake(waiters: &mut Vec<Waiter>, old: &[i128], new: &[i128])
    ensures { waiters.new.items ≡ map (spec.woken_by old.now new.now) waiters.old.items }
{
    for waiter in waiters.iter_mut() {
        waiter.look(old, new);
    }
}

/// The signals take their pending values. Says whether one differs from the value before.
fn take(values: &mut [i128], pending: &[i128]) -> bool
    requires { length pending.now ≡ length values.old }
    ensures taken { values.new ≡ pending.now }
    ensures changed { result ≡ spec.differ values.old pending.now }
{
    let changed = differ(values, pending);
    values.copy_from_slice(pending);
    changed
}

/// Two lists of values differ.
fn differ(old: &[i128], new: &[i128]) -> bool
    requires { length new.now ≡ length old.now }
    ensures { result ≡ spec.differ old.now new.now }
{
    for at in 0..old.len() {
        if old[at] != new[at] {
            return true;
        }
    }
    false
}

impl Signals {
    /// The signals as a run starts, with this room for the waits of each generator.
    fn with_rooms(alloc: Global, d: &Design, rooms: &[usize]) -> Result<Signals, Memory>
        requires { IsTrue (is_well_formed d.now) }
        ensures { IfOk result (λ s. s ≡ record { limits = map (λ x. limits_of d.now x.kind) d.now.signals; values = map (λ x. x.init) d.now.signals; pending = map (λ x. x.init) d.now.signals; waiters = map woken_with rooms.now }) }
    {
        Ok(Signals {
            limits: all_limits(alloc, d)?,
            values: initial_values(alloc, d)?,
            pending: initial_values(alloc, d)?,
            waiters: woken_waiters(alloc, rooms)?,
        })
    }

    /// The signals of a design as a run starts: the initial values, nothing pending, and every
    /// generator woken. This call alone takes memory.
    pub fn new(alloc: Global, d: &Design) -> Result<Signals, Memory>
        requires { IsTrue (is_well_formed d.now) }
        ensures { IfOk result (λ s. s ≡ spec.first_signals d.now) }
    {
        let rooms = rooms(alloc, d)?;
        Signals::with_rooms(alloc, d, rooms.as_slice())
    }

    /// How many signals there are, elements of memories included.
    pub fn count(&self) -> usize
        ensures { result ≡ length self.now.values }
    {
        self.values.len()
    }

    /// How many generators there are.
    pub fn generators(&self) -> usize
        ensures { result ≡ length self.now.waiters }
    {
        self.waiters.len()
    }

    /// A value is pending that differs from the current one.
    pub fn is_pending(&self) -> bool
        ensures { result ≡ spec.is_pending self.now }
    {
        differ(self.values.as_slice(), self.pending.as_slice())
    }

    /// What the generator waits for.
    pub fn waits(&self, g: u32) -> &[Wait]
        requires { g < length self.now.waiters }
        ensures { result.now ≡ (spec.waiter_at self.now g).waits }
    {
        self.waiters[g as usize].waits()
    }

    /// Gives a signal the value that it has from before the start. An `OutOfBounds` comes exactly
    /// where the value is outside the signal's bounds and they don't wrap, and changes nothing.
    pub fn hold(&mut self, s: u32, v: i128) -> Result<(), OutOfBounds>
        requires { s < length self.old.values }
        ensures ok { IfOk result (λ _. held self.old s v ≡ Ok self.new) }
        ensures err { IfErr result (λ e. (held self.old s v ≡ Err e) × (self.new ≡ self.old)) }
    {
        let taken = self.limits[s as usize].take(v);
        match taken {
            Ok(first) => {
                put(&mut self.values, s as usize, first);
                put(&mut self.pending, s as usize, first);
                Ok(())
            }
            Err(outside) => Err(outside),
        }
    }

    /// For how many waits of a generator there is room.
    pub fn room(&self, g: u32) -> usize
        requires { g < length self.now.waiters }
        ensures { result ≡ (spec.waiter_at self.now g).room }
    {
        self.waiters[g as usize].room()
    }

    /// The current value of a signal.
    pub fn value(&self, s: u32) -> i128
        requires { s < length self.now.values }
        ensures { result ≡ slice_index_or self.now.values s (pos 0) }
    {
        self.values[s as usize]
    }

    /// `s.next = v`: the signal has the value at the end of the delta. An `OutOfBounds` comes
    /// exactly where the value is outside the signal's bounds and they don't wrap, and changes
    /// nothing.
    pub fn set_next(&mut self, s: u32, v: i128) -> Result<(), OutOfBounds>
        requires { s < length self.old.values }
        ensures ok { IfOk result (λ _. next_set self.old s v ≡ Ok self.new) }
        ensures err { IfErr result (λ e. (next_set self.old s v ≡ Err e) × (self.new ≡ self.old)) }
    {
        match self.limits[s as usize].take(v) {
            Ok(next) => {
                put(&mut self.pending, s as usize, next);
                Ok(())
            }
            Err(outside) => Err(outside),
        }
    }

    /// `s.next[i:j] = v`: the bits `i - 1` down to `j` of the pending value, which is the current
    /// one where nothing was assigned in this delta. An `OutOfBounds` comes exactly where the value
    /// doesn't fit these bits, or else the whole is outside the signal's bounds and they don't wrap,
    /// and changes nothing.
    pub fn set_part(&mut self, s: u32, i: u8, j: u8, v: i128) -> Result<(), OutOfBounds>
        requires there { s < length self.old.values }
        requires some { j < i }
        requires places { i ≤ 127 }
        ensures ok { IfOk result (λ _. part_set self.old s i j v ≡ Ok self.new) }
        ensures err { IfErr result (λ e. (part_set self.old s i j v ≡ Err e) × (self.new ≡ self.old)) }
    {
        match part_taken(&self.limits[s as usize], i, j, self.pending[s as usize], v) {
            Ok(next) => {
                put(&mut self.pending, s as usize, next);
                Ok(())
            }
            Err(outside) => Err(outside),
        }
    }

    /// Ends the delta: all pending values are taken, and the generators that wait for what changed
    /// are woken. Answers whether a value changed.
    pub fn update(&mut self) -> bool
        ensures changed { result ≡ spec.is_pending self.old }
        ensures taken { self.new ≡ spec.updated self.old }
    {
        wake(
            &mut self.waiters,
            self.values.as_slice(),
            self.pending.as_slice(),
        );
        take(self.values.as_mut_slice(), self.pending.as_slice())
    }

    /// The generator waits from now on for these, and isn't woken.
    pub fn wait(&mut self, g: u32, w: &[Wait])
        requires there { g < length self.old.waiters }
        requires room { length w.now ≤ (spec.waiter_at self.old g).room }
        ensures { self.new ≡ spec.waiting self.old g w.now }
    {
        self.waiters[g as usize].wait(w);
    }

    /// The generator is woken: the run starts, or one of its waits has happened since it began to
    /// wait.
    pub fn woken(&self, g: u32) -> bool
        requires { g < length self.now.waiters }
        ensures { result ≡ (spec.waiter_at self.now g).woken }
    {
        self.waiters[g as usize].is_woken()
    }
}
