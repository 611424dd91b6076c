// What a generator waits for.
ghost use Rattle.std.specs.Prelude.{◌≡◌, ◌≤◌, pos, slice_index_or, [], length, true, IfOk, vec_capacity};
ghost use Rattle.std.specs.List.{list_any};
ghost use Rattle.mh_design.specs.Values.{Waiter as Seen};
ghost use Rattle.mh_design.specs.Deltas as spec;

use mh_design::Wait;
use std::alloc::{AllocError, Global};
use std::marker::Model;

/// The value of a signal, by its number.
pub fn value_at(values: &[i128], signal: u32) -> i128
    ensures { result ≡ slice_index_or values.now signal (pos 0) }
{
    match values.get(signal as usize) {
        Some(value) => *value,
        None => 0,
    }
}

/// The signal has another value than before.
fn has_changed(old: &[i128], new: &[i128], signal: u32) -> bool
    ensures { result ≡ spec.has_changed old.now new.now signal }
{
    value_at(old, signal) != value_at(new, signal)
}

/// The wait has happened between the old values and the new.
fn has_happened(old: &[i128], new: &[i128], wait: Wait) -> bool
    ensures { result ≡ spec.has_happened old.now new.now wait }
{
    match wait {
        Wait::Change(signal) => has_changed(old, new, signal),
        Wait::Edge(signal, up) => {
            has_changed(old, new, signal) && value_at(new, signal) == up as i128
        }
        Wait::Delay(_) => false,
    }
}

/// One of the waits has happened.
fn some_has_happened(old: &[i128], new: &[i128], waits: &[Wait]) -> bool
    ensures { result ≡ list_any (spec.has_happened old.now new.now) waits.now }
{
    for wait in waits {
        if has_happened(old, new, *wait) {
            return true;
        }
    }
    false
}

/// What a generator waits for, with room for as many waits as it ever has at one time.
#[derive(Drop)]
pub struct Waiter {
    waits: Vec<Wait>,
    room: usize,
    woken: bool,
}

impl Model for Waiter {
    ghost Value = { Seen };

    ghost view = { λ w. record { room = w.room; waits = w.waits.items; woken = w.woken } };

    ghost invariant = { λ w. w.room ≤ vec_capacity w.waits };
}

impl Waiter {
    /// One that is woken, and waits for nothing.
    pub fn new(alloc: Global, room: usize) -> Result<Waiter, AllocError>
        ensures { IfOk result (λ w. w ≡ record { room = room; waits = []; woken = true }) }
    {
        Ok(Waiter {
            waits: Vec::with_capacity(alloc, room)?,
            room,
            woken: true,
        })
    }

    /// For how many waits there is room.
    pub fn room(&self) -> usize
        ensures { result ≡ self.now.room }
    {
        self.room
    }

    /// What it waits for.
    pub fn waits(&self) -> &[Wait]
        ensures { result.now ≡ self.now.waits }
    {
        self.waits.as_slice()
    }

    /// One of its waits has happened since it began to wait.
    pub fn is_woken(&self) -> bool
        ensures { result ≡ self.now.woken }
    {
        self.woken
    }

    /// Waits from now on for these.
    pub fn wait(&mut self, waits: &[Wait])
        requires { length waits.now ≤ self.old.room }
        ensures { self.new ≡ spec.waits_anew waits.now self.old }
    {
        self.waits.clear();
        self.waits.extend_from_slice(waits).unwrap();
        self.woken = false;
    }

    /// Is woken where one of its waits has happened between the old values and the new.
    pub fn look(&mut self, old: &[i128], new: &[i128])
        ensures { self.new ≡ spec.woken_by old.now new.now self.old }
    {
        if !self.woken {
            self.woken = some_has_happened(old, new, self.waits.as_slice());
        }
    }
}
