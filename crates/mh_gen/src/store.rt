// What evaluations see.
ghost use Rattle.std.specs.Prelude.{◌≡◌, ◌≤◌, ◌<◌, ◌+◌, ◌-◌, ℕ, IsTrue, nat_lt, length, pos, slice_index_or, Ok, Err, IfOk, IfErr, unsigned_abs};
ghost use Rattle.std.specs.List.{list_all};
ghost use Rattle.mh_design.specs.Values as spec;
ghost use Rattle.mh_design.specs.Values.{Store as Seen};
ghost use Rattle.mh_design.specs.Uses.{cells_of};
ghost use Rattle.mh_design.specs.Assignments as assignment;
ghost use Rattle.mh_design.specs.Deltas as delta;
ghost use Rattle.mh_signals.specs.Holding.{held};
ghost use Rattle.mh_gen.specs.Answers.{Assigns, IsThere, IsNarrow, local_result};
ghost use Rattle.mh_gen.specs.Seen.{form_seen, spot_seen};
ghost use Rattle.mh_gen.specs.Total as total;

use crate::fault::Fault;
use crate::form::Form;
use crate::held::Held;
use crate::indices::{Ends, index_below, slice_ends};
use crate::operand::Operand;
use crate::spot::Spot;
use mh_design::{Binding, Design, Wait, enum_fits, item_code};
use mh_num::OutOfBounds;
use mh_signals::Signals;
use sqlite_items::Items;
use std::marker::Model;
use std::mem::swap;

/// What an evaluation sees: the signals, the locals of its generator by their numbers, and the time
/// of the run.
#[derive(Drop)]
pub struct Store<'a> {
    design: &'a Design,
    signals: Signals,
    locals: Items<Held>,
    time: u64,
}

impl<'a> Model for Store<'a> {
    ghost use Rattle.mh_design.specs.Values.{Store as Seen};
    ghost use Rattle.mh_design.specs.contracts.statement.GStmt as e;
    ghost use Rattle.std.specs.Coded.{codes};

    ghost Value = { Seen };

    ghost coded = { Prim.hlevel (codes, e.the_row.coded) };

    ghost view = { λ s. record { design = s.design.now; signals = s.signals; locals = s.locals; time = s.time } };
}

/// The elements of a memory.
fn cells(d: &Design, mem: u32) -> &[u32]
    ensures { result.now ≡ cells_of d.now mem }
{
    match d.mems.get(mem as usize) {
        Some(x) => x.cells.as_slice(),
        None => &[],
    }
}

/// The values of a table.
fn table(d: &Design, number: u32) -> &[i128]
    ensures { result.now ≡ spec.table_values d.now number }
{
    match d.tables.get(number as usize) {
        Some(x) => x.values.as_slice(),
        None => &[],
    }
}

/// The number of the element of a memory at an index.
pub fn cell(d: &Design, mem: u32, i: i128) -> Result<u32, Fault>
    ensures exact { result ≡ spec.indexed i (length (cells_of d.now mem)) (Ok (slice_index_or (cells_of d.now mem) (unsigned_abs i) 0)) }
    ensures there { (n : ℕ) → IsTrue (list_all (λ c. nat_lt c n) (cells_of d.now mem)) → IfOk result (λ c. c < n) }
{
    let all = cells(d, mem);
    let place = index_below(i, all.len())?;
    Ok(all[place])
}

/// The element of a table at an index.
pub fn table_element(d: &Design, number: u32, i: i128) -> Result<Operand, Fault>
    ensures { result ≡ spec.indexed i (length (spec.table_values d.now number)) (Ok (spec.integer (slice_index_or (spec.table_values d.now number) (unsigned_abs i) (pos 0)))) }
{
    let all = table(d, number);
    let place = index_below(i, all.len())?;
    Ok(Operand::integer(all[place]))
}

/// An item is one of an enum whose codes have at most 127 bits.
fn is_item(d: &Design, of: u32, item: u32) -> bool
    ensures { result ≡ assignment.item_is_there d.now of item }
{
    match d.enums.get(of as usize) {
        Some(x) => (item as usize) < x.names.len() && enum_fits(x),
        None => false,
    }
}

/// The value of an item of an enum.
fn item_value(d: &Design, of: u32, item: u32) -> i128
    requires { IsTrue (assignment.item_is_there d.now of item) }
    ensures { result ≡ spec.item_value d.now of item }
{
    match d.enums.get(of as usize) {
        Some(x) => item_code(x.encoding, x.names.len(), item as usize),
        None => 0,
    }
}

/// The value of an item of an enum, and 0 for a number that names none.
pub fn item_or_zero(d: &Design, of: u32, item: u32) -> i128
    ensures { result ≡ total.item_or_zero d.now of item }
{
    if is_item(d, of, item) {
        item_value(d, of, item)
    } else {
        0
    }
}

/// How a signal is read.
fn signal_form(d: &Design, n: u32) -> Form
    ensures exact { form_seen result ≡ spec.signal_form d.now n }
    ensures narrow { spec.bits_of (form_seen result) ≤ 127 }
{
    match d.signals.get(n as usize) {
        Some(x) => Form::of_kind(&x.kind),
        None => Form::Integer,
    }
}

impl<'a> Store<'a> {
    /// A store of these.
    pub fn new(design: &'a Design, signals: Signals, locals: Items<Held>, time: u64) -> Store<'a>
        ensures { result ≡ record { design = design.now; signals = signals; locals = locals; time = time } }
    {
        Store {
            design,
            signals,
            locals,
            time,
        }
    }

    /// The design.
    pub fn design(&self) -> &'a Design
        ensures { result.now ≡ self.now.design }
    {
        self.design
    }

    /// The time of the run.
    pub fn time(&self) -> u64
        ensures { result ≡ self.now.time }
    {
        self.time
    }

    /// The current value of a signal, and 0 for a number that names none.
    pub fn signal_value(&self, n: u32) -> i128
        ensures { result ≡ spec.signal_value self.now n }
    {
        if (n as usize) < self.signals.count() {
            self.signals.value(n)
        } else {
            0
        }
    }

    /// The current value of a signal, with its width.
    pub fn signal_operand(&self, n: u32) -> Operand
        ensures { result ≡ spec.signal_operand self.now n }
    {
        Operand::read(self.signal_value(n), signal_form(self.design, n))
    }

    /// How many locals there are.
    fn local_count(&self) -> usize
        ensures { result ≡ length self.now.locals }
    {
        self.locals.len()
    }

    /// The value of a local, with its width at the moment; a number that names none counts as 0.
    #[tactic(auto, using(crate::proofs::Assigning::outside_laws))]
    pub fn local_operand(&self, n: u32) -> Operand
        ensures { result ≡ spec.held_operand (spec.local_at self.now n) }
    {
        if (n as usize) < self.local_count() {
            self.local(n).operand()
        } else {
            Operand::integer(0)
        }
    }

    /// A local.
    pub fn local(&self, n: u32) -> &Held
        requires { n < length self.now.locals }
        ensures { result.now ≡ spec.local_at self.now n }
    {
        &self.locals.as_slice()[n as usize]
    }

    /// How many bits what an assignment goes to has.
    fn width(&self, spot: Spot) -> u8
        requires { IsThere self.now (spot_seen spot) }
        ensures exact { result ≡ assignment.spot_width self.now (spot_seen spot) }
        ensures narrow { result ≤ 127 }
    {
        match spot {
            Spot::Signal(n) => signal_form(self.design, n).bits(),
            Spot::Local(n) => self.local(n).form().bits(),
        }
    }

    /// `s.next = v`
    fn set_signal(&mut self, n: u32, v: i128) -> Result<(), Fault>
        requires { n < length self.old.signals.values }
        ensures { Assigns result self.old self.new (assignment.with_signals self.old (assignment.next_set self.old.signals n v)) }
    {
        match self.signals.set_next(n, v) {
            Ok(()) => Ok(()),
            Err(outside) => Err(Fault::range(outside)),
        }
    }

    /// `s.next[i:j] = v`
    fn set_signal_part(&mut self, n: u32, e: Ends, v: i128) -> Result<(), Fault>
        requires there { n < length self.old.signals.values }
        requires some { e.lower < e.upper }
        requires places { e.upper ≤ 127 }
        ensures { Assigns result self.old self.new (assignment.with_signals self.old (assignment.part_set self.old.signals n e.upper e.lower v)) }
    {
        match self.signals.set_part(n, e.upper, e.lower, v) {
            Ok(()) => Ok(()),
            Err(outside) => Err(Fault::range(outside)),
        }
    }

    /// A local is another one, or the fault is kept.
    fn set_local(&mut self, n: u32, held: Result<Held, Fault>) -> Result<(), Fault>
        requires { n < length self.old.locals }
        ensures { Assigns result self.old self.new (local_result self.old n held) }
    {
        match held {
            Ok(held) => {
                self.locals.set(n as usize, held);
                Ok(())
            }
            Err(fault) => Err(fault),
        }
    }

    /// What a local becomes that takes a value, or the fault.
    fn taken(&self, n: u32, v: i128) -> Result<Held, Fault>
        requires { n < length self.now.locals }
        ensures { local_result self.now n result ≡ assignment.whole_assigned self.now v (assignment.LocalSpot n) }
    {
        self.local(n).take(v)
    }

    /// Gives a spot a value.
    pub fn set(&mut self, spot: Spot, v: i128) -> Result<(), Fault>
        requires { IsThere self.old (spot_seen spot) }
        ensures { Assigns result self.old self.new (assignment.whole_assigned self.old v (spot_seen spot)) }
    {
        match spot {
            Spot::Signal(n) => self.set_signal(n, v),
            Spot::Local(n) => {
                let held = self.taken(n, v);
                self.set_local(n, held)
            }
        }
    }

    /// Gives a part of a spot a value.
    #[tactic(auto, using(crate::proofs::Assigning::held_laws))]
    fn set_part(&mut self, spot: Spot, e: Ends, v: i128) -> Result<(), Fault>
        requires there { IsThere self.old (spot_seen spot) }
        requires some { e.lower < e.upper }
        requires places { e.upper ≤ 127 }
        ensures { Assigns result self.old self.new (assignment.part_assigned self.old v (spot_seen spot) e.upper e.lower) }
    {
        match spot {
            Spot::Signal(n) => self.set_signal_part(n, e, v),
            Spot::Local(n) => {
                let held = self.local(n).take_part(e.upper, e.lower, v);
                self.set_local(n, held)
            }
        }
    }

    /// Gives one bit of a spot a value.
    pub fn set_bit(&mut self, spot: Spot, i: i128, v: i128) -> Result<(), Fault>
        requires { IsThere self.old (spot_seen spot) }
        ensures { Assigns result self.old self.new (assignment.bit_assigned self.old v (spot_seen spot) i) }
    {
        let width = self.width(spot);
        let lower = index_below(i, width as usize)? as u8;
        self.set_part(
            spot,
            Ends {
                upper: lower + 1,
                lower,
            },
            v,
        )
    }

    /// Gives the bits `i - 1` down to `j` of a spot a value.
    pub fn set_slice(&mut self, spot: Spot, i: i128, j: i128, v: i128) -> Result<(), Fault>
        requires { IsThere self.old (spot_seen spot) }
        ensures { Assigns result self.old self.new (assignment.slice_assigned self.old v (spot_seen spot) i j) }
    {
        let width = self.width(spot);
        let e = slice_ends(i, j, width)?;
        self.set_part(spot, e, v)
    }

    /// What a local becomes that is bound to a value, or the fault.
    #[tactic(auto, using(crate::proofs::Assigning::held_laws))]
    fn bound(&self, n: u32, binding: Binding, v: i128) -> Result<Held, Fault>
        requires there { n < length self.now.locals }
        requires narrow { IsNarrow binding }
        ensures { local_result self.now n result ≡ assignment.bound_to self.now n binding v }
    {
        match binding {
            Binding::Plain => Ok(self.local(n).given(v)),
            Binding::Bounded(b) => Held::bounded(b, v),
            Binding::LowBits(k, wraps) => Ok(Held::low(k, wraps, v)),
        }
    }

    /// `v = e`: a local is bound to a value.
    pub fn bind(&mut self, n: u32, binding: Binding, v: i128) -> Result<(), Fault>
        requires there { n < length self.old.locals }
        requires narrow { IsNarrow binding }
        ensures { Assigns result self.old self.new (assignment.bound_to self.old n binding v) }
    {
        let held = self.bound(n, binding, v);
        self.set_local(n, held)
    }

    /// The variable of a loop has its next number.
    pub fn count(&mut self, n: u32, v: i128)
        requires { n < length self.old.locals }
        ensures { self.new ≡ assignment.set_local self.old n (record { value = v; limits = (spec.local_at self.old n).limits }) }
    {
        let held = self.local(n).given(v);
        self.locals.set(n as usize, held);
    }
}

// What a run does between evaluations.
impl<'a> Store<'a> {
    /// The signals.
    pub fn signals(&self) -> &Signals
        ensures { result.now ≡ self.now.signals }
    {
        &self.signals
    }

    /// Takes the locals of another generator, and gives back those that it had.
    pub fn swap_locals(&mut self, locals: &mut Items<Held>)
        ensures taken { self.new ≡ record self.old { locals = locals.old } }
        ensures given { locals.new ≡ self.old.locals }
    {
        swap(&mut self.locals, locals);
    }

    /// The time goes on.
    pub fn set_time(&mut self, time: u64)
        ensures { self.new ≡ record self.old { time = time } }
    {
        self.time = time;
    }

    /// Gives a signal the value that it has from before the start.
    pub fn hold(&mut self, n: u32, v: i128) -> Result<(), OutOfBounds>
        requires { n < length self.old.signals.values }
        ensures ok { IfOk result (λ _. held self.old.signals n v ≡ Ok self.new.signals) }
        ensures err { IfErr result (λ e. (held self.old.signals n v ≡ Err e) × (self.new.signals ≡ self.old.signals)) }
        ensures rest { self.new ≡ record self.old { signals = self.new.signals } }
    {
        self.signals.hold(n, v)
    }

    /// Makes a value of a signal pending.
    pub fn set_next(&mut self, n: u32, v: i128) -> Result<(), OutOfBounds>
        requires { n < length self.old.signals.values }
        ensures ok { IfOk result (λ _. assignment.next_set self.old.signals n v ≡ Ok self.new.signals) }
        ensures err { IfErr result (λ e. (assignment.next_set self.old.signals n v ≡ Err e) × (self.new.signals ≡ self.old.signals)) }
        ensures rest { self.new ≡ record self.old { signals = self.new.signals } }
    {
        self.signals.set_next(n, v)
    }

    /// A generator waits from now on for these, and isn't woken.
    pub fn wait(&mut self, g: u32, w: &[Wait])
        requires there { g < length self.old.signals.waiters }
        requires room { length w.now ≤ (delta.waiter_at self.old.signals g).room }
        ensures { self.new ≡ record self.old { signals = delta.waiting self.old.signals g w.now } }
    {
        self.signals.wait(g, w);
    }

    /// Ends a delta. Answers whether a value changed.
    pub fn update(&mut self) -> bool
        ensures changed { result ≡ delta.is_pending self.old.signals }
        ensures taken { self.new ≡ record self.old { signals = delta.updated self.old.signals } }
    {
        self.signals.update()
    }
}
