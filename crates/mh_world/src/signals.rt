// What `Signal`, `ResetSignal`, `enum` and `delay` make.
ghost use Rattle.std.specs.Prelude.{◌≡◌, IfOk, map, option_copied};
ghost use Rattle.std.specs.Option.{option_map};
ghost use Rattle.mh_consts.specs.Expression.{given_of, keys_of};
ghost use Rattle.mh_consts.specs.declared.kinds.Const.{out-Const};
ghost use Rattle.mh_consts.specs.Names.{lookup};
ghost use Rattle.mh_world.specs.Signals as spec;
ghost use Rattle.mh_world.specs.View.{arguments_of, content_of, world, Does, same};

use crate::arguments::{Arguments, is_word, one_positional, only, split};
use crate::fault::refuse;
use crate::state::State;
use mh_consts::{Const, Names, Shared, SignalKind, content};
use mh_design::{Design, Encoding, EnumDecl, Kind, ResetDecl, SignalDecl, enum_fits, item_code};
use mh_pytree::Argument;
use mh_text::{Code, CodeAt, Fault, Memory, Text};
use sqlite_items::Items;
use std::alloc::Global;

/// What a signal is made of.
#[derive(Clone, Copy)]
pub(crate) struct Content {
    pub values: SignalKind,
    pub kind: Kind,
    pub init: i128,
}

/// A truth value as a number.
fn number_of(b: bool) -> i128
    ensures { result ≡ spec.bit_number b }
{
    if b { 1 } else { 0 }
}

/// What a signal of truth values is made of.
fn truth_content(b: bool) -> Content
    ensures { content_of result ≡ spec.truth_content b }
{
    Content {
        values: SignalKind::Truth,
        kind: Kind::Bool,
        init: number_of(b),
    }
}

/// What a signal of an enum's items is made of. The code of an item is its value.
#[tactic(auto, using(std::proofs::lemmas::Bool::Decides::nat_tests))]
fn item_content(n: u32, place: u32, x: Option<&EnumDecl>) -> Option<Content>
    ensures { option_map content_of result ≡ spec.item_content n place (option_copied x.entry) }
{
    let x = match x {
        None => return None,
        Some(x) => x,
    };
    let count = x.names.len();
    if place as usize >= count || !enum_fits(x) {
        return None;
    }
    Some(Content {
        values: SignalKind::Item(n),
        kind: Kind::Item(n),
        init: item_code(x.encoding, count, place as usize),
    })
}

/// What a signal of a value is made of: a truth value, an integer, a bounded number or an item of an
/// enum.
#[tactic(auto, using(mh_consts::proofs::Values::values))]
fn content_in(d: &Design, v: &Const) -> Option<Content>
    ensures { option_map content_of result ≡ spec.content_step d.now (out-Const v.now) }
{
    match v {
        Const::Truth(b) => Some(truth_content(*b)),
        Const::Int(n) => Some(Content {
            values: SignalKind::Integer,
            kind: Kind::Int,
            init: *n,
        }),
        Const::Bounded(n, b) => Some(Content {
            values: SignalKind::Bounded(*b),
            kind: Kind::Bits(*b),
            init: *n,
        }),
        Const::Item(n, place) => item_content(*n, *place, d.enums.get(*n as usize)),
        _ => None,
    }
}

/// 0, 1 or a truth value.
#[tactic(auto, using(mh_consts::proofs::Values::values))]
fn bit_in(v: &Const) -> Option<bool>
    ensures { result ≡ spec.bit_step (out-Const v.now) }
{
    match v {
        Const::Truth(b) => Some(*b),
        Const::Int(n) => {
            if *n == 0 {
                Some(false)
            } else if *n == 1 {
                Some(true)
            } else {
                None
            }
        }
        _ => None,
    }
}

/// The bit that a value is, where there is one.
fn bit_held(v: Option<&Const>) -> Option<bool>
    ensures { result ≡ spec.bit_held (option_copied v.entry) }
{
    match v {
        None => None,
        Some(v) => bit_in(v),
    }
}

/// The bit that a name is bound to.
fn bit_named(alloc: Global, named: &Names<Const>, word: &[u8]) -> Result<Option<bool>, Memory>
    ensures { IfOk result (λ b. b ≡ spec.bit_held (lookup named.now word.now)) }
{
    let name = Text::new(alloc, word)?;
    Ok(bit_held(named.find(&name)))
}

/// Whether there are two names.
#[tactic(auto, using(crate::proofs::Few::two))]
fn are_two(named: &Names<Const>) -> bool
    ensures { result ≡ spec.are_two named.now }
{
    named.value_at(1).is_some() && named.value_at(2).is_none()
}

/// The value and the reset that these bits make, if all are there.
fn reset_bits(
    v: Option<bool>,
    active: Option<bool>,
    asynchronous: Option<bool>,
) -> Option<(bool, ResetDecl)>
    ensures { result ≡ spec.reset_bits v active asynchronous }
{
    match v {
        None => None,
        Some(v) => match active {
            None => None,
            Some(active) => match asynchronous {
                None => None,
                Some(asynchronous) => Some((
                    v,
                    ResetDecl {
                        active,
                        asynchronous,
                    },
                )),
            },
        },
    }
}

/// The value and the reset that the arguments of `ResetSignal` make.
fn reset_in(alloc: Global, given: &Arguments) -> Result<Option<(bool, ResetDecl)>, Memory>
    ensures { IfOk result (λ x. x ≡ spec.reset_in (arguments_of given.now)) }
{
    if !are_two(&given.named) {
        return Ok(None);
    }
    let active = bit_named(alloc, &given.named, b"active")?;
    let asynchronous = bit_named(alloc, &given.named, b"isasync")?;
    Ok(reset_bits(bit_held(only(given.positional)), active, asynchronous))
}

/// The string that a value is, lent.
#[tactic(auto, using(mh_consts::proofs::Values::values))]
fn text_in(v: &Const) -> Option<&Text>
    ensures { option_copied result ≡ spec.text_step (out-Const v.now) }
{
    match v {
        Const::Str(t) => Some(t),
        _ => None,
    }
}

/// The strings that values are, if all are such.
fn texts(alloc: Global, vs: &[Const]) -> Result<Option<Items<Text>>, Memory>
    ensures { IfOk result (λ ts. ts ≡ spec.texts vs.now) }
{
    let mut all = Items::new(alloc);
    for v in vs {
        match text_in(v) {
            Some(t) => all.push(t.copy(alloc)?)?,
            None => return Ok(None),
        }
    }
    Ok(Some(all))
}

/// Whether no text comes twice.
fn all_differ(alloc: Global, ts: &[Text]) -> Result<bool, Memory>
    ensures { IfOk result (λ b. b ≡ spec.all_differ ts.now) }
{
    let mut met = Names::new(alloc);
    for t in ts {
        if met.find(t).is_some() {
            return Ok(false);
        }
        met.bind(t.copy(alloc)?, true)?;
    }
    Ok(true)
}

/// The encoding of a name.
fn encoding_of(t: &Text) -> Option<Encoding>
    ensures { result ≡ spec.encoding_of t.now }
{
    if is_word(t, b"binary") {
        Some(Encoding::Binary)
    } else if is_word(t, b"one_hot") {
        Some(Encoding::OneHot)
    } else if is_word(t, b"one_cold") {
        Some(Encoding::OneCold)
    } else {
        None
    }
}

/// The encoding that a value names.
fn encoding_held(v: &Const) -> Option<Encoding>
    ensures { result ≡ spec.encoding_held v.now }
{
    match text_in(v) {
        Some(t) => encoding_of(t),
        None => None,
    }
}

/// The encoding among the arguments by name: `encoding=` alone may be given, and is binary otherwise.
#[tactic(auto, using(crate::proofs::Few::encoding_first))]
fn encoding_in(named: &Names<Const>) -> Option<Encoding>
    ensures { result ≡ spec.encoding_in named.now }
{
    let Some(v) = named.value_at(0) else {
        return Some(Encoding::Binary);
    };
    let Some(t) = named.name_at(0) else {
        return None;
    };
    if named.value_at(1).is_none() && is_word(t, b"encoding") {
        encoding_held(v)
    } else {
        None
    }
}

/// Texts once more.
fn copy_all(alloc: Global, ts: &[Text]) -> Result<Items<Text>, Memory>
    ensures { IfOk result (λ all. all ≡ ts.now) }
{
    let mut all = Items::new(alloc);
    for t in ts {
        all.push(t.copy(alloc)?)?;
    }
    Ok(all)
}

/// A delay of so many time steps.
fn delay_of(n: i128) -> Result<Const, Code>
    ensures { result ≡ spec.delay_of n }
{
    if 1 <= n && n <= 2147483647 {
        Ok(Const::Delay(n as u32))
    } else {
        Err(Code::E4BadRange)
    }
}

/// The delay of a value.
fn delay_held(v: &Const) -> Result<Const, Code>
    ensures { result ≡ spec.delay_held v.now }
{
    let n = content(v)?;
    delay_of(n)
}

impl<'a> State<'a> {
    /// `delay(n)`
    pub(crate) fn make_delay(
        &self,
        line: u32,
        arguments: &[Argument],
        values: &[Const],
    ) -> Result<Const, Fault<CodeAt>>
        ensures { Does same (spec.make_delay line (keys_of (map given_of arguments.now)) values.now (world self.now)) result (world self.now) }
    {
        match one_positional(arguments, values) {
            Some(v) => match delay_held(v) {
                Ok(delay) => Ok(delay),
                Err(code) => refuse(code, line),
            },
            None => refuse(Code::E3BadArguments, line),
        }
    }

    /// Makes a signal, by the statement at a line.
    fn new_signal(
        &mut self,
        alloc: Global,
        line: u32,
        x: Content,
        reset: Option<ResetDecl>,
    ) -> Result<Const, Fault<CodeAt>>
        ensures { Does same (spec.new_signal line (content_of x) reset (world self.old)) result (world self.new) }
    {
        let n = self.design.signals.len();
        if n > 4294967295 {
            return Err(Fault::Memory);
        }
        self.design.signals.push(SignalDecl {
            path: Text::new(alloc, b"")?,
            kind: x.kind,
            init: x.init,
            reset,
            line,
        })?;
        self.marks.signals.push(None)?;
        Ok(Const::Signal(n as u32, x.values))
    }

    /// `Signal(x)`
    pub(crate) fn make_signal(
        &mut self,
        alloc: Global,
        line: u32,
        arguments: &[Argument],
        values: &[Const],
    ) -> Result<Const, Fault<CodeAt>>
        ensures { Does same (spec.make_signal line (keys_of (map given_of arguments.now)) values.now (world self.old)) result (world self.new) }
    {
        match one_positional(arguments, values) {
            Some(v) => match content_in(&self.design, v) {
                Some(x) => self.new_signal(alloc, line, x, None),
                None => refuse(Code::E3BadArguments, line),
            },
            None => refuse(Code::E3BadArguments, line),
        }
    }

    /// `ResetSignal(v, active=a, isasync=f)`
    pub(crate) fn make_reset(
        &mut self,
        alloc: Global,
        line: u32,
        arguments: &[Argument],
        values: &[Const],
    ) -> Result<Const, Fault<CodeAt>>
        ensures { Does same (spec.make_reset line (keys_of (map given_of arguments.now)) values.now (world self.old)) result (world self.new) }
    {
        let Some(given) = split(alloc, arguments, values)? else {
            return refuse(Code::E3BadArguments, line);
        };
        match reset_in(alloc, &given)? {
            Some((v, reset)) => self.new_signal(alloc, line, truth_content(v), Some(reset)),
            None => refuse(Code::E3BadArguments, line),
        }
    }

    /// Makes an enum of these items.
    fn new_enum(
        &mut self,
        alloc: Global,
        line: u32,
        names: Items<Text>,
        encoding: Encoding,
    ) -> Result<Const, Fault<CodeAt>>
        ensures { Does same (spec.new_enum line names encoding (world self.old)) result (world self.new) }
    {
        let n = self.design.enums.len();
        if n > 4294967295 {
            return Err(Fault::Memory);
        }
        let held = copy_all(alloc, names.as_slice())?;
        let declared = EnumDecl { names, encoding };
        if !enum_fits(&declared) {
            return refuse(Code::E5TooWide, line);
        }
        self.design.enums.push(declared)?;
        Ok(Const::EnumType(n as u32, Shared::new(alloc, held)?))
    }

    /// Makes an enum of these items, of which there is at least one and which differ.
    fn enum_items(
        &mut self,
        alloc: Global,
        line: u32,
        names: Items<Text>,
        encoding: Encoding,
    ) -> Result<Const, Fault<CodeAt>>
        ensures { Does same (spec.enum_items line names encoding (world self.old)) result (world self.new) }
    {
        if names.len() == 0 {
            return refuse(Code::E3BadArguments, line);
        }
        if !all_differ(alloc, names.as_slice())? {
            return refuse(Code::E3BadArguments, line);
        }
        self.new_enum(alloc, line, names, encoding)
    }

    /// `enum('A', 'B', encoding='binary')`
    pub(crate) fn make_enum(
        &mut self,
        alloc: Global,
        line: u32,
        arguments: &[Argument],
        values: &[Const],
    ) -> Result<Const, Fault<CodeAt>>
        ensures { Does same (spec.make_enum line (keys_of (map given_of arguments.now)) values.now (world self.old)) result (world self.new) }
    {
        let Some(given) = split(alloc, arguments, values)? else {
            return refuse(Code::E3BadArguments, line);
        };
        let Some(names) = texts(alloc, given.positional)? else {
            return refuse(Code::E3BadArguments, line);
        };
        match encoding_in(&given.named) {
            Some(encoding) => self.enum_items(alloc, line, names, encoding),
            None => refuse(Code::E3BadArguments, line),
        }
    }
}
