//! Which flat designs are those of a gate, and the gates that they are.

ghost use Rattle.std.specs.Prelude.{◌≡◌, ◌||◌, map, IfOk, nat_lt};
ghost use Rattle.std.specs.List.{list_all};
ghost use Rattle.mh_design.specs.Numbering.{body_of};
ghost use Rattle.mh_design.specs.Tree.{expression_of, left_of, statement_of, block};
ghost use Rattle.mh_gate.specs.Gate as spec;

use crate::design::{Design, GStmt, GenKind, Generator, Kind, SignalDecl};
use crate::expression::GExpr;
use crate::names::is_taken;
use mh_design as flat;
use mh_design::{BinaryOp, Place, Target, UnaryOp};
use mh_text::{Memory, Text};
use sqlite_items::Items;
use std::alloc::Global;

/// What a generator drives, and by which gate.
#[derive(Debug, Drop)]
pub(crate) struct Driven {
    /// The generator's path.
    pub function: Text,
    /// The number of the signal.
    pub target: u32,
    pub value: GExpr,
}

// ---- the right side

/// The signal that an expression is.
#[tactic(auto, using(mh_design::proofs::Shapes::shapes))]
fn signal_in(e: &flat::GExpr) -> Option<u32>
    ensures { result ≡ spec.signal_in (expression_of e.now) }
{
    match e {
        flat::GExpr::Signal(n) => Some(*n),
        flat::GExpr::Integer(_) | flat::GExpr::Truth(_) | flat::GExpr::Item(_, _) => None,
        flat::GExpr::Fixed(_, _) | flat::GExpr::Local(_) | flat::GExpr::Now => None,
        flat::GExpr::Element(_, _) | flat::GExpr::TableElement(_, _) => None,
        flat::GExpr::Bit(_, _) | flat::GExpr::Slice(_, _, _) => None,
        flat::GExpr::Unary(_, _) | flat::GExpr::Binary(_, _, _) => None,
        flat::GExpr::And(_, _) | flat::GExpr::Or(_, _) | flat::GExpr::Concat(_) => None,
        flat::GExpr::Signed(_) | flat::GExpr::Int(_) | flat::GExpr::Bool(_) => None,
    }
}

/// An operator on one signal.
fn negated(op: UnaryOp, a: Option<u32>) -> Option<GExpr>
    ensures { result ≡ spec.negated op a }
{
    match (op, a) {
        (UnaryOp::Not, Some(a)) => Some(GExpr::Not(a)),
        (UnaryOp::Not, None) => None,
        (UnaryOp::Minus | UnaryOp::Plus | UnaryOp::Invert, _) => None,
    }
}

/// An operator on two signals.
fn joined(op: BinaryOp, a: u32, b: u32) -> Option<GExpr>
    ensures { result ≡ spec.joined op a b }
{
    match op {
        BinaryOp::BitAnd => Some(GExpr::And(a, b)),
        BinaryOp::BitOr => Some(GExpr::Or(a, b)),
        BinaryOp::BitXor => Some(GExpr::Xor(a, b)),
        BinaryOp::Add | BinaryOp::Subtract | BinaryOp::Multiply | BinaryOp::Divide => None,
        BinaryOp::Remainder | BinaryOp::ShiftLeft | BinaryOp::ShiftRight => None,
        BinaryOp::Equal | BinaryOp::NotEqual | BinaryOp::Less | BinaryOp::LessEqual => None,
        BinaryOp::Greater | BinaryOp::GreaterEqual => None,
    }
}

/// An operator on two parts.
fn joined_if(op: BinaryOp, a: Option<u32>, b: Option<u32>) -> Option<GExpr>
    ensures { result ≡ spec.joined_if op a b }
{
    match (a, b) {
        (Some(a), Some(b)) => joined(op, a, b),
        (Some(_), None) | (None, _) => None,
    }
}

/// The gate that an expression is.
#[tactic(auto, using(mh_design::proofs::Shapes::shapes))]
fn gate_in(e: &flat::GExpr) -> Option<GExpr>
    ensures { result ≡ spec.gate_in (expression_of e.now) }
{
    match e {
        flat::GExpr::Signal(n) => Some(GExpr::Signal(*n)),
        flat::GExpr::Unary(op, a) => negated(*op, signal_in(a.get())),
        flat::GExpr::Binary(op, a, b) => joined_if(*op, signal_in(a.get()), signal_in(b.get())),
        flat::GExpr::Integer(_) | flat::GExpr::Truth(_) | flat::GExpr::Item(_, _) => None,
        flat::GExpr::Fixed(_, _) | flat::GExpr::Local(_) | flat::GExpr::Now => None,
        flat::GExpr::Element(_, _) | flat::GExpr::TableElement(_, _) => None,
        flat::GExpr::Bit(_, _) | flat::GExpr::Slice(_, _, _) => None,
        flat::GExpr::And(_, _) | flat::GExpr::Or(_, _) | flat::GExpr::Concat(_) => None,
        flat::GExpr::Signed(_) | flat::GExpr::Int(_) | flat::GExpr::Bool(_) => None,
    }
}

// ---- the generator

/// The signal that is assigned as a whole.
fn target_in(target: &Target) -> Option<u32>
    ensures { result ≡ spec.target_in (left_of target.now) }
{
    match target {
        Target::Whole(place) => match place {
            Place::Signal(n) => Some(*n),
            Place::Element(_, _) | Place::Local(_) => None,
        },
        Target::Bit(_, _) | Target::Slice(_, _, _) | Target::Bind(_, _) => None,
    }
}

/// A generator that drives this signal by this gate, where both are there.
fn driven_as(
    alloc: Global,
    path: &Text,
    target: Option<u32>,
    value: Option<GExpr>,
) -> Result<Option<Driven>, Memory>
    ensures { IfOk result (λ g. g ≡ spec.driven_as path.now target value) }
{
    match (target, value) {
        (Some(target), Some(value)) => Ok(Some(Driven {
            function: path.copy(alloc)?,
            target,
            value,
        })),
        (Some(_), None) | (None, _) => Ok(None),
    }
}

/// What a statement drives.
#[tactic(auto, using(mh_design::proofs::Shapes::statements))]
fn driven_by(alloc: Global, path: &Text, s: &flat::GStmt) -> Result<Option<Driven>, Memory>
    ensures { IfOk result (λ g. g ≡ spec.driven_by path.now (statement_of s.now)) }
{
    match s {
        flat::GStmt::Set { target, value, .. } => {
            driven_as(alloc, path, target_in(target), gate_in(value))
        }
        flat::GStmt::If { .. } | flat::GStmt::While { .. } | flat::GStmt::For { .. } => Ok(None),
        flat::GStmt::Break { .. } | flat::GStmt::Continue { .. } => Ok(None),
        flat::GStmt::Yield { .. } | flat::GStmt::Print { .. } => Ok(None),
        flat::GStmt::Assert { .. } | flat::GStmt::Stop { .. } => Ok(None),
    }
}

/// What a body of one statement drives.
fn driven_in(alloc: Global, path: &Text, body: &[flat::GStmt]) -> Result<Option<Driven>, Memory>
    ensures { IfOk result (λ g. g ≡ spec.driven_in path.now (block (map statement_of body.now))) }
{
    match body {
        [] => Ok(None),
        [s, rest @ ..] => match rest {
            [] => driven_by(alloc, path, s),
            [_, ..] => Ok(None),
        },
    }
}

fn is_comb(kind: &flat::GenKind) -> bool
    ensures { result ≡ spec.is_comb kind.now }
{
    match kind {
        flat::GenKind::Comb => true,
        flat::GenKind::Always(_) | flat::GenKind::Seq(_, _) | flat::GenKind::Instance => false,
    }
}

/// What a generator drives that runs after any change of what it reads.
fn driven_of(alloc: Global, g: &flat::Generator) -> Result<Option<Driven>, Memory>
    ensures { IfOk result (λ r. r ≡ spec.driven_by_generator g.now) }
{
    if is_comb(&g.kind) {
        driven_in(alloc, &g.path, g.body.as_slice())
    } else {
        Ok(None)
    }
}

/// What the one generator drives.
fn driven_alone(alloc: Global, gs: &[flat::Generator]) -> Result<Option<Driven>, Memory>
    ensures { IfOk result (λ r. r ≡ spec.driven_alone spec.driven_by_generator gs.now) }
{
    match gs {
        [] => Ok(None),
        [g, rest @ ..] => match rest {
            [] => driven_of(alloc, g),
            [_, ..] => Ok(None),
        },
    }
}

// ---- the signals

fn is_single(s: &flat::SignalDecl) -> bool
    ensures { result ≡ spec.is_single s.now }
{
    match s.kind {
        flat::Kind::Bool => true,
        flat::Kind::Int | flat::Kind::Bits(_) | flat::Kind::Item(_) => false,
    }
}

/// Whether these are the numbers from 0 on.
fn are_in_order(ports: &[u32]) -> bool
    ensures { result ≡ spec.are_from 0 ports.now }
{
    for (at, port) in ports.iter().enumerate() {
        if *port as usize != at {
            return false;
        }
    }
    true
}

/// Whether all signals are truth values.
fn are_single(signals: &[flat::SignalDecl]) -> bool
    ensures { result ≡ spec.are_single signals.now }
{
    signals.iter().all(|s| is_single(s))
}

/// Whether there are 2 to 64.
fn is_few(count: usize) -> bool
    ensures { result ≡ spec.is_few count }
{
    2 <= count && count <= 64
}

/// Whether each of so many signals is a port, in order.
fn are_ports(count: usize, ports: &[u32]) -> bool
    ensures { result ≡ spec.are_ports count ports.now }
{
    ports.len() == count && are_in_order(ports)
}

/// Whether the signals are 2 to 64 truth values and each is a port, in order, and no list of signals
/// is an argument.
fn declares_ports(d: &flat::Design) -> bool
    ensures { result ≡ spec.declares_ports d.now }
{
    let signals = d.signals.as_slice();
    is_few(signals.len())
        && are_single(signals)
        && are_ports(signals.len(), d.ports.as_slice())
        && d.listed.len() == 0
}

// ---- the names

fn is_lower(byte: u8) -> bool
    ensures { result ≡ spec.is_lower byte }
{
    matches!(byte, b'a'..=b'z')
}

fn is_digit(byte: u8) -> bool
    ensures { result ≡ spec.is_digit byte }
{
    matches!(byte, b'0'..=b'9')
}

/// Whether all bytes are lower-case letters and digits.
fn are_name_bytes(bytes: &[u8]) -> bool
    ensures { result ≡ list_all (λ byte. spec.is_lower byte || spec.is_digit byte) bytes.now }
{
    bytes.iter().all(|byte| is_lower(*byte) || is_digit(*byte))
}

/// A lower-case letter, and then lower-case letters and digits.
fn is_plain_name(name: &[u8]) -> bool
    ensures { result ≡ spec.is_plain_name name.now }
{
    match name {
        [] => false,
        [first, rest @ ..] => is_lower(*first) && are_name_bytes(rest),
    }
}

/// A name that such a design may use.
fn is_free(name: &[u8]) -> bool
    ensures { result ≡ spec.is_free name.now }
{
    is_plain_name(name) && !is_taken(name)
}

/// Whether the names of the signals may be used.
fn are_free(signals: &[flat::SignalDecl]) -> bool
    ensures { result ≡ list_all (λ s. spec.is_free s.path) signals.now }
{
    signals.iter().all(|s| is_free(s.path.bytes()))
}

/// Whether one of the signals has the name.
fn is_among(signals: &[flat::SignalDecl], name: &[u8]) -> bool
    ensures { result ≡ spec.is_among signals.now name.now }
{
    signals.iter().any(|s| s.path.bytes() == name)
}

/// Whether no two of the signals have one name.
fn are_distinct(signals: &[flat::SignalDecl]) -> bool
    ensures { result ≡ spec.are_distinct signals.now }
{
    for (at, s) in signals.iter().enumerate() {
        if is_among(&signals[at + 1..], s.path.bytes()) {
            return false;
        }
    }
    true
}

/// Whether the names of a design and its generator may be used.
fn has_free_names(d: &flat::Design, g: &Driven) -> bool
    ensures { result ≡ spec.has_free_names d.now g.now }
{
    is_free(d.name.bytes()) && is_free(g.function.bytes()) && are_free(d.signals.as_slice())
}

/// Whether no two of these names are equal.
fn has_distinct_names(d: &flat::Design, g: &Driven) -> bool
    ensures { result ≡ spec.has_distinct_names d.now g.now }
{
    let signals = d.signals.as_slice();
    let block = d.name.bytes();
    let function = g.function.bytes();
    !(function == block || is_among(signals, block))
        && !is_among(signals, function)
        && are_distinct(signals)
}

// ---- the design

/// Whether a number is that of another signal than the target.
fn is_other(n: u32, target: u32, count: usize) -> bool
    ensures { result ≡ spec.is_other n target count }
{
    (n as usize) < count && n != target
}

/// Whether an expression reads signals, and not the target.
fn reads_others(value: GExpr, target: u32, count: usize) -> bool
    ensures { result ≡ list_all (λ n. spec.is_other n target count) (spec.operands value) }
{
    match value {
        GExpr::Signal(a) | GExpr::Not(a) => is_other(a, target, count),
        GExpr::And(a, b) | GExpr::Or(a, b) | GExpr::Xor(a, b) => {
            is_other(a, target, count) && is_other(b, target, count)
        }
    }
}

/// Whether a design is that of a gate, where its generator drives this.
fn is_gate(d: &flat::Design, g: &Driven) -> bool
    ensures { result ≡ spec.is_gate d.now g.now }
{
    let count = d.signals.len();
    declares_ports(d)
        && (g.target as usize) < count
        && reads_others(g.value, g.target, count)
        && has_free_names(d, g)
        && has_distinct_names(d, g)
}

/// The numbers once more.
fn copied(alloc: Global, ports: &[u32]) -> Result<Items<u32>, Memory>
    ensures { IfOk result (λ all. all ≡ ports.now) }
{
    let mut all = Items::new(alloc);
    for port in ports {
        all.push(*port)?;
    }
    Ok(all)
}

/// The signals that are the ports.
fn signals_of(alloc: Global, signals: &[flat::SignalDecl]) -> Result<Items<SignalDecl>, Memory>
    ensures { IfOk result (λ all. all ≡ map spec.signal_of signals.now) }
{
    let mut all = Items::new(alloc);
    for s in signals {
        all.push(SignalDecl {
            path: s.path.copy(alloc)?,
            kind: Kind::Bool,
        })?;
    }
    Ok(all)
}

/// The generator of a gate.
fn generators_of(alloc: Global, g: Driven) -> Result<Items<Generator>, Memory>
    ensures { IfOk result (λ all. all ≡ spec.generators_of g) }
{
    let mut body = Items::new(alloc);
    body.push(GStmt::Assign {
        target: g.target,
        value: g.value,
    })?;
    let mut all = Items::new(alloc);
    all.push(Generator {
        path: g.function,
        kind: GenKind::Comb,
        body,
    })?;
    Ok(all)
}

/// The design of a gate.
fn design_of(alloc: Global, d: &flat::Design, g: Driven) -> Result<Design, Memory>
    ensures { IfOk result (λ x. x ≡ spec.design_of d.now g) }
{
    Ok(Design {
        name: d.name.copy(alloc)?,
        ports: copied(alloc, d.ports.as_slice())?,
        signals: signals_of(alloc, d.signals.as_slice())?,
        generators: generators_of(alloc, g)?,
    })
}

/// The gate that a flat design is, if it is one: its signals are 2 to 64 truth values, each of which
/// is a port, in order; it has one generator, which runs after any change of what it reads and assigns
/// to a port another one, `not` of another one, or `&`, `|` or `^` of two others; and its names and
/// those of its parts are distinct, each a lower-case letter and then lower-case letters and digits,
/// and no word of the converted texts or of the source's language.
pub fn gate_of(alloc: Global, d: &flat::Design) -> Result<Option<Design>, Memory>
    ensures { IfOk result (λ x. x ≡ spec.gate_of d.now) }
{
    match driven_alone(alloc, d.generators.as_slice())? {
        Some(g) => {
            if is_gate(d, &g) {
                Ok(Some(design_of(alloc, d, g)?))
            } else {
                Ok(None)
            }
        }
        None => Ok(None),
    }
}
