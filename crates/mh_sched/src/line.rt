// Printed lines.
ghost use Rattle.std.specs.Prelude.{◌≡◌, ◌++◌, true, map, Ok, Err, IfOk, IfErr, OnOk, OnErr};
ghost use Rattle.mh_design.specs.Assignments.{FitsExpression};
ghost use Rattle.mh_design.specs.Deltas.{pieces_of, piece_of};
ghost use Rattle.mh_design.specs.Tree.{expression_of, printed_of};
ghost use Rattle.mh_design.specs.Values.{value_of};
ghost use Rattle.mh_gen.specs.Running.{AllFit, FitsPrinted};
ghost use Rattle.mh_text.specs.Decimal.{decimal_text};
ghost use Rattle.mh_sched.specs.Lines as lines;
ghost use Rattle.mh_sched.specs.Unsaid.{IsUnsaid, IsWant, fault_unsaid};

use crate::fault::{SimFault, fault_of};
use mh_design::{GExpr, PrintPart};
use mh_flat::Lang;
use mh_gen::{Expression, Fault, MyHdl, Store};
use mh_text::put_number;

/// Why a line isn't printed: a fault of one of its parts, or want of memory.
#[derive(Drop)]
pub enum Unsaid {
    Fault(Fault),
    Memory,
}

/// The value of an expression.
fn number(e: &GExpr, store: &Store) -> Result<i128, Fault>
    requires { FitsExpression (expression_of e.now) store.now }
    ensures { result ≡ value_of (expression_of e.now) store.now }
{
    let source = Expression::source(e);
    MyHdl::eval(&source, store)
}

/// Adds bytes.
fn put_bytes(bytes: &[u8], out: &mut Vec<u8>) -> Result<(), Unsaid>
    ensures ok { OnOk result (out.new.items ≡ out.old.items ++ bytes.now) }
    ensures err { IfErr result IsWant }
    ensures grown { lines.Grown out.old.items out.new.items }
{
    match out.extend_from_slice(bytes) {
        Ok(()) => Ok(()),
        Err(_) => Err(Unsaid::Memory),
    }
}

/// Adds a number in decimal.
fn put_decimal(value: i128, out: &mut Vec<u8>) -> Result<(), Unsaid>
    ensures ok { OnOk result (out.new.items ≡ out.old.items ++ decimal_text value) }
    ensures err { IfErr result IsWant }
    ensures grown { lines.Grown out.old.items out.new.items }
{
    match put_number(out, value) {
        Ok(()) => Ok(()),
        Err(_) => Err(Unsaid::Memory),
    }
}

/// Adds a part of a line.
fn put_part(part: &PrintPart, store: &Store, out: &mut Vec<u8>) -> Result<(), Unsaid>
    requires { FitsPrinted (printed_of part.now) store.now }
    ensures ok { IfOk result (λ _. lines.put_piece out.old.items (piece_of store.now (printed_of part.now)) ≡ Ok out.new.items) }
    ensures err { IfErr result (λ why. IsUnsaid why (piece_of store.now (printed_of part.now))) }
    ensures grown { lines.Grown out.old.items out.new.items }
{
    match part {
        PrintPart::Text(text) => put_bytes(text.bytes(), out),
        PrintPart::Number(e) => match number(e, store) {
            Ok(value) => put_decimal(value, out),
            Err(fault) => Err(Unsaid::Fault(fault)),
        },
    }
}

/// Adds a space, where this isn't the first part of a line.
fn put_space(first: bool, out: &mut Vec<u8>) -> Result<(), Unsaid>
    ensures ok { OnOk result (out.new.items ≡ out.old.items ++ lines.space_before first) }
    ensures err { IfErr result IsWant }
    ensures grown { lines.Grown out.old.items out.new.items }
{
    if first { Ok(()) } else { put_bytes(b" ", out) }
}

/// Adds the parts of a line, with one space between.
fn put_parts(parts: &[PrintPart], store: &Store, out: &mut Vec<u8>) -> Result<(), Unsaid>
    requires { AllFit (map printed_of parts.now) store.now }
    ensures ok { IfOk result (λ _. lines.put_parts out.old.items true (pieces_of store.now (map printed_of parts.now)) ≡ Ok out.new.items) }
    ensures err { IfErr result (λ why. IsUnsaid why (pieces_of store.now (map printed_of parts.now))) }
    ensures grown { lines.Grown out.old.items out.new.items }
{
    let mut first = true;
    for part in parts {
        put_space(first, out)?;
        put_part(part, store, out)?;
        first = false;
    }
    Ok(())
}

/// Adds a line, and its end.
fn put_whole(parts: &[PrintPart], store: &Store, out: &mut Vec<u8>) -> Result<(), Unsaid>
    requires { AllFit (map printed_of parts.now) store.now }
    ensures ok { IfOk result (λ _. lines.put_line out.old.items (pieces_of store.now (map printed_of parts.now)) ≡ Ok out.new.items) }
    ensures err { IfErr result (λ why. IsUnsaid why (pieces_of store.now (map printed_of parts.now))) }
    ensures grown { lines.Grown out.old.items out.new.items }
{
    put_parts(parts, store, out)?;
    put_bytes(b"\n", out)?;
    Ok(())
}

/// Adds the line of these parts. Where one has a fault, or memory is wanting, nothing is added.
pub fn put_line(parts: &[PrintPart], store: &Store, out: &mut Vec<u8>) -> Result<(), Unsaid>
    requires { AllFit (map printed_of parts.now) store.now }
    ensures ok { IfOk result (λ _. lines.put_line out.old.items (pieces_of store.now (map printed_of parts.now)) ≡ Ok out.new.items) }
    ensures err { IfErr result (λ why. IsUnsaid why (pieces_of store.now (map printed_of parts.now))) }
    ensures unchanged { OnErr result (out.new.items ≡ out.old.items) }
{
    let length = out.len();
    match put_whole(parts, store, out) {
        Ok(()) => Ok(()),
        Err(why) => {
            out.truncate(length);
            Err(why)
        }
    }
}

/// The fault of a print at a time and in a line.
pub fn unsaid_fault(time: u64, line: u32, why: &Unsaid) -> SimFault
    ensures { result ≡ fault_unsaid time line why.now }
{
    match why {
        Unsaid::Fault(fault) => fault_of(time, line, fault),
        Unsaid::Memory => SimFault::Memory,
    }
}
