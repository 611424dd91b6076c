//! The error lines.

ghost use Rattle.std.specs.Prelude.{◌≡◌, ◌++◌, codes, pos, IfOk, OnOk};
ghost use Rattle.mh_top.specs.Lines.{fault_line, fault_numbers, numbered, printing_line, refusal_line, shelf_line, too_long_line};

use crate::writing::write_short_line;
use itoa::Buffer;
use mh_text::{Code, Memory, Text, put_number};
use std::alloc::Global;

/// The line of a call of the shelf that failed at a name.
pub(crate) fn of_shelf(alloc: Global, name: &Text) -> Result<Vec<u8>, Memory>
    ensures { IfOk result (λ line. line.items ≡ shelf_line name.now) }
{
    let mut out = Vec::new(alloc);
    write_short_line(&mut out, b"error shelf ", name.bytes())?;
    Ok(out)
}

/// The line of a name that holds more than its limit.
pub(crate) fn of_too_long(alloc: Global, name: &Text) -> Result<Vec<u8>, Memory>
    ensures { IfOk result (λ line. line.items ≡ too_long_line name.now) }
{
    let mut out = Vec::new(alloc);
    write_short_line(&mut out, b"error TooLong ", name.bytes())?;
    Ok(out)
}

/// The line of a refusal with its line in the source.
pub(crate) fn of_refusal(alloc: Global, code: Code, number: u32) -> Result<Vec<u8>, Memory>
    ensures { IfOk result (λ line. line.items ≡ refusal_line code number) }
{
    let mut buffer = Buffer::new();
    let mut out = Vec::from_slice(alloc, b"error ")?;
    out.extend_from_slice(code.words().as_bytes())?;
    out.extend_from_slice(b" line ")?;
    out.extend_from_slice(buffer.format(number).as_bytes())?;
    out.push(b'\n')?;
    Ok(out)
}

/// The line of a standard output that failed.
pub(crate) fn of_printing(alloc: Global) -> Result<Vec<u8>, Memory>
    ensures { IfOk result (λ line. line.items ≡ printing_line) }
{
    let line = Vec::from_slice(alloc, b"error shelf -\n")?;
    Ok(line)
}

/// Writes a number after its word.
fn write_number(out: &mut Vec<u8>, word: &[u8], n: i128) -> Result<(), Memory>
    ensures { OnOk result (out.new.items ≡ out.old.items ++ numbered word.now n) }
{
    out.extend_from_slice(word)?;
    put_number(out, n)
}

/// Writes a line in the source and a value.
fn write_value(out: &mut Vec<u8>, line: u32, value: i128) -> Result<(), Memory>
    ensures { OnOk result (out.new.items ≡ out.old.items ++ numbered (codes " line ") (pos line) ++ numbered (codes " value ") value) }
{
    write_number(out, b" line ", line as i128)?;
    write_number(out, b" value ", value)
}

/// Writes a line in the source, a value and its bounds.
fn write_bounds(
    out: &mut Vec<u8>,
    line: u32,
    value: i128,
    low: i128,
    high: i128,
) -> Result<(), Memory>
    ensures { OnOk result (out.new.items ≡ out.old.items ++ numbered (codes " line ") (pos line) ++ numbered (codes " value ") value ++ numbered (codes " low ") low ++ numbered (codes " high ") high) }
{
    write_value(out, line, value)?;
    write_number(out, b" low ", low)?;
    write_number(out, b" high ", high)
}

/// Writes what is shown of a fault of a run besides its code and its time.
fn write_numbers(
    out: &mut Vec<u8>,
    code: Code,
    line: u32,
    value: i128,
    low: i128,
    high: i128,
) -> Result<(), Memory>
    ensures { OnOk result (out.new.items ≡ out.old.items ++ fault_numbers code line value low high) }
{
    match code {
        Code::X1Range => write_bounds(out, line, value, low, high),
        Code::X2Index => write_bounds(out, line, value, low, high),
        Code::X4Divide => write_value(out, line, value),
        Code::X6Shift => write_value(out, line, value),
        Code::X7DeltaLimit => {
            out.extend_from_slice(b" count 10000")?;
            Ok(())
        }
        Code::X8TurnLimit => {
            out.extend_from_slice(b" count 1000000")?;
            Ok(())
        }
        _ => write_number(out, b" line ", line as i128),
    }
}

/// The line of a fault of a run, with its time and what is shown of it.
pub(crate) fn of_fault(
    alloc: Global,
    code: Code,
    time: u64,
    line: u32,
    value: i128,
    low: i128,
    high: i128,
) -> Result<Vec<u8>, Memory>
    ensures { IfOk result (λ bytes. bytes.items ≡ fault_line code time line value low high) }
{
    let mut out = Vec::from_slice(alloc, b"error ")?;
    out.extend_from_slice(code.words().as_bytes())?;
    write_number(&mut out, b" time ", time as i128)?;
    write_numbers(&mut out, code, line, value, low, high)?;
    out.push(b'\n')?;
    Ok(out)
}
