//! The Verilog text of a design of single-bit signals with one continuous assignment for each
//! statement, in a layout of this project's own (IEEE 1364-2005, clauses 6.1 and 12.3).

ghost use Rattle.std.specs.Prelude.{◌≡◌, ◌++◌, ◌≤◌, codes, drop, length, map, take, IfOk, OnOk};
ghost use Rattle.std.specs.List.{flat_map, list_any};
ghost use Rattle.mh_gate.specs.Design.{assigns, is_driven as is_driven_in, statements};
ghost use Rattle.mh_top.specs.Emission.{KeepsValues, assignment_of, emitted, module_of, port_of, variable_names};
ghost use Rattle.mh_top.specs.Pieces.{joined, line, name_in};
ghost use Rattle.mh_top.specs.VerilogText.{assignment_lines, declarations, header, port_line, port_list, section, spelled, text as text_of, wire_line};

use crate::writing::write_line;
use mh_gate::{Design, GExpr, GStmt, SignalDecl};
use mh_text::Memory;
use std::alloc::Global;

/// The name of a variable.
fn name(signals: &[SignalDecl], variable: u32) -> &[u8]
    ensures { result.now ≡ name_in (variable_names signals.now) variable }
{
    match signals.get(variable as usize) {
        Some(signal) => signal.path.bytes(),
        None => b"",
    }
}

/// Whether some statement drives a signal.
fn is_driven(d: &Design, signal: u32) -> bool
    ensures { result ≡ is_driven_in d.now signal }
{
    d.generators
        .as_slice()
        .iter()
        .any(|generator| drives(generator.body.as_slice(), signal))
}

fn drives(body: &[GStmt], signal: u32) -> bool
    ensures { result ≡ list_any (assigns signal) body.now }
{
    body.iter().any(|statement| {
        let GStmt::Assign { target, value: _ } = statement;
        *target == signal
    })
}

/// Writes the name of the first port and, behind a comma and a line's end each, of the others.
fn write_port_names(out: &mut Vec<u8>, d: &Design) -> Result<(), Memory>
    ensures { OnOk result (out.new.items ≡ out.old.items ++ joined (codes ",\n    ") (map (name_in (variable_names d.now.signals)) d.now.ports)) }
{
    let signals = d.signals.as_slice();
    if let Some((first, rest)) = d.ports.as_slice().split_first() {
        out.extend_from_slice(name(signals, *first))?;
        write_more_names(out, signals, rest)?;
    }
    Ok(())
}

fn write_more_names(out: &mut Vec<u8>, signals: &[SignalDecl], ports: &[u32]) -> Result<(), Memory>
    ensures { OnOk result (out.new.items ≡ out.old.items ++ flat_map (λ piece. codes ",\n    " ++ piece) (map (name_in (variable_names signals.now)) ports.now)) }
{
    for port in ports {
        write_separated(out, name(signals, *port))?;
    }
    Ok(())
}

fn write_separated(out: &mut Vec<u8>, name: &[u8]) -> Result<(), Memory>
    ensures { OnOk result (out.new.items ≡ out.old.items ++ (codes ",\n    " ++ name.now)) }
{
    out.extend_from_slice(b",\n    ")?;
    out.extend_from_slice(name)?;
    Ok(())
}

/// Writes the direction of a port.
fn write_direction(out: &mut Vec<u8>, d: &Design, port: u32) -> Result<(), Memory>
    ensures { OnOk result (out.new.items ≡ out.old.items ++ port_line (variable_names d.now.signals) (port_of d.now port)) }
{
    let name = name(d.signals.as_slice(), port);
    if is_driven(d, port) {
        write_line(out, b"output ", name, b";")
    } else {
        write_line(out, b"input ", name, b";")
    }
}

/// Writes an output as a wire.
fn write_wire(out: &mut Vec<u8>, d: &Design, port: u32) -> Result<(), Memory>
    ensures { OnOk result (out.new.items ≡ out.old.items ++ wire_line (variable_names d.now.signals) (port_of d.now port)) }
{
    if is_driven(d, port) {
        write_line(out, b"wire ", name(d.signals.as_slice(), port), b";")
    } else {
        Ok(())
    }
}

/// Writes the section of the ports' directions.
#[tactic(auto, using(crate::proofs::Written::more_written))]
fn write_directions(out: &mut Vec<u8>, d: &Design) -> Result<(), Memory>
    ensures { OnOk result (out.new.items ≡ out.old.items ++ flat_map (port_line (variable_names d.now.signals)) (map (port_of d.now) d.now.ports)) }
{
    for port in d.ports.as_slice() {
        write_direction(out, d, *port)?;
    }
    Ok(())
}

/// Writes the section of the wires.
#[tactic(auto, using(crate::proofs::Written::more_written))]
fn write_wires(out: &mut Vec<u8>, d: &Design) -> Result<(), Memory>
    ensures { OnOk result (out.new.items ≡ out.old.items ++ flat_map (wire_line (variable_names d.now.signals)) (map (port_of d.now) d.now.ports)) }
{
    for port in d.ports.as_slice() {
        write_wire(out, d, *port)?;
    }
    Ok(())
}

/// Writes an operator with two operands, in brackets.
fn write_binary(out: &mut Vec<u8>, a: &[u8], operator: &[u8], b: &[u8]) -> Result<(), Memory>
    ensures { OnOk result (out.new.items ≡ out.old.items ++ (codes "(" ++ a.now ++ operator.now ++ b.now ++ codes ")")) }
{
    out.extend_from_slice(b"(")?;
    out.extend_from_slice(a)?;
    out.extend_from_slice(operator)?;
    out.extend_from_slice(b)?;
    out.extend_from_slice(b")")?;
    Ok(())
}

/// Writes a negation, in brackets.
fn write_not(out: &mut Vec<u8>, a: &[u8]) -> Result<(), Memory>
    ensures { OnOk result (out.new.items ≡ out.old.items ++ (codes "(!" ++ a.now ++ codes ")")) }
{
    out.extend_from_slice(b"(!")?;
    out.extend_from_slice(a)?;
    out.extend_from_slice(b")")?;
    Ok(())
}

/// Writes a right side.
fn write_expression(
    out: &mut Vec<u8>,
    signals: &[SignalDecl],
    expression: GExpr,
) -> Result<(), Memory>
    ensures { OnOk result (out.new.items ≡ out.old.items ++ spelled (variable_names signals.now) (emitted expression)) }
{
    match expression {
        GExpr::Signal(a) => Ok(out.extend_from_slice(name(signals, a))?),
        GExpr::Not(a) => write_not(out, name(signals, a)),
        GExpr::And(a, b) => write_binary(out, name(signals, a), b" & ", name(signals, b)),
        GExpr::Or(a, b) => write_binary(out, name(signals, a), b" | ", name(signals, b)),
        GExpr::Xor(a, b) => write_binary(out, name(signals, a), b" ^ ", name(signals, b)),
    }
}

/// Writes a statement as a continuous assignment, and a blank line.
fn write_assignment(
    out: &mut Vec<u8>,
    signals: &[SignalDecl],
    statement: &GStmt,
) -> Result<(), Memory>
    ensures { OnOk result (out.new.items ≡ out.old.items ++ assignment_lines (variable_names signals.now) (assignment_of statement.now)) }
{
    let GStmt::Assign { target, value } = statement;
    out.extend_from_slice(b"assign ")?;
    out.extend_from_slice(name(signals, *target))?;
    out.extend_from_slice(b" = ")?;
    write_expression(out, signals, *value)?;
    out.extend_from_slice(b";\n\n")?;
    Ok(())
}

/// Writes the assignments of a generator.
#[tactic(auto, using(crate::proofs::Written::more_written))]
fn write_body(out: &mut Vec<u8>, signals: &[SignalDecl], body: &[GStmt]) -> Result<(), Memory>
    ensures { OnOk result (out.new.items ≡ out.old.items ++ flat_map (assignment_lines (variable_names signals.now)) (map assignment_of body.now)) }
{
    for statement in body {
        write_assignment(out, signals, statement)?;
    }
    Ok(())
}

/// Writes the assignments of all generators.
fn write_assignments(out: &mut Vec<u8>, d: &Design) -> Result<(), Memory>
    ensures { OnOk result (out.new.items ≡ out.old.items ++ flat_map (assignment_lines (variable_names d.now.signals)) (map assignment_of (statements d.now))) }
{
    let signals = d.signals.as_slice();
    for generator in d.generators.as_slice() {
        write_body(out, signals, generator.body.as_slice())?;
    }
    Ok(())
}

/// Ends a section by a blank line, or leaves it out where nothing was written since `start`.
#[tactic(auto, using(crate::proofs::Written::section_ended))]
fn end_section(out: &mut Vec<u8>, start: usize) -> Result<(), Memory>
    requires { start ≤ length out.old.items }
    ensures { OnOk result (out.new.items ≡ take start out.old.items ++ section (drop start out.old.items)) }
{
    if out.len() > start {
        out.push(b'\n')?;
    }
    Ok(())
}

/// Writes the sections of directions and wires.
fn write_declarations(out: &mut Vec<u8>, d: &Design) -> Result<(), Memory>
    ensures { OnOk result (out.new.items ≡ out.old.items ++ declarations (module_of d.now)) }
{
    let start = out.len();
    write_directions(out, d)?;
    end_section(out, start)?;
    let start = out.len();
    write_wires(out, d)?;
    end_section(out, start)
}

/// Writes the list of the ports, and the end of the header.
fn write_port_list(out: &mut Vec<u8>, d: &Design) -> Result<(), Memory>
    ensures { OnOk result (out.new.items ≡ out.old.items ++ port_list (module_of d.now)) }
{
    out.extend_from_slice(b"    ")?;
    write_port_names(out, d)?;
    out.extend_from_slice(b"\n);\n")?;
    Ok(())
}

/// Writes the header of the module.
fn write_header(out: &mut Vec<u8>, d: &Design) -> Result<(), Memory>
    ensures { OnOk result (out.new.items ≡ out.old.items ++ header (module_of d.now)) }
{
    write_line(out, b"module ", d.name.bytes(), b" (")?;
    write_port_list(out, d)
}

/// The Verilog text of a design: the module with one continuous assignment for each statement. Its
/// right sides keep the values of the source for all truth values of the signals.
pub fn text(alloc: Global, d: &Design) -> Result<Vec<u8>, Memory>
    ensures text { IfOk result (λ bytes. bytes.items ≡ text_of (module_of d.now)) }
    ensures values { KeepsValues d.now (module_of d.now) }
{
    let mut out = Vec::new(alloc);
    write_header(&mut out, d)?;
    out.push(b'\n')?;
    write_declarations(&mut out, d)?;
    write_assignments(&mut out, d)?;
    out.extend_from_slice(b"endmodule\n")?;
    Ok(out)
}
