// What an import binds.
ghost use Rattle.std.specs.Prelude.{◌≡◌};
ghost use Rattle.std.specs.Option.{option_map};
ghost use Rattle.mh_consts.specs.Names.{lookup};
ghost use Rattle.mh_consts.specs.declared.kinds.Const.TheVariants as c;
ghost use Rattle.mh_elab.specs.Elaboration as spec;
ghost use Rattle.mh_elab.specs.Views.{bindings_of};
ghost use Rattle.mh_world.specs.View.{world, Does, same};

use mh_consts::{Builtin, Const};
use mh_text::{Code, CodeAt, Fault, Text};
use mh_world::{State, refuse};
use std::alloc::Global;

/// The names of MyHDL, in order.
const IMPORTABLE: [(&[u8], Builtin); 16] = [
    (b"block", Builtin::Block),
    (b"instance", Builtin::Instance),
    (b"instances", Builtin::Instances),
    (b"always", Builtin::Always),
    (b"always_comb", Builtin::AlwaysComb),
    (b"always_seq", Builtin::AlwaysSeq),
    (b"Signal", Builtin::Signal),
    (b"ResetSignal", Builtin::ResetSignal),
    (b"intbv", Builtin::Intbv),
    (b"modbv", Builtin::Modbv),
    (b"enum", Builtin::Enum),
    (b"concat", Builtin::Concat),
    (b"delay", Builtin::Delay),
    (b"now", Builtin::Now),
    (b"downrange", Builtin::Downrange),
    (b"StopSimulation", Builtin::StopSimulation),
];

/// What a name is bound to by a table.
fn bound_in(mut table: &[(&[u8], Builtin)], t: &Text) -> Option<Builtin>
    ensures { option_map c.Builtin result ≡ lookup (bindings_of table.entry.now) t.now }
{
    while let [row, rest @ ..] = table {
        if t.bytes() == row.0 {
            return Some(row.1);
        }
        table = rest;
    }
    None
}

/// What a name of MyHDL is bound to.
fn importable(t: &Text) -> Option<Builtin>
    ensures { option_map c.Builtin result ≡ lookup spec.importable t.now }
{
    bound_in(&IMPORTABLE, t)
}

/// Binds the names of a table.
fn bind_all<'a>(
    alloc: Global,
    state: &mut State<'a>,
    line: u32,
    mut table: &[(&[u8], Builtin)],
) -> Result<(), Fault<CodeAt>>
    ensures { Does same (spec.bind_pairs line (bindings_of table.entry.now) (world state.old)) result (world state.new) }
{
    while let [row, rest @ ..] = table {
        let t = Text::new(alloc, row.0)?;
        state.bind_name(alloc, line, &t, Const::Builtin(row.1))?;
        table = rest;
    }
    Ok(())
}

/// `from myhdl import *`
pub(crate) fn import_all<'a>(
    alloc: Global,
    state: &mut State<'a>,
    line: u32,
) -> Result<(), Fault<CodeAt>>
    ensures { Does same (spec.bind_pairs line spec.importable (world state.old)) result (world state.new) }
{
    bind_all(alloc, state, line, &IMPORTABLE)
}

/// `from myhdl import a, b`
pub(crate) fn import_names<'a>(
    alloc: Global,
    state: &mut State<'a>,
    line: u32,
    names: &[Text],
) -> Result<(), Fault<CodeAt>>
    ensures { Does same (spec.import_names line names.now (world state.old)) result (world state.new) }
{
    for t in names {
        match importable(t) {
            None => return refuse(Code::E1UnknownName, line),
            Some(builtin) => state.bind_name(alloc, line, t, Const::Builtin(builtin))?,
        }
    }
    Ok(())
}
