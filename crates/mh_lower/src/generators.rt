// How the definition of a generator is read.
ghost use Rattle.std.specs.Prelude.{◌≡◌, [], length, map, IfOk};
ghost use Rattle.mh_text.specs.Faults.{Gives};
ghost use Rattle.mh_consts.specs.Expression.{ex_of, given_of, key_of, keys_of, part_of, parts_of};
ghost use Rattle.mh_pytree.specs.declared.statement.FuncDef.{out-FuncDef};
ghost use Rattle.mh_lower.specs.Body.{line_of, lines};
ghost use Rattle.mh_consts.specs.declared.kinds.Const.{out-Const};
ghost use Rattle.mh_lower.specs.Generators as spec;
ghost use Rattle.mh_lower.specs.Generators.{Answers, ReadsDef, def_of};

use crate::bodies::read_lines;
use crate::names::{collect_all, no_locals};
use crate::paths::starts;
use crate::waits::{arguments_wait_for, wait_given};
use mh_consts::{Builtin, Const, Scope, all_positional, is_method, is_plain};
use mh_design::{Design, GStmt, GenKind, Generator, Kind, Local, Wait, is_edge, is_reset};
use mh_exprs::{Callee, Locals, Work, callee_named, callee_of, is_word, known};
use mh_pytree::{Argument, FuncDef, Param, PyExpr};
use mh_text::{Code, CodeAt, Fault, Memory, Refusal, Text};
use sqlite_items::Items;
use std::alloc::Global;

/// A decorator that is a name.
fn by_name(c: Callee) -> Result<GenKind, Code>
    ensures { result ≡ spec.by_name c }
{
    match c {
        Callee::Known(Builtin::Instance) => Ok(GenKind::Instance),
        Callee::Known(Builtin::AlwaysComb) => Ok(GenKind::Comb),
        Callee::Refused(Code::E1UnknownName) => Err(Code::E1UnknownName),
        _ => Err(Code::E2NotElaborable),
    }
}

/// The waits of an `@always`, of which there is at least one.
fn any_waits(waits: Items<Wait>) -> Result<GenKind, Code>
    ensures { result ≡ spec.any_waits waits }
{
    if waits.is_empty() {
        Err(Code::E3BadArguments)
    } else {
        Ok(GenKind::Always(waits))
    }
}

/// `always(..)`
fn always(
    alloc: Global,
    s: &Scope,
    locals: &Locals,
    arguments: &[Argument],
) -> Result<GenKind, Fault<Code>>
    ensures { Gives (spec.always s.now locals.now (keys_of (map given_of arguments.now)) (parts_of (map given_of arguments.now))) result }
{
    let waits = arguments_wait_for(alloc, s, locals, arguments)?;
    if all_positional(arguments) {
        Ok(any_waits(waits)?)
    } else {
        Err(Fault::Broken(Code::E3BadArguments))
    }
}

/// The reset of an `@always_seq`: a signal that is declared as one, or `None`.
#[tactic(auto, using(mh_consts::proofs::Values::values))]
fn reset_of(v: &Const, d: &Design) -> Result<Option<u32>, Code>
    ensures { result ≡ spec.reset_step d.now (out-Const v.now) }
{
    match v {
        Const::None => Ok(None),
        Const::Signal(n, _) => {
            if is_reset(d, Some(*n)) {
                Ok(Some(*n))
            } else {
                Err(Code::E3BadArguments)
            }
        }
        _ => Err(Code::E3BadArguments),
    }
}

/// What an `@always_seq` with this wait and this reset is.
fn sequential(w: Wait, reset: Option<u32>) -> Result<GenKind, Code>
    ensures { result ≡ spec.sequential w reset }
{
    if is_edge(w) {
        Ok(GenKind::Seq(w, reset))
    } else {
        Err(Code::E3BadArguments)
    }
}

/// An `@always_seq` with this wait, by its reset.
#[tactic(auto, using(mh_consts::proofs::Shapes::shapes))]
fn with_reset(
    alloc: Global,
    s: &Scope,
    w: Wait,
    reset: &Argument,
    d: &Design,
) -> Result<GenKind, Fault<Code>>
    ensures { Gives (spec.with_reset s.now d.now w (part_of (given_of reset.now))) result }
{
    if !is_plain(&reset.value, s) {
        return Err(Fault::Broken(Code::E2NotElaborable));
    }
    let v = known(alloc, &reset.value, s)?;
    let r = reset_of(&v, d)?;
    Ok(sequential(w, r)?)
}

/// Whether two arguments are given as those of an `always_seq`.
#[tactic(auto, using(mh_consts::proofs::Shapes::shapes))]
fn has_reset_key(edge: &Argument, reset: &Argument) -> bool
    ensures { result ≡ spec.is_reset_pair (key_of (given_of edge.now)) (key_of (given_of reset.now)) }
{
    match (&edge.name, &reset.name) {
        (None, Some(key)) => is_word(key, b"reset"),
        _ => false,
    }
}

/// `always_seq(edge, reset=r)`
#[tactic(auto, using(mh_consts::proofs::Shapes::shapes))]
fn always_seq(
    alloc: Global,
    s: &Scope,
    locals: &Locals,
    arguments: &[Argument],
    d: &Design,
) -> Result<GenKind, Fault<Code>>
    ensures { Gives (spec.always_seq s.now locals.now d.now (spec.is_reset_key (keys_of (map given_of arguments.now))) (parts_of (map given_of arguments.now))) result }
{
    match arguments {
        [edge, reset] => {
            if !has_reset_key(edge, reset) {
                return Err(Fault::Broken(Code::E3BadArguments));
            }
            let w = wait_given(alloc, s, locals, edge)?;
            with_reset(alloc, s, w, reset, d)
        }
        _ => Err(Fault::Broken(Code::E3BadArguments)),
    }
}

/// A decorator that is a call of this.
fn by_call(
    alloc: Global,
    s: &Scope,
    locals: &Locals,
    c: Callee,
    arguments: &[Argument],
    d: &Design,
) -> Result<GenKind, Fault<Code>>
    ensures { Gives (spec.by_call s.now locals.now d.now c (keys_of (map given_of arguments.now)) (parts_of (map given_of arguments.now))) result }
{
    match c {
        Callee::Known(Builtin::Always) => always(alloc, s, locals, arguments),
        Callee::Known(Builtin::AlwaysSeq) => always_seq(alloc, s, locals, arguments, d),
        Callee::Refused(Code::E1UnknownName) => Err(Fault::Broken(Code::E1UnknownName)),
        _ => Err(Fault::Broken(Code::E2NotElaborable)),
    }
}

/// What a decorator says.
#[tactic(auto, using(crate::proofs::ViewForms::views))]
fn mark(
    alloc: Global,
    s: &Scope,
    locals: &Locals,
    e: &PyExpr,
    d: &Design,
) -> Result<GenKind, Fault<Code>>
    ensures { Gives (spec.mark s.now locals.now d.now (ex_of e.now)) result }
{
    match e {
        PyExpr::Group(a) => mark(alloc, s, locals, a.get(), d),
        PyExpr::Name(t) => Ok(by_name(callee_named(s, locals, t))?),
        PyExpr::Call(f, arguments) => {
            if is_method(f.get()) {
                return Err(Fault::Broken(Code::E2NotElaborable));
            }
            let c = callee_of(s, locals, f.get());
            by_call(alloc, s, locals, c, arguments.as_slice(), d)
        }
        PyExpr::Number(_)
        | PyExpr::Str(_)
        | PyExpr::True
        | PyExpr::False
        | PyExpr::None
        | PyExpr::Bracketed(_)
        | PyExpr::Tuple(_)
        | PyExpr::List(_)
        | PyExpr::Comprehension(_, _, _)
        | PyExpr::Not(_)
        | PyExpr::Unary(_, _)
        | PyExpr::Binary(_, _, _)
        | PyExpr::Attribute(_, _)
        | PyExpr::Index(_, _)
        | PyExpr::Slice(_, _, _)
        | PyExpr::Whole(_) => Err(Fault::Broken(Code::E2NotElaborable)),
    }
}

/// What the decorators of a definition say: one decorator, and no parameters.
fn marked(
    alloc: Global,
    s: &Scope,
    locals: &Locals,
    marks: &[PyExpr],
    params: &[Param],
    d: &Design,
) -> Result<GenKind, Fault<Code>>
    ensures { Gives (spec.marked s.now locals.now d.now (map ex_of marks.now) (length params.now)) result }
{
    match (marks, params) {
        ([e], []) => mark(alloc, s, locals, e, d),
        _ => Err(Fault::Broken(Code::E2NotElaborable)),
    }
}

/// Whether a generator is an `@instance`.
fn is_instance(kind: &GenKind) -> bool
    ensures { result ≡ spec.is_instance kind.now }
{
    match kind {
        GenKind::Instance => true,
        GenKind::Comb | GenKind::Always(_) | GenKind::Seq(_, _) => false,
    }
}

/// The kind of a local in the end.
fn kind_or_int(kind: Option<Kind>) -> Kind
    ensures { result ≡ spec.kind_or_int kind }
{
    match kind {
        Some(kind) => kind,
        None => Kind::Int,
    }
}

/// The locals with their kinds.
#[tactic(auto, using(crate::proofs::Pairs::pairs))]
fn locals_of(alloc: Global, names: &[Text], kinds: &[Option<Kind>]) -> Result<Items<Local>, Memory>
    ensures { IfOk result (λ all. all ≡ spec.locals_of names.now kinds.now) }
{
    let mut all = Items::new(alloc);
    let mut rest = kinds;
    for name in names {
        match rest {
            [kind, more @ ..] => {
                all.push(Local {
                    name: name.copy(alloc)?,
                    kind: kind_or_int(*kind),
                })?;
                rest = more;
            }
            [] => return Ok(all),
        }
    }
    Ok(all)
}

/// The generator of a definition that is one of this kind.
fn generator(
    alloc: Global,
    f: &FuncDef,
    kind: GenKind,
    locals: &Locals,
    w: &Work,
    body: Items<GStmt>,
) -> Result<Generator, Memory>
    ensures { IfOk result (λ g. g ≡ record { path = (out-FuncDef f.now).name; line = (out-FuncDef f.now).line; kind = kind; locals = spec.locals_of locals.now.names w.now.kinds; body = body }) }
{
    Ok(Generator {
        path: f.name.copy(alloc)?,
        line: f.line,
        kind,
        locals: locals_of(alloc, locals.names.as_slice(), w.kinds.as_slice())?,
        body,
    })
}

/// The body of a definition that is a generator of this kind.
fn read_body(
    alloc: Global,
    f: &FuncDef,
    s: &Scope,
    kind: GenKind,
    d: &mut Design,
) -> Result<Generator, Fault<CodeAt>>
    ensures { ReadsDef (spec.read_body s.now d.old kind (lines (map line_of (out-FuncDef f.now).body)) (spec.locals_in_lines spec.no_locals (lines (map line_of (out-FuncDef f.now).body)))) f.now result d.new }
{
    let mut locals = no_locals(alloc);
    collect_all(alloc, &mut locals, f.body.as_slice())?;
    let mut w = starts(alloc, &locals)?;
    let instance = is_instance(&kind);
    let body = read_lines(
        alloc,
        s,
        &locals,
        instance,
        false,
        f.body.as_slice(),
        &mut w,
        d,
    )?;
    Ok(generator(alloc, f, kind, &locals, &w, body)?)
}

/// The definition of a generator.
fn read_def(
    alloc: Global,
    f: &FuncDef,
    s: &Scope,
    d: &mut Design,
) -> Result<Generator, Fault<CodeAt>>
    ensures { ReadsDef (def_of s.now d.old f.now) f.now result d.new }
{
    let none = no_locals(alloc);
    match marked(alloc, s, &none, f.marks.as_slice(), f.params.as_slice(), d) {
        Ok(kind) => read_body(alloc, f, s, kind, d),
        Err(Fault::Broken(code)) => Err(Fault::Broken((code, f.line))),
        Err(Fault::Memory) => Err(Fault::Memory),
    }
}

/// Reads the definition of a generator, with its decorator: the generator, with the name of the
/// definition as its path. The design gets the memories and tables that are met in the body, the
/// memories without their paths and lines. After a refusal the design isn't to be used again.
pub fn lower(alloc: Global, f: &FuncDef, s: &Scope, d: &mut Design) -> Result<Generator, Refusal>
    ensures { Answers (def_of s.now d.old f.now) f.now result d.new }
{
    match read_def(alloc, f, s, d) {
        Ok(g) => Ok(g),
        Err(Fault::Broken((code, line))) => Err(Refusal::At {
            code,
            line,
            names: Items::new(alloc),
        }),
        Err(Fault::Memory) => Err(Refusal::Memory),
    }
}
