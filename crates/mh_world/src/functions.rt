// Definitions of functions, and their calls.
ghost use Rattle.std.specs.Prelude.{◌≡◌, IfOk, OnOk, map, option_copied};
ghost use Rattle.mh_text.specs.Faults.{Gives};
ghost use Rattle.mh_consts.specs.Expression.{ex_of, given_of, keys_of};
ghost use Rattle.mh_pytree.specs.declared.statement.FuncDef.{out-FuncDef};
ghost use Rattle.mh_world.specs.Functions as spec;
ghost use Rattle.mh_world.specs.Statements.{block, parameter_of, st_of};
ghost use Rattle.mh_world.specs.View.{called_of, world, Does, same};

use crate::arguments::{behind, matched};
use crate::fault::refuse;
use crate::function::{Called, Function};
use crate::kinds::{Flow, Mark};
use crate::state::State;
use mh_consts::{Builtin, Const, Names, maker, name_in};
use mh_pytree::{Argument, FuncDef, Param, PyExpr};
use mh_text::{Code, CodeAt, Fault, Memory, Text};
use sqlite_items::{Items, at};
use std::alloc::Global;

/// What a decorator that is a function of MyHDL or Python makes of a definition.
fn mark_builtin(b: Builtin) -> Mark
    ensures { result ≡ spec.mark_builtin b }
{
    match b {
        Builtin::Block => Mark::Blocked,
        _ => Mark::Generates,
    }
}

/// What a decorator that is bound to a value makes of a definition.
#[tactic(auto, using(mh_consts::proofs::Values::values))]
fn mark_of(v: &Const) -> Mark
    ensures { result ≡ spec.mark_held_step v.now }
{
    match v {
        Const::Builtin(b) => mark_builtin(*b),
        _ => Mark::Generates,
    }
}

/// The name that a decorator is, or that it calls, lent.
fn mark_name(e: &PyExpr) -> Option<&Text>
    ensures { option_copied result ≡ spec.mark_name (ex_of e.now) }
{
    match name_in(e) {
        Some(t) => Some(t),
        None => maker(e),
    }
}

/// Whether no parameter has the name of another.
fn all_differ(alloc: Global, params: &[Param]) -> Result<bool, Memory>
    ensures { IfOk result (λ b. b ≡ spec.all_differ (map parameter_of params.now)) }
{
    let mut met = Names::new(alloc);
    for param in params {
        if met.find(&param.name).is_some() {
            return Ok(false);
        }
        met.bind(param.name.copy(alloc)?, true)?;
    }
    Ok(true)
}

/// Whether no parameter without a default value follows one that has one.
fn defaults_come_last(params: &[Param]) -> bool
    ensures { result ≡ spec.defaults_come_last (map parameter_of params.now) }
{
    let mut had_one = false;
    for param in params {
        if param.value.is_some() {
            had_one = true;
        } else if had_one {
            return false;
        }
    }
    true
}

/// The parameters of a function differ, and those with a default value come last.
pub fn parameters_fit(alloc: Global, line: u32, params: &[Param]) -> Result<(), Fault<CodeAt>>
    ensures { Gives (spec.parameters_keep line (map parameter_of params.now)) result }
{
    if all_differ(alloc, params)? && defaults_come_last(params) {
        Ok(())
    } else {
        refuse(Code::E2NotElaborable, line)
    }
}

/// The default value of a parameter: the next of these, if it has one.
fn default_value(alloc: Global, has_one: bool, values: &[Const]) -> Result<Option<Const>, Memory>
    ensures { IfOk result (λ v. v ≡ spec.default_value has_one values.now) }
{
    if !has_one {
        return Ok(None);
    }
    match at(values, 0) {
        Some(v) => Ok(Some(v.copy(alloc)?)),
        None => Ok(None),
    }
}

/// The values for the parameters after it.
fn values_left(has_one: bool, values: &[Const]) -> &[Const]
    ensures { result.now ≡ spec.values_left has_one values.now }
{
    if has_one { behind(values) } else { values }
}

/// The parameters with their default values.
fn with_defaults(
    alloc: Global,
    params: &[Param],
    values: &[Const],
) -> Result<Items<(Text, Option<Const>)>, Memory>
    ensures { IfOk result (λ all. all ≡ spec.with_defaults (map parameter_of params.now) values.now) }
{
    let mut all = Items::new(alloc);
    let mut rest = values;
    for param in params {
        let has_one = param.value.is_some();
        let name = param.name.copy(alloc)?;
        all.push((name, default_value(alloc, has_one, rest)?))?;
        rest = values_left(has_one, rest);
    }
    Ok(all)
}

/// Bindings once more.
fn copy_bindings(alloc: Global, bs: &[(Text, Const)]) -> Result<Items<(Text, Const)>, Memory>
    ensures { IfOk result (λ all. all ≡ bs.now) }
{
    let mut all = Items::new(alloc);
    for b in bs {
        all.push((b.0.copy(alloc)?, b.1.copy(alloc)?))?;
    }
    Ok(all)
}

impl<'a> State<'a> {
    /// What one decorator makes of a definition: `block` stands without arguments.
    fn mark_by(&self, line: u32, e: &PyExpr) -> Result<Mark, Fault<CodeAt>>
        ensures { Does same (spec.mark_by line (spec.is_named (ex_of e.now)) (spec.mark_name (ex_of e.now)) (world self.now)) result (world self.now) }
    {
        let Some(t) = mark_name(e) else {
            return Ok(Mark::Generates);
        };
        match self.find(t) {
            None => refuse(Code::E1UnknownName, line),
            Some(v) => {
                if name_in(e).is_some() {
                    Ok(mark_of(v))
                } else {
                    Ok(Mark::Generates)
                }
            }
        }
    }

    /// What its decorators make of a definition.
    pub fn marked(&self, line: u32, marks: &[PyExpr]) -> Result<Mark, Fault<CodeAt>>
        ensures { Does same (spec.marked line (map ex_of marks.now) (world self.now)) result (world self.now) }
    {
        match marks {
            [] => Ok(Mark::Plain),
            [e] => self.mark_by(line, e),
            [_, _, ..] => refuse(Code::E2NotElaborable, line),
        }
    }

    /// A function more.
    fn add_function(
        &mut self,
        alloc: Global,
        f: &'a FuncDef,
        is_block: bool,
        values: &[Const],
    ) -> Result<(), Memory>
        ensures { OnOk result (world self.new ≡ spec.add_defined (out-FuncDef f.now).line (out-FuncDef f.now).name is_block (spec.with_defaults (map parameter_of (out-FuncDef f.now).params) values.now) (block (map st_of (out-FuncDef f.now).body)) (world self.old)) }
    {
        self.functions.push(Function {
            line: f.line,
            name: f.name.copy(alloc)?,
            is_block,
            params: with_defaults(alloc, f.params.as_slice(), values)?,
            body: f.body.as_slice(),
            home: self.current,
        })?;
        self.known.push(false)?;
        Ok(())
    }

    /// The definition of a function, which isn't a generator, is executed: its default values are these.
    pub fn new_function(
        &mut self,
        alloc: Global,
        f: &'a FuncDef,
        is_block: bool,
        values: &[Const],
    ) -> Result<(), Fault<CodeAt>>
        ensures { Does same (spec.new_function (out-FuncDef f.now).line (out-FuncDef f.now).name is_block (spec.with_defaults (map parameter_of (out-FuncDef f.now).params) values.now) (block (map st_of (out-FuncDef f.now).body)) (world self.old)) result (world self.new) }
    {
        let n = self.functions.len();
        if n > 4294967295 {
            return Err(Fault::Memory);
        }
        self.add_function(alloc, f, is_block, values)?;
        self.bind_name(alloc, f.line, &f.name, Const::Function(n as u32))
    }

    /// Whether a function may be called: one that isn't a block only where the module has bound it.
    fn may_be_called(&self, n: u32, f: &Function<'a>) -> bool
        ensures { result ≡ spec.may_be_called_at (world self.now) n f.now.is_block }
    {
        if f.is_block {
            return true;
        }
        match self.known.get(n as usize) {
            Some(known) => *known,
            None => false,
        }
    }

    /// What is called, with the value of each of its parameters.
    pub fn callee(
        &self,
        alloc: Global,
        line: u32,
        n: u32,
        arguments: &[Argument],
        values: &[Const],
    ) -> Result<Called<'a>, Fault<CodeAt>>
        ensures { Does called_of (spec.callee line n (keys_of (map given_of arguments.now)) values.now (world self.now)) result (world self.now) }
    {
        let Some(f) = self.functions.get(n as usize) else {
            return refuse(Code::E10KindClash, line);
        };
        if !self.may_be_called(n, f) {
            return refuse(Code::E2NotElaborable, line);
        }
        match matched(alloc, f.params.as_slice(), arguments, values)? {
            None => refuse(Code::E3BadArguments, line),
            Some(given) => Ok(Called {
                line: f.line,
                name: f.name.copy(alloc)?,
                is_block: f.is_block,
                body: f.body,
                home: f.home,
                arguments: given,
            }),
        }
    }

    /// A call of a function under `@block` begins: the instance that it makes.
    fn enter_block(
        &mut self,
        alloc: Global,
        d: &Called<'a>,
    ) -> Result<(u32, Option<u32>), Fault<CodeAt>>
        ensures { Does same (spec.enter_block (called_of d.now) (world self.old)) result (world self.new) }
    {
        let caller = self.current;
        let n = self.instances.len();
        if n > 4294967295 {
            return Err(Fault::Memory);
        }
        let name = d.name.copy(alloc)?;
        let arguments = copy_bindings(alloc, d.arguments.as_slice())?;
        self.new_instance(alloc, name, d.line, arguments)?;
        self.new_frame(alloc, d.home, Some(n as u32))?;
        self.bind_all(alloc, d.arguments.as_slice())?;
        Ok((caller, Some(n as u32)))
    }

    /// A call of a plain function begins.
    fn enter_plain(
        &mut self,
        alloc: Global,
        d: &Called<'a>,
    ) -> Result<(u32, Option<u32>), Fault<CodeAt>>
        ensures { Does same (spec.enter_plain (called_of d.now) (world self.old)) result (world self.new) }
    {
        let caller = self.current;
        let inside = self.inside();
        self.new_frame(alloc, d.home, inside)?;
        self.bind_all(alloc, d.arguments.as_slice())?;
        Ok((caller, None))
    }

    /// A call begins, in a frame of its own: the frame in which the caller goes on, and the instance
    /// that the call makes, if it is that of a block.
    pub fn enter(
        &mut self,
        alloc: Global,
        d: &Called<'a>,
    ) -> Result<(u32, Option<u32>), Fault<CodeAt>>
        ensures { Does same (spec.enter (called_of d.now) (world self.old)) result (world self.new) }
    {
        if d.is_block {
            self.enter_block(alloc, d)
        } else {
            self.enter_plain(alloc, d)
        }
    }

    /// A `return` with a value.
    pub fn returned(&self, line: u32, v: Const) -> Result<Flow, Fault<CodeAt>>
        ensures { Does same (spec.returned line v (world self.now)) result (world self.now) }
    {
        if self.current == 0 {
            return refuse(Code::E2NotElaborable, line);
        }
        Ok(Flow::Returns(line, v))
    }

    /// What the call of a block gives: its instance, if it has returned one.
    fn instance_of(
        &mut self,
        alloc: Global,
        line: u32,
        i: u32,
        flow: Flow,
    ) -> Result<Const, Fault<CodeAt>>
        ensures { Does same (spec.instance_of line i flow (world self.old)) result (world self.new) }
    {
        match flow {
            Flow::Returns(at, v) => self.instance(alloc, at, i, &v),
            Flow::Goes | Flow::Leaves | Flow::Again => refuse(Code::E6BadReturn, line),
        }
    }

    /// A call of the function whose definition is at a line ends, and the caller goes on.
    pub fn leave(
        &mut self,
        alloc: Global,
        line: u32,
        caller: (u32, Option<u32>),
        flow: Flow,
    ) -> Result<Const, Fault<CodeAt>>
        ensures { Does same (spec.leave line caller flow (world self.old)) result (world self.new) }
    {
        self.back_to(caller.0);
        match caller.1 {
            None => Ok(value_of(flow)),
            Some(i) => self.instance_of(alloc, line, i, flow),
        }
    }
}

/// What a call of a plain function gives.
fn value_of(flow: Flow) -> Const
    ensures { result ≡ spec.value_of flow }
{
    match flow {
        Flow::Returns(_, v) => v,
        Flow::Goes | Flow::Leaves | Flow::Again => Const::None,
    }
}
