// What an operation gives at the values of its parts, calls of functions of the source aside.
ghost use Rattle.std.specs.Prelude.{◌≡◌, Some, OnOk, bytes_eq, map, option_copied};
ghost use Rattle.std.specs.List.{list_any};
ghost use Rattle.mh_consts.specs.Expression as x;
ghost use Rattle.mh_pytree.specs.declared.expression.PyExpr.TheVariants as tree;
ghost use Rattle.mh_consts.specs.Expression.{ex_of, given_of, keys_of};
ghost use Rattle.mh_world.specs.Heads as spec;
ghost use Rattle.mh_world.specs.Seen as seen;
ghost use Rattle.mh_world.specs.Seen.{scope_of};
ghost use Rattle.mh_world.specs.View.{world, Does, same};

use crate::arguments::{behind, is_word, one_positional};
use crate::fault::refuse;
use crate::state::State;
use mh_consts::{Builtin, Const, Names, attribute_in, maker, operate};
use mh_pytree::{Argument, PyExpr};
use mh_text::{Code, CodeAt, Fault, Memory, Refusal, Text};
use sqlite_items::{Items, at};
use std::alloc::Global;

/// The name that an operation looks up, lent.
#[tactic(auto, using(crate::proofs::Operations::looked_up))]
fn name_looked_up(e: &PyExpr) -> Option<&Text>
    ensures { spec.names_held (option_copied result) ≡ spec.names_in (ex_of e.now) }
{
    match e {
        PyExpr::Group(a) => name_looked_up(a.get()),
        PyExpr::Slice(base, _, lower) => match lower {
            None => maker(base.get()),
            Some(_) => None,
        },
        PyExpr::Name(_)
        | PyExpr::Number(_)
        | PyExpr::Str(_)
        | PyExpr::True
        | PyExpr::False
        | PyExpr::None
        | PyExpr::Bracketed(_)
        | PyExpr::Tuple(_)
        | PyExpr::List(_)
        | PyExpr::Comprehension(_, _, _)
        | PyExpr::Not(_)
        | PyExpr::Unary(_, _)
        | PyExpr::Binary(_, _, _)
        | PyExpr::Attribute(_, _)
        | PyExpr::Call(_, _)
        | PyExpr::Index(_, _)
        | PyExpr::Whole(_) => None,
    }
}

/// Whether an expression makes a tuple.
fn makes_tuple(e: &PyExpr) -> bool {
    match e {
        PyExpr::Group(a) => makes_tuple(a.get()),
        PyExpr::Bracketed(_) | PyExpr::Tuple(_) => true,
        _ => false,
    }
}

/// Whether a name is that of another method that lists have in Python.
fn is_list_method(name: &Text) -> bool
    ensures { result ≡ list_any (bytes_eq name.now) spec.list_methods }
{
    if is_word(name, b"extend")
        || is_word(name, b"insert")
        || is_word(name, b"remove")
        || is_word(name, b"pop")
        || is_word(name, b"clear")
    {
        return true;
    }
    is_word(name, b"index")
        || is_word(name, b"count")
        || is_word(name, b"sort")
        || is_word(name, b"reverse")
        || is_word(name, b"copy")
}

impl<'a> State<'a> {
    /// The one name that an operation may look up is what it may speak of.
    fn speak_of(&mut self, alloc: Global, e: &PyExpr) -> Result<(), Memory>
        ensures kept { world self.new ≡ world self.old }
        ensures scope { OnOk result (self.new.scope ≡ scope_of (world self.old) (spec.names_in (ex_of e.now))) }
    {
        let mut names = Names::new(alloc);
        if let Some(t) = name_looked_up(e) {
            self.know(alloc, &mut names, t)?;
        }
        self.scope.names = names;
        Ok(())
    }

    /// What a name is bound to, among the names that may be spoken of.
    pub fn know(&self, alloc: Global, names: &mut Names<Const>, t: &Text) -> Result<(), Memory>
        ensures { OnOk result (names.new ≡ seen.known_as names.old t.now (seen.find (world self.now) t.now)) }
    {
        match self.find(t) {
            Some(v) => names.bind(t.copy(alloc)?, v.copy(alloc)?),
            None => Ok(()),
        }
    }

    /// An operation of constants.
    pub fn computed(
        &mut self,
        alloc: Global,
        line: u32,
        e: &PyExpr,
        values: &[Const],
    ) -> Result<Const, Fault<CodeAt>>
        ensures { Does same (spec.computed_in line (ex_of e.now) values.now (world self.old)) result (world self.new) }
    {
        self.speak_of(alloc, e)?;
        match operate(alloc, e, values, &self.scope) {
            Ok(v) => {
                if makes_tuple(e) {
                    self.pool.keep(&v)?;
                }
                Ok(v)
            }
            Err(Refusal::At { code, .. }) => refuse(code, line),
            Err(Refusal::Memory) => Err(Fault::Memory),
        }
    }

    /// `list.append(v)`
    fn append_one(
        &mut self,
        alloc: Global,
        line: u32,
        n: u32,
        arguments: &[Argument],
        values: &[Const],
    ) -> Result<Const, Fault<CodeAt>>
        ensures { Does same (spec.append_one line n (keys_of (map given_of arguments.now)) values.now (world self.old)) result (world self.new) }
    {
        match one_positional(arguments, values) {
            Some(v) => {
                let own = v.copy(alloc)?;
                self.append(alloc, line, n, own)
            }
            None => refuse(Code::E3BadArguments, line),
        }
    }

    /// A method of a list.
    fn list_method(
        &mut self,
        alloc: Global,
        line: u32,
        name: &Text,
        arguments: &[Argument],
        n: u32,
        values: &[Const],
    ) -> Result<Const, Fault<CodeAt>>
        ensures { Does same (spec.list_method line name.now (keys_of (map given_of arguments.now)) n values.now (world self.old)) result (world self.new) }
    {
        if is_word(name, b"append") {
            self.append_one(alloc, line, n, arguments, values)
        } else if is_list_method(name) {
            refuse(Code::E2NotElaborable, line)
        } else {
            refuse(Code::E10KindClash, line)
        }
    }

    /// A method. The values are the base and the arguments.
    #[tactic(auto, using(mh_consts::proofs::Values::values, crate::proofs::Operations::computed_head))]
    fn method(
        &mut self,
        alloc: Global,
        line: u32,
        e: &PyExpr,
        name: &Text,
        arguments: &[Argument],
        values: &[Const],
    ) -> Result<Const, Fault<CodeAt>>
        requires { spec.head_in (ex_of e.now) ≡ Some (x.Method name.now (keys_of (map given_of arguments.now))) }
        ensures { Does same (spec.operate line (x.Method name.now (keys_of (map given_of arguments.now))) values.now (world self.old)) result (world self.new) }
    {
        let rest = behind(values);
        match at(values, 0) {
            None => refuse(Code::E10KindClash, line),
            Some(base) => match base {
                Const::List(n) => self.list_method(alloc, line, name, arguments, *n, rest),
                Const::Instance(i) => self.instance_method(alloc, line, name, arguments, *i, rest),
                _ => self.computed(alloc, line, e, values),
            },
        }
    }

    /// What a function that MyHDL or Python has gives at its arguments. The values are the function and
    /// these.
    #[tactic(auto, using(crate::proofs::Operations::computed_head))]
    pub fn call_builtin(
        &mut self,
        alloc: Global,
        line: u32,
        e: &PyExpr,
        builtin: Builtin,
        arguments: &[Argument],
        values: &[Const],
    ) -> Result<Const, Fault<CodeAt>>
        requires { spec.head_in (ex_of e.now) ≡ Some (x.Call (keys_of (map given_of arguments.now))) }
        ensures { Does same (spec.call_builtin line builtin (keys_of (map given_of arguments.now)) values.now (world self.old)) result (world self.new) }
    {
        let rest = behind(values);
        match builtin {
            Builtin::Signal => self.make_signal(alloc, line, arguments, rest),
            Builtin::ResetSignal => self.make_reset(alloc, line, arguments, rest),
            Builtin::Enum => self.make_enum(alloc, line, arguments, rest),
            Builtin::Delay => self.make_delay(line, arguments, rest),
            Builtin::Instances => self.find_instances(alloc, line, arguments),
            Builtin::Range => self.computed(alloc, line, e, values),
            Builtin::Downrange => self.computed(alloc, line, e, values),
            Builtin::Len => self.computed(alloc, line, e, values),
            Builtin::Int => self.computed(alloc, line, e, values),
            Builtin::Bool => self.computed(alloc, line, e, values),
            Builtin::Intbv => self.computed(alloc, line, e, values),
            Builtin::Modbv => self.computed(alloc, line, e, values),
            Builtin::Concat => self.computed(alloc, line, e, values),
            Builtin::Block
            | Builtin::Instance
            | Builtin::Always
            | Builtin::AlwaysComb
            | Builtin::AlwaysSeq
            | Builtin::Now
            | Builtin::StopSimulation
            | Builtin::Print => refuse(Code::E2NotElaborable, line),
        }
    }

    /// A call that is none of a function of the source: of a method, or of what is no attribute.
    #[tactic(auto, using(crate::proofs::Operations::head_call, crate::proofs::Operations::operate_call))]
    fn call(
        &mut self,
        alloc: Global,
        line: u32,
        e: &PyExpr,
        f: &PyExpr,
        arguments: &[Argument],
        values: &[Const],
    ) -> Result<Const, Fault<CodeAt>>
        requires { e.now ≡ tree.Call f.now arguments.now }
        ensures { Does same (spec.operate_in line (ex_of e.now) values.now (world self.old)) result (world self.new) }
    {
        match attribute_in(f) {
            Some(name) => self.method(alloc, line, e, name, arguments, values),
            None => self.computed(alloc, line, e, values),
        }
    }

    /// An operation that is no call of a function.
    #[tactic(auto, using(crate::proofs::Operations::operations))]
    pub fn operate(
        &mut self,
        alloc: Global,
        line: u32,
        e: &PyExpr,
        values: Items<Const>,
    ) -> Result<Const, Fault<CodeAt>>
        ensures { Does same (spec.operate_in line (ex_of e.now) values (world self.old)) result (world self.new) }
    {
        match e {
            PyExpr::Group(a) => self.operate(alloc, line, a.get(), values),
            PyExpr::List(_) => self.new_list(line, values),
            PyExpr::Call(f, arguments) => {
                self.call(
                    alloc,
                    line,
                    e,
                    f.get(),
                    arguments.as_slice(),
                    values.as_slice(),
                )
            }
            PyExpr::Name(_)
            | PyExpr::Number(_)
            | PyExpr::Str(_)
            | PyExpr::True
            | PyExpr::False
            | PyExpr::None
            | PyExpr::Bracketed(_)
            | PyExpr::Tuple(_)
            | PyExpr::Comprehension(_, _, _)
            | PyExpr::Not(_)
            | PyExpr::Unary(_, _)
            | PyExpr::Binary(_, _, _)
            | PyExpr::Attribute(_, _)
            | PyExpr::Index(_, _)
            | PyExpr::Slice(_, _, _)
            | PyExpr::Whole(_) => self.computed(alloc, line, e, values.as_slice()),
        }
    }
}
