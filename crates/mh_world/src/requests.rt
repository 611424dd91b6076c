// What a source asks of instances.
ghost use Rattle.std.specs.Prelude.{◌≡◌, IfOk, map, option_copied};
ghost use Rattle.mh_consts.specs.Expression.{given_of, keys_of};
ghost use Rattle.mh_world.specs.Requests as requests;
ghost use Rattle.mh_world.specs.View.{arguments_of, world, Does, same};

use crate::arguments::{Arguments, is_word, split};
use crate::fault::refuse;
use crate::kinds::{Asked, Verb};
use crate::state::State;
use mh_consts::{Const, content};
use mh_pytree::Argument;
use mh_text::{Code, CodeAt, Fault, Memory, Text};
use std::alloc::Global;

/// The time up to which a run goes.
fn duration_of(n: i128) -> Result<u32, Code>
    ensures { result ≡ requests.duration_of n }
{
    if 0 <= n && n < 2147483648 {
        Ok(n as u32)
    } else {
        Err(Code::E4BadRange)
    }
}

/// The time that a value says; 1,000,000 where there is none.
fn duration_held(v: Option<&Const>) -> Result<u32, Code>
    ensures { result ≡ requests.duration_held (option_copied v.entry) }
{
    match v {
        None => Ok(1000000),
        Some(v) => {
            let n = content(v)?;
            duration_of(n)
        }
    }
}

/// The time that the arguments by position say, or the one by name.
fn duration_in(positional: &[Const], named: Option<&Const>) -> Result<u32, Code>
    ensures { result ≡ requests.duration_in positional.now (option_copied named.entry) }
{
    match positional {
        [] => duration_held(named),
        [v] => match named {
            None => duration_held(Some(v)),
            Some(_) => Err(Code::E3BadArguments),
        },
        [_, _, ..] => Err(Code::E3BadArguments),
    }
}

/// The time that the arguments of `run_sim` say.
fn duration_given(alloc: Global, given: &Arguments) -> Result<Result<u32, Code>, Memory>
    ensures { IfOk result (λ n. n ≡ requests.duration_given (arguments_of given.now)) }
{
    let word = Text::new(alloc, b"duration")?;
    Ok(duration_in(given.positional, given.named.find(&word)))
}

impl<'a> State<'a> {
    /// Notes a request.
    pub(crate) fn ask(
        &mut self,
        verb: Verb,
        instance: u32,
        n: u32,
        line: u32,
    ) -> Result<Const, Fault<CodeAt>>
        ensures { Does same (requests.ask verb instance n line (world self.old)) result (world self.new) }
    {
        self.requests.push(Asked {
            verb,
            instance,
            n,
            line,
        })?;
        Ok(Const::None)
    }

    /// A run for the time that these arguments say.
    fn run_for(
        &mut self,
        alloc: Global,
        line: u32,
        instance: u32,
        given: &Arguments,
    ) -> Result<Const, Fault<CodeAt>>
        ensures { Does same (requests.run_for line instance (arguments_of given.now) (world self.old)) result (world self.new) }
    {
        match duration_given(alloc, given)? {
            Ok(n) => self.ask(Verb::RunSim, instance, n, line),
            Err(code) => refuse(code, line),
        }
    }

    /// `x.run_sim(n)`
    fn run_sim(
        &mut self,
        alloc: Global,
        line: u32,
        instance: u32,
        arguments: &[Argument],
        values: &[Const],
    ) -> Result<Const, Fault<CodeAt>>
        ensures { Does same (requests.run_sim line instance (keys_of (map given_of arguments.now)) values.now (world self.old)) result (world self.new) }
    {
        let Some(given) = split(alloc, arguments, values)? else {
            return refuse(Code::E3BadArguments, line);
        };
        self.run_for(alloc, line, instance, &given)
    }

    /// A method of an instance.
    pub(crate) fn instance_method(
        &mut self,
        alloc: Global,
        line: u32,
        name: &Text,
        arguments: &[Argument],
        instance: u32,
        values: &[Const],
    ) -> Result<Const, Fault<CodeAt>>
        ensures { Does same (requests.instance_method line name.now (keys_of (map given_of arguments.now)) instance values.now (world self.old)) result (world self.new) }
    {
        if is_word(name, b"convert") {
            self.ask(Verb::Convert, instance, 0, line)
        } else if is_word(name, b"run_sim") {
            self.run_sim(alloc, line, instance, arguments, values)
        } else if is_word(name, b"config_sim") || is_word(name, b"quit_sim") {
            Ok(Const::None)
        } else {
            refuse(Code::E10KindClash, line)
        }
    }
}
