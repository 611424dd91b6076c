// How the arguments of a call are given, and what each parameter gets.
ghost use Rattle.std.specs.Prelude.{◌≡◌, ◌≤◌, [], Some, None, map, length, IfOk, bytes_eq, drop, option_copied, if◌then◌else◌};
ghost use Rattle.std.specs.Option.{option_map};
ghost use Rattle.mh_consts.specs.Expression.{given_of, key_of, keys_of};
ghost use Rattle.mh_world.specs.Arguments as spec;
ghost use Rattle.mh_world.specs.View.{arguments_of};

use mh_consts::{Const, Names};
use mh_pytree::Argument;
use mh_text::{Memory, Text};
use sqlite_items::Items;
use std::alloc::Global;

/// The values of the arguments of a call: those by position, and then those by name, whose names differ.
#[derive(Drop)]
pub(crate) struct Arguments<'v> {
    pub positional: &'v [Const],
    pub named: Names<Const>,
}

/// Whether a name is this word.
pub(crate) fn is_word(name: &Text, word: &[u8]) -> bool
    ensures { result ≡ bytes_eq name.now word.now }
{
    name.bytes() == word
}

/// The name of an argument, if it has one, lent.
#[tactic(auto, using(mh_consts::proofs::Shapes::shapes))]
fn key(argument: &Argument) -> Option<&Text>
    ensures { option_copied result ≡ key_of (given_of argument.now) }
{
    argument.name.as_ref()
}

/// The only one of these, lent.
pub(crate) fn only(values: &[Const]) -> Option<&Const>
    ensures { option_copied result ≡ spec.only values.now }
{
    match values {
        [v] => Some(v),
        _ => None,
    }
}

/// The value of the one argument, if it is given by position, lent.
pub(crate) fn one_positional<'v>(arguments: &[Argument], values: &'v [Const]) -> Option<&'v Const>
    ensures { option_copied result ≡ spec.one_positional (keys_of (map given_of arguments.now)) values.now }
{
    match arguments {
        [argument] => match key(argument) {
            None => only(values),
            Some(_) => None,
        },
        _ => None,
    }
}

/// How many arguments come before the first one by name.
fn count_positional(arguments: &[Argument]) -> usize
    ensures count { result ≡ spec.count_positional (keys_of (map given_of arguments.now)) }
    ensures within { result ≤ length arguments.now }
{
    let mut count = 0;
    for argument in arguments {
        if key(argument).is_some() {
            return count;
        }
        count += 1;
    }
    count
}

/// One value by name more; whether it has a name that was not met yet.
fn name_one(
    alloc: Global,
    found: &mut Names<Const>,
    argument: &Argument,
    v: &Const,
) -> Result<bool, Memory>
    ensures { IfOk result (λ more. spec.named_more found.old (key_of (given_of argument.now)) v.now ≡ (if more then Some found.new else None)) }
{
    match key(argument) {
        None => Ok(false),
        Some(name) => {
            if found.find(name).is_some() {
                return Ok(false);
            }
            found.bind(name.copy(alloc)?, v.copy(alloc)?)?;
            Ok(true)
        }
    }
}

/// The values by name, if all of these have a name and no name comes twice.
fn named(
    alloc: Global,
    arguments: &[Argument],
    values: &[Const],
) -> Result<Option<Names<Const>>, Memory>
    ensures { IfOk result (λ named. named ≡ spec.named_onto [] (keys_of (map given_of arguments.now)) values.now) }
{
    let mut found = Names::new(alloc);
    let mut rest = values;
    for argument in arguments {
        match rest {
            [] => return Ok(None),
            [v, more @ ..] => {
                if !name_one(alloc, &mut found, argument, v)? {
                    return Ok(None);
                }
                rest = more;
            }
        }
    }
    if rest.is_empty() {
        Ok(Some(found))
    } else {
        Ok(None)
    }
}

/// The arguments of a call, if none by position stands after one by name and no name comes twice.
#[tactic(auto, using(crate::proofs::Splits::split_short))]
pub(crate) fn split<'v>(
    alloc: Global,
    arguments: &[Argument],
    values: &'v [Const],
) -> Result<Option<Arguments<'v>>, Memory>
    ensures { IfOk result (λ found. option_map arguments_of found ≡ spec.split (keys_of (map given_of arguments.now)) values.now) }
{
    let count = count_positional(arguments);
    if count > values.len() {
        return Ok(None);
    }
    match named(alloc, &arguments[count..], &values[count..])? {
        Some(named) => Ok(Some(Arguments {
            positional: &values[..count],
            named,
        })),
        None => Ok(None),
    }
}

/// The names of parameters.
fn names_of(alloc: Global, params: &[(Text, Option<Const>)]) -> Result<Names<bool>, Memory>
    ensures { IfOk result (λ known. known ≡ spec.names_onto [] params.now) }
{
    let mut known = Names::new(alloc);
    for param in params {
        known.bind(param.0.copy(alloc)?, true)?;
    }
    Ok(known)
}

/// Whether each name is known.
#[tactic(auto, using(crate::proofs::Places::known_step))]
fn all_known(known: &Names<bool>, named: &Names<Const>) -> Result<bool, Memory>
    ensures { IfOk result (λ all. all ≡ spec.all_known known.now named.now) }
{
    let mut place: usize = 0;
    while let Some(name) = named.name_at(place) {
        if known.find(name).is_none() {
            return Ok(false);
        }
        let Some(next) = place.checked_add(1) else {
            return Err(Memory);
        };
        place = next;
    }
    Ok(true)
}

/// Whether each argument by name is that of a parameter.
#[tactic(auto, using(crate::proofs::Places::none_named))]
fn all_are_parameters(
    alloc: Global,
    params: &[(Text, Option<Const>)],
    named: &Names<Const>,
) -> Result<bool, Memory>
    ensures { IfOk result (λ all. all ≡ spec.all_parameters params.now named.now) }
{
    if named.name_at(0).is_none() {
        return Ok(true);
    }
    let known = names_of(alloc, params)?;
    all_known(&known, named)
}

/// The value of a parameter that isn't given by position.
fn named_or_default(
    alloc: Global,
    param: &(Text, Option<Const>),
    named: &Names<Const>,
) -> Result<Option<Const>, Memory>
    ensures { IfOk result (λ v. v ≡ spec.named_or_default param.now named.now) }
{
    match named.find(&param.0) {
        Some(v) => Ok(Some(v.copy(alloc)?)),
        None => match &param.1 {
            Some(v) => Ok(Some(v.copy(alloc)?)),
            None => Ok(None),
        },
    }
}

/// The value of a parameter: of the argument at its place, unless it is given by name too.
fn value_of_parameter(
    alloc: Global,
    param: &(Text, Option<Const>),
    at_place: Option<&Const>,
    named: &Names<Const>,
) -> Result<Option<Const>, Memory>
    ensures { IfOk result (λ v. v ≡ spec.value_of_parameter param.now (option_copied at_place.entry) named.now) }
{
    match at_place {
        None => named_or_default(alloc, param, named),
        Some(v) => {
            if named.find(&param.0).is_some() {
                return Ok(None);
            }
            Ok(Some(v.copy(alloc)?))
        }
    }
}

/// What comes after the first.
pub(crate) fn behind(values: &[Const]) -> &[Const]
    ensures { result.now ≡ drop 1 values.now }
{
    match values {
        [] => values,
        [_, rest @ ..] => rest,
    }
}

/// The value of each parameter, if each has one and none by position is left.
fn filled(
    alloc: Global,
    params: &[(Text, Option<Const>)],
    positional: &[Const],
    named: &Names<Const>,
) -> Result<Option<Items<(Text, Const)>>, Memory>
    ensures { IfOk result (λ all. all ≡ spec.filled_onto [] params.now positional.now named.now) }
{
    let mut all = Items::new(alloc);
    let mut rest = positional;
    for param in params {
        match value_of_parameter(alloc, param, rest.get(0), named)? {
            Some(v) => all.push((param.0.copy(alloc)?, v))?,
            None => return Ok(None),
        }
        rest = behind(rest);
    }
    if rest.is_empty() {
        Ok(Some(all))
    } else {
        Ok(None)
    }
}

/// The value of each parameter, in their order, if the arguments fit.
pub(crate) fn matched(
    alloc: Global,
    params: &[(Text, Option<Const>)],
    arguments: &[Argument],
    values: &[Const],
) -> Result<Option<Items<(Text, Const)>>, Memory>
    ensures { IfOk result (λ all. all ≡ spec.matched params.now (keys_of (map given_of arguments.now)) values.now) }
{
    let Some(given) = split(alloc, arguments, values)? else {
        return Ok(None);
    };
    if !all_are_parameters(alloc, params, &given.named)? {
        return Ok(None);
    }
    filled(alloc, params, given.positional, &given.named)
}
