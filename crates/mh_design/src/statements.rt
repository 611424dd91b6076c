// What is asked of each statement by itself.
ghost use Rattle.std.specs.Prelude.{◌≡◌, map, Option, false, true};
ghost use Rattle.std.specs.Option.{option_map_or};
ghost use Rattle.std.specs.List.{list_all, flat_map};
ghost use Rattle.mh_design.specs.Tree.{expression_of, base_of, left_of, printed_of, statement_of, arm_of, block, arms};
ghost use Rattle.mh_design.specs.Numbering.{left_indices, base_indices, printed_numbers, arm_test, arm_tests, own_expressions, statements, block_statements, arm_statements, arms_statements};
ghost use Rattle.mh_design.specs.Statements as spec;
ghost use Rattle.mh_design.specs.Constants.{constants_keep as keeps};
ghost use Rattle.mh_design.specs.Kinds.{signal_kind as signal_kind_of, local_kind as local_kind_of, kind_of as kind_of_expression};

use crate::constants::{constants_keep, target_keeps};
use crate::design::{Design, Kind, Local, Wait};
use crate::expression::GExpr;
use crate::kinds::{ValueKind, is_number, kind_of, local_kind, mem_kind, signal_kind};
use crate::statement::{Binding, Branch, GStmt, Place, PrintPart, Target};

/// An expression that is a number.
fn is_numeric(d: &Design, locals: &[Local], e: &GExpr) -> bool
    ensures { result ≡ spec.is_numeric d.now locals.now (expression_of e.now) }
{
    match kind_of(d, locals, e) {
        Some(k) => is_number(k),
        None => false,
    }
}

/// An expression that is an integer.
fn is_integer(d: &Design, locals: &[Local], e: &GExpr) -> bool
    ensures { result ≡ spec.is_integer d.now locals.now (expression_of e.now) }
{
    match kind_of(d, locals, e) {
        Some(ValueKind::Int) => true,
        Some(ValueKind::Bool) => false,
        Some(ValueKind::Bits(_)) => false,
        Some(ValueKind::Item(_)) => false,
        None => false,
    }
}

/// A place of the declared kind takes values of this kind.
pub fn takes(kind: Kind, value: ValueKind) -> bool
    ensures { result ≡ spec.takes kind value }
{
    match kind {
        Kind::Bool => is_number(value),
        Kind::Int => is_number(value),
        Kind::Bits(_) => is_number(value),
        Kind::Item(e) => match value {
            ValueKind::Bool => false,
            ValueKind::Int => false,
            ValueKind::Bits(_) => false,
            ValueKind::Item(f) => f == e,
        },
    }
}

/// The kind of bounded numbers.
pub fn is_bits_kind(kind: Kind) -> bool
    ensures { result ≡ spec.is_bits_kind kind }
{
    match kind {
        Kind::Bool => false,
        Kind::Int => false,
        Kind::Bits(_) => true,
        Kind::Item(_) => false,
    }
}

/// The kind of truth values.
pub fn is_bool_kind(kind: Kind) -> bool
    ensures { result ≡ spec.is_bool_kind kind }
{
    match kind {
        Kind::Bool => true,
        Kind::Int => false,
        Kind::Bits(_) => false,
        Kind::Item(_) => false,
    }
}

/// The kind of integers without bounds.
pub fn is_int_kind(kind: Kind) -> bool
    ensures { result ≡ spec.is_int_kind kind }
{
    match kind {
        Kind::Bool => false,
        Kind::Int => true,
        Kind::Bits(_) => false,
        Kind::Item(_) => false,
    }
}

/// The declared kind of what is assigned.
fn place_kind(d: &Design, locals: &[Local], place: &Place) -> Option<Kind>
    ensures { result ≡ spec.base_kind d.now locals.now (base_of place.now) }
{
    match place {
        Place::Signal(s) => signal_kind(d, *s),
        Place::Element(m, _) => mem_kind(d, *m),
        Place::Local(v) => local_kind(locals, *v),
    }
}

/// The index of an element is a number.
fn place_fits(d: &Design, locals: &[Local], place: &Place) -> bool
    ensures { result ≡ spec.base_fits d.now locals.now (base_of place.now) }
{
    match place {
        Place::Signal(_) => true,
        Place::Element(_, i) => is_numeric(d, locals, i),
        Place::Local(_) => true,
    }
}

/// A signal or an element.
fn is_no_local(place: &Place) -> bool
    ensures { result ≡ spec.is_no_local (base_of place.now) }
{
    match place {
        Place::Signal(_) => true,
        Place::Element(_, _) => true,
        Place::Local(_) => false,
    }
}

/// What is assigned is a bounded number.
fn has_bits(d: &Design, locals: &[Local], place: &Place) -> bool
    ensures { result ≡ spec.has_bits d.now locals.now (base_of place.now) }
{
    match place_kind(d, locals, place) {
        Some(k) => is_bits_kind(k),
        None => false,
    }
}

/// What is assigned as a whole takes a value of this kind.
fn whole_takes(d: &Design, locals: &[Local], place: &Place, value: ValueKind) -> bool
    ensures { result ≡ option_map_or (λ x. spec.takes x value) (spec.base_kind d.now locals.now (base_of place.now)) false }
{
    match place_kind(d, locals, place) {
        Some(k) => takes(k, value),
        None => false,
    }
}

/// `v = e` keeps the kind of the local.
pub fn bound_takes(kind: Kind, value: ValueKind) -> bool
    ensures { result ≡ spec.bound_takes kind value }
{
    match kind {
        Kind::Bool => match value {
            ValueKind::Bool => true,
            ValueKind::Int => false,
            ValueKind::Bits(_) => false,
            ValueKind::Item(_) => false,
        },
        Kind::Int => is_number(value),
        Kind::Bits(_) => false,
        Kind::Item(_) => takes(kind, value),
    }
}

/// A local of the declared kind is given a value of this kind.
pub fn binding_takes(binding: Binding, kind: Kind, value: ValueKind) -> bool
    ensures { result ≡ spec.binding_takes binding kind value }
{
    match binding {
        Binding::Plain => bound_takes(kind, value),
        Binding::Bounded(_) => is_bits_kind(kind) && is_number(value),
        Binding::LowBits(n, _) => is_bits_kind(kind) && is_number(value) && 1 <= n && n <= 127,
    }
}

/// The left side takes a value of this kind.
fn target_takes(d: &Design, locals: &[Local], target: &Target, value: ValueKind) -> bool
    ensures { result ≡ spec.left_takes d.now locals.now (left_of target.now) value }
{
    match target {
        Target::Whole(p) => {
            place_fits(d, locals, p)
                && (is_no_local(p) || has_bits(d, locals, p))
                && whole_takes(d, locals, p, value)
        }
        Target::Bit(p, i) => {
            place_fits(d, locals, p)
                && has_bits(d, locals, p)
                && is_numeric(d, locals, i)
                && is_number(value)
        }
        Target::Slice(p, i, j) => {
            place_fits(d, locals, p)
                && has_bits(d, locals, p)
                && is_numeric(d, locals, i)
                && is_numeric(d, locals, j)
                && is_number(value)
        }
        Target::Bind(v, binding) => match local_kind(locals, *v) {
            Some(k) => binding_takes(*binding, k, value),
            None => false,
        },
    }
}

/// A signal of truth values.
fn is_bool_signal(d: &Design, signal: u32) -> bool
    ensures { result ≡ option_map_or spec.is_bool_kind (signal_kind_of d.now signal) false }
{
    match signal_kind(d, signal) {
        Some(k) => is_bool_kind(k),
        None => false,
    }
}

/// What is waited for is there.
pub fn wait_fits(d: &Design, wait: Wait) -> bool
    ensures { result ≡ spec.wait_fits d.now wait }
{
    match wait {
        Wait::Change(s) => (s as usize) < d.signals.len(),
        Wait::Edge(s, _) => is_bool_signal(d, s),
        Wait::Delay(n) => 1 <= n && n <= 2147483647,
    }
}

/// All that is waited for is there.
pub fn waits_fit(d: &Design, waits: &[Wait]) -> bool
    ensures { result ≡ list_all (spec.wait_fits d.now) waits.now }
{
    for wait in waits {
        if !wait_fits(d, *wait) {
            return false;
        }
    }
    true
}

/// What is printed is text or an integer.
fn printed_fits(d: &Design, locals: &[Local], part: &PrintPart) -> bool
    ensures { result ≡ spec.printed_fits d.now locals.now (printed_of part.now) }
{
    match part {
        PrintPart::Text(_) => true,
        PrintPart::Number(e) => is_integer(d, locals, e),
    }
}

/// All that is printed is text or an integer.
fn all_printed_fit(d: &Design, locals: &[Local], parts: &[PrintPart]) -> bool
    ensures { result ≡ list_all (spec.printed_fits d.now locals.now) (map printed_of parts.now) }
{
    for part in parts {
        if !printed_fits(d, locals, part) {
            return false;
        }
    }
    true
}

/// The variable of a loop is an integer.
fn is_loop_local(locals: &[Local], variable: u32) -> bool
    ensures { result ≡ option_map_or spec.is_int_kind (local_kind_of locals.now variable) false }
{
    match local_kind(locals, variable) {
        Some(k) => is_int_kind(k),
        None => false,
    }
}

/// The condition of a branch is a number.
#[tactic(auto, using(crate::proofs::Shapes::statements))]
fn test_fits(d: &Design, locals: &[Local], branch: &Branch) -> bool
    ensures { result ≡ spec.is_numeric d.now locals.now (arm_test (arm_of branch.now)) }
{
    is_numeric(d, locals, &branch.test)
}

/// The conditions of an `if` are numbers.
#[tactic(auto, using(crate::proofs::Shapes::statements))]
fn tests_fit(d: &Design, locals: &[Local], branches: &[Branch]) -> bool
    ensures { result ≡ list_all (spec.is_numeric d.now locals.now) (arm_tests (arms (map arm_of branches.now))) }
{
    for branch in branches {
        if !test_fits(d, locals, branch) {
            return false;
        }
    }
    true
}

/// The value fits the left side of an assignment.
fn set_fits(d: &Design, locals: &[Local], target: &Target, value: &GExpr) -> bool
    ensures { result ≡ option_map_or (spec.left_takes d.now locals.now (left_of target.now)) (kind_of_expression d.now locals.now (expression_of value.now)) false }
{
    match kind_of(d, locals, value) {
        Some(k) => target_takes(d, locals, target, k),
        None => false,
    }
}

/// The kinds of a statement's own parts fit.
#[tactic(auto, using(crate::proofs::Shapes::statements))]
fn kinds_fit(d: &Design, locals: &[Local], s: &GStmt) -> bool
    ensures { result ≡ spec.kinds_fit d.now locals.now (statement_of s.now) }
{
    match s {
        GStmt::Set { target, value, .. } => set_fits(d, locals, target, value),
        GStmt::If { branches, .. } => tests_fit(d, locals, branches.as_slice()),
        GStmt::While { test, .. } => is_numeric(d, locals, test),
        GStmt::For {
            variable,
            from,
            to,
            step,
            ..
        } => {
            is_loop_local(locals, *variable)
                && *step != 0
                && is_numeric(d, locals, from)
                && is_numeric(d, locals, to)
        }
        GStmt::Break { .. } => true,
        GStmt::Continue { .. } => true,
        GStmt::Yield { waits, .. } => waits_fit(d, waits.as_slice()),
        GStmt::Print { parts, .. } => all_printed_fit(d, locals, parts.as_slice()),
        GStmt::Assert { test, .. } => is_numeric(d, locals, test),
        GStmt::Stop { .. } => true,
    }
}

/// The indices of what is assigned keep the rule of constants.
fn place_indices_keep(d: &Design, locals: &[Local], place: &Place) -> bool
    ensures { result ≡ list_all (keeps d.now locals.now) (base_indices (base_of place.now)) }
{
    match place {
        Place::Signal(_) => true,
        Place::Element(_, i) => constants_keep(d, locals, i),
        Place::Local(_) => true,
    }
}

/// The indices on the left keep the rule of constants.
#[tactic(auto, using(crate::proofs::ListLaws::all_laws))]
fn indices_keep(d: &Design, locals: &[Local], target: &Target) -> bool
    ensures { result ≡ list_all (keeps d.now locals.now) (left_indices (left_of target.now)) }
{
    match target {
        Target::Whole(p) => place_indices_keep(d, locals, p),
        Target::Bit(p, i) => place_indices_keep(d, locals, p) && constants_keep(d, locals, i),
        Target::Slice(p, i, j) => {
            place_indices_keep(d, locals, p)
                && constants_keep(d, locals, i)
                && constants_keep(d, locals, j)
        }
        Target::Bind(_, _) => true,
    }
}

/// The condition of a branch keeps the rule of constants.
#[tactic(auto, using(crate::proofs::Shapes::statements))]
fn test_keeps(d: &Design, locals: &[Local], branch: &Branch) -> bool
    ensures { result ≡ keeps d.now locals.now (arm_test (arm_of branch.now)) }
{
    constants_keep(d, locals, &branch.test)
}

/// The conditions of an `if` keep the rule of constants.
#[tactic(auto, using(crate::proofs::Shapes::statements))]
fn tests_keep(d: &Design, locals: &[Local], branches: &[Branch]) -> bool
    ensures { result ≡ list_all (keeps d.now locals.now) (arm_tests (arms (map arm_of branches.now))) }
{
    for branch in branches {
        if !test_keeps(d, locals, branch) {
            return false;
        }
    }
    true
}

/// What is printed keeps the rule of constants.
fn printed_keeps(d: &Design, locals: &[Local], part: &PrintPart) -> bool
    ensures { result ≡ list_all (keeps d.now locals.now) (printed_numbers (printed_of part.now)) }
{
    match part {
        PrintPart::Text(_) => true,
        PrintPart::Number(e) => constants_keep(d, locals, e),
    }
}

/// All that is printed keeps the rule of constants.
#[tactic(auto, using(crate::proofs::ListLaws::all_laws))]
fn all_printed_keep(d: &Design, locals: &[Local], parts: &[PrintPart]) -> bool
    ensures { result ≡ list_all (keeps d.now locals.now) (flat_map printed_numbers (map printed_of parts.now)) }
{
    for part in parts {
        if !printed_keeps(d, locals, part) {
            return false;
        }
    }
    true
}

/// Constant indices and slices of the statement itself keep their rule.
#[tactic(auto, using(crate::proofs::Shapes::statements, crate::proofs::ListLaws::all_laws))]
fn constants_fit(d: &Design, locals: &[Local], s: &GStmt) -> bool
    ensures { result ≡ spec.constants_fit d.now locals.now (statement_of s.now) }
{
    match s {
        GStmt::Set { target, value, .. } => {
            target_keeps(d, locals, target)
                && indices_keep(d, locals, target)
                && constants_keep(d, locals, value)
        }
        GStmt::If { branches, .. } => tests_keep(d, locals, branches.as_slice()),
        GStmt::While { test, .. } => constants_keep(d, locals, test),
        GStmt::For { from, to, .. } => {
            constants_keep(d, locals, from) && constants_keep(d, locals, to)
        }
        GStmt::Break { .. } => true,
        GStmt::Continue { .. } => true,
        GStmt::Yield { .. } => true,
        GStmt::Print { parts, .. } => all_printed_keep(d, locals, parts.as_slice()),
        GStmt::Assert { test, .. } => constants_keep(d, locals, test),
        GStmt::Stop { .. } => true,
    }
}

/// A `yield` stands only in an `@instance`.
#[tactic(auto, using(crate::proofs::Shapes::statements))]
fn yield_fits(instance: bool, s: &GStmt) -> bool
    ensures { result ≡ spec.yield_fits instance (statement_of s.now) }
{
    match s {
        GStmt::Yield { .. } => instance,
        GStmt::Set { .. } => true,
        GStmt::If { .. } => true,
        GStmt::While { .. } => true,
        GStmt::For { .. } => true,
        GStmt::Break { .. } => true,
        GStmt::Continue { .. } => true,
        GStmt::Print { .. } => true,
        GStmt::Assert { .. } => true,
        GStmt::Stop { .. } => true,
    }
}

/// The statement fits by itself.
fn statement_fits(d: &Design, locals: &[Local], instance: bool, s: &GStmt) -> bool
    ensures { result ≡ spec.statement_fits d.now locals.now instance (statement_of s.now) }
{
    kinds_fit(d, locals, s) && constants_fit(d, locals, s) && yield_fits(instance, s)
}

/// The statement and all that it holds fit.
#[cycle(fitting)]
#[tactic(auto, using(crate::proofs::Shapes::statements, crate::proofs::ListLaws::all_laws))]
fn all_fit(d: &Design, locals: &[Local], instance: bool, s: &GStmt) -> bool
    ensures { result ≡ list_all (spec.statement_fits d.now locals.now instance) (statements (statement_of s.now)) }
{
    if !statement_fits(d, locals, instance, s) {
        return false;
    }
    match s {
        GStmt::If {
            branches,
            other,
            ..
        } => {
            branches_fit(d, locals, instance, branches.as_slice())
                && block_fits(d, locals, instance, other.as_slice())
        }
        GStmt::While { body, .. } => block_fits(d, locals, instance, body.as_slice()),
        GStmt::For { body, .. } => block_fits(d, locals, instance, body.as_slice()),
        GStmt::Set { .. } => true,
        GStmt::Break { .. } => true,
        GStmt::Continue { .. } => true,
        GStmt::Yield { .. } => true,
        GStmt::Print { .. } => true,
        GStmt::Assert { .. } => true,
        GStmt::Stop { .. } => true,
    }
}

/// The statements and all that they hold fit.
#[cycle(fitting)]
#[tactic(auto, using(crate::proofs::Shapes::statements, crate::proofs::ListLaws::all_laws))]
pub fn block_fits(d: &Design, locals: &[Local], instance: bool, body: &[GStmt]) -> bool
    ensures { result ≡ list_all (spec.statement_fits d.now locals.now instance) (block_statements (block (map statement_of body.now))) }
{
    for s in body {
        if !all_fit(d, locals, instance, s) {
            return false;
        }
    }
    true
}

/// The statements of a branch and all that they hold fit.
#[cycle(fitting)]
#[tactic(auto, using(crate::proofs::Shapes::statements, crate::proofs::ListLaws::all_laws))]
fn branch_fits(d: &Design, locals: &[Local], instance: bool, branch: &Branch) -> bool
    ensures { result ≡ list_all (spec.statement_fits d.now locals.now instance) (arm_statements (arm_of branch.now)) }
{
    block_fits(d, locals, instance, branch.body.as_slice())
}

/// The statements of the branches and all that they hold fit.
#[cycle(fitting)]
#[tactic(auto, using(crate::proofs::Shapes::statements, crate::proofs::ListLaws::all_laws))]
fn branches_fit(d: &Design, locals: &[Local], instance: bool, branches: &[Branch]) -> bool
    ensures { result ≡ list_all (spec.statement_fits d.now locals.now instance) (arms_statements (arms (map arm_of branches.now))) }
{
    for branch in branches {
        if !branch_fits(d, locals, instance, branch) {
            return false;
        }
    }
    true
}
