// What stays of a generator in a run.
ghost use Rattle.std.specs.Prelude.{◌≡◌, ◌+◌, ◌^◌, ◌<◌, ◌≤◌, ℕ, true, false, map, length, slice_get, slice_index_or, Some, IfOk};
ghost use Rattle.std.specs.List.{filter, range_with_len};
ghost use Rattle.std.specs.Ordering.{nat_cmp};
ghost use Rattle.std.specs.BTreeSet.{contains};
ghost use Rattle.mh_flat.specs.Flat.{IsCodeOf};
ghost use Rattle.mh_design.specs.declared.design.Design.{Design as SeenDesign};
ghost use Rattle.mh_design.specs.declared.design.Generator.{Generator as Seen};
ghost use Rattle.mh_design.specs.Bodies as bodies;
ghost use Rattle.mh_design.specs.Deltas as deltas;
ghost use Rattle.mh_design.specs.Numbering as numbering;
ghost use Rattle.mh_design.specs.Tree.{printed_of, statement_of};
ghost use Rattle.mh_design.specs.Uses.{waited_by};
ghost use Rattle.mh_sched.specs.Kept.{IsPlan};
ghost use Rattle.mh_sched.specs.Notes as notes;

use crate::statements::{put_lines, put_statements};
use mh_design::{Design, GStmt, GenKind, Generator, PrintPart, Wait, waits};
use mh_flat::Code;
use mh_gen::{BodyCode, MyHdl, code, driven, signal_count};
use mh_text::Memory;
use sqlite_items::Items;
use std::alloc::Global;
use std::collections::BTreeSet;

/// A generator of a run: its code, and what its waits, prints and lines are.
#[derive(Drop)]
pub struct Plan<'a> {
    generator: &'a Generator,
    code: BodyCode<'a>,
    /// The statements of the source, each before those that it holds.
    statements: Vec<&'a GStmt>,
    /// What the wait waits for that the kind of the generator adds.
    waits: Items<Wait>,
    /// How many statements of the code stand before those of the source.
    before: usize,
    /// The lines of the statements of the source, as the code counts them.
    lines: Vec<u32>,
}

/// What a statement waits for.
#[tactic(auto, using(mh_design::proofs::Shapes::statements))]
fn waits_by(s: &GStmt) -> &[Wait]
    ensures { result.now ≡ waited_by (statement_of s.now) }
{
    match s {
        GStmt::Yield { waits, .. } => waits.as_slice(),
        GStmt::Set { .. }
        | GStmt::If { .. }
        | GStmt::While { .. }
        | GStmt::For { .. }
        | GStmt::Break { .. }
        | GStmt::Continue { .. }
        | GStmt::Print { .. }
        | GStmt::Assert { .. }
        | GStmt::Stop { .. } => &[],
    }
}

/// What a statement prints.
#[tactic(auto, using(mh_design::proofs::Shapes::statements))]
fn prints_by(s: &GStmt) -> &[PrintPart]
    ensures { map printed_of result.now ≡ bodies.printed_by (statement_of s.now) }
{
    match s {
        GStmt::Print { parts, .. } => parts.as_slice(),
        GStmt::Set { .. }
        | GStmt::If { .. }
        | GStmt::While { .. }
        | GStmt::For { .. }
        | GStmt::Break { .. }
        | GStmt::Continue { .. }
        | GStmt::Yield { .. }
        | GStmt::Assert { .. }
        | GStmt::Stop { .. } => &[],
    }
}

/// The line of a statement.
#[tactic(auto, using(mh_design::proofs::Shapes::statements))]
fn line_by(s: &GStmt) -> u32
    ensures { result ≡ bodies.line_of (statement_of s.now) }
{
    match s {
        GStmt::Set { line, .. }
        | GStmt::If { line, .. }
        | GStmt::While { line, .. }
        | GStmt::For { line, .. }
        | GStmt::Break { line }
        | GStmt::Continue { line }
        | GStmt::Yield { line, .. }
        | GStmt::Print { line, .. }
        | GStmt::Assert { line, .. }
        | GStmt::Stop { line } => *line,
    }
}

/// One more, where a number is in the set.
fn counted(is_in: bool, many: usize) -> usize
    requires { many < 2 ^ 32 }
    ensures more { is_in ≡ true → result ≡ many + 1 }
    ensures same { is_in ≡ false → result ≡ many }
{
    if is_in { many + 1 } else { many }
}

/// How many of the numbers below `count` are in the set.
fn count_of(found: &BTreeSet<u32>, count: u32) -> usize
    ensures count { result ≡ length (filter (contains nat_cmp found.now) (range_with_len 0 count)) }
    ensures small { result ≤ count }
{
    let mut many = 0;
    for n in 0..count {
        let is_in = found.contains(&n);
        many = counted(is_in, many);
    }
    many
}

/// How many signals a generator drives.
fn driven_count(alloc: Global, d: &Design, g: &Generator) -> Result<usize, Memory>
    ensures count { IfOk result (λ n. n ≡ length (bodies.driven d.now g.now)) }
    ensures small { IfOk result (λ n. n < 2 ^ 32) }
{
    let found = driven(alloc, d, g)?;
    let count = signal_count(d)?;
    Ok(count_of(&found, count))
}

/// How many statements the reset of an `@always_seq` adds.
fn reset_count(
    alloc: Global,
    d: &Design,
    g: &Generator,
    reset: Option<u32>,
) -> Result<usize, Memory>
    ensures count { IfOk result (λ n. n ≡ notes.reset_places d.now g.now reset) }
    ensures small { IfOk result (λ n. n ≤ 2 ^ 32) }
{
    match reset {
        None => Ok(0),
        Some(_) => {
            let count = driven_count(alloc, d, g)?;
            Ok(1 + count)
        }
    }
}

/// How many statements stand before those of the source.
fn count_before(alloc: Global, d: &Design, g: &Generator) -> Result<usize, Memory>
    ensures { IfOk result (λ n. n ≡ notes.places_before d.now g.now g.now.kind) }
{
    match &g.kind {
        GenKind::Comb => Ok(1),
        GenKind::Always(_) => Ok(2),
        GenKind::Seq(_, reset) => {
            let count = reset_count(alloc, d, g, *reset)?;
            Ok(2 + count)
        }
        GenKind::Instance => Ok(0),
    }
}

/// The statements of a generator.
fn all_statements<'a>(alloc: Global, g: &'a Generator) -> Result<Vec<&'a GStmt>, Memory>
    ensures { IfOk result (λ v. notes.seen_statements v.items ≡ numbering.generator_statements g.now) }
{
    let mut all = Vec::new(alloc);
    put_statements(g.body.as_slice(), &mut all)?;
    Ok(all)
}

/// The lines of the statements of a generator.
fn all_lines(alloc: Global, g: &Generator) -> Result<Vec<u32>, Memory>
    ensures { IfOk result (λ v. v.items ≡ bodies.function_lines g.now) }
{
    let mut all = Vec::new(alloc);
    put_lines(g.body.as_slice(), &mut all)?;
    Ok(all)
}

impl<'a> Plan<'a> {
    /// The plan of a generator with this code.
    fn with_code(
        alloc: Global,
        d: &'a Design,
        generator: &'a Generator,
        code: BodyCode<'a>,
    ) -> Result<Plan<'a>, Memory>
        ensures plan { IfOk result (λ p. IsPlan d.now generator.now p) }
        ensures code { IfOk result (λ p. p.code ≡ code.entry) }
    {
        Ok(Plan {
            generator,
            code,
            statements: all_statements(alloc, generator)?,
            waits: waits(alloc, d, generator)?,
            before: count_before(alloc, d, generator)?,
            lines: all_lines(alloc, generator)?,
        })
    }

    /// The plan of the generator with this number.
    pub fn new(alloc: Global, d: &'a Design, number: u32) -> Result<Plan<'a>, Memory>
        requires { number < length d.now.generators }
        ensures plan { IfOk result (λ p. (g : Seen) → slice_get d.now.generators number ≡ Some g → IsPlan d.now g p) }
        ensures code { IfOk result (λ p. (g : Seen) → slice_get d.now.generators number ≡ Some g → IsCodeOf (bodies.generator_flow d.now g) p.code.code) }
    {
        let code = BodyCode {
            code: code(alloc, d, number)?,
        };
        let generator = &d.generators.as_slice()[number as usize];
        let plan = Plan::with_code(alloc, d, generator, code)?;
        Ok(plan)
    }

    /// Its code.
    pub fn code(&self) -> &Code<MyHdl<'a>>
        ensures { result.now ≡ self.now.code.code }
    {
        &self.code.code
    }

    /// What the statement with this number waits for.
    fn yielded(&self, number: u32) -> &[Wait]
        ensures { (d : SeenDesign) (g : Seen) → IsPlan d g self.now → result.now ≡ bodies.waits_at g number }
    {
        match self.statements.get(number as usize) {
            Some(s) => waits_by(s),
            None => &[],
        }
    }

    /// What the generator waits for where its body waits with this number.
    pub fn waited(&self, number: u32) -> &[Wait]
        ensures { (d : SeenDesign) (g : Seen) → IsPlan d g self.now → result.now ≡ bodies.waited d g number }
    {
        match &self.generator.kind {
            GenKind::Instance => self.yielded(number),
            GenKind::Comb | GenKind::Always(_) | GenKind::Seq(_, _) => self.waits.as_slice(),
        }
    }

    /// What the statement with this number prints.
    pub fn printed(&self, number: u32) -> &[PrintPart]
        ensures { (d : SeenDesign) (g : Seen) → IsPlan d g self.now → map printed_of result.now ≡ bodies.prints_at g number }
    {
        match self.statements.get(number as usize) {
            Some(s) => prints_by(s),
            None => &[],
        }
    }

    /// The line of the statement with this number.
    pub fn line(&self, number: u32) -> u32
        ensures { (d : SeenDesign) (g : Seen) → IsPlan d g self.now → result ≡ bodies.line_at g number }
    {
        match self.statements.get(number as usize) {
            Some(s) => line_by(s),
            None => self.generator.line,
        }
    }

    /// The line of the statement of the source at this place among them, as the code counts them.
    fn line_from(&self, at: usize) -> u32
        ensures { result ≡ slice_index_or self.now.lines.items at self.now.generator.now.line }
    {
        match self.lines.get(at) {
            Some(line) => *line,
            None => self.generator.line,
        }
    }

    /// The line of the statement at this place of the code.
    pub fn line_of_place(&self, place: u32) -> u32
        ensures { (d : SeenDesign) (g : Seen) → IsPlan d g self.now → result ≡ deltas.line_of_place d g place }
    {
        let place = place as usize;
        if place < self.before {
            return self.generator.line;
        }
        self.line_from(place - self.before)
    }
}
