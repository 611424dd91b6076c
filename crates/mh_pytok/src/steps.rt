//! The steps by which a source is read.

ghost use Rattle.std.specs.Prelude.{◌≡◌, ◌++◌, ◌+◌, ◌<◌, ◌≤◌, ◌^◌, [], ◌∷◌, drop, length, replicate, OnOk};
ghost use Rattle.mh_text.specs.declared.refusal.Refusal.TheVariants as refusal;
ghost use Rattle.mh_pytok.specs.Layout as spec;
ghost use Rattle.mh_pytok.specs.Pieces.{piece as spec_piece};
ghost use Rattle.mh_pytok.specs.State.{place_of, IsLine, IsState, Gives};

use crate::indents::{innermost_of, leave, push_many, push_one};
use crate::piece::piece;
use crate::scan::{behind, holds_nothing, spaces, spaces_and_tabs};
use crate::shape::{Line, Piece};
use crate::state::State;
use crate::token::{Tok, Token};
use mh_text::{Code, Cursor, Memory, Refusal, Span};
use sqlite_items::Items;
use std::alloc::Global;

/// A token from `start` up to `end`.
fn token(kind: Tok, start: u32, end: u32, line: u32) -> Token
    ensures { result ≡ spec.token kind start end line }
{
    Token {
        kind,
        span: Span { start, end, line },
    }
}

/// The refusal by a rule at a line.
fn refusal(alloc: Global, code: Code, line: u32) -> Refusal
    ensures { result ≡ refusal.At code line [] }
{
    Refusal::At {
        code,
        line,
        names: Items::new(alloc),
    }
}

/// How many brackets are open behind a token.
fn brackets_behind(kind: Tok, brackets: u32) -> u32
    requires { brackets + 1 < 2 ^ 32 }
    ensures { result ≡ spec.brackets_behind kind brackets }
{
    match kind {
        Tok::Sign(29 | 31) => brackets + 1,
        Tok::Sign(30 | 32) => brackets.saturating_sub(1),
        _ => brackets,
    }
}

/// The line of the place that lies `n` bytes on.
fn line_behind(src: &[u8], at: u32, line: u32, n: u32) -> u32
    requires within { at + n ≤ length src.now }
    requires small { length src.now < 2 ^ 31 }
    requires line { IsLine src.now at line }
    ensures { IsLine src.now (at + n) result }
{
    let mut cursor = Cursor { src, at, line };
    for _i in 0..n {
        let _ = cursor.bump();
    }
    cursor.line
}

/// Goes on by `n` bytes.
fn move_on(src: &[u8], state: &mut State, n: u32)
    requires within { state.old.at + n ≤ length src.now }
    requires small { length src.now < 2 ^ 31 }
    requires line { IsLine src.now state.old.at state.old.number }
    ensures state { state.new ≡ record state.old { at = state.old.at + n; number = state.new.number } }
    ensures line { IsLine src.now state.new.at state.new.number }
{
    state.number = line_behind(src, state.at, state.number, n);
    state.at += n;
}

/// Adds the `Dedent`s of a line that begins at a column of an open block.
fn close_blocks(
    src: &[u8],
    state: &mut State,
    out: &mut Items<Token>,
    column: u32,
    leaves: u32,
) -> Result<(), Memory>
    requires within { state.old.at + column ≤ length src.now }
    requires small { length src.now < 2 ^ 31 }
    requires line { IsLine src.now state.old.at state.old.number }
    ensures tokens { OnOk result (out.new ≡ out.old ++ replicate leaves (spec.token Tok.Dedent (state.old.at + column) (state.old.at + column) state.old.number)) }
    ensures state { OnOk result (state.new ≡ record state.old { at = state.old.at + column; number = state.new.number; line = Line.Full }) }
    ensures line { OnOk result (IsLine src.now state.new.at state.new.number) }
{
    let at = state.at + column;
    push_many(out, token(Tok::Dedent, at, at, state.number), leaves)?;
    move_on(src, state, column);
    state.line = Line::Full;
    Ok(())
}

/// Adds the `Indent` of a line that begins further right than the innermost block.
fn open_block(
    src: &[u8],
    state: &mut State,
    out: &mut Items<Token>,
    column: u32,
) -> Result<(), Memory>
    requires within { state.old.at + column ≤ length src.now }
    requires small { length src.now < 2 ^ 31 }
    requires line { IsLine src.now state.old.at state.old.number }
    ensures tokens { OnOk result (out.new ≡ out.old ++ spec.token Tok.Indent (state.old.at + column) (state.old.at + column) state.old.number ∷ []) }
    ensures state { OnOk result (state.new ≡ record state.old { at = state.old.at + column; number = state.new.number; indents = state.old.indents ++ column ∷ []; line = Line.Full }) }
    ensures line { OnOk result (IsLine src.now state.new.at state.new.number) }
{
    let at = state.at + column;
    push_one(&mut state.indents, column)?;
    push_one(out, token(Tok::Indent, at, at, state.number))?;
    move_on(src, state, column);
    state.line = Line::Full;
    Ok(())
}

/// Adds the `Newline` of a line that holds tokens and ends outside brackets, from `at` up to `end`.
fn put_newline(state: &State, out: &mut Items<Token>, end: u32) -> Result<(), Memory>
    ensures { OnOk result (out.new ≡ out.old ++ spec.newline state.now.line state.now.brackets (spec.token Tok.Newline state.now.at end state.now.number)) }
{
    match state.line {
        Line::Full if state.brackets == 0 => {
            push_one(out, token(Tok::Newline, state.at, end, state.number))
        }
        _ => Ok(()),
    }
}

/// Adds the last tokens.
fn finish(state: &State, out: &mut Items<Token>) -> Result<(), Memory>
    requires { length state.now.indents < 2 ^ 32 }
    ensures { OnOk result (out.new ≡ out.old ++ (spec.newline state.now.line state.now.brackets (spec.token Tok.Newline state.now.at state.now.at state.now.number)
        ++ replicate (length state.now.indents) (spec.token Tok.Dedent state.now.at state.now.at state.now.number)
        ++ spec.token Tok.End state.now.at state.now.at state.now.number ∷ [])) }
{
    let at = state.at;
    put_newline(state, out, at)?;
    push_many(
        out,
        token(Tok::Dedent, at, at, state.number),
        state.indents.len() as u32,
    )?;
    push_one(out, token(Tok::End, at, at, state.number))
}

/// Reads the LF that ends a line.
fn end_line(src: &[u8], state: &mut State, out: &mut Items<Token>) -> Result<(), Memory>
    requires within { state.old.at + 1 ≤ length src.now }
    requires small { length src.now < 2 ^ 31 }
    requires line { IsLine src.now state.old.at state.old.number }
    ensures tokens { OnOk result (out.new ≡ out.old ++ spec.newline state.old.line state.old.brackets (spec.token Tok.Newline state.old.at (state.old.at + 1) state.old.number)) }
    ensures state { OnOk result (state.new ≡ record state.old { at = state.old.at + 1; number = state.new.number; line = spec.line_behind state.old.brackets }) }
    ensures line { OnOk result (IsLine src.now state.new.at state.new.number) }
{
    let end = state.at + 1;
    put_newline(state, out, end)?;
    move_on(src, state, 1);
    state.line = if state.brackets == 0 {
        Line::Fresh
    } else {
        Line::Full
    };
    Ok(())
}

/// Reads a token of `n` bytes.
fn put_word(
    src: &[u8],
    state: &mut State,
    out: &mut Items<Token>,
    kind: Tok,
    n: u32,
) -> Result<(), Memory>
    requires within { state.old.at + n ≤ length src.now }
    requires small { length src.now < 2 ^ 31 }
    requires brackets { state.old.brackets ≤ state.old.at }
    requires line { IsLine src.now state.old.at state.old.number }
    ensures tokens { OnOk result (out.new ≡ out.old ++ spec.token kind state.old.at (state.old.at + n) state.old.number ∷ []) }
    ensures state { OnOk result (state.new ≡ record state.old { at = state.old.at + n; number = state.new.number; brackets = spec.brackets_behind kind state.old.brackets }) }
    ensures line { OnOk result (IsLine src.now state.new.at state.new.number) }
{
    let end = state.at + n;
    push_one(out, token(kind, state.at, end, state.number))?;
    state.brackets = brackets_behind(kind, state.brackets);
    move_on(src, state, n);
    Ok(())
}

/// Reads the beginning of a line whose indent counts.
fn indent(
    alloc: Global,
    src: &[u8],
    state: &mut State,
    out: &mut Items<Token>,
    column: u32,
) -> Result<bool, Refusal>
    requires state { IsState src.now state.old }
    requires within { state.old.at + column ≤ length src.now }
    requires small { length src.now < 2 ^ 31 }
    ensures gives { Gives (spec.indented src.now (place_of state.old) column) out.old result out.new (place_of state.new) }
    ensures line { OnOk result (IsLine src.now state.new.at state.new.number) }
{
    let leaves = leave(&mut state.indents, column);
    if innermost_of(&state.indents) == column {
        close_blocks(src, state, out, column, leaves)?;
        return Ok(true);
    }
    if leaves == 0 {
        open_block(src, state, out, column)?;
        return Ok(true);
    }
    Err(refusal(alloc, Code::L3BadDedent, state.number))
}

/// Reads the beginning of a line.
fn begin(
    alloc: Global,
    src: &[u8],
    state: &mut State,
    out: &mut Items<Token>,
) -> Result<bool, Refusal>
    requires state { IsState src.now state.old }
    requires small { length src.now < 2 ^ 31 }
    ensures gives { Gives (spec.begun src.now (place_of state.old)) out.old result out.new (place_of state.new) }
    ensures line { OnOk result (IsLine src.now state.new.at state.new.number) }
{
    let rest = behind(src, state.at as usize);
    let column = spaces_and_tabs(rest);
    if holds_nothing(behind(rest, column)) {
        move_on(src, state, column as u32);
        state.line = Line::Bare;
        return Ok(true);
    }
    if spaces(rest) == column {
        return indent(alloc, src, state, out, column as u32);
    }
    Err(refusal(alloc, Code::L2TabIndent, state.number))
}

/// Goes on within a line.
fn go_on(
    alloc: Global,
    src: &[u8],
    state: &mut State,
    out: &mut Items<Token>,
) -> Result<bool, Refusal>
    requires state { IsState src.now state.old }
    requires small { length src.now < 2 ^ 31 }
    ensures gives { Gives (spec.went_on src.now (place_of state.old) (spec_piece (drop state.old.at src.now))) out.old result out.new (place_of state.new) }
    ensures line { OnOk result (IsLine src.now state.new.at state.new.number) }
{
    match piece(behind(src, state.at as usize)) {
        Piece::Nothing => {
            finish(state, out)?;
            Ok(false)
        }
        Piece::LineEnd => {
            end_line(src, state, out)?;
            Ok(true)
        }
        Piece::Gap(n) => {
            move_on(src, state, n);
            Ok(true)
        }
        Piece::Word(kind, n) => {
            put_word(src, state, out, kind, n)?;
            Ok(true)
        }
        Piece::Bad(code) => Err(refusal(alloc, code, state.number)),
    }
}

/// Does the next step; says whether the reading goes on.
#[tactic(auto, unfolding(crate::specs::Layout::next))]
pub(crate) fn step(
    alloc: Global,
    src: &[u8],
    state: &mut State,
    out: &mut Items<Token>,
) -> Result<bool, Refusal>
    requires state { IsState src.now state.old }
    requires small { length src.now < 2 ^ 31 }
    ensures gives { Gives (spec.next src.now (place_of state.old)) out.old result out.new (place_of state.new) }
    ensures line { OnOk result (IsLine src.now state.new.at state.new.number) }
{
    match state.line {
        Line::Fresh => begin(alloc, src, state, out),
        Line::Bare | Line::Full => go_on(alloc, src, state, out),
    }
}
