//! Whole texts.

ghost use Rattle.std.specs.Prelude.{◌≡◌, ◌≤◌, ℕ, List, [], ◌⊎◌, Ok, Err, IfOk, true};
ghost use Rattle.mh_reader.specs.Reader.{Reads, many};
ghost use Rattle.mh_text.specs.declared.code.Code.TheVariants.{S1Syntax};
ghost use Rattle.mh_text.specs.declared.refusal.Refusal.TheVariants as refusal;
ghost use Rattle.mh_pytok.specs.Lexeme.{lexemes};
ghost use Rattle.mh_pytok.specs.Readable.{Readable};
ghost use Rattle.mh_pytree.specs.Depth.{text_depth};
ghost use Rattle.mh_pytree.specs.Names.{are_names};
ghost use Rattle.mh_pytree.specs.declared.statement.PyStmt.{PyStmt};
ghost use Rattle.mh_pyparse.specs.Claims.{Refuses};
ghost use Rattle.mh_pyparse.specs.Cursor.{AreIn};
ghost use Rattle.mh_pyparse.specs.Statements.{IsText};
ghost use Rattle.mh_pyparse.specs.ReadingStatements as spec;

use crate::cursor::Tokens;
use crate::stmt::stmt;
use mh_pytok::{Tok, Token};
use mh_pytree::{Module, PyStmt};
use mh_reader::Fault;
use mh_text::{Code, Refusal};
use sqlite_items::Items;
use std::alloc::Global;

/// How deep a text may be.
const MAX_DEPTH: usize = 200;

/// A statement or a line of them, where the text does not end; whether it did not.
#[tactic(auto, unfolding(mh_reader::specs::Reader::chain, crate::specs::ReadingStatements::text_turn))]
fn text_turn(
    alloc: Global,
    tokens: &mut Tokens<'_>,
    mut found: Items<PyStmt>,
    deepest: usize,
) -> Result<((Items<PyStmt>, usize), bool), Fault>
    ensures { Reads (spec.text_turn 200 (found, deepest) tokens.old) result tokens.new }
{
    if tokens.ends() {
        return Ok(((found, deepest), false));
    }
    let (more, depth) = stmt(alloc, tokens, MAX_DEPTH)?;
    found.append(more)?;
    Ok(((found, deepest.max(depth)), true))
}

/// The statements of a text.
fn stmts(alloc: Global, tokens: &mut Tokens<'_>) -> Result<(Items<PyStmt>, usize), Fault>
    ensures { Reads (many (spec.text_turn 200) ([], 0) tokens.old) result tokens.new }
{
    let mut found = Items::new(alloc);
    let mut deepest = 0;
    'more: loop {
        let ((longer, depth), goes_on) = text_turn(alloc, tokens, found, deepest)?;
        found = longer;
        deepest = depth;
        if !goes_on {
            return Ok((found, deepest));
        }
    }
}

/// A whole text.
#[tactic(auto, unfolding(mh_reader::specs::Reader::chain, mh_reader::specs::Reader::whole, crate::specs::ReadingStatements::text, crate::specs::ReadingStatements::stmts))]
fn text(alloc: Global, tokens: &mut Tokens<'_>) -> Result<(Items<PyStmt>, usize), Fault>
    ensures { Reads (spec.text 200 tokens.old) result tokens.new }
{
    let found = stmts(alloc, tokens)?;
    tokens.expect(Tok::End)?;
    tokens.nothing()?;
    Ok(found)
}

/// The statements that the tokens are, in the grammar of the Python subset.
pub fn parse(alloc: Global, tokens: &[Token], src: &[u8]) -> Result<Module, Refusal>
    requires { Readable src.now tokens.now }
    // What is read is in the grammar, and no deeper than allowed.
    ensures found { IfOk result (λ m. IsText m.stmts (lexemes src.now tokens.now) × (text_depth m.stmts ≤ 200)) }
    // What is in the grammar and no deeper is read, as its one tree, unless memory runs out.
    ensures only { (body : List PyStmt) → IsText body (lexemes src.now tokens.now) → text_depth body ≤ 200 → (result ≡ Ok (record { stmts = body })) ⊎ (result ≡ Err refusal.Memory) }
    // Else the line is that of a token such that no text that is no deeper begins with the tokens up to it.
    ensures refused { (code : Code) (line : ℕ) (names : List (List ℕ)) → result ≡ Err (refusal.At code line names) →
        (code ≡ S1Syntax) × (names ≡ []) × Refuses 200 (lexemes src.now tokens.now) line }
    // What stands where a name does is an identifier.
    ensures names { IfOk result (λ m. are_names m.stmts ≡ true) }
{
    let mut cursor = Tokens::new(tokens, src);
    match text(alloc, &mut cursor) {
        Ok((stmts, _)) => Ok(Module { stmts }),
        Err(Fault::Memory) => Err(Refusal::Memory),
        Err(Fault::Syntax) => Err(Refusal::At {
            code: Code::S1Syntax,
            line: cursor.line(),
            names: Items::new(alloc),
        }),
    }
}
