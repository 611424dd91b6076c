//! The tokens of a whole source.

ghost use Rattle.std.specs.Prelude.{◌≡◌, ◌⊎◌, ◌<◌, ◌^◌, ℕ, List, [], length, IfOk, Ok, Err};
ghost use Rattle.mh_text.specs.declared.code.Code.{Code};
ghost use Rattle.mh_text.specs.declared.text.Text.{Text};
ghost use Rattle.mh_text.specs.declared.refusal.Refusal.TheVariants as refusal;
ghost use Rattle.mh_pytok.specs.declared.token.Token.{Token};
ghost use Rattle.mh_pytok.specs.Tokens.{HasTokens, IsRefused, Answers};
ghost use Rattle.mh_pytok.specs.Readable.{Readable};

use crate::shape::Line;
use crate::state::State;
use crate::steps::step;
use crate::token::Token;
use mh_text::Refusal;
use sqlite_items::Items;
use std::alloc::Global;

/// The tokens of the source, or its refusal.
fn read(alloc: Global, src: &[u8]) -> Result<Items<Token>, Refusal>
    requires { length src.now < 2 ^ 31 }
    ensures { Answers src.now result }
{
    let mut state = State {
        at: 0,
        number: 1,
        indents: Items::new(alloc),
        brackets: 0,
        line: Line::Fresh,
    };
    let mut out = Items::new(alloc);
    let mut more = true;
    while more {
        more = step(alloc, src, &mut state, &mut out)?;
    }
    Ok(out)
}

/// The tokens of the source; its refusal where it has none. Takes time in proportion to the source's length.
pub fn tokens(alloc: Global, src: &[u8]) -> Result<Items<Token>, Refusal>
    requires { length src.now < 2 ^ 31 }
    // What is answered are the source's tokens.
    ensures found { IfOk result (λ ts. HasTokens src.now ts) }
    // A source that has tokens is answered with them, unless memory runs out.
    ensures only { (ts : List Token) → HasTokens src.now ts → (result ≡ Ok ts) ⊎ (result ≡ Err refusal.Memory) }
    // A refusal is the source's, by its rule and at its line.
    ensures refused { (code : Code) (line : ℕ) (names : List (List ℕ)) → result ≡ Err (refusal.At code line names) → IsRefused src.now code line × (names ≡ []) }
    // A source that is refused is answered so, unless memory runs out.
    ensures refuses { (code : Code) (line : ℕ) → IsRefused src.now code line → (result ≡ Err (refusal.At code line [])) ⊎ (result ≡ Err refusal.Memory) }
    // What a parser may ask of the tokens.
    ensures readable { IfOk result (λ ts. Readable src.now ts) }
{
    read(alloc, src)
}
