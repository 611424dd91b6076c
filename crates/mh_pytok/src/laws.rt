ghost use Rattle.std.specs.Prelude.{◌≡◌, ◌⊎◌, ◌≤◌, ℕ, List, Contains, Some, take, length};
ghost use Rattle.mh_text.specs.Rows.{Entry};
ghost use Rattle.mh_text.specs.declared.code.Code.{Code};
ghost use Rattle.mh_pytok.specs.Words.{signs, longest_sign};
ghost use Rattle.mh_pytok.specs.declared.token.Token.{Token};
ghost use Rattle.mh_pytok.specs.Tokens.{HasTokens, IsRefused};

/// A law over the definitions alone: a source has at most one token list. Does nothing.
pub fn one_token_list()
    ensures { (src : List ℕ) (ts us : List Token) → HasTokens src ts → HasTokens src us → ts ≡ us }
{}

/// A law over the definitions alone: a source has at most one refusal. Does nothing.
pub fn one_refusal()
    ensures { (src : List ℕ) (c d : Code) (m n : ℕ) → IsRefused src c m → IsRefused src d n → (c ≡ d) × (m ≡ n) }
{}

/// A law over the definitions alone: a source that has a token list isn't refused. Does nothing.
pub fn tokens_or_refusal()
    ensures { (src : List ℕ) (ts : List Token) (code : Code) (line : ℕ) → HasTokens src ts → ¬ IsRefused src code line }
{}

/// A law over the definitions alone: each source has a token list or is refused. Does nothing.
pub fn tokens_always()
    ensures { (src : List ℕ) → ((ts : List Token) × HasTokens src ts) ⊎ ((code : Code) × (line : ℕ) × IsRefused src code line) }
{}

/// A law over the definitions alone: where a sign's spelling begins the bytes, a sign is found there, and none that
/// begins them is longer. Does nothing.
pub fn longest_sign_wins()
    ensures { (bytes : List ℕ) (row : Entry) → Contains signs row → take (length row.spelling) bytes ≡ row.spelling →
        (best : Entry) × (longest_sign bytes ≡ Some best) × (length row.spelling ≤ length best.spelling) }
{}
