//! What holds of all readers, for proofs above: each call does nothing, and its contract is a law.
ghost use Rattle.std.specs.Prelude.{◌≡◌, ◌<◌, ◌++◌, Bool, true, false, List, ◌∷◌, Ok, Err, length};
ghost use Rattle.mh_reader.specs.Reader.{Reader, chain, many, whole};
ghost use Rattle.mh_reader.specs.Locality.{Local};
ghost use Rattle.mh_reader.specs.Refusals.{HasEnd, StopsAt};

/// A repeated step is read turn by turn: a turn that refuses refuses the whole, the last turn gives
/// the answer, a turn that goes on and took a token leaves the rest to the turns after it.
pub fn repetition_laws<T, S>()
    ensures refused { (step : S → Reader T (S × Bool)) (s : S) (ts r : List T) →
        step s ts ≡ Err r → many step s ts ≡ Err r }
    ensures last { (step : S → Reader T (S × Bool)) (s x : S) (ts r : List T) →
        step s ts ≡ Ok ((x, false), r) → many step s ts ≡ Ok (x, r) }
    ensures again { (step : S → Reader T (S × Bool)) (s x : S) (ts r : List T) →
        step s ts ≡ Ok ((x, true), r) → length r < length ts → many step s ts ≡ many step x r }
{}

/// One reader after another is local, and so is a repeated step.
pub fn locality_laws<T, A, B>()
    ensures after_another { (is_end : T → Bool) (p : Reader T A) (f : A → Reader T B) →
        Local is_end p → ((x : A) → Local is_end (f x)) → Local is_end (chain p f) }
    ensures repeated { (is_end : T → Bool) (step : A → Reader T (A × Bool)) →
        ((s : A) → Local is_end (step s)) → (s : A) → Local is_end (many step s) }
{}

/// A local reader that refuses a text stops at a token of it, and refuses there every text that
/// begins so: no text that is read begins with the tokens up to there.
pub fn refusal_laws<T, A>()
    ensures stops { (is_end : T → Bool) (p : Reader T A) (ts r : List T) →
        Local is_end p → HasEnd is_end ts → whole is_end p ts ≡ Err r → StopsAt (whole is_end p) ts r }
    ensures none_is_read { (is_end : T → Bool) (p : Reader T A) (ts r : List T) →
        Local is_end p → HasEnd is_end ts → whole is_end p ts ≡ Err r →
        (u : List T) × (t : T) × (q : List T) × (r ≡ t ∷ q) × (ts ≡ u ++ t ∷ q) ×
        ((more m : List T) (a : A) → whole is_end p (u ++ t ∷ more) ≡ Ok (a, m) → ⊥) }
{}
