ghost use Rattle.std.specs.Prelude.{◌≡◌, ℕ, List};
ghost use Rattle.mh_flow.specs.declared.resumed.Resumed.{Resumed};
ghost use Rattle.mh_flow.specs.Flow.{Item, Evaluates, HasEvaluation, IsNoMemory};

use mh_flow::Lang;

/// A law over the definitions alone: want of memory aside, an evaluation of what is left has one
/// answer, and leaves one list, one store and one count. Does nothing.
pub fn evaluates_once<L: Lang>(budget: u64)
    ensures { (xs : List (Item L.Expr L.Place)) (s : L.Store) (n : ℕ) (r r' : Resumed L.Fault)
        (ys ys' : List (Item L.Expr L.Place)) (t t' : L.Store) (m m' : ℕ) →
        IsNoMemory L.Lang r → IsNoMemory L.Lang r' →
        Evaluates L.Lang budget xs s n r ys t m → Evaluates L.Lang budget xs s n r' ys' t' m' →
        (r ≡ r') × (ys ≡ ys') × (t ≡ t') × (m ≡ m') }
{}

/// A law over the definitions alone: whatever is left, in whatever store and with whatever count,
/// there is an evaluation of it. Does nothing.
pub fn evaluates_always<L: Lang>(budget: u64)
    ensures { (xs : List (Item L.Expr L.Place)) (s : L.Store) (n : ℕ) → HasEvaluation L.Lang budget xs s n }
{}
