// Laws over the definitions.
ghost use Rattle.std.specs.Prelude.{◌≡◌, ℕ, List, true};
ghost use Rattle.mh_consts.specs.declared.kinds.Const.{Const};
ghost use Rattle.mh_consts.specs.declared.scope.Scope.{Scope};
ghost use Rattle.mh_consts.specs.Names as names;
ghost use Rattle.mh_consts.specs.Expression.{Head, Exs};
ghost use Rattle.mh_consts.specs.Expression as plain;
ghost use Rattle.mh_consts.specs.Outcome as outcome;
ghost use Rattle.mh_consts.specs.Constant as spec;

/// A look-up in what bindings leave finds the latest of all bindings ever made: a scope may be read as
/// the list of pairs of name and value with the latest binding first.
pub fn binding_law()
    ensures { (es : List (List ℕ × Const)) (n : List ℕ) → names.lookup (names.bound es) n ≡ names.latest es n }
{}

/// The value of an operation is what its outermost operation gives at the values of its parts.
pub fn value_law()
    ensures { (s : Scope) (h : Head) (xs : Exs) → spec.is_valued h ≡ true →
        spec.value s (plain.Op h xs) ≡ outcome.after (spec.values s xs) (spec.operate s (plain.Op h xs)) }
{}
