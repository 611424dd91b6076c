ghost use Rattle.std.specs.Prelude.{◌≡◌, ℤ, Bool, true, Result, Ok, Err, IfOk, IfErr, OnErr};
ghost use Rattle.mh_flow.specs.Words.{Keeps, Unless};

/// A language of expressions and places over a store, by which bodies of statements run. Its laws:
/// what `eval` answers is determined by the expression and the store, and what `truth` and `number`
/// answer by the value; what `assign` and `count` leave is determined by the place, the value or
/// number and the store, and so is a fault of `assign`, want of memory aside; after a fault `assign`
/// leaves the store as it was; and what fits a store still fits it after `assign` and `count`.
pub trait Lang {
    /// Expressions.
    type Expr: Drop;

    /// What can be assigned to.
    type Place: Drop;

    /// What expressions give.
    type Value: Drop;

    /// What expressions read and assignments change.
    type Store;

    /// What may go wrong in `eval` and `assign`.
    type Fault: Drop;

    /// What an expression gives in a store, or its fault.
    ghost value_of: { Self.Expr → Self.Store → Result Self.Value Self.Fault };

    /// Whether a value is true.
    ghost is_true: { Self.Value → Bool };

    /// The number that a value stands for.
    ghost number_of: { Self.Value → ℤ };

    /// The store after an assignment, or its fault.
    ghost assigned: { Self.Place → Self.Value → Self.Store → Result Self.Store Self.Fault };

    /// The store after a counted loop has given its place a number.
    ghost counted: { Self.Place → ℤ → Self.Store → Self.Store };

    /// Whether a fault is want of memory.
    ghost is_memory: { Self.Fault → Bool };

    /// Whether an expression may be evaluated in a store.
    ghost fits_expr: { Self.Expr → Self.Store → Type 0 };

    /// Whether the value of an expression may be assigned to a place in a store.
    ghost fits_set: { Self.Place → Self.Expr → Self.Store → Type 0 };

    /// Whether a counted loop may give a place its numbers in a store.
    ghost fits_count: { Self.Place → Self.Store → Type 0 };

    /// The value of an expression that fits the store, or its fault.
    fn eval(expression: &Self::Expr, store: &Self::Store) -> Result<Self::Value, Self::Fault>
        requires { fits_expr expression.now store.now }
        ensures { result ≡ value_of expression.now store.now };

    /// Whether a value is true.
    fn truth(value: &Self::Value) -> bool
        ensures { result ≡ is_true value.now };

    /// The number that a value stands for.
    fn number(value: &Self::Value) -> i128
        ensures { result ≡ number_of value.now };

    /// Assigns to a place the value that an expression has, where both fit the store. After a
    /// fault the store is as it was. Want of memory may come anywhere; no other fault comes but by
    /// the language's meaning.
    fn assign(
        place: &Self::Place,
        value: Self::Value,
        store: &mut Self::Store,
    ) -> Result<(), Self::Fault>
        requires { (expression : Self.Expr) × fits_set place.now expression store.old × (value_of expression store.old ≡ Ok value) }
        ensures ok { IfOk result (λ _. assigned place.now value store.old ≡ Ok store.new) }
        ensures fault { IfErr result (λ fault. Unless (is_memory fault) (assigned place.now value store.old ≡ Err fault)) }
        ensures unchanged { OnErr result (store.new ≡ store.old) };

    /// Gives a place the number of a counted loop.
    fn count(place: &Self::Place, number: i128, store: &mut Self::Store)
        requires { fits_count place.now store.old }
        ensures { store.new ≡ counted place.now number store.old };

    /// What fits a store fits it after an assignment.
    ghost assign_keeps: { (p : Self.Place) (v : Self.Value) (s s' : Self.Store) → assigned p v s ≡ Ok s' → Keeps fits_expr fits_set fits_count s s' };

    /// What fits a store fits it after a counted loop has given its place a number.
    ghost count_keeps: { (p : Self.Place) (n : ℤ) (s : Self.Store) → Keeps fits_expr fits_set fits_count s (counted p n s) };
}
