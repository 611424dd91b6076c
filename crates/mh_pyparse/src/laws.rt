//! What holds of the grammar, for proofs above: each call does nothing, and its contract is a law.
ghost use Rattle.std.specs.Prelude.{◌≡◌, ◌++◌, List, Some, codes};
ghost use Rattle.mh_pytok.specs.Lexeme.{Lexeme};
ghost use Rattle.mh_pytok.specs.Words.{level_of};
ghost use Rattle.mh_pytok.specs.declared.token.Tok.{Tok};
ghost use Rattle.mh_pytree.specs.declared.expression.Operator.{Operator};
ghost use Rattle.mh_pytree.specs.declared.expression.Operator.TheVariants as op;
ghost use Rattle.mh_pytree.specs.declared.expression.Sign.{Sign};
ghost use Rattle.mh_pytree.specs.declared.statement.PyStmt.{PyStmt};
ghost use Rattle.mh_pyparse.specs.Signs as signs;
ghost use Rattle.mh_pyparse.specs.Spelling.{IsSpelled, AreSpelled, written, written_before, words, marks};
ghost use Rattle.mh_pyparse.specs.Statements.{IsText};

/// A list of tokens has at most one tree.
pub fn one_tree()
    ensures { (a b : List PyStmt) (ts : List Lexeme) → IsText a ts → IsText b ts → a ≡ b }
{}

/// Each sign and word of the grammar is the token that the tables give to what Python writes for it.
pub fn signs_are_spelled()
    ensures operators { (op : Operator) → IsSpelled (written op) (signs.spelled op) }
    ensures augmented { (op : Operator) (kind : Tok) → signs.augmented op ≡ Some kind → IsSpelled (written op ++ codes "=") kind }
    ensures in_front { (sign : Sign) → IsSpelled (written_before sign) (signs.prefix_sign sign) }
    ensures words { AreSpelled words }
    ensures marks { AreSpelled marks }
{}

/// The levels that the grammar names by their numbers are those of the rows. An operator's level is its row's by definition.
pub fn levels_are_of_rows()
    ensures negation { level_of signs.not_word ≡ 3 }
    ensures primaries { (level_of signs.lparen ≡ 12) × (level_of signs.lbracket ≡ 12) × (level_of signs.dot ≡ 12) }
    ensures comparisons { (signs.op_level op.Equal ≡ signs.op_level op.Less) × (signs.op_level op.NotEqual ≡ signs.op_level op.Less) × (signs.op_level op.LessEqual ≡ signs.op_level op.Less) × (signs.op_level op.Greater ≡ signs.op_level op.Less) × (signs.op_level op.GreaterEqual ≡ signs.op_level op.Less) }
{}
