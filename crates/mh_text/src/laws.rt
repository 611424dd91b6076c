ghost use Rattle.std.specs.Prelude.{◌≡◌, ℕ, List, IsTrue, Some, None, Contains, ◌≢◌};
ghost use Rattle.mh_text.specs.Rows.{Entry, found, are_distinct};

/// A law over the definitions alone: in a table whose spellings differ, the row that is found by a
/// row's spelling is that row. So a reader that looks up what a writer spelled finds what the writer had.
/// Does nothing.
pub fn spelling_finds_its_row()
    ensures { (rows : List Entry) (row : Entry) → IsTrue (are_distinct rows) → Contains rows row → found rows row.spelling ≡ Some row }
{}

/// A law over the definitions alone: what is found by a spelling is a row of the table, with that
/// spelling. Does nothing.
pub fn found_has_its_spelling()
    ensures { (rows : List Entry) (text : List ℕ) (row : Entry) → found rows text ≡ Some row → Contains rows row × (row.spelling ≡ text) }
{}

/// A law over the definitions alone: where nothing is found, no row has the spelling. Does nothing.
pub fn nothing_has_the_spelling()
    ensures { (rows : List Entry) (text : List ℕ) (row : Entry) → found rows text ≡ None → Contains rows row → row.spelling ≢ text }
{}
