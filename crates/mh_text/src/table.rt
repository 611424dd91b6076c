ghost use Rattle.std.specs.Prelude.{◌≡◌, ◌≢◌, ◌↔◌, IsTrue, IsNone, IfSome, Contains, option_map};
ghost use Rattle.mh_text.specs.Rows.{Entry, entry_of, entries_of, found, are_distinct};

use crate::row::Row;

/// A table of spellings, such as the keywords or the signs of a language. Each spelling has one row.
#[derive(Clone, Copy, Debug)]
pub struct Table {
    pub rows: &'static [Row],
    pub ghost distinct: { IsTrue (are_distinct (entries_of rows.now)) },
}

impl Table {
    /// The row of this spelling, or `None` where the table has none. Takes no memory.
    pub fn lookup(&self, text: &[u8]) -> Option<Row>
        ensures exact { option_map entry_of result ≡ found (entries_of self.now.rows.now) text.now }
        ensures some { IfSome result (λ row. Contains (entries_of self.now.rows.now) (entry_of row) × (row.spelling.now ≡ text.now)) }
        ensures none { IsNone result ↔ ((entry : Entry) → Contains (entries_of self.now.rows.now) entry → entry.spelling ≢ text.now) }
    {
        row_of(self.rows, text)
    }
}

/// The first row of this spelling.
fn row_of(rows: &[Row], text: &[u8]) -> Option<Row>
    ensures { option_map entry_of result ≡ found (entries_of rows.now) text.now }
{
    for row in rows {
        if row.spelling == text {
            return Some(*row);
        }
    }
    None
}
