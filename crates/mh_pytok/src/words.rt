ghost use Rattle.std.specs.Prelude.{◌≡◌, option_map};
ghost use Rattle.mh_text.specs.Rows.{entry_of, entries_of, found};
ghost use Rattle.mh_pytok.specs.Words as spec;
ghost use Rattle.mh_pytok.specs.Words.{keywords, signs, longest_sign};

use crate::scan::front;
use crate::token::Tok;
use mh_text::{Row, Table};

/// A row of a table: its spelling, its tag, and its level.
macro_rules! row {
    ($spelling:literal, $tag:literal, $level:literal) => {
        Row {
            spelling: $spelling,
            tag: $tag,
            level: $level,
        }
    };
}

/// The reserved words of Python 3.
pub const KEYWORDS: Table = Table {
    rows: &[
        row!(b"False", 1, 0),
        row!(b"None", 2, 0),
        row!(b"True", 3, 0),
        row!(b"and", 4, 2),
        row!(b"as", 5, 0),
        row!(b"assert", 6, 0),
        row!(b"async", 7, 0),
        row!(b"await", 8, 0),
        row!(b"break", 9, 0),
        row!(b"class", 10, 0),
        row!(b"continue", 11, 0),
        row!(b"def", 12, 0),
        row!(b"del", 13, 0),
        row!(b"elif", 14, 0),
        row!(b"else", 15, 0),
        row!(b"except", 16, 0),
        row!(b"finally", 17, 0),
        row!(b"for", 18, 0),
        row!(b"from", 19, 0),
        row!(b"global", 20, 0),
        row!(b"if", 21, 0),
        row!(b"import", 22, 0),
        row!(b"in", 23, 0),
        row!(b"is", 24, 0),
        row!(b"lambda", 25, 0),
        row!(b"nonlocal", 26, 0),
        row!(b"not", 27, 3),
        row!(b"or", 28, 1),
        row!(b"pass", 29, 0),
        row!(b"raise", 30, 0),
        row!(b"return", 31, 0),
        row!(b"try", 32, 0),
        row!(b"while", 33, 0),
        row!(b"with", 34, 0),
        row!(b"yield", 35, 0),
    ],
};

/// The signs. A sign's level says how tightly it binds as an operator between two operands, or behind one.
pub const SIGNS: Table = Table {
    rows: &[
        row!(b"+", 1, 9),
        row!(b"-", 2, 9),
        row!(b"*", 3, 10),
        row!(b"//", 4, 10),
        row!(b"%", 5, 10),
        row!(b"&", 6, 7),
        row!(b"|", 7, 5),
        row!(b"^", 8, 6),
        row!(b"~", 9, 0),
        row!(b"<<", 10, 8),
        row!(b">>", 11, 8),
        row!(b"==", 12, 4),
        row!(b"!=", 13, 4),
        row!(b"<", 14, 4),
        row!(b"<=", 15, 4),
        row!(b">", 16, 4),
        row!(b">=", 17, 4),
        row!(b"=", 18, 0),
        row!(b"+=", 19, 0),
        row!(b"-=", 20, 0),
        row!(b"*=", 21, 0),
        row!(b"//=", 22, 0),
        row!(b"%=", 23, 0),
        row!(b"&=", 24, 0),
        row!(b"|=", 25, 0),
        row!(b"^=", 26, 0),
        row!(b"<<=", 27, 0),
        row!(b">>=", 28, 0),
        row!(b"(", 29, 12),
        row!(b")", 30, 0),
        row!(b"[", 31, 12),
        row!(b"]", 32, 0),
        row!(b",", 33, 0),
        row!(b":", 34, 0),
        row!(b".", 35, 12),
        row!(b";", 36, 0),
        row!(b"@", 37, 0),
    ],
};

/// The keyword of this spelling.
pub(crate) fn keyword(text: &[u8]) -> Option<Row>
    ensures { option_map entry_of result ≡ found keywords text.now }
{
    KEYWORDS.lookup(text)
}

/// The sign of this spelling.
pub(crate) fn sign(text: &[u8]) -> Option<Row>
    ensures { option_map entry_of result ≡ found signs text.now }
{
    SIGNS.lookup(text)
}

/// The longest sign at the front of the bytes.
#[tactic(auto, unfolding(crate::specs::Words::longest_sign))]
pub(crate) fn sign_at(bytes: &[u8]) -> Option<Row>
    ensures { option_map entry_of result ≡ longest_sign bytes.now }
{
    if let Some(row) = sign(front(bytes, 3)) {
        return Some(row);
    }
    if let Some(row) = sign(front(bytes, 2)) {
        return Some(row);
    }
    sign(front(bytes, 1))
}

/// The level of the row of this tag, 0 where no row has it.
fn level_with(rows: &[Row], tag: u16) -> u8
    ensures { result ≡ spec.level_with (entries_of rows.now) tag }
{
    for row in rows {
        if row.tag == tag {
            return row.level;
        }
    }
    0
}

/// How tightly a keyword or a sign binds, by its row; 0 for any other token. Takes no memory.
pub fn level_of(kind: Tok) -> u8
    ensures { result ≡ spec.level_of kind }
{
    match kind {
        Tok::Keyword(tag) => level_with(KEYWORDS.rows, tag),
        Tok::Sign(tag) => level_with(SIGNS.rows, tag),
        _ => 0,
    }
}
