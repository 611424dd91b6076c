use crate::token::Tok;
use mh_text::Code;

/// What stands next in a source, its layout aside.
#[derive(Clone, Copy, Debug)]
pub enum Piece {
    /// The end of the source.
    Nothing,
    /// LF, which ends a line.
    LineEnd,
    /// So many bytes that give no token: a blank, a comment, a backslash that joins lines.
    Gap(u32),
    /// A token of so many bytes.
    Word(Tok, u32),
    /// No token begins here, for this reason.
    Bad(Code),
}

/// How far a line of a source is read.
#[derive(Clone, Copy, Debug)]
pub enum Line {
    /// Nothing of it is read, and its indent may count.
    Fresh,
    /// It holds no more than spaces, tabs and a comment: it gives no token.
    Bare,
    /// Its indent has counted, or it goes on from a line before: its end gives a `Newline`.
    Full,
}
