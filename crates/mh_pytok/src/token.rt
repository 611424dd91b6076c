use mh_text::Span;

/// What a token is. A keyword and a sign carry the tag of their row in `KEYWORDS` and `SIGNS`.
#[derive(Clone, Copy, Debug, PartialEq, Eq)]
pub enum Tok {
    /// An identifier that is no keyword.
    Name,
    Number,
    /// A string of any of the four kinds of quotes.
    Str,
    Keyword(u16),
    Sign(u16),
    /// The end of a line that holds tokens, outside brackets.
    Newline,
    /// A line begins further right than the block that it stands in.
    Indent,
    /// A block is left. One for each block.
    Dedent,
    /// The end of the source.
    End,
}

/// A token and its place: the bytes that it is spelled by. A `Newline` has the byte LF, or nothing at the
/// end of the source; an `Indent` and a `Dedent` have nothing, at the place where their line's first token
/// begins (for a `Dedent` before the `End`, at the end), and so has the `End`.
#[derive(Clone, Copy, Debug, PartialEq, Eq)]
pub struct Token {
    pub kind: Tok,
    pub span: Span,
}
