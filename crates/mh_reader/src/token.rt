use mh_text::Span;

/// A token of a source: its kind, and where it lies.
#[derive(Clone, Copy, Debug, PartialEq, Eq)]
pub struct Token<K> {
    pub kind: K,
    pub span: Span,
}
