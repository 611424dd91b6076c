//! Bytes by their kinds, and how far bytes of one kind go on.

ghost use Rattle.std.specs.Prelude.{◌≡◌, ◌≤◌, length, slice_index, drop, take};
ghost use Rattle.std.specs.List.{prefix_len};
ghost use Rattle.mh_text.specs.Characters as character;
ghost use Rattle.mh_pytok.specs.Pieces as piece;
ghost use Rattle.mh_pytok.specs.Layout as layout;
ghost use Rattle.mh_pytok.specs.Strings as string;

/// A digit.
pub(crate) fn is_digit(b: u8) -> bool
    ensures { result ≡ character.is_digit b }
{
    48 <= b && b <= 57
}

/// A letter or `_`.
pub(crate) fn is_name_start(b: u8) -> bool
    ensures { result ≡ character.is_name_start b }
{
    65 <= b && b <= 90 || 97 <= b && b <= 122 || b == 95
}

/// A letter, a digit or `_`.
pub(crate) fn is_name_part(b: u8) -> bool
    ensures { result ≡ character.is_name_part b }
{
    is_name_start(b) || is_digit(b)
}

/// A quote of either kind.
pub(crate) fn is_quote(b: u8) -> bool
    ensures { result ≡ string.is_quote b }
{
    b == b'\'' || b == b'"'
}

/// How many name parts begin the bytes.
pub(crate) fn name_parts(bytes: &[u8]) -> usize
    ensures count { result ≡ prefix_len character.is_name_part bytes.now }
    ensures within { result ≤ length bytes.now }
{
    bytes.iter().take_while(|b| is_name_part(**b)).count()
}

/// How many number parts begin the bytes.
pub(crate) fn number_parts(bytes: &[u8]) -> usize
    ensures count { result ≡ prefix_len piece.is_number_part bytes.now }
    ensures within { result ≤ length bytes.now }
{
    bytes
        .iter()
        .take_while(|b| is_name_part(**b) || **b == b'.')
        .count()
}

/// How many bytes stand before LF.
pub(crate) fn comment_parts(bytes: &[u8]) -> usize
    ensures count { result ≡ prefix_len piece.is_comment_part bytes.now }
    ensures within { result ≤ length bytes.now }
{
    bytes.iter().take_while(|b| **b != b'\n').count()
}

/// How many spaces and tabs begin the bytes.
pub(crate) fn spaces_and_tabs(bytes: &[u8]) -> usize
    ensures count { result ≡ prefix_len layout.is_space_or_tab bytes.now }
    ensures within { result ≤ length bytes.now }
{
    bytes
        .iter()
        .take_while(|b| **b == b' ' || **b == b'\t')
        .count()
}

/// How many spaces begin the bytes.
pub(crate) fn spaces(bytes: &[u8]) -> usize
    ensures count { result ≡ prefix_len layout.is_space bytes.now }
    ensures within { result ≤ length bytes.now }
{
    bytes.iter().take_while(|b| **b == b' ').count()
}

/// The end of a line, or of the source, or a comment begins the bytes.
pub(crate) fn holds_nothing(bytes: &[u8]) -> bool
    ensures { result ≡ layout.holds_nothing bytes.now }
{
    match bytes {
        [] => true,
        [first, ..] => *first == b'#' || is_line_end(bytes),
    }
}

/// LF or CR LF begins the bytes.
fn is_line_end(bytes: &[u8]) -> bool
    ensures { result ≡ piece.is_line_end bytes.now }
{
    byte_at(bytes, 0) == b'\n' || byte_at(bytes, 0) == b'\r' && byte_at(bytes, 1) == b'\n'
}

/// A space, a tab or the CR of CR LF begins the bytes.
pub(crate) fn is_blank(bytes: &[u8]) -> bool
    ensures { result ≡ piece.is_blank bytes.now }
{
    byte_at(bytes, 0) == b' '
        || byte_at(bytes, 0) == b'\t'
        || byte_at(bytes, 0) == b'\r' && byte_at(bytes, 1) == b'\n'
}

/// The byte at a place, or 0 behind the end.
pub(crate) fn byte_at(bytes: &[u8], at: usize) -> u8
    ensures { result ≡ slice_index bytes.now at }
{
    if at < bytes.len() { bytes[at] } else { 0 }
}

/// What stands behind the first `n` bytes.
pub(crate) fn behind(bytes: &[u8], n: usize) -> &[u8]
    ensures { result.now ≡ drop n bytes.now }
{
    if n <= bytes.len() { &bytes[n..] } else { &[] }
}

/// The first `most` bytes, or all where there are fewer.
pub(crate) fn front(bytes: &[u8], most: usize) -> &[u8]
    ensures { result.now ≡ take most bytes.now }
{
    if most <= bytes.len() {
        &bytes[..most]
    } else {
        bytes
    }
}
