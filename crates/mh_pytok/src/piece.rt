ghost use Rattle.std.specs.Prelude.{◌≡◌, ◌<◌, ◌≤◌, ◌^◌, length};
ghost use Rattle.mh_pytok.specs.Pieces as spec;
ghost use Rattle.mh_pytok.specs.State.{LiesWithin};

use crate::numbers::number_of;
use crate::scan::{
    byte_at, comment_parts, is_blank, is_digit, is_name_start, is_quote, name_parts, number_parts,
};
use crate::shape::Piece;
use crate::strings::string_length;
use crate::token::Tok;
use crate::words::{keyword, sign_at};
use mh_text::Code;

/// A backslash at the front: with the end of its line it gives no token.
#[tactic(auto, unfolding(crate::specs::Pieces::joined))]
fn joined(bytes: &[u8]) -> Piece
    ensures { result ≡ spec.joined bytes.now }
{
    if byte_at(bytes, 1) == b'\n' {
        Piece::Gap(2)
    } else if byte_at(bytes, 1) == b'\r' && byte_at(bytes, 2) == b'\n' {
        Piece::Gap(3)
    } else {
        Piece::Bad(Code::L1BadByte)
    }
}

/// A string at the front.
#[tactic(auto, unfolding(crate::specs::Pieces::string))]
fn string(bytes: &[u8]) -> Piece
    requires { length bytes.now < 2 ^ 31 }
    ensures { result ≡ spec.string bytes.now }
{
    match string_length(bytes) {
        Some(n) => Piece::Word(Tok::Str, n),
        None => Piece::Bad(Code::L4OpenString),
    }
}

/// A number at the front.
#[tactic(auto, unfolding(crate::specs::Pieces::number))]
fn number(bytes: &[u8]) -> Piece
    requires { length bytes.now < 2 ^ 31 }
    ensures { result ≡ spec.number bytes.now }
{
    let n = number_parts(bytes);
    match number_of(&bytes[..n]) {
        Some(_) => Piece::Word(Tok::Number, n as u32),
        None => Piece::Bad(Code::L5BadNumber),
    }
}

/// A name or a keyword at the front.
#[tactic(auto, unfolding(crate::specs::Pieces::name))]
fn name(bytes: &[u8]) -> Piece
    requires { length bytes.now < 2 ^ 31 }
    ensures { result ≡ spec.name bytes.now }
{
    let n = name_parts(bytes);
    match keyword(&bytes[..n]) {
        Some(row) => Piece::Word(Tok::Keyword(row.tag), n as u32),
        None => Piece::Word(Tok::Name, n as u32),
    }
}

/// A sign at the front.
#[tactic(auto, unfolding(crate::specs::Pieces::sign))]
fn sign(bytes: &[u8]) -> Piece
    requires { length bytes.now < 2 ^ 31 }
    ensures { result ≡ spec.sign bytes.now }
{
    match sign_at(bytes) {
        Some(row) => Piece::Word(Tok::Sign(row.tag), row.spelling.len() as u32),
        None => Piece::Bad(Code::L1BadByte),
    }
}

/// What stands next, and that it lies within the bytes.
pub(crate) fn piece(bytes: &[u8]) -> Piece
    requires { length bytes.now < 2 ^ 31 }
    ensures piece { result ≡ spec.piece bytes.now }
    ensures within { LiesWithin result bytes.now }
{
    front(bytes)
}

/// What stands next.
#[tactic(auto, unfolding(crate::specs::Pieces::piece))]
fn front(bytes: &[u8]) -> Piece
    requires { length bytes.now < 2 ^ 31 }
    ensures { result ≡ spec.piece bytes.now }
{
    if bytes.is_empty() {
        return Piece::Nothing;
    }
    let first = bytes[0];
    if first == b'\n' {
        Piece::LineEnd
    } else if is_blank(bytes) {
        Piece::Gap(1)
    } else if first == b'#' {
        Piece::Gap(comment_parts(bytes) as u32)
    } else if first == b'\\' {
        joined(bytes)
    } else if is_quote(first) {
        string(bytes)
    } else if is_digit(first) {
        number(bytes)
    } else if is_name_start(first) {
        name(bytes)
    } else {
        sign(bytes)
    }
}
