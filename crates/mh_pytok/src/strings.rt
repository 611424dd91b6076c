ghost use Rattle.std.specs.Prelude.{◌≡◌, ◌+◌, ◌<◌, ◌≤◌, ◌^◌, false, length, IfOk, OnOk, ◌++◌};
ghost use Rattle.mh_pytok.specs.Strings as spec;

use crate::indents::push_one;
use crate::scan::{behind, byte_at, front};
use mh_text::{Memory, Text};
use sqlite_items::Items;
use std::alloc::Global;

/// Where a string ends whose opening quotes are the `begun` bytes before these: the number of all its bytes.
fn string_end(bytes: &[u8], quote: u8, quotes: u8, begun: u32) -> Option<u32>
    requires room { begun + length bytes.now < 2 ^ 32 }
    requires some { 0 < quotes }
    ensures { result ≡ spec.string_end quote quotes quotes false begun bytes.now }
{
    let mut left = quotes;
    let mut escaped = false;
    let mut n = begun;
    for b in bytes {
        if *b == b'\n' && quotes == 1 {
            return None;
        }
        n += 1;
        if escaped {
            escaped = false;
            left = quotes;
        } else if *b == quote {
            if left == 1 {
                return Some(n);
            }
            left -= 1;
        } else {
            escaped = *b == b'\\';
            left = quotes;
        }
    }
    None
}

/// Three of the same quote begin the text.
fn is_triple(text: &[u8]) -> bool
    ensures { result ≡ spec.is_triple text.now }
{
    byte_at(text, 1) == byte_at(text, 0) && byte_at(text, 2) == byte_at(text, 0)
}

/// How many bytes the string has that begins the bytes, from quote to quote; `None` where it isn't closed.
#[tactic(auto, unfolding(crate::specs::Strings::string_length))]
pub(crate) fn string_length(bytes: &[u8]) -> Option<u32>
    requires { length bytes.now < 2 ^ 31 }
    ensures { result ≡ spec.string_length bytes.now }
{
    if is_triple(bytes) {
        string_end(behind(bytes, 3), byte_at(bytes, 0), 3, 3)
    } else {
        string_end(behind(bytes, 1), byte_at(bytes, 0), 1, 1)
    }
}

/// The byte that a backslash with this byte stands for.
#[tactic(auto, unfolding(crate::specs::Strings::escape_of))]
fn escape_of(c: u8) -> Option<u8>
    ensures { result ≡ spec.escape_of c }
{
    match c {
        b'n' => Some(10),
        b't' => Some(9),
        b'r' => Some(13),
        b'a' => Some(7),
        b'b' => Some(8),
        b'f' => Some(12),
        b'v' => Some(11),
        b'\\' | b'\'' | b'"' => Some(c),
        _ => None,
    }
}

/// Adds the bytes that a backslash and the byte behind it stand for.
fn put_escaped(out: &mut Items<u8>, b: u8) -> Result<(), Memory>
    ensures { OnOk result (out.new ≡ out.old ++ spec.escaped (spec.escape_of b) b) }
{
    match escape_of(b) {
        Some(c) => push_one(out, c),
        None => {
            push_one(out, b'\\')?;
            push_one(out, b)
        }
    }
}

/// The bytes that the text between the quotes stands for.
fn unescaped(alloc: Global, text: &[u8]) -> Result<Items<u8>, Memory>
    ensures { IfOk result (λ bytes. bytes ≡ spec.unescaped false text.now) }
{
    let mut out = Items::new(alloc);
    let mut pending = false;
    for b in text {
        if pending {
            put_escaped(&mut out, *b)?;
            pending = false;
        } else if *b == b'\\' {
            pending = true;
        } else {
            push_one(&mut out, *b)?;
        }
    }
    if pending {
        push_one(&mut out, b'\\')?;
    }
    Ok(out)
}

/// What stands between the quotes of a string's text.
#[tactic(auto, unfolding(crate::specs::Strings::quoted))]
fn quoted(text: &[u8]) -> &[u8]
    ensures { result.now ≡ spec.quoted text.now }
{
    if is_triple(text) {
        front(behind(text, 3), text.len().saturating_sub(6))
    } else {
        front(behind(text, 1), text.len().saturating_sub(2))
    }
}

/// The bytes that a string's text stands for.
#[tactic(auto, unfolding(crate::specs::Strings::string_value))]
pub fn string(alloc: Global, text: &[u8]) -> Result<Text, Memory>
    ensures { IfOk result (λ bytes. bytes ≡ spec.string_value text.now) }
{
    let bytes = unescaped(alloc, quoted(text))?;
    Text::new(alloc, bytes.as_slice())
}
