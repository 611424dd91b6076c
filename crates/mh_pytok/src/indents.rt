ghost use Rattle.std.specs.Prelude.{◌≡◌, ◌++◌, ◌∷◌, [], ◌<◌, ◌≤◌, ◌^◌, List, reverse, replicate, drop, length, OnOk};
ghost use Rattle.mh_pytok.specs.Layout.{left_by, innermost};

use crate::token::Token;
use mh_text::Memory;
use sqlite_items::Items;

/// Adds an item at the end.
pub(crate) fn push_one<T>(items: &mut Items<T>, item: T) -> Result<(), Memory>
where
    T: Drop,
    ensures { OnOk result (items.new ≡ items.old ++ item ∷ []) }
{
    items.push(item)?;
    Ok(())
}

/// Adds a token `count` times.
pub(crate) fn push_many(out: &mut Items<Token>, token: Token, count: u32) -> Result<(), Memory>
    ensures { OnOk result (out.new ≡ out.old ++ replicate count token) }
{
    for _i in 0..count {
        out.push(token)?;
    }
    Ok(())
}

/// The column of the innermost block; 0 where none is open.
pub(crate) fn innermost_of(indents: &Items<u32>) -> u32
    ensures { result ≡ innermost (reverse indents.now) }
{
    match indents.as_slice().last() {
        Some(column) => *column,
        None => 0,
    }
}

/// Leaves the blocks that begin further right than the column, and says how many.
pub(crate) fn leave(indents: &mut Items<u32>, column: u32) -> u32
    requires { length indents.old < 2 ^ 32 }
    ensures count { result ≡ left_by column (reverse indents.old) }
    ensures rest { reverse indents.new ≡ drop result (reverse indents.old) }
{
    let mut count = 0u32;
    while innermost_of(indents) > column {
        let _ = indents.pop();
        count += 1;
    }
    count
}
