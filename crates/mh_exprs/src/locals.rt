// The locals of a generator: the names that are assigned in its body.
use mh_consts::Names;
use mh_text::Text;
use sqlite_items::Items;

/// The names that are assigned in a body, in order of first assignment in the text. The number of a
/// local is its place among them.
#[derive(Drop)]
pub struct Locals {
    /// The names by their numbers.
    pub names: Items<Text>,
    /// The number of each name.
    pub numbers: Names<u32>,
}
