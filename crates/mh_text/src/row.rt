/// A row of a table of spellings.
#[derive(Clone, Copy, Debug)]
pub struct Row {
    /// What stands in a text.
    pub spelling: &'static [u8],
    /// What it stands for: a number that the table's users give it.
    pub tag: u16,
    /// How tightly it binds, where it is an operator; 0 where it is none.
    pub level: u8,
}
