/// How a command ended: the exit status of the program.
#[derive(Clone, Copy, Debug, PartialEq, Eq)]
pub struct Status {
    pub code: u8,
}

impl Status {
    /// The command is done.
    pub const DONE: u8 = 0;
    /// The source was refused.
    pub const REFUSED: u8 = 1;
    /// A run met a fault other than a limit.
    pub const FAULT: u8 = 2;
    /// The words give no command.
    pub const WORDS: u8 = 3;
    /// A file or an output failed.
    pub const SHELF: u8 = 4;
    /// Memory was wanting.
    pub const MEMORY: u8 = 5;
    /// A limit was met.
    pub const TOO_LONG: u8 = 7;
}
