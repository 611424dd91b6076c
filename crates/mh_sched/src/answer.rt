// What a run answers.

/// What a delta did: it ran, nothing was due, the statement with this number of this generator
/// prints, or the run was stopped.
#[derive(Clone, Copy, Debug, PartialEq, Eq)]
pub enum Delta {
    Ran,
    Quiet,
    Says(u32, u32),
    Stopped,
}

/// How a run up to a time ended: the time is reached and a later event is left, none is left, or
/// the run was stopped.
#[derive(Clone, Copy, Debug, PartialEq, Eq)]
pub enum End {
    Reached,
    Quiet,
    Stopped,
}
