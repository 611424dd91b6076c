// The text of a case is made of blocks, each with a head and the lines below it.
use mh_host::Fault;

/// A head, and the lines below it without the last line's end.
#[derive(Clone, Copy)]
pub(crate) struct Block<'a> {
    /// The line behind `--- `, or the title behind `=== `.
    pub(crate) head: &'a str,
    /// All lines below it.
    pub(crate) body: &'a str,
}

impl<'a> Block<'a> {
    /// The first line of a text is the head.
    pub(crate) fn new(text: &'a str) -> Block<'a> {
        let (head, body) = text.split_once('\n').unwrap_or((text, ""));
        Block { head, body }
    }

    /// What the block is for, and the rest of its head.
    pub(crate) fn verb(&self) -> (&'a str, &'a str) {
        self.head.split_once(' ').unwrap_or((self.head, ""))
    }
}

/// What stands before and after the source of each case.
#[derive(Clone, Copy)]
pub(crate) struct Frame<'a> {
    /// The first lines of each source.
    pub(crate) before: &'a str,
    /// The last lines of each source.
    pub(crate) after: &'a str,
}

impl<'a> Frame<'a> {
    /// The frame that the head of a file sets.
    pub(crate) fn new(head: &'a str) -> Frame<'a> {
        let mut frame = Frame {
            before: "",
            after: "",
        };
        for text in head.split("\n--- ") {
            let block = Block::new(text);
            match block.head {
                "before" => frame.before = block.body,
                "after" => frame.after = block.body,
                _ => {}
            }
        }
        frame
    }
}

/// `2` is the call that fails, and `2 6` the call that takes 6 bytes and fails.
pub(crate) fn fault(numbers: &str) -> Option<Fault> {
    match numbers.split_once(' ') {
        Some((call, taken)) => Some(Fault {
            call: call.parse().ok()?,
            taken: Some(taken.parse().ok()?),
        }),
        None => Some(Fault {
            call: numbers.parse().ok()?,
            taken: None,
        }),
    }
}
