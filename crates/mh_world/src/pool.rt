// Tuples are kept until all values are gone.
use mh_consts::{Const, Shared};
use mh_text::Memory;
use sqlite_items::Items;
use std::alloc::Global;

/// Every tuple that was made, the latest last. It is dropped from the latest on, so that no handle that
/// a tuple holds is ever the last one: tuples may be nested as deeply as statements can be executed.
pub struct Pool {
    made: Vec<Shared<Items<Const>>>,
}

impl Drop for Pool {
    fn drop(mut self) {
        while let Some(_) = self.made.pop() {}
        let Pool { made: _ } = self;
    }
}

impl Pool {
    /// No tuples.
    pub fn new(alloc: Global) -> Pool {
        Pool {
            made: Vec::new(alloc),
        }
    }

    /// Keeps a tuple.
    pub fn keep(&mut self, v: &Const) -> Result<(), Memory> {
        if let Const::Tuple(items) = v {
            self.made.push(items.share()?)?;
        }
        Ok(())
    }
}
