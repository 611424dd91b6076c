// Calls: the frame of one, and the instance that the call of a block makes.
ghost use Rattle.std.specs.Prelude.{◌≡◌, OnOk};
ghost use Rattle.mh_world.specs.Functions as functions;
ghost use Rattle.mh_world.specs.View.{world};

use crate::kinds::{Frame, Instance};
use crate::state::State;
use mh_consts::{Const, Names};
use mh_text::{Memory, Text};
use sqlite_items::Items;
use std::alloc::Global;

impl<'a> State<'a> {
    /// A frame in which nothing is bound yet.
    pub(crate) fn new_frame(
        &mut self,
        alloc: Global,
        home: u32,
        inside: Option<u32>,
    ) -> Result<(), Memory>
        ensures { OnOk result (world self.new ≡ functions.new_frame home inside (world self.old)) }
    {
        let n = self.frames.len();
        if n > 4294967295 {
            return Err(Memory);
        }
        self.frames.push(Frame {
            names: Names::new(alloc),
            inner: Items::new(alloc),
            parent: Some(home),
            inside,
            frozen: Names::new(alloc),
        })?;
        self.current = n as u32;
        Ok(())
    }

    /// An instance of the block of a name, which hasn't returned yet.
    pub(crate) fn new_instance(
        &mut self,
        alloc: Global,
        name: Text,
        line: u32,
        arguments: Items<(Text, Const)>,
    ) -> Result<(), Memory>
        ensures { OnOk result (world self.new ≡ functions.new_instance name line arguments (world self.old)) }
    {
        let outer = self.inside();
        self.instances.push(Instance {
            name,
            line,
            arguments,
            outer,
            called: None,
            parts: Items::new(alloc),
        })?;
        Ok(())
    }

    /// The caller goes on in its frame.
    pub(crate) fn back_to(&mut self, frame: u32)
        ensures { world self.new ≡ functions.back_to frame (world self.old) }
    {
        self.current = frame;
    }

    /// Binds the parameters of a call.
    pub(crate) fn bind_all(&mut self, alloc: Global, bs: &[(Text, Const)]) -> Result<(), Memory>
        ensures { OnOk result (world self.new ≡ functions.bind_all bs.now (world self.old)) }
    {
        for b in bs {
            let own = b.1.copy(alloc)?;
            self.binds(alloc, &b.0, own)?;
        }
        Ok(())
    }
}
