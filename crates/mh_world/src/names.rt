// Names: what they are bound to, and what binding one does.
ghost use Rattle.std.specs.Prelude.{◌≡◌, None, IfOk, OnOk, option_copied};
ghost use Rattle.mh_consts.specs.declared.kinds.Const.{out-Const};
ghost use Rattle.mh_world.specs.Named as named;
ghost use Rattle.mh_world.specs.Seen as seen;
ghost use Rattle.mh_world.specs.View.{world, Does, same};

use crate::fault::refuse;
use crate::frames::{find_from, last_in};
use crate::kinds::Label;
use crate::marks::label_value;
use crate::state::State;
use mh_consts::Const;
use mh_text::{Code, CodeAt, Fault, Memory, Text};
use sqlite_items::Items;
use std::alloc::Global;

impl<'a> State<'a> {
    /// What the variable of a list with `for` that is being made is bound to, lent.
    fn find_inner(&self, t: &Text) -> Option<&Const>
        ensures { option_copied result ≡ seen.last_in (seen.inner_of (seen.here (world self.now))) t.now None }
    {
        match self.frames.get(self.current as usize) {
            Some(frame) => last_in(frame.inner.as_slice(), t),
            None => None,
        }
    }

    /// What a name is bound to, lent.
    pub fn find(&self, t: &Text) -> Option<&Const>
        ensures { option_copied result ≡ seen.find (world self.now) t.now }
    {
        match self.find_inner(t) {
            Some(v) => Some(v),
            None => find_from(
                self.frames.as_slice(),
                self.frames.len(),
                t,
                Some(self.current),
            ),
        }
    }

    /// The value of a name.
    pub fn name(&self, alloc: Global, line: u32, t: &Text) -> Result<Const, Fault<CodeAt>>
        ensures { Does same (seen.name line t.now (world self.now)) result (world self.now) }
    {
        match self.find(t) {
            Some(v) => Ok(v.copy(alloc)?),
            None => refuse(Code::E1UnknownName, line),
        }
    }

    /// Whether a generator has read this name.
    fn is_frozen(&self, t: &Text) -> bool
        ensures { result ≡ seen.is_frozen (world self.now) t.now }
    {
        match self.frames.get(self.current as usize) {
            Some(frame) => frame.frozen.find(t).is_some(),
            None => false,
        }
    }

    /// The instance whose block is being executed.
    pub fn inside(&self) -> Option<u32>
        ensures { result ≡ seen.inside (world self.now) }
    {
        match self.frames.get(self.current as usize) {
            Some(frame) => frame.inside,
            None => None,
        }
    }

    /// What a name that is bound here gives to what it leads to.
    fn label_here(&self, alloc: Global, t: &Text) -> Result<Label, Memory>
        ensures { IfOk result (λ p. p ≡ named.label_here (world self.now) t.now) }
    {
        Ok(Label {
            words: t.copy(alloc)?,
            inside: self.inside(),
        })
    }

    /// Binds a name, and nothing more.
    fn put_name(&mut self, t: Text, v: Const) -> Result<(), Memory>
        ensures { OnOk result (world self.new ≡ named.put_name t v (world self.old)) }
    {
        let i = self.current as usize;
        if i < self.frames.len() {
            self.frames[i].names.bind(t, v)?;
        }
        Ok(())
    }

    /// Labels what a value leads to.
    pub(crate) fn label(&mut self, alloc: Global, p: &Label, v: &Const) -> Result<(), Memory>
        ensures { OnOk result (world self.new ≡ named.label p.now v.now (world self.old)) }
    {
        let Some(depth) = self.scope.lists.len().checked_add(1) else {
            return Err(Memory);
        };
        label_value(alloc, &self.scope.lists, depth, p, v, &mut self.marks)
    }

    /// Notes the first name of an instance.
    fn called(&mut self, alloc: Global, t: &Text, n: u32) -> Result<(), Memory>
        ensures { OnOk result (world self.new ≡ named.called t.now n (world self.old)) }
    {
        let i = n as usize;
        match self.instances.get(i) {
            Some(x) => {
                if x.called.is_none() {
                    let own = t.copy(alloc)?;
                    self.instances[i].called = Some(own);
                }
                Ok(())
            }
            None => Ok(()),
        }
    }

    /// Notes that the module has bound a function.
    fn known(&mut self, n: u32)
        ensures { world self.new ≡ named.known n (world self.old) }
    {
        if self.current != 0 {
            return;
        }
        let i = n as usize;
        match self.known.get(i) {
            Some(_) => self.known.set(i, true),
            None => {}
        }
    }

    /// Notes what a name is bound to, where it is a tuple, an instance or a function.
    #[tactic(auto, using(mh_consts::proofs::Values::values))]
    fn noted(&mut self, alloc: Global, p: &Label, v: &Const) -> Result<(), Memory>
        ensures { OnOk result (world self.new ≡ named.noted p.now (out-Const v.now) (world self.old)) }
    {
        match v {
            Const::Tuple(items) => {
                let held = items.share()?;
                let own = p.copy(alloc)?;
                self.tuples.push((held, own))?;
                Ok(())
            }
            Const::Instance(n) => self.called(alloc, &p.words, *n),
            Const::Function(n) => {
                self.known(*n);
                Ok(())
            }
            _ => Ok(()),
        }
    }

    /// Binds a name, whether or not a generator has read it.
    pub(crate) fn binds(&mut self, alloc: Global, t: &Text, v: Const) -> Result<(), Memory>
        ensures { OnOk result (world self.new ≡ named.binds t.now v (world self.old)) }
    {
        let p = self.label_here(alloc, t)?;
        let name = t.copy(alloc)?;
        let own = v.copy(alloc)?;
        self.put_name(name, own)?;
        self.label(alloc, &p, &v)?;
        self.noted(alloc, &p, &v)
    }

    /// Binds a name, unless a generator has read it.
    pub fn bind_name(
        &mut self,
        alloc: Global,
        line: u32,
        t: &Text,
        v: Const,
    ) -> Result<(), Fault<CodeAt>>
        ensures { Does same (named.bind_name line t.now v (world self.old)) result (world self.new) }
    {
        if self.is_frozen(t) {
            return refuse(Code::E2NotElaborable, line);
        }
        self.binds(alloc, t, v)?;
        Ok(())
    }

    /// The variable of a list with `for` is seen while an item is made.
    pub fn push_inner(&mut self, t: Text, v: Const) -> Result<(), Memory>
        ensures { OnOk result (world self.new ≡ named.push_inner t v (world self.old)) }
    {
        let i = self.current as usize;
        if i < self.frames.len() {
            self.frames[i].inner.push((t, v))?;
        }
        Ok(())
    }

    /// The variable of a list with `for` is gone.
    pub fn pop_inner(&mut self)
        ensures { world self.new ≡ named.pop_inner (world self.old) }
    {
        let i = self.current as usize;
        if i < self.frames.len() {
            drop_last(&mut self.frames[i].inner);
        }
    }
}

/// The last of these is gone.
#[tactic(auto, using(crate::proofs::Inner::gone))]
fn drop_last(inner: &mut Items<(Text, Const)>)
    ensures { inner.new ≡ named.without_last inner.old }
{
    let _last = inner.pop();
}
