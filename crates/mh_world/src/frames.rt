// Which names are seen from a frame.
ghost use Rattle.std.specs.Prelude.{◌≡◌, None, OnOk, option_copied};
ghost use Rattle.mh_world.specs.Frozen as frozen;
ghost use Rattle.mh_world.specs.Seen as spec;

use crate::kinds::Frame;
use mh_consts::Const;
use mh_text::{Memory, Text};
use std::alloc::Global;

/// What the last of these with the name is bound to, lent.
pub(crate) fn last_in<'f>(inner: &'f [(Text, Const)], t: &Text) -> Option<&'f Const>
    ensures { option_copied result ≡ spec.last_in inner.now t.now None }
{
    let mut found = None;
    for binding in inner {
        if binding.0.bytes() == t.bytes() {
            found = Some(&binding.1);
        }
    }
    found
}

/// What a name is bound to in a frame, or in those around it, of which there are at most `n`, lent.
#[tactic(auto, using(crate::proofs::Numbers::numbers))]
pub(crate) fn find_from<'f>(
    frames: &'f [Frame],
    n: usize,
    t: &Text,
    at: Option<u32>,
) -> Option<&'f Const>
    ensures { option_copied result ≡ spec.find_from n frames.now t.now at }
{
    if n == 0 {
        return None;
    }
    match at {
        None => None,
        Some(i) => match frames.get(i as usize) {
            None => None,
            Some(frame) => match frame.names.find(t) {
                Some(v) => Some(v),
                None => find_from(frames, n - 1, t, frame.parent),
            },
        },
    }
}

/// Notes that a generator has read a name, in a frame and in those around it out to the one that binds
/// it, of which there are at most `n`.
#[tactic(auto, using(crate::proofs::Numbers::numbers))]
pub(crate) fn freeze_from(
    alloc: Global,
    frames: &mut Vec<Frame>,
    n: usize,
    t: &Text,
    at: Option<u32>,
) -> Result<(), Memory>
    ensures { OnOk result (frames.new.items ≡ frozen.freeze_from n t.now at frames.old.items) }
{
    if n == 0 {
        return Ok(());
    }
    let Some(i) = at else {
        return Ok(());
    };
    let i = i as usize;
    if i >= frames.len() {
        return Ok(());
    }
    let around = frames[i].parent;
    let is_bound = frames[i].names.find(t).is_some();
    let name = t.copy(alloc)?;
    frames[i].frozen.bind(name, true)?;
    if is_bound {
        return Ok(());
    }
    freeze_from(alloc, frames, n - 1, t, around)
}
