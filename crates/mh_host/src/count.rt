ghost use Rattle.std.specs.Prelude.{true};
ghost use Rattle.mh_host.specs.Shelf.{Counted};

/// Counts one more fault, up to the end of the type.
pub(crate) fn raise(count: &mut u64)
    ensures { Counted true count.old count.new }
{
    *count = count.saturating_add(1);
}
