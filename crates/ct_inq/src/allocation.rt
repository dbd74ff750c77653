//! Data-in, as much of it as the host takes.

ghost use Rattle.std.specs.Prelude.{◌≡◌, ◌≤◌, ◌-◌, ◌++◌, length};
ghost use Rattle.ct_inq.specs.Allocation.{cut};

use ct_word::Reserve;

/// Adds the data at the end, cut to the allocation length.
pub fn append_cut(whole: &[u8], allocation: usize, into: &mut Reserve<u8>)
    requires { length (cut allocation whole.now) ≤ into.old.room }
    ensures { let kept = cut allocation whole.now in
        into.new ≡ record { items = into.old.items ++ kept; room = into.old.room - length kept } }
{
    into.append(&whole[..whole.len().min(allocation)]);
}
