ghost use Rattle.std.specs.Prelude.{◌≡◌, ◌+◌, ◌≤◌, ◌<◌, ◌^◌, length, true};
ghost use Rattle.std.specs.List.{list_all};
ghost use Rattle.ct_word.specs.declared.limit.TheConstants.{MOST_RANGES};
ghost use Rattle.ct_cdb.specs.Profiles.{profile_of};
ghost use Rattle.ct_cdb.specs.Ranges.{is_inside};
ghost use Rattle.ct_matrix.specs.Extents.{extents_of, rising, footprint_of};

use crate::blocks::{Extent, Extents, Footprint};
use ct_cdb::{LbaRange, Op, Profile};

/// The footprint of a command that came with this data-out, on a disk of so many blocks.
pub fn footprint(op: &Op, out: &[u8], blocks: u32) -> Footprint
    ensures { result ≡ footprint_of (length out.now) blocks (profile_of op.now out.now blocks) }
{
    Footprint::by(&Profile::of(op, out, blocks), out.len(), blocks)
}

impl Footprint {
    /// The footprint of a command with this row and so many bytes of data-out.
    #[tactic(auto, unfolding(crate::specs::Extents::footprint_of))]
    pub fn by(profile: &Profile, out: usize, blocks: u32) -> Footprint
        ensures { result ≡ footprint_of out blocks profile.now }
    {
        if !profile.is_performed(out, blocks) {
            return Footprint::new(Extents::none(), false, false);
        }
        let extents = rising(profile.ranges.as_slice(), blocks);
        Footprint::new(extents, profile.reads(), profile.writes())
    }
}

// Ranges on a disk of so many blocks, without those that are empty, in rising order.
fn rising(ranges: &[LbaRange], blocks: u32) -> Extents
    requires few { length ranges.now ≤ 64 }
    requires inside { list_all (is_inside blocks) ranges.now ≡ true }
    ensures extents { result ≡ rising (extents_of ranges.now) }
    ensures few { length result ≤ length ranges.now }
{
    match ranges {
        [] => Extents::none(),
        [first, others @ ..] => {
            let extents = rising(others, blocks);
            if first.count == 0 {
                extents
            } else {
                extents.with(Extent {
                    first: first.lba as u32,
                    count: first.count,
                })
            }
        }
    }
}
