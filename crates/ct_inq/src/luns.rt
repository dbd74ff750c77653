//! REPORT LUNS.

ghost use Rattle.std.specs.Prelude.{◌≡◌, ◌≤◌, ◌*◌, ◌+◌, ◌-◌, ◌++◌, length, take, replicate};
ghost use Rattle.ct_inq.specs.Luns.{visible_below, listed, lun_entries, lun_list, luns_data};

use crate::allocation::append_cut;
use ct_cdb::LunSelection;
use ct_word::Reserve;

/// Numbers that a logical unit can have, from 0 on.
const NUMBERS: u8 = 16;

/// Bytes before the first entry, and of each entry.
const ENTRY: usize = 8;

/// Bytes of the longest list.
const LONGEST: usize = 136;

/// Adds the data-in of a REPORT LUNS (SPC-4), cut to the allocation length in bytes. The number x, 0 to 15, is seen
/// where bit x of `visible` is 1.
#[tactic(auto, unfolding(crate::specs::Luns::luns_data))]
pub fn report_luns(select: LunSelection, allocation: u32, visible: u16, into: &mut Reserve<u8>)
    requires room { length (luns_data select allocation visible) ≤ into.old.room }
    ensures { let added = luns_data select allocation visible in
        into.new ≡ record { items = into.old.items ++ added; room = into.old.room - length added } }
{
    let mut list = [0; LONGEST];
    let end = put_list(seen(select, visible), &mut list);
    append_cut(&list[..end], allocation as usize, into);
}

/// The visible numbers among those that are selected, none of which is that of a well known logical unit.
#[tactic(auto, unfolding(crate::specs::Luns::visible_below))]
fn seen(select: LunSelection, visible: u16) -> u16
    ensures { visible_below 16 result ≡ listed select visible }
{
    match select {
        LunSelection::WellKnown => 0,
        LunSelection::Addressed | LunSelection::All => visible,
    }
}

/// Writes the list of the visible numbers over zeros, and returns how many bytes it has.
#[tactic(auto, unfolding(crate::specs::Luns::lun_list))]
fn put_list(visible: u16, list: &mut [u8; LONGEST]) -> usize
    requires { list.old ≡ replicate LONGEST 0 }
    ensures within { result ≤ LONGEST }
    ensures list { take result list.new ≡ lun_list (visible_below 16 visible) }
{
    let end = put_entries(visible, list);
    list[..4].copy_from_slice(&((end - ENTRY) as u32).to_be_bytes());
    end
}

/// Writes an entry for each visible number over zeros behind the first eight bytes, and returns where the last ends.
fn put_entries(visible: u16, list: &mut [u8; LONGEST]) -> usize
    requires { list.old ≡ replicate LONGEST 0 }
    ensures end { result ≡ ENTRY + ENTRY * length (visible_below 16 visible) }
    ensures within { result ≤ LONGEST }
    ensures list { list.new ≡
        replicate ENTRY 0 ++ lun_entries (visible_below 16 visible) ++ replicate (LONGEST - result) 0 }
{
    let mut end = ENTRY;
    for number in 0..NUMBERS {
        if (visible >> number) & 1 == 1 {
            list[end + 1] = number;
            end += ENTRY;
        }
    }
    end
}
