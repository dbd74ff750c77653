//! Searches in the slots of a unit.

ghost use Rattle.std.specs.Prelude.{◌≡◌};
ghost use Rattle.std.specs.List.{list_any};
ghost use Rattle.ct_tmf.specs.Reaches.{seeks};
ghost use Rattle.ct_lun.specs.Desk.{place_of, waiting_from};
ghost use Rattle.ct_lun.specs.Overlaps.{is_sent_by};

use crate::slot::Slot;
use ct_shelf::Shelf;
use ct_tmf::{Ask, seeks};
use ct_word::{CmdNo, Nexus, Tag};

/// Where the slot with a number stands, or the length.
pub(crate) fn place(slots: &Shelf<Slot>, no: CmdNo) -> usize
    ensures { result ≡ place_of no slots.now.items }
{
    for at in 0..slots.len() {
        if slots.item(at).no == no {
            return at;
        }
    }
    slots.len()
}

/// Where the first slot stands whose command waits, or the length.
pub(crate) fn first_waiting(slots: &Shelf<Slot>) -> usize
    ensures { result ≡ waiting_from slots.now.items }
{
    for at in 0..slots.len() {
        if !slots.item(at).begun {
            return at;
        }
    }
    slots.len()
}

/// A command of this nexus and tag is among them.
pub(crate) fn overlaps(slots: &Shelf<Slot>, nexus: Nexus, tag: Tag) -> bool
    ensures { result ≡ is_sent_by (record { nexus = nexus; tag = tag }) slots.now.items }
{
    for at in 0..slots.len() {
        let slot = slots.item(at);
        if nexus.is_same(slot.nexus) && tag.0 == slot.tag.0 {
            return true;
        }
    }
    false
}

/// A query is about one of them.
pub(crate) fn seeks_any(slots: &Shelf<Slot>, ask: &Ask) -> bool
    ensures { result ≡ list_any (λ slot. seeks ask.now slot.nexus slot.tag) slots.now.items }
{
    for at in 0..slots.len() {
        let slot = slots.item(at);
        if seeks(ask, slot.nexus, slot.tag) {
            return true;
        }
    }
    false
}
