ghost use Rattle.std.specs.Prelude.{◌≡◌};
ghost use Rattle.ct_matrix.specs.Conflicts.{is_conflict, conflicts, has_to_wait, demand_of, skips};

use crate::blocks::overlaps;
use crate::cells::Action;
use crate::held::{Attr, Demand, Held};
use crate::table::action;

/// Two commands conflict; `free_order` is the modifier that says unrestricted.
#[tactic(auto, unfolding(crate::specs::Conflicts::conflicts))]
pub fn conflict(a: &Held, b: &Held, free_order: bool) -> bool
    ensures { result ≡ conflicts free_order a.now b.now }
{
    match action(a.index, b.index) {
        Action::Skip | Action::Pass => false,
        Action::Block => true,
        Action::OptBlock => !free_order,
        Action::Extent => overlaps(&a.print, &b.print),
        Action::OptExtent => !free_order && overlaps(&a.print, &b.print),
    }
}

/// The second command never waits for the first.
#[tactic(auto, unfolding(crate::specs::Conflicts::skips))]
fn skips(a: &Held, b: &Held) -> bool
    ensures { result ≡ skips a.now b.now }
{
    matches!(action(a.index, b.index), Action::Skip)
}

/// A waiting command `b` has to wait for a live one `a`, which stands ahead of it or behind it (SAM-5, clause 8).
fn has_to_wait(a: &Held, b: &Held, ahead: bool, free_order: bool) -> bool
    ensures { result ≡ has_to_wait free_order ahead a.now b.now }
{
    if skips(a, b) {
        return false;
    }
    match b.attr {
        Attr::Ordered if ahead => true,
        Attr::Simple if ahead => a.attr != Attr::Simple || conflict(a, b, free_order),
        _ => a.begun && conflict(a, b, free_order),
    }
}

/// What a live command `a` demands of a waiting one `b`, which stands behind it where `a` is ahead.
pub fn demand(a: &Held, b: &Held, ahead: bool, free_order: bool) -> Demand
    ensures { result ≡ demand_of free_order ahead a.now b.now }
{
    if has_to_wait(a, b, ahead, free_order) {
        Demand::Wait
    } else {
        Demand::Free
    }
}
