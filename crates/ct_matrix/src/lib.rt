//! When a command has to wait for another: footprints, the table of conflicts, the demand of the task attributes, and
//! what a structure that keeps a task set in queue order owes.
#![tactic(auto)]

ghost use Rattle.std.specs.Prelude.{◌≡◌};

mod blocks;
mod cells;
mod demands;
mod held;
mod laws;
mod reach;
mod steps;
mod table;
mod waits;

pub use blocks::{Extent, Footprint, overlaps};
pub use cells::Action;
pub use demands::{conflict, demand};
pub use held::{Attr, Demand, Held, HeldCommand};
pub use laws::{block_cells_are_symmetric, blocker_is_the_first, overlap_is_symmetric};
pub use reach::footprint;
pub use steps::{Steps, demand_counted};
pub use table::action;
pub use waits::{Waits, leave_uncounted};

#[cfg(test)]
mod tests {
    use super::*;
    use ct_cdb::{Form, Op, SerIdx};
    use ct_word::limit::BLOCK_SIZE;
    use std::marker::Brand;
    use std::sync::ledger::{Blank, Ledger};

    const INDEXES: [SerIdx; 12] = [
        SerIdx::Tur,
        SerIdx::Inq,
        SerIdx::RqS,
        SerIdx::Cap,
        SerIdx::Rd,
        SerIdx::Wr,
        SerIdx::Un,
        SerIdx::Sy,
        SerIdx::MSn,
        SerIdx::MSl,
        SerIdx::Res,
        SerIdx::Sta,
    ];

    fn read(lba: u64, count: u32) -> Op {
        let form = Form::Ten;
        Op::Read { form, lba, count }
    }

    fn write(lba: u64, count: u32) -> Op {
        let form = Form::Ten;
        Op::Write { form, lba, count }
    }

    /// A write of two blocks, that waits.
    fn writing(index: SerIdx, lba: u64, attr: Attr) -> Held {
        let print = footprint(&write(lba, 2), &[0; 2 * BLOCK_SIZE], 100);
        Held {
            index,
            print,
            attr,
            begun: false,
        }
    }

    fn writes(index: SerIdx) -> bool {
        matches!(index, SerIdx::Wr | SerIdx::Un)
    }

    fn changes_settings(index: SerIdx) -> bool {
        matches!(index, SerIdx::MSl | SerIdx::Res | SerIdx::Sta)
    }

    /// The rules of the table in words: by groups of commands, and not by cells.
    fn conflicts_by_rules(a: SerIdx, b: SerIdx, free_order: bool, overlapping: bool) -> bool {
        if matches!(b, SerIdx::Inq | SerIdx::RqS) {
            return false;
        }
        if changes_settings(a) {
            return true;
        }
        if changes_settings(b) {
            return !matches!(a, SerIdx::Inq | SerIdx::RqS | SerIdx::Cap);
        }
        if a == SerIdx::Wr && b == SerIdx::Wr {
            return overlapping;
        }
        let restricted_pair = writes(a) && (writes(b) || b == SerIdx::Rd)
            || a == SerIdx::Rd && writes(b);
        let flushed = writes(a) && b == SerIdx::Sy;
        !free_order && (flushed || restricted_pair && overlapping)
    }

    fn agrees(a: SerIdx, b: SerIdx, free_order: bool, second: u64, overlapping: bool) -> bool {
        let first = writing(a, 5, Attr::Simple);
        let waiting = writing(b, second, Attr::Simple);
        let expected = conflicts_by_rules(a, b, free_order, overlapping);
        let demanded = demand(&first, &waiting, true, free_order) == Demand::Wait;
        conflict(&first, &waiting, free_order) == expected && demanded == expected
    }

    #[test]
    fn table_follows_the_rules(rt: HostRuntime) {
        for a in INDEXES {
            for b in INDEXES {
                for free_order in [false, true] {
                    assert!(rt;
                        agrees(a, b, free_order, 6, true),
                        "{a:?} {b:?} {free_order} overlapping"
                    );
                    assert!(rt;
                        agrees(a, b, free_order, 7, false),
                        "{a:?} {b:?} {free_order} side by side"
                    );
                }
            }
        }
    }

    #[test]
    fn attributes_decide(rt: HostRuntime) {
        let far = writing(SerIdx::Wr, 50, Attr::Simple);
        let near = writing(SerIdx::Wr, 5, Attr::Simple);
        let ordered = writing(SerIdx::Wr, 5, Attr::Ordered);
        let head = writing(SerIdx::Wr, 5, Attr::Head);
        let mut begun = writing(SerIdx::Wr, 5, Attr::Simple);
        begun.begun = true;
        assert_eq!(rt; demand(&far, &near, true, false), Demand::Free);
        assert_eq!(rt; demand(&far, &ordered, true, false), Demand::Wait);
        assert_eq!(rt; demand(&far, &ordered, false, false), Demand::Free);
        assert_eq!(rt; demand(&ordered, &far, true, false), Demand::Wait);
        assert_eq!(rt; demand(&head, &far, true, false), Demand::Wait);
        assert_eq!(rt; demand(&near, &head, true, false), Demand::Free);
        assert_eq!(rt; demand(&begun, &head, true, false), Demand::Wait);
        assert_eq!(rt; demand(&begun, &near, false, false), Demand::Wait);
        assert_eq!(rt; demand(&near, &head, false, false), Demand::Free);
    }

    #[test]
    fn footprints_meet(rt: HostRuntime) {
        let reading = footprint(&read(5, 2), &[], 7);
        let past_the_end = footprint(&read(5, 3), &[], 7);
        let writing = footprint(&write(6, 1), &[0; BLOCK_SIZE], 7);
        let short = footprint(&write(6, 1), &[0; BLOCK_SIZE - 1], 7);
        let nothing = footprint(&write(6, 0), &[], 7);
        assert!(rt;
            overlaps(&reading, &writing)
                && overlaps(&writing, &reading)
                && overlaps(&writing, &writing)
        );
        assert!(rt; !overlaps(&reading, &reading) && !overlaps(&past_the_end, &writing));
        assert!(rt; !overlaps(&reading, &short) && !overlaps(&reading, &nothing));
        assert_eq!(rt; action(SerIdx::Rd, SerIdx::Wr), Action::OptExtent);
        overlap_is_symmetric();
        block_cells_are_symmetric();
        blocker_is_the_first();
    }

    fn count_from<L: Ledger>(blank: Blank) -> Demand
        requires name { blank.name ≡ L.name }
        requires parts { blank.parts ≡ L.parts }
        requires one { L.parts ≡ 1 }
    {
        let mut steps = Steps::<L>::new(blank);
        let first = writing(SerIdx::Wr, 5, Attr::Simple);
        let second = writing(SerIdx::Wr, 6, Attr::Simple);
        demand_counted(&first, &second, true, false, &mut steps)
    }

    #[test]
    fn counts_demands(rt: HostRuntime) {
        assert_eq!(rt; count_from::<Brand>(Blank::new(1)), Demand::Wait);
    }
}
