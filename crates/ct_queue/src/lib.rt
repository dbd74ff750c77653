//! A task set in queue order, kept plainly.
#![tactic(auto)]

ghost use Rattle.std.specs.Prelude.{◌≡◌, false, length};

mod known_command;
mod queue;
mod search;

pub use queue::Queue;

#[cfg(test)]
mod tests {
    use super::*;
    use ct_cdb::{Form, Op, SerIdx};
    use ct_matrix::{Attr, Held, Steps, Waits, footprint, leave_uncounted};
    use ct_word::CmdNo;
    use std::marker::Brand;
    use std::sync::ledger::{Blank, Ledger};
    use std::test::Fail;

    /// A write of one block, that waits.
    fn writing(lba: u32, attr: Attr) -> Held
        ensures { result.begun ≡ false }
    {
        let write = Op::Write {
            form: Form::Ten,
            lba: u64::from(lba),
            count: 1,
        };
        Held {
            index: SerIdx::Wr,
            print: footprint(&write, &[0; 512], 1000),
            attr,
            begun: false,
        }
    }

    fn enter(queue: &mut Queue, number: u32, lba: u32, attr: Attr) -> bool {
        let no = CmdNo::new(number);
        if queue.is_full() || queue.holds(no) {
            return false;
        }
        queue.enter(no, writing(lba, attr));
        true
    }

    fn begin(queue: &mut Queue, number: u32) -> bool {
        let no = CmdNo::new(number);
        if !queue.waits(no) {
            return false;
        }
        queue.begin(no);
        true
    }

    fn leave(queue: &mut Queue, number: u32) -> bool {
        let no = CmdNo::new(number);
        if !queue.holds(no) {
            return false;
        }
        leave_uncounted(queue, no);
        true
    }

    /// The number that makes this one wait; 0 where none does or it does not wait.
    fn blocker(queue: &Queue, number: u32) -> u32 {
        let no = CmdNo::new(number);
        if !queue.waits(no) {
            return 0;
        }
        queue.blocker(no).map_or(0, |no| no.number())
    }

    fn number(found: Option<CmdNo>) -> u32 {
        found.map_or(0, |no| no.number())
    }

    /// From the first on, the commands are these.
    fn walks_as(queue: &Queue, expected: &[u32]) -> bool {
        let mut next = queue.first();
        for number in expected {
            match next {
                Some(no) if no.number() == *number && queue.holds(no) => next = queue.after(no),
                _ => return false,
            }
        }
        next.is_none() && queue.len() as usize == expected.len()
    }

    fn fill(queue: &mut Queue, numbers: &[u32]) -> bool {
        for number in numbers {
            if !enter(queue, *number, *number, Attr::Simple) {
                return false;
            }
        }
        true
    }

    fn leave_all(queue: &mut Queue, numbers: &[u32]) -> bool {
        for number in numbers {
            if !leave(queue, *number) {
                return false;
            }
        }
        true
    }

    fn begin_all(queue: &mut Queue, numbers: &[u32]) -> bool {
        for number in numbers {
            if !begin(queue, *number) || begin(queue, *number) {
                return false;
            }
        }
        true
    }

    /// 256 numbers, the greatest first.
    fn numbers() -> [u32; 256] {
        let mut all = [0; 256];
        for (at, number) in all.iter_mut().enumerate() {
            *number = 256 - at as u32;
        }
        all
    }

    fn fills(queue: &mut Queue, all: &[u32]) -> bool {
        let filled = fill(queue, all) && walks_as(queue, all);
        filled && queue.is_full() && !enter(queue, 1000, 1, Attr::Simple)
    }

    /// The first half begins, and the other leaves.
    fn half_stays(queue: &mut Queue, first: &[u32], other: &[u32]) -> bool {
        let begun = begin_all(queue, first) && enter_heads(queue);
        begun && leave_all(queue, other) && walks_as(queue, first)
    }

    /// Of what stays, the first half leaves, and enters again behind the rest.
    fn half_returns(queue: &mut Queue, first: &[u32], other: &[u32]) -> bool {
        let left = leave_all(queue, first) && walks_as(queue, other);
        left && fill(queue, first) && !fill(queue, first)
    }

    fn halves_move(queue: &mut Queue, all: &[u32]) -> bool
        requires { length all.now ≡ 256 }
    {
        let (begun, gone) = all.split_at(128);
        let (first, other) = begun.split_at(64);
        half_stays(queue, begun, gone) && half_returns(queue, first, other)
    }

    #[test]
    fn holds_256_commands(rt: HostRuntime) -> Result<(), Fail> {
        let all = numbers();
        let mut queue = Queue::open(rt.alloc(), 256)?;
        assert!(rt; fills(&mut queue, &all));
        assert!(rt; halves_move(&mut queue, &all));
        assert_eq!(rt; (queue.len(), number(queue.next_ready())), (128, 256));
        assert_eq!(rt; number(queue.first_begun()), 192);
        Ok(())
    }

    /// Two HEAD OF QUEUE commands in place of the last two.
    fn enter_heads(queue: &mut Queue) -> bool {
        if !leave(queue, 1) || !leave(queue, 2) {
            return false;
        }
        let entered = enter(queue, 1001, 900, Attr::Head) && enter(queue, 1002, 901, Attr::Head);
        let after_begun = queue.holds(CmdNo::new(129))
            && number(queue.after(CmdNo::new(129))) == 1002;
        entered && after_begun && leave(queue, 1001) && leave(queue, 1002) && fill(queue, &[2, 1])
    }

    #[test]
    fn puts_heads_before_the_first_that_waits(rt: HostRuntime) -> Result<(), Fail> {
        let mut queue = Queue::open(rt.alloc(), 6)?;
        assert!(rt;
            queue.first().is_none() && queue.next_ready().is_none() && queue.first_begun().is_none()
        );
        assert!(rt;
            enter(&mut queue, 1, 5, Attr::Simple) && enter(&mut queue, 2, 6, Attr::Ordered)
        );
        assert!(rt; begin(&mut queue, 1) && !begin(&mut queue, 1) && !begin(&mut queue, 9));
        assert!(rt; enter(&mut queue, 3, 5, Attr::Head) && walks_as(&queue, &[1, 3, 2]));
        assert!(rt; enter(&mut queue, 4, 7, Attr::Head) && walks_as(&queue, &[1, 4, 3, 2]));
        assert!(rt; !enter(&mut queue, 4, 7, Attr::Head));
        assert_eq!(rt;
            (blocker(&queue, 2), blocker(&queue, 3), blocker(&queue, 4)),
            (1, 1, 0)
        );
        assert_eq!(rt;
            (number(queue.next_ready()), number(queue.first_begun())),
            (4, 1)
        );
        assert!(rt; leave(&mut queue, 1) && !leave(&mut queue, 1));
        assert_eq!(rt;
            (
                blocker(&queue, 2),
                blocker(&queue, 3),
                number(queue.first())
            ),
            (4, 0, 4)
        );
        Ok(())
    }

    fn leave_from<L: Ledger>(queue: &mut Queue, number: u32, blank: Blank) -> bool
        requires name { blank.name ≡ L.name }
        requires parts { blank.parts ≡ L.parts }
        requires one { L.parts ≡ 1 }
    {
        let mut steps = Steps::<L>::new(blank);
        let no = CmdNo::new(number);
        if !queue.holds(no) {
            return false;
        }
        queue.leave(no, &mut steps);
        !queue.holds(no)
    }

    #[test]
    fn leaves_and_is_reordered(rt: HostRuntime) -> Result<(), Fail> {
        let mut queue = Queue::open(rt.alloc(), 3)?;
        assert!(rt; enter(&mut queue, 7, 5, Attr::Simple) && enter(&mut queue, 8, 5, Attr::Simple));
        assert_eq!(rt; (blocker(&queue, 8), number(queue.next_ready())), (7, 7));
        queue.set_order(true);
        assert_eq!(rt; (blocker(&queue, 8), blocker(&queue, 7)), (7, 0));
        assert!(rt; leave_from::<Brand>(&mut queue, 7, Blank::new(1)));
        assert_eq!(rt; (blocker(&queue, 8), number(queue.next_ready())), (0, 8));
        Ok(())
    }
}
