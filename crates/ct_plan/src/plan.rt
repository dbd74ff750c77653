ghost use Rattle.std.specs.Prelude.{◌≡◌, ◌+◌, ◌*◌, ◌^◌, ◌<◌, ◌≤◌, [], length, take, slice_get, Some};
ghost use Rattle.ct_cdb.specs.Profiles.{Fits, profile_of};
ghost use Rattle.ct_plan.specs.Plans.{operation_of, plan_of, need_of, puts_among, puts_by};
ghost use Rattle.ct_plan.specs.Tasks.{IsTold};

use crate::operation::BlockOp;
use ct_cdb::{Few, Op, Phase, Profile, Ranges, rows_fit};
use ct_word::limit::MOST_BLOCKS;
use std::marker::Model;

/// The block operations of a command, of fixed size, as contracts see it: a list, and the blocks of the pool that it needs.
#[derive(Debug, Drop)]
pub struct Plan {
    phases: Few<Phase>,
    ranges: Ranges,
    /// How many blocks the ranges have.
    count: u32,
    need: u32,
}

impl Model for Plan {
    ghost use Rattle.ct_plan.specs.PlanStates.{PlanState};

    ghost Value = { PlanState };

    ghost use Rattle.ct_plan.specs.PlanStates.{IsPlan};
    ghost use Rattle.ct_plan.specs.Plans.{planned};

    ghost view = { λ p. record { operations = planned p.phases p.ranges; need = p.need } };

    ghost invariant = { λ p. IsPlan p.phases p.ranges p.count p.need };
}

impl Plan {
    /// The plan of a command with this data-out, on a disk of so many blocks, 1 to 65,536. It is empty where the data-out
    /// is too short or a range isn't inside the disk.
    pub fn of(op: &Op, out: &[u8], blocks: u32) -> Plan
        requires { blocks ≤ MOST_BLOCKS }
        ensures operations { result.operations ≡ plan_of (length out.now) blocks (profile_of op.now out.now blocks) }
        ensures need { result.need ≡ need_of (length out.now) blocks (profile_of op.now out.now blocks) }
    {
        rows_fit();
        Plan::by(Profile::of(op, out, blocks), out.len(), blocks)
    }

    /// The plan of a command with this row and so many bytes of data-out.
    #[tactic(auto, unfolding(crate::specs::Plans::plan_of, crate::specs::Plans::need_of))]
    pub fn by(profile: Profile, out: usize, blocks: u32) -> Plan
        requires few { blocks ≤ MOST_BLOCKS }
        requires fits { Fits profile }
        ensures operations { result.operations ≡ plan_of out blocks profile }
        ensures need { result.need ≡ need_of out blocks profile }
    {
        if !profile.is_performed(out, blocks) {
            return Plan::none();
        }
        if profile.operations() == 0 {
            return Plan::none();
        }
        let count = profile.ranges.total() as u32;
        Plan {
            phases: profile.phases,
            ranges: profile.ranges,
            count,
            need: profile.need as u32,
        }
    }

    // The empty plan.
    fn none() -> Plan
        ensures operations { result.operations ≡ [] }
        ensures need { result.need ≡ 0 }
    {
        Plan {
            phases: Few::none(),
            ranges: Ranges::none(),
            count: 0,
            need: 0,
        }
    }

    /// How many block operations there are.
    pub fn length(&self) -> u32
        ensures { result ≡ length self.now.operations }
    {
        self.phases.len() as u32 * self.count
    }

    /// How many blocks of the pool a command needs meanwhile.
    pub fn need(&self) -> u32
        ensures { result ≡ self.now.need }
    {
        self.need
    }

    /// How many of the first `done` operations are puts.
    pub fn writes_done(&self, done: u32) -> u32
        ensures { result ≡ puts_among (take done self.now.operations) }
    {
        let made = done.min(self.count);
        let behind = done.saturating_sub(self.count).min(self.count);
        puts_by(self.phases.get(0), made) + puts_by(self.phases.get(1), behind)
    }

    /// The operation behind the first `done` ones.
    pub fn next(&self, done: u32) -> BlockOp
        requires { done < length self.now.operations }
        ensures value { slice_get self.now.operations done ≡ Some result }
        ensures told { IsTold result }
    {
        let (at, place) = split(done, self.count);
        let lba = self.ranges.lba_at(place);
        match self.phases.get(at) {
            Some(phase) => operation_of(phase, self.count, place, lba),
            None => unreachable!(),
        }
    }

    /// A leased block that is free for the operation behind the first `done` ones, as each of them is.
    pub(crate) fn buffer(&self, done: u32) -> u32
        requires { done < length self.now.operations }
        ensures { result < self.now.need }
    {
        let (_, place) = split(done, self.count);
        place.min(self.need - 1)
    }
}

// Of two phases on so many blocks, the one at whose turn so many operations are done, and its next place.
fn split(done: u32, count: u32) -> (usize, u32)
    requires { done < 2 * count }
    ensures place { result.1 < count }
    ensures sum { result.0 * count + result.1 ≡ done }
{
    if done < count {
        (0, done)
    } else {
        (1, done - count)
    }
}

// What a phase on so many blocks does to the block at a place among them.
fn operation_of(phase: Phase, count: u32, place: u32, lba: u32) -> BlockOp
    requires within { place < count }
    requires few { count ≤ 2 ^ 22 }
    ensures operation { result ≡ operation_of phase count place lba }
    ensures told { IsTold result }
{
    match phase {
        Phase::Get => BlockOp::Get(lba),
        Phase::Look => BlockOp::Look(lba),
        Phase::Put => BlockOp::Put(lba, place),
        Phase::PutSecondHalf => BlockOp::Put(lba, count + place),
        Phase::PutSame => BlockOp::Put(lba, 0),
        Phase::Zero => BlockOp::Zero(lba),
        Phase::Compare => BlockOp::Compare(lba, place),
    }
}

// The puts among so many operations of a phase, if there is one.
fn puts_by(phase: Option<Phase>, made: u32) -> u32
    ensures { result ≡ puts_by phase made }
{
    match phase {
        Some(phase) if phase.writes() => made,
        _ => 0,
    }
}
