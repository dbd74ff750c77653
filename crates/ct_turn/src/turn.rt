//! A turn and its seats.
ghost use Rattle.std.specs.Prelude.{◌≡◌, ◌-◌, ◌+◌, ◌≤◌, [], ◌++◌, length, IfSome, IfOk, IfErr, IsSome, Some};
ghost use Rattle.ct_turn.specs.Seats.{Acts, Begins, IsLonger, IsWhole, Made, NoneTwice};

use crate::machine::Machine;
use crate::rule::TurnRule;
use crate::steps::{Place, Token, View, act_on, copy, glue, into_machine, part, take};
use crate::view::Slot;
use atomic_table::{Refused, Table};
use std::alloc::Global;
use std::marker::Model;
use std::snapshot::Snapshot;
use std::sync::Wait;

/// A thread's handle on a turn. It has no bytes. Contracts see its turn, the opening of the turn's machine, the events
/// that it has seen, its own acts in the order in which it made them, and its parts of the turn's 4,096. Outside the
/// calls of a turn no seat holds the turn.
#[derive(Drop)]
pub struct Seat<M: Machine> {
    token: Token<M>,
}

impl<M: Machine> Model for Seat<M> {
    ghost use Rattle.std.specs.Prelude.{◌≡◌, []};
    ghost use Rattle.ct_turn.specs.Rules.{Sound, seat_view};
    ghost use Rattle.ct_turn.specs.Seats.{SeatView};

    ghost Value = { SeatView M.Opening M.Event M.Act M.Answer };

    ghost view = { λ s. seat_view s.token.table_id s.token.me.0 };

    ghost invariant = { λ s. Sound M.steps s.token.me.0 × (s.token.me.1 ≡ []) };
}

/// A machine that threads use in turns: it has one journal, and makes one act at a time. Each call asks for seats of
/// this turn. A turn can't be dropped: `close` gives its machine back.
pub struct Turn<M: Machine> {
    table: Table<Place<M>, View<M>, Snapshot<M>, TurnRule, Global>,
}

impl<M: Machine> Model for Turn<M> {
    ghost use Rattle.ct_turn.specs.Rules.{IsSized};
    ghost use Rattle.ct_turn.specs.Seats.{TableId};

    ghost Value = { TableId };

    ghost view = { λ t. t.table.shared.table_id };

    ghost invariant = { λ t. IsSized t.table.shared.table_id };
}

/// There was no memory for a turn. The machine comes back.
#[derive(Drop)]
pub struct Unopened<M> {
    pub machine: M,
}

impl<M: Machine> Turn<M> {
    /// A turn with the machine, and its first seat, which has all parts. It takes memory for two words and a slot.
    pub fn open(alloc: Global, machine: M) -> Result<(Turn<M>, Seat<M>), Unopened<M>>
        requires { M.journal machine ≡ [] }
        ensures ok { IfOk result (λ t. t.1 ≡ record { turn = t.0; opening = Some (M.opening machine); seen = []; own = []; parts = 4096 }) }
        ensures err { IfErr result (λ e. e.machine ≡ machine) }
    {
        let about = Snapshot::of(&machine);
        let Ok(mut slots) = Vec::with_capacity(alloc, 1) else {
            return Err(Unopened { machine });
        };
        slots.push_reserved(Slot::Home(machine));
        match Table::new(alloc, &[0, 0], slots, &about) {
            Ok((table, token)) => Ok((Turn { table }, Seat { token })),
            Err(refused) => {
                let Refused { mut slots } = refused;
                let slot = slots.pop().unwrap();
                slots.destroy_empty();
                Err(Unopened {
                    machine: into_machine(slot),
                })
            }
        }
    }

    /// Waits for the turn, and gives the machine back. Its journal begins with what the seat has seen; where the seat
    /// has all parts, the seat's own acts wrote the whole of it.
    pub fn close<R: Wait>(self, rt: &R, seat: Seat<M>) -> M
        requires { seat.turn ≡ self }
        ensures opening { seat.opening ≡ Some (M.opening result) }
        ensures journal { Begins seat.seen (M.journal result) }
        ensures made { Made M.steps (M.opening result) (M.journal result) seat.own }
        ensures whole { seat.parts ≡ 4096 → IsWhole seat.own (length (M.journal result)) }
    {
        let Seat { mut token } = seat;
        let Turn { table } = self;
        take(rt, &table.shared, &mut token);
        let mut closed = table.close_with(token);
        let machine = into_machine(closed.take(0));
        closed.free();
        machine
    }

    /// Waits for the turn, and makes the act, which the opening has to allow. Its events stand behind all that the
    /// seat has seen, and behind what other seats have added since.
    pub fn act<R: Wait>(&self, rt: &R, seat: &mut Seat<M>, act: M::Act) -> M::Answer
        requires turn { seat.old.turn ≡ self.now }
        requires allowed { IfSome seat.old.opening (λ o. M.allows o act) }
        ensures same { (seat.new.turn ≡ seat.old.turn) × (seat.new.opening ≡ seat.old.opening) × (seat.new.parts ≡ seat.old.parts) }
        ensures act { Acts M.steps seat.old act result seat.new }
    {
        act_on(rt, &self.table.shared, &mut seat.token, act)
    }

    /// A new seat, which has seen as much, has made no act, and gets one of this seat's parts. Waits for nobody.
    pub fn split(&self, seat: &mut Seat<M>) -> Seat<M>
        requires turn { seat.old.turn ≡ self.now }
        requires parts { 2 ≤ seat.old.parts }
        ensures seat { seat.new ≡ record seat.old { parts = seat.old.parts - 1 } }
        ensures given { result ≡ record seat.old { own = []; parts = 1 } }
    {
        Seat {
            token: part(&self.table.shared, &mut seat.token),
        }
    }

    /// Puts two seats together. The seat then has the acts of both, its own first, the parts of both, and has seen the
    /// longer of the two lists. No range of one overlaps one of the other. Waits for nobody.
    pub fn join(&self, seat: &mut Seat<M>, other: Seat<M>)
        requires turn { (seat.old.turn ≡ self.now) × (other.turn ≡ self.now) }
        ensures opening { other.opening ≡ seat.old.opening }
        ensures same { (seat.new.turn ≡ seat.old.turn) × (seat.new.opening ≡ seat.old.opening) × (seat.new.parts ≡ seat.old.parts + other.parts) }
        ensures own { seat.new.own ≡ seat.old.own ++ other.own }
        ensures apart { NoneTwice seat.new.own }
        ensures seen { IsLonger seat.old.seen other.seen seat.new.seen }
    {
        let Seat { token } = other;
        glue(&self.table.shared, &mut seat.token, token);
    }

    /// The seat has then seen the longer of what the two have seen, which begins with both. The other stays as it was.
    /// Waits for nobody.
    pub fn meet(&self, seat: &mut Seat<M>, other: &mut Seat<M>)
        requires turn { (seat.old.turn ≡ self.now) × (other.old.turn ≡ self.now) }
        ensures opening { other.old.opening ≡ seat.old.opening }
        ensures other { other.new ≡ other.old }
        ensures same { seat.new ≡ record seat.old { seen = seat.new.seen } }
        ensures seen { IsLonger seat.old.seen other.old.seen seat.new.seen }
    {
        let token = copy(&self.table.shared, &mut other.token);
        glue(&self.table.shared, &mut seat.token, token);
    }
}

impl<M: Machine> Seat<M> {
    /// What holds of every seat: each of its acts is a step where its range begins, and added the events of its range;
    /// no event lies in the ranges of two; it has an opening and at least one part.
    pub fn shows(&self)
        ensures opening { IsSome self.now.opening }
        ensures made { IfSome self.now.opening (λ o. Made M.steps o self.now.seen self.now.own) }
        ensures once { NoneTwice self.now.own }
        ensures parts { 1 ≤ self.now.parts }
    {
        let _ = &self.token;
    }
}
