//! Single steps of a turn.
ghost use Rattle.std.specs.Prelude.{◌≡◌, ◌≢◌, ◌<◌, ◌≤◌, [], ◌∷◌, length, IfSome, Some};
ghost use Rattle.ct_turn.specs.Rules.{IsSized};
ghost use Rattle.ct_turn.specs.Seats.{Begins};
ghost use Rattle.ct_turn.specs.Steps.{IsSame, at_stage, out_with, added, ActsAt, part_left, newcomer, Joined};
ghost use Rattle.ct_turn.specs.declared.view.Stage.TheVariants.{Idle, Turned, Out};
ghost use Rattle.ct_turn.specs.declared.view.Slot.TheVariants.{Away};

use crate::machine::Machine;
use crate::rule::{Copy, Fetch, Give, Glue, Learn, Part, Take, TurnRule, Write};
use crate::view::{Known, Slot};
use atomic_table::{Seat, Shared};
use std::snapshot::Snapshot;
use std::sync::Wait;
use std::thread;

pub(crate) type Place<M> = Slot<M, <M as Machine>::Act, <M as Machine>::Answer>;

pub(crate) type View<M> = Known<
    <M as Machine>::Opening,
    <M as Machine>::Event,
    <M as Machine>::Act,
    <M as Machine>::Answer,
>;

pub(crate) type Top<M> = Shared<Place<M>, View<M>, Snapshot<M>, TurnRule>;

pub(crate) type Token<M> = Seat<Place<M>, View<M>>;

// Waits until no seat has the turn, and takes it.
pub(crate) fn take<M: Machine, R: Wait>(rt: &R, top: &Top<M>, token: &mut Token<M>)
    requires table { (token.old.table_id ≡ top.now.table_id) × IsSized top.now.table_id }
    requires idle { (token.old.me.0.stage ≡ Idle) × (token.old.me.1 ≡ []) }
    ensures { IsSame token.old token.new × (token.new.me ≡ (at_stage Turned token.old.me.0, [])) }
{
    for _ in rt.forever() {
        if top.compare_exchange::<Take>(token, 0, 0, 1) == 0 {
            return;
        }
        thread::yield_now();
    }
    unreachable!()
}

// The machine of a slot that has one.
pub(crate) fn into_machine<M, A, B>(slot: Slot<M, A, B>) -> M
    requires { (m : M) × (slot ≡ Slot.Home m) }
    ensures { slot ≡ Slot.Home result }
{
    match slot {
        Slot::Home(machine) => machine,
        Slot::Away => unreachable!(),
        Slot::Said(_, _, _) => unreachable!(),
    }
}

// Lets go of a slot with no machine.
fn forget<M, A, B>(slot: Slot<M, A, B>)
    requires { (m : M) → slot ≢ Slot.Home m }
{
    match slot {
        Slot::Home(_machine) => unreachable!(),
        Slot::Away => {}
        Slot::Said(_, _, _) => {}
    }
}

// Takes the machine out, with the length of its journal.
fn fetch<M: Machine>(top: &Top<M>, token: &mut Token<M>) -> (u64, M)
    requires table { (token.old.table_id ≡ top.now.table_id) × IsSized top.now.table_id }
    requires turned { (token.old.me.0.stage ≡ Turned) × (token.old.me.1 ≡ []) }
    ensures same { IsSame token.old token.new × (token.new.me ≡ (out_with (M.journal result.1) token.old.me.0, (0, Away) ∷ [])) }
    ensures machine { Begins token.old.me.0.seen (M.journal result.1) × IfSome token.old.me.0.opening (λ o. M.opening result.1 ≡ o) × (result.0 ≡ length (M.journal result.1)) }
{
    let length = top.load::<Fetch>(token, 1);
    (length, into_machine(top.exchange(token, 0, Slot::Away)))
}

// Writes the length, puts the machine back, and gives the turn back.
fn give_back<M: Machine>(
    top: &Top<M>,
    token: &mut Token<M>,
    before: u64,
    machine: M,
    act: Snapshot<M::Act>,
    answer: &M::Answer,
)
    requires table { (token.old.table_id ≡ top.now.table_id) × IsSized top.now.table_id }
    requires out { (token.old.me.0.stage ≡ Out) × (token.old.me.1 ≡ (0, Away) ∷ []) × (0 < token.old.me.0.parts) }
    requires machine { (token.old.me.0.opening ≡ Some (M.opening machine)) × Begins token.old.me.0.seen (M.journal machine) × (before ≡ length token.old.me.0.seen) }
    ensures { IsSame token.old token.new × (token.new.me ≡ (at_stage Idle (added (M.journal machine) act.value answer.now token.old.me.0), [])) }
{
    let after = machine.len() as u64;
    let said = Slot::Said(Snapshot::of(&machine), act, Snapshot::of(answer));
    top.compare_exchange_with::<Write>(token, 1, before, after, &said);
    forget(said);
    forget(top.exchange(token, 0, Slot::Home(machine)));
    top.store::<Give>(token, 0, 0);
}

pub(crate) fn act_on<M: Machine, R: Wait>(
    rt: &R,
    top: &Top<M>,
    token: &mut Token<M>,
    act: M::Act,
) -> M::Answer
    requires table { (token.old.table_id ≡ top.now.table_id) × IsSized top.now.table_id }
    requires idle { (token.old.me.0.stage ≡ Idle) × (token.old.me.1 ≡ []) × (0 < token.old.me.0.parts) }
    requires allowed { (o : M.Opening) × (token.old.me.0.opening ≡ Some o) × M.allows o act }
    ensures same { IsSame token.old token.new × (token.new.me.1 ≡ []) }
    ensures act { ActsAt M.steps token.old.me.0 act result token.new.me.0 }
{
    take(rt, top, token);
    let (before, mut machine) = fetch(top, token);
    let asked = Snapshot::of(&act);
    let answer = machine.act(act);
    give_back(top, token, before, machine, asked, &answer);
    answer
}

// Gives a part to a new seat.
pub(crate) fn part<M: Machine>(top: &Top<M>, token: &mut Token<M>) -> Token<M>
    requires table { (token.old.table_id ≡ top.now.table_id) × IsSized top.now.table_id }
    requires parts { 2 ≤ token.old.me.0.parts }
    ensures kept { IsSame token.old token.new × (token.new.me ≡ (part_left token.old.me.0, token.old.me.1)) }
    ensures given { (result.table_id ≡ token.old.table_id) × (result.me ≡ (newcomer 1 token.old.me.0, [])) }
{
    top.split_seat::<Part>(token)
}

// A seat with no part, which has seen as much.
pub(crate) fn copy<M: Machine>(top: &Top<M>, token: &mut Token<M>) -> Token<M>
    requires table { (token.old.table_id ≡ top.now.table_id) × IsSized top.now.table_id }
    requires parts { 0 < token.old.me.0.parts }
    ensures kept { IsSame token.old token.new × (token.new.me ≡ token.old.me) }
    ensures given { (result.table_id ≡ token.old.table_id) × (result.me ≡ (newcomer 0 token.old.me.0, [])) }
{
    top.split_seat::<Copy>(token)
}

// Takes in another seat, and learns that both have seen one journal.
pub(crate) fn glue<M: Machine>(top: &Top<M>, token: &mut Token<M>, other: Token<M>)
    requires table { (token.old.table_id ≡ top.now.table_id) × (other.table_id ≡ top.now.table_id) × IsSized top.now.table_id }
    requires idle { (token.old.me.0.stage ≡ Idle) × (token.old.me.1 ≡ []) × (other.me.1 ≡ []) }
    ensures same { IsSame token.old token.new × (token.new.me.1 ≡ []) }
    ensures joined { Joined token.old.me.0 other.me.0 token.new.me.0 }
{
    top.join_seat::<Glue>(token, other);
    top.load::<Learn>(token, 1);
}
