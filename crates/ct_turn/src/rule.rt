//! The rule of a turn's table, and its kinds of step.

use crate::machine::Machine;
use crate::view::{Known, Slot};
use atomic_table::{Join, Play, Split, TableRule};
use std::snapshot::Snapshot;

/// What holds between any two steps of a turn.
pub struct TurnRule;

impl<M: Machine> TableRule<
    Slot<M, M::Act, M::Answer>,
    Known<M::Opening, M::Event, M::Act, M::Answer>,
    Snapshot<M>,
> for TurnRule {
    ghost use Rattle.ct_turn.specs.Rules.{Ruled, opened};

    ghost holds = { λ key. Ruled M.opening M.journal };

    ghost first = { λ key. opened (M.opening key.value) };
}

/// A seat takes the turn, where no seat has it.
pub struct Take;

impl<M: Machine> Play<Slot<M, M::Act, M::Answer>, Known<M::Opening, M::Event, M::Act, M::Answer>>
    for Take {
    ghost use Rattle.ct_turn.specs.Steps.{took};

    ghost then = { took };
}

/// The holder of the turn looks at the length of the journal, and takes the machine out.
pub struct Fetch;

impl<M: Machine> Play<Slot<M, M::Act, M::Answer>, Known<M::Opening, M::Event, M::Act, M::Answer>>
    for Fetch {
    ghost use Rattle.ct_turn.specs.Steps.{fetched};

    ghost then = { fetched M.opening M.journal };
}

/// The holder of the machine writes the length of its journal: its act is now in the turn's journal.
pub struct Write;

impl<M: Machine> Play<Slot<M, M::Act, M::Answer>, Known<M::Opening, M::Event, M::Act, M::Answer>>
    for Write {
    ghost use Rattle.ct_turn.specs.Steps.{wrote};

    ghost then = { wrote M.journal };
}

/// The holder of the turn, whose machine is back in its slot, gives the turn back.
pub struct Give;

impl<M: Machine> Play<Slot<M, M::Act, M::Answer>, Known<M::Opening, M::Event, M::Act, M::Answer>>
    for Give {
    ghost use Rattle.ct_turn.specs.Steps.{gave};

    ghost then = { gave };
}

/// A seat looks at the length: what a join left it are beginnings of one journal.
pub struct Learn;

impl<M: Machine> Play<Slot<M, M::Act, M::Answer>, Known<M::Opening, M::Event, M::Act, M::Answer>>
    for Learn {
    ghost use Rattle.ct_turn.specs.Steps.{learned};

    ghost then = { learned };
}

/// A seat gives one of its parts to a new one, which has seen as much.
pub struct Part;

impl<O, E, A, B> Split<Known<O, E, A, B>> for Part {
    ghost use Rattle.ct_turn.specs.Steps.{part_left, newcomer};

    ghost left = { part_left };

    ghost right = { newcomer 1 };
}

/// A new seat, which has seen as much, has no part.
pub struct Copy;

impl<O, E, A, B> Split<Known<O, E, A, B>> for Copy {
    ghost use Rattle.ct_turn.specs.Steps.{newcomer};

    ghost left = { λ v. v };

    ghost right = { newcomer 0 };
}

/// A seat is joined to another.
pub struct Glue;

impl<O, E, A, B> Join<Known<O, E, A, B>> for Glue {
    ghost use Rattle.ct_turn.specs.Steps.{both, spent};

    ghost both = { both };

    ghost spent = { spent };
}
