//! What comes, and the room that it takes.

ghost use Rattle.std.specs.Prelude.{◌≡◌, ◌++◌, ℕ, List, Option};
ghost use Rattle.ct_book.specs.declared.event.Logged.{Logged};
ghost use Rattle.ct_book.specs.Journals.{works_in};
ghost use Rattle.ct_machine.specs.declared.act.Opening.{Opening};
ghost use Rattle.ct_machine.specs.declared.act.Act.{Act};
ghost use Rattle.ct_machine.specs.Events.Functions.{works_of};
ghost use Rattle.ct_machine.specs.Acts.{act_of};
ghost use Rattle.ct_machine.specs.Runs.{replay, IsRun};
ghost use Rattle.ct_machine.specs.Laws.Works.{Brings};

/// Works come by arrivals alone: an arrival for which there is room takes its part of it, and no other act takes any.
pub fn arrivals_alone_take_room()
    ensures { (opening : Opening) (journal : List Logged) (done : Act) (fault : Option ℕ)
        → Brings (replay opening journal) (replay opening (journal ++ (act_of (replay opening journal) done fault).journal)) done }
{}

/// The works that came are those of the journal.
pub fn works_are_kept()
    ensures { (opening : Opening) (journal : List Logged) → IsRun opening journal → works_of (replay opening journal) ≡ works_in journal }
{}
