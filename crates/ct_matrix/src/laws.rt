//! Laws of the definitions of this crate, each the contract of a function with an empty body.

ghost use Rattle.std.specs.Prelude.{◌≡◌, List, true, false};
ghost use Rattle.std.specs.Option.{option_or};
ghost use Rattle.ct_cdb.specs.declared.op.SerIdx.TheVariants.{Rd, Wr, Un};
ghost use Rattle.ct_matrix.specs.declared.held.HeldCommand.{HeldCommand};
ghost use Rattle.ct_matrix.specs.Extents.{Print, overlap};
ghost use Rattle.ct_matrix.specs.Matrix.{action_of};
ghost use Rattle.ct_matrix.specs.Queues.{TaskSet, Stands, blocker_of, first_waited_for};

/// Which of two footprints comes first does not matter.
#[tactic(auto, using(crate::proofs::Shared::overlap_comm))]
pub fn overlap_is_symmetric()
    ensures { (a b : Print) → overlap a b ≡ overlap b a }
{}

/// Nor does it for commands that read, write or unmap blocks.
pub fn block_cells_are_symmetric()
    ensures read_write { action_of Rd Wr ≡ action_of Wr Rd }
    ensures read_unmap { action_of Rd Un ≡ action_of Un Rd }
    ensures write_unmap { action_of Wr Un ≡ action_of Un Wr }
{}

/// A command waits for the first of those ahead of it for which it has to wait, and where there is none, for the first
/// such behind it.
#[tactic(auto, using(crate::proofs::Blocking::blocker_is))]
pub fn blocker_is_the_first()
    ensures { (set : TaskSet) (ahead : List HeldCommand) (waiting : HeldCommand) (behind : List HeldCommand)
        → Stands set ahead waiting behind
        → blocker_of set waiting
        ≡ option_or (first_waited_for set.unrestricted true waiting ahead) (first_waited_for set.unrestricted false waiting behind) }
{}
