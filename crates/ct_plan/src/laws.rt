//! Laws of plans, each the contract of a function with an empty body. They speak of phases and operations alone.

ghost use Rattle.std.specs.Prelude.{◌≡◌, ℕ, List, [], length, take, sum, true};
ghost use Rattle.std.specs.List.{list_all};
ghost use Rattle.ct_cdb.specs.declared.profile.Phase.{Phase};
ghost use Rattle.ct_cdb.specs.declared.ranges.LbaRange.{LbaRange};
ghost use Rattle.ct_cdb.specs.Ranges.{is_inside};
ghost use Rattle.ct_plan.specs.declared.operation.BlockOp.{BlockOp};
ghost use Rattle.ct_plan.specs.Plans.{planned};
ghost use Rattle.ct_plan.specs.Cells.{Cells, performed, in_pieces};
ghost use Rattle.ct_plan.specs.Effects.{EndsAs, effect};

/// Operations made in pieces, wherever they are cut, do what they do in one.
pub fn any_pieces()
    ensures { (out : List ℕ) (sizes : List ℕ) (operations : List BlockOp) (cells : Cells) →
        in_pieces out sizes operations cells ≡ performed out (take (sum sizes) operations) cells }
{}

/// All operations of phases, on ranges inside the disk, do what the phases do at once.
pub fn whole()
    ensures { (out : List ℕ) (ranges : List LbaRange) (phases : List Phase) (cells : Cells) →
        list_all (is_inside (length cells.blocks)) ranges ≡ true →
        EndsAs (performed out (planned phases ranges) cells) (effect out ranges phases cells) }
{}
