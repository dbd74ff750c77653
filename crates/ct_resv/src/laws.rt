//! Laws of the definitions of this crate, each the contract of a function with an empty body.

ghost use Rattle.std.specs.Prelude.{◌≡◌, ◌≤◌, ◌+◌, ◌*◌, ℕ, length, min, true, IfErr};
ghost use Rattle.ct_word.specs.declared.names.Nexus.{Nexus};
ghost use Rattle.ct_cdb.specs.declared.profile.Class.{Class};
ghost use Rattle.ct_cdb.specs.declared.profile.Class.TheVariants.{Always};
ghost use Rattle.ct_cdb.specs.declared.choices.ReserveIn.{ReserveIn};
ghost use Rattle.ct_cdb.specs.declared.choices.ReserveOut.{ReserveOut};
ghost use Rattle.ct_cdb.specs.Commands.Reservations.{reserve_in_length};
ghost use Rattle.ct_param.specs.declared.resv.ResvList.{ResvList};
ghost use Rattle.ct_resv.specs.declared.reservations.Reservations.{Reservations as AnyReservations};
ghost use Rattle.ct_resv.specs.Registering.{no_reservations, holds};
ghost use Rattle.ct_resv.specs.Access.{is_allowed};
ghost use Rattle.ct_resv.specs.Actions.{after_out};
ghost use Rattle.ct_resv.specs.Reports.{whole_reserve_in_data, reserve_in_data, listed_length};
ghost use Rattle.ct_resv.specs.Soundness.{IsSound};

/// No nexus is registered twice, registrants are at most 64, and who holds the reservation is registered: at the
/// beginning, and behind every action.
pub fn always_sound()
    ensures open { IsSound no_reservations }
    ensures out { (state : AnyReservations) (nexus : Nexus) (action : ReserveOut) (list : ResvList) →
        IsSound state → IsSound (after_out state nexus action list).after }
{}

/// An action that is refused changes nothing.
pub fn refusals_change_nothing()
    ensures { (state : AnyReservations) (nexus : Nexus) (action : ReserveOut) (list : ResvList) →
        IfErr (after_out state nexus action list).answer (λ _. (after_out state nexus action list).after ≡ state) }
{}

/// How many bytes the data of each action have, before and after they are cut. They are at most those of 64
/// registrants.
pub fn lengths()
    ensures whole { (state : AnyReservations) (action : ReserveIn) →
        length (whole_reserve_in_data state action) ≡ listed_length state action }
    ensures cut { (state : AnyReservations) (action : ReserveIn) (allocation : ℕ) →
        length (reserve_in_data state action allocation) ≡ min allocation (listed_length state action) }
    ensures most { (state : AnyReservations) (action : ReserveIn) (allocation : ℕ) → IsSound state →
        length (reserve_in_data state action allocation) ≤ min allocation (reserve_in_length action) }
{}

/// Where nothing is reserved, everyone passes. A holder passes, and a command that always passes.
pub fn who_passes()
    ensures free { (state : AnyReservations) (nexus : Nexus) (class : Class) →
        state.reservation ≡ None → is_allowed state nexus class ≡ true }
    ensures holder { (state : AnyReservations) (nexus : Nexus) (class : Class) → IsSound state →
        holds state nexus ≡ true → is_allowed state nexus class ≡ true }
    ensures always { (state : AnyReservations) (nexus : Nexus) → is_allowed state nexus Always ≡ true }
{}
