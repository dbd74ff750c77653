//! Which commands a reservation lets through.

ghost use Rattle.std.specs.Prelude.{◌≡◌};
ghost use Rattle.ct_resv.specs.Access.{is_allowed, passes, passing_of};

use crate::reservations::Reservations;
use ct_cdb::{Class, ReservationType};
use ct_word::Nexus;

/// Whose commands of a class pass under a type.
#[derive(Clone, Copy, Debug, PartialEq, Eq)]
pub enum Passing {
    Everyone,
    Registrants,
    Holders,
}

impl Reservations {
    /// A command of this class is let through for a nexus; where it isn't, it ends with RESERVATION CONFLICT.
    #[tactic(auto, unfolding(crate::specs::Access::is_allowed))]
    pub fn allowed(&self, nexus: Nexus, class: Class) -> bool
        ensures { result ≡ is_allowed self.now nexus class }
    {
        match self.reservation {
            Some(reservation) => self.passes(nexus, passing_of(class, reservation.kind)),
            None => true,
        }
    }

    fn passes(&self, nexus: Nexus, passing: Passing) -> bool
        ensures { result ≡ passes self.now nexus passing }
    {
        match passing {
            Passing::Everyone => true,
            Passing::Registrants => self.registrants.has(nexus),
            Passing::Holders => self.holds(nexus),
        }
    }
}

/// Who passes with commands of a class, under a type.
fn passing_of(class: Class, kind: ReservationType) -> Passing
    ensures { result ≡ passing_of class kind }
{
    match (class, kind) {
        (Class::Always, _) => Passing::Everyone,
        (Class::Reading, ReservationType::WriteExclusive) => Passing::Everyone,
        (Class::Reading, ReservationType::ExclusiveAccess) => Passing::Holders,
        (Class::Reading, ReservationType::WriteExclusiveRegistrantsOnly) => Passing::Everyone,
        (Class::Reading, ReservationType::ExclusiveAccessRegistrantsOnly) => Passing::Registrants,
        (Class::Reading, ReservationType::WriteExclusiveAllRegistrants) => Passing::Everyone,
        (Class::Reading, ReservationType::ExclusiveAccessAllRegistrants) => Passing::Registrants,
        (Class::Writing, ReservationType::WriteExclusive) => Passing::Holders,
        (Class::Writing, ReservationType::ExclusiveAccess) => Passing::Holders,
        (Class::Writing, ReservationType::WriteExclusiveRegistrantsOnly) => Passing::Registrants,
        (Class::Writing, ReservationType::ExclusiveAccessRegistrantsOnly) => Passing::Registrants,
        (Class::Writing, ReservationType::WriteExclusiveAllRegistrants) => Passing::Registrants,
        (Class::Writing, ReservationType::ExclusiveAccessAllRegistrants) => Passing::Registrants,
    }
}
