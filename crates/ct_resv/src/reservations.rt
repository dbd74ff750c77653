ghost use Rattle.std.specs.Prelude.{◌≡◌};
ghost use Rattle.ct_resv.specs.Registering.{no_reservations, is_holder, holds, is_held_by_all, is_registrants_only};

use crate::registrants::Registrants;
use ct_cdb::ReservationType;
use ct_word::Nexus;

/// A persistent reservation (SPC-4, 5.12).
#[derive(Clone, Copy, Debug, PartialEq, Eq)]
pub struct Reservation {
    pub kind: ReservationType,
    /// The nexus that made it. Where the type is one of all registrants, every registrant holds it.
    pub holder: Nexus,
}

/// The persistent reservations of a logical unit, of fixed size.
#[derive(Debug, Drop)]
pub struct Reservations {
    /// PRGENERATION, which wraps
    pub generation: u32,
    pub registrants: Registrants,
    pub reservation: Option<Reservation>,
}

impl Reservations {
    /// Nothing is registered, and nothing reserved.
    pub fn open() -> Reservations
        ensures { result ≡ no_reservations }
    {
        Reservations {
            generation: 0,
            registrants: Registrants::none(),
            reservation: None,
        }
    }

    /// The same reservations once more, on which an action can be tried.
    pub fn copied(&self) -> Reservations
        ensures { result ≡ self.now }
    {
        Reservations {
            generation: self.generation,
            registrants: self.registrants.copied(),
            reservation: self.reservation,
        }
    }

    /// A nexus holds the reservation.
    pub fn holds(&self, nexus: Nexus) -> bool
        ensures { result ≡ holds self.now nexus }
    {
        match self.reservation {
            Some(reservation) => self.is_holder(nexus, reservation),
            None => false,
        }
    }

    pub(crate) fn is_holder(&self, nexus: Nexus, reservation: Reservation) -> bool
        ensures { result ≡ is_holder nexus self.now.registrants reservation }
    {
        if is_held_by_all(reservation.kind) {
            self.registrants.has(nexus)
        } else {
            reservation.holder.is_same(nexus)
        }
    }
}

/// Every registrant holds a reservation of this type.
pub(crate) fn is_held_by_all(kind: ReservationType) -> bool
    ensures { result ≡ is_held_by_all kind }
{
    match kind {
        ReservationType::WriteExclusive
        | ReservationType::ExclusiveAccess
        | ReservationType::WriteExclusiveRegistrantsOnly
        | ReservationType::ExclusiveAccessRegistrantsOnly => false,
        ReservationType::WriteExclusiveAllRegistrants
        | ReservationType::ExclusiveAccessAllRegistrants => true,
    }
}

/// One registrant holds a reservation of this type, and the others have access too.
pub(crate) fn is_registrants_only(kind: ReservationType) -> bool
    ensures { result ≡ is_registrants_only kind }
{
    match kind {
        ReservationType::WriteExclusiveRegistrantsOnly
        | ReservationType::ExclusiveAccessRegistrantsOnly => true,
        ReservationType::WriteExclusive
        | ReservationType::ExclusiveAccess
        | ReservationType::WriteExclusiveAllRegistrants
        | ReservationType::ExclusiveAccessAllRegistrants => false,
    }
}
