//! PERSISTENT RESERVE OUT.

ghost use Rattle.std.specs.Prelude.{◌≡◌, if◌then◌else◌};
ghost use Rattle.ct_word.specs.Nexuses.{no_nexuses};
ghost use Rattle.ct_resv.specs.Registering.{nexuses_of, others_of};
ghost use Rattle.ct_resv.specs.Changes.{next_generation, unregistered, preempted, is_told_of_release};
ghost use Rattle.ct_resv.specs.Changes.{reservation_without, released_without, ends_without};
ghost use Rattle.ct_resv.specs.Actions.{registering, registering_again, after_register, after_register_ignoring};
ghost use Rattle.ct_resv.specs.Actions.{after_reserve, after_release, after_clear, after_preempt, after_out};
ghost use Rattle.ct_resv.specs.Actions.{preempting_by_key, preempting_all, is_preempted};

use crate::done::Done;
use crate::fault::ResvFault;
use crate::registrants::{Named, Registrant};
use crate::reservations::{Reservation, Reservations, is_held_by_all, is_registrants_only};
use ct_cdb::{ReservationType, ReserveOut};
use ct_param::ResvList;
use ct_word::limit::MOST_REGISTRANTS;
use ct_word::{Nexus, NexusSet};

impl Reservations {
    /// Does what PERSISTENT RESERVE OUT (SPC-4, 6.16) of a nexus asks for. Conflict where the reservation key isn't that
    /// of the nexus, but where the action doesn't ask for it, where another nexus holds the reservation that is asked
    /// for, and where nobody is preempted; Full where the nexus would be the 65th registrant; BadRelease where a holder
    /// names another type; BadKey where nobody is preempted by the key 0. At a fault nothing changes.
    #[tactic(auto, unfolding(crate::specs::Actions::after_out))]
    pub fn out(
        &mut self,
        nexus: Nexus,
        action: ReserveOut,
        list: &ResvList,
    ) -> Result<Done, ResvFault>
        ensures answer { result ≡ (after_out self.old nexus action list.now).answer }
        ensures after { self.new ≡ (after_out self.old nexus action list.now).after }
    {
        match action {
            ReserveOut::Register => self.register(nexus, list),
            ReserveOut::Reserve(kind) => self.reserve(nexus, kind, list),
            ReserveOut::Release(kind) => self.release(nexus, kind, list),
            ReserveOut::Clear => self.clear(nexus, list),
            ReserveOut::Preempt(kind) | ReserveOut::PreemptAndAbort(kind) => {
                self.preempt(nexus, kind, list)
            }
            ReserveOut::RegisterAndIgnoreExistingKey => self.register_ignoring(nexus, list),
        }
    }

    fn register(&mut self, nexus: Nexus, list: &ResvList) -> Result<Done, ResvFault>
        ensures answer { result ≡ (after_register nexus list.now self.old).answer }
        ensures after { self.new ≡ (after_register nexus list.now self.old).after }
    {
        if self.registrants.has(nexus) {
            if !self.registrants.has_key(nexus, list.key) {
                return Err(ResvFault::Conflict);
            }
            Ok(self.register_again(nexus, list.service_key))
        } else if list.key == 0 {
            self.register_first(nexus, list.service_key)
        } else {
            Err(ResvFault::Conflict)
        }
    }

    fn register_ignoring(&mut self, nexus: Nexus, list: &ResvList) -> Result<Done, ResvFault>
        ensures answer { result ≡ (after_register_ignoring nexus list.now self.old).answer }
        ensures after { self.new ≡ (after_register_ignoring nexus list.now self.old).after }
    {
        if self.registrants.has(nexus) {
            Ok(self.register_again(nexus, list.service_key))
        } else {
            self.register_first(nexus, list.service_key)
        }
    }

    fn register_first(&mut self, nexus: Nexus, key: u64) -> Result<Done, ResvFault>
        ensures answer { result ≡ (registering nexus key self.old).answer }
        ensures after { self.new ≡ (registering nexus key self.old).after }
    {
        if key != 0 {
            if self.registrants.len() as u64 >= MOST_REGISTRANTS {
                return Err(ResvFault::Full);
            }
            self.registrants.push(Registrant { nexus, key });
            self.raise_generation();
        }
        Ok(Done::nobody())
    }

    fn register_again(&mut self, nexus: Nexus, key: u64) -> Done
        ensures answer { Ok result ≡ (registering_again nexus key self.old).answer }
        ensures after { self.new ≡ (registering_again nexus key self.old).after }
    {
        if key == 0 {
            self.unregister(nexus)
        } else {
            self.registrants.set_key(nexus, key);
            self.raise_generation();
            Done::nobody()
        }
    }

    fn unregister(&mut self, nexus: Nexus) -> Done
        ensures answer { Ok result ≡ (unregistered nexus self.old).answer }
        ensures after { self.new ≡ (unregistered nexus self.old).after }
    {
        let others = self.registrants.others(nexus);
        self.registrants.unregister(nexus);
        self.raise_generation();
        Done {
            released: self.end_without(nexus, others),
            ..Done::nobody()
        }
    }

    /// Ends the reservation that a nexus held which isn't registered any more, and returns which of the others are
    /// told.
    fn end_without(&mut self, nexus: Nexus, others: NexusSet) -> NexusSet
        ensures told { others ≡ nexuses_of self.old.registrants →
            result ≡ released_without nexus self.old.registrants self.old.reservation }
        ensures after { self.new ≡ record self.old {
          reservation = reservation_without nexus self.old.registrants self.old.reservation;
        } }
    {
        match self.reservation {
            Some(reservation) if self.ends_without(nexus, reservation) => {
                self.reservation = None;
                if is_registrants_only(reservation.kind) {
                    others
                } else {
                    NexusSet::open()
                }
            }
            _ => NexusSet::open(),
        }
    }

    fn ends_without(&self, nexus: Nexus, reservation: Reservation) -> bool
        ensures { result ≡ ends_without nexus self.now.registrants reservation }
    {
        if is_held_by_all(reservation.kind) {
            self.registrants.is_empty()
        } else {
            reservation.holder.is_same(nexus)
        }
    }

    fn reserve(
        &mut self,
        nexus: Nexus,
        kind: ReservationType,
        list: &ResvList,
    ) -> Result<Done, ResvFault>
        ensures answer { result ≡ (after_reserve nexus kind list.now self.old).answer }
        ensures after { self.new ≡ (after_reserve nexus kind list.now self.old).after }
    {
        if !self.registrants.has_key(nexus, list.key) {
            return Err(ResvFault::Conflict);
        }
        match self.reservation {
            None => {
                self.reservation = Some(Reservation {
                    kind,
                    holder: nexus,
                });
                Ok(Done::nobody())
            }
            Some(reservation) => {
                if self.is_holder(nexus, reservation) && reservation.kind.code() == kind.code() {
                    Ok(Done::nobody())
                } else {
                    Err(ResvFault::Conflict)
                }
            }
        }
    }

    fn release(
        &mut self,
        nexus: Nexus,
        kind: ReservationType,
        list: &ResvList,
    ) -> Result<Done, ResvFault>
        ensures answer { result ≡ (after_release nexus kind list.now self.old).answer }
        ensures after { self.new ≡ (after_release nexus kind list.now self.old).after }
    {
        if !self.registrants.has_key(nexus, list.key) {
            return Err(ResvFault::Conflict);
        }
        match self.reservation {
            Some(reservation) if self.is_holder(nexus, reservation) => {
                if reservation.kind.code() != kind.code() {
                    return Err(ResvFault::BadRelease);
                }
                self.reservation = None;
                Ok(Done {
                    released: self.told_of_release(nexus, kind),
                    ..Done::nobody()
                })
            }
            _ => Ok(Done::nobody()),
        }
    }

    /// Which nexuses are told that a nexus released a reservation of this type.
    fn told_of_release(&self, nexus: Nexus, kind: ReservationType) -> NexusSet
        ensures { result ≡
            (if is_told_of_release kind then nexuses_of (others_of nexus self.now.registrants) else no_nexuses) }
    {
        if is_registrants_only(kind) || is_held_by_all(kind) {
            self.registrants.others(nexus)
        } else {
            NexusSet::open()
        }
    }

    fn clear(&mut self, nexus: Nexus, list: &ResvList) -> Result<Done, ResvFault>
        ensures answer { result ≡ (after_clear nexus list.now self.old).answer }
        ensures after { self.new ≡ (after_clear nexus list.now self.old).after }
    {
        if !self.registrants.has_key(nexus, list.key) {
            return Err(ResvFault::Conflict);
        }
        let preempted = self.registrants.others(nexus);
        *self = Reservations {
            generation: self.next_generation(),
            ..Reservations::open()
        };
        Ok(Done {
            preempted,
            ..Done::nobody()
        })
    }

    fn preempt(
        &mut self,
        nexus: Nexus,
        kind: ReservationType,
        list: &ResvList,
    ) -> Result<Done, ResvFault>
        ensures answer { result ≡ (after_preempt nexus kind list.now self.old).answer }
        ensures after { self.new ≡ (after_preempt nexus kind list.now self.old).after }
    {
        if !self.registrants.has_key(nexus, list.key) {
            return Err(ResvFault::Conflict);
        }
        let key = list.service_key;
        if key == 0 {
            self.preempt_all(nexus, kind)
        } else if self.registrants.has_named(Named::Key(key)) {
            Ok(self.preempt_by_key(nexus, kind, key))
        } else {
            Err(ResvFault::Conflict)
        }
    }

    fn preempt_all(&mut self, nexus: Nexus, kind: ReservationType) -> Result<Done, ResvFault>
        ensures answer { result ≡ (preempting_all nexus kind self.old self.old.reservation).answer }
        ensures after { self.new ≡ (preempting_all nexus kind self.old self.old.reservation).after }
    {
        match self.reservation {
            Some(reservation) if is_held_by_all(reservation.kind) => {
                Ok(self.take_over(nexus, reservation.kind, kind, Named::Everyone))
            }
            _ => Err(ResvFault::BadKey),
        }
    }

    fn preempt_by_key(&mut self, nexus: Nexus, kind: ReservationType, key: u64) -> Done
        ensures answer { Ok result ≡ (preempting_by_key nexus kind key self.old self.old.reservation).answer }
        ensures after { self.new ≡ (preempting_by_key nexus kind key self.old self.old.reservation).after }
    {
        match self.reservation {
            Some(reservation) if self.is_preempted(key, reservation) => {
                self.take_over(nexus, reservation.kind, kind, Named::Key(key))
            }
            _ => {
                let removed = self.registrants.remove(nexus, Named::Key(key));
                self.raise_generation();
                Done {
                    removed,
                    ..Done::nobody()
                }
            }
        }
    }

    /// One registrant holds the reservation, and has this key.
    fn is_preempted(&self, key: u64, reservation: Reservation) -> bool
        ensures { result ≡ is_preempted key self.now.registrants reservation }
    {
        !is_held_by_all(reservation.kind) && self.registrants.has_key(reservation.holder, key)
    }

    /// Removes the others that are named, and reserves in the place of a reservation of the old type.
    fn take_over(
        &mut self,
        nexus: Nexus,
        old: ReservationType,
        kind: ReservationType,
        named: Named,
    ) -> Done
        ensures answer { Ok result ≡ (preempted nexus old kind named self.old).answer }
        ensures after { self.new ≡ (preempted nexus old kind named self.old).after }
    {
        let removed = self.registrants.remove(nexus, named);
        self.raise_generation();
        self.reservation = Some(Reservation {
            kind,
            holder: nexus,
        });
        let released = if old.code() == kind.code() {
            NexusSet::open()
        } else {
            self.registrants.others(nexus)
        };
        Done {
            removed,
            released,
            ..Done::nobody()
        }
    }

    fn raise_generation(&mut self)
        ensures { self.new ≡ record self.old { generation = next_generation self.old } }
    {
        self.generation = self.next_generation();
    }

    fn next_generation(&self) -> u32
        ensures { result ≡ next_generation self.now }
    {
        self.generation.wrapping_add(1)
    }
}
