//! PERSISTENT RESERVE IN.

ghost use Rattle.std.specs.Prelude.{◌≡◌, ◌≤◌, ◌-◌, ◌++◌, length};
ghost use Rattle.ct_resv.specs.Reports.{keys_listed, key_reported, reservation_listed, status_entry};
ghost use Rattle.ct_resv.specs.Reports.{holding_of, statuses_listed, headed, whole_reserve_in_data, reserve_in_data};

use crate::registrants::Registrant;
use crate::reservations::{Reservation, Reservations, is_held_by_all};
use ct_cdb::ReserveIn;
use ct_param::ShortBytes;
use ct_word::{Nexus, Reserve};

/// What REPORT CAPABILITIES returns.
const CAPABILITIES: [u8; 8] = [0x00, 0x08, 0x00, 0x80, 0xea, 0x01, 0x00, 0x00];

/// A header, and 64 registrants with their full status.
type ReportData = ShortBytes<3080>;

/// Bytes of a registrant of READ FULL STATUS.
const STATUS: usize = 48;

/// Bytes of TransportID.
const TRANSPORT_ID: u32 = 24;

impl Reservations {
    /// Adds the data-in of a PERSISTENT RESERVE IN (SPC-4, 6.15), cut to the allocation length in bytes.
    #[tactic(auto, unfolding(crate::specs::Reports::reserve_in_data))]
    pub fn input(&self, action: ReserveIn, allocation: u16, into: &mut Reserve<u8>)
        requires { length (reserve_in_data self.now action allocation) ≤ into.old.room }
        ensures { let added = reserve_in_data self.now action allocation in
            into.new ≡ record { items = into.old.items ++ added; room = into.old.room - length added } }
    {
        let whole = self.whole_data(action);
        into.append(&whole.as_slice()[..whole.len().min(usize::from(allocation))]);
    }

    #[tactic(auto, unfolding(crate::specs::Reports::whole_reserve_in_data))]
    fn whole_data(&self, action: ReserveIn) -> ReportData
        ensures { result ≡ whole_reserve_in_data self.now action }
    {
        match action {
            ReserveIn::ReadKeys => self.headed(self.keys().as_slice()),
            ReserveIn::ReadReservation => self.headed(self.reservation_listed().as_slice()),
            ReserveIn::ReportCapabilities => ReportData::of(&CAPABILITIES),
            ReserveIn::ReadFullStatus => self.headed(self.statuses().as_slice()),
        }
    }

    /// PRGENERATION, and a list behind its length.
    fn headed(&self, listed: &[u8]) -> ReportData
        requires { length listed.now ≤ 3072 }
        ensures { result ≡ headed self.now.generation listed.now }
    {
        let mut data = ReportData::of(&self.generation.to_be_bytes());
        data.append(&(listed.len() as u32).to_be_bytes());
        data.append(listed);
        data
    }

    /// READ KEYS
    #[tactic(auto, using(crate::proofs::Listing::listing))]
    fn keys(&self) -> ReportData
        ensures list { result ≡ keys_listed self.now.registrants }
        ensures few { length result ≤ 3072 }
    {
        let mut list = ReportData::none();
        for registrant in self.registrants.as_slice() {
            list.append(&registrant.key.to_be_bytes());
        }
        list
    }

    /// READ RESERVATION
    fn reservation_listed(&self) -> ReportData
        ensures list { result ≡ reservation_listed self.now.registrants self.now.reservation }
        ensures few { length result ≤ 3072 }
    {
        match self.reservation {
            None => ReportData::none(),
            Some(reservation) => ReportData::of(&self.reservation_entry(reservation)),
        }
    }

    fn reservation_entry(&self, reservation: Reservation) -> [u8; 16]
        ensures { result ≡ reservation_listed self.now.registrants (Some reservation) }
    {
        let mut entry = [0; 16];
        entry[..8].copy_from_slice(&self.key_reported(reservation).to_be_bytes());
        entry[13] = reservation.kind.code();
        entry
    }

    /// The key of the holder; 0 where every registrant holds the reservation.
    fn key_reported(&self, reservation: Reservation) -> u64
        ensures { result ≡ key_reported self.now.registrants reservation }
    {
        if is_held_by_all(reservation.kind) {
            0
        } else {
            self.registrants.key_of(reservation.holder).unwrap_or(0)
        }
    }

    /// READ FULL STATUS
    #[tactic(auto, using(crate::proofs::Listing::listing))]
    fn statuses(&self) -> ReportData
        ensures list { result ≡ statuses_listed self.now }
        ensures few { length result ≤ 3072 }
    {
        let mut list = ReportData::none();
        for registrant in self.registrants.as_slice() {
            list.append(&self.status_entry(*registrant));
        }
        list
    }

    fn status_entry(&self, registrant: Registrant) -> [u8; STATUS]
        ensures { result ≡ status_entry self.now registrant }
    {
        let nexus = registrant.nexus;
        let mut entry = [0; STATUS];
        entry[..8].copy_from_slice(&registrant.key.to_be_bytes());
        entry[12..14].copy_from_slice(&self.holding(nexus));
        entry[18..20].copy_from_slice(&(u16::from(nexus.port) + 1).to_be_bytes());
        entry[20..24].copy_from_slice(&TRANSPORT_ID.to_be_bytes());
        entry[24] = 0x0f;
        entry[35] = nexus.init;
        entry
    }

    /// R_HOLDER, and SCOPE and TYPE; zeros of a nexus that holds nothing.
    fn holding(&self, nexus: Nexus) -> [u8; 2]
        ensures { result ≡ holding_of nexus self.now.registrants self.now.reservation }
    {
        match self.reservation {
            Some(reservation) if self.is_holder(nexus, reservation) => {
                [0x01, reservation.kind.code()]
            }
            _ => [0; 2],
        }
    }
}
