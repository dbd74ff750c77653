//! Persistent reservations: room for 64 registrants, whose commands pass, each action in each state, and what is
//! returned.

use ct_cdb::{Class, ReservationType, ReserveIn, ReserveOut};
use ct_param::{ListFault, ResvList, read_resv};
use ct_resv::{
    Done, Reservation, Reservations, ResvFault, always_sound, lengths, refusals_change_nothing,
    who_passes,
};
use ct_word::{Nexus, NexusSet, NoMemory, Reserve};
use std::alloc::Global;
use std::process::Abort;

const TYPES: [ReservationType; 6] = [
    ReservationType::WriteExclusive,
    ReservationType::ExclusiveAccess,
    ReservationType::WriteExclusiveRegistrantsOnly,
    ReservationType::ExclusiveAccessRegistrantsOnly,
    ReservationType::WriteExclusiveAllRegistrants,
    ReservationType::ExclusiveAccessAllRegistrants,
];

/// The nexus of a number, 0 to 255.
fn nth(number: u8) -> Nexus {
    Nexus {
        port: number / 16,
        init: number % 16,
    }
}

fn keys(key: u64, service_key: u64) -> ResvList {
    ResvList { key, service_key }
}

/// The nexuses 0 to 3 whose bit is set.
fn set(bits: u8) -> NexusSet {
    let mut set = NexusSet::open();
    for number in 0..4 {
        if bits >> number & 1 == 1 {
            set.add(nth(number));
        }
    }
    set
}

/// The nexuses 0 to 3 that are registered, as bits.
fn registered(reservations: &Reservations) -> u8 {
    let mut bits = 0;
    for number in 0..4 {
        if reservations.registrants.has(nth(number)) {
            bits |= 1 << number;
        }
    }
    bits
}

/// An action that is accepted, and of which nobody is told.
fn does(
    rt: &impl Abort,
    reservations: &mut Reservations,
    number: u8,
    action: ReserveOut,
    list: ResvList,
) {
    let answer = reservations.out(nth(number), action, &list);
    assert_eq!(rt; answer, Ok(Done::nobody()), "at {number} {action:?}");
}

/// The nexuses 0 to 2 are registered, with the keys 0Ah to 0Ch, and one of them reserves.
fn reserved(rt: &impl Abort, by: Option<(u8, ReservationType)>) -> Reservations {
    let mut reservations = Reservations::open();
    for number in 0..3 {
        let list = keys(0, 0x0a + u64::from(number));
        does(rt, &mut reservations, number, ReserveOut::Register, list);
    }
    if let Some((number, kind)) = by {
        let list = keys(0x0a + u64::from(number), 0);
        does(
            rt,
            &mut reservations,
            number,
            ReserveOut::Reserve(kind),
            list,
        );
    }
    reservations
}

#[test]
fn there_is_room_for_64(rt: HostRuntime) {
    let mut reservations = Reservations::open();
    for number in 0..64 {
        let list = keys(0, 1 + u64::from(number));
        does(&rt, &mut reservations, number, ReserveOut::Register, list);
    }
    for action in [
        ReserveOut::Register,
        ReserveOut::RegisterAndIgnoreExistingKey,
    ] {
        let full = reservations.out(nth(64), action, &keys(0, 65));
        assert_eq!(rt; full, Err(ResvFault::Full), "at {action:?}");
    }
    assert_eq!(rt;
        (reservations.generation, reservations.registrants.len()),
        (64, 64)
    );
    does(&rt, &mut reservations, 5, ReserveOut::Register, keys(6, 0));
    does(
        &rt,
        &mut reservations,
        64,
        ReserveOut::Register,
        keys(0, 65),
    );
    assert_eq!(rt;
        (reservations.generation, reservations.registrants.len()),
        (66, 64)
    );
    assert!(rt;
        !reservations.registrants.has(nth(5)) && reservations.registrants.has_key(nth(64), 65)
    );
    // the number of changes wraps
    reservations.generation = u32::MAX;
    does(
        &rt,
        &mut reservations,
        64,
        ReserveOut::Register,
        keys(65, 65),
    );
    assert_eq!(rt; reservations.generation, 0);
}

// Whether the holder, another registrant and a stranger pass.
fn passes(reservations: &Reservations, class: Class) -> [bool; 3] {
    [
        reservations.allowed(nth(1), class),
        reservations.allowed(nth(0), class),
        reservations.allowed(nth(3), class),
    ]
}

#[test]
fn each_type_lets_each_class_through(rt: HostRuntime) {
    const ALL: [bool; 3] = [true; 3];
    const REGISTRANTS: [bool; 3] = [true, true, false];
    const HOLDER: [bool; 3] = [true, false, false];
    // under each type with a command that reads, with one that writes, and who holds it
    let table = [
        (ALL, HOLDER, HOLDER),
        (HOLDER, HOLDER, HOLDER),
        (ALL, REGISTRANTS, HOLDER),
        (REGISTRANTS, REGISTRANTS, HOLDER),
        (ALL, REGISTRANTS, REGISTRANTS),
        (REGISTRANTS, REGISTRANTS, REGISTRANTS),
    ];
    for (kind, (reading, writing, holding)) in TYPES.into_iter().zip(table) {
        let under = reserved(&rt, Some((1, kind)));
        assert_eq!(rt; passes(&under, Class::Always), ALL, "at {kind:?}");
        assert_eq!(rt; passes(&under, Class::Reading), reading, "at {kind:?}");
        assert_eq!(rt; passes(&under, Class::Writing), writing, "at {kind:?}");
        let holds = [
            under.holds(nth(1)),
            under.holds(nth(0)),
            under.holds(nth(3)),
        ];
        assert_eq!(rt; holds, holding, "at {kind:?}");
    }
    let free = reserved(&rt, None);
    for class in [Class::Always, Class::Reading, Class::Writing] {
        assert_eq!(rt; passes(&free, class), ALL, "at {class:?}");
    }
    assert!(rt; !free.holds(nth(0)));
    who_passes();
}

const EXCLUSIVE: ReservationType = ReservationType::ExclusiveAccess;

const REGISTRANTS_ONLY: ReservationType = ReservationType::WriteExclusiveRegistrantsOnly;

const ALL_REGISTRANTS: ReservationType = ReservationType::WriteExclusiveAllRegistrants;

/// Nothing is reserved, or it is by nexus 0, by another, or by all registrants.
const STATES: [Option<(u8, ReservationType)>; 4] = [
    None,
    Some((0, REGISTRANTS_ONLY)),
    Some((1, REGISTRANTS_ONLY)),
    Some((1, ALL_REGISTRANTS)),
];

/// Who is told of registrations preempted, of reservations released, and of reservations preempted.
type Told = (u8, u8, u8);

/// How an action ends: who is told; the generation; who is registered; what is reserved.
type End = (
    Result<Told, ResvFault>,
    u32,
    u8,
    Option<(u8, ReservationType)>,
);

fn told(answer: Result<Told, ResvFault>) -> Result<Done, ResvFault> {
    match answer {
        Ok((removed, released, preempted)) => Ok(Done {
            removed: set(removed),
            released: set(released),
            preempted: set(preempted),
        }),
        Err(fault) => Err(fault),
    }
}

fn by(reserved: Option<(u8, ReservationType)>) -> Option<Reservation> {
    match reserved {
        Some((number, kind)) => Some(Reservation {
            kind,
            holder: nth(number),
        }),
        None => None,
    }
}

// An action of a nexus ends so in one state.
fn ends_in(
    rt: &impl Abort,
    state: Option<(u8, ReservationType)>,
    number: u8,
    action: ReserveOut,
    list: ResvList,
    end: End,
) {
    let mut reservations = reserved(rt, state);
    let done = reservations.out(nth(number), action, &list);
    let (answer, generation, registrants, reservation) = end;
    assert_eq!(rt; done, told(answer), "at {action:?} {list:?} {state:?}");
    let stands = (reservations.generation, registered(&reservations));
    assert_eq!(rt;
        stands,
        (generation, registrants),
        "at {action:?} {list:?} {state:?}"
    );
    let is_reserved = reservations.reservation;
    assert_eq!(rt;
        is_reserved,
        by(reservation),
        "at {action:?} {list:?} {state:?}"
    );
}

// And so in each of the four.
fn ends(rt: &impl Abort, number: u8, action: ReserveOut, list: ResvList, wanted: [End; 4]) {
    for (state, end) in STATES.into_iter().zip(wanted) {
        ends_in(rt, state, number, action, list, end);
    }
}

const NOBODY: Result<Told, ResvFault> = Ok((0, 0, 0));

const CONFLICT: Result<Told, ResvFault> = Err(ResvFault::Conflict);

const OWN: Option<(u8, ReservationType)> = Some((0, REGISTRANTS_ONLY));

const OTHER: Option<(u8, ReservationType)> = Some((1, REGISTRANTS_ONLY));

const COMMON: Option<(u8, ReservationType)> = Some((1, ALL_REGISTRANTS));

/// The same answer in each state, which changes no registrant and no reservation.
fn always(answer: Result<Told, ResvFault>, generation: u32) -> [End; 4] {
    STATES.map(|state| (answer, generation, 7, state))
}

#[test]
fn registrants_come_and_go(rt: HostRuntime) {
    let (register, ignoring) = (
        ReserveOut::Register,
        ReserveOut::RegisterAndIgnoreExistingKey,
    );
    // another key, and the same; the wrong key
    ends(&rt, 0, register, keys(0x0a, 0x0d), always(NOBODY, 4));
    ends(&rt, 0, register, keys(0x0a, 0x0a), always(NOBODY, 4));
    ends(&rt, 0, register, keys(0x0b, 0x0d), always(CONFLICT, 3));
    ends(&rt, 0, register, keys(0, 0), always(CONFLICT, 3));
    ends(&rt, 0, ignoring, keys(0x0b, 0x0d), always(NOBODY, 4));
    // a nexus that isn't registered
    ends(&rt, 3, register, keys(0, 0), always(NOBODY, 3));
    ends(&rt, 3, register, keys(0x0a, 0x0d), always(CONFLICT, 3));
    ends(&rt, 3, ignoring, keys(0x0a, 0), always(NOBODY, 3));
    let joins = STATES.map(|state| (NOBODY, 4, 15, state));
    ends(&rt, 3, register, keys(0, 0x0d), joins);
    ends(&rt, 3, ignoring, keys(0x0a, 0x0d), joins);
    // one that goes
    let goes = [
        (NOBODY, 4, 6, None),
        (Ok((0, 6, 0)), 4, 6, None),
        (NOBODY, 4, 6, OTHER),
        (NOBODY, 4, 6, COMMON),
    ];
    ends(&rt, 0, register, keys(0x0a, 0), goes);
    ends(&rt, 0, ignoring, keys(0x0b, 0), goes);
    always_sound();
    refusals_change_nothing();
}

#[test]
fn a_holder_goes(rt: HostRuntime) {
    // who is told, by type, and what stands where all others went before
    for (kind, told) in TYPES.into_iter().zip([0, 0, 5, 5, 0, 0]) {
        let mut reservations = reserved(&rt, Some((1, kind)));
        let done = reservations.out(nth(1), ReserveOut::Register, &keys(0x0b, 0));
        let wanted = Done {
            released: set(told),
            ..Done::nobody()
        };
        assert_eq!(rt; done, Ok(wanted), "at {kind:?}");
        let stays = matches!(
            kind,
            ReservationType::WriteExclusiveAllRegistrants
                | ReservationType::ExclusiveAccessAllRegistrants
        );
        assert_eq!(rt; reservations.reservation.is_some(), stays, "at {kind:?}");
        does(
            &rt,
            &mut reservations,
            0,
            ReserveOut::Register,
            keys(0x0a, 0),
        );
        does(
            &rt,
            &mut reservations,
            2,
            ReserveOut::Register,
            keys(0x0c, 0),
        );
        assert_eq!(rt; reservations.reservation, None, "at {kind:?}");
        assert!(rt; reservations.registrants.is_empty());
    }
}

#[test]
fn reservations_come_and_go(rt: HostRuntime) {
    let wrong = always(CONFLICT, 3);
    let reserve = ReserveOut::Reserve;
    ends(
        &rt,
        0,
        reserve(REGISTRANTS_ONLY),
        keys(0x0a, 0),
        [
            (NOBODY, 3, 7, OWN),
            (NOBODY, 3, 7, OWN),
            (CONFLICT, 3, 7, OTHER),
            (CONFLICT, 3, 7, COMMON),
        ],
    );
    ends(
        &rt,
        0,
        reserve(ALL_REGISTRANTS),
        keys(0x0a, 0),
        [
            (NOBODY, 3, 7, Some((0, ALL_REGISTRANTS))),
            (CONFLICT, 3, 7, OWN),
            (CONFLICT, 3, 7, OTHER),
            (NOBODY, 3, 7, COMMON),
        ],
    );
    ends(&rt, 0, reserve(EXCLUSIVE), keys(0x0b, 0), wrong);
    ends(&rt, 3, reserve(EXCLUSIVE), keys(0, 0), wrong);
    let release = ReserveOut::Release;
    ends(
        &rt,
        0,
        release(REGISTRANTS_ONLY),
        keys(0x0a, 0),
        [
            (NOBODY, 3, 7, None),
            (Ok((0, 6, 0)), 3, 7, None),
            (NOBODY, 3, 7, OTHER),
            (Err(ResvFault::BadRelease), 3, 7, COMMON),
        ],
    );
    ends(
        &rt,
        0,
        release(ALL_REGISTRANTS),
        keys(0x0a, 0),
        [
            (NOBODY, 3, 7, None),
            (Err(ResvFault::BadRelease), 3, 7, OWN),
            (NOBODY, 3, 7, OTHER),
            (Ok((0, 6, 0)), 3, 7, None),
        ],
    );
    ends(&rt, 0, release(REGISTRANTS_ONLY), keys(0x0b, 0), wrong);
    let clears = [(Ok((0, 0, 6)), 4, 0, None); 4];
    ends(&rt, 0, ReserveOut::Clear, keys(0x0a, 0), clears);
    ends(&rt, 3, ReserveOut::Clear, keys(0, 0), wrong);
    // under the types of one holder nobody is told of a release
    for (kind, told) in TYPES.into_iter().zip([0, 0, 6, 6, 6, 6]) {
        let mut reservations = reserved(&rt, Some((0, kind)));
        let done = reservations.out(nth(0), release(kind), &keys(0x0a, 0));
        let wanted = Done {
            released: set(told),
            ..Done::nobody()
        };
        assert_eq!(rt; done, Ok(wanted), "at {kind:?}");
    }
}

#[test]
fn registrants_are_preempted(rt: HostRuntime) {
    let (preempt, abort) = (ReserveOut::Preempt, ReserveOut::PreemptAndAbort);
    let taken = Some((0, EXCLUSIVE));
    let bad = Err(ResvFault::BadKey);
    for action in [preempt(EXCLUSIVE), abort(EXCLUSIVE)] {
        ends(
            &rt,
            0,
            action,
            keys(0x0a, 0x0b),
            [
                (Ok((2, 0, 0)), 4, 5, None),
                (Ok((2, 0, 0)), 4, 5, OWN),
                (Ok((2, 4, 0)), 4, 5, taken),
                (Ok((2, 0, 0)), 4, 5, COMMON),
            ],
        );
        // one's own key
        ends(
            &rt,
            0,
            action,
            keys(0x0a, 0x0a),
            [
                (NOBODY, 4, 7, None),
                (Ok((0, 6, 0)), 4, 7, taken),
                (NOBODY, 4, 7, OTHER),
                (NOBODY, 4, 7, COMMON),
            ],
        );
        ends(
            &rt,
            0,
            action,
            keys(0x0a, 0),
            [
                (bad, 3, 7, None),
                (bad, 3, 7, OWN),
                (bad, 3, 7, OTHER),
                (Ok((6, 0, 0)), 4, 1, taken),
            ],
        );
        ends(&rt, 0, action, keys(0x0a, 0x0d), always(CONFLICT, 3));
        ends(&rt, 0, action, keys(0x0b, 0x0b), always(CONFLICT, 3));
        ends(&rt, 3, action, keys(0, 0x0b), always(CONFLICT, 3));
    }
    // the same type
    ends(
        &rt,
        0,
        preempt(REGISTRANTS_ONLY),
        keys(0x0a, 0x0b),
        [
            (Ok((2, 0, 0)), 4, 5, None),
            (Ok((2, 0, 0)), 4, 5, OWN),
            (Ok((2, 0, 0)), 4, 5, OWN),
            (Ok((2, 0, 0)), 4, 5, COMMON),
        ],
    );
}

// The whole data, and as much of them as the host takes.
#[tactic(auto, using(ct_resv::proofs::Sizes::most_bytes))]
fn returns(
    rt: &impl Abort,
    alloc: Global,
    reservations: &Reservations,
    action: ReserveIn,
    bytes: &[u8],
) -> Result<(), NoMemory> {
    for allocation in [0, 5, 60, 0xffff] {
        let mut data = Reserve::open(alloc, usize::from(allocation))?;
        reservations.input(action, allocation, &mut data);
        let wanted = bytes.iter().take(usize::from(allocation));
        assert!(rt;
            data.as_slice().iter().eq(wanted),
            "at {action:?} {allocation}"
        );
    }
    Ok(())
}

#[test]
fn reservations_are_reported(rt: HostRuntime) -> Result<(), NoMemory> {
    let alloc = rt.alloc();
    let mut two = Reservations::open();
    let (first, second) = (0x0102_0304_0506_0708, 0x1112_1314_1516_1718);
    does(&rt, &mut two, 0x01, ReserveOut::Register, keys(0, first));
    does(&rt, &mut two, 0x2f, ReserveOut::Register, keys(0, second));
    let capabilities = b"\0\x08\0\x80\xea\x01\0\0";
    let two_keys =
        b"\0\0\0\x02\0\0\0\x10\x01\x02\x03\x04\x05\x06\x07\x08\x11\x12\x13\x14\x15\x16\x17\x18";
    let free = b"\0\0\0\x02\0\0\0\0";
    let none_holds = b"\0\0\0\x02\0\0\0\x60\
        \x01\x02\x03\x04\x05\x06\x07\x08\0\0\0\0\0\0\0\0\0\0\0\x01\0\0\0\x18\
        \x0f\0\0\0\0\0\0\0\0\0\0\x01\0\0\0\0\0\0\0\0\0\0\0\0\
        \x11\x12\x13\x14\x15\x16\x17\x18\0\0\0\0\0\0\0\0\0\0\0\x03\0\0\0\x18\
        \x0f\0\0\0\0\0\0\0\0\0\0\x0f\0\0\0\0\0\0\0\0\0\0\0\0";
    returns(&rt, alloc, &two, ReserveIn::ReadKeys, two_keys)?;
    returns(&rt, alloc, &two, ReserveIn::ReadReservation, free)?;
    returns(
        &rt,
        alloc,
        &two,
        ReserveIn::ReportCapabilities,
        capabilities,
    )?;
    returns(&rt, alloc, &two, ReserveIn::ReadFullStatus, none_holds)?;

    let kind = ReservationType::ExclusiveAccessRegistrantsOnly;
    does(
        &rt,
        &mut two,
        0x2f,
        ReserveOut::Reserve(kind),
        keys(second, 0),
    );
    let by_second = b"\0\0\0\x02\0\0\0\x10\x11\x12\x13\x14\x15\x16\x17\x18\0\0\0\0\0\x06\0\0";
    let second_holds = b"\0\0\0\x02\0\0\0\x60\
        \x01\x02\x03\x04\x05\x06\x07\x08\0\0\0\0\0\0\0\0\0\0\0\x01\0\0\0\x18\
        \x0f\0\0\0\0\0\0\0\0\0\0\x01\0\0\0\0\0\0\0\0\0\0\0\0\
        \x11\x12\x13\x14\x15\x16\x17\x18\0\0\0\0\x01\x06\0\0\0\0\0\x03\0\0\0\x18\
        \x0f\0\0\0\0\0\0\0\0\0\0\x0f\0\0\0\0\0\0\0\0\0\0\0\0";
    returns(&rt, alloc, &two, ReserveIn::ReadReservation, by_second)?;
    returns(&rt, alloc, &two, ReserveIn::ReadFullStatus, second_holds)?;

    let all = ReservationType::ExclusiveAccessAllRegistrants;
    does(
        &rt,
        &mut two,
        0x2f,
        ReserveOut::Preempt(kind),
        keys(second, second),
    );
    two.reservation = Some(Reservation {
        kind: all,
        holder: nth(0x2f),
    });
    let by_all = b"\0\0\0\x03\0\0\0\x10\0\0\0\0\0\0\0\0\0\0\0\0\0\x08\0\0";
    let all_hold = b"\0\0\0\x03\0\0\0\x60\
        \x01\x02\x03\x04\x05\x06\x07\x08\0\0\0\0\x01\x08\0\0\0\0\0\x01\0\0\0\x18\
        \x0f\0\0\0\0\0\0\0\0\0\0\x01\0\0\0\0\0\0\0\0\0\0\0\0\
        \x11\x12\x13\x14\x15\x16\x17\x18\0\0\0\0\x01\x08\0\0\0\0\0\x03\0\0\0\x18\
        \x0f\0\0\0\0\0\0\0\0\0\0\x0f\0\0\0\0\0\0\0\0\0\0\0\0";
    returns(&rt, alloc, &two, ReserveIn::ReadReservation, by_all)?;
    returns(&rt, alloc, &two, ReserveIn::ReadFullStatus, all_hold)?;

    let nobody = Reservations::open();
    returns(
        &rt,
        alloc,
        &nobody,
        ReserveIn::ReadKeys,
        b"\0\0\0\0\0\0\0\0",
    )?;
    returns(
        &rt,
        alloc,
        &nobody,
        ReserveIn::ReadFullStatus,
        b"\0\0\0\0\0\0\0\0",
    )?;
    lengths();
    Ok(())
}

#[test]
fn faults_have_their_codes(rt: HostRuntime) {
    let codes = [
        (ResvFault::Full, 0x55, 0x04),
        (ResvFault::BadRelease, 0x26, 0x04),
        (ResvFault::BadKey, 0x26, 0x00),
    ];
    for (fault, asc, ascq) in codes {
        let code = fault
            .sense_code()
            .map(|code| (code.key, code.asc, code.ascq));
        assert_eq!(rt; code, Some((5, asc, ascq)), "of {fault:?}");
    }
    assert!(rt; ResvFault::Conflict.sense_code().is_none());
}

#[test]
fn parameter_lists_are_read(rt: HostRuntime) {
    let list =
        b"\x01\x02\x03\x04\x05\x06\x07\x08\x11\x12\x13\x14\x15\x16\x17\x18\xff\xff\xff\xff\0\xff\xff\xff";
    let read = keys(0x0102_0304_0506_0708, 0x1112_1314_1516_1718);
    assert_eq!(rt; read_resv(list), Ok(read));
    for length in [0, 8, 23] {
        assert_eq!(rt;
            read_resv(&list[..length]),
            Err(ListFault::BadLength),
            "at {length}"
        );
    }
    assert_eq!(rt; read_resv(&[0; 25]), Err(ListFault::BadLength));
    // APTPL, ALL_TG_PT, SPEC_I_PT
    for options in [0x01, 0x04, 0x08, 0x80] {
        let mut list = [0; 24];
        list[20] = options;
        assert_eq!(rt; read_resv(&list), Err(ListFault::BadField), "at {options}");
    }
}
