//! Every code in the order of the table, and nexuses apart.

use crate::*;
use ct_word::{Code, Nexus, NexusSet};

// In the order in which a nexus is told, with the additional sense code and its qualifier.
fn table() -> [(Code, u8, u8); 9] {
    [
        (Code::Reset, 0x29, 0x00),
        (Code::PowerOn, 0x29, 0x01),
        (Code::NexusLoss, 0x29, 0x07),
        (Code::ModeChanged, 0x2a, 0x01),
        (Code::ReservationsPreempted, 0x2a, 0x03),
        (Code::ReservationsReleased, 0x2a, 0x04),
        (Code::RegistrationsPreempted, 0x2a, 0x05),
        (Code::AccessStateChanged, 0x2a, 0x06),
        (Code::CommandsCleared, 0x2f, 0x00),
    ]
}

#[test]
fn tells_all_codes_in_order(rt: HostRuntime) {
    let mut attentions = Attentions::open();
    let (one, other) = (Nexus { port: 15, init: 15 }, Nexus { port: 15, init: 14 });
    assert_eq!(rt; attentions.take(one), None);
    for (code, _, _) in table().into_iter().rev() {
        attentions.raise(one, code);
        attentions.raise(one, code);
        assert_eq!(rt; attentions.first(one), Some(code));
    }
    for (code, asc, ascq) in table() {
        let sense = sense_code(code);
        assert_eq!(rt; (sense.key, sense.asc, sense.ascq), (6, asc, ascq));
        assert_eq!(rt; attentions.take(one), Some(code));
    }
    assert_eq!(rt;
        (attentions.take(one), attentions.first(other)),
        (None, None)
    );
}

#[test]
fn keeps_nexuses_apart(rt: HostRuntime) {
    let mut attentions = Attentions::at_power_on();
    let (one, other) = (Nexus { port: 0, init: 1 }, Nexus { port: 1, init: 0 });
    attentions.raise_for_others(one, Code::ModeChanged);
    assert_eq!(rt; attentions.take(one), Some(Code::PowerOn));
    assert_eq!(rt; attentions.take(one), None);
    assert_eq!(rt; attentions.take(other), Some(Code::PowerOn));
    assert_eq!(rt; attentions.first(other), Some(Code::ModeChanged));
    attentions.raise_for_all(Code::Reset);
    assert_eq!(rt; attentions.first(one), Some(Code::Reset));
    attentions.clear_nexus(other);
    assert_eq!(rt;
        (attentions.first(one), attentions.first(other)),
        (Some(Code::Reset), None)
    );
    first_of_several();
    taken_apart();
    raised_once();
}

#[test]
fn raises_for_a_set(rt: HostRuntime) {
    let mut attentions = Attentions::open();
    let (one, other) = (Nexus { port: 0, init: 1 }, Nexus { port: 15, init: 15 });
    let mut set = NexusSet::open();
    set.add(other);
    attentions.raise_for(&set, Code::RegistrationsPreempted);
    attentions.raise_for(&NexusSet::open(), Code::Reset);
    assert_eq!(rt; attentions.first(one), None);
    assert_eq!(rt; attentions.first(other), Some(Code::RegistrationsPreempted));
}
