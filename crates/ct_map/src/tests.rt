//! Ports, nexuses and numbers apart.

use crate::*;
use ct_word::{LunNo, Nexus, Node};

#[tactic(auto, unfolding(crate::specs::Maps::nothing_declared, crate::specs::Maps::with_port, crate::specs::Maps::with_unit, crate::specs::Maps::node_of, crate::specs::Maps::unit_of))]
#[test]
fn finds_what_was_added(rt: HostRuntime) {
    let mut map = Map::open();
    let (one, other) = (Nexus { port: 1, init: 15 }, Nexus { port: 2, init: 0 });
    map.add_port(1, Node::A);
    map.add_port(15, Node::B);
    map.add(one, 0, LunNo(3));
    map.add(one, 15, LunNo(4));
    map.add(other, 0, LunNo(5));
    assert_eq!(rt;
        (map.node(1), map.node(2), map.node(15)),
        (Some(Node::A), None, Some(Node::B))
    );
    assert_eq!(rt;
        (map.find(one, 0), map.find(one, 15)),
        (Some(LunNo(3)), Some(LunNo(4)))
    );
    assert_eq!(rt;
        (map.find(one, 1), map.find(other, 0)),
        (None, Some(LunNo(5)))
    );
    assert_eq!(rt; (map.visible(one), map.visible(other)), (0x8001, 1));
    assert_eq!(rt; (map.find(one, 16), map.node(16)), (None, None));
    ports_apart();
    units_apart();
}
