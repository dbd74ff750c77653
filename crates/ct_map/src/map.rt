ghost use Rattle.std.specs.Prelude.{◌≡◌, ◌<◌, None};
ghost use Rattle.ct_word.specs.Nexuses.{IsNexus};
ghost use Rattle.ct_map.specs.Maps.{nothing_declared, node_of, with_port, is_place, place_in, unit_of, with_unit, IsVisible};

use ct_word::{LunNo, Nexus, Node};
use std::marker::Model;

/// Ports that there can be, initiators of each port, and numbers of each nexus.
const MOST: u8 = 16;

const PORTS: usize = 16;

/// Numbers of all nexuses.
const PLACES: usize = 4_096;

/// Ports at nodes and logical units under numbers, of fixed size. Contracts see the lists of both, each item at its place.
#[derive(Debug, Drop)]
pub struct Map {
    nodes: [Option<Node>; PORTS],
    units: [Option<LunNo>; PLACES],
}

impl Model for Map {
    ghost use Rattle.ct_map.specs.Maps.{Declared, HasPlaces};

    ghost Value = { Declared };

    ghost view = { λ m. record { nodes = m.nodes; units = m.units } };

    ghost invariant = { λ m. HasPlaces (record { nodes = m.nodes; units = m.units }) };
}

impl Map {
    /// No port is there, and no nexus sees a logical unit.
    #[tactic(auto, unfolding(crate::specs::Maps::nothing_declared))]
    pub fn open() -> Map
        ensures { result ≡ nothing_declared }
    {
        Map {
            nodes: [None; PORTS],
            units: [None; PLACES],
        }
    }

    /// A port, 0 to 15, is at a node.
    #[tactic(auto, unfolding(crate::specs::Maps::with_port))]
    pub fn add_port(&mut self, port: u8, node: Node)
        requires port { port < 16 }
        requires new { node_of self.old port ≡ None }
        ensures { self.new ≡ with_port self.old port node }
    {
        self.nodes[usize::from(port)] = Some(node);
    }

    /// A nexus sees a logical unit under the number `x`, 0 to 15.
    #[tactic(auto, unfolding(crate::specs::Maps::with_unit))]
    pub fn add(&mut self, n: Nexus, x: u8, lun: LunNo)
        requires nexus { IsNexus n }
        requires number { x < 16 }
        requires new { unit_of self.old n x ≡ None }
        ensures { self.new ≡ with_unit self.old n x lun }
    {
        self.units[place_in(n, x)] = Some(lun);
    }

    /// The logical unit that a nexus sees under a number. None exactly where it sees none.
    #[tactic(auto, unfolding(crate::specs::Maps::unit_of))]
    pub fn find(&self, n: Nexus, x: u8) -> Option<LunNo>
        ensures { result ≡ unit_of self.now n x }
    {
        if is_place(n, x) {
            self.units[place_in(n, x)]
        } else {
            None
        }
    }

    /// The numbers under which a nexus sees logical units: `x` is one of them where bit `x` is 1.
    pub fn visible(&self, n: Nexus) -> u16
        ensures { IsVisible self.now n result }
    {
        let mut visible = 0;
        for x in 0..MOST {
            if self.find(n, x).is_some() {
                visible |= 1 << x;
            }
        }
        visible
    }

    /// The node of a port. None exactly where the port isn't there.
    #[tactic(auto, unfolding(crate::specs::Maps::node_of))]
    pub fn node(&self, port: u8) -> Option<Node>
        ensures { result ≡ node_of self.now port }
    {
        match self.nodes.get(usize::from(port)) {
            Some(node) => *node,
            None => None,
        }
    }
}

fn is_place(n: Nexus, x: u8) -> bool
    ensures { result ≡ is_place n x }
{
    n.port < MOST && n.init < MOST && x < MOST
}

fn place_in(n: Nexus, x: u8) -> usize
    ensures { result ≡ place_in n x }
{
    n.place() * 16 + usize::from(x)
}
