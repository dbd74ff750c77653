ghost use Rattle.std.specs.Prelude.{◌≡◌, slice_index_or, false};
ghost use Rattle.ct_word.specs.Nexuses.{IsNexus, no_nexuses, contains, with_nexus, only_nexus};

use crate::names::Nexus;
use std::marker::Model;

/// A set of the 256 I_T nexuses, of fixed size. Contracts see it as the list of what is told of each.
#[derive(Clone, Copy, Debug, PartialEq, Eq)]
pub struct NexusSet {
    flags: [bool; 256],
}

impl Model for NexusSet {
    ghost use Rattle.std.specs.Prelude.{List, Bool};

    ghost Value = { List Bool };

    ghost view = { λ s. s.flags };

    ghost inverse = { λ flags. record { flags = flags } };
}

impl NexusSet {
    /// The empty set.
    #[tactic(auto, unfolding(crate::specs::Nexuses::no_nexuses))]
    pub fn open() -> NexusSet
        ensures { result ≡ no_nexuses }
    {
        NexusSet {
            flags: [false; 256],
        }
    }

    /// The set of one nexus; the empty set where it has no place among the 256.
    pub fn of(n: Nexus) -> NexusSet
        ensures { result ≡ only_nexus n }
    {
        let mut set = NexusSet::open();
        set.add(n);
        set
    }

    pub fn has(&self, n: Nexus) -> bool
        requires { IsNexus n }
        ensures { result ≡ contains self.now n }
    {
        self.flags[n.place()]
    }

    /// Whether the nexus at a place is in the set. From place 256 on there is none.
    pub fn has_place(&self, place: usize) -> bool
        ensures { result ≡ slice_index_or self.now place false }
    {
        match self.flags.get(place) {
            Some(is_in) => *is_in,
            None => false,
        }
    }

    /// Where a nexus has no place among the 256, nothing changes.
    pub fn add(&mut self, n: Nexus)
        ensures { self.new ≡ with_nexus self.old n }
    {
        let place = n.place();
        if place < self.flags.len() {
            self.flags[place] = true;
        }
    }
}
