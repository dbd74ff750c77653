ghost use Rattle.std.specs.Prelude.{◌≡◌, ◌≤◌, ◌<◌, ◌==◌, [], ◌∷◌, ◌++◌, length, map};
ghost use Rattle.std.specs.List.{list_any};
ghost use Rattle.ct_resv.specs.Registering.{is_own, is_registered, key_of, has_key, nexuses_of, others_of};
ghost use Rattle.ct_resv.specs.Changes.{with_key, is_named, is_removed, removed_of, left_of};

use ct_word::limit::MOST_REGISTRANTS;
use ct_word::{Nexus, NexusSet};
use std::marker::Model;

/// The most registrants.
const MOST: usize = 64;

const _: () = prove!(MOST as u64 == MOST_REGISTRANTS);

/// A nexus that is registered.
#[derive(Clone, Copy, Debug, PartialEq, Eq)]
pub struct Registrant {
    pub nexus: Nexus,
    /// The reservation key
    pub key: u64,
}

/// The registrants that PREEMPT names.
#[derive(Clone, Copy, Debug, PartialEq, Eq)]
pub enum Named {
    /// Those with this key.
    Key(u64),
    Everyone,
}

impl Named {
    fn has(self, registrant: &Registrant) -> bool
        ensures { result ≡ is_named self registrant.now }
    {
        match self {
            Named::Key(key) => registrant.key == key,
            Named::Everyone => true,
        }
    }
}

/// The registrants of a logical unit in the order of their registration, at most 64, of fixed size. Contracts see a
/// list.
#[derive(Debug, Drop)]
pub struct Registrants {
    list: [Registrant; MOST],
    count: usize,
}

impl Model for Registrants {
    ghost use Rattle.std.specs.Prelude.{◌≡◌, ◌≤◌, List, length, take};
    ghost use Rattle.ct_resv.specs.declared.registrants.Registrant.{Registrant};

    ghost Value = { List Registrant };

    ghost view = { λ r. take r.count r.list };

    ghost invariant = { λ r. (r.count ≤ 64) × (length r.list ≡ 64) };
}

const NOBODY: Registrant = Registrant {
    nexus: Nexus { port: 0, init: 0 },
    key: 0,
};

impl Registrants {
    /// Nobody is registered.
    pub fn none() -> Registrants
        ensures { result ≡ [] }
    {
        Registrants {
            list: [NOBODY; MOST],
            count: 0,
        }
    }

    /// The same registrants once more.
    pub(crate) fn copied(&self) -> Registrants
        ensures { result ≡ self.now }
    {
        Registrants {
            list: self.list,
            count: self.count,
        }
    }

    pub fn len(&self) -> usize
        ensures len { result ≡ length self.now }
        ensures few { result ≤ 64 }
    {
        self.count
    }

    pub fn is_empty(&self) -> bool
        ensures { result ≡ (length self.now == 0) }
    {
        self.count == 0
    }

    pub fn as_slice(&self) -> &[Registrant]
        ensures list { result.now ≡ self.now }
        ensures few { length result.now ≤ 64 }
    {
        &self.list[..self.count]
    }

    pub fn has(&self, nexus: Nexus) -> bool
        ensures { result ≡ is_registered nexus self.now }
    {
        self.as_slice()
            .iter()
            .any(|registrant| is_own(nexus, registrant))
    }

    /// The key of a nexus; None exactly where it isn't registered.
    pub fn key_of(&self, nexus: Nexus) -> Option<u64>
        ensures { result ≡ key_of nexus self.now }
    {
        match self
            .as_slice()
            .iter()
            .find(|registrant| is_own(nexus, registrant))
        {
            Some(registrant) => Some(registrant.key),
            None => None,
        }
    }

    /// A nexus is registered with this key.
    pub fn has_key(&self, nexus: Nexus, key: u64) -> bool
        ensures { result ≡ has_key nexus key self.now }
    {
        match self.key_of(nexus) {
            Some(own) => own == key,
            None => false,
        }
    }

    /// Somebody is named.
    pub(crate) fn has_named(&self, named: Named) -> bool
        ensures { result ≡ list_any (is_named named) self.now }
    {
        self.as_slice()
            .iter()
            .any(|registrant| named.has(registrant))
    }

    /// The registrants that are other nexuses than this one, as a set.
    #[tactic(auto, using(crate::proofs::Leaving::leaving))]
    pub(crate) fn others(&self, nexus: Nexus) -> NexusSet
        ensures { result ≡ nexuses_of (others_of nexus self.now) }
    {
        let mut set = NexusSet::open();
        for registrant in self.as_slice() {
            if !is_own(nexus, registrant) {
                set.add(registrant.nexus);
            }
        }
        set
    }

    /// Registers a nexus, as the last one.
    pub(crate) fn push(&mut self, registrant: Registrant)
        requires { length self.old < 64 }
        ensures { self.new ≡ self.old ++ registrant ∷ [] }
    {
        self.list[self.count] = registrant;
        self.count += 1;
    }

    /// Gives a nexus another key.
    pub(crate) fn set_key(&mut self, nexus: Nexus, key: u64)
        ensures { self.new ≡ map (with_key nexus key) self.old }
    {
        for place in 0..self.count {
            self.list[place] = with_key(nexus, key, self.list[place]);
        }
    }

    /// Unregisters a nexus.
    #[tactic(auto, using(crate::proofs::Leaving::leaving))]
    pub(crate) fn unregister(&mut self, nexus: Nexus)
        ensures { self.new ≡ others_of nexus self.old }
    {
        let mut left = Registrants::none();
        for registrant in self.as_slice() {
            if !is_own(nexus, registrant) {
                left.push(*registrant);
            }
        }
        *self = left;
    }

    /// Removes the named registrants that are other nexuses than this one, and returns them as a set.
    pub(crate) fn remove(&mut self, nexus: Nexus, named: Named) -> NexusSet
        ensures removed { result ≡ nexuses_of (removed_of nexus named self.old) }
        ensures left { self.new ≡ left_of nexus named self.old }
    {
        let mut left = Registrants::none();
        let mut removed = NexusSet::open();
        for registrant in self.as_slice() {
            if is_removed(nexus, named, registrant) {
                removed.add(registrant.nexus);
            } else {
                left.push(*registrant);
            }
        }
        *self = left;
        removed
    }
}

fn is_own(nexus: Nexus, registrant: &Registrant) -> bool
    ensures { result ≡ is_own nexus registrant.now }
{
    registrant.nexus.is_same(nexus)
}

fn with_key(nexus: Nexus, key: u64, registrant: Registrant) -> Registrant
    ensures { result ≡ with_key nexus key registrant }
{
    if is_own(nexus, &registrant) {
        Registrant { key, ..registrant }
    } else {
        registrant
    }
}

/// A registrant is named, and is another nexus than this one.
fn is_removed(nexus: Nexus, named: Named, registrant: &Registrant) -> bool
    ensures { result ≡ is_removed nexus named registrant.now }
{
    named.has(registrant) && !is_own(nexus, registrant)
}
