ghost use Rattle.std.specs.Prelude.{◌≡◌};
ghost use Rattle.ct_resv.specs.Changes.{nobody};

use ct_word::NexusSet;

/// Which nexuses are told of an accepted action.
#[derive(Clone, Copy, Debug, PartialEq, Eq)]
pub struct Done {
    /// 2Ah/05h, registrations preempted: those that PREEMPT or PREEMPT AND ABORT removed
    pub removed: NexusSet,
    /// 2Ah/04h, reservations released
    pub released: NexusSet,
    /// 2Ah/03h, reservations preempted: those that CLEAR unregistered
    pub preempted: NexusSet,
}

impl Done {
    /// No nexus is told of anything.
    pub fn nobody() -> Done
        ensures { result ≡ nobody }
    {
        Done {
            removed: NexusSet::open(),
            released: NexusSet::open(),
            preempted: NexusSet::open(),
        }
    }
}
