use ct_sense::Reply;
use ct_word::NexusSet;

/// How a command ended that is done at once: its reply, and the nexuses whose waiting commands it clears.
#[derive(Debug, Drop)]
pub struct Instant {
    pub reply: Reply,
    pub cleared: NexusSet,
}
