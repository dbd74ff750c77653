ghost use Rattle.std.specs.Prelude.{◌≡◌};
ghost use Rattle.ct_tmf.specs.Reaches.{hits, seeks};

use crate::function::{Ask, Function};
use ct_word::{Nexus, Tag};

/// Whether a function aborts a command of this nexus with this tag (SAM-5, 7.2 to 7.7).
#[tactic(auto, unfolding(crate::specs::Reaches::hits))]
pub fn hits(ask: &Ask, nexus: Nexus, tag: Tag) -> bool
    ensures { result ≡ hits ask.now nexus tag }
{
    match ask.function {
        Function::AbortTask(asked) => ask.nexus.is_same(nexus) && asked.0 == tag.0,
        Function::AbortTaskSet | Function::NexusReset => ask.nexus.is_same(nexus),
        Function::ClearTaskSet | Function::LunReset => true,
        Function::QueryTask(_) | Function::QueryTaskSet | Function::ClearAca => false,
    }
}

/// Whether a function asks for a command of this nexus with this tag (SAM-5, 7.8 and 7.9).
#[tactic(auto, unfolding(crate::specs::Reaches::seeks))]
pub fn seeks(ask: &Ask, nexus: Nexus, tag: Tag) -> bool
    ensures { result ≡ seeks ask.now nexus tag }
{
    match ask.function {
        Function::QueryTask(asked) => ask.nexus.is_same(nexus) && asked.0 == tag.0,
        Function::QueryTaskSet => ask.nexus.is_same(nexus),
        _ => false,
    }
}
