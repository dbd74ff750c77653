//! Task management functions: what an initiator can ask of a task set beside commands, and which commands it reaches.
#![tactic(auto)]

mod function;
mod reach;

pub use function::{Ask, Function, Outcome};
pub use reach::{hits, seeks};

#[cfg(test)]
mod tests {
    use super::*;
    use ct_word::{Nexus, Tag};

    const ASKER: Nexus = Nexus { port: 1, init: 2 };

    const OTHER: Nexus = Nexus { port: 2, init: 2 };

    // The table of SAM-5, clause 7: the asker's command with tag 7, another of its commands, another nexus's with tag 7.
    fn reach_of(function: Function) -> ([bool; 3], [bool; 3]) {
        let ask = Ask {
            line: 4,
            nexus: ASKER,
            function,
        };
        let hit = [
            hits(&ask, ASKER, Tag(7)),
            hits(&ask, ASKER, Tag(8)),
            hits(&ask, OTHER, Tag(7)),
        ];
        let sought = [
            seeks(&ask, ASKER, Tag(7)),
            seeks(&ask, ASKER, Tag(8)),
            seeks(&ask, OTHER, Tag(7)),
        ];
        (hit, sought)
    }

    #[test]
    fn reaches_its_commands(rt: HostRuntime) {
        let none = [false, false, false];
        let cases = [
            (Function::AbortTask(Tag(7)), [true, false, false], none),
            (Function::AbortTaskSet, [true, true, false], none),
            (Function::ClearTaskSet, [true, true, true], none),
            (Function::LunReset, [true, true, true], none),
            (Function::NexusReset, [true, true, false], none),
            (Function::QueryTask(Tag(7)), none, [true, false, false]),
            (Function::QueryTaskSet, none, [true, true, false]),
            (Function::ClearAca, none, none),
        ];
        for (function, hit, sought) in cases {
            assert_eq!(rt; reach_of(function), (hit, sought), "at {function:?}");
        }
    }
}
