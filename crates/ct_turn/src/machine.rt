//! What a turn holds.
ghost use Rattle.std.specs.Prelude.{◌≡◌, ℕ, ◌≤◌, List, ◌++◌, length, Bool, Option};

/// An automaton with a journal, which only grows. It has an opening, which no act changes and which says what acts are
/// allowed. Of an act, its answer and the events that it adds, one relation on plain data holds.
pub trait Machine {
    type Opening;

    type Act;

    type Answer;

    type Event;

    /// What no act changes.
    ghost opening: { Self → Self.Opening };

    /// The acts that an opening allows.
    ghost allows: { Self.Opening → Self.Act → Type 0 };

    ghost journal: { Self → List Self.Event };

    /// Of the opening, the journal before, the act, the answer and the events that were added.
    ghost steps: { Self.Opening → List Self.Event → Self.Act → Self.Answer → List Self.Event → Type 0 };

    /// The act that `next` gives.
    ghost next_act: { ℕ → Self.Act };

    ghost is_idle: { Self.Answer → Bool };

    ghost line_of: { Self.Answer → Option ℕ };

    /// Makes an act.
    fn act(&mut self, act: Self::Act) -> Self::Answer
        requires { allows (opening self.old) act }
        ensures opening { opening self.new ≡ opening self.old }
        ensures journal { (added : List Self.Event) × (journal self.new ≡ journal self.old ++ added) × steps (opening self.old) (journal self.old) act result added };

    /// How many events the journal has: fewer than 2^32.
    fn len(&self) -> u32
        ensures { result ≡ length (journal self.now) };

    /// The act that does whatever can be done next, in pieces of at most so many blocks.
    fn next(blocks: u32) -> Self::Act
        requires { 1 ≤ blocks }
        ensures act { result ≡ next_act blocks }
        ensures allowed { (o : Self.Opening) → allows o result };

    /// True where an answer says that nothing could be done.
    fn idle(answer: &Self::Answer) -> bool
        ensures { result ≡ is_idle answer.now };

    /// The line of a script that the act with this answer ended, if it ended one.
    fn line(answer: &Self::Answer) -> Option<u32>
        ensures { result ≡ line_of answer.now };
}
