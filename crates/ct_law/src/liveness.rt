//! That runs go on, and how long their journals are.

ghost use Rattle.std.specs.Prelude.{◌≡◌, ◌≤◌, ℕ, List, [], Option, length, true};
ghost use Rattle.ct_book.specs.declared.event.Logged.{Logged};
ghost use Rattle.ct_book.specs.Kept.{events_for};
ghost use Rattle.ct_machine.specs.declared.act.Opening.{Opening};
ghost use Rattle.ct_machine.specs.declared.act.Act.TheVariants as act;
ghost use Rattle.ct_machine.specs.declared.act.Answer.TheVariants as answer;
ghost use Rattle.ct_machine.specs.Acts.{act_of};
ghost use Rattle.ct_machine.specs.Runs.{replay, IsRun};
ghost use Rattle.ct_machine.specs.Laws.Live.{NeverStops, NextDoesSomething, RestsQuietly, ActsWrite};

/// Behind every run with a live command something can be done next.
pub fn runs_never_stop()
    ensures { (opening : Opening) (journal : List Logged) → IsRun opening journal → NeverStops opening journal }
{}

/// `Next` does something, or nothing can be done next: it is never answered Blocked, Away, Gone or Nothing.
pub fn next_does_something()
    ensures { (opening : Opening) (journal : List Logged) → IsRun opening journal → NextDoesSomething opening journal }
{}

/// Where `Next` is idle all is quiet: nothing is live, no task management function is open, no message is on its way,
/// and each work has its entry.
pub fn runs_rest_quietly()
    ensures { (opening : Opening) (journal : List Logged) → IsRun opening journal → RestsQuietly opening journal }
{}

/// Where `Next` is idle, it writes nothing.
pub fn idle_is_silent()
    ensures { (opening : Opening) (journal : List Logged) (count : ℕ) (fault : Option ℕ)
        → (act_of (replay opening journal) (act.Next count) fault).answer ≡ answer.Idle
        → (act_of (replay opening journal) (act.Next count) fault).journal ≡ [] }
{}

/// An act by which something happened, which its answer says, writes an event.
pub fn acts_write()
    ensures { (opening : Opening) (journal : List Logged) → ActsWrite opening journal }
{}

/// All acts together write at most as many events as the room of the opening reserves.
pub fn runs_fit_their_room()
    ensures { (opening : Opening) (journal : List Logged) → IsRun opening journal → length journal ≤ events_for opening.room }
{}
