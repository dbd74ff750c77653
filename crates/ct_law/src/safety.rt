//! What every run's journal, replies and blocks are.

ghost use Rattle.std.specs.Prelude.{◌≡◌, List, []};
ghost use Rattle.ct_book.specs.declared.event.Logged.{Logged};
ghost use Rattle.ct_machine.specs.declared.act.Opening.{Opening};
ghost use Rattle.ct_machine.specs.Serial.{serial_disk};
ghost use Rattle.ct_machine.specs.Runs.{replay, IsRun};
ghost use Rattle.ct_machine.specs.Laws.Once.{EachOnce};
ghost use Rattle.ct_machine.specs.Laws.Kinds.{IsTyped};
ghost use Rattle.ct_machine.specs.Laws.Orderly.{IsOrderly};
ghost use Rattle.ct_machine.specs.Laws.Reorders.{ReordersAtRest};
ghost use Rattle.ct_machine.specs.Laws.Cells.{MakesPlans, IsByCells};
ghost use Rattle.ct_machine.specs.Laws.Endings.{EndsGoodOrDiffers};
ghost use Rattle.ct_machine.specs.Laws.Prefix.{RecordsPrefix};
ghost use Rattle.ct_machine.specs.Laws.Legal.{IsRestricted, IsLegal, IsSound};
ghost use Rattle.ct_machine.specs.Laws.Timely.{IsTimely};
ghost use Rattle.ct_machine.specs.Laws.Functions.{TellsOfCuts, AnswersFunctions, WaitsForFunctions, ClosesByNumber};
ghost use Rattle.ct_machine.specs.Laws.{IsLawful};

/// Every run is lawful: all of the laws below at once.
pub fn every_run_is_lawful()
    ensures { (opening : Opening) (journal : List Logged) → IsRun opening journal → IsLawful opening journal }
{}

/// Where QUEUE ALGORITHM MODIFIER says all along that reordering is restricted (SPC-4, Control mode page), replies and
/// effects are those of commands executed singly in the order of their entries; a command that is cut counts with its
/// recorded prefix.
pub fn runs_are_legal()
    ensures { (opening : Opening) (journal : List Logged) → IsRun opening journal → IsRestricted opening journal → IsLegal opening journal }
{}

/// Under any reordering, a command that moved nothing has the reply of its whole execution, one that moved was refused
/// by no check, and each other answer has its written cause.
pub fn runs_are_sound()
    ensures { (opening : Opening) (journal : List Logged) → IsRun opening journal → IsSound opening journal }
{}

/// Each command and each function has at most one entry, and has one where all is quiet.
pub fn runs_answer_each_work_once()
    ensures { (opening : Opening) (journal : List Logged) → IsRun opening journal → EachOnce opening journal }
{}

/// Each event is one of a work of its kind: commands move, end and are cut, by works that came; functions are taken up and
/// closed, and one that isn't rejected was taken up.
pub fn runs_are_typed()
    ensures { (opening : Opening) (journal : List Logged) → IsRun opening journal → IsTyped journal }
{}

/// Commands begin in an order that task attributes and conflicts demand (SAM-5, clause 8).
pub fn runs_are_orderly()
    ensures { (opening : Opening) (journal : List Logged) → IsRun opening journal → IsOrderly opening journal }
{}

/// QUEUE ALGORITHM MODIFIER (SPC-4, Control mode page) changes, by a command or a reset, only where no command has
/// begun that isn't over.
pub fn runs_reorder_at_rest()
    ensures { (opening : Opening) (journal : List Logged) → IsRun opening journal → ReordersAtRest opening journal }
{}

/// A command that found a difference isn't moved on, nor cut; one that began and ends without a difference made its whole
/// plan.
pub fn runs_make_their_plans()
    ensures { (opening : Opening) (journal : List Logged) → IsRun opening journal → MakesPlans opening journal }
{}

/// A cut records the blocks that its command put, no command moves behind its entry, and a function closes behind the
/// entries of all that it hit (SAM-5, clause 7).
pub fn runs_record_prefixes()
    ensures { (opening : Opening) (journal : List Logged) → IsRun opening journal → RecordsPrefix opening journal }
{}

/// The blocks, and the data of each command that moved, are those of the recorded moves, made in their order.
pub fn runs_are_by_cells()
    ensures { (opening : Opening) (journal : List Logged) → IsRun opening journal → IsByCells opening journal }
{}

/// A command that made block operations and ended has GOOD, or, where one of them compares, MISCOMPARE DURING VERIFY
/// OPERATION (SBC-3, COMPARE AND WRITE and VERIFY).
pub fn runs_end_good_or_differ()
    ensures { (opening : Opening) (journal : List Logged) → IsRun opening journal → EndsGoodOrDiffers opening journal }
{}

/// What a command clears is cut right behind its end, and no other command is cut by one (SPC-4, PREEMPT AND ABORT).
pub fn runs_are_timely()
    ensures { (opening : Opening) (journal : List Logged) → IsRun opening journal → IsTimely opening journal }
{}

/// A command that a function cuts is told so exactly where TAS was 1 when the function was taken up (SPC-4, Control
/// mode page), and another nexus than the command's asked.
pub fn runs_tell_of_cuts()
    ensures { (opening : Opening) (journal : List Logged) → IsRun opening journal → TellsOfCuts opening journal }
{}

/// A function is rejected exactly where 64 are open; one that is taken up is answered FUNCTION SUCCEEDED exactly where
/// it is a query that finds a command of the task set, and else FUNCTION COMPLETE (SAM-5, clause 7).
pub fn runs_answer_functions()
    ensures { (opening : Opening) (journal : List Logged) → IsRun opening journal → AnswersFunctions opening journal }
{}

/// No command begins while a task management function is open.
pub fn runs_wait_for_functions()
    ensures { (opening : Opening) (journal : List Logged) → IsRun opening journal → WaitsForFunctions journal }
{}

/// Of functions that close in one act, the lower number goes first.
pub fn runs_close_by_number()
    ensures { (opening : Opening) (journal : List Logged) → IsRun opening journal → ClosesByNumber journal }
{}

/// All of a logical unit's disk but its blocks is at each time that of the serial execution.
pub fn control_is_serial()
    ensures { (opening : Opening) (journal : List Logged) → IsRun opening journal → (replay opening journal).control ≡ (serial_disk opening journal).control }
{}

/// Where no command is live and reordering was restricted, the blocks are those of the serial execution.
pub fn blocks_are_serial_at_rest()
    ensures { (opening : Opening) (journal : List Logged) → IsRun opening journal → IsRestricted opening journal
        → (replay opening journal).tasks ≡ [] → (replay opening journal).blocks ≡ (serial_disk opening journal).blocks }
{}
