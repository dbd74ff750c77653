//! The laws of the written machine: what every run owes, from every opening, each the contract of a function with an
//! empty body. A run is what any acts write, one after another, on either node and at any interleaving, with any faults
//! of the medium.
#![tactic(auto)]

mod liveness;
mod safety;
mod works;

pub use liveness::{
    acts_write, idle_is_silent, next_does_something, runs_fit_their_room, runs_never_stop,
    runs_rest_quietly,
};
pub use safety::{
    blocks_are_serial_at_rest, control_is_serial, every_run_is_lawful, runs_answer_each_work_once,
    runs_answer_functions, runs_are_by_cells, runs_are_legal, runs_are_orderly, runs_are_sound,
    runs_are_timely, runs_are_typed, runs_close_by_number, runs_end_good_or_differ,
    runs_make_their_plans, runs_record_prefixes, runs_reorder_at_rest, runs_tell_of_cuts,
    runs_wait_for_functions,
};
pub use works::{arrivals_alone_take_room, works_are_kept};

#[cfg(test)]
mod tests {
    use super::*;

    #[test]
    fn laws_can_be_called() {
        every_run_is_lawful();
        runs_are_legal();
        runs_are_sound();
        runs_answer_each_work_once();
        runs_are_typed();
        runs_are_orderly();
        runs_reorder_at_rest();
        runs_make_their_plans();
        runs_record_prefixes();
        runs_are_by_cells();
        runs_end_good_or_differ();
        runs_are_timely();
        runs_tell_of_cuts();
        runs_answer_functions();
        runs_wait_for_functions();
        runs_close_by_number();
        control_is_serial();
        blocks_are_serial_at_rest();
        runs_never_stop();
        runs_rest_quietly();
        acts_write();
        idle_is_silent();
        next_does_something();
        runs_fit_their_room();
        arrivals_alone_take_room();
        works_are_kept();
    }
}
