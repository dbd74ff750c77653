//! The core of one logical unit: its task set, its control, its medium and the pool of blocks that commands lease.
#![tactic(auto)]

mod acts;
mod clearing;
mod entering;
mod events;
mod mechanics;
mod said;
mod search;
mod slot;
mod task_management;
mod unit;

pub use said::{Entered, Stepped};
pub use slot::Slot;
pub use unit::Lun;
