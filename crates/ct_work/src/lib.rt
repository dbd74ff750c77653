//! Lanes and workers over turns: each lane's acts once and in order, whatever the other threads do.
#![tactic(auto)]

mod bell;
mod gate;
mod job;
mod lanes;
mod run;
mod workers;

pub use gate::{Gate, Open};
pub use job::{Job, Lane, Phase, Worker};
pub use run::phase;
