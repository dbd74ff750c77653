//! What idle workers wait for.

use std::sync::{Condvar, Mutex, Wait};

#[derive(Drop)]
struct Progress {
    // How often something moved, modulo 2^64.
    moves: u64,
    // All lanes are done.
    finished: bool,
}

/// Rung whenever an act may have made something ready, and once all lanes are done. No clause speaks of it.
#[derive(Drop)]
pub(crate) struct Bell {
    progress: Mutex<Progress>,
    rung: Condvar,
}

impl Bell {
    pub(crate) fn new() -> Bell {
        Bell {
            progress: Mutex::new(Progress {
                moves: 0,
                finished: false,
            }),
            rung: Condvar::new(),
        }
    }

    pub(crate) fn ring<R: Wait>(&self, rt: &R) {
        let mut progress = self.progress.lock(rt);
        progress.moves = progress.moves.wrapping_add(1);
        self.rung.notify_all();
    }

    pub(crate) fn finish<R: Wait>(&self, rt: &R) {
        self.progress.lock(rt).finished = true;
        self.rung.notify_all();
    }

    /// How often it was rung, or None once all lanes are done.
    pub(crate) fn moves<R: Wait>(&self, rt: &R) -> Option<u64> {
        let progress = self.progress.lock(rt);
        if progress.finished {
            None
        } else {
            Some(progress.moves)
        }
    }

    /// Waits until it is rung again, after it was rung so often, or all lanes are done.
    pub(crate) fn wait_past<R: Wait>(&self, rt: &R, moves: u64) {
        let _progress = self
            .rung
            .wait_while(rt, self.progress.lock(rt), |progress| {
                progress.moves == moves && !progress.finished
            });
    }
}
