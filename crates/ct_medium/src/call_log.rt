ghost use Rattle.std.specs.Prelude.{◌≡◌};
ghost use Rattle.ct_medium.specs.Faulty.{no_calls, call_answer, after_call};

use ct_word::Failed;
use std::marker::Model;

/// Which calls are to fail, how many were made, and how many failed.
#[derive(Debug, Drop)]
pub(crate) struct CallLog {
    fails: Vec<u64>,
    /// The number of the next call, which none past `u64::MAX` has.
    next: Option<u64>,
    /// At most one for each of the 2^64 numbers.
    faults: u128,
}

impl Model for CallLog {
    ghost use Rattle.std.specs.Prelude.{◌^◌, ◌≤◌, unwrap_or};
    ghost use Rattle.ct_medium.specs.Faulty.{Calls};

    ghost Value = { Calls };

    ghost view = { λ log. record { fails = log.fails.items; made = unwrap_or log.next (2 ^ 64); faults = log.faults } };

    ghost invariant = { λ log. log.faults ≤ unwrap_or log.next (2 ^ 64) };
}

impl CallLog {
    pub(crate) fn new(fails: Vec<u64>) -> CallLog
        ensures { result ≡ no_calls fails.items }
    {
        CallLog {
            fails,
            next: Some(0),
            faults: 0,
        }
    }

    /// Counts a call, which fails where it is listed.
    pub(crate) fn call(&mut self) -> Result<(), Failed>
        ensures answer { result ≡ call_answer self.old }
        ensures counted { self.new ≡ after_call self.old }
    {
        let Some(number) = self.next else {
            return Ok(());
        };
        self.next = number.checked_add(1);
        if self.fails.contains(&number) {
            self.faults += 1;
            return Err(Failed);
        }
        Ok(())
    }
}
