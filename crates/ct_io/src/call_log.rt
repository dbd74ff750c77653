ghost use Rattle.std.specs.Prelude.{◌≡◌, ◌≤◌};
ghost use Rattle.ct_io.specs.Memory.{is_listed, one_more, one_fault};

use ct_word::Failed;
use std::marker::Model;

/// Which calls are to fail, how many were made, and how many failed.
#[derive(Debug, Drop)]
pub(crate) struct CallLog {
    fails: Vec<u64>,
    /// The number of the next call, which none past `u64::MAX` has.
    next: Option<u64>,
    faults: u64,
}

impl Model for CallLog {
    ghost use Rattle.std.specs.Prelude.{◌^◌, unwrap_or};
    ghost use Rattle.ct_io.specs.Memory.{Calls};

    ghost Value = { Calls };

    ghost view = { λ log. record { fails = log.fails.items; made = unwrap_or log.next (2 ^ 64); faults = log.faults } };
}

impl CallLog {
    pub(crate) fn new(fails: Vec<u64>) -> CallLog
        ensures { result ≡ record { fails = fails.items; made = 0; faults = 0 } }
    {
        CallLog {
            fails,
            next: Some(0),
            faults: 0,
        }
    }

    /// Counts a call, and says whether it is to fail.
    pub(crate) fn begin_call(&mut self) -> bool
        ensures listed { result ≡ is_listed self.old }
        ensures counted { self.new ≡ one_more self.old }
    {
        match self.next {
            Some(number) => {
                self.next = number.checked_add(1);
                self.fails.contains(&number)
            }
            None => false,
        }
    }

    /// Counts a fault.
    pub(crate) fn fault(&mut self) -> Failed
        ensures counted { self.new ≡ one_fault self.old }
        ensures later { self.old.faults ≤ self.new.faults }
    {
        self.faults = self.faults.saturating_add(1);
        Failed
    }
}
