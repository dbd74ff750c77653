ghost use Rattle.std.specs.Prelude.{◌≡◌};
ghost use Rattle.ct_ua.specs.CodeSets.{sense_code_of, no_codes, first_of, put_code};
ghost use Rattle.ct_ua.specs.CodeSets.{with_code, without_code};

use ct_sense::{SenseCode, code};
use ct_word::Code;

/// A set of unit attention conditions: for each code whether it is in the set.
#[derive(Clone, Copy, Debug, PartialEq, Eq)]
pub struct CodeSet {
    pub reset: bool,
    pub power_on: bool,
    pub nexus_loss: bool,
    pub mode_changed: bool,
    pub reservations_preempted: bool,
    pub reservations_released: bool,
    pub registrations_preempted: bool,
    pub access_state_changed: bool,
    pub commands_cleared: bool,
}

impl CodeSet {
    /// The empty set.
    pub fn none() -> CodeSet
        ensures { result ≡ no_codes }
    {
        CodeSet {
            reset: false,
            power_on: false,
            nexus_loss: false,
            mode_changed: false,
            reservations_preempted: false,
            reservations_released: false,
            registrations_preempted: false,
            access_state_changed: false,
            commands_cleared: false,
        }
    }

    /// The code that is told first; None exactly where the set is empty.
    pub fn first(self) -> Option<Code>
        ensures { result ≡ first_of self }
    {
        if self.reset {
            Some(Code::Reset)
        } else if self.power_on {
            Some(Code::PowerOn)
        } else if self.nexus_loss {
            Some(Code::NexusLoss)
        } else if self.mode_changed {
            Some(Code::ModeChanged)
        } else if self.reservations_preempted {
            Some(Code::ReservationsPreempted)
        } else if self.reservations_released {
            Some(Code::ReservationsReleased)
        } else if self.registrations_preempted {
            Some(Code::RegistrationsPreempted)
        } else if self.access_state_changed {
            Some(Code::AccessStateChanged)
        } else if self.commands_cleared {
            Some(Code::CommandsCleared)
        } else {
            None
        }
    }

    /// The set with a code, which may be in it already.
    pub fn with(self, code: Code) -> CodeSet
        ensures { result ≡ with_code self code }
    {
        self.put(code, true)
    }

    /// The set without a code.
    pub fn without(self, code: Code) -> CodeSet
        ensures { result ≡ without_code self code }
    {
        self.put(code, false)
    }

    fn put(mut self, code: Code, is_in: bool) -> CodeSet
        ensures { result ≡ put_code self code is_in }
    {
        match code {
            Code::Reset => self.reset = is_in,
            Code::PowerOn => self.power_on = is_in,
            Code::NexusLoss => self.nexus_loss = is_in,
            Code::ModeChanged => self.mode_changed = is_in,
            Code::ReservationsPreempted => self.reservations_preempted = is_in,
            Code::ReservationsReleased => self.reservations_released = is_in,
            Code::RegistrationsPreempted => self.registrations_preempted = is_in,
            Code::AccessStateChanged => self.access_state_changed = is_in,
            Code::CommandsCleared => self.commands_cleared = is_in,
        }
        self
    }
}

/// The sense key and the additional sense code of a condition (SPC-4, 4.5 and the annex of additional sense codes).
pub fn sense_code(condition: Code) -> SenseCode
    ensures { result ≡ sense_code_of condition }
{
    match condition {
        Code::Reset => code::POWER_ON_OR_RESET_OCCURRED,
        Code::PowerOn => code::POWER_ON_OCCURRED,
        Code::NexusLoss => code::I_T_NEXUS_LOSS_OCCURRED,
        Code::ModeChanged => code::MODE_PARAMETERS_CHANGED,
        Code::ReservationsPreempted => code::RESERVATIONS_PREEMPTED,
        Code::ReservationsReleased => code::RESERVATIONS_RELEASED,
        Code::RegistrationsPreempted => code::REGISTRATIONS_PREEMPTED,
        Code::AccessStateChanged => code::ASYMMETRIC_ACCESS_STATE_CHANGED,
        Code::CommandsCleared => code::COMMANDS_CLEARED_BY_ANOTHER_INITIATOR,
    }
}
