ghost use Rattle.std.specs.Prelude.{◌≡◌};
ghost use Rattle.ct_word.specs.Nexuses.{is_same_nexus, place_of};

use std::alloc::{AllocError, AllocFailed};
use std::marker::Model;

/// One of the two nodes of the pair.
#[derive(Clone, Copy, Debug, PartialEq, Eq)]
pub enum Node {
    A,
    B,
}

/// How the nodes share a logical unit.
#[derive(Clone, Copy, Debug, PartialEq, Eq)]
pub enum Ha {
    /// There is one node, A.
    None,
    /// Node B begins the block commands that came to it, each when A has granted it.
    Serialise,
    /// Node A executes every command, and B passes on what comes to it.
    Transfer,
}

/// An I_T nexus (SAM-5, 3.1): an initiator, seen through a port. Both numbers are below 16.
#[derive(Clone, Copy, Debug, PartialEq, Eq)]
pub struct Nexus {
    pub port: u8,
    pub init: u8,
}

impl Nexus {
    pub fn is_same(self, other: Nexus) -> bool
        ensures { result ≡ is_same_nexus self other }
    {
        self.port == other.port && self.init == other.init
    }

    /// Its place among the 256, from 0; 256 where a number isn't below 16.
    pub fn place(self) -> usize
        ensures { result ≡ place_of self }
    {
        if self.port < 16 && self.init < 16 {
            usize::from(self.port) * 16 + usize::from(self.init)
        } else {
            256
        }
    }
}

/// The number of a logical unit, 0 to 15.
#[derive(Clone, Copy, Debug, PartialEq, Eq)]
pub struct LunNo(pub u8);

/// A command identifier (SAM-5, 4.7.2), chosen by the initiator.
#[derive(Clone, Copy, Debug, PartialEq, Eq)]
pub struct Tag(pub u32);

/// The number that a logical unit gives a work at its arrival, from 1. Contracts see it as a number.
#[derive(Clone, Copy, Debug, PartialEq, Eq)]
pub struct CmdNo(u32);

impl Model for CmdNo {
    ghost use Rattle.std.specs.Prelude.{ℕ};

    ghost Value = { ℕ };

    ghost view = { λ c. c.0 };

    ghost inverse = { λ n. record { 0 = n } };
}

impl CmdNo {
    pub fn new(number: u32) -> CmdNo
        ensures { result ≡ number }
    {
        CmdNo(number)
    }

    pub fn number(self) -> u32
        ensures { result ≡ self }
    {
        self.0
    }
}

/// The room that is reserved for the works of a logical unit.
#[derive(Clone, Copy, Debug, PartialEq, Eq)]
pub struct Room {
    /// How many commands can come.
    pub commands: u32,
    /// How many task management functions can come.
    pub functions: u32,
    /// How many block operations all these commands can make together.
    pub pieces: u32,
}

/// A unit attention condition (SAM-5, 5.14), by its additional sense code and qualifier. The variants stand in the order
/// in which a nexus is told of several.
#[derive(Clone, Copy, Debug, PartialEq, Eq)]
pub enum Code {
    /// 29/00: power on, reset or bus device reset
    Reset,
    /// 29/01: power on
    PowerOn,
    /// 29/07: I_T nexus loss
    NexusLoss,
    /// 2A/01: mode parameters changed
    ModeChanged,
    /// 2A/03: reservations preempted
    ReservationsPreempted,
    /// 2A/04: reservations released
    ReservationsReleased,
    /// 2A/05: registrations preempted
    RegistrationsPreempted,
    /// 2A/06: asymmetric access state changed
    AccessStateChanged,
    /// 2F/00: commands cleared by another initiator
    CommandsCleared,
}

/// Memory ran out.
#[derive(Clone, Copy, Debug, PartialEq, Eq)]
pub struct NoMemory;

/// A source, a sink or a medium failed, and its count of faults rose.
#[derive(Clone, Copy, Debug, PartialEq, Eq)]
pub struct Failed;

impl From<AllocError> for NoMemory {
    fn from(_error: AllocError) -> NoMemory {
        NoMemory
    }
}

impl<T: Drop> From<AllocFailed<T>> for NoMemory {
    fn from(_error: AllocFailed<T>) -> NoMemory {
        NoMemory
    }
}
